// Replays the vectors of filter building: ops 30 build, 31 build of made hashes. Space is lent dirty, and what is left is tested.
#![tactic(auto)]

use numbers::number_of;
use std::io;
use std::io::Print;
use vectors::{Count, space};

// The counts of each op.
#[derive(Default, Drop)]
pub struct Tally {
    built: Count,
    made: Count,
}

// One hash more than building takes.
const HASHES: usize = 65_537;

// The u64 workspace of the most hashes, and more.
const WIDE: usize = 140_300;

// The u32 workspace.
const NARROW: usize = 215_100;

// The output.
const OUTPUT: usize = 74_850;

// Takes the hashes of a case: u64s from byte 4 on.
fn take_hashes(hashes: &mut [u64], p: &[u8]) {
    for (i, hash) in hashes.iter_mut().enumerate() {
        *hash = vectors::u64_in(p, 4 + 8 * i);
    }
}

// Whether the hashes are as they were taken.
fn hashes_stand(hashes: &[u64], p: &[u8]) -> bool {
    for (i, hash) in hashes.iter().enumerate() {
        if *hash != vectors::u64_in(p, 4 + 8 * i) {
            return false;
        }
    }
    true
}

// Makes the hashes: hash i is mix(seed + i × STEP), wrapping.
fn make_hashes(hashes: &mut [u64], seed: u64) {
    let mut next = seed;
    for hash in hashes {
        *hash = mixing::mix(next);
        next = next.wrapping_add(mixing::STEP);
    }
}

// Takes the hashes, builds, and tests the answer and what is left: u8 number, bytes filter stand at `at`.
fn built_agrees(
    hashes: &mut [u64],
    wide: &mut [u64],
    narrow: &mut [u32],
    out: &mut [u8],
    p: &[u8],
    at: usize,
) -> bool {
    take_hashes(hashes, p);
    let number = number_of(&filter::build(hashes, wide, narrow, out));
    let want = vectors::bytes_in(p, vectors::end_in(p, at, 1));
    if number != vectors::u8_in(p, at) || !space::output_agrees(out, want) {
        return false;
    }
    if number == 0 {
        hashes.is_sorted() && space::spaces_hold(wide, narrow, 0)
    } else {
        hashes_stand(hashes, p) && space::spaces_hold(wide, narrow, space::DIRTY)
    }
}

// 30: u32 n, n u64 hashes, u32 output length, u32 u64s lent, u32 u32s lent -> u8 number, bytes filter.
fn build_agrees(p: &[u8]) -> bool {
    let n = vectors::u32_in(p, 0) as usize;
    let at = vectors::end_in(p, 4, 8 * n);
    let o = vectors::u32_in(p, at) as usize;
    let w = vectors::u32_in(p, vectors::end_in(p, at, 4)) as usize;
    let m = vectors::u32_in(p, vectors::end_in(p, at, 8)) as usize;
    let answer = vectors::end_in(p, at, 12);
    if vectors::bytes_end(p, vectors::end_in(p, answer, 1)) != p.len() {
        return false;
    }
    lend(n, w, m, o, p, answer)
}

// Lends as much as the case says, none more than there is room for.
fn lend(n: usize, w: usize, m: usize, o: usize, p: &[u8], answer: usize) -> bool {
    if HASHES < n || WIDE < w || NARROW < m || OUTPUT < o {
        return false;
    }
    let mut hashes: [u64; HASHES] = space::room(0);
    let mut wide: [u64; WIDE] = space::room(space::DIRTY as u64);
    let mut narrow: [u32; NARROW] = space::room(space::DIRTY as u32);
    let mut out: [u8; OUTPUT] = space::room(space::DIRTY);
    built_agrees(
        &mut hashes[..n],
        &mut wide[..w],
        &mut narrow[..m],
        &mut out[..o],
        p,
        answer,
    )
}

// 31: u64 seed, u32 n -> u8 number, u64 length, u64 digest. All there is room for is lent.
fn made_agrees(p: &[u8]) -> bool {
    if p.len() != 29 {
        return false;
    }
    let n = vectors::u32_in(p, 8) as usize;
    let mut room: [u64; HASHES] = space::room(0);
    let Some(hashes) = room.get_mut(..n) else {
        return false;
    };
    let mut out: [u8; OUTPUT] = space::room(space::DIRTY);
    let size = vectors::u64_in(p, 13) as usize;
    make_hashes(hashes, vectors::u64_in(p, 0));
    made_run(hashes, &mut out, vectors::u8_in(p, 12))
        && space::digest_agrees(&out, size, vectors::u64_in(p, 21))
}

// Whether building over all the workspace answers this number, and leaves the workspace zero, or, refused, as it was.
fn made_run(hashes: &mut [u64], out: &mut [u8], want: u8) -> bool {
    let mut wide: [u64; WIDE] = space::room(space::DIRTY as u64);
    let mut narrow: [u32; NARROW] = space::room(space::DIRTY as u32);
    let number = number_of(&filter::build(hashes, &mut wide, &mut narrow, out));
    let left = if number == 0 { 0 } else { space::DIRTY };
    number == want && space::spaces_hold(&wide, &narrow, left)
}

impl Tally {
    // Replays the case whose payload is the `bytes` field at a place of the file.
    pub fn replayed(mut self, file: &[u8], op: u8, place: usize) -> Tally {
        let p = vectors::bytes_in(file, place);
        match op {
            0x30 => self.built = self.built.counted(build_agrees(p)),
            0x31 => self.made = self.made.counted(made_agrees(p)),
            _ => {}
        }
        self
    }

    // Prints the counts.
    pub fn report<P: Print>(self, to: &P) -> io::Result<()> {
        vectors::report(to, b"filter build", self.built)?;
        vectors::report(to, b"filter build, made", self.made)
    }
}
