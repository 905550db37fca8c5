// Replays the vectors of finish: ops 18 finish, 19 finish of an arena that is made. Space is lent dirty, and what is left is tested.
#![tactic(auto)]

ghost use Rattle.std.specs.Prelude.{◌+◌, ◌*◌, ◌≤◌, length};

use numbers::Refusal;
use records::Arena;
use std::io;
use std::io::Print;
use vectors::{Count, space};
use words::field;

// The counts of each op, and how many made arenas need more workspace than there is room for.
#[derive(Default, Drop)]
pub struct Tally {
    finish: Count,
    made: Count,
    larger: u64,
}

// The length of a made arena of one key more than finish takes.
const ARENA: usize = 2_424_869;

// The u64 workspace of 20,000 keys.
const WIDE: usize = 40_000;

// Their u32 workspace.
const NARROW: usize = 160_008;

// Whether an answer is this number, with a body of this size; a refusal has none.
fn answer_is(r: Result<usize, Refusal>, number: u8, size: usize) -> bool {
    match r {
        Ok(s) => number == 0 && s == size,
        Err(refusal) => size == 0 && refusal.number() == number,
    }
}

// What the workspace holds after a call: 0 once the lengths are checked, and before that what it held.
fn left(number: u8) -> u8 {
    if number == 0 || Refusal::Attempts.number() <= number {
        0
    } else {
        space::DIRTY
    }
}

// Finish, and whether it answers this number and size and leaves the workspace as it should.
fn run_agrees(
    arena: &[u8],
    wide: &mut [u64],
    narrow: &mut [u32],
    out: &mut [u8],
    number: u8,
    size: usize,
) -> bool {
    let r = finish::finish(arena, out, wide, narrow);
    answer_is(r, number, size) && space::spaces_hold(wide, narrow, left(number))
}

// Finish of the arena at 0, and whether all is as stored: u8 number, bytes body stand at `at`.
fn body_agrees(wide: &mut [u64], narrow: &mut [u32], out: &mut [u8], p: &[u8], at: usize) -> bool {
    let body = vectors::bytes_in(p, vectors::end_in(p, at, 1));
    let number = vectors::u8_in(p, at);
    let arena = vectors::bytes_in(p, 0);
    run_agrees(arena, wide, narrow, out, number, body.len()) && space::output_agrees(out, body)
}

// Lends as much as the case says, none more than there is room for.
fn lend(w: usize, m: usize, o: usize, p: &[u8], answer: usize) -> bool {
    if WIDE < w || NARROW < m || space::LARGEST < o {
        return false;
    }
    let mut wide: [u64; WIDE] = space::room(space::DIRTY as u64);
    let mut narrow: [u32; NARROW] = space::room(space::DIRTY as u32);
    let mut out: [u8; space::LARGEST] = space::room(space::DIRTY);
    body_agrees(&mut wide[..w], &mut narrow[..m], &mut out[..o], p, answer)
}

// 18: bytes arena, u32 output length, u32 u64s lent, u32 u32s lent -> u8 number, bytes body.
fn finish_agrees(p: &[u8]) -> bool {
    let at = vectors::bytes_end(p, 0);
    let answer = vectors::end_in(p, at, 12);
    if vectors::bytes_end(p, vectors::end_in(p, answer, 1)) != p.len() {
        return false;
    }
    let o = vectors::u32_in(p, at) as usize;
    let w = vectors::u32_in(p, vectors::end_in(p, at, 4)) as usize;
    let m = vectors::u32_in(p, vectors::end_in(p, at, 8)) as usize;
    lend(w, m, o, p, answer)
}

// The key of entry i, as a number: i times 2^40, and 40 mixed bits.
fn key_of(seed: u64, i: u64) -> u64 {
    let mixed = mixing::mix(seed.wrapping_add(i)) % 1_099_511_627_776;
    i.wrapping_mul(1_099_511_627_776).wrapping_add(mixed)
}

// Writes the version of entry i at `at`: one put of sequence i + 1, length 8, offset 8i.
fn put_version(out: &mut [u8], at: usize, i: u64)
    requires { at + 21 ≤ length out.old }
{
    field::put_u64(out, at, i.wrapping_add(1));
    field::put_u8(out, at + 8, 1);
    field::put_u32(out, at + 9, 8);
    field::put_u64(out, at + 13, i.wrapping_mul(8));
}

// Writes entry i at `at`: a key of 8 bytes, and one version.
fn put_entry(out: &mut [u8], at: usize, seed: u64, i: u64)
    requires { at + 37 ≤ length out.old }
{
    field::put_u32(out, at, 8);
    field::put_u32(out, at + 4, 1);
    out[at + 8..at + 16].copy_from_slice(&key_of(seed, i).to_be_bytes());
    put_version(out, at + 16, i);
}

// Writes n entries.
fn put_entries(out: &mut [u8], seed: u64, n: usize)
    requires { 37 * n ≤ length out.old }
{
    for i in 0..n {
        put_entry(out, 37 * i, seed, i as u64);
    }
}

// The seed of a body of this size; 0 of none.
fn seed_of(out: &[u8], size: usize) -> u64 {
    if size == 0 {
        0
    } else {
        vectors::u64_in(out, 8)
    }
}

// Whether the output is a body of this size with the digest and the seed stored: u64s at 21 and 29.
fn made_output_agrees(out: &[u8], size: usize, p: &[u8]) -> bool {
    seed_of(out, size) == vectors::u64_in(p, 29)
        && space::digest_agrees(out, size, vectors::u64_in(p, 21))
}

// Finish of a made arena, over all the workspace there is.
fn made_run(arena: &[u8], out: &mut [u8], p: &[u8]) -> bool {
    let mut wide: [u64; WIDE] = space::room(space::DIRTY as u64);
    let mut narrow: [u32; NARROW] = space::room(space::DIRTY as u32);
    let number = vectors::u8_in(p, 12);
    let size = vectors::u64_in(p, 13) as usize;
    run_agrees(arena, &mut wide, &mut narrow, out, number, size) && made_output_agrees(out, size, p)
}

// The same, over all the output there is.
fn made_into(arena: &[u8], p: &[u8]) -> bool {
    let mut out: [u8; space::LARGEST] = space::room(space::DIRTY);
    made_run(arena, &mut out, p)
}

// Finish of the first bytes made.
fn made_front(made: &[u8], size: usize, p: &[u8]) -> bool {
    match made.get(..size) {
        Some(arena) => made_into(arena, p),
        None => false,
    }
}

// 19: u64 seed, u32 n -> u8 number, u64 body length, u64 digest, u64 the body's seed.
fn made_agrees(p: &[u8], n: usize) -> bool {
    if 65537 < n {
        return false;
    }
    let size = 37 * n;
    let mut arena: [u8; ARENA] = space::room(0);
    put_entries(&mut arena, vectors::u64_in(p, 0), n);
    made_front(&arena, size, p)
}

// Whether finish takes a made arena of n keys, and there is no room for it.
fn passes_room(n: usize) -> bool {
    20_000 < n && n <= Arena::MAX_KEYS
}

impl Tally {
    // Replays one case of op 19.
    fn made_one(mut self, p: &[u8]) -> Tally {
        let n = vectors::u32_in(p, 8) as usize;
        if p.len() != 37 {
            self.made = self.made.counted(false);
        } else if passes_room(n) {
            self.larger = self.larger.wrapping_add(1);
        } else {
            self.made = self.made.counted(made_agrees(p, n));
        }
        self
    }

    // Replays the case whose payload is the `bytes` field at a place of the file.
    pub fn replayed(mut self, file: &[u8], op: u8, place: usize) -> Tally {
        let p = vectors::bytes_in(file, place);
        match op {
            0x18 => self.finish = self.finish.counted(finish_agrees(p)),
            0x19 => return self.made_one(p),
            _ => {}
        }
        self
    }

    // Prints the counts.
    pub fn report<P: Print>(self, to: &P) -> io::Result<()> {
        vectors::report(to, b"finish", self.finish)?;
        vectors::report(to, b"finish, made", self.made)?;
        vectors::note(to, b"finish, made, left to compare", self.larger)
    }
}
