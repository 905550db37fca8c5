// Replays the vectors of the filter's reading side: ops 04 positions, 05 sizing, 32 filter, 33 read and ask.
#![tactic(auto)]

use filter::SstFilter;
use fuse::{Sizes, header};
use numbers::Refusal;
use sizing::Plan;
use std::io;
use std::io::Print;
use vectors::{Count, space};

// The counts of each op; and where the base filter stands in the file, a `bytes` field.
#[derive(Default, Drop)]
pub struct Tally {
    positions: Count,
    sizing: Count,
    asked: Count,
    base: usize,
}

// Whether position i of h is the u32 that stands at 16 + 4i.
fn position_agrees(p: &[u8], s: Sizes, cells: usize, i: usize) -> bool {
    if 4 <= i || !header::fits(s, cells) {
        return false;
    }
    let h = vectors::u64_in(p, 0);
    let at = s.segments().cell(h, i);
    at == vectors::u32_in(p, 16 + 4 * i) as usize
}

// 04: u64 h, u32 segment, u32 count -> four u32.
fn positions_agree(p: &[u8]) -> bool {
    if p.len() != 32 {
        return false;
    }
    let s = Sizes {
        keys: 1,
        seed: 0,
        segment: vectors::u32_in(p, 8),
        count: vectors::u32_in(p, 12),
    };
    let cells = (s.count as u64 + 3).wrapping_mul(s.segment as u64) as usize;
    (0..4).all(|i| position_agrees(p, s, cells, i))
}

// 05: u32 n -> u32 segment, u32 segments, u32 cells.
fn sizing_agrees(p: &[u8]) -> bool {
    if p.len() != 16 {
        return false;
    }
    let Plan::Fuse(s) = Plan::of(vectors::u32_in(p, 0) as usize) else {
        return false;
    };
    let segments = s.count as u64 + 3;
    s.segment == vectors::u32_in(p, 4)
        && segments == vectors::u32_in(p, 8) as u64
        && segments.wrapping_mul(s.segment as u64) == vectors::u32_in(p, 12) as u64
}

// The longest filter of the stored cases.
const LONGEST: usize = 2_097_200;

// The number of what was read.
fn read_number(bytes: &[u8]) -> u8 {
    match filter::read(bytes) {
        SstFilter::Positive => 0,
        SstFilter::Fuse(_) => 0,
        SstFilter::Refused => Refusal::Filter.number(),
    }
}

// u32 m, m u64 hashes -> u8 0 / 15, then m bytes: 0 absent, 1 maybe, 15.
fn answers_agree(bytes: &[u8], p: &[u8]) -> bool {
    let m = vectors::u32_in(p, 0) as usize;
    let number = 4 + 8 * m;
    if p.len() != number + 1 + m {
        return false;
    }
    if read_number(bytes) != vectors::u8_in(p, number) {
        return false;
    }
    (0..m).all(|i| {
        filter::ask(bytes, vectors::u64_in(p, 4 + 8 * i)).number()
            == vectors::u8_in(p, number + 1 + i)
    })
}

// 33: patched filter, then the hashes and their answers.
fn asked_agrees(base: &[u8], p: &[u8]) -> bool {
    let mut bytes: [u8; LONGEST] = space::room(0);
    let size = vectors::patch::patched(base, p, &mut bytes);
    if size != vectors::u32_in(p, 0) as usize {
        return false;
    }
    let from = vectors::end_in(p, 0, vectors::patch::after_patches(p));
    answers_agree(&bytes[..size], &p[from..])
}

impl Tally {
    // Replays the case whose payload is the `bytes` field at a place of the file.
    pub fn replayed(mut self, file: &[u8], op: u8, place: usize) -> Tally {
        let p = vectors::bytes_in(file, place);
        let base = vectors::bytes_in(file, self.base);
        match op {
            4 => self.positions = self.positions.counted(positions_agree(p)),
            5 => self.sizing = self.sizing.counted(sizing_agrees(p)),
            0x32 => self.base = vectors::end_in(file, place, 4),
            0x33 => self.asked = self.asked.counted(asked_agrees(base, p)),
            _ => {}
        }
        self
    }

    // Prints the counts.
    pub fn report<P: Print>(self, to: &P) -> io::Result<()> {
        vectors::report(to, b"filter positions", self.positions)?;
        vectors::report(to, b"sizing", self.sizing)?;
        vectors::report(to, b"read and ask", self.asked)
    }
}
