// Replays the vectors of mixing: ops 01 mix, 02 hash and fingerprint, 03 bucket and position.
#![tactic(auto)]

use std::io;
use std::io::Print;
use vectors::Count;

// The counts of each op.
#[derive(Default, Drop)]
pub struct Tally {
    mix: Count,
    hash: Count,
    places: Count,
}

// 01: u64 h -> u64.
fn mix_agrees(p: &[u8]) -> bool {
    p.len() == 16 && mixing::mix(vectors::u64_in(p, 0)) == vectors::u64_in(p, 8)
}

// 02: u64 seed, bytes key -> u64 hash, u16 fingerprint.
fn hash_agrees(p: &[u8]) -> bool {
    let h = mixing::hash(vectors::bytes_in(p, 8), vectors::u64_in(p, 0));
    let end = vectors::bytes_end(p, 8);
    p.len() - end == 10
        && h == vectors::u64_in(p, end)
        && mixing::fingerprint(h) == vectors::u16_in(p, end + 8)
}

// 03: u64 h, u32 pilot, u32 n, u32 b -> u32 bucket, u32 position.
fn places_agree(p: &[u8]) -> bool {
    let h = vectors::u64_in(p, 0);
    let pilot = vectors::u32_in(p, 8);
    let n = vectors::u32_in(p, 12) as usize;
    let b = vectors::u32_in(p, 16) as usize;
    p.len() == 28
        && mixing::bucket(h, b) == vectors::u32_in(p, 20) as usize
        && mixing::position(h, pilot, n) == vectors::u32_in(p, 24) as usize
}

impl Tally {
    // Replays the case whose payload is the `bytes` field at a place of the file.
    pub fn replayed(mut self, file: &[u8], op: u8, place: usize) -> Tally {
        let p = vectors::bytes_in(file, place);
        match op {
            1 => self.mix = self.mix.counted(mix_agrees(p)),
            2 => self.hash = self.hash.counted(hash_agrees(p)),
            3 => self.places = self.places.counted(places_agree(p)),
            _ => {}
        }
        self
    }

    // Prints the counts.
    pub fn report<P: Print>(self, to: &P) -> io::Result<()> {
        vectors::report(to, b"mix", self.mix)?;
        vectors::report(to, b"hash", self.hash)?;
        vectors::report(to, b"places", self.places)
    }
}
