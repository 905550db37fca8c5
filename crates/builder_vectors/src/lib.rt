// Replays the vectors of the builder: ops 0f buffer, 10 add, 11 set offset, 12 look, 13 poke.
#![tactic(auto)]

use builder::PointBuilder;
use numbers::{Refusal, number_of};
use records::Kind;
use std::io;
use std::io::Print;
use vectors::{Count, space};

// The builder buffer's length, and the counts of each op.
#[derive(Default, Drop)]
pub struct Tally {
    length: usize,
    buffer: Count,
    add: Count,
    set: Count,
    look: Count,
    poke: Count,
}

// The state at `at`: used, keys, head.
fn state_in(p: &[u8], at: usize) -> PointBuilder {
    PointBuilder {
        used: vectors::u64_in(p, at) as usize,
        keys: vectors::u64_in(p, vectors::end_in(p, at, 8)) as usize,
        head: vectors::u64_in(p, vectors::end_in(p, at, 16)) as usize,
    }
}

// Whether an answer is the one stored at `at`: u8 number (0 taken), state, u64 place.
fn answered(given: Result<(PointBuilder, usize), Refusal>, p: &[u8], at: usize) -> bool {
    let number = vectors::u8_in(p, at);
    match given {
        Err(refusal) => refusal.number() == number,
        Ok((next, place)) => {
            number == 0
                && next == state_in(p, vectors::end_in(p, at, 1))
                && place as u64 == vectors::u64_in(p, vectors::end_in(p, at, 25))
        }
    }
}

// 10: state, u8 new, u8 kind, a key, then from `at` on u32 value length, u64 sequence -> u8 number, state, u64 place.
fn added(buffer: &mut [u8], key: &[u8], p: &[u8], at: usize) -> bool {
    if vectors::end_in(p, at, 49) != p.len() {
        return false;
    }
    let Some(kind) = Kind::from_byte(vectors::u8_in(p, 25)) else {
        return false;
    };
    let size = vectors::u32_in(p, at) as u64;
    let sequence = vectors::u64_in(p, vectors::end_in(p, at, 4));
    let new_key = vectors::u8_in(p, 24) != 0;
    let given = state_in(p, 0).add(buffer, key, kind, size, sequence, new_key);
    answered(given, p, vectors::end_in(p, at, 12))
}

// Op 10 whose key is one byte repeated: u8 value, u32 length stand at 27.
fn repeated_agrees(buffer: &mut [u8], p: &[u8]) -> bool {
    let size = vectors::u32_in(p, 28) as usize;
    let room: [u8; space::LARGEST] = space::room(vectors::u8_in(p, 27));
    match room.get(..size) {
        Some(key) => added(buffer, key, p, 32),
        None => false,
    }
}

// Op 10, whose key stands as bytes or is one byte repeated.
fn add_agrees(buffer: &mut [u8], p: &[u8]) -> bool {
    if vectors::u8_in(p, 26) == 0 {
        return added(
            buffer,
            vectors::bytes_in(p, 27),
            p,
            vectors::bytes_end(p, 27),
        );
    }
    repeated_agrees(buffer, p)
}

// 11: state, u64 place, u64 offset -> u8 number.
fn set_agrees(buffer: &mut [u8], p: &[u8]) -> bool {
    if p.len() != 41 {
        return false;
    }
    let place = vectors::u64_in(p, 24) as usize;
    let given = state_in(p, 0).set_value_offset(buffer, place, vectors::u64_in(p, 32));
    number_of(&given) == vectors::u8_in(p, 40)
}

// 12: u32 from, bytes: the buffer holds them there.
fn look_agrees(buffer: &[u8], p: &[u8]) -> bool {
    let want = vectors::bytes_in(p, 4);
    let from = vectors::end_in(buffer, 0, vectors::u32_in(p, 0) as usize);
    let to = vectors::end_in(buffer, from, want.len());
    words::part::same(&buffer[from..to], want)
}

// 13: u32 place, u8 value: changes the buffer.
fn poked(buffer: &mut [u8], p: &[u8]) -> bool {
    match buffer.get_mut(vectors::u32_in(p, 0) as usize) {
        Some(byte) => {
            *byte = vectors::u8_in(p, 4);
            p.len() == 5
        }
        None => false,
    }
}

impl Tally {
    // 0f: u32 length, u8 fill: a fresh builder buffer.
    fn opened(mut self, room: &mut [u8], p: &[u8]) -> Tally {
        let size = vectors::u32_in(p, 0) as usize;
        if room.len() < size {
            self.buffer = self.buffer.counted(false);
            return self;
        }
        room.fill(vectors::u8_in(p, 4));
        self.length = size;
        self.buffer = self.buffer.counted(p.len() == 5);
        self
    }

    // Replays one case that works on the buffer.
    fn worked(mut self, op: u8, buffer: &mut [u8], p: &[u8]) -> Tally {
        match op {
            0x10 => self.add = self.add.counted(add_agrees(buffer, p)),
            0x11 => self.set = self.set.counted(set_agrees(buffer, p)),
            0x12 => self.look = self.look.counted(look_agrees(buffer, p)),
            0x13 => self.poke = self.poke.counted(poked(buffer, p)),
            _ => {}
        }
        self
    }

    // Replays the case whose payload is the `bytes` field at a place of the file, on room for the builder buffer.
    pub fn replayed(self, file: &[u8], op: u8, place: usize, room: &mut [u8]) -> Tally {
        let p = vectors::bytes_in(file, place);
        if op == 0x0f {
            return self.opened(room, p);
        }
        match room.get_mut(..self.length) {
            Some(buffer) => self.worked(op, buffer, p),
            None => self,
        }
    }

    // Prints the counts.
    pub fn report<P: Print>(self, to: &P) -> io::Result<()> {
        vectors::report(to, b"buffer", self.buffer)?;
        vectors::report(to, b"add", self.add)?;
        vectors::report(to, b"set offset", self.set)?;
        vectors::report(to, b"look", self.look)?;
        vectors::report(to, b"poke", self.poke)
    }
}
