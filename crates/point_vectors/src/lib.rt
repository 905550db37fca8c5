// Replays the vectors of reading: ops 20 body, 21 validate, 22 get with its value.
#![tactic(auto)]

ghost use Rattle.std.specs.Prelude.{◌≡◌, ◌+◌, ◌≤◌, length};

use numbers::number_of;
use point::Answer;
use records::{Limit, Record};
use std::io;
use std::io::Print;
use vectors::Count;

// The counts of each op; and where the base body stands in the file, a `bytes` field.
#[derive(Default, Drop)]
pub struct Tally {
    validate: Count,
    get: Count,
    body: usize,
}

// 21: patched body, u64 data length -> u8 number (0 accepted).
fn validate_agrees(base: &[u8], p: &[u8]) -> bool {
    let mut room = [0u8; 4096];
    let size = vectors::patch::patched(base, p, &mut room);
    let at = vectors::patch::after_patches(p);
    if p.len() != at + 9 {
        return false;
    }
    let given = point::validate(&room[..size], vectors::u64_in(p, at));
    number_of(&given) == vectors::u8_in(p, at + 8)
}

// The data that gets are lent: byte i is (i * 167 ^ (i / 256) * 59 ^ i / 65536) mod 256.
fn data() -> [u8; 4096]
    ensures { 4096 ≡ length result }
{
    std::array::from_fn(|i| ((i * 167 ^ i / 256 * 59 ^ i / 65536) % 256) as u8)
}

// The limit at a place: u8 given, u64 limit.
fn limit_in(p: &[u8], at: usize) -> Limit
    requires { at + 9 ≤ length p.now }
{
    if vectors::u8_in(p, at) == 0 {
        None
    } else {
        Some(vectors::u64_in(p, at + 1))
    }
}

// The record whose kind, sequence, offset and length stand at a place.
fn record_agrees(r: Record, p: &[u8], at: usize) -> bool
    requires { at + 25 ≤ length p.now }
{
    r.kind.byte() == vectors::u8_in(p, at)
        && r.sequence == vectors::u64_in(p, at + 1)
        && r.offset == vectors::u64_in(p, at + 9)
        && r.length as u64 == vectors::u64_in(p, at + 17)
}

// The value handed back is the part of the data that the record names.
fn value_agrees(r: Record, bytes: &[u8], value: &[u8]) -> bool {
    let Some(behind) = bytes.get(r.offset as usize..) else {
        return false;
    };
    match behind.get(..r.length as usize) {
        Some(named) => words::part::same(named, value),
        None => false,
    }
}

// The answer and the value as they stand at a place: u8 0 nothing, 1 found or 14; then the record.
fn answer_agrees(answer: Answer, bytes: &[u8], value: &[u8], p: &[u8], at: usize) -> bool
    requires { at + 26 ≤ length p.now }
{
    let number = vectors::u8_in(p, at);
    match answer {
        Answer::Found(r) => {
            number == 1 && record_agrees(r, p, at + 1) && value_agrees(r, bytes, value)
        }
        Answer::Nothing => number == 0 && value.is_empty(),
        Answer::Refused(refusal) => number == refusal.number() && value.is_empty(),
    }
}

// Whether get and value agree with a payload: key at `at`, limit and answer at `end`.
fn reading_agrees(body: &[u8], bytes: &[u8], p: &[u8], at: usize, end: usize) -> bool
    requires { end + 35 ≤ length p.now }
{
    let limit = limit_in(p, end);
    let key = vectors::bytes_in(p, at);
    let answer = point::get(body, bytes, key, limit);
    let value = point::value(body, bytes, key, limit);
    answer_agrees(answer, bytes, value, p, end + 9)
}

// 22: patched body, u64 data length, bytes key, u8 limit given, u64 limit -> the answer.
fn get_agrees(base: &[u8], p: &[u8]) -> bool {
    let mut room = [0u8; 4096];
    let size = vectors::patch::patched(base, p, &mut room);
    let at = vectors::patch::after_patches(p);
    let end = vectors::bytes_end(p, at + 8);
    if p.len() - end != 35 {
        return false;
    }
    match data().get(..vectors::u64_in(p, at) as usize) {
        Some(bytes) => reading_agrees(&room[..size], bytes, p, at + 8, end),
        None => false,
    }
}

impl Tally {
    // Replays the case whose payload is the `bytes` field at a place of the file.
    pub fn replayed(mut self, file: &[u8], op: u8, place: usize) -> Tally {
        let p = vectors::bytes_in(file, place);
        let body = vectors::bytes_in(file, self.body);
        match op {
            0x20 => self.body = vectors::end_in(file, place, 4),
            0x21 => self.validate = self.validate.counted(validate_agrees(body, p)),
            0x22 => self.get = self.get.counted(get_agrees(body, p)),
            _ => {}
        }
        self
    }

    // Prints the counts.
    pub fn report<P: Print>(self, to: &P) -> io::Result<()> {
        vectors::report(to, b"validate", self.validate)?;
        vectors::report(to, b"get", self.get)
    }
}
