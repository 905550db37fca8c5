// Stored vectors: the cases of a file by a cursor, the fields of a case, and the counts that a replay prints.
// A field that lies outside its bytes reads 0 or empty: a replay tests that its fields end where the payload ends.
#![tactic(auto)]

ghost use Rattle.std.specs.Prelude.{◌≡◌, ◌+◌, ◌-◌, ◌<◌, length, MatchOption};
ghost use Rattle.vectors.specs.Format.{IsFieldAt, field_of, end_of, bytes_end, field_bytes, file_of, next_of, counted_of};

use std::io;
use std::io::Print;
use words::field;

pub mod patch;
pub mod space;

// How many bytes stand from `at` on.
fn room(raw: &[u8], at: usize) -> usize
    ensures { result ≡ length raw.now - at }
{
    raw.len().saturating_sub(at)
}

// The N bytes at `at`, where they are all there.
fn bytes_at<const N: usize>(raw: &[u8], at: usize) -> Option<&[u8; N]>
    ensures { MatchOption result (length raw.now < at + N) (λ bytes. IsFieldAt raw.now at N bytes.now) }
{
    raw.get(at..)?.first_chunk()
}

// The byte at `at`.
pub fn u8_in(raw: &[u8], at: usize) -> u8
    ensures { result ≡ field_of 1 raw.now at }
{
    match bytes_at(raw, at) {
        Some(bytes) => u8::from_le_bytes(*bytes),
        None => 0,
    }
}

// The u16 at `at`.
pub fn u16_in(raw: &[u8], at: usize) -> u16
    ensures { result ≡ field_of 2 raw.now at }
{
    match bytes_at(raw, at) {
        Some(bytes) => u16::from_le_bytes(*bytes),
        None => 0,
    }
}

// The u32 at `at`.
pub fn u32_in(raw: &[u8], at: usize) -> u32
    ensures { result ≡ field_of 4 raw.now at }
{
    match bytes_at(raw, at) {
        Some(bytes) => u32::from_le_bytes(*bytes),
        None => 0,
    }
}

// The u64 at `at`.
pub fn u64_in(raw: &[u8], at: usize) -> u64
    ensures { result ≡ field_of 8 raw.now at }
{
    match bytes_at(raw, at) {
        Some(bytes) => u64::from_le_bytes(*bytes),
        None => 0,
    }
}

// The place `size` bytes after `at`, or the end of the bytes where that comes first.
pub fn end_in(raw: &[u8], at: usize, size: usize) -> usize
    ensures { result ≡ end_of raw.now at size }
{
    at.saturating_add(size).min(raw.len())
}

// The place after the `bytes` field at `at`: a u32 length, then as many bytes.
pub fn bytes_end(raw: &[u8], at: usize) -> usize
    ensures { result ≡ bytes_end raw.now at }
{
    let start = end_in(raw, at, 4);
    end_in(raw, start, u32_in(raw, at) as usize)
}

// The bytes of the `bytes` field at `at`.
pub fn bytes_in(raw: &[u8], at: usize) -> &[u8]
    ensures { result.now ≡ field_bytes raw.now at }
{
    let start = end_in(raw, at, 4);
    let end = bytes_end(raw, at);
    &raw[start..end]
}

// A place in a file, and how many cases follow from there.
#[derive(Clone, Copy, Debug, PartialEq, Eq)]
pub struct Cursor {
    pub at: usize,
    pub left: u32,
}

// What stands at a cursor: a case (its op, the place of its payload as a `bytes` field, the cursor after it), the file's end after the
// last case, or neither.
#[derive(Clone, Copy, Debug, PartialEq, Eq)]
pub enum Next {
    Case { op: u8, place: usize, next: Cursor },
    End,
    Damaged,
}

impl Cursor {
    // `WASHVEC1`, as a u64.
    pub const MAGIC: u64 = 0x3143_4556_4853_4157;

    // Opens a file, if it is a vector file.
    pub fn open(file: &[u8]) -> Option<Cursor>
        ensures { result ≡ file_of file.now }
    {
        if file.len() < 12 || field::u64_at(file, 0) != Cursor::MAGIC {
            return None;
        }
        Some(Cursor {
            at: 12,
            left: field::u32_at(file, 8),
        })
    }

    // The case at the cursor.
    pub fn next(self, file: &[u8]) -> Next
        ensures { result ≡ next_of file.now self.at self.left }
    {
        let Cursor { at, left } = self;
        if left == 0 {
            return if at == file.len() {
                Next::End
            } else {
                Next::Damaged
            };
        }
        if room(file, at) < 5 {
            return Next::Damaged;
        }
        let size = field::u32_at(file, at + 1) as usize;
        if room(file, at + 5) < size {
            return Next::Damaged;
        }
        Next::Case {
            op: file[at],
            place: at + 1,
            next: Cursor {
                at: at + 5 + size,
                left: left - 1,
            },
        }
    }
}

// How many cases of one kind were replayed, and how many of them differ.
#[derive(Clone, Copy, Debug, Default, PartialEq, Eq)]
pub struct Count {
    pub cases: u64,
    pub differ: u64,
}

impl Count {
    // One case more (of fewer than 2^64).
    pub fn counted(self, agrees: bool) -> Count
        ensures { result ≡ counted_of self agrees }
    {
        let differs = if agrees { 0 } else { 1 };
        Count {
            cases: self.cases.wrapping_add(1),
            differ: self.differ.wrapping_add(differs),
        }
    }
}

// What suffices for a stored file. A longer file reads as damaged.
pub const LONGEST: usize = 327_680;

// Prints one line: `NAME N cases, M differ`.
pub fn report<P: Print>(to: &P, name: &[u8], count: Count) -> io::Result<()> {
    let Count { cases, differ } = count;
    Print::write_all(to, name)?;
    println!(to; " {cases} cases, {differ} differ")
}

// Prints one line: a name and a number.
pub fn note<P: Print>(to: &P, name: &[u8], number: u64) -> io::Result<()> {
    Print::write_all(to, name)?;
    println!(to; " {number}")
}
