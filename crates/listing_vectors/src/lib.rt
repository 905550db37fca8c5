// Replays the vectors of the listing: ops 20 body, 23 listing, 24 listing of raw input; and the longest input, and one byte more.
#![tactic(auto)]

ghost use Rattle.std.specs.Prelude.{◌≤◌, length};

use std::io;
use std::io::Print;
use vectors::Count;
use words::{field, part};

// The counts of each op; and where the base body stands in the file, a `bytes` field.
#[derive(Default, Drop)]
pub struct Tally {
    listing: Count,
    raw: Count,
    body: usize,
}

// Whether an input gives a text.
fn text_agrees(input: &[u8], want: &[u8]) -> bool {
    let mut out = [0xa5u8; 16384];
    match lines::listing(input, &mut out) {
        Ok(size) => size <= 16384 && part::same(&out[..size], want),
        Err(_) => false,
    }
}

// The input of a case: u64 limit and u64 data length, which stand at a place of the payload, then the patched body; and its length.
fn input_of(base: &[u8], p: &[u8], at: usize, room: &mut [u8]) -> usize
    requires { (16 ≤ length room.old) × (at ≤ 1280) }
    ensures { result ≤ length room.old }
{
    field::put_u64(room, 0, vectors::u64_in(p, at));
    field::put_u64(room, 8, vectors::u64_in(p, at + 8));
    let size = vectors::patch::patched(base, p, &mut room[16..]);
    16 + size
}

// 23: patched body, u64 limit, u64 data length -> bytes output.
fn listing_agrees(base: &[u8], p: &[u8]) -> bool {
    let at = vectors::patch::after_patches(p);
    if vectors::bytes_end(p, at + 16) != p.len() {
        return false;
    }
    let mut room = [0u8; 8192];
    let size = input_of(base, p, at, &mut room);
    text_agrees(&room[..size], vectors::bytes_in(p, at + 16))
}

// 24: bytes input -> bytes output.
fn raw_agrees(p: &[u8]) -> bool {
    let at = vectors::bytes_end(p, 0);
    if vectors::bytes_end(p, at) != p.len() {
        return false;
    }
    text_agrees(vectors::bytes_in(p, 0), vectors::bytes_in(p, at))
}

// The longest input that is not refused for its size, and one byte more.
fn edges() -> Count {
    let zeros = [0u8; 65537];
    let longest = text_agrees(&zeros[..65536], b"refused 20\n");
    let longer = text_agrees(&zeros, b"refused 16\n");
    Count::default().counted(longest).counted(longer)
}

impl Tally {
    // Replays the case whose payload is the `bytes` field at a place of the file.
    pub fn replayed(mut self, file: &[u8], op: u8, place: usize) -> Tally {
        let p = vectors::bytes_in(file, place);
        let body = vectors::bytes_in(file, self.body);
        match op {
            0x20 => self.body = vectors::end_in(file, place, 4),
            0x23 => self.listing = self.listing.counted(listing_agrees(body, p)),
            0x24 => self.raw = self.raw.counted(raw_agrees(p)),
            _ => {}
        }
        self
    }

    // Prints the counts.
    pub fn report<P: Print>(self, to: &P) -> io::Result<()> {
        vectors::report(to, b"listing", self.listing)?;
        vectors::report(to, b"listing, raw", self.raw)?;
        vectors::report(to, b"listing, edges", edges())
    }
}
