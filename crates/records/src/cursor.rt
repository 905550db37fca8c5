// The cursor over entries: an entry's head, its key, a version, and where the next entry stands.
ghost use Rattle.std.specs.Prelude.{◌≡◌, ◌≤◌, length};
ghost use Rattle.records.specs.Places.{key_at, first_version, next_entry};
ghost use Rattle.records.specs.Cursor.{head_at, version_at};

use super::{Kind, Record};
use words::field;

// What the head of an entry says: how many versions it has, and where the first one stands.
#[derive(Clone, Copy)]
pub struct Head {
    pub versions: u32,
    pub first: usize,
}

impl Head {
    // The bytes before the key.
    pub const BYTES: usize = 8;

    // The longest key.
    pub const MAX_KEY: u32 = 1_048_576;
}

// The head of the entry at p, where it and its key lie in the bytes.
pub fn head_at(bytes: &[u8], p: usize) -> Option<Head>
    ensures { result ≡ head_at bytes.now p }
{
    if bytes.len() < p {
        return None;
    }
    if bytes.len() - p < Head::BYTES {
        return None;
    }
    let key = p + Head::BYTES;
    let length = field::u32_at(bytes, p) as usize;
    if bytes.len() - key < length {
        return None;
    }
    let versions = field::u32_at(bytes, p + 4);
    let first = key + length;
    Some(Head { versions, first })
}

// The key of the entry at p.
pub fn key_at(bytes: &[u8], p: usize) -> &[u8]
    requires { first_version bytes.now p ≤ length bytes.now }
    ensures { result.now ≡ key_at bytes.now p }
{
    let from = p + Head::BYTES;
    let to = from + field::u32_at(bytes, p) as usize;
    &bytes[from..to]
}

// Where the entry after the one at p stands.
pub fn next_entry(bytes: &[u8], p: usize) -> usize
    requires { next_entry bytes.now p ≤ length bytes.now }
    ensures { result ≡ next_entry bytes.now p }
{
    let length = field::u32_at(bytes, p) as usize;
    let versions = field::u32_at(bytes, p + 4) as usize;
    p + Head::BYTES + length + Record::BYTES * versions
}

// The version at p, where it lies in the bytes and its kind is one.
pub fn version_at(bytes: &[u8], p: usize) -> Option<Record>
    ensures { result ≡ version_at bytes.now p }
{
    if bytes.len() < p {
        return None;
    }
    if bytes.len() - p < Record::BYTES {
        return None;
    }
    let sequence = field::u64_at(bytes, p);
    let length = field::u32_at(bytes, p + 9);
    let offset = field::u64_at(bytes, p + 13);
    let kind = Kind::from_byte(bytes[p + 8])?;
    Some(Record {
        kind,
        sequence,
        offset,
        length,
    })
}
