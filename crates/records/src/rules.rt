// The rules of a key and of a version on bytes: 23 to 25 and 27 to 29.
ghost use Rattle.std.specs.Prelude.{◌≡◌, ◌+◌, ◌≤◌, length};
ghost use Rattle.numbers.specs.Numbers.{number_of};
ghost use Rattle.records.specs.Rules.{key_rises, key_refusal, bad_kind, past_data, full_tombstone, sequence_falls, version_refusal, versions_refusal, entry_versions_refusal, entry_refusal, unslotted};
ghost use Rattle.records.specs.Places.{first_version};
ghost use Rattle.records.specs.Inner.Walking.{KeysInside, Walking, Following};

use super::cursor::Head;
use super::{DataLength, Kind, Record, cursor};
use numbers::Refusal;
use words::{field, part};

// The key at p is greater than the one of the entry at prev, if there is one.
fn key_rises(bytes: &[u8], prev: usize, p: usize) -> bool
    requires { KeysInside bytes.now prev p }
    ensures { result ≡ key_rises bytes.now prev p }
{
    prev == p || part::compare(cursor::key_at(bytes, prev), cursor::key_at(bytes, p)).is_lt()
}

// Refuses by 23 to 25: the rule that the key at p breaks, after the entry at prev.
pub fn check_key(bytes: &[u8], prev: usize, p: usize) -> Result<(), Refusal>
    requires { Walking bytes.now prev p }
    ensures { number_of result ≡ key_refusal bytes.now prev p }
{
    if bytes.len() - p < Head::BYTES {
        return Err(Refusal::Head);
    }
    let length = field::u32_at(bytes, p);
    if Head::MAX_KEY < length {
        return Err(Refusal::Key);
    }
    if bytes.len() - p - Head::BYTES < length as usize {
        return Err(Refusal::Key);
    }
    if field::u32_at(bytes, p + 4) == 0 {
        return Err(Refusal::Key);
    }
    if key_rises(bytes, prev, p) {
        return Ok(());
    }
    Err(Refusal::KeyOrder)
}

// Whether a byte is no kind.
pub fn bad_kind(b: u8) -> bool
    ensures { result ≡ bad_kind b }
{
    Kind::from_byte(b).is_none()
}

// Offset and length together pass the data, where its length is given.
pub fn past_data(test: DataLength, offset: u64, size: u32) -> bool
    ensures { result ≡ past_data test offset size }
{
    match test {
        None => false,
        Some(n) => n < offset || n - offset < size as u64,
    }
}

// A tombstone with length.
pub fn full_tombstone(kind: u8, size: u64) -> bool
    ensures { result ≡ full_tombstone kind size }
{
    kind == Kind::Tombstone.byte() && size != 0
}

// The sequence at p is below the one at prev, if there is one.
fn sequence_falls(bytes: &[u8], prev: usize, p: usize) -> bool
    requires { (prev + 8 ≤ length bytes.now) × (p + 8 ≤ length bytes.now) }
    ensures { result ≡ sequence_falls bytes.now prev p }
{
    prev == p || field::u64_at(bytes, p) < field::u64_at(bytes, prev)
}

// Refuses by 27 to 29: the rule that the version at p breaks, after the one at prev.
pub fn check_version(bytes: &[u8], test: DataLength, prev: usize, p: usize) -> Result<(), Refusal>
    requires { Following bytes.now prev p }
    ensures { number_of result ≡ version_refusal bytes.now test prev p }
{
    if bytes.len() - p < Record::BYTES {
        return Err(Refusal::Version);
    }
    let kind = bytes[p + 8];
    if bad_kind(kind) {
        return Err(Refusal::Kind);
    }
    let size = field::u32_at(bytes, p + 9);
    if Record::MAX_VALUE < size {
        return Err(Refusal::Value);
    }
    if past_data(test, field::u64_at(bytes, p + 13), size) {
        return Err(Refusal::Value);
    }
    if full_tombstone(kind, size as u64) {
        return Err(Refusal::Value);
    }
    if sequence_falls(bytes, prev, p) {
        return Ok(());
    }
    Err(Refusal::Value)
}

// Refuses by the first rule that one of the count versions from p on breaks.
pub fn check_versions(bytes: &[u8], test: DataLength, p: usize, count: u32) -> Result<(), Refusal>
    requires { p ≤ length bytes.now }
    ensures { number_of result ≡ versions_refusal bytes.now test p p count }
{
    let mut prev = p;
    let mut at = p;
    for _ in 0..count {
        check_version(bytes, test, prev, at)?;
        prev = at;
        at += Record::BYTES;
    }
    Ok(())
}

// Refuses by the first rule that a version of the entry at p breaks.
pub fn check_entry_versions(bytes: &[u8], test: DataLength, p: usize) -> Result<(), Refusal>
    requires { first_version bytes.now p ≤ length bytes.now }
    ensures { number_of result ≡ entry_versions_refusal bytes.now test p }
{
    let first = p + Head::BYTES + field::u32_at(bytes, p) as usize;
    check_versions(bytes, test, first, field::u32_at(bytes, p + 4))
}

// Refuses by the rule that the entry at p breaks, after the one at prev: its key's, then its versions'.
pub fn check_entry(bytes: &[u8], test: DataLength, prev: usize, p: usize) -> Result<(), Refusal>
    requires { Walking bytes.now prev p }
    ensures { number_of result ≡ entry_refusal unslotted bytes.now test prev p }
{
    check_key(bytes, prev, p)?;
    check_entry_versions(bytes, test, p)
}
