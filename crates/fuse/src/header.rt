// The 48 bytes in front of a filter's cells: read, tested, put.
ghost use Rattle.std.specs.Prelude.{◌≡◌, ◌-◌, ◌^◌, ◌<◌, ◌≤◌, length};
ghost use Rattle.words.specs.Field.{splice};
ghost use Rattle.words.specs.Part.{same_as};
ghost use Rattle.fuse.specs.Positions.{cells_in};
ghost use Rattle.fuse.specs.Layout.{positive_bytes, fuse_header, sizes_in, fitting, fuse_laid};

use super::Sizes;
use words::{field, part};

// KIBANFL2, and the eight bytes behind it, as numbers.
const MAGIC: u64 = 0x324c_464e_4142_494b;

const FUSE: u64 = 0x0000_0030_0801_0201;

// The Positive layout.
const POSITIVE: [u8; 48] = [
    75, 73, 66, 65, 78, 70, 76, 50, 1, 0, 0, 0, 48, 0, 0, 0, 0, 0, 0, 0, 0, 0, 0, 0, 0, 0, 0, 0, 0,
    0, 0, 0, 0, 0, 0, 0, 0, 0, 0, 0, 0, 0, 0, 0, 0, 0, 0, 0,
];

// Whether the bytes are the Positive layout.
pub fn is_positive(bytes: &[u8]) -> bool
    ensures { result ≡ same_as bytes.now positive_bytes }
{
    part::same(bytes, &POSITIVE)
}

// Puts the Positive layout in front.
pub fn put_positive(out: &mut [u8])
    requires { 48 ≤ length out.old }
    ensures { out.new ≡ splice out.old 0 positive_bytes }
{
    part::copy_at(out, 0, &POSITIVE);
}

// Whether a filter of so many cells can have these sizes.
#[tactic(auto, unfolding(crate::specs::Layout::fitting))]
pub fn fits(s: Sizes, cells: usize) -> bool
    ensures { result ≡ fitting s cells }
{
    if s.keys < 1 || Sizes::MAX_KEYS < s.keys {
        return false;
    }
    if s.segment.count_ones() != 1 || Sizes::MAX_SEGMENT < s.segment {
        return false;
    }
    if s.count < 1 || Sizes::MAX_CELLS < s.cells() {
        return false;
    }
    s.cells() == cells
}

// Puts the header of a Fuse filter in front.
pub fn put_header(out: &mut [u8], s: Sizes)
    requires { (48 ≤ length out.old) × (cells_in s.segment s.count < 2 ^ 32) }
    ensures { out.new ≡ splice out.old 0 (fuse_header s) }
{
    let cells = s.cells() as u32;
    field::put_u64(out, 0, MAGIC);
    field::put_u64(out, 8, FUSE);
    field::put_u64(out, 16, s.keys);
    field::put_u64(out, 24, s.seed);
    field::put_u32(out, 32, s.segment);
    field::put_u32(out, 36, s.count);
    field::put_u32(out, 40, cells);
    field::put_u32(out, 44, cells);
}

// The header by itself.
fn header(s: Sizes) -> [u8; 48]
    requires { cells_in s.segment s.count < 2 ^ 32 }
    ensures { result ≡ fuse_header s }
{
    let mut h = [0u8; 48];
    put_header(&mut h, s);
    h
}

// The sizes that stand in a header.
pub fn sizes_at(bytes: &[u8]) -> Sizes
    requires { 48 ≤ length bytes.now }
    ensures { result ≡ sizes_in bytes.now }
{
    Sizes {
        keys: field::u64_at(bytes, 16),
        seed: field::u64_at(bytes, 24),
        segment: field::u32_at(bytes, 32),
        count: field::u32_at(bytes, 36),
    }
}

// Whether the bytes are a Fuse filter of these sizes: they fit, and the header written anew is the one that stands there.
pub fn is_fuse(bytes: &[u8], s: Sizes) -> bool
    requires { 48 ≤ length bytes.now }
    ensures { result ≡ fuse_laid bytes.now s }
{
    fits(s, bytes.len() - Sizes::HEADER) && part::same(&bytes[..Sizes::HEADER], &header(s))
}
