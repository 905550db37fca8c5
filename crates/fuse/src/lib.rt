// A filter's sizes, the four cells of a hash, and the header in front of the cells.
#![tactic(auto)]

ghost use Rattle.std.specs.Prelude.{◌≡◌, ◌^◌, ◌<◌, length};
ghost use Rattle.fuse.specs.Positions.{Usable, FitsCells, cells_in, cell_of, positions_of};
ghost use Rattle.fuse.specs.Asking.{graph_hash, xor_at, contains_of};

pub mod header;

// What a Fuse header says; the cells stand beside it.
#[derive(Clone, Copy)]
pub struct Sizes {
    pub keys: u64,
    pub seed: u64,
    pub segment: u32,
    pub count: u32,
}

impl Sizes {
    // The bytes in front of the cells.
    pub const HEADER: usize = 48;

    pub const MAX_SEGMENT: u32 = 262_144;

    pub const MAX_KEYS: u64 = 0xffff_ffff;

    pub const MAX_CELLS: usize = 0xffff_ffff;

    // The number of cells: there are 3 segments more than the count.
    pub fn cells(self) -> usize
        requires { cells_in self.segment self.count < 2 ^ 64 }
        ensures { result ≡ cells_in self.segment self.count }
    {
        (self.count as usize + 3) * self.segment as usize
    }

    // Where the cells of a hash lie.
    pub fn segments(self) -> Segments
        requires { Usable self.segment self.count }
        ensures { (result.segment ≡ self.segment) × (result.count ≡ self.count) }
    {
        Segments {
            segment: self.segment as usize,
            count: self.count as usize,
        }
    }
}

// A segment and a count that a filter can have: they say where the four cells of a hash lie.
#[derive(Clone, Copy)]
pub struct Segments {
    pub segment: usize,
    pub count: usize,
    pub ghost usable: { ∥ Usable segment count ∥₁ },
}

impl Segments {
    // Position i of the hash h: the first is a, each other lies in a segment of its own behind it.
    pub fn cell(self, h: u64, i: usize) -> usize
        requires { i < 4 }
        ensures { result ≡ cell_of self.segment self.count h i }
    {
        let a = words::wide::mul_high(h, (self.count * self.segment) as u64) as usize;
        if i == 0 {
            return a;
        }
        let word = (h >> (16 * (i - 1))) as usize;
        (a + i * self.segment) ^ (word & (self.segment - 1))
    }

    // All four, in position order.
    pub fn positions(self, h: u64) -> [usize; 4]
        ensures { result ≡ positions_of self.segment self.count h }
    {
        [
            self.cell(h, 0),
            self.cell(h, 1),
            self.cell(h, 2),
            self.cell(h, 3),
        ]
    }

    // The xor of the four cells of the hash h.
    pub fn xor(self, cells: &[u8], h: u64) -> u8
        requires { length cells.now ≡ cells_in self.segment self.count }
        ensures { result ≡ xor_at cells.now (positions_of self.segment self.count h) }
    {
        let mut x = 0;
        for p in self.positions(h) {
            x ^= cells[p];
        }
        x
    }
}

// The filter's h: the hash mixed with the seed.
pub fn graph_hash(seed: u64, hash: u64) -> u64
    ensures { result ≡ graph_hash seed hash }
{
    mixing::mix(hash.wrapping_add(seed))
}

// Whether a hash is present: its four cells xor to the low byte of its h.
#[tactic(auto, unfolding(crate::specs::Asking::contains_of))]
pub fn contains(cells: &[u8], s: Sizes, hash: u64) -> bool
    requires { FitsCells s.segment s.count (length cells.now) }
    ensures { result ≡ contains_of cells.now s hash }
{
    let h = graph_hash(s.seed, hash);
    s.segments().xor(cells, h) == (h % 256) as u8
}
