// What one attempt is made with.
ghost use Rattle.std.specs.Prelude.{◌≡◌};
ghost use Rattle.fuse.specs.Positions.{cells_in};

use fuse::Segments;

// The seed, where the cells of a hash lie, and how many cells there are.
#[derive(Clone, Copy)]
pub struct Graph {
    pub seed: u64,
    pub segments: Segments,
    pub cells: usize,
    pub ghost whole: { cells ≡ cells_in segments.segment segments.count },
}
