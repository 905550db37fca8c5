// Building a filter over lent workspace: the checks, the attempts, the closing check, the bytes.
ghost use Rattle.std.specs.Prelude.{false, ◌≡◌, length};
ghost use Rattle.fuse.specs.Positions.{FitsCells};
ghost use Rattle.numbers.specs.Numbers.{number_of};
ghost use Rattle.filter.specs.Building.{cells_for, build_refusal};
ghost use Rattle.filter.specs.Inner.Building.{Roomy, Spaced, SearchPost, CellsPost, Missing, MakePost, LayPost};

use super::Built;
use fuse::{Sizes, header};
use numbers::Refusal;
use peel::graph::Graph;
use sizing::Plan;

// The cells for n hashes: none for no hashes.
#[tactic(auto, unfolding(crate::specs::Building::cells_for))]
fn cells_for(n: usize) -> usize
    ensures { result ≡ cells_for n }
{
    match Plan::of(n) {
        Plan::Positive => 0,
        Plan::Fuse(s) => s.cells(),
    }
}

// Refuses by 12, 9 or 6: too many hashes, and lent lengths that are not enough.
#[tactic(auto, using(crate::proofs::BuildingLaws::cells_few), unfolding(crate::specs::Building::build_refusal))]
pub fn check_lengths(n: usize, wide: usize, narrow: usize, out: usize) -> Result<(), Refusal>
    ensures { number_of result ≡ build_refusal n wide narrow out }
{
    if Plan::MAX_HASHES < n {
        return Err(Refusal::Hashes);
    }
    let c = cells_for(n);
    if wide < c + n {
        return Err(Refusal::Workspace);
    }
    if narrow < 2 * c + n {
        return Err(Refusal::Workspace);
    }
    if out < Sizes::HEADER + c {
        return Err(Refusal::Buffer);
    }
    Ok(())
}

// The first of the attempts that peels every hash, if one does; it fills the cells.
fn search(
    hashes: &[u64],
    wide: &mut [u64],
    narrow: &mut [u32],
    cells: &mut [u8],
    s: Sizes,
) -> Option<u64>
    requires { Spaced s (length hashes.now) (length wide.old) (length narrow.old) (length cells.old) }
    ensures { SearchPost s hashes.now cells.old cells.new result }
{
    for i in 1..=Built::ATTEMPTS {
        let g = Graph {
            seed: mixing::mix(i),
            segments: s.segments(),
            cells: cells.len(),
        };
        if peel::attempt(hashes, wide, narrow, cells, g) {
            return Some(i);
        }
    }
    None
}

// The closing membership check: whether every hash is in the cells.
fn all_present(hashes: &[u64], cells: &[u8], s: Sizes) -> bool
    requires { FitsCells s.segment s.count (length cells.now) }
    ensures { result ≡ false → Missing cells.now s hashes.now }
{
    hashes.iter().all(|&hash| fuse::contains(cells, s, hash))
}

// A filter built over its cells, or Positive where no attempt peels every hash.
fn construct(
    hashes: &[u64],
    wide: &mut [u64],
    narrow: &mut [u32],
    cells: &mut [u8],
    s: Sizes,
) -> Built
    requires { Spaced s (length hashes.now) (length wide.old) (length narrow.old) (length cells.old) }
    ensures { CellsPost s hashes.now cells.old cells.new result }
{
    let Some(i) = search(hashes, wide, narrow, cells, s) else {
        return Built::Positive;
    };
    let f = Sizes {
        seed: mixing::mix(i),
        ..s
    };
    if all_present(hashes, cells, f) {
        return Built::Fuse(f);
    }
    Built::Positive
}

// What is built of sorted hashes; the cells of a filter are in the output, where its header is to stand in front.
#[tactic(auto, unfolding(crate::specs::Building::by_plan))]
fn make(hashes: &[u64], wide: &mut [u64], narrow: &mut [u32], out: &mut [u8]) -> Built
    requires { Roomy (length hashes.now) (length wide.old) (length narrow.old) (length out.old) }
    ensures { MakePost hashes.now out.old out.new result }
{
    if sort::has_twins(hashes) {
        return Built::Positive;
    }
    let end = Sizes::HEADER + cells_for(hashes.len());
    match Plan::of(hashes.len()) {
        Plan::Positive => Built::Positive,
        Plan::Fuse(s) => construct(hashes, wide, narrow, &mut out[Sizes::HEADER..end], s),
    }
}

// Builds of sorted hashes, and writes the filter.
pub fn lay(hashes: &[u64], wide: &mut [u64], narrow: &mut [u32], out: &mut [u8]) -> Built
    requires { Roomy (length hashes.now) (length wide.old) (length narrow.old) (length out.old) }
    ensures { LayPost hashes.now out.old out.new result }
{
    let built = make(hashes, wide, narrow, out);
    match built {
        Built::Positive => header::put_positive(out),
        Built::Fuse(s) => header::put_header(out, s),
    }
    built
}
