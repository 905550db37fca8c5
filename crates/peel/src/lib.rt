// One attempt to build a filter, over lent workspace: wide [xors c | hashes peeled n], narrow [degrees c | queue c | cells peeled n].
#![tactic(auto)]

ghost use Rattle.std.specs.Prelude.{◌≡◌, ℕ, ◌+◌, ◌^◌, ◌<◌, ◌≤◌, List, [], length, ◌==◌, bit_xor, slice_index};
ghost use Rattle.laws.specs.Count.{keep, rising};
ghost use Rattle.peel.specs.Peel.{Attempt, one_step, begun, attempt, fill, mixed, AttemptPost};
ghost use Rattle.peel.specs.Inner.Table.{cells_of, stack, queued_by, changed, plus, peels_in, Queued, Tables, StandsFor, Below};

pub mod graph;

use graph::Graph;

// What a hash adds to the degrees of its cells, which wrap: 1 where it joins them, and 2^32 − 1, which is one less, where it leaves them.
const JOINS: u32 = 1;

const LEAVES: u32 = u32::MAX;

// Hash h joins or leaves the cells: their degrees change, and their xors.
fn change(narrow: &mut [u32], wide: &mut [u64], cells: &[usize], h: u64, by: u32)
    requires { Below (length narrow.old) cells.now × Below (length wide.old) cells.now }
    ensures { (narrow.new ≡ changed (plus by) cells.now narrow.old) × (wide.new ≡ changed (bit_xor h) cells.now wide.old) }
{
    for &p in cells {
        narrow[p] = by.wrapping_add(narrow[p]);
        wide[p] = h ^ wide[p];
    }
}

// Cell p goes on the queue if its degree is 1.
fn note(narrow: &mut [u32], c: usize, top: usize, p: usize) -> usize
    requires { (p < c) × (c ≤ 2 ^ 32) × (c + c ≤ length narrow.old) × (slice_index narrow.old p ≡ 1 → top < c) }
    ensures { Queued c (keep (slice_index narrow.old p == 1) p (stack c top narrow.old)) result narrow.old narrow.new }
{
    if narrow[p] == 1 {
        narrow[c + top] = p as u32;
        return top + 1;
    }
    top
}

// The cells of degree 1 go on the empty queue, in rising order: each is written, and stays if its degree is 1.
fn queue_ones(narrow: &mut [u32], c: usize) -> usize
    requires { (c ≤ 2 ^ 32) × (c + c ≤ length narrow.old) }
    ensures { Queued c (queued_by narrow.old (rising 0 c) []) result narrow.old narrow.new }
{
    let mut top = 0;
    for p in 0..c {
        narrow[c + top] = p as u32;
        if narrow[p] == 1 {
            top += 1;
        }
    }
    top
}

// Those of the cells that have degree 1 go on the queue.
fn queue_cells(narrow: &mut [u32], c: usize, top: usize, cells: &[usize]) -> usize
    requires { (c ≤ 2 ^ 32) × (c + c ≤ length narrow.old) × Below c cells.now × (length (queued_by narrow.old cells.now (stack c top narrow.old)) ≤ c) }
    ensures { Queued c (queued_by narrow.old cells.now (stack c top narrow.old)) result narrow.old narrow.new }
{
    let mut t = top;
    for &p in cells {
        t = note(narrow, c, t, p);
    }
    t
}

// Degrees and xors of the hashes, each mixed with the seed, over cleared tables.
fn load(hashes: &[u64], wide: &mut [u64], narrow: &mut [u32], g: Graph)
    requires { (length hashes.now + 1 < 2 ^ 32) × Tables (cells_of g) g.cells [] narrow.old wide.old }
    ensures { Tables (cells_of g) g.cells (mixed g.seed hashes.now) narrow.new wide.new }
{
    for i in (0..hashes.len()).rev() {
        let h = fuse::graph_hash(g.seed, hashes[i]);
        let four = g.segments.positions(h);
        change(narrow, wide, &four, h, JOINS);
    }
}

// How far an attempt is: cells on the queue, and hashes peeled.
#[derive(Clone, Copy)]
struct Progress {
    top: usize,
    peeled: usize,
}

// One step: the last cell of the queue is taken, and its one hash peeled if there is exactly one.
fn step(wide: &mut [u64], narrow: &mut [u32], g: Graph, at: Progress) -> Progress
    requires { (hs : List ℕ) × (s : Attempt) × StandsFor (cells_of g) g.cells hs s wide.old narrow.old at.top at.peeled }
    ensures { (hs : List ℕ) (s : Attempt) → StandsFor (cells_of g) g.cells hs s wide.old narrow.old at.top at.peeled
        → StandsFor (cells_of g) g.cells hs (one_step (cells_of g) s) wide.new narrow.new result.top result.peeled }
{
    let top = at.top;
    let n = at.peeled;
    let c = g.cells;
    if top == 0 {
        return at;
    }
    let t = top - 1;
    let e = narrow[c + t];
    let p = e as usize;
    if narrow[p] != 1 {
        return Progress { top: t, peeled: n };
    }
    let h = wide[p];
    wide[c + n] = h;
    narrow[c + c + n] = e;
    let four = g.segments.positions(h);
    change(narrow, wide, &four, h, LEAVES);
    let u = queue_cells(narrow, c, t, &four);
    Progress {
        top: u,
        peeled: n + 1,
    }
}

// All steps of an attempt: as many as there are cells. The number of hashes peeled.
fn peel_all(wide: &mut [u64], narrow: &mut [u32], g: Graph, top: usize) -> usize
    requires { (hs : List ℕ) × StandsFor (cells_of g) g.cells hs (begun (cells_of g) g.cells hs) wide.old narrow.old top 0 }
    ensures { (hs : List ℕ) → StandsFor (cells_of g) g.cells hs (begun (cells_of g) g.cells hs) wide.old narrow.old top 0
        → (t : ℕ) × StandsFor (cells_of g) g.cells hs (attempt (cells_of g) g.cells hs) wide.new narrow.new t result }
{
    let mut at = Progress { top, peeled: 0 };
    for _ in 0..g.cells {
        at = step(wide, narrow, g, at);
    }
    at.peeled
}

// The cells filled in reverse order of peeling.
fn fill(cells: &mut [u8], wide: &[u64], narrow: &[u32], g: Graph, n: usize)
    requires room { (length cells.old ≡ g.cells) × (g.cells + n ≤ length wide.now) × (g.cells + g.cells + n ≤ length narrow.now) }
    requires by_index { (i : ℕ) → i < n → slice_index narrow.now (g.cells + g.cells + i) < g.cells }
    ensures { cells.new ≡ fill (cells_of g) (peels_in g.cells n wide.now narrow.now) cells.old }
{
    let c = g.cells;
    for i in (0..n).rev() {
        let h = wide[c + i];
        let p = narrow[c + c + i] as usize;
        let x = g.segments.xor(cells, h);
        cells[p] = (h % 256) as u8 ^ x;
    }
}

// All of an attempt up to the filling, over a workspace that may hold anything: the number of hashes peeled.
fn peel_hashes(hashes: &[u64], wide: &mut [u64], narrow: &mut [u32], g: Graph) -> usize
    requires { (length hashes.now + 1 < 2 ^ 32) × (g.cells + length hashes.now ≤ length wide.old) × (g.cells + g.cells + length hashes.now ≤ length narrow.old) }
    ensures { (t : ℕ) × StandsFor (cells_of g) g.cells (mixed g.seed hashes.now) (attempt (cells_of g) g.cells (mixed g.seed hashes.now)) wide.new narrow.new t result }
{
    let c = g.cells;
    wide[..c].fill(0);
    narrow[..c].fill(0);
    load(hashes, wide, narrow, g);
    let top = queue_ones(narrow, c);
    peel_all(wide, narrow, g, top)
}

// One attempt: whether every hash was peeled; if so the cells are filled, and else they stay as they were.
pub fn attempt(
    hashes: &[u64],
    wide: &mut [u64],
    narrow: &mut [u32],
    cells: &mut [u8],
    g: Graph,
) -> bool
    requires { (length hashes.now + 1 < 2 ^ 32) × (g.cells + length hashes.now ≤ length wide.old) × (g.cells + g.cells + length hashes.now ≤ length narrow.old) × (length cells.old ≡ g.cells) }
    ensures { AttemptPost g.segments.segment g.segments.count g.seed hashes.now cells.old cells.new result }
{
    let n = peel_hashes(hashes, wide, narrow, g);
    if n < hashes.len() {
        return false;
    }
    cells.fill(0);
    fill(cells, wide, narrow, g, n);
    true
}
