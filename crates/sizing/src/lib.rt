// The sizes of a filter for n hashes.
#![tactic(auto)]

ghost use Rattle.std.specs.Prelude.{true, ◌≡◌, ◌-◌, ◌≤◌};
ghost use Rattle.sizing.specs.Sizing.{up_to, rises_strictly, segment_of, segments_of, plan_of};

mod table;

use fuse::Sizes;
use table::{FIRSTS, LEASTS, SEGMENTS};

// What building n hashes starts from: Positive at once, or sizes whose seed an attempt sets.
#[derive(Clone, Copy)]
pub enum Plan {
    Positive,
    Fuse(Sizes),
}

// How many numbers at the front of a rising table are at most n, for both tables.
fn up_to(table: &[u32], n: usize) -> usize
    requires { rises_strictly table.now ≡ true }
    ensures { result ≡ up_to table.now n }
{
    table.partition_point(|x| *x as usize <= n)
}

// The segment.
fn segment(n: usize) -> u32
    requires { 1 ≤ n }
    ensures { result ≡ segment_of n }
{
    let exponent = up_to(&LEASTS, n) - 1;
    1 << exponent
}

// The number of segments less 3; the last row runs on past the most hashes.
fn count(n: usize) -> u32
    requires { 1 ≤ n }
    ensures { result ≡ segments_of n - 3 }
{
    let row = up_to(&FIRSTS, n) - 1;
    SEGMENTS[row] - 3
}

impl Plan {
    // The most hashes: the table ends there.
    pub const MAX_HASHES: usize = 65_536;

    // The plan for n hashes. Callers refuse more than MAX_HASHES themselves.
    pub fn of(n: usize) -> Plan
        ensures { result ≡ plan_of n }
    {
        if n == 0 {
            return Plan::Positive;
        }
        Plan::Fuse(Sizes {
            keys: n as u64,
            seed: 0,
            segment: segment(n),
            count: count(n),
        })
    }
}
