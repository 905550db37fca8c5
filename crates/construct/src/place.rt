// Buckets placed one after another: each takes its pilot, and its members their slots.
ghost use Rattle.std.specs.Prelude.{◌<◌, ◌-◌, length};
ghost use Rattle.laws.specs.Steps.{steps};
ghost use Rattle.construct.specs.Construct.{place_group, place_of, place_size, place_down};
ghost use Rattle.construct.specs.Inner.Layout.{Ready, Went, held};

use super::buckets::Buckets;
use super::seat::find_pilot;

// Gives bucket k its least pilot, and its members their slots.
fn place_group(buckets: Buckets, pilots: &mut [u32], slots: &mut [u32], k: usize) -> bool
    requires ready { Ready buckets.hashes.now pilots.old slots.old }
    requires k_in_bounds { k < length pilots.old }
    ensures { Went (place_group buckets.entry.hashes.now k (held pilots.old slots.old)) pilots.new slots.new result }
{
    let Some(pilot) = find_pilot(buckets.group(k), slots) else {
        return false;
    };
    pilots[k] = pilot;
    true
}

// Places bucket k if it has s members, two or more.
fn place_of(buckets: Buckets, pilots: &mut [u32], slots: &mut [u32], k: usize, s: u32) -> bool
    requires ready { Ready buckets.hashes.now pilots.old slots.old }
    requires k_in_bounds { k < length pilots.old }
    requires lt_s { 1 < s }
    ensures { Went (place_of buckets.entry.hashes.now s k (held pilots.old slots.old)) pilots.new slots.new result }
{
    if buckets.size(k) != s {
        return true;
    }
    place_group(buckets, pilots, slots, k)
}

// Places the buckets of s members, by lower number first.
fn place_size(buckets: Buckets, pilots: &mut [u32], slots: &mut [u32], s: u32) -> bool
    requires ready { Ready buckets.hashes.now pilots.old slots.old }
    requires lt_s { 1 < s }
    ensures { Went (place_size buckets.entry.hashes.now s (held pilots.old slots.old)) pilots.new slots.new result }
{
    for k in 0..pilots.len() {
        if !place_of(buckets, pilots, slots, k, s) {
            return false;
        }
    }
    true
}

// Places the buckets of two members and more, larger ones first.
pub fn place_sizes(buckets: Buckets, pilots: &mut [u32], slots: &mut [u32], top: u32) -> bool
    requires ready { Ready buckets.hashes.now pilots.old slots.old }
    requires top_nonzero { 0 < top }
    ensures { Went (steps (place_down buckets.entry.hashes.now top) (top - 1) (held pilots.old slots.old)) pilots.new slots.new result }
{
    for s in (2..=top).rev() {
        if !place_size(buckets, pilots, slots, s) {
            return false;
        }
    }
    true
}
