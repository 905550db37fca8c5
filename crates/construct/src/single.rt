// Buckets of one member: each takes the lowest free slot.
ghost use Rattle.std.specs.Prelude.{◌<◌, ◌≤◌, length};
ghost use Rattle.construct.specs.Construct.{place_size};
ghost use Rattle.construct.specs.Inner.Layout.{Ready, Went, FilledBelow, Lowest, SingleOf, held};

use super::buckets::Buckets;
use mixing::slot::Pilot;

// The lowest free slot, where those below `from` are taken.
fn next_free(slots: &[u32], from: usize) -> Option<usize>
    requires { (from ≤ length slots.now) × FilledBelow slots.now from }
    ensures { Lowest slots.now result }
{
    let ahead = slots[from..].iter().position(|&held| held == 0)?;
    Some(from + ahead)
}

// Places bucket k if it has one member, in the lowest free slot, which its pilot names. It answers how far the slots are taken, or none
// where no slot is free.
fn single_of(
    buckets: Buckets,
    pilots: &mut [u32],
    slots: &mut [u32],
    k: usize,
    from: usize,
) -> Option<usize>
    requires ready { Ready buckets.hashes.now pilots.old slots.old }
    requires k_in_bounds { k < length pilots.old }
    requires filled { (from ≤ length slots.old) × FilledBelow slots.old from }
    ensures { SingleOf buckets.entry.hashes.now k (held pilots.old slots.old) pilots.new slots.new result }
{
    if buckets.size(k) != 1 {
        return Some(from);
    }
    let at = next_free(slots, from)?;
    slots[at] = (buckets.group(k).keys[0] + 1) as u32;
    pilots[k] = Pilot::DIRECT + (at as u32);
    Some(at + 1)
}

// Places the buckets of one member, by rising number.
pub fn place_singles(buckets: Buckets, pilots: &mut [u32], slots: &mut [u32]) -> bool
    requires { Ready buckets.hashes.now pilots.old slots.old }
    ensures { Went (place_size buckets.entry.hashes.now 1 (held pilots.old slots.old)) pilots.new slots.new result }
{
    let mut from = 0;
    for k in 0..pilots.len() {
        let Some(next) = single_of(buckets, pilots, slots, k, from) else {
            return false;
        };
        from = next;
    }
    true
}
