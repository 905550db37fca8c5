// One bucket's members, put into slots under a pilot.
ghost use Rattle.std.specs.Prelude.{◌≡◌, List, ℕ, ◌≤◌, length};
ghost use Rattle.std.proofs.Math.Option.{some};
ghost use Rattle.construct.specs.Construct.{seat};
ghost use Rattle.construct.specs.Inner.Seating.{SeatedTo, SeatTried, PilotSearched};

use super::members::Members;

// Seats the members one after another until one finds its slot taken, and answers how many sit.
fn seat_members(members: Members, slots: &mut [u32], pilot: u32) -> usize
    requires { length slots.old ≡ length members.hashes.now }
    ensures { SeatedTo members.entry.hashes.now members.entry.keys.now pilot slots.old slots.new result }
{
    for (j, &key) in members.keys.iter().enumerate() {
        let at = members.spot(j, pilot);
        if slots[at] != 0 {
            return j;
        }
        slots[at] = (key + 1) as u32;
    }
    members.keys.len()
}

// Takes the first `count` members off their slots again.
fn unseat(members: Members, slots: &mut [u32], pilot: u32, count: usize)
    requires slots_long { length slots.old ≡ length members.hashes.now }
    requires count_in_bounds { count ≤ length members.keys.now }
    ensures { (s : List ℕ) → seat members.entry.hashes.now members.entry.keys.now pilot count s ≡ some slots.old → slots.new ≡ s }
{
    for j in (0..count).rev() {
        let at = members.spot(j, pilot);
        slots[at] = 0;
    }
}

// Seats all members under a pilot, or none.
fn try_pilot(members: Members, slots: &mut [u32], pilot: u32) -> bool
    requires { length slots.old ≡ length members.hashes.now }
    ensures { SeatTried (seat members.entry.hashes.now members.entry.keys.now pilot (length members.entry.keys.now) slots.old) slots.old slots.new result }
{
    let sat = seat_members(members, slots, pilot);
    if sat == members.keys.len() {
        return true;
    }
    unseat(members, slots, pilot, sat);
    false
}

// Seats all members under the least pilot that takes them, and answers it.
pub fn find_pilot(members: Members, slots: &mut [u32]) -> Option<u32>
    requires { length slots.old ≡ length members.hashes.now }
    ensures { PilotSearched members.entry.hashes.now members.entry.keys.now slots.old slots.new result }
{
    for p in 0..Members::TRIES {
        if try_pilot(members, slots, p) {
            return Some(p);
        }
    }
    None
}
