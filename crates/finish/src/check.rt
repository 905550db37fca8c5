// The self-check: every slot is filled, by a key whose index is that slot.
ghost use Rattle.std.specs.Prelude.{◌≡◌, ◌<◌, ◌≤◌, length};
ghost use Rattle.finish.specs.Finish.{unmatched, mismatch};

use super::Placing;
use construct::pilot;

// Whether slot s, of n, that holds `held`, is unfilled or mismatched.
#[tactic(auto, unfolding(crate::specs::Finish::unmatched))]
fn unmatched(hs: &[u64], pilots: &[u32], n: usize, s: usize, held: u32) -> bool
    requires { (0 < length pilots.now) × (0 < n) × (n ≤ length hs.now) }
    ensures { result ≡ unmatched hs.now pilots.now n s held }
{
    let m = held as usize;
    m == 0 || n < m || pilot::index(hs[m - 1], pilots, n) != s
}

// Whether a slot is unfilled or mismatched.
pub fn mismatch(hs: &[u64], placing: Placing) -> bool
    requires { (0 < length placing.pilots.now) × (length placing.slots.now ≤ length hs.now) }
    ensures { result ≡ mismatch hs.now placing.entry.pilots.now placing.entry.slots.now }
{
    let Placing { pilots, slots } = placing;
    for (s, &held) in slots.iter().enumerate() {
        if unmatched(hs, pilots, slots.len(), s, held) {
            return true;
        }
    }
    false
}
