// Construct of the point index: keys placed by bucket and pilot, over eight seeds.
#![tactic(auto)]

pub mod attempt;
pub mod buckets;
pub mod group;
pub mod keys;
pub mod members;
pub mod pilot;
pub mod place;
pub mod places;
pub mod seat;
pub mod single;
pub mod twins;

ghost use Rattle.construct.specs.Keys.{attempt_hashes};
ghost use Rattle.construct.specs.Inner.Layout.{Lent};
ghost use Rattle.construct.specs.Answer.{ConstructPost};

use attempt::attempt;
use buckets::Buckets;
use mixing::slot::buckets;

// Places the first n keys of the arena under the first seed that serves, and answers which attempt that is, from 0.
// Its hashes, pilots and slots are left in the workspace.
pub fn construct(arena: &[u8], wide: &mut [u64], narrow: &mut [u32], n: usize) -> Option<u64>
    requires { Lent arena.now wide.old narrow.old n }
    ensures { ConstructPost (attempt_hashes arena.now n) n wide.new narrow.new result }
{
    let b = buckets(n);
    for i in 0..Buckets::ATTEMPTS {
        if attempt(arena, wide, narrow, n, b, mixing::seed(i)) {
            return Some(i);
        }
    }
    None
}
