// The slot that a hash finds by its bucket's pilot.
ghost use Rattle.std.specs.Prelude.{◌≡◌, ◌<◌, length};
ghost use Rattle.construct.specs.Construct.{index_of};

use super::group::bucket_of;
use mixing::slot::slot_by;

// The slot in which a lookup finds hash h, of n slots.
pub fn index(h: u64, pilots: &[u32], n: usize) -> usize
    requires { (0 < length pilots.now) × (0 < n) }
    ensures { result ≡ index_of h pilots.now n }
{
    let k = bucket_of(h, pilots.len());
    slot_by(h, pilots[k], n)
}
