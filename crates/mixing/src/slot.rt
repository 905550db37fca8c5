// Buckets and pilots: how many buckets n keys have, and the slot that a bucket's pilot gives a hash.
ghost use Rattle.std.specs.Prelude.{◌≡◌};
ghost use Rattle.mixing.specs.Slots.{buckets_of, slot_by};

// A pilot: below DIRECT a number that positions depend on, from there on DIRECT + slot.
#[derive(Drop)]
pub struct Pilot {}

impl Pilot {
    // The mark of a pilot that names its slot; an index has fewer keys.
    pub const DIRECT: u32 = 0x8000_0000;

    // The keys for which there is one bucket, and so one pilot.
    pub const KEYS: usize = 3;
}

// The number of buckets for n keys: a third, rounded up.
pub fn buckets(n: usize) -> usize
    ensures { result ≡ buckets_of n }
{
    n.div_ceil(Pilot::KEYS)
}

// The slot, of n, that a pilot gives a hash.
pub fn slot_by(h: u64, pilot: u32, n: usize) -> usize
    ensures { result ≡ slot_by h pilot n }
{
    if pilot < Pilot::DIRECT {
        return super::position(h, pilot, n);
    }
    (pilot - Pilot::DIRECT) as usize
}
