// Some of the keys of an attempt, and their hashes.
ghost use Rattle.std.specs.Prelude.{◌≡◌, ◌<◌, length, get_or};
ghost use Rattle.construct.specs.Construct.{spot};
ghost use Rattle.construct.specs.Inner.Seating.{Keys};

// The hashes of all keys, and the members, which are some of those keys.
#[derive(Clone, Copy)]
pub struct Members<'a> {
    pub hashes: &'a [u64],
    pub keys: &'a [u64],
    pub ghost known: { Keys hashes.now keys.now },
}

impl<'a> Members<'a> {
    // The pilots that are tried for a bucket, from 0.
    pub const TRIES: u32 = 100_000;

    // The hash of member j.
    pub fn hash(self, j: usize) -> u64
        requires { j < length self.keys.now }
        ensures { result ≡ get_or self.entry.hashes.now (get_or self.entry.keys.now j 0) 0 }
    {
        self.hashes[self.keys[j] as usize]
    }

    // Where the pilot puts member j.
    pub fn spot(self, j: usize, pilot: u32) -> usize
        requires { j < length self.keys.now }
        ensures value { result ≡ spot self.entry.hashes.now self.entry.keys.now pilot j }
        ensures upper_bound { result < length self.entry.hashes.now }
    {
        mixing::position(self.hash(j), pilot, self.hashes.len())
    }
}
