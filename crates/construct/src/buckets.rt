// The keys of an attempt, laid bucket after bucket.
ghost use Rattle.std.specs.Prelude.{◌≡◌, ◌<◌, length};
ghost use Rattle.construct.specs.Construct.{buckets_of, group, size};
ghost use Rattle.construct.specs.Inner.Layout.{Bucketed};

use super::members::Members;

// The hashes of the keys; the keys, bucket after bucket; and where each bucket's begin, with the number of keys behind.
#[derive(Clone, Copy)]
pub struct Buckets<'a> {
    pub hashes: &'a [u64],
    pub members: &'a [u64],
    pub starts: &'a [u32],
    pub ghost bucketed: { Bucketed hashes.now members.now starts.now },
}

impl<'a> Buckets<'a> {
    // The seeds that are tried.
    pub const ATTEMPTS: u64 = 8;

    // How many buckets there are.
    pub fn count(self) -> usize
        ensures { result ≡ buckets_of (length self.entry.hashes.now) }
    {
        self.starts.len() - 1
    }

    // How many members bucket k has.
    pub fn size(self, k: usize) -> u32
        requires { k < buckets_of (length self.hashes.now) }
        ensures { result ≡ size self.entry.hashes.now k }
    {
        self.starts[k + 1] - self.starts[k]
    }

    // The members of bucket k.
    pub fn group(self, k: usize) -> Members<'a>
        requires { k < buckets_of (length self.hashes.now) }
        ensures hashes { result.hashes.now ≡ self.entry.hashes.now }
        ensures keys { result.keys.now ≡ group self.entry.hashes.now k }
    {
        Members {
            hashes: self.hashes,
            keys: &self.members[self.starts[k] as usize..self.starts[k + 1] as usize],
        }
    }
}
