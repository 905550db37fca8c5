// The keys of an arena, hashed one after another.
ghost use Rattle.std.specs.Prelude.{◌≡◌, ◌≤◌, length};
ghost use Rattle.mixing.specs.Mixing.{hash_of};
ghost use Rattle.records.specs.Places.{key_at, next_entry};
ghost use Rattle.construct.specs.Keys.{hashes_of};
ghost use Rattle.construct.specs.Inner.Layout.{Entries};

use records::cursor::{key_at, next_entry};

// The hash of the key of the entry at p.
fn hash_at(arena: &[u8], p: usize, seed: u64) -> u64
    requires { next_entry arena.now p ≤ length arena.now }
    ensures { result ≡ hash_of seed (key_at arena.now p) }
{
    mixing::hash(key_at(arena, p), seed)
}

// Hashes the first keys of the arena under a seed, one for each place of `hashes`.
pub fn hash_keys(arena: &[u8], hashes: &mut [u64], seed: u64)
    requires { Entries arena.now (length hashes.old) }
    ensures { hashes.new ≡ hashes_of seed arena.now (length hashes.old) }
{
    let mut p = 0;
    for hash in hashes.iter_mut() {
        *hash = hash_at(arena, p, seed);
        p = next_entry(arena, p);
    }
}
