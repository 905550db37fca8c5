// Mixing and the key hash.
ghost use Rattle.std.specs.Prelude.{◌≡◌};
ghost use Rattle.mixing.specs.Mixing.{mix_of, hash_of};

// h, mixed.
pub fn kiban_mix(h: u64) -> u64
    ensures { result ≡ mix_of h }
{
    mixing::mix(h)
}

// The hash of a key.
pub fn kiban_hash(key: &[u8], seed: u64) -> u64
    ensures { result ≡ hash_of seed key.now }
{
    mixing::hash(key, seed)
}
