// Where things stand in the narrow words, for n keys in b buckets: where each bucket's members begin, behind that the pilots, behind them the slots.
ghost use Rattle.std.specs.Prelude.{◌≡◌, ◌+◌, ◌≤◌, ◌<◌, ◌^◌, length};
ghost use Rattle.construct.specs.Answer.{pilots_from, slots_from, pilots_in, slots_in};

// Where the pilots begin.
pub fn pilots_from(b: usize) -> usize
    requires { pilots_from b < 2 ^ 64 }
    ensures { result ≡ pilots_from b }
{
    b + 1
}

// Where the slots begin.
pub fn slots_from(b: usize) -> usize
    requires { slots_from b < 2 ^ 64 }
    ensures { result ≡ slots_from b }
{
    pilots_from(b) + b
}

// The pilots.
pub fn pilots(narrow: &[u32], b: usize) -> &[u32]
    requires { pilots_from b + b ≤ length narrow.now }
    ensures { result.now ≡ pilots_in b narrow.now }
{
    let from = pilots_from(b);
    &narrow[from..from + b]
}

// The slots.
pub fn slots(narrow: &[u32], n: usize, b: usize) -> &[u32]
    requires { slots_from b + n ≤ length narrow.now }
    ensures { result.now ≡ slots_in n b narrow.now }
{
    let from = slots_from(b);
    &narrow[from..from + n]
}
