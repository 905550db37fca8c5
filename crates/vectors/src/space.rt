// Space that a call is lent: what it holds before the call, and whether it holds after it what it should.
ghost use Rattle.std.specs.Prelude.{◌≡◌, ◌&&◌, length};
ghost use Rattle.std.specs.List.{list_all};
ghost use Rattle.vectors.specs.Space.{all_of, written_as};

// What lent space holds before a call.
pub const DIRTY: u8 = 0xa5;

// What suffices for the output of finish, a builder buffer or a repeated key of the stored cases.
pub const LARGEST: usize = 1_048_640;

// Room for N values, full of v. The `ensures` gives only the length, which lending it needs.
pub fn room<T: Copy, const N: usize>(v: T) -> [T; N]
    ensures { N ≡ length result }
{
    [v; N]
}

// Whether every number is v.
fn all_are<T: Copy + PartialEq>(space: &[T], v: T) -> bool
    ensures { result ≡ list_all (λ x. T.eq x v) space.now }
{
    space.iter().all(|x| *x == v)
}

// Whether all workspace holds v.
pub fn spaces_hold(wide: &[u64], narrow: &[u32], v: u8) -> bool
    ensures { result ≡ all_of v wide.now && all_of v narrow.now }
{
    all_are(wide, v as u64) && all_are(narrow, v as u32)
}

// Whether the output begins with these bytes, and is untouched behind them.
pub fn output_agrees(out: &[u8], want: &[u8]) -> bool
    ensures { result ≡ written_as want.now out.now }
{
    match out.split_at_checked(want.len()) {
        Some((front, rest)) => words::part::same(front, want) && all_are(rest, DIRTY),
        None => false,
    }
}

// The digest of output: the key hash of its bytes with seed 0; 0 of none.
fn digest(out: &[u8]) -> u64 {
    if out.is_empty() {
        0
    } else {
        mixing::hash(out, 0)
    }
}

// Whether the output begins with so many bytes of this digest, and is untouched behind them.
pub fn digest_agrees(out: &[u8], size: usize, want: u64) -> bool {
    match out.split_at_checked(size) {
        Some((front, rest)) => digest(front) == want && all_are(rest, DIRTY),
        None => false,
    }
}
