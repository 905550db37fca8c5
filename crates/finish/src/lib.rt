// Finish: the body of an index from the bytes of its arena.
#![tactic(auto)]

mod body;
mod check;

ghost use Rattle.std.specs.Prelude.{◌≡◌, ◌+◌, ◌*◌, ◌≤◌, length};
ghost use Rattle.numbers.specs.Numbers.{number_of};
ghost use Rattle.finish.specs.Finish.{walked_refusal, FinishPost};
ghost use Rattle.finish.specs.Inner.Needs.{Room, AttemptTaken, BodyPost};

use construct::places;
use layout::arena_start;
use mixing::slot::buckets;
use numbers::Refusal;
use records::Arena;
use records::walk::walk;

// The attempt that was taken: its pilots, and its slots.
#[derive(Clone, Copy)]
struct Placing<'a> {
    pilots: &'a [u32],
    slots: &'a [u32],
}

// Refuses by 8, 5, 9 or 6: an arena of `size` bytes whose walk passed n keys and came to `end`, and the lengths of what is lent.
#[tactic(auto, unfolding(crate::specs::Finish::walked_refusal))]
fn check_lengths(
    size: usize,
    end: usize,
    n: usize,
    out: usize,
    wide: usize,
    narrow: usize,
) -> Result<(), Refusal>
    ensures { number_of result ≡ walked_refusal size end n out wide narrow }
{
    if end != size {
        return Err(Refusal::Arena);
    }
    if n == 0 || Arena::MAX_KEYS < n {
        return Err(Refusal::Count);
    }
    if wide < 2 * n || narrow < 8 * n + 8 {
        return Err(Refusal::Workspace);
    }
    if out < size || out - size < arena_start(n) {
        return Err(Refusal::Buffer);
    }
    Ok(())
}

// Refuses by 11, where a slot of the attempt is unfilled or mismatched; else writes the body.
fn checked(
    arena: &[u8],
    out: &mut [u8],
    wide: &mut [u64],
    placing: Placing,
    n: usize,
    i: u64,
) -> Result<usize, Refusal>
    requires { Room arena.now out.old wide.old n × AttemptTaken arena.now wide.old placing.pilots.now placing.slots.now n i }
    ensures { BodyPost arena.now out.old n result out.new }
{
    if check::mismatch(&wide[..n], placing) {
        return Err(Refusal::SelfCheck);
    }
    body::write_body(arena, out, wide, placing, n, mixing::seed(i));
    Ok(arena_start(n) + arena.len())
}

// Places the n keys, refusing by 10 where no attempt succeeds, and writes the body.
fn build(
    arena: &[u8],
    out: &mut [u8],
    wide: &mut [u64],
    narrow: &mut [u32],
    n: usize,
) -> Result<usize, Refusal>
    requires { Room arena.now out.old wide.old n × (8 * n + 8 ≤ length narrow.old) }
    ensures { BodyPost arena.now out.old n result out.new }
{
    let i = construct::construct(arena, wide, narrow, n).ok_or(Refusal::Attempts)?;
    let b = buckets(n);
    let placing = Placing {
        pilots: places::pilots(narrow, b),
        slots: places::slots(narrow, n, b),
    };
    checked(arena, out, wide, placing, n, i)
}

// Makes the body of the arena's keys in the output, and answers its length. The workspace may come in dirty, and is left zero once the
// lengths are checked.
pub fn finish(
    arena: &[u8],
    out: &mut [u8],
    wide: &mut [u64],
    narrow: &mut [u32],
) -> Result<usize, Refusal>
    ensures { FinishPost arena.now out.old wide.old narrow.old result out.new wide.new narrow.new }
{
    let walked = walk(arena, None, arena.len());
    let n = walked.keys;
    check_lengths(
        arena.len(),
        walked.end,
        n,
        out.len(),
        wide.len(),
        narrow.len(),
    )?;
    let built = build(arena, out, &mut wide[..n + n], narrow, n);
    wide.fill(0);
    narrow.fill(0);
    built
}
