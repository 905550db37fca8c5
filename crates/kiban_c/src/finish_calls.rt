// Finish: the answer is one word (the body's length).
ghost use Rattle.kiban_c.specs.FinishCalls.{FinishCall};

use super::lent::{number, put_size};
use numbers::Refusal;

// Finishes an arena: 0, with the body's length in front of `answer`, or the refusal; 6 first for an answer under one word.
pub fn kiban_finish(
    arena: &[u8],
    out: &mut [u8],
    wide: &mut [u64],
    narrow: &mut [u32],
    answer: &mut [u64],
) -> u64
    ensures { FinishCall arena.now out.old wide.old narrow.old answer.old result out.new wide.new narrow.new answer.new }
{
    if answer.len() < 1 {
        return number(Refusal::Buffer);
    }
    put_size(finish::finish(arena, out, wide, narrow), answer)
}
