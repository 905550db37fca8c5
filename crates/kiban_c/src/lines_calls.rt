// The listing: the answer is one word (the text's length).
ghost use Rattle.kiban_c.specs.LinesCalls.{ListingCall};

use super::lent::{number, put_size};
use numbers::Refusal;

// Lists an input: 0 (also where the text is `refused R`), with the text's length in front of `answer`, or 6; 6 first for an answer under one word.
pub fn kiban_listing(input: &[u8], out: &mut [u8], answer: &mut [u64]) -> u64
    ensures { ListingCall input.now out.old answer.old result out.new answer.new }
{
    if answer.len() < 1 {
        return number(Refusal::Buffer);
    }
    put_size(lines::listing(input, out), answer)
}
