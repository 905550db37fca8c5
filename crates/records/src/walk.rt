// The walk over an arena: how far the rules hold.
ghost use Rattle.std.specs.Prelude.{◌≡◌};
ghost use Rattle.numbers.specs.Numbers.{number_of};
ghost use Rattle.records.specs.Rules.{unslotted};
ghost use Rattle.records.specs.Walk.{Finds, end_refusal, walk_from};

use super::{DataLength, Walked, cursor, rules};
use numbers::Refusal;

// Refuses by 30: bytes are left over where a walk ends.
pub fn check_end(bytes: &[u8], p: usize) -> Result<(), Refusal>
    ensures { number_of result ≡ end_refusal bytes.now p }
{
    if p == bytes.len() {
        return Ok(());
    }
    Err(Refusal::LeftOver)
}

// At most so many keys of the bytes: those that pass, the place after the last whole one, and the rule that stopped the walk.
pub fn walk(bytes: &[u8], test: DataLength, most: usize) -> Walked
    ensures { Finds result (walk_from unslotted bytes.now test 0 0 most) }
{
    let mut prev = 0;
    let mut p = 0;
    for keys in 0..most {
        if let Err(refusal) = rules::check_entry(bytes, test, prev, p) {
            return Walked {
                keys,
                end: p,
                rule: Err(refusal),
            };
        }
        let next = cursor::next_entry(bytes, p);
        prev = p;
        p = next;
    }
    Walked {
        keys: most,
        end: p,
        rule: check_end(bytes, p),
    }
}
