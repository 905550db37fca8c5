// What a host lends and is told: words, and the number of a refusal.
ghost use Rattle.std.specs.Prelude.{◌≡◌, ◌≤◌, length};
ghost use Rattle.numbers.specs.Numbers.{number, number_of};
ghost use Rattle.words.specs.Field.{splice};
ghost use Rattle.finish.specs.Finish.{finished_values};

use numbers::Refusal;

// A refusal's number, as calls return it.
pub fn number(refusal: Refusal) -> u64
    ensures { result ≡ number refusal }
{
    refusal.number() as u64
}

// Puts values in front of lent words.
pub fn put_words(words: &mut [u64], values: &[u64])
    requires { length values.now ≤ length words.old }
    ensures { words.new ≡ splice words.old 0 values.now }
{
    words[..values.len()].copy_from_slice(values);
}

// Puts the size that a call answers in front of lent words, and tells the number of what it answers.
pub fn put_size(given: Result<usize, Refusal>, answer: &mut [u64]) -> u64
    requires { 1 ≤ length answer.old }
    ensures { (result ≡ number_of given) × (answer.new ≡ splice answer.old 0 (finished_values given)) }
{
    match given {
        Ok(size) => {
            answer[0] = size as u64;
            0
        }
        Err(refusal) => number(refusal),
    }
}
