// Reading an index: get's answer is four words (kind, sequence, offset, length).
ghost use Rattle.std.specs.Prelude.{◌≡◌};
ghost use Rattle.records.specs.Model.{kind_byte};
ghost use Rattle.kiban_c.specs.PointCalls.{validate_call_of, limit_given, GetCall};

use super::lent::{number, put_words};
use numbers::{Refusal, number_of};
use point::Answer;
use records::{Kind, Limit};

// Validates a body for data of a length: 0, or the refusal.
pub fn kiban_validate(body: &[u8], data_length: u64) -> u64
    ensures { result ≡ validate_call_of body.now data_length }
{
    number_of(&point::validate(body, data_length)) as u64
}

// The limit that a host gives.
fn limit_given(limited: u8, limit: u64) -> Limit
    ensures { result ≡ limit_given limited limit }
{
    if limited == 0 { None } else { Some(limit) }
}

// A kind as its number: 1 put, 2 tombstone.
fn kind_number(kind: Kind) -> u64
    ensures { result ≡ kind_byte kind }
{
    kind.byte() as u64
}

// The key's record within the limit: 0 found, with its four words in front of `answer`, 1 nothing, or the refusal; 6 first for an answer under
// four words.
pub fn kiban_get(
    body: &[u8],
    data: &[u8],
    key: &[u8],
    limited: u8,
    limit: u64,
    answer: &mut [u64],
) -> u64
    ensures { GetCall body.now «data».now key.now limited limit answer.old result answer.new }
{
    if answer.len() < 4 {
        return number(Refusal::Buffer);
    }
    match point::get(body, data, key, limit_given(limited, limit)) {
        Answer::Found(r) => {
            let kind = r.kind;
            let found = [kind_number(kind), r.sequence, r.offset, r.length as u64];
            put_words(answer, &found);
            0
        }
        Answer::Nothing => 1,
        Answer::Refused(refusal) => number(refusal),
    }
}
