// The builder's calls: the state is three words (used, keys, head), the answer one (place).
ghost use Rattle.std.specs.Prelude.{◌≡◌, ◌≤◌, length};
ghost use Rattle.kiban_c.specs.BuilderCalls.{state_of, AddCall, SetOffsetCall};

use super::lent::{number, put_words};
use builder::PointBuilder;
use numbers::{Refusal, number_of};
use records::Kind;

// The state that words hold.
fn state_of(state: &[u64]) -> PointBuilder
    requires { 3 ≤ length state.now }
    ensures { result ≡ state_of state.now }
{
    PointBuilder {
        used: state[0] as usize,
        keys: state[1] as usize,
        head: state[2] as usize,
    }
}

// Adds a record: 0, with the next state and the place of its offset, or the refusal.
pub fn kiban_add(
    buffer: &mut [u8],
    state: &mut [u64],
    key: &[u8],
    kind: u8,
    length: u64,
    sequence: u64,
    new_key: u8,
    answer: &mut [u64],
) -> u64
    ensures { AddCall buffer.old state.old key.now kind length sequence new_key answer.old result buffer.new state.new answer.new }
{
    if answer.len() < 1 {
        return number(Refusal::Buffer);
    }
    if state.len() < 3 {
        return number(Refusal::State);
    }
    let Some(known) = Kind::from_byte(kind) else {
        return number(Refusal::Kind);
    };
    let from = state_of(state);
    match from.add(buffer, key, known, length, sequence, new_key != 0) {
        Ok((next, place)) => {
            let after = [next.used as u64, next.keys as u64, next.head as u64];
            put_words(state, &after);
            answer[0] = place as u64;
            0
        }
        Err(refusal) => number(refusal),
    }
}

// Sets the last record's offset: 0, or the refusal.
pub fn kiban_set_offset(buffer: &mut [u8], state: &[u64], place: u64, offset: u64) -> u64
    ensures { SetOffsetCall buffer.old state.now place offset result buffer.new }
{
    if state.len() < 3 {
        return number(Refusal::State);
    }
    let from = state_of(state);
    number_of(&from.set_value_offset(buffer, place as usize, offset)) as u64
}
