// The static library that C and Rust hosts link: each call of kiban_c under its own name, with the clauses that it has there.
#![tactic(auto)]

ghost use Rattle.std.specs.Prelude.{◌≡◌};
ghost use Rattle.kiban_c.specs.BuilderCalls.{AddCall, SetOffsetCall};
ghost use Rattle.kiban_c.specs.FilterCalls.{FilterAskAllCall, FilterBuildCall, FilterReadCall, filter_ask_of};
ghost use Rattle.kiban_c.specs.FinishCalls.{FinishCall};
ghost use Rattle.kiban_c.specs.LinesCalls.{ListingCall};
ghost use Rattle.kiban_c.specs.PointCalls.{GetCall, validate_call_of};
ghost use Rattle.kiban_c.specs.SortCalls.{SortCall};
ghost use Rattle.mixing.specs.Mixing.{hash_of, mix_of};

use kiban_c::{
    builder_calls, filter_calls, finish_calls, lines_calls, mixing_calls, point_calls, sort_calls,
};

// Adds a record: 0, with the next state and the place of its offset, or the refusal.
#[unsafe(no_mangle)]
pub extern "C" fn kiban_add(
    buffer: &mut [u8],
    state: &mut [u64],
    key: &[u8],
    kind: u8,
    length: u64,
    sequence: u64,
    new_key: u8,
    answer: &mut [u64],
) -> u64
    ensures { AddCall buffer.old state.old key.now kind length sequence new_key answer.old result buffer.new state.new answer.new }
{
    builder_calls::kiban_add(buffer, state, key, kind, length, sequence, new_key, answer)
}

// Sets the last record's offset: 0, or the refusal.
#[unsafe(no_mangle)]
pub extern "C" fn kiban_set_offset(buffer: &mut [u8], state: &[u64], place: u64, offset: u64) -> u64
    ensures { SetOffsetCall buffer.old state.now place offset result buffer.new }
{
    builder_calls::kiban_set_offset(buffer, state, place, offset)
}

// Builds a filter of the hashes: 0, with the bytes written in front of `answer`, or the refusal; 6 first for an answer under one word.
#[unsafe(no_mangle)]
pub extern "C" fn kiban_filter_build(
    hashes: &mut [u64],
    wide: &mut [u64],
    narrow: &mut [u32],
    out: &mut [u8],
    answer: &mut [u64],
) -> u64
    ensures { FilterBuildCall hashes.old wide.old narrow.old out.old answer.old result hashes.new wide.new narrow.new out.new answer.new }
{
    filter_calls::kiban_filter_build(hashes, wide, narrow, out, answer)
}

// Reads a filter: 0, with its six words in front of `answer`, or 15; 6 first for an answer under six words.
#[unsafe(no_mangle)]
pub extern "C" fn kiban_filter_read(bytes: &[u8], answer: &mut [u64]) -> u64
    ensures { FilterReadCall bytes.now answer.old result answer.new }
{
    filter_calls::kiban_filter_read(bytes, answer)
}

// Asks a filter for a hash: 0 absent, 1 maybe, 15.
#[unsafe(no_mangle)]
pub extern "C" fn kiban_filter_ask(bytes: &[u8], hash: u64) -> u64
    ensures { result ≡ filter_ask_of bytes.now hash }
{
    filter_calls::kiban_filter_ask(bytes, hash)
}

// Asks a filter, whose header is read once, for all the hashes: 0, with their answers in front, or 15; 6 first for fewer answers than hashes.
#[unsafe(no_mangle)]
pub extern "C" fn kiban_filter_ask_all(bytes: &[u8], hashes: &[u64], answers: &mut [u8]) -> u64
    ensures { FilterAskAllCall bytes.now hashes.now answers.old result answers.new }
{
    filter_calls::kiban_filter_ask_all(bytes, hashes, answers)
}

// Finishes an arena: 0, with the body's length in front of `answer`, or the refusal; 6 first for an answer under one word.
#[unsafe(no_mangle)]
pub extern "C" fn kiban_finish(
    arena: &[u8],
    out: &mut [u8],
    wide: &mut [u64],
    narrow: &mut [u32],
    answer: &mut [u64],
) -> u64
    ensures { FinishCall arena.now out.old wide.old narrow.old answer.old result out.new wide.new narrow.new answer.new }
{
    finish_calls::kiban_finish(arena, out, wide, narrow, answer)
}

// Lists an input: 0 (also where the text is `refused R`), with the text's length in front of `answer`, or 6; 6 first for an answer under one word.
#[unsafe(no_mangle)]
pub extern "C" fn kiban_listing(input: &[u8], out: &mut [u8], answer: &mut [u64]) -> u64
    ensures { ListingCall input.now out.old answer.old result out.new answer.new }
{
    lines_calls::kiban_listing(input, out, answer)
}

// h, mixed.
#[unsafe(no_mangle)]
pub extern "C" fn kiban_mix(h: u64) -> u64
    ensures { result ≡ mix_of h }
{
    mixing_calls::kiban_mix(h)
}

// The hash of a key.
#[unsafe(no_mangle)]
pub extern "C" fn kiban_hash(key: &[u8], seed: u64) -> u64
    ensures { result ≡ hash_of seed key.now }
{
    mixing_calls::kiban_hash(key, seed)
}

// Validates a body for data of a length: 0, or the refusal.
#[unsafe(no_mangle)]
pub extern "C" fn kiban_validate(body: &[u8], data_length: u64) -> u64
    ensures { result ≡ validate_call_of body.now data_length }
{
    point_calls::kiban_validate(body, data_length)
}

// The key's record within the limit: 0 found, with its four words in front of `answer`, 1 nothing, or the refusal; 6 first for an answer under
// four words.
#[unsafe(no_mangle)]
pub extern "C" fn kiban_get(
    body: &[u8],
    data: &[u8],
    key: &[u8],
    limited: u8,
    limit: u64,
    answer: &mut [u64],
) -> u64
    ensures { GetCall body.now «data».now key.now limited limit answer.old result answer.new }
{
    point_calls::kiban_get(body, data, key, limited, limit, answer)
}

// Sorts the hashes; 0.
#[unsafe(no_mangle)]
pub extern "C" fn kiban_sort(hashes: &mut [u64]) -> u64
    ensures { SortCall hashes.old result hashes.new }
{
    sort_calls::kiban_sort(hashes)
}
