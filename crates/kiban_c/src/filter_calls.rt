// The filter's calls: built, its bytes read, and asked for hashes.
ghost use Rattle.std.specs.Prelude.{map, ◌≡◌, ◌≤◌, length};
ghost use Rattle.words.specs.Field.{splice};
ghost use Rattle.kiban_c.specs.FilterCalls.{FilterBuildCall, FilterReadCall, filter_ask_of, FilterAskAllCall};
ghost use Rattle.kiban_c.specs.Inner.Asking.{cells_ask_of};

use super::lent::{number, put_words};
use filter::{Built, SstFilter};
use fuse::Sizes;
use numbers::Refusal;

// Builds a filter of the hashes: 0, with the bytes written in front of `answer`, or the refusal; 6 first for an answer under one word.
pub fn kiban_filter_build(
    hashes: &mut [u64],
    wide: &mut [u64],
    narrow: &mut [u32],
    out: &mut [u8],
    answer: &mut [u64],
) -> u64
    ensures { FilterBuildCall hashes.old wide.old narrow.old out.old answer.old result hashes.new wide.new narrow.new out.new answer.new }
{
    if answer.len() < 1 {
        return number(Refusal::Buffer);
    }
    match filter::build(hashes, wide, narrow, out) {
        Ok(Built::Positive) => {
            answer[0] = Sizes::HEADER as u64;
            0
        }
        Ok(Built::Fuse(s)) => {
            answer[0] = (Sizes::HEADER + s.cells()) as u64;
            0
        }
        Err(refusal) => number(refusal),
    }
}

// Reads a filter: 0, with its six words in front of `answer`, or 15; 6 first for an answer under six words.
pub fn kiban_filter_read(bytes: &[u8], answer: &mut [u64]) -> u64
    ensures { FilterReadCall bytes.now answer.old result answer.new }
{
    if answer.len() < 6 {
        return number(Refusal::Buffer);
    }
    match filter::read(bytes) {
        SstFilter::Positive => {
            put_words(answer, &[0u64; 6]);
            0
        }
        SstFilter::Fuse(s) => {
            let cells = (bytes.len() - Sizes::HEADER) as u64;
            let held = [1, s.keys, s.seed, s.segment as u64, s.count as u64, cells];
            put_words(answer, &held);
            0
        }
        SstFilter::Refused => number(Refusal::Filter),
    }
}

// Asks a filter for a hash: 0 absent, 1 maybe, 15.
pub fn kiban_filter_ask(bytes: &[u8], hash: u64) -> u64
    ensures { result ≡ filter_ask_of bytes.now hash }
{
    filter::ask(bytes, hash).number() as u64
}

// Puts a number for each hash in front: what a Fuse filter of these sizes answers beside its cells.
fn ask_each(s: Sizes, cells: &[u8], hashes: &[u64], answers: &mut [u8])
    requires { length hashes.now ≤ length answers.old }
    ensures { answers.new ≡ splice answers.old 0 (map (cells_ask_of s cells.now) hashes.now) }
{
    for i in 0..hashes.len() {
        answers[i] = filter::ask_cells(SstFilter::Fuse(s), cells, hashes[i]).number();
    }
}

// Asks a filter, whose header is read once, for all the hashes: 0, with their answers in front, or 15; 6 first for fewer answers than hashes.
pub fn kiban_filter_ask_all(bytes: &[u8], hashes: &[u64], answers: &mut [u8]) -> u64
    ensures { FilterAskAllCall bytes.now hashes.now answers.old result answers.new }
{
    if answers.len() < hashes.len() {
        return number(Refusal::Buffer);
    }
    match filter::read(bytes) {
        SstFilter::Positive => {
            answers[..hashes.len()].fill(1);
            0
        }
        SstFilter::Fuse(s) => {
            ask_each(s, &bytes[Sizes::HEADER..], hashes, answers);
            0
        }
        SstFilter::Refused => number(Refusal::Filter),
    }
}
