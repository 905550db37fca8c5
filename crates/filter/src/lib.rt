// The filter's public calls: reading its bytes, asking it, writing it, building it.
#![tactic(auto)]

ghost use Rattle.std.specs.Prelude.{true, ◌≡◌, ◌≤◌, length};
ghost use Rattle.words.specs.Field.{splice};
ghost use Rattle.filter.specs.Reading.{read_of, front_of, acceptable};
ghost use Rattle.filter.specs.Asking.{ask_cells_of, ask_number, ask_of};
ghost use Rattle.filter.specs.Writing.{WritePost};
ghost use Rattle.filter.specs.Building.{BuildPost};

mod building;

use fuse::{Sizes, header};
use numbers::Refusal;
use words::part;

// What a filter's bytes hold: Positive, sizes beside the lent cells, or nothing that is accepted.
#[derive(Clone, Copy)]
pub enum SstFilter {
    Positive,
    Fuse(Sizes),
    Refused,
}

// Whether a filter holds a hash.
#[derive(Clone, Copy)]
pub enum Asked {
    Absent,
    Maybe,
    Refused,
}

impl Asked {
    // Its number: 0 absent, 1 maybe, 15.
    pub fn number(self) -> u8
        ensures { result ≡ ask_number self }
    {
        match self {
            Asked::Absent => 0,
            Asked::Maybe => 1,
            Asked::Refused => Refusal::Filter as u8,
        }
    }
}

// What building gives: Positive, or the sizes of the filter that was written.
#[derive(Clone, Copy)]
pub enum Built {
    Positive,
    Fuse(Sizes),
}

impl Built {
    // The attempts, each with a seed of its own.
    pub const ATTEMPTS: u64 = 100;
}

// Reads a filter's bytes.
#[tactic(auto, unfolding(crate::specs::Reading::read_of))]
pub fn read(bytes: &[u8]) -> SstFilter
    ensures { result ≡ read_of bytes.now }
{
    if header::is_positive(bytes) {
        return SstFilter::Positive;
    }
    if bytes.len() < Sizes::HEADER {
        return SstFilter::Refused;
    }
    let s = header::sizes_at(bytes);
    if header::is_fuse(bytes, s) {
        SstFilter::Fuse(s)
    } else {
        SstFilter::Refused
    }
}

// Asks a filter that was read, beside its cells, for a hash.
#[tactic(auto, unfolding(crate::specs::Asking::ask_cells_of))]
pub fn ask_cells(filter: SstFilter, cells: &[u8], hash: u64) -> Asked
    ensures { result ≡ ask_cells_of filter cells.now hash }
{
    match filter {
        SstFilter::Positive => Asked::Maybe,
        SstFilter::Fuse(s) => {
            if header::fits(s, cells.len()) {
                if fuse::contains(cells, s, hash) {
                    Asked::Maybe
                } else {
                    Asked::Absent
                }
            } else {
                Asked::Refused
            }
        }
        SstFilter::Refused => Asked::Refused,
    }
}

// Asks a filter's bytes for a hash.
#[tactic(auto, using(crate::proofs::AskLaws::cells_part), unfolding(crate::specs::Asking::ask_of))]
pub fn ask(bytes: &[u8], hash: u64) -> Asked
    ensures { result ≡ ask_of bytes.now hash }
{
    if bytes.len() < Sizes::HEADER {
        return Asked::Refused;
    }
    ask_cells(read(bytes), &bytes[Sizes::HEADER..], hash)
}

// Whether some bytes are read as this filter beside so many cells.
#[tactic(auto, unfolding(crate::specs::Reading::acceptable))]
fn is_acceptable(filter: SstFilter, cells: usize) -> bool
    ensures { result ≡ acceptable filter cells }
{
    match filter {
        SstFilter::Positive => cells == 0,
        SstFilter::Fuse(s) => header::fits(s, cells),
        SstFilter::Refused => false,
    }
}

// Puts the bytes in front of the cells.
#[tactic(auto, unfolding(crate::specs::Reading::acceptable, crate::specs::Reading::front_of))]
fn put_front(filter: SstFilter, cells: usize, out: &mut [u8])
    requires { (acceptable filter cells ≡ true) × (48 ≤ length out.old) }
    ensures { out.new ≡ splice out.old 0 (front_of filter) }
{
    match filter {
        SstFilter::Positive => header::put_positive(out),
        SstFilter::Fuse(s) => header::put_header(out, s),
        SstFilter::Refused => (),
    }
}

// Writes a filter that was read or built, and its cells: how many bytes they are. A filter that reading does not accept is refused, and an
// output that is too short.
#[tactic(auto, unfolding(crate::specs::Writing::write_of))]
pub fn write(filter: SstFilter, cells: &[u8], out: &mut [u8]) -> Result<usize, Refusal>
    ensures { WritePost filter cells.now out.old result out.new }
{
    if !is_acceptable(filter, cells.len()) {
        return Err(Refusal::Filter);
    }
    let length = Sizes::HEADER + cells.len();
    if out.len() < length {
        return Err(Refusal::Buffer);
    }
    put_front(filter, cells.len(), out);
    part::copy_at(out, Sizes::HEADER, cells);
    Ok(length)
}

// Builds a filter of the hashes, and writes it; unless the call is refused, the hashes are left sorted and the workspace zero.
pub fn build(
    hashes: &mut [u64],
    wide: &mut [u64],
    narrow: &mut [u32],
    out: &mut [u8],
) -> Result<Built, Refusal>
    ensures { BuildPost hashes.old wide.old narrow.old out.old result hashes.new wide.new narrow.new out.new }
{
    building::check_lengths(hashes.len(), wide.len(), narrow.len(), out.len())?;
    sort::sort(hashes);
    let built = building::lay(hashes, wide, narrow, out);
    wide.fill(0);
    narrow.fill(0);
    Ok(built)
}
