// The body's bytes: header, pilots, slots, arena.
ghost use Rattle.std.specs.Prelude.{◌≡◌, ◌+◌, ◌*◌, ◌≤◌, length};
ghost use mathlib.Core.List.{◌++◌, flat_map};
ghost use Rattle.numbers.specs.Limits.{most_keys};
ghost use Rattle.words.specs.Field.{splice};
ghost use Rattle.construct.specs.Inner.Layout.{Entries};
ghost use Rattle.finish.specs.Body.{header_bytes, pilots_bytes, slot_bytes, body_bytes};
ghost use Rattle.finish.specs.Inner.Needs.{Room, placed_as, PlacesListed, listed_slot, Filled, SlotsKnown};

use super::Placing;
use layout::{Header, arena_start, put_header};
use records::cursor;
use words::{field, part};

// Writes the pilots from `at`.
fn write_pilots(out: &mut [u8], at: usize, pilots: &[u32])
    requires { at + 4 * length pilots.now ≤ length out.old }
    ensures { out.new ≡ splice out.old at (pilots_bytes pilots.now) }
{
    for (i, &pilot) in pilots.iter().enumerate() {
        field::put_u32(out, at + Header::PILOT * i, pilot);
    }
}

// Writes the slot at `at`.
#[tactic(auto, using(crate::proofs::BodyLaws::slot_written))]
fn write_slot(out: &mut [u8], at: usize, offset: u64, fingerprint: u16)
    requires { at + 12 ≤ length out.old }
    ensures { out.new ≡ splice out.old at (slot_bytes offset fingerprint) }
{
    field::put_u64(out, at, offset);
    field::put_u16(out, at + 8, fingerprint);
    field::put_u16(out, at + 10, 0);
}

// Writes the slots from `at`; wide has the keys' hashes, and behind them their places.
fn write_slots(out: &mut [u8], at: usize, wide: &[u64], slots: &[u32])
    requires { Filled (length slots.now) slots.now × (length wide.now ≡ length slots.now + length slots.now) × (at + 12 * length slots.now ≤ length out.old) }
    ensures { out.new ≡ splice out.old at (flat_map (listed_slot wide.now (length slots.now)) slots.now) }
{
    let (hashes, places) = wide.split_at(slots.len());
    for (s, &held) in slots.iter().enumerate() {
        let m = held as usize - 1;
        write_slot(
            out,
            at + Header::SLOT * s,
            places[m],
            mixing::fingerprint(hashes[m]),
        );
    }
}

// Lists the places of the n entries behind the keys' hashes.
fn list_places(arena: &[u8], wide: &mut [u64], n: usize)
    requires { Entries arena.now n × (length wide.old ≡ n + n) }
    ensures { PlacesListed arena.now n wide.old wide.new }
{
    let mut p = 0;
    for place in wide[n..].iter_mut() {
        *place = p as u64;
        p = cursor::next_entry(arena, p);
    }
}

// Writes the header, and the pilots behind it.
#[tactic(auto, using(crate::proofs::BodyLaws::front_written))]
fn write_front(out: &mut [u8], n: usize, seed: u64, pilots: &[u32])
    requires { (n ≤ most_keys) × (32 + 4 * length pilots.now ≤ length out.old) }
    ensures { out.new ≡ splice out.old 0 (header_bytes seed n ++ pilots_bytes pilots.now) }
{
    put_header(out, n, seed);
    write_pilots(out, Header::BYTES, pilots);
}

// Writes the whole body.
pub fn write_body(
    arena: &[u8],
    out: &mut [u8],
    wide: &mut [u64],
    placing: Placing,
    n: usize,
    seed: u64,
)
    requires { Room arena.now out.old wide.old n × SlotsKnown arena.now wide.old placing.pilots.now placing.slots.now n seed }
    ensures { out.new ≡ splice out.old 0 (body_bytes arena.now n seed (placed_as placing.entry.pilots.now placing.entry.slots.now)) }
{
    list_places(arena, wide, n);
    write_front(out, n, seed, placing.pilots);
    write_slots(
        out,
        Header::BYTES + Header::PILOT * placing.pilots.len(),
        wide,
        placing.slots,
    );
    part::copy_at(out, arena_start(n), arena);
}
