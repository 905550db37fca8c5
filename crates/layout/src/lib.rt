// The layout of a body: its header's fields and rules, and where its pilots, slots and arena stand.
#![tactic(auto)]

ghost use Rattle.std.specs.Prelude.{◌≡◌, ◌^◌, ◌<◌, ◌≤◌, length, IfOk};
ghost use Rattle.words.specs.Field.{splice};
ghost use Rattle.numbers.specs.Numbers.{number_of};
ghost use Rattle.layout.specs.Layout.{magic_refusal, slot_at, arena_start, header_bytes, dimension_refusal, header_refusal, header_in};

use mixing::slot::{Pilot, buckets};
use numbers::Refusal;
use words::{field, part};

// KIBANPH2, which a body begins with.
const MAGIC: [u8; 8] = [75, 73, 66, 65, 78, 80, 72, 50];

// The header of a body: the seed, the number of keys, the number of buckets, where the arena starts.
#[derive(Clone, Copy)]
pub struct Header {
    pub seed: u64,
    pub keys: u32,
    pub buckets: u32,
    pub arena: u64,
}

impl Header {
    // Where its fields stand.
    const SEED: usize = 8;

    const KEYS: usize = 16;

    const BUCKETS: usize = 20;

    const ARENA: usize = 24;

    // The bytes of the header.
    pub const BYTES: usize = 32;

    // The bytes of a pilot.
    pub const PILOT: usize = 4;

    // The bytes of a slot.
    pub const SLOT: usize = 12;

    // The header that a body begins with.
    pub fn read(body: &[u8]) -> Header
        requires { 32 ≤ length body.now }
        ensures { result ≡ header_in body.now }
    {
        Header {
            seed: field::u64_at(body, Header::SEED),
            keys: field::u32_at(body, Header::KEYS),
            buckets: field::u32_at(body, Header::BUCKETS),
            arena: field::u64_at(body, Header::ARENA),
        }
    }
}

// Refuses by 20.
fn check_magic(body: &[u8]) -> Result<(), Refusal>
    ensures { number_of result ≡ magic_refusal body.now }
{
    if body.len() < Header::BYTES {
        return Err(Refusal::Magic);
    }
    if part::same(&body[..8], &MAGIC) {
        return Ok(());
    }
    Err(Refusal::Magic)
}

// Where slot i stands, behind the header and b pilots; behind the last slot the arena starts.
pub fn slot_at(b: usize, i: usize) -> usize
    requires { (b < 2 ^ 32) × (i < 2 ^ 32) }
    ensures { result ≡ slot_at b i }
{
    Header::BYTES + Header::PILOT * b + Header::SLOT * i
}

// Where the arena of n keys starts in the body.
pub fn arena_start(n: usize) -> usize
    requires { n < 2 ^ 32 }
    ensures { result ≡ arena_start n }
{
    slot_at(buckets(n), n)
}

// Writes the header of n keys under a seed.
pub fn put_header(out: &mut [u8], n: usize, seed: u64)
    requires { (n < 2 ^ 32) × (32 ≤ length out.old) }
    ensures { out.new ≡ splice out.old 0 (header_bytes seed n) }
{
    let b = buckets(n);
    let start = arena_start(n);
    part::copy_at(out, 0, &MAGIC);
    field::put_u64(out, Header::SEED, seed);
    field::put_u32(out, Header::KEYS, n as u32);
    field::put_u32(out, Header::BUCKETS, b as u32);
    field::put_u64(out, Header::ARENA, start as u64);
}

// Refuses by 21, by n keys, b buckets and an arena start alone, whatever the body's length.
pub fn check_dimensions(n: u64, b: u64, arena: u64) -> Result<(), Refusal>
    ensures { number_of result ≡ dimension_refusal n b arena }
{
    if n == 0 {
        return Err(Refusal::Dimensions);
    }
    if Pilot::DIRECT as u64 <= n {
        return Err(Refusal::Dimensions);
    }
    if b != buckets(n as usize) as u64 {
        return Err(Refusal::Dimensions);
    }
    if arena != slot_at(b as usize, n as usize) as u64 {
        return Err(Refusal::Dimensions);
    }
    Ok(())
}

// A body whose header passed 20 and 21, beside that header.
#[derive(Clone, Copy)]
pub struct Headed<'a> {
    pub body: &'a [u8],
    pub header: Header,
    pub ghost passed: { header_refusal body.now ≡ 0 },
    pub ghost read: { header ≡ header_in body.now },
}

impl<'a> Headed<'a> {
    // Refuses by 20 and 21: what validate and get check first.
    pub fn open(body: &'a [u8]) -> Result<Self, Refusal>
        ensures refuses { number_of result ≡ header_refusal body.now }
        ensures of_body { IfOk result (λ h. h.body.now ≡ body.now) }
    {
        check_magic(body)?;
        let header = Header::read(body);
        check_dimensions(header.keys as u64, header.buckets as u64, header.arena)?;
        if body.len() as u64 <= header.arena {
            return Err(Refusal::Dimensions);
        }
        Ok(Headed { body, header })
    }
}
