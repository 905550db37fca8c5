// The reading side of the point index: validate, get, and the value of what get finds.
#![tactic(auto)]

ghost use Rattle.std.specs.Prelude.{◌≡◌, false, ◌+◌, ◌≤◌, length, IfOk, Some};
ghost use Rattle.layout.specs.Layout.{keys_in, buckets_in, arena_in, pilot_of, direct_past, slot_of, slot_place};
ghost use Rattle.numbers.specs.Numbers.{number_of};
ghost use Rattle.point.specs.Validate.{pilots_refusal, slot_test, slot_refusal, arena_refusal, validate_of, Checked};
ghost use Rattle.point.specs.Inner.Walking.{Reached, Stepping};
ghost use Rattle.point.specs.Get.{locate_hash, locate_of, open_record_of, open_of, answer_of, answer_from, get_of, ValuePost};
ghost use Rattle.records.specs.Rules.{entry_refusal};

use layout::{Headed, Header, slot_at};
use mixing::slot::{Pilot, slot_by};
use numbers::Refusal;
use records::cursor::{head_at, key_at, next_entry};
use records::rules::{check_entry_versions, check_key, past_data};
use records::search::first_within;
use records::walk::check_end;
use records::{Limit, Record, Within};
use words::{field, part};

// The place of a record for a key: a place in the body, no record, or damage.
#[derive(Clone, Copy)]
pub enum Located {
    At(usize),
    Nothing,
    Damaged,
}

// A key's versions: where the first stands, and how many there are.
#[derive(Clone, Copy)]
pub struct Versions {
    pub first: usize,
    pub count: u32,
}

// The opening of a key: its versions, no record, or damage.
#[derive(Clone, Copy)]
pub enum Opened {
    Open(Versions),
    Nothing,
    Damaged,
}

// What get answers.
#[derive(Clone, Copy)]
pub enum Answer {
    Found(Record),
    Nothing,
    Refused(Refusal),
}

// The pilot of a hash's bucket.
fn pilot_of(headed: &Headed<'_>, h: u64) -> u32
    ensures { result ≡ pilot_of headed.now.body.now h }
{
    let i = mixing::bucket(h, headed.header.buckets as usize);
    field::u32_at(headed.body, Header::BYTES + Header::PILOT * i)
}

// Where the slot of a hash stands.
fn slot_of(headed: &Headed<'_>, h: u64) -> usize
    requires { direct_past (keys_in headed.now.body.now) (pilot_of headed.now.body.now h) ≡ false }
    ensures { (result ≡ slot_place headed.now.body.now (slot_of headed.now.body.now h)) × (result + 12 ≤ length headed.now.body.now) }
{
    let header = headed.header;
    let i = slot_by(h, pilot_of(headed, h), header.keys as usize);
    slot_at(header.buckets as usize, i)
}

// Whether a pilot is a direct one at or past n.
fn direct_past(n: u32, pilot: u32) -> bool
    ensures { result ≡ direct_past n pilot }
{
    Pilot::DIRECT as u64 + n as u64 <= pilot as u64
}

// The record that the slot of a hash names.
fn locate_hash(headed: &Headed<'_>, h: u64) -> Located
    ensures { result ≡ locate_hash headed.now.body.now h }
{
    let body = headed.body;
    if direct_past(headed.header.keys, pilot_of(headed, h)) {
        return Located::Damaged;
    }
    let s = slot_of(headed, h);
    if field::u16_at(body, s + 8) != mixing::fingerprint(h) {
        return Located::Nothing;
    }
    let arena = headed.header.arena as usize;
    let offset = field::u64_at(body, s) as usize;
    if body.len() - arena < offset {
        return Located::Damaged;
    }
    Located::At(arena + offset)
}

// The place of a record for a key, by its hash alone.
pub fn locate(body: &[u8], key: &[u8]) -> Located
    ensures { result ≡ locate_of body.now key.now }
{
    match Headed::open(body) {
        Ok(headed) => locate_hash(&headed, mixing::hash(key, headed.header.seed)),
        Err(_) => Located::Damaged,
    }
}

// The versions of the record at a place, if it is the key's.
pub fn open_record(body: &[u8], place: usize, key: &[u8]) -> Opened
    ensures { result ≡ open_record_of body.now place key.now }
{
    let Some(head) = head_at(body, place) else {
        return Opened::Damaged;
    };
    if part::same(key_at(body, place), key) {
        return Opened::Open(Versions {
            first: head.first,
            count: head.versions,
        });
    }
    Opened::Nothing
}

// The versions of a key.
pub fn open(body: &[u8], key: &[u8]) -> Opened
    ensures { result ≡ open_of body.now key.now }
{
    match locate(body, key) {
        Located::At(place) => open_record(body, place, key),
        Located::Nothing => Opened::Nothing,
        Located::Damaged => Opened::Damaged,
    }
}

// Refuses by 26: the slot of a hash names the place of its key, and holds its fingerprint, read as u32.
fn check_slot_of(headed: &Headed<'_>, h: u64, p: usize) -> Result<(), Refusal>
    requires { (direct_past (keys_in headed.now.body.now) (pilot_of headed.now.body.now h) ≡ false) × (arena_in headed.now.body.now ≤ p) }
    ensures { number_of result ≡ slot_test headed.now.body.now h p }
{
    let body = headed.body;
    let s = slot_of(headed, h);
    if field::u64_at(body, s) != p as u64 - headed.header.arena {
        return Err(Refusal::Slot);
    }
    if field::u32_at(body, s + 8) != mixing::fingerprint(h) as u32 {
        return Err(Refusal::Slot);
    }
    Ok(())
}

// A body whose header and pilots passed: the walk over the arena reads it by this.
#[derive(Clone, Copy)]
struct Piloted<'a> {
    headed: Headed<'a>,
    ghost checked: { Checked headed.body.now },
}

impl<'a> Piloted<'a> {
    // Refuses by 22: every pilot is tested, those of empty buckets too.
    fn open(headed: Headed<'a>) -> Result<Self, Refusal>
        ensures refuses { number_of result ≡ pilots_refusal headed.entry.body.now (keys_in headed.entry.body.now) 0 (buckets_in headed.entry.body.now) }
        ensures of_body { IfOk result (λ p. p.headed.body.now ≡ headed.entry.body.now) }
    {
        for i in 0..headed.header.buckets as usize {
            let pilot = field::u32_at(headed.body, Header::BYTES + Header::PILOT * i);
            if direct_past(headed.header.keys, pilot) {
                return Err(Refusal::Pilot);
            }
        }
        Ok(Piloted { headed })
    }

    // Refuses by 26, by the key at a place.
    fn check_slot(&self, p: usize) -> Result<(), Refusal>
        requires { Reached self.now.headed.body.now p }
        ensures { number_of result ≡ slot_refusal self.now.headed.body.now p }
    {
        let key = key_at(self.headed.body, p);
        let h = mixing::hash(key, self.headed.header.seed);
        check_slot_of(&self.headed, h, p)
    }

    // Refuses by 23 to 29, by the entry at p after the one at prev: its key, its slot, its versions.
    fn check_entry(&self, data_length: u64, prev: usize, p: usize) -> Result<(), Refusal>
        requires { Stepping self.now.headed.body.now prev p }
        ensures { number_of result ≡ entry_refusal (slot_refusal self.now.headed.body.now) self.now.headed.body.now (Some data_length) prev p }
    {
        check_key(self.headed.body, prev, p)?;
        self.check_slot(p)?;
        check_entry_versions(self.headed.body, Some(data_length), p)
    }

    // Refuses by 23 to 30, over the arena.
    fn check_arena(&self, data_length: u64) -> Result<(), Refusal>
        ensures { number_of result ≡ arena_refusal self.now.headed.body.now data_length }
    {
        let body = self.headed.body;
        let arena = self.headed.header.arena as usize;
        let mut prev = arena;
        let mut p = arena;
        for _ in 0..self.headed.header.keys {
            self.check_entry(data_length, prev, p)?;
            let next = next_entry(body, p);
            prev = p;
            p = next;
        }
        check_end(body, p)
    }
}

// Validates a body for data of a length.
pub fn validate(body: &[u8], data_length: u64) -> Result<(), Refusal>
    ensures { result ≡ validate_of body.now data_length }
{
    let headed = Headed::open(body)?;
    let piloted = Piloted::open(headed)?;
    piloted.check_arena(data_length)
}

// The answer that the first version within a limit gives, with data of a length.
fn answered(found: Within, data_length: u64) -> Answer
    ensures { result ≡ answer_of data_length found }
{
    match found {
        Within::Found(r) => {
            if past_data(Some(data_length), r.offset, r.length) {
                return Answer::Refused(Refusal::Damage);
            }
            Answer::Found(r)
        }
        Within::Nothing => Answer::Nothing,
        Within::Damaged => Answer::Refused(Refusal::Damage),
    }
}

// The answer to an opening under a limit, with data of a length.
fn answer_from(body: &[u8], data_length: u64, opened: Opened, limit: Limit) -> Answer
    ensures { result ≡ answer_from body.now data_length opened limit }
{
    match opened {
        Opened::Open(v) => answered(first_within(body, limit, v.first, v.count), data_length),
        Opened::Nothing => Answer::Nothing,
        Opened::Damaged => Answer::Refused(Refusal::Damage),
    }
}

// The key's record within the limit.
pub fn get<'b, 'd, 'k>(body: &'b [u8], data: &'d [u8], key: &'k [u8], limit: Limit) -> Answer
    ensures { result ≡ get_of body.now (length «data».now) key.now limit }
{
    answer_from(body, data.len() as u64, open(body, key), limit)
}

// The value of what get finds, as that part of the lent data; or the data's first zero bytes.
pub fn value<'b, 'd, 'k>(body: &'b [u8], data: &'d [u8], key: &'k [u8], limit: Limit) -> &'d [u8]
    ensures { ValuePost body.now «data».now key.now limit «data».entry.ref_ptr result.now result.ref_ptr }
{
    match get(body, data, key, limit) {
        Answer::Found(r) => {
            let from = r.offset as usize;
            let to = from + r.length as usize;
            &data[from..to]
        }
        Answer::Nothing | Answer::Refused(_) => &data[..0],
    }
}
