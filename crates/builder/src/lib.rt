// The point builder: records are added to an arena one by one, and the last one's offset is set.
#![tactic(auto)]

ghost use Rattle.std.specs.Prelude.{◌≡◌, true, cond, ◌+◌, ◌≤◌, ◌<◌, length, IfOk};
ghost use Rattle.laws.specs.Refusals.{first_of};
ghost use Rattle.numbers.specs.Limits.{most_key_bytes, most_keys, most_versions};
ghost use Rattle.numbers.specs.Numbers.{number_of};
ghost use Rattle.words.specs.Field.{splice};
ghost use Rattle.records.specs.Model.{version_bytes};
ghost use Rattle.records.specs.Places.{version_count};
ghost use Rattle.builder.specs.State.{empty_builder, fits, last_of, room_of};
ghost use Rattle.builder.specs.Add.{rises_after, new_causes, continued_causes, add_refusal, new_state, continued_state, new_buffer, continued_buffer, AddPost};
ghost use Rattle.builder.specs.Inner.Append.{AppendPost};
ghost use Rattle.builder.specs.SetOffset.{SetPost};

use numbers::Refusal;
use records::cursor::{Head, key_at};
use records::rules::full_tombstone;
use records::{Arena, Kind, Record};
use words::part::{compare, same};
use words::{field, part};

// The state of a builder: the arena's used bytes, its keys, and where the last key's entry starts.
#[derive(Clone, Copy, Debug, PartialEq, Eq)]
pub struct PointBuilder {
    pub used: usize,
    pub keys: usize,
    pub head: usize,
}

// Writes a version at `at`: sequence, kind, value length, value offset.
fn put_version(raw: &mut [u8], at: usize, version: Record)
    requires { at + 21 ≤ length raw.old }
    ensures { raw.new ≡ splice raw.old at (version_bytes version) }
{
    field::put_u64(raw, at, version.sequence);
    field::put_u8(raw, at + 8, version.kind.byte());
    field::put_u32(raw, at + 9, version.length);
    field::put_u64(raw, at + 13, version.offset);
}

// A state beside the buffer that it fits.
#[derive(Clone, Copy)]
struct Fitting<'a> {
    state: PointBuilder,
    buffer: &'a [u8],
    ghost fitting: { fits state buffer.now ≡ true },
}

impl<'a> Fitting<'a> {
    // Refuses by 1: what every change of a buffer checks first.
    fn open(state: PointBuilder, buffer: &'a [u8]) -> Result<Self, Refusal>
        ensures refuses { number_of result ≡ cond (fits state buffer.now) 0 1 }
        ensures of_state { IfOk result (λ f. (f.state ≡ state) × (f.buffer.now ≡ buffer.now)) }
    {
        if state.fits(buffer) {
            return Ok(Fitting { state, buffer });
        }
        Err(Refusal::State)
    }

    // Whether a key is greater than the last, if there is one.
    fn rises(&self, key: &[u8]) -> bool
        ensures { result ≡ rises_after self.now.state (last_of self.now.state self.now.buffer.now) key.now }
    {
        self.state.keys == 0 || compare(key_at(self.buffer, self.state.head), key).is_lt()
    }

    // Refuses a record of a new key by 4 not greater than the last key, 5 too many keys, 6 no room.
    fn check_new(&self, key: &[u8]) -> Result<(), Refusal>
        ensures { number_of result ≡ first_of (new_causes self.now.state (last_of self.now.state self.now.buffer.now) (room_of self.now.state self.now.buffer.now) key.now) }
    {
        if !self.rises(key) {
            return Err(Refusal::Order);
        }
        if Arena::MAX_KEYS <= self.state.keys {
            return Err(Refusal::Count);
        }
        if self.buffer.len() - self.state.used < Head::BYTES + Record::BYTES + key.len() {
            return Err(Refusal::Buffer);
        }
        Ok(())
    }

    // Refuses a further version of the last key by 4 no such key, or not older than the last version; 5 too many versions; 6 no room.
    fn check_continued(&self, key: &[u8], sequence: u64) -> Result<(), Refusal>
        ensures { number_of result ≡ first_of (continued_causes self.now.state (last_of self.now.state self.now.buffer.now) (room_of self.now.state self.now.buffer.now) key.now sequence) }
    {
        let buffer = self.buffer;
        let used = self.state.used;
        let head = self.state.head;
        if self.state.keys == 0 || !same(key_at(buffer, head), key) {
            return Err(Refusal::Order);
        }
        if field::u64_at(buffer, used - Record::BYTES) <= sequence {
            return Err(Refusal::Order);
        }
        if PointBuilder::MAX_VERSIONS <= field::u32_at(buffer, head + 4) {
            return Err(Refusal::Count);
        }
        if buffer.len() - used < Record::BYTES {
            return Err(Refusal::Buffer);
        }
        Ok(())
    }
}

impl PointBuilder {
    // The most versions of a key.
    pub const MAX_VERSIONS: u32 = 4_294_967_295;

    // The builder that nothing was added to.
    pub fn empty() -> PointBuilder
        ensures { result ≡ empty_builder }
    {
        PointBuilder {
            used: 0,
            keys: 0,
            head: 0,
        }
    }

    // Whether the state and the buffer fit. head is bounded by used before anything is read there.
    fn fits(self, buffer: &[u8]) -> bool
        ensures { result ≡ fits self buffer.now }
    {
        let used = self.used;
        let head = self.head;
        if self.keys == 0 {
            return used == 0 && head == 0;
        }
        if Arena::MAX_KEYS < self.keys
            || buffer.len() < used
            || used < Head::BYTES
            || used - Head::BYTES < head
        {
            return false;
        }
        let key = field::u32_at(buffer, head) as usize;
        let versions = field::u32_at(buffer, head + 4) as usize;
        if (Head::MAX_KEY as usize) < key || versions == 0 {
            return false;
        }
        used - Head::BYTES - head == key + Record::BYTES * versions
    }

    // Refuses a record by the tests in document 01's order.
    fn check_add(
        self,
        buffer: &[u8],
        key: &[u8],
        kind: Kind,
        length: u64,
        sequence: u64,
        new_key: bool,
    ) -> Result<(), Refusal>
        ensures { number_of result ≡ add_refusal self buffer.now (record { key = key.now; kind = kind; size = length; sequence = sequence; new_key = new_key }) }
    {
        let fitting = Fitting::open(self, buffer)?;
        if (Head::MAX_KEY as usize) < key.len() || (Record::MAX_VALUE as u64) < length {
            return Err(Refusal::TooLong);
        }
        if full_tombstone(kind.byte(), length) {
            return Err(Refusal::Tombstone);
        }
        if new_key {
            return fitting.check_new(key);
        }
        fitting.check_continued(key, sequence)
    }

    // Writes a new entry with one version behind the used bytes.
    fn append_new(self, buffer: &mut [u8], key: &[u8], version: Record) -> (PointBuilder, usize)
        requires { (self.used + (29 + length key.now) ≤ length buffer.old) × (length key.now ≤ most_key_bytes) × (self.keys < most_keys) }
        ensures { AppendPost (new_state self key.now) (new_buffer self buffer.old key.now version) result buffer.new }
    {
        let used = self.used;
        let size = key.len();
        field::put_u32(buffer, used, size as u32);
        field::put_u32(buffer, used + 4, 1);
        part::copy_at(buffer, used + Head::BYTES, key);
        put_version(buffer, used + Head::BYTES + size, version);
        let end = used + Head::BYTES + size + Record::BYTES;
        let next = PointBuilder {
            used: end,
            keys: self.keys + 1,
            head: used,
        };
        (next, end - 8)
    }

    // Raises the last key's count and writes a version behind the used bytes.
    fn append_version(self, buffer: &mut [u8], version: Record) -> (PointBuilder, usize)
        requires { (self.head + 8 ≤ self.used) × (self.used + 21 ≤ length buffer.old) × (version_count buffer.old self.head < most_versions) }
        ensures { AppendPost (continued_state self) (continued_buffer self buffer.old version) result buffer.new }
    {
        let used = self.used;
        let head = self.head;
        let versions = field::u32_at(buffer, head + 4);
        field::put_u32(buffer, head + 4, versions + 1);
        put_version(buffer, used, version);
        let end = used + Record::BYTES;
        (PointBuilder { used: end, ..self }, end - 8)
    }

    // Adds a record of a new key, or a further version of the last key, with offset 0; refused, it changes nothing.
    pub fn add(
        self,
        buffer: &mut [u8],
        key: &[u8],
        kind: Kind,
        length: u64,
        sequence: u64,
        new_key: bool,
    ) -> Result<(PointBuilder, usize), Refusal>
        ensures { AddPost self buffer.old (record { key = key.now; kind = kind; size = length; sequence = sequence; new_key = new_key }) result buffer.new }
    {
        self.check_add(buffer, key, kind, length, sequence, new_key)?;
        let version = Record {
            kind,
            sequence,
            offset: 0,
            length: length as u32,
        };
        if new_key {
            return Ok(self.append_new(buffer, key, version));
        }
        Ok(self.append_version(buffer, version))
    }

    // Sets the offset of the last record, at the place that add answered; refused, it changes nothing.
    pub fn set_value_offset(
        self,
        buffer: &mut [u8],
        place: usize,
        offset: u64,
    ) -> Result<(), Refusal>
        ensures { SetPost self buffer.old place offset result buffer.new }
    {
        Fitting::open(self, buffer)?;
        if self.keys == 0 || place != self.used - 8 {
            return Err(Refusal::Place);
        }
        field::put_u64(buffer, place, offset);
        Ok(())
    }
}
