// The records of an arena: kinds, records, limits, and their model in specs/.
#![tactic(auto)]

ghost use Rattle.std.specs.Prelude.{◌≡◌};
ghost use Rattle.records.specs.Model.{kind_byte, kind_read, limit_of};

use numbers::Refusal;

pub mod cursor;
pub mod rules;
pub mod search;
pub mod walk;

// What a record says of its key: it holds a value, or it was withdrawn.
#[derive(Clone, Copy, Debug, PartialEq, Eq)]
pub enum Kind {
    Put = 1,
    Tombstone = 2,
}

impl Kind {
    // The kind of a byte, if it is one.
    pub fn from_byte(b: u8) -> Option<Kind>
        ensures { result ≡ kind_read b }
    {
        match b {
            1 => Some(Kind::Put),
            2 => Some(Kind::Tombstone),
            _ => None,
        }
    }

    // The byte of the kind.
    pub fn byte(self) -> u8
        ensures { result ≡ kind_byte self }
    {
        self as u8
    }
}

// One version of a key: where its value lies in the data.
#[derive(Clone, Copy, Debug, PartialEq, Eq)]
pub struct Record {
    pub kind: Kind,
    pub sequence: u64,
    pub offset: u64,
    pub length: u32,
}

impl Record {
    // The bytes of a version in the arena.
    pub const BYTES: usize = 21;

    // The longest value.
    pub const MAX_VALUE: u32 = 16_777_216;
}

// An arena: the entries of a table, one after another.
#[derive(Drop)]
pub struct Arena {}

impl Arena {
    // The most keys.
    pub const MAX_KEYS: usize = 65_536;
}

// How new a record may be: any, or up to a sequence.
pub type Limit = Option<u64>;

// The limit as a number: none is the greatest sequence.
pub fn limit_number(limit: Limit) -> u64
    ensures { result ≡ limit_of limit }
{
    limit.unwrap_or(u64::MAX)
}

// The length of the data that offsets point into, where it is tested.
pub type DataLength = Option<u64>;

// What a walk found: the keys that passed, the place after the last whole one, and the rule that stopped it.
#[derive(Clone, Copy)]
pub struct Walked {
    pub keys: usize,
    pub end: usize,
    pub rule: Result<(), Refusal>,
}

// The first version within a limit: its record, none, or a version that can't be read.
#[derive(Drop)]
pub enum Within {
    Found(Record),
    Nothing,
    Damaged,
}
