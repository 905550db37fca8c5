// Why a call refuses, each cause named once, with its number (document 01, "Calls and the numbers they refuse with").
#![tactic(auto)]

ghost use Rattle.std.specs.Prelude.{◌≡◌};
ghost use Rattle.numbers.specs.Numbers.{number, number_of};

#[derive(Clone, Copy, Debug, PartialEq, Eq)]
pub enum Refusal {
    // Builder state and buffer do not fit.
    State = 1,

    // Key over 1,048,576 or value over 16,777,216 bytes.
    TooLong = 2,

    // Tombstone with nonzero length.
    Tombstone = 3,

    // New key not greater than the last; continued key absent or unequal to the last; sequence not below the last one of that key.
    Order = 4,

    // Add: a 65,537th key, or a version beyond 4,294,967,295; finish: no key, or more than 65,536.
    Count = 5,

    // Buffer too short.
    Buffer = 6,

    // Place is not used − 8, or nothing added.
    Place = 7,

    // Arena breaks a key or version rule.
    Arena = 8,

    // Workspace too short.
    Workspace = 9,

    // All eight attempts failed.
    Attempts = 10,

    // Self-check: slots unfilled or mismatched.
    SelfCheck = 11,

    // More hashes than a filter is built of.
    Hashes = 12,

    // Lookup meets damage.
    Damage = 14,

    // Filter bytes not accepted.
    Filter = 15,

    // Input under 16 or over 65,536 bytes.
    Input = 16,

    // Body under 32 bytes or wrong magic.
    Magic = 20,

    // Dimensions: n, b, arena start, arena start below the body's length.
    Dimensions = 21,

    // A direct pilot at or past n.
    Pilot = 22,

    // Under 8 bytes left.
    Head = 23,

    // Key length over the limit or past the end, or no versions.
    Key = 24,

    // Keys not strictly rising.
    KeyOrder = 25,

    // Slot offset or fingerprint wrong.
    Slot = 26,

    // Under 21 bytes left.
    Version = 27,

    // Kind.
    Kind = 28,

    // Value length, offset + length past the data, tombstone with length, sequences not strictly falling.
    Value = 29,

    // Bytes left over at the end.
    LeftOver = 30,
}

impl Refusal {
    // The number of the refusal.
    pub fn number(self) -> u8
        ensures { result ≡ number self }
    {
        self as u8
    }
}

// The number of an answer: 0 of a value, else the refusal's.
pub fn number_of<T>(answer: &Result<T, Refusal>) -> u8
    ensures { result ≡ number_of answer.now }
{
    match answer {
        Ok(_) => 0,
        Err(refusal) => refusal.number(),
    }
}
