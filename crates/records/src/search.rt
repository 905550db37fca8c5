// The first version within a limit: from a place and a count, and of an entry.
ghost use Rattle.std.specs.Prelude.{◌≡◌};
ghost use Rattle.records.specs.Within.{first_within, entry_within};

use super::{Limit, Record, Within, cursor, limit_number};

// The first of the count versions from p on that is within the limit.
pub fn first_within(bytes: &[u8], limit: Limit, p: usize, count: u32) -> Within
    ensures { result ≡ first_within bytes.now limit p count }
{
    let most = limit_number(limit);
    let mut at = p;
    for _ in 0..count {
        let Some(version) = cursor::version_at(bytes, at) else {
            return Within::Damaged;
        };
        if version.sequence <= most {
            return Within::Found(version);
        }
        at += Record::BYTES;
    }
    Within::Nothing
}

// The first version within the limit of the entry at a place; an entry outside the bytes is damage.
pub fn entry_within(bytes: &[u8], place: usize, limit: Limit) -> Within
    ensures { result ≡ entry_within bytes.now place limit }
{
    match cursor::head_at(bytes, place) {
        Some(head) => first_within(bytes, limit, head.first, head.versions),
        None => Within::Damaged,
    }
}
