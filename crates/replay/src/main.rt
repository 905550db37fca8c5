// Replays the oracle's vector file: each case goes to the group of calls that has its op. The format is in compare/VECTORS.md.
#![tactic(auto)]

use std::io;
use std::io::Print;
use vectors::{Count, Cursor, Next, space};

// The counts of each group, and of what none of them has or is no whole case.
#[derive(Default, Drop)]
struct Groups {
    mixing: mixing_vectors::Tally,
    builder: builder_vectors::Tally,
    finish: finish_vectors::Tally,
    point: point_vectors::Tally,
    listing: listing_vectors::Tally,
    fuse: fuse_vectors::Tally,
    filter: filter_vectors::Tally,
    other: Count,
}

impl Groups {
    // Counts what is no case of any group.
    fn other(mut self) -> Groups {
        self.other = self.other.counted(false);
        self
    }

    // Replays the case whose payload is the `bytes` field at a place of the file. Op 20 sets the body of two groups.
    fn replayed(mut self, file: &[u8], op: u8, place: usize, room: &mut [u8]) -> Groups {
        match op {
            0x01..=0x03 => self.mixing = self.mixing.replayed(file, op, place),
            0x04 | 0x05 | 0x32 | 0x33 => self.fuse = self.fuse.replayed(file, op, place),
            0x0f..=0x13 => self.builder = self.builder.replayed(file, op, place, room),
            0x18 | 0x19 => self.finish = self.finish.replayed(file, op, place),
            0x20 => {
                self.point = self.point.replayed(file, op, place);
                self.listing = self.listing.replayed(file, op, place);
            }
            0x21 | 0x22 => self.point = self.point.replayed(file, op, place),
            0x23 | 0x24 => self.listing = self.listing.replayed(file, op, place),
            0x30 | 0x31 => self.filter = self.filter.replayed(file, op, place),
            _ => return self.other(),
        }
        self
    }

    // Prints the counts.
    fn report<P: Print>(self, to: &P) -> io::Result<()> {
        self.mixing.report(to)?;
        self.builder.report(to)?;
        self.finish.report(to)?;
        self.point.report(to)?;
        self.listing.report(to)?;
        self.fuse.report(to)?;
        self.filter.report(to)?;
        vectors::report(to, b"other", self.other)
    }
}

// Replays a file to its end, on room for the builder buffer; what is no whole case counts as one that differs.
fn replay(file: &[u8], room: &mut [u8]) -> Groups {
    let mut groups = Groups::default();
    let Some(mut cursor) = Cursor::open(file) else {
        return groups.other();
    };
    loop {
        match cursor.next(file) {
            Next::Case { op, place, next } => {
                groups = groups.replayed(file, op, place, room);
                cursor = next;
            }
            Next::End => return groups,
            Next::Damaged => return groups.other(),
        }
    }
}

fn main(rt: HostRuntime) -> io::Result<()> {
    let mut buffer: [u8; vectors::LONGEST] = space::room(0);
    let mut room: [u8; space::LARGEST] = space::room(0);
    let size = input::read_whole(&mut rt.stdin(), &mut buffer)?;
    let groups = replay(&buffer[..size], &mut room);
    groups.report(&rt.stdout())
}
