// The listing: what the desk prints and compares by hand, as a function from input bytes to output bytes.
#![tactic(auto)]

ghost use Rattle.std.specs.Prelude.{◌≡◌, ℕ, List, length};
ghost use Rattle.text.specs.Inner.Written.{Ends, Wrote};
ghost use Rattle.numbers.specs.Numbers.{number, number_of};
ghost use Rattle.records.specs.Places.{entry_at};
ghost use Rattle.records.specs.Within.{found_of};
ghost use Rattle.records.specs.Inner.Stands.{EntryStands};
ghost use Rattle.point.specs.Table.{table_of};
ghost use Rattle.point.specs.Inner.Stands.{TableStands};
ghost use Rattle.lines.specs.Shown.{newest_tombstone, shown, shown_of};
ghost use Rattle.lines.specs.Listing.{kind_word, record_text, line_of, text_of_shown, lines_of, listing_header, table_text, refused_text, listing_refusal, Listing};
ghost use Rattle.lines.specs.Inner.Limited.{Limited};
ghost use Rattle.lines.specs.Inner.Steps.{tombstone_found, shown_by, Lined, Lists, Puts};

use layout::Header;
use numbers::Refusal;
use records::cursor::{key_at, next_entry};
use records::search::entry_within;
use records::{Kind, Record, Within};
use std::marker::Model;
use text::Writer;
use words::field;

// What is listed: u64 limit, u64 data length, body.
#[derive(Drop)]
pub struct Input {}

impl Input {
    // The bytes before the body.
    pub const BODY: usize = 16;

    // The longest input.
    pub const MAX_INPUT: usize = 65_536;

    // Room that suffices for every text.
    pub const ROOM: usize = 131_072;
}

// Writes `put` or `tomb`, after a space.
fn put_kind(out: &mut Writer, kind: Kind)
    requires { Ends out.old.at (kind_word kind) }
    ensures { Wrote out.old (kind_word kind) out.new }
{
    match kind {
        Kind::Put => out.put_word(b" put"),
        Kind::Tombstone => out.put_word(b" tomb"),
    }
}

// Writes a record's part of its line, and the newline.
fn put_record(out: &mut Writer, version: Record)
    requires { Ends out.old.at (record_text version) }
    ensures { Wrote out.old (record_text version) out.new }
{
    out.put_field(version.sequence);
    put_kind(out, version.kind);
    out.put_field(version.offset);
    out.put_field(version.length as u64);
    out.put_byte(b'\n');
}

// Writes the line of a key with the record that it shows.
fn put_line(out: &mut Writer, key: &[u8], version: Record)
    requires { Ends out.old.at (line_of key.now version) }
    ensures { Wrote out.old (line_of key.now version) out.new }
{
    out.put_key(key);
    put_record(out, version);
}

// Whether a tombstone was found.
fn tombstone_found(found: Within) -> bool
    ensures { result ≡ tombstone_found found }
{
    match found {
        Within::Found(r) => r.kind == Kind::Tombstone,
        Within::Nothing | Within::Damaged => false,
    }
}

// The record that the entry at p shows: its newest within the limit, unless its newest of all is a tombstone.
fn shown_at(body: &[u8], limit: u64, p: usize) -> Within
    requires { EntryStands body.now p }
    ensures { result ≡ found_of (shown newest_tombstone limit (entry_at body.now p)) }
{
    let newest = entry_within(body, p, None);
    if tombstone_found(newest) {
        return Within::Nothing;
    }
    entry_within(body, p, Some(limit))
}

// Writes the line of the entry at p, if it shows a record; answers how many lines that is.
fn put_entry(out: &mut Writer, body: &[u8], limit: u64, p: usize) -> u64
    requires { EntryStands body.now p × Ends out.old.at (text_of_shown (shown_by newest_tombstone limit (entry_at body.now p))) }
    ensures { Lined (shown_by newest_tombstone limit (entry_at body.now p)) out.old out.new result }
{
    match shown_at(body, limit, p) {
        Within::Found(r) => {
            put_line(out, key_at(body, p), r);
            1
        }
        Within::Nothing | Within::Damaged => 0,
    }
}

// Writes the header.
fn put_header(out: &mut Writer, limit: u64, keys: u64, shown: u64)
    requires { Ends out.old.at (listing_header limit keys shown) }
    ensures { Wrote out.old (listing_header limit keys shown) out.new }
{
    out.put_named(b"limit", limit);
    out.put_named(b" keys", keys);
    out.put_named(b" shown", shown);
    out.put_byte(b'\n');
}

// Writes `refused R`.
fn put_refused(out: &mut Writer, refusal: Refusal)
    requires { Ends out.old.at (refused_text (number refusal)) }
    ensures { Wrote out.old (refused_text (number refusal)) out.new }
{
    out.put_named(b"refused", refusal.number() as u64);
    out.put_byte(b'\n');
}

// Lists what is put through a writer at the buffer's start: it is measured first, so nothing is written where the buffer is too short.
fn list<F: Fn(&mut Writer)>(out: &mut [u8], put: F) -> Result<usize, Refusal>
    requires { (w : _) → w.now.at ≡ 0 → F.pre put w }
    ensures { (text : List ℕ) → Puts F.Fn put text → Lists text out.old result out.new }
{
    let mut measure = Writer {
        out: &mut [],
        at: 0,
    };
    put(&mut measure);
    let size = measure.at;
    if out.len() < size {
        return Err(Refusal::Buffer);
    }
    put(&mut Writer { out, at: 0 });
    Ok(size)
}

// A body whose table stands, and the limit that it is listed under.
#[derive(Drop)]
struct Table<'a> {
    body: &'a [u8],
    limit: u64,
}

impl<'a> Model for Table<'a> {
    ghost Value = { Limited };

    ghost view = { λ t. record { limit = t.limit; body = t.body.now } };

    ghost invariant = { λ t. TableStands t.body.now };
}

impl<'a> Table<'a> {
    // Writes its lines, in key order; answers how many they are.
    fn put_lines(&self, out: &mut Writer) -> u64
        requires { Ends out.old.at (lines_of newest_tombstone self.now.limit (table_of self.now.body)) }
        ensures { Lined (shown_of newest_tombstone self.now.limit (table_of self.now.body)) out.old out.new result }
    {
        let mut shown: u64 = 0;
        let header = Header::read(self.body);
        let n = header.keys;
        let mut p = header.arena as usize;
        for _ in 0..n {
            shown += put_entry(out, self.body, self.limit, p);
            p = next_entry(self.body, p);
        }
        shown
    }

    // How many lines it has: they are measured, and written nowhere.
    fn count_shown(&self) -> u64
        requires { Ends 0 (lines_of newest_tombstone self.now.limit (table_of self.now.body)) }
        ensures { result ≡ length (shown_of newest_tombstone self.now.limit (table_of self.now.body)) }
    {
        self.put_lines(&mut Writer {
            out: &mut [],
            at: 0,
        })
    }

    // Writes its listing, which shows so many keys.
    fn put(&self, out: &mut Writer, shown: u64)
        requires { (shown ≡ length (shown_of newest_tombstone self.now.limit (table_of self.now.body))) × Ends out.old.at (table_text newest_tombstone self.now.limit (table_of self.now.body)) }
        ensures { Wrote out.old (table_text newest_tombstone self.now.limit (table_of self.now.body)) out.new }
    {
        put_header(out, self.limit, Header::read(self.body).keys as u64, shown);
        self.put_lines(out);
    }

    // Lists it.
    fn list(&self, out: &mut [u8]) -> Result<usize, Refusal>
        requires { Ends 0 (table_text newest_tombstone self.now.limit (table_of self.now.body)) }
        ensures { Lists (table_text newest_tombstone self.now.limit (table_of self.now.body)) out.old result out.new }
    {
        let shown = self.count_shown();
        list(out, |out| self.put(out, shown))
    }
}

// Refuses an input by 16, and by what validation refuses its body with.
fn check_input(input: &[u8]) -> Result<(), Refusal>
    ensures { number_of result ≡ listing_refusal input.now }
{
    if input.len() < Input::BODY || Input::MAX_INPUT < input.len() {
        return Err(Refusal::Input);
    }
    point::validate(&input[Input::BODY..], field::u64_at(input, 8))
}

// Lists an input: u64 limit, u64 data length, body.
pub fn listing(input: &[u8], out: &mut [u8]) -> Result<usize, Refusal>
    ensures { Listing newest_tombstone input.now out.old result out.new }
{
    match check_input(input) {
        Ok(()) => {
            let table = Table {
                body: &input[Input::BODY..],
                limit: field::u64_at(input, 0),
            };
            table.list(out)
        }
        Err(refusal) => list(out, |out| put_refused(out, refusal)),
    }
}
