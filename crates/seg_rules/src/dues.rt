//! Whether what is owed to places is what the tables of a certificate say. What is owed is compared with a claim from its last
//! entry on, so no list is made.
ghost use Rattle.std.specs.Prelude.{◌≡◌, ◌&&◌, IsTrue, Some, map, true, false, if◌then◌else◌};
ghost use Rattle.seg_rules.specs.RowRules.{RowRules, Due as OwedDue, DueOf, Marks, flow as flow_of, has, is_full as has_whole, Decides, Drops, reading, read_all, begun, onto, owed, owed_rows, put as put_onto, verdict_of_entry};
ghost use Rattle.seg_rules.specs.declared.certificate.Entry.TheVariants.{Above, Below};
ghost use Rattle.seg_rules.specs.Given.{before_of, entry_of, flags_by, lives_by, owed_of, row_of, rules_of};
ghost use Rattle.seg_rules.specs.Claims.{HasVerdict, IsPart, IsReading, reading_by, reading_of, row_at, rows_at};

use crate::befores::unmarked;
use crate::certificate::{Before, Entry};
use crate::flow::{flow_within, is_full, is_live};
use crate::rules::{Row, Rules, is_in};

/// How many of the last entries of a claim are owed, and the verdict where none of them fits.
#[derive(Clone, Copy)]
pub(crate) struct Part {
    pub(crate) matched: usize,
    pub(crate) otherwise: u8,
}

// Whether two entries are the same.
#[tactic(auto)]
fn is_same(this: Entry, that: Entry) -> bool
    ensures { IsTrue result → this ≡ that }
{
    match (this, that) {
        (Entry::Marks, Entry::Marks) => true,
        (Entry::Above(row, live), Entry::Above(other, bits)) => row == other && live == bits,
        (Entry::Below(row, live), Entry::Below(other, bits)) => row == other && live == bits,
        _ => false,
    }
}

// An entry with a verdict before others; one that says what comes without it is left out.
fn put(entry: Entry, verdict: u8, part: Part, claim: &[Entry]) -> Option<Part>
    ensures { (rules : RowRules) (due : OwedDue) → verdict ≡ verdict_of_entry (entry_of rules entry) → IsPart rules claim.now (Some part) due
        → IsPart rules claim.now result (put_onto (entry_of rules entry) due) }
{
    if part.matched == 0 && verdict == part.otherwise {
        return Some(part);
    }
    if part.matched >= claim.len() || !is_same(claim[claim.len() - 1 - part.matched], entry) {
        return None;
    }
    Some(Part {
        matched: part.matched + 1,
        otherwise: part.otherwise,
    })
}

// Puts a verdict before entries of which nothing may be known.
fn put_if(entry: Entry, verdict: u8, part: Option<Part>, claim: &[Entry]) -> Option<Part>
    ensures { (rules : RowRules) (due : OwedDue) → verdict ≡ verdict_of_entry (entry_of rules entry) → IsPart rules claim.now part due
        → IsPart rules claim.now result (put_onto (entry_of rules entry) due) }
{
    match part {
        Some(part) => put(entry, verdict, part, claim),
        None => None,
    }
}

/// A row: whether it is below that of marks, and its number.
#[derive(Clone, Copy)]
struct Number {
    below: bool,
    row: u8,
}

// The entry of a row, with what is live of its right pattern.
fn entry(number: Number, live: u32) -> Entry
    ensures { (rules : RowRules) → entry_of rules result ≡ owed_of number.below (row_at rules number) live }
{
    if number.below {
        Entry::Below(number.row, live)
    } else {
        Entry::Above(number.row, live)
    }
}

// What a row owes before what is owed besides, where so much of its left pattern is live.
fn owe_row(
    row: &Row<'_>,
    live: u32,
    number: Number,
    part: Option<Part>,
    claim: &[Entry],
) -> Option<Part>
    ensures { (rules : RowRules) (due : OwedDue) → row_of row.now ≡ row_at rules number → IsPart rules claim.now part due
        → IsPart rules claim.now result (onto (begun number.below (row_of row.now) (has_whole (flags_by row.now.left.now live))) due) }
{
    if !is_full(row.left, live) {
        return part;
    }
    let start = flow_within(true, row.right, 0, 0)?;
    if is_full(row.right, start) {
        return Some(Part {
            matched: 0,
            otherwise: row.verdict,
        });
    }
    put_if(entry(number, start), row.verdict, part, claim)
}

// Rows have numbers of eight bits.
const MAX_ROWS: usize = 255;

// What rows owe before what is owed besides, where so much of their left patterns is live.
fn owe_rows(
    rows: &[Row<'_>],
    lives: &[u32],
    below: bool,
    part: Option<Part>,
    claim: &[Entry],
) -> Option<Part>
    ensures { (rules : RowRules) (due : OwedDue) → map row_of rows.now ≡ rows_at rules below → IsPart rules claim.now part due
        → IsPart rules claim.now result (owed_rows below (map row_of rows.now) (lives_by (map row_of rows.now) lives.now) due) }
{
    if rows.len() > MAX_ROWS || lives.len() != rows.len() {
        return None;
    }
    let mut owed = part;
    let mut i = rows.len();
    while i > 0 {
        i -= 1;
        let number = Number {
            below,
            row: i as u8,
        };
        owed = owe_row(&rows[i], lives[i], number, owed, claim);
    }
    owed
}

// What marks owe, if there are some.
fn owe_marks(has_marks: bool, part: Option<Part>, claim: &[Entry]) -> Option<Part>
    ensures { (rules : RowRules) (due : OwedDue) → IsPart rules claim.now part due
        → IsPart rules claim.now result (if has_marks then put_onto Marks due else due) }
{
    if has_marks {
        put_if(Entry::Marks, 0, part, claim)
    } else {
        part
    }
}

// What is owed to a place before which this stands, as part of a claim.
pub(crate) fn owe(rules: &Rules<'_>, from: &Before<'_>, claim: &[Entry]) -> Option<Part>
    ensures { IsPart (rules_of rules.now) claim.now result (owed (rules_of rules.now) (before_of (rules_of rules.now) from.now)) }
{
    let none = Part {
        matched: 0,
        otherwise: 0,
    };
    let lower = owe_rows(rules.below, from.below, true, Some(none), claim);
    let marked = owe_marks(rules.has_marks, lower, claim);
    owe_rows(rules.above, from.above, false, marked, claim)
}

// Whether a part is the whole of the claim.
pub(crate) fn is_whole(part: Option<Part>, claim: &[Entry], otherwise: u8) -> bool
    ensures { (rules : RowRules) (due : OwedDue) → IsPart rules claim.now part due → IsTrue result → due ≡ DueOf (map (entry_of rules) claim.now) otherwise }
{
    match part {
        Some(part) => part.matched == claim.len() && part.otherwise == otherwise,
        None => false,
    }
}

/// A symbol that is read, 0 at the end, and whether a mark would be glued there.
#[derive(Clone, Copy)]
pub(crate) struct Read {
    pub(crate) symbol: u8,
    pub(crate) glues: bool,
}

/// What becomes of an entry when a symbol is read: it decides, it stays, with its verdict, or it is dropped.
#[derive(Clone, Copy)]
enum Reading {
    Decides(u8),
    Stays(Entry, u8),
    Drops,
}

// What becomes of the entry of a row when this is read.
fn read_right(row: &Row<'_>, number: Number, live: u32, symbol: u8, is_end: bool) -> Option<Reading>
    ensures { (rules : RowRules) → row_of row.now ≡ row_at rules number
        → IsReading rules result (reading_by number.below (row_of row.now) (flow_of false row.now.right.now (flags_by row.now.right.now live) symbol) is_end) }
{
    let next = flow_within(false, row.right, live, symbol)?;
    if is_full(row.right, next) {
        return Some(Reading::Decides(row.verdict));
    }
    if is_live(row.right, next) && !is_end {
        return Some(Reading::Stays(entry(number, next), row.verdict));
    }
    Some(Reading::Drops)
}

// What becomes of an entry above that of marks.
fn read_above(rules: &Rules<'_>, row: u8, live: u32, read: Read) -> Option<Reading>
    ensures { IsReading (rules_of rules.now) result (reading (rules_of rules.now) read.glues read.symbol (entry_of (rules_of rules.now) (Above row live))) }
{
    if row as usize >= rules.above.len() {
        return None;
    }
    let number = Number { below: false, row };
    read_right(
        &rules.above[row as usize],
        number,
        live,
        read.symbol,
        read.symbol == 0,
    )
}

// Whether a mark is read that is glued.
fn is_glued(rules: &Rules<'_>, read: Read) -> bool
    ensures { result ≡ (has rules.now.marks read.symbol && read.glues) }
{
    is_in(rules.marks, read.symbol) && read.glues
}

// What becomes of one below it: it stays at a mark that is glued.
fn read_below(rules: &Rules<'_>, row: u8, live: u32, read: Read) -> Option<Reading>
    ensures { IsReading (rules_of rules.now) result (reading (rules_of rules.now) read.glues read.symbol (entry_of (rules_of rules.now) (Below row live))) }
{
    if row as usize >= rules.below.len() {
        return None;
    }
    if is_glued(rules, read) {
        return Some(Reading::Stays(Entry::Below(row, live), rules.below[row as usize].verdict));
    }
    let number = Number { below: true, row };
    read_right(
        &rules.below[row as usize],
        number,
        live,
        unmarked(rules, read.symbol),
        read.symbol == 0,
    )
}

// What becomes of an entry when this is read.
fn read_entry(rules: &Rules<'_>, entry: Entry, read: Read) -> Option<Reading>
    ensures { IsReading (rules_of rules.now) result (reading (rules_of rules.now) read.glues read.symbol (entry_of (rules_of rules.now) entry)) }
{
    match entry {
        Entry::Marks => Some(read_marks(is_glued(rules, read))),
        Entry::Above(row, live) => read_above(rules, row, live, read),
        Entry::Below(row, live) => read_below(rules, row, live, read),
    }
}

// What becomes of the entry of marks, where a mark is glued or not.
fn read_marks(is_glued: bool) -> Reading
    ensures { (rules : RowRules) → IsReading rules (Some result) (if is_glued then Decides 0 else Drops) }
{
    if is_glued {
        Reading::Decides(0)
    } else {
        Reading::Drops
    }
}

// What is owed of an entry and of those after it.
fn put_reading(reading: Reading, part: Option<Part>, claim: &[Entry]) -> Option<Part>
    ensures { (rules : RowRules) (due : OwedDue) → HasVerdict rules reading → IsPart rules claim.now part due
        → IsPart rules claim.now result (onto (reading_of rules reading) due) }
{
    match reading {
        Reading::Decides(verdict) => Some(Part {
            matched: 0,
            otherwise: verdict,
        }),
        Reading::Stays(entry, verdict) => put_if(entry, verdict, part, claim),
        Reading::Drops => part,
    }
}

// What is owed after this is read, of entries and a verdict, as part of a claim.
pub(crate) fn read_entries(
    rules: &Rules<'_>,
    entries: &[Entry],
    otherwise: u8,
    read: Read,
    claim: &[Entry],
) -> Option<Part>
    ensures { IsPart (rules_of rules.now) claim.now result (read_all (rules_of rules.now) read.glues read.symbol (map (entry_of (rules_of rules.now)) entries.now) otherwise) }
{
    let mut owed = Some(Part {
        matched: 0,
        otherwise,
    });
    let mut i = entries.len();
    while i > 0 {
        i -= 1;
        let reading = read_entry(rules, entries[i], read)?;
        owed = put_reading(reading, owed, claim);
    }
    owed
}
