//! Boundaries of a text by a machine's dense rows, written into buffers: nothing is read twice at a boundary, and where all boundaries are
//! asked for, no branch is taken on where one stands.
//!
//! An entry of a row is the state that comes next and one bit, whether a segment ends before the character. Where the state goes on,
//! it is the state that comes next; where it accepts and stops, it is the state that START goes on to, with the bit. Other entries say
//! nothing (`SLOW`): there the machine's scan from the last boundary on decides.
ghost use Rattle.std.specs.Prelude.{◌≡◌, ◌≢◌, if◌then◌else◌, nat_lt, ◌+◌, ◌-◌, ◌*◌, ◌/◌, ◌<◌, ◌≤◌, ◌++◌, ℕ, [], length, min, slice_index, take, drop, Bool, true, false, List, ◌∷◌, Some, IfSome, IsTrue};
ghost use Rattle.seg_text.specs.declared.boundary.Boundary.{Boundary as AnyBoundary};
ghost use Rattle.seg_text.specs.Filled.{WritesSome, statuses};
ghost use Rattle.seg_text.specs.Items.{Item, code_points, start_of, rest_after};
ghost use Rattle.seg_data.specs.declared.provider.ComplexScript.TheVariants.{None as NoScript};
ghost use Rattle.seg_machine.specs.DenseRows.{IsPlain, IsRowData, slow};
ghost use Rattle.seg_machine.specs.Machine.{Machine, symbol_and_script, symbols_of};
ghost use Rattle.seg_machine.specs.Pick.{pick};
ghost use Rattle.seg_machine.specs.Scan.{IsSegment, IsSymbolAhead};
ghost use Rattle.seg_machine.specs.Tailored.{machine_of};
ghost use Rattle.seg_rows.specs.Underway.{HasPassed, IsAhead, IsEntryOf, IsGiven, IsNextEntry, IsStuck, behind};
ghost use Rattle.seg_rows.specs.Given.{first_unless};

use crate::rule_segmenter_v2::{next_segment, read_apart};
use seg_machine::dense_rows::{DenseRows, HAS_SCRIPT, SLOW, status_at_end};
use seg_machine::provider::{SegmenterStateMachine, State, Symbol};
use seg_machine::tailored_machine::TailoredMachineBorrowed;
use seg_text::cursor::Cursor;
use seg_text::prefixes::CodePointTest;

// What is left of a text behind a boundary, and what is read of it: an item, if there is one.
#[derive(Drop)]
struct Underway<I: Cursor> {
    rest: I,
    // The row of the state that the scan of `rest` is in.
    row: usize,
    // What isn't read yet.
    after: I,
}

// How far buffers are filled: the first so many are written, the last of them has this status, and this is left behind it.
#[derive(Drop)]
pub(crate) struct Filled<I: Cursor> {
    pub(crate) count: usize,
    pub(crate) status: u8,
    pub(crate) rest: I,
}

impl<I: Cursor> Filled<I> {
    /// The status of the boundary that was given last, where so many were asked for: 0 once the end was passed.
    pub(crate) fn status_within(&self, room: usize) -> u8
        ensures { result ≡ (if nat_lt self.now.count room then 0 else self.now.status) }
    {
        if self.count < room { 0 } else { self.status }
    }
}

// Writes what comes first into a buffer, unless the iterator has started, and returns how many that are.
pub(crate) fn put_first<T: Copy>(started: bool, first: T, into: &mut [T]) -> usize
    requires { 0 < length into.old }
    ensures room { length into.new ≡ length into.old }
    ensures count { result ≡ length (first_unless started first) }
    ensures written { take result into.new ≡ first_unless started first }
    ensures later { drop result into.new ≡ drop result into.old }
{
    if started {
        return 0;
    }
    into[0] = first;
    1
}

// Goes on to write the boundaries of a text behind its start, as many as there are and there is room for. Each step writes, and only
// boundaries are counted, so that there is no branch between what ends a segment and what doesn't.
#[inline(never)]
pub(crate) fn fill_places<I: Cursor>(
    machine: &TailoredMachineBorrowed<'_>,
    rows: &DenseRows,
    filled: Filled<I>,
    places: &mut [usize],
) -> Filled<I>
    requires rows { IsRowData (machine_of machine.now) rows.now }
    requires count { filled.count ≤ length places.old }
    requires last { 0 < filled.count → slice_index places.old (filled.count - 1) ≡ start_of (I.text filled.rest) }
    ensures room { length places.new ≡ length places.old }
    ensures count { result.count ≤ length places.new }
    ensures given { IsGiven (machine_of machine.now) (I.text filled.rest) (I.text result.rest) filled.count result.count filled.status result.status places.old places.new }
    ensures all { result.count < length places.new → (I.text result.rest).items ≡ [] }
{
    machine.facts();
    if filled.rest.is_at_end() || filled.count == places.len() {
        return filled;
    }
    let mut count = filled.count;
    let ahead = read_first(machine, filled.rest);
    let mut rest = ahead.rest;
    let mut row = ahead.row;
    let mut after = ahead.after;
    loop {
        let place = after.place();
        let entry = next_entry(machine, rows, row, &mut after);
        if entry == SLOW {
            let next = by_scan(machine, at_last(&rest, places, count), row, place);
            places[count] = next.ahead.rest.place();
            count += 1;
            if count == places.len() || next.ahead.rest.is_at_end() {
                return Filled {
                    count,
                    status: next.status,
                    rest: next.ahead.rest,
                };
            }
            rest = next.ahead.rest;
            row = next.ahead.row;
            after = next.ahead.after;
            continue;
        }
        places[count] = place;
        count += (entry % 2) as usize;
        let left = row;
        row = (entry / 256) as usize * 256;
        if count == places.len() {
            return Filled {
                count,
                status: rows.statuses()[left / 256],
                rest: at_last(&rest, places, count),
            };
        }
    }
}

/// Writes some of the boundaries of a text behind its start, and their statuses, by a machine's dense rows: as far as code points pass a test, and
/// up to where the rows say nothing. The cursor goes on to the last of them. Returns how many: none where the machine has no rows. Takes no memory.
#[inline(never)]
pub fn fill_passing<I: Cursor, T: CodePointTest>(
    machine: &TailoredMachineBorrowed<'_>,
    test: &T,
    text: &mut I,
    places: &mut [usize],
    marks: &mut [u8],
) -> usize
    requires plain { (code_point : ℕ) → (symbol_and_script (machine_of machine.now) code_point).1 ≡ NoScript → T.passes test.now code_point ≡ true }
    ensures some { WritesSome (behind (machine_of machine.now) (I.text text.old)) (behind (machine_of machine.now) (I.text text.new)) places.old places.new marks.old marks.new result }
    ensures passed { HasPassed (T.passes test.now) (I.text text.old) (I.text text.new) }
    ensures last { 0 < result → slice_index places.new (result - 1) ≡ start_of (I.text text.new) }
{
    machine.facts();
    let Some(rows) = plain_rows(machine) else {
        return 0;
    };
    if !begins_passing(test, text) {
        return 0;
    }
    let room = places.len().min(marks.len());
    let ahead = read_first(machine, text.fork());
    let mut row = ahead.row;
    let mut after = ahead.after;
    let mut done = 0;
    'items: while done < room {
        let place = after.place();
        let entry = passing_entry(machine, rows, test, row, &mut after);
        if entry == SLOW {
            break 'items;
        }
        if entry % 2 == 1 {
            places[done] = place;
            marks[done] = rows.statuses()[row / 256];
            done += 1;
        }
        row = (entry / 256) as usize * 256;
    }
    if done > 0 {
        text.seek(places[done - 1]);
    }
    done
}

// The rows of a machine where no ASCII character has a script.
fn plain_rows<'data>(machine: &TailoredMachineBorrowed<'data>) -> Option<&'data DenseRows>
    ensures { IfSome result (λ rows. IsRowData (machine_of machine.now) rows.now × IsPlain (machine_of machine.now)) }
{
    let rows = machine.rows()?;
    if rows.is_plain() { Some(rows) } else { None }
}

// Whether the first code point of a text passes a test, if there is one.
fn begins_passing<I: Cursor, T: CodePointTest>(test: &T, text: &I) -> bool
    ensures { IsTrue result → (item : Item) × (later : List Item) × ((I.text text.now).items ≡ item ∷ later) × (T.passes test.now item.1 ≡ true) }
{
    match text.fork().next_item() {
        Some((_, code_point)) => test.accepts(code_point),
        None => false,
    }
}

// Goes on to write boundaries as `fill_places` does, and their statuses into another buffer.
#[inline(never)]
pub(crate) fn fill_both<I: Cursor>(
    machine: &TailoredMachineBorrowed<'_>,
    rows: &DenseRows,
    filled: Filled<I>,
    places: &mut [usize],
    marks: &mut [u8],
) -> Filled<I>
    requires rows { IsRowData (machine_of machine.now) rows.now }
    requires count { filled.count ≤ min (length places.old) (length marks.old) }
    requires last { 0 < filled.count → slice_index places.old (filled.count - 1) ≡ start_of (I.text filled.rest) }
    ensures room { (length places.new ≡ length places.old) × (length marks.new ≡ length marks.old) }
    ensures count { result.count ≤ min (length places.new) (length marks.new) }
    ensures given { (found : IsGiven (machine_of machine.now) (I.text filled.rest) (I.text result.rest) filled.count result.count filled.status result.status places.old places.new)
        × (take result.count marks.new ≡ take filled.count marks.old ++ statuses found.given) × (drop result.count marks.new ≡ drop result.count marks.old) }
    ensures all { result.count < min (length places.new) (length marks.new) → (I.text result.rest).items ≡ [] }
{
    machine.facts();
    let room = places.len().min(marks.len());
    if filled.rest.is_at_end() || filled.count == room {
        return filled;
    }
    let mut done = filled.count;
    let ahead = read_first(machine, filled.rest);
    let mut rest = ahead.rest;
    let mut row = ahead.row;
    let mut after = ahead.after;
    loop {
        let place = after.place();
        let entry = next_entry(machine, rows, row, &mut after);
        if entry == SLOW {
            let next = by_scan(machine, at_last(&rest, places, done), row, place);
            places[done] = next.ahead.rest.place();
            marks[done] = next.status;
            done += 1;
            if done == room || next.ahead.rest.is_at_end() {
                return Filled {
                    count: done,
                    status: next.status,
                    rest: next.ahead.rest,
                };
            }
            rest = next.ahead.rest;
            row = next.ahead.row;
            after = next.ahead.after;
            continue;
        }
        let status = rows.statuses()[row / 256];
        places[done] = place;
        marks[done] = status;
        done += (entry % 2) as usize;
        row = (entry / 256) as usize * 256;
        if done == room {
            return Filled {
                count: done,
                status,
                rest: at_last(&rest, places, done),
            };
        }
    }
}

// A cursor at the last of so many places; where there is none, at the same place.
fn at_last<I: Cursor>(rest: &I, places: &[usize], count: usize) -> I
    requires count { count ≤ length places.now }
    requires last { 0 < count → (k : ℕ) × (slice_index places.now (count - 1) ≡ start_of (rest_after k (I.text rest.now))) }
    ensures last { (k : ℕ) → 0 < count → slice_index places.now (count - 1) ≡ start_of (rest_after k (I.text rest.now)) → I.text result ≡ rest_after k (I.text rest.now) }
    ensures none { count ≡ 0 → I.text result ≡ I.text rest.now }
{
    let mut found = rest.fork();
    if count > 0 {
        found.seek(places[count - 1]);
        return found;
    }
    found
}

// What the row of a state says of the next item, which is read.
#[inline(always)]
fn next_entry<I: Cursor>(
    machine: &TailoredMachineBorrowed<'_>,
    rows: &DenseRows,
    row: usize,
    after: &mut I,
) -> u16
    requires rows { IsRowData (machine_of machine.now) rows.now }
    requires row { (state : ℕ) × (row ≡ state * 256) × (state < length (machine_of machine.now).states) }
    ensures { IsNextEntry (machine_of machine.now) (λ _. true) (I.text after.old) (row / 256) result (I.text after.new) }
{
    machine.facts();
    if let Some((_, ascii)) = after.next_ascii() {
        return rows.entries()[row + ascii as usize];
    }
    match after.next_item() {
        Some((_, code_point)) => wide_entry(machine, rows, row, code_point),
        None => SLOW,
    }
}

// What the row of a state says of a code point, by its symbol.
#[inline(always)]
fn wide_entry(
    machine: &TailoredMachineBorrowed<'_>,
    rows: &DenseRows,
    row: usize,
    code_point: u32,
) -> u16
    requires rows { IsRowData (machine_of machine.now) rows.now }
    requires row { (state : ℕ) × (row ≡ state * 256) × (state < length (machine_of machine.now).states) }
    ensures { IsEntryOf (machine_of machine.now) (row / 256) code_point result }
{
    machine.facts();
    let symbol = symbol_of(machine, rows, code_point);
    if symbol < 128 {
        rows.entries()[row + 128 + symbol as usize]
    } else {
        SLOW
    }
}

// What the row of a state says of the next item, which is read, where its code point passes a test; else nothing.
#[inline(always)]
fn passing_entry<I: Cursor, T: CodePointTest>(
    machine: &TailoredMachineBorrowed<'_>,
    rows: &DenseRows,
    test: &T,
    row: usize,
    after: &mut I,
) -> u16
    requires rows { IsRowData (machine_of machine.now) rows.now }
    requires row { (state : ℕ) × (row ≡ state * 256) × (state < length (machine_of machine.now).states) }
    requires ascii { (code_point : ℕ) → code_point < 128 → T.passes test.now code_point ≡ true }
    requires plain { (code_point : ℕ) → (symbol_and_script (machine_of machine.now) code_point).1 ≡ NoScript → T.passes test.now code_point ≡ true }
    ensures { IsNextEntry (machine_of machine.now) (T.passes test.now) (I.text after.old) (row / 256) result (I.text after.new) }
{
    machine.facts();
    if let Some((_, ascii)) = after.next_ascii() {
        return rows.entries()[row + ascii as usize];
    }
    let Some((_, code_point)) = after.next_item() else {
        return SLOW;
    };
    if may_have_script(rows, code_point) && !test.accepts(code_point) {
        return SLOW;
    }
    wide_entry(machine, rows, row, code_point)
}

// The symbol of a code point.
#[inline(always)]
fn symbol_of(machine: &TailoredMachineBorrowed<'_>, rows: &DenseRows, code_point: u32) -> Symbol
    requires rows { IsRowData (machine_of machine.now) rows.now }
    ensures { result ≡ (symbol_and_script (machine_of machine.now) code_point).0 }
{
    let symbols = rows.symbols();
    let index = code_point as usize;
    if index < symbols.len() {
        symbols[index] % HAS_SCRIPT
    } else {
        symbol_apart(machine, code_point)
    }
}

// Whether a code point may have a script: as the rows say, if they say anything of it.
#[inline(always)]
fn may_have_script(rows: &DenseRows, code_point: u32) -> bool
    ensures { result ≡ false → (m : Machine) → IsRowData m rows.now → (symbol_and_script m code_point).1 ≡ NoScript }
{
    let symbols = rows.symbols();
    let index = code_point as usize;
    index >= symbols.len() || symbols[index] >= HAS_SCRIPT
}

// The symbol of a code point, looked up by the machine.
#[inline(never)]
fn symbol_apart(machine: &TailoredMachineBorrowed<'_>, code_point: u32) -> Symbol
    ensures { result ≡ (symbol_and_script (machine_of machine.now) code_point).0 }
{
    machine.symbol(code_point)
}

// The status of a boundary, and what is left behind it.
#[derive(Drop)]
struct Found<I: Cursor> {
    status: u8,
    ahead: Underway<I>,
}

// Goes on to the end of the first segment of a text, where the rows don't say where it is, and reads the first item behind it. The
// scan has come to a place, in the state of this row. Apart, since it is rare.
#[inline(never)]
fn by_scan<I: Cursor>(
    machine: &TailoredMachineBorrowed<'_>,
    text: I,
    row: usize,
    place: usize,
) -> Found<I>
    requires some { (I.text text).items ≢ [] }
    requires stuck { IsStuck (machine_of machine.now) (I.text text) row place }
    ensures segment { IsSegment (machine_of machine.now) (I.text text) (I.text result.ahead.rest) result.status }
    ensures ahead { IsAhead (machine_of machine.now) (I.text result.ahead.rest) result.ahead.row (I.text result.ahead.after) }
{
    let mut rest = text;
    if let Some(status) = status_there(machine, &rest, row, place) {
        rest.seek(place);
        let ahead = read_first(machine, rest);
        return Found { status, ahead };
    }
    let mut next = read_apart(machine, rest.fork());
    let status = next_segment(machine, &mut rest, &mut next);
    let ahead = read_first(machine, rest);
    Found { status, ahead }
}

// The status of the first segment of a text where the text ends at this place, and the state of this row accepts there.
fn status_there<I: Cursor>(
    machine: &TailoredMachineBorrowed<'_>,
    text: &I,
    row: usize,
    place: usize,
) -> Option<u8>
    requires { IsStuck (machine_of machine.now) (I.text text.now) row place }
    ensures { IfSome result (λ status. (p : AnyBoundary) × (pick (machine_of machine.now) (symbols_of (machine_of machine.now) (code_points (I.text text.now).items)) ≡ Some p)
        × (place ≡ start_of (rest_after p.offset (I.text text.now))) × (status ≡ p.status)) }
{
    machine.facts();
    let mut there = text.fork();
    there.seek(place);
    if there.is_at_end() {
        return status_at_end(machine, (row / 256) as State);
    }
    None
}

// Reads the first item of a text, if there is one.
#[inline(always)]
fn read_first<I: Cursor>(machine: &TailoredMachineBorrowed<'_>, text: I) -> Underway<I>
    ensures rest { I.text result.rest ≡ I.text text }
    ensures ahead { IsAhead (machine_of machine.now) (I.text text) result.row (I.text result.after) }
    ensures one { I.text result.after ≡ rest_after 1 (I.text text) }
{
    machine.facts();
    let mut after = text.fork();
    let Some((_, code_point)) = after.next_item() else {
        return Underway {
            rest: text,
            row: 0,
            after,
        };
    };
    let symbol = machine.symbol(code_point);
    let Some(state) = machine.next_state(SegmenterStateMachine::START_STATE, symbol) else {
        unreachable!()
    };
    Underway {
        rest: text,
        row: state as usize * 256,
        after,
    }
}
