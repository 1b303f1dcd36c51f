//! Segments by a state machine.

ghost use Rattle.std.specs.Prelude.{◌≡◌, ◌≢◌, ◌<◌, ◌≤◌, ⊤, Some, None, IsTrue, MatchOption, false, unwrap_or, [], length, min, replicate};
ghost use Rattle.std.specs.Iterator.{YieldsFirst, MakesProgress, item_count};
ghost use Rattle.seg_text.specs.Filled.{WritesBoth, WritesPlaces};
ghost use Rattle.seg_text.specs.Items.{start_of};
ghost use Rattle.seg_text.specs.Boundaries.{GivesNext, IsCover, boundaries_in, offsets_left};
ghost use Rattle.seg_machine.specs.MachineFaults.{NamesPast};
ghost use Rattle.seg_machine.specs.Machine.{state_at};
ghost use Rattle.seg_machine.specs.Pick.{machine_boundaries};
ghost use Rattle.seg_machine.specs.Tailored.{machine_of};
ghost use Rattle.seg_machine.specs.Scan.{acceptance_at, condition_end, places_after, IsSymbolAhead, IsSegment};
ghost use Rattle.seg_rows.specs.Underway.{GivesBehind, IsScannedTo};

use crate::buffers::{Filled, fill_both, fill_places, put_first};
use crate::places::{EightPlaces, KeptPlaces, NoPlaces, OnePlace};
use seg_machine::provider::{
    Acceptance, CONTINUES, Lookahead, SegmenterStateMachine, State, Symbol,
};
use seg_machine::tailored_machine::TailoredMachineBorrowed;
use seg_text::boundary::Boundary;
use seg_text::cursor::Cursor;
use seg_text::reach::Reach;
use std::fmt;
use std::marker::Model;

/// The boundaries of a text by a state machine: its start, and then the end of each segment.
///
/// Each segment is the pick of the machine for what is left of the text.
#[derive(Drop)]
pub struct RuleBreakIterator<'data, I: Cursor> {
    started: bool,
    ahead: Ahead<I>,
    machine: TailoredMachineBorrowed<'data>,
    // What is left after the boundary that was given last.
    rest: I,
    status: u8,
}

impl<'data, I: Cursor> fmt::Debug for RuleBreakIterator<'data, I> {
    fn fmt<W: fmt::Write>(&self, f: &mut fmt::Formatter<W>) -> fmt::Result {
        f.write_str("RuleBreakIterator { .. }")
    }
}

impl<'data, I: Cursor> Model for RuleBreakIterator<'data, I> {
    ghost use Rattle.std.specs.Prelude.{◌≡◌, false};
    ghost use Rattle.seg_machine.specs.Tailored.{machine_of};
    ghost use Rattle.seg_text.specs.Boundaries.{Remainder, remainder};
    ghost use Rattle.seg_machine.specs.Scan.{IsSymbolAhead};
    ghost use Rattle.seg_machine.specs.Pick.{machine_stretch};

    ghost Value = { Remainder };

    ghost view = { λ s. remainder s.started (machine_stretch (machine_of s.machine)) (I.text s.rest) s.status };

    ghost invariant = { λ s. (s.started ≡ false → s.status ≡ 0)
        × IsSymbolAhead (machine_of s.machine) (I.text s.rest) s.ahead.symbol (I.text s.ahead.after) };
}

impl<'data, I: Cursor> RuleBreakIterator<'data, I> {
    /// The boundaries of what is left of `text`. Takes no memory.
    pub fn new(machine: TailoredMachineBorrowed<'data>, text: I) -> Self
        ensures left { result.left ≡ boundaries_in (machine_boundaries (machine_of machine.entry)) (I.text text) }
        ensures cover { IsCover (start_of (I.text text)) (I.text text).end result.left }
        ensures status { result.status ≡ 0 }
    {
        machine.facts();
        let mut after = text.fork();
        let symbol = next_symbol(&machine, &mut after);
        RuleBreakIterator {
            machine,
            rest: text,
            ahead: Ahead { symbol, after },
            started: false,
            status: 0,
        }
    }

    /// The status of the boundary that was given last: 0 for the first, before it and after the end.
    pub fn status(&self) -> u8
        ensures { result ≡ self.now.status }
    {
        self.status
    }

    /// Writes the places of the next boundaries over the first of `places`, as many as there are and there is room for, and returns how
    /// many: by the machine's dense rows. None, where it has none, and nothing is written. Takes no memory.
    pub fn fill(&mut self, places: &mut [usize]) -> Option<usize>
        ensures { MatchOption result ((self.new ≡ self.old) × (places.new ≡ places.old)) (WritesPlaces self.old self.new places.old places.new) }
    {
        let machine = self.machine;
        let rows = machine.rows()?;
        if places.is_empty() {
            return Some(0);
        }
        let begun = Filled {
            count: put_first(self.started, self.rest.place(), places),
            status: self.status,
            rest: self.rest.fork(),
        };
        let filled = fill_places(&machine, rows, begun, places);
        self.ahead = read_apart(&machine, filled.rest.fork());
        self.status = filled.status_within(places.len());
        self.rest = filled.rest;
        self.started = true;
        Some(filled.count)
    }

    /// Writes the places of the next boundaries and their statuses, as many as both buffers have room for, as `fill` does.
    pub fn fill_both(&mut self, places: &mut [usize], statuses: &mut [u8]) -> Option<usize>
        ensures { MatchOption result ((self.new ≡ self.old) × (places.new ≡ places.old) × (statuses.new ≡ statuses.old))
            (WritesBoth (min (length places.old) (length statuses.old)) self.old self.new places.old places.new statuses.old statuses.new) }
    {
        let machine = self.machine;
        let rows = machine.rows()?;
        if places.is_empty() || statuses.is_empty() {
            return Some(0);
        }
        put_first(self.started, 0, statuses);
        let begun = Filled {
            count: put_first(self.started, self.rest.place(), places),
            status: self.status,
            rest: self.rest.fork(),
        };
        let filled = fill_both(&machine, rows, begun, places, statuses);
        self.ahead = read_apart(&machine, filled.rest.fork());
        self.status = filled.status_within(places.len().min(statuses.len()));
        self.rest = filled.rest;
        self.started = true;
        Some(filled.count)
    }

    /// A second iterator over the boundaries that are left. Takes no memory.
    pub fn fork(&self) -> Self
        ensures { result ≡ self.now }
    {
        RuleBreakIterator {
            machine: self.machine,
            rest: self.rest.fork(),
            ahead: Ahead {
                symbol: self.ahead.symbol,
                after: self.ahead.after.fork(),
            },
            started: self.started,
            status: self.status,
        }
    }
}

impl<'data, I: Cursor> Iterator for RuleBreakIterator<'data, I> {
    type Item = usize;

    ghost next_gives = { YieldsFirst offsets_left };

    ghost remaining = { item_count offsets_left };

    #[inline(always)]
    fn next(&mut self) -> Option<usize>
        ensures steps { YieldsFirst offsets_left self.old result self.new × GivesNext self.old result self.new }
        ensures goes { MakesProgress (λ _. ⊤) (item_count offsets_left) self.old result self.new }
    {
        if !self.started {
            self.started = true;
            return Some(self.rest.place());
        }
        if self.rest.is_at_end() {
            self.status = 0;
            return None;
        }
        self.status = next_segment(&self.machine, &mut self.rest, &mut self.ahead);
        Some(self.rest.place())
    }

    fn size_hint(&self) -> (usize, Option<usize>) {
        self.machine.facts();
        let reach = Reach {
            started: self.started,
            place: self.rest.place(),
            end: self.rest.end(),
        };
        reach.size_hint()
    }
}

/// The next boundary of a text behind its start, to which the cursor goes on. None at the end. Takes no memory.
pub fn next_behind<I: Cursor>(
    machine: &TailoredMachineBorrowed<'_>,
    text: &mut I,
) -> Option<Boundary>
    ensures { GivesBehind (machine_of machine.now) (I.text text.old) result (I.text text.new) }
{
    if text.is_at_end() {
        return None;
    }
    let mut ahead = read_apart(machine, text.fork());
    let status = next_segment(machine, text, &mut ahead);
    Some(Boundary {
        offset: text.place(),
        status,
    })
}

/// The first symbol of a text, which is read already, and what is left after its item.
#[derive(Drop)]
pub(crate) struct Ahead<I: Cursor> {
    symbol: Symbol,
    after: I,
}

impl<I: Cursor> Ahead<I> {
    /// Reads the first symbol of what is left of a text.
    #[inline(always)]
    fn read(&mut self, machine: &TailoredMachineBorrowed<'_>, rest: &I)
        ensures { IsSymbolAhead (machine_of machine.now) (I.text rest.now) self.new.symbol (I.text self.new.after) }
    {
        // On a copy, so that no address of the iterator is handed on, and it can stay in registers.
        let machine = *machine;
        let next = read_apart(&machine, rest.fork());
        self.symbol = next.symbol;
        self.after = next.after;
    }
}

/// The first symbol of a text, and what is left after its item. Apart, so that it isn't in line once more.
#[inline(never)]
pub(crate) fn read_apart<I: Cursor>(machine: &TailoredMachineBorrowed<'_>, text: I) -> Ahead<I>
    ensures { IsSymbolAhead (machine_of machine.now) (I.text text) result.symbol (I.text result.after) }
{
    let mut after = text;
    let symbol = next_symbol(machine, &mut after);
    Ahead { symbol, after }
}

/// Goes on to the end of the next segment, and gives its status.
#[inline(always)]
pub(crate) fn next_segment<I: Cursor>(
    machine: &TailoredMachineBorrowed<'_>,
    rest: &mut I,
    ahead: &mut Ahead<I>,
) -> u8
    requires some { (I.text rest.old).items ≢ [] }
    requires ahead { IsSymbolAhead (machine_of machine.now) (I.text rest.old) ahead.old.symbol (I.text ahead.old.after) }
    ensures segment { IsSegment (machine_of machine.now) (I.text rest.old) (I.text rest.new) result }
    ensures ahead { IsSymbolAhead (machine_of machine.now) (I.text rest.new) ahead.new.symbol (I.text ahead.new.after) }
{
    machine.facts();
    let mut picked = Boundary {
        offset: rest.place(),
        status: 0,
    };
    let stood = match machine.num_lookaheads() {
        0 => scan(machine, rest, ahead, NoPlaces, &mut picked),
        1 => scan(machine, rest, ahead, OnePlace(None), &mut picked),
        _ => scan_on_copies(machine, rest, ahead, &mut picked),
    };
    rest.seek(picked.offset);
    if picked.offset != stood {
        ahead.read(machine, rest);
    }
    picked.status
}

/// Finds the pick of what is left of a text: where the segment ends, and its status. Gives where the symbol stands that was
/// looked up last, or comes next: that is `ahead` then. `kept` has places for the machine's lookaheads.
#[inline(always)]
fn scan<I: Cursor, P: KeptPlaces>(
    machine: &TailoredMachineBorrowed<'_>,
    rest: &I,
    ahead: &mut Ahead<I>,
    mut kept: P,
    picked: &mut Boundary,
) -> usize
    requires some { (I.text rest.now).items ≢ [] }
    requires none { P.kept kept ≡ replicate (length (P.kept kept)) None }
    requires enough { (machine_of machine.now).num_lookaheads ≤ length (P.kept kept) }
    requires ahead { IsSymbolAhead (machine_of machine.now) (I.text rest.now) ahead.old.symbol (I.text ahead.old.after) }
    ensures { IsScannedTo (machine_of machine.now) (I.text rest.now) picked.new result ahead.new.symbol (I.text ahead.new.after) }
{
    machine.facts();
    let mut state = SegmenterStateMachine::START_STATE;
    let mut stood = rest.place();
    'scan: loop {
        let Some(next) = machine.next_state(state, ahead.symbol) else {
            return stood;
        };
        stood = ahead.after.place();
        ahead.symbol = next_symbol(machine, &mut ahead.after);
        state = next;
        if pass(machine, next, stood, &mut kept, picked) {
            return stood;
        }
    }
}

/// A scan by a machine with several lookaheads, on copies, so that what the caller has can stay in registers.
#[inline(always)]
fn scan_on_copies<I: Cursor>(
    machine: &TailoredMachineBorrowed<'_>,
    rest: &I,
    ahead: &mut Ahead<I>,
    picked: &mut Boundary,
) -> usize
    requires some { (I.text rest.now).items ≢ [] }
    requires ahead { IsSymbolAhead (machine_of machine.now) (I.text rest.now) ahead.old.symbol (I.text ahead.old.after) }
    ensures { IsScannedTo (machine_of machine.now) (I.text rest.now) picked.new result ahead.new.symbol (I.text ahead.new.after) }
{
    let machine = *machine;
    let rest = rest.fork();
    let mut found = Boundary {
        offset: 0,
        status: 0,
    };
    let mut next = Ahead {
        symbol: ahead.symbol,
        after: ahead.after.fork(),
    };
    let stood = scan_with_eight(&machine, &rest, &mut next, &mut found);
    ahead.symbol = next.symbol;
    ahead.after = next.after;
    picked.offset = found.offset;
    picked.status = found.status;
    stood
}

/// A scan by a machine with several lookaheads.
#[inline(never)]
fn scan_with_eight<I: Cursor>(
    machine: &TailoredMachineBorrowed<'_>,
    rest: &I,
    ahead: &mut Ahead<I>,
    picked: &mut Boundary,
) -> usize
    requires some { (I.text rest.now).items ≢ [] }
    requires ahead { IsSymbolAhead (machine_of machine.now) (I.text rest.now) ahead.old.symbol (I.text ahead.old.after) }
    ensures { IsScannedTo (machine_of machine.now) (I.text rest.now) picked.new result ahead.new.symbol (I.text ahead.new.after) }
{
    machine.facts();
    scan(machine, rest, ahead, EightPlaces([None; 8]), picked)
}

/// The symbol of the next item; after the last one that of the end, as often as it is asked for.
#[inline(always)]
fn next_symbol<I: Cursor>(machine: &TailoredMachineBorrowed<'_>, iter: &mut I) -> Symbol
    ensures { IsSymbolAhead (machine_of machine.now) (I.text iter.old) result (I.text iter.new) }
{
    machine.facts();
    match iter.next_item() {
        Some((_, code_point)) => machine.symbol(code_point),
        None => SegmenterStateMachine::EOT_SYMBOL,
    }
}

/// Does what `enter` does. Most states only accept or only go on, and one byte tells that.
#[inline(always)]
fn pass<P: KeptPlaces>(
    machine: &TailoredMachineBorrowed<'_>,
    state: State,
    place: usize,
    kept: &mut P,
    last: &mut Boundary,
) -> bool
    requires state { state < length (machine_of machine.now).states }
    requires names { NamesPast (length (P.kept kept.old)) (state_at (machine_of machine.now) state) → ⊥ }
    ensures holds { IsTrue result → condition_end (P.kept kept.old) (state_at (machine_of machine.now) state) ≡ Some last.new }
    ensures none { result ≡ false → condition_end (P.kept kept.old) (state_at (machine_of machine.now) state) ≡ None }
    ensures last { result ≡ false → last.new ≡ unwrap_or (acceptance_at place (state_at (machine_of machine.now) state)) last.old }
    ensures kept { result ≡ false → P.kept kept.new ≡ places_after place (state_at (machine_of machine.now) state) (P.kept kept.old) }
{
    let mark = machine.mark(state);
    if mark < CONTINUES {
        last.offset = place;
        last.status = mark;
        return false;
    }
    if mark == CONTINUES {
        return false;
    }
    enter(machine.entry(state), place, kept, last)
}

/// Enters a state at a place, and gives whether its condition holds: then the segment ends at the place kept for its lookahead.
/// Else an acceptance is remembered, and the place is kept for the lookahead that the state names.
#[inline(always)]
#[tactic(auto, unfolding(seg_machine::specs::Scan::condition_end, seg_machine::specs::Scan::acceptance_after, seg_machine::specs::Scan::places_after))]
fn enter<P: KeptPlaces>(
    state: (Acceptance, Option<Lookahead>),
    place: usize,
    kept: &mut P,
    last: &mut Boundary,
) -> bool
    requires { NamesPast (length (P.kept kept.old)) state → ⊥ }
    ensures holds { IsTrue result → condition_end (P.kept kept.old) state ≡ Some last.new }
    ensures none { result ≡ false → condition_end (P.kept kept.old) state ≡ None }
    ensures last { result ≡ false → last.new ≡ unwrap_or (acceptance_at place state) last.old }
    ensures kept { result ≡ false → P.kept kept.new ≡ places_after place state (P.kept kept.old) }
{
    match state.0 {
        Acceptance::Accept(status) => {
            last.offset = place;
            last.status = status;
        }
        Acceptance::Conditional(lookahead, status) => {
            if let Some(offset) = kept.place_for(lookahead) {
                last.offset = offset;
                last.status = status;
                return true;
            }
        }
        Acceptance::Continue => {}
    }
    if let Some(lookahead) = state.1 {
        kept.keep(lookahead, place);
    }
    false
}
