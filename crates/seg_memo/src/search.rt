//! A scan that looks up no configuration that was looked up before.

ghost use Rattle.std.specs.Prelude.{◌≡◌, ℕ, false, Some, suc, ◌+◌, ◌<◌, ◌≤◌, ◌^◌, length, drop, min, slice_index_or};
ghost use Rattle.seg_text.specs.declared.boundary.Boundary.{Boundary as AnyBoundary};
ghost use Rattle.seg_text.specs.Boundaries.{shift};
ghost use Rattle.seg_text.specs.Items.{Text, code_points, rest_after, start_of};
ghost use Rattle.seg_machine.specs.Machine.{symbols_of};
ghost use Rattle.seg_machine.specs.Pick.{pick};
ghost use Rattle.seg_machine.specs.Tailored.{parts_of};
ghost use Rattle.seg_memo.specs.Configurations.{floor, look_up, IfLeads};
ghost use Rattle.seg_memo.specs.Grids.{IsConfigurationOf, IsEnded, IsKeptSymbol, IsNamed, IsReadBy, IsReady, IsScanned, IsSound, IsWalked, Named, Scan, Source, Went, cell};
ghost use Rattle.seg_memo.specs.declared.configuration.Cell.TheVariants.{Unknown};
ghost use Rattle.seg_memo.specs.declared.configuration.LookUp.TheVariants.{Leads};

use crate::configuration::{
    Cell, Configuration, LookUp, Outcome, arrive, before, entered, floor, holding, known, name_of,
    naming, picked, plain, way,
};
use crate::reader::ReadTransitions;
use crate::table::Table;
use seg_machine::machine_parts::MachineParts;
use seg_machine::provider::{Acceptance, SegmenterStateMachine, Symbol};
use seg_text::boundary::Boundary;
use seg_text::cursor::Cursor;

/// What scans a text: a machine but for its transitions, their reader, and what is known of the configurations.
#[derive(Drop)]
pub(crate) struct Scanner<'data, R: ReadTransitions> {
    pub(crate) machine: MachineParts<'data>,
    pub(crate) reader: R,
    pub(crate) table: Table,
}

/// The symbol at a place of the text, which is read already, and what is left after it.
#[derive(Drop)]
pub(crate) struct Ahead<I: Cursor> {
    pub(crate) symbol: Symbol,
    pub(crate) after: I,
}

/// A text, what is left of it after so many items, and the symbol of the first of those.
#[derive(Drop)]
pub(crate) struct Left<I: Cursor> {
    pub(crate) text: I,
    pub(crate) rest: I,
    pub(crate) place: usize,
    pub(crate) ahead: Ahead<I>,
}

/// A scan's pick, where a cursor stands there, and the place of the symbol that is then read already.
#[derive(Drop)]
pub(crate) struct Scanned {
    pub(crate) pick: Boundary,
    pub(crate) stood: usize,
    pub(crate) place: usize,
}

/// The symbol of the item at a place, and the place after it; at the end of the text the symbol of the end, and the place
/// stays.
#[inline(always)]
pub(crate) fn next_symbol<I: Cursor>(
    machine: &MachineParts<'_>,
    rest: &mut I,
    place: usize,
) -> (Symbol, usize)
    ghost source: { Source }
    requires symbols { source.subject.symbols ≡ symbols_of (parts_of machine.now) (code_points source.whole.items) }
    requires rest { I.text rest.old ≡ rest_after place source.whole }
    requires place { place ≤ length source.subject.symbols }
    requires room { suc (length source.subject.symbols) < 2 ^ 64 }
    ensures symbol { result.0 ≡ slice_index_or source.subject.symbols place 0 }
    ensures place { result.1 ≡ min (suc place) (length source.subject.symbols) }
    ensures rest { I.text rest.new ≡ rest_after result.1 source.whole }
{
    match rest.next_item() {
        Some((_, code_point)) => (machine.symbol(code_point), place + 1),
        None => (SegmenterStateMachine::EOT_SYMBOL, place),
    }
}

/// One look-up: what it gives in a configuration that the text's next item reads the transition.
#[inline(always)]
fn look_up<I: Cursor, R: ReadTransitions>(
    machine: &MachineParts<'_>,
    reader: &mut R,
    rest: &mut I,
    here: Configuration,
) -> LookUp
    ghost source: { Source }
    requires sound { IsSound source.subject }
    requires read { IsReadBy source (parts_of machine.now) (R.states reader.old) (R.transitions reader.old) }
    requires count { R.counted reader.old < usize.MAX }
    requires here { IsConfigurationOf source.subject here }
    requires rest { I.text rest.old ≡ rest_after here.place source.whole }
    ensures value { result ≡ look_up source.subject here }
    ensures within { IfLeads result (IsConfigurationOf source.subject) }
    ensures rest { IfLeads result (λ next. I.text rest.new ≡ rest_after next.place source.whole) }
    ensures read { IsReadBy source (parts_of machine.now) (R.states reader.new) (R.transitions reader.new) }
    ensures count { R.counted reader.new ≡ R.counted reader.old + 1 }
{
    let (symbol, place) = next_symbol(machine, rest, here.place);
    let state = reader.read(here.state, symbol);
    if state == SegmenterStateMachine::TRASH_STATE {
        return LookUp::Ends(Outcome::Nothing);
    }
    arrive(machine.entry(state), state, place, here.kept)
}

/// Goes back over the cells of a scan, and fills each with its outcome, as far as the segment's end. Gives the outcome of
/// the first.
#[inline(always)]
fn go_back(
    machine: &MachineParts<'_>,
    table: &mut Table,
    first: Configuration,
    last: Configuration,
    outcome: Outcome,
) -> Outcome
    ghost named: { Named }
    requires states { named.source.subject.machine.states ≡ (parts_of machine.now).states }
    requires went { (count : ℕ) × Went named.source.subject table.old count named.start named.last first last outcome }
    ensures walked { (count : ℕ) → Went named.source.subject table.old count named.start named.last first last outcome → IsWalked named.source.subject table.new count named.start named.last first result }
{
    let mut here = last;
    let mut outcome = outcome;
    'back: loop {
        let Some(held) = holding(outcome) else {
            return outcome;
        };
        let way = table.cell(here);
        table.write(here, held);
        let Cell::Way(state, kept, stays) = way else {
            return outcome;
        };
        outcome = entered(here.place, machine.entry(here.state), outcome);
        here = before(here, state, kept, stays);
    }
}

/// Where a cursor stands at a place, of one that is at an earlier place.
#[inline(always)]
fn place_after<I: Cursor>(rest: &I, place: usize, later: usize) -> usize
    ghost whole: { Text }
    requires place { place ≤ later }
    requires rest { I.text rest.now ≡ rest_after place whole }
    ensures { result ≡ start_of (rest_after later whole) }
{
    let mut left = rest.fork();
    for item in place..later {
        skip(&mut left);
    }
    left.place()
}

impl<'data, R: ReadTransitions> Scanner<'data, R> {
    /// Goes on from two configurations, the first of which was looked up, to one that is known or to the scan's end. Each cell on
    /// the way leads back to the one before. Gives the configuration of the last look-up and its outcome.
    #[inline(always)]
    fn go_forward<I: Cursor>(
        &mut self,
        rest: &mut I,
        first: Configuration,
        second: Configuration,
    ) -> (Configuration, Outcome)
        ghost named: { Named }
        requires read { IsReadBy named.source (parts_of self.old.machine) (R.states self.old.reader) (R.transitions self.old.reader) }
        requires named { (count : ℕ) × (R.counted self.old.reader ≡ count + 1)
            × IsNamed named.source.subject self.old.table count named.start named.last first × (cell self.old.table first ≡ Unknown) }
        requires second { (look_up named.source.subject first ≡ Leads second) × IsConfigurationOf named.source.subject second }
        requires rest { I.text rest.old ≡ rest_after second.place named.source.whole }
        ensures read { IsReadBy named.source (parts_of self.new.machine) (R.states self.new.reader) (R.transitions self.new.reader) }
        ensures went { Went named.source.subject self.new.table (R.counted self.new.reader) named.start named.last first result.0 result.1 }
    {
        let mut here = first;
        let mut next = second;
        self.table.write(here, Cell::First);
        'scan: loop {
            if let Some(outcome) = known(self.table.cell(next)) {
                let entry = self.machine.entry(next.state);
                return (here, entered(next.place, entry, outcome));
            }
            self.table.write(next, way(here, next));
            here = next;
            next = match look_up(&self.machine, &mut self.reader, rest, here) {
                LookUp::Ends(outcome) => return (here, outcome),
                LookUp::Leads(next) => next,
            };
        }
    }

    /// The outcome of the configuration that names a scan's first lookahead. Its own cell is written only where the scan goes on.
    #[inline(always)]
    fn outcome_from<I: Cursor>(&mut self, rest: &I, first: Configuration, from: usize) -> Outcome
        ghost named: { Named }
        requires read { IsReadBy named.source (parts_of self.old.machine) (R.states self.old.reader) (R.transitions self.old.reader) }
        requires named { IsNamed named.source.subject self.old.table (R.counted self.old.reader) named.start named.last first }
        requires rest { I.text rest.now ≡ rest_after first.place named.source.whole }
        requires from { from ≡ floor first.place named.last }
        ensures read { IsReadBy named.source (parts_of self.new.machine) (R.states self.new.reader) (R.transitions self.new.reader) }
        ensures walked { IsWalked named.source.subject self.new.table (R.counted self.new.reader) named.start named.last first result }
    {
        if let Some(outcome) = known(self.table.cell(first)) {
            return outcome;
        }
        let mut iter = rest.fork();
        let second = match look_up(&self.machine, &mut self.reader, &mut iter, first) {
            LookUp::Ends(outcome) => return outcome,
            LookUp::Leads(second) => second,
        };
        self.table.leave(from);
        let (last, outcome) = self.go_forward(&mut iter, first, second);
        go_back(&self.machine, &mut self.table, first, last, outcome)
    }

    /// The pick of a scan that reached the configuration that names its first lookahead, and where a cursor stands there. From
    /// there on every configuration has a cell, but for that one itself where its look-up ends the scan with a pick there or later.
    #[inline(never)]
    fn scan_kept<I: Cursor>(
        &mut self,
        rest: &I,
        first: Configuration,
        last: Option<Boundary>,
        stood: usize,
    ) -> (Boundary, usize)
        ghost named: { Named }
        requires read { IsReadBy named.source (parts_of self.old.machine) (R.states self.old.reader) (R.transitions self.old.reader) }
        requires last { last ≡ named.last }
        requires named { IsNamed named.source.subject self.old.table (R.counted self.old.reader) named.start named.last first }
        requires rest { I.text rest.now ≡ rest_after first.place named.source.whole }
        ensures read { IsReadBy named.source (parts_of self.new.machine) (R.states self.new.reader) (R.transitions self.new.reader) }
        ensures scanned { IsScanned named.source.subject self.new.table (R.counted self.new.reader) named.start result.0 }
        ensures stands { stood ≡ start_of (rest_after (floor named.start named.last) named.source.whole) → result.1 ≡ start_of (rest_after result.0.offset named.source.whole) }
    {
        let from = floor(first.place, last);
        let outcome = self.outcome_from(rest, first, from);
        let outcome = entered(first.place, self.machine.entry(first.state), outcome);
        if let Some(found) = picked(outcome) {
            return (found, place_after(rest, first.place, found.offset));
        }
        let Some(found) = last else { unreachable!() };
        self.table.leave(from);
        self.table.write(first, Cell::KnownNothing);
        (found, stood)
    }

    /// One scan, as far as it needs no way back. `ahead` is the symbol at its start, and then that at the place that it gives. While no
    /// lookahead is named no condition holds, and what one picks later is at that name or after it. So three things need no cell. What is
    /// before the pick: later scans begin there. A state that accepts: a scan that reached it before had its pick there or later. And what is
    /// before the first acceptance: a scan that has a pick finds nothing that has none. What comes after an acceptance is marked at once:
    /// nothing accepts after it, unless the pick is later and no scan reaches it again.
    #[inline(always)]
    fn scan_plain<I: Cursor, const NAMES: bool>(
        &mut self,
        rest: &I,
        ahead: &mut Ahead<I>,
        start: usize,
    ) -> Scanned
        ghost scan: { Scan }
        requires names { NAMES ≡ false → scan.source.subject.machine.num_lookaheads ≡ 0 }
        requires read { IsReadBy scan.source (parts_of self.old.machine) (R.states self.old.reader) (R.transitions self.old.reader) }
        requires ready { IsReady scan.source self.old.table (R.counted self.old.reader) scan.start (I.text rest.now) ahead.old.symbol (I.text ahead.old.after) }
        requires start { start ≡ scan.start }
        requires some { scan.start < length scan.source.subject.symbols }
        ensures read { IsReadBy scan.source (parts_of self.new.machine) (R.states self.new.reader) (R.transitions self.new.reader) }
        ensures ended { IsEnded scan self.new.table (R.counted self.new.reader) result ahead.new.symbol (I.text ahead.new.after) }
    {
        let mut state = SegmenterStateMachine::START_STATE;
        let mut symbol = ahead.symbol;
        let mut place = start;
        let mut after = start + 1;
        let mut last: Option<Boundary> = None;
        let mut stood = rest.place();
        'scan: loop {
            let next = self.reader.read(state, symbol);
            if next == SegmenterStateMachine::TRASH_STATE {
                let Some(pick) = last else { unreachable!() };
                ahead.symbol = symbol;
                return Scanned { pick, stood, place };
            }
            let entry = self.machine.entry(next);
            if let Some(_) = name_of::<NAMES>(entry) {
                let here = naming(entry, next, after);
                let (pick, stood) = self.scan_kept(&ahead.after, here, last, stood);
                let place = after;
                (ahead.symbol, _) = next_symbol(&self.machine, &mut ahead.after, place);
                return Scanned { pick, stood, place };
            }
            if let Acceptance::Accept(status) = entry.0 {
                last = Some(Boundary {
                    offset: after,
                    status,
                });
                stood = ahead.after.place();
            } else if let Some(pick) = last {
                if self.table.mark(plain(next, after), pick.offset) {
                    ahead.symbol = symbol;
                    return Scanned { pick, stood, place };
                }
            }
            state = next;
            place = after;
            (symbol, after) = next_symbol(&self.machine, &mut ahead.after, place);
        }
    }

    /// One scan: the loop is compiled for machines with lookaheads and without.
    #[inline(always)]
    fn scan_any<I: Cursor>(&mut self, rest: &I, ahead: &mut Ahead<I>, start: usize) -> Scanned
        ghost scan: { Scan }
        requires read { IsReadBy scan.source (parts_of self.old.machine) (R.states self.old.reader) (R.transitions self.old.reader) }
        requires ready { IsReady scan.source self.old.table (R.counted self.old.reader) scan.start (I.text rest.now) ahead.old.symbol (I.text ahead.old.after) }
        requires start { start ≡ scan.start }
        requires some { scan.start < length scan.source.subject.symbols }
        ensures read { IsReadBy scan.source (parts_of self.new.machine) (R.states self.new.reader) (R.transitions self.new.reader) }
        ensures ended { IsEnded scan self.new.table (R.counted self.new.reader) result ahead.new.symbol (I.text ahead.new.after) }
    {
        if self.machine.num_lookaheads() != 0 {
            return self.scan_plain::<I, true>(rest, ahead, start);
        }
        self.scan_plain::<I, false>(rest, ahead, start)
    }

    /// Goes on to the end of the next segment: where it is in the whole text, counted in items, and its status.
    #[inline(always)]
    pub(crate) fn next_segment<I: Cursor>(&mut self, left: &mut Left<I>) -> Boundary
        ghost source: { Source }
        requires read { IsReadBy source (parts_of self.old.machine) (R.states self.old.reader) (R.transitions self.old.reader) }
        requires ready { IsReady source self.old.table (R.counted self.old.reader) left.old.place (I.text left.old.rest) left.old.ahead.symbol (I.text left.old.ahead.after) }
        requires some { left.old.place < length source.subject.symbols }
        ensures read { IsReadBy source (parts_of self.new.machine) (R.states self.new.reader) (R.transitions self.new.reader) }
        ensures ready { IsReady source self.new.table (R.counted self.new.reader) left.new.place (I.text left.new.rest) left.new.ahead.symbol (I.text left.new.ahead.after) }
        ensures segment { (p : AnyBoundary) × (pick source.subject.machine (drop left.old.place source.subject.symbols) ≡ Some p) × (result ≡ shift left.old.place p) }
        ensures place { left.new.place ≡ result.offset }
        ensures text { left.new.text ≡ left.old.text }
    {
        let Scanned { pick, stood, place } = self.scan_any(&left.rest, &mut left.ahead, left.place);
        left.rest.seek(stood);
        left.place = pick.offset;
        if pick.offset != place {
            read_first(&self.machine, &left.rest, pick.offset, &mut left.ahead);
        }
        pick
    }
}

/// Goes on by an item.
#[inline(always)]
pub(crate) fn skip<I: Cursor>(rest: &mut I)
    ensures { I.text rest.new ≡ rest_after 1 (I.text rest.old) }
{
    match rest.next_item() {
        Some(_) => {}
        None => {}
    }
}

/// Reads the first symbol of what is left of a text.
#[inline(never)]
fn read_first<I: Cursor>(machine: &MachineParts<'_>, rest: &I, place: usize, ahead: &mut Ahead<I>)
    ghost source: { Source }
    requires symbols { source.subject.symbols ≡ symbols_of (parts_of machine.now) (code_points source.whole.items) }
    requires rest { I.text rest.now ≡ rest_after place source.whole }
    requires place { place ≤ length source.subject.symbols }
    requires room { suc (length source.subject.symbols) < 2 ^ 64 }
    ensures { IsKeptSymbol source place ahead.new.symbol (I.text ahead.new.after) }
{
    ahead.after = rest.fork();
    let (symbol, _) = next_symbol(machine, &mut ahead.after, place);
    ahead.symbol = symbol;
}
