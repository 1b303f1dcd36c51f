//! The boundaries of a text by a state machine, where no configuration is looked up twice.

ghost use Rattle.std.specs.Prelude.{◌≡◌, ◌<◌, ◌≤◌, ◌+◌, ◌*◌, ◌^◌, ⊤, ℕ, false, Some, IfOk, IfErr, SomeIff, length};
ghost use Rattle.std.specs.Iterator.{YieldsFirst, MakesProgress, item_count};
ghost use Rattle.seg_text.specs.Boundaries.{GivesNext, boundaries_in, remainder};
ghost use Rattle.seg_text.specs.Items.{code_points, rest_after};
ghost use Rattle.seg_machine.specs.MachineFaults.{IsChecked};
ghost use Rattle.seg_machine.specs.Pick.{machine_boundaries, machine_stretch};
ghost use Rattle.seg_machine.specs.Tailored.{machine_of};
ghost use Rattle.seg_memo.specs.Configurations.{AreLookedUp, configurations, reading};
ghost use Rattle.seg_memo.specs.Memos.{IsMemoRefusal, IsNewMemo, memo_places, subject_of};

use crate::reader::{CountedTransitions, ReadTransitions};
use crate::search::{Ahead, Left, Scanner, next_symbol, skip};
use crate::table::Table;
use seg_machine::tailored_machine::TailoredMachineBorrowed;
use seg_text::cursor::Cursor;
use seg_text::reach::Reach;
use std::alloc::Global;
use std::fmt;
use std::marker::Model;
use thiserror::Error;

/// Why there is no memo. Each has a number, and of several the lowest is answered, but `Memory` last.
#[derive(Clone, Copy, Debug, PartialEq, Eq, Error)]
pub enum MemoError {
    /// 1: the table's growth was refused.
    #[error("1 Memory: out of memory")]
    Memory,
    /// 2: a pair table finds the boundaries.
    #[error("2 NotNeo: no machine finds the boundaries")]
    NotNeo,
    /// 3: some script has a dictionary.
    #[error("3 HasDictionary: some script has a dictionary")]
    HasDictionary,
    /// 4: the text has more configurations than the greatest `usize`.
    #[error("4 TooLarge: the text has more configurations than can be counted")]
    TooLarge,
}

/// The boundaries of a text by a state machine: its start, and then the end of each segment. Each configuration of its scans
/// is looked up once.
///
/// It has no `Clone`: a copy of its table would take memory without an allocator that is passed in, and both would count what they
/// read before.
#[derive(Drop)]
pub struct MemoBreakIterator<'data, I: Cursor, R: ReadTransitions> {
    scanner: Scanner<'data, R>,
    // What is left after the boundary that was given last.
    left: Left<I>,
    started: bool,
    status: u8,
}

impl<'data, I: Cursor, R: ReadTransitions> fmt::Debug for MemoBreakIterator<'data, I, R> {
    fn fmt<W: fmt::Write>(&self, f: &mut fmt::Formatter<W>) -> fmt::Result {
        f.write_str("MemoBreakIterator { .. }")
    }
}

impl<'data, I: Cursor, R: ReadTransitions> Model for MemoBreakIterator<'data, I, R> {
    ghost use Rattle.std.specs.Prelude.{◌≡◌, false};
    ghost use Rattle.seg_text.specs.Items.{code_points};
    ghost use Rattle.seg_machine.specs.Machine.{symbols_of};
    ghost use Rattle.seg_machine.specs.Tailored.{parts_of};
    ghost use Rattle.seg_memo.specs.Configurations.{reading, subject};
    ghost use Rattle.seg_memo.specs.Grids.{IsReadBy, IsReady, Source};
    ghost use Rattle.seg_memo.specs.Memos.{Memo, memo};

    ghost Value = { Memo };

    ghost view = { λ s. memo (reading (parts_of s.scanner.machine) (R.transitions s.scanner.reader)) (I.text s.left.text) s.left.place s.started s.status (R.counted s.scanner.reader) };

    ghost invariant = { λ s.
        let m = reading (parts_of s.scanner.machine) (R.transitions s.scanner.reader) in
        let source : Source = record { subject = subject m (symbols_of m (code_points (I.text s.left.text).items)); whole = I.text s.left.text } in
        (s.started ≡ false → (s.status ≡ 0) × (s.left.place ≡ 0))
        × IsReadBy source (parts_of s.scanner.machine) (R.states s.scanner.reader) (R.transitions s.scanner.reader)
        × IsReady source s.scanner.table (R.counted s.scanner.reader) s.left.place (I.text s.left.rest) s.left.ahead.symbol (I.text s.left.ahead.after) };
}

impl<'data, I: Cursor, R: ReadTransitions> MemoBreakIterator<'data, I, R> {
    /// The status of the boundary that was given last: 0 for the first, before it and after the end.
    pub fn status(&self) -> u8
        ensures { result ≡ self.now.coming.status }
    {
        self.status
    }

    /// How many transitions were looked up: as many as there are different configurations that the scans of the segments
    /// given so far look up. What is still to come begins where those end.
    pub fn lookups(&self) -> usize
        ensures count { result ≡ self.now.lookups }
        ensures given { self.now.coming ≡ remainder self.now.started (machine_stretch self.now.machine) (rest_after self.now.given self.now.text) self.now.coming.status }
        ensures unread { self.now.started ≡ false → self.now.given ≡ 0 }
        ensures different { AreLookedUp (subject_of self.now) self.now.given result }
        ensures bound { result ≤ configurations self.now.machine (length self.now.text.items) }
    {
        self.scanner.reader.count()
    }
}

impl<'data, I: Cursor, R: ReadTransitions> MemoBreakIterator<'data, I, R> {
    /// The boundaries of the text by a reader's transitions, all else being the machine's: no boundary was given yet, the reader counts from 0 and has as
    /// many states as the machine, and the machine with its transitions has no fault.
    pub fn with_reader<Other: ReadTransitions>(
        self,
        reader: Other,
    ) -> MemoBreakIterator<'data, I, Other>
        requires started { self.started ≡ false }
        requires count { Other.counted reader ≡ 0 }
        requires states { Other.states reader ≡ length self.machine.states }
        requires checked { IsChecked (reading self.machine (Other.transitions reader)) }
        ensures machine { result.machine ≡ reading self.entry.machine (Other.transitions reader) }
        ensures text { result.text ≡ self.entry.text }
        ensures started { (result.started ≡ false) × (result.given ≡ 0) × (result.lookups ≡ 0) × (result.coming.status ≡ 0) }
        ensures boundaries { result.coming.left ≡ boundaries_in (machine_boundaries (reading self.entry.machine (Other.transitions reader))) self.entry.text }
    {
        let MemoBreakIterator {
            scanner,
            left,
            started: _,
            status: _,
        } = self;
        let Scanner {
            machine,
            reader: _,
            table,
        } = scanner;
        let started = false;
        MemoBreakIterator {
            scanner: Scanner {
                machine,
                reader,
                table,
            },
            left,
            started,
            status: 0,
        }
    }
}

/// How many items are left of a text, unless there are more than the greatest `usize`.
fn count_items<I: Cursor>(text: &I) -> Option<usize>
    ensures { SomeIff result (length (I.text text.now).items < 2 ^ 64) (length (I.text text.now).items) }
{
    let mut rest = text.fork();
    let mut items = 0usize;
    'items: while !rest.is_at_end() {
        items = items.checked_add(1)?;
        skip(&mut rest);
    }
    Some(items)
}

/// How many configurations there are, unless there are more than the greatest `usize`.
fn count_configurations(states: usize, sets: usize, items: usize) -> Option<usize>
    requires { (0 < states) × (0 < sets) }
    ensures { SomeIff result (states * sets * (items + 1) < 2 ^ 64) (states * sets * (items + 1)) }
{
    states.checked_mul(sets)?.checked_mul(items.checked_add(1)?)
}

/// How many configurations a machine has over a text, unless there are more than the greatest `usize`: its items are counted first.
fn count_cells<I: Cursor>(machine: &TailoredMachineBorrowed<'_>, text: &I) -> Option<usize>
    ensures { let count = configurations (machine_of machine.now) (length (I.text text.now).items) in SomeIff result (count < 2 ^ 64) count }
{
    machine.facts();
    let states = machine.machine().states().len();
    let sets = 1 << machine.num_lookaheads();
    count_configurations(states, sets, count_items(text)?)
}

impl<'data, I: Cursor> MemoBreakIterator<'data, I, CountedTransitions<'data>> {
    /// The boundaries of what is left of `text`, which is read once more, to count its items n. One growth makes room for
    /// Q * 2^L * (n + 1) cells of 4 bytes, a cell for each configuration by the machine's Q states and L lookaheads; nothing takes
    /// memory after that. `TooLarge` where there are more configurations than the greatest `usize`: no memory is asked for then.
    /// `Memory` where that growth is refused.
    pub fn try_new(
        alloc: Global,
        machine: TailoredMachineBorrowed<'data>,
        text: I,
    ) -> Result<Self, MemoError>
        ensures made { IfOk result (IsNewMemo (Some (machine_of machine.entry)) (I.text text) (boundaries_in (machine_boundaries (machine_of machine.entry)) (I.text text))) }
        ensures rejected { IfErr result (IsMemoRefusal (Some (machine_of machine.entry)) ⊥ (I.text text)) }
    {
        machine.facts();
        let states = machine.machine().states().len();
        let sets = 1 << machine.num_lookaheads();
        let Some(count) = count_cells(&machine, &text) else {
            return Err(MemoError::TooLarge);
        };
        let Ok(cells) = Vec::with_capacity(alloc, count) else {
            return Err(MemoError::Memory);
        };
        let parts = machine.parts();
        let rest = text.fork();
        let mut after = text.fork();
        let (symbol, _) = next_symbol(&parts, &mut after, 0);
        Ok(MemoBreakIterator {
            scanner: Scanner {
                machine: parts,
                reader: CountedTransitions::new(machine.machine()),
                table: Table::new(states, sets, cells),
            },
            left: Left {
                text,
                rest,
                place: 0,
                ahead: Ahead { symbol, after },
            },
            started: false,
            status: 0,
        })
    }
}

impl<'data, I: Cursor, R: ReadTransitions> MemoBreakIterator<'data, I, R> {
    /// The next boundary: the start of the text, and then the end of the next segment.
    #[inline(always)]
    fn next_boundary(&mut self) -> Option<usize>
        ensures steps { YieldsFirst memo_places self.old result self.new × GivesNext self.old.coming result self.new.coming }
        ensures goes { MakesProgress (λ _. ⊤) (item_count memo_places) self.old result self.new }
        ensures same { (self.new.machine ≡ self.old.machine) × (self.new.text ≡ self.old.text) }
    {
        if !self.started {
            self.started = true;
            return Some(self.left.rest.place());
        }
        if self.left.rest.is_at_end() {
            self.status = 0;
            return None;
        }
        let found = self.scanner.next_segment(&mut self.left);
        self.status = found.status;
        Some(self.left.rest.place())
    }
}

impl<'data, I: Cursor, R: ReadTransitions> Iterator for MemoBreakIterator<'data, I, R> {
    type Item = usize;

    ghost next_gives = { YieldsFirst memo_places };

    ghost remaining = { item_count memo_places };

    #[inline(always)]
    fn next(&mut self) -> Option<usize>
        ensures steps { YieldsFirst memo_places self.old result self.new × GivesNext self.old.coming result self.new.coming
            × (self.new.machine ≡ self.old.machine) × (self.new.text ≡ self.old.text) }
        ensures goes { MakesProgress (λ _. ⊤) (item_count memo_places) self.old result self.new }
    {
        self.next_boundary()
    }

    fn size_hint(&self) -> (usize, Option<usize>) {
        let reach = Reach {
            started: self.started,
            place: self.left.rest.place(),
            end: self.left.rest.end(),
        };
        reach.size_hint()
    }
}
