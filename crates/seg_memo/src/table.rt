//! The table of configurations: a cell for each, of which those are held that a scan may reach.

ghost use Rattle.std.specs.Prelude.{◌≡◌, ◌≢◌, ◌+◌, ◌-◌, ◌*◌, ◌<◌, ◌≤◌, ◌^◌, ℕ, [], true, false, length, slice_index_or, vec_capacity};
ghost use Rattle.seg_memo.specs.declared.configuration.Configuration.{Configuration as AnyConfiguration};
ghost use Rattle.seg_memo.specs.declared.configuration.Cell.TheVariants.{Unknown, KnownNothing};
ghost use Rattle.seg_memo.specs.Configurations.{start_at};
ghost use Rattle.seg_memo.specs.Grids.{HasCell, IsLeft, IsSet, cell, number};

use crate::configuration::{Cell, Configuration};
use seg_machine::provider::SegmenterStateMachine;

/// So many cells at least are let go at once.
const LET_GO: usize = 4096;

/// So many cells are made at once, where there is room.
const AHEAD: usize = 64;

/// A map from configurations to cells: for so many states and so many sets of lookaheads at each place. Held are the cells from
/// the first on, as far as some were made; those after them are unknown, and no scan comes back to those before.
#[derive(Drop)]
pub(crate) struct Table {
    states: usize,
    sets: usize,
    first: usize,
    cells: Vec<Cell>,
}

impl Table {
    /// A table whose cells are all unknown, and that has room for some.
    #[inline(always)]
    pub(crate) fn new(states: usize, sets: usize, cells: Vec<Cell>) -> Self
        requires { cells.items ≡ [] }
        ensures unknown { (c : AnyConfiguration) → cell result c ≡ Unknown }
        ensures has { (c : AnyConfiguration) → c.state < states → c.kept < sets → number states sets c < vec_capacity cells
            → number states sets c < 2 ^ 64 → HasCell result c }
    {
        Table {
            states,
            sets,
            first: 0,
            cells,
        }
    }

    /// Where the cell of a configuration is, counted from the first that is held.
    #[inline(always)]
    fn index(&self, here: Configuration) -> usize
        requires { HasCell self.now here }
        ensures number { self.now.first + result ≡ number self.now.states self.now.sets here }
        ensures room { result < vec_capacity self.now.cells }
        ensures fits { self.now.first + result < 2 ^ 64 }
    {
        ((here.place * self.sets + here.kept as usize) * self.states + here.state as usize)
            - self.first
    }

    /// The cell of a configuration.
    #[inline(always)]
    pub(crate) fn cell(&self, here: Configuration) -> Cell
        requires { HasCell self.now here }
        ensures { result ≡ cell self.now here }
    {
        let index = self.index(here);
        if index < self.cells.len() {
            self.cells[index]
        } else {
            Cell::Unknown
        }
    }

    /// Holds the cell at an index, for which there is room.
    #[inline(always)]
    fn reach(&mut self, index: usize)
        requires { index < vec_capacity self.old.cells }
        ensures states { self.new.states ≡ self.old.states }
        ensures sets { self.new.sets ≡ self.old.sets }
        ensures first { self.new.first ≡ self.old.first }
        ensures capacity { vec_capacity self.old.cells ≤ vec_capacity self.new.cells }
        ensures length { index < length self.new.cells.items }
        ensures held { (i : ℕ) → slice_index_or self.new.cells.items i Unknown ≡ slice_index_or self.old.cells.items i Unknown }
    {
        if index >= self.cells.len() {
            self.extend(index);
        }
    }

    /// Makes cells as far as an index and some after it, for which there is room.
    #[inline(never)]
    fn extend(&mut self, index: usize)
        requires room { index < vec_capacity self.old.cells }
        requires past { length self.old.cells.items ≤ index }
        ensures states { self.new.states ≡ self.old.states }
        ensures sets { self.new.sets ≡ self.old.sets }
        ensures first { self.new.first ≡ self.old.first }
        ensures capacity { vec_capacity self.old.cells ≤ vec_capacity self.new.cells }
        ensures length { index < length self.new.cells.items }
        ensures held { (i : ℕ) → slice_index_or self.new.cells.items i Unknown ≡ slice_index_or self.old.cells.items i Unknown }
    {
        let room = self.cells.capacity();
        let len = if AHEAD < room - index {
            index + AHEAD
        } else {
            room
        };
        let Ok(()) = self.cells.resize(len, Cell::Unknown) else {
            unreachable!()
        };
    }

    /// Writes into the cell of a configuration.
    #[inline(always)]
    pub(crate) fn write(&mut self, here: Configuration, cell: Cell)
        requires { HasCell self.old here }
        ensures { IsSet self.old self.new 0 here cell }
    {
        let index = self.index(here);
        self.reach(index);
        self.cells[index] = cell;
    }

    /// Holds the cell of a configuration, and lets go those before a place, where that is due.
    #[inline(never)]
    fn make_room(&mut self, here: Configuration, from: usize)
        requires here { HasCell self.old here }
        requires from { HasCell self.old (start_at from) × (from ≤ here.place) }
        ensures left { IsLeft self.old self.new from }
        ensures held { number self.new.states self.new.sets here < self.new.first + length self.new.cells.items }
    {
        self.leave(from);
        let index = self.index(here);
        self.reach(index);
    }

    /// Holds the cell of a configuration; only those from a place on are needed.
    #[inline(always)]
    fn hold(&mut self, here: Configuration, from: usize)
        requires here { HasCell self.old here }
        requires from { HasCell self.old (start_at from) × (from ≤ here.place) }
        ensures left { IsLeft self.old self.new from }
        ensures held { number self.new.states self.new.sets here < self.new.first + length self.new.cells.items }
    {
        if self.index(here) >= self.cells.len() {
            self.make_room(here, from);
        }
    }

    /// Whether a configuration after a place was looked up; if not, its cell holds from now on that its outcome is nothing.
    #[inline(always)]
    pub(crate) fn mark(&mut self, here: Configuration, from: usize) -> bool
        requires here { HasCell self.old here }
        requires from { HasCell self.old (start_at from) × (from ≤ here.place) }
        ensures new { result ≡ false → (cell self.old here ≡ Unknown) × IsSet self.old self.new from here KnownNothing }
        ensures known { result ≡ true → (cell self.old here ≢ Unknown) × IsLeft self.old self.new from }
    {
        self.hold(here, from);
        let index = self.index(here);
        if let Cell::Unknown = self.cells[index] {
            self.cells[index] = Cell::KnownNothing;
            return false;
        }
        true
    }

    /// Lets go the cells before a place, where there are many of them, and no fewer than others.
    #[inline(always)]
    pub(crate) fn leave(&mut self, start: usize)
        requires { HasCell self.old (start_at start) }
        ensures { IsLeft self.old self.new start }
    {
        let before = self.index(Configuration {
            state: SegmenterStateMachine::START_STATE,
            place: start,
            kept: 0,
        });
        let len = self.cells.len();
        if before >= len {
            self.cells.truncate(0);
            self.first += before;
            return;
        }
        if before < LET_GO {
            return;
        }
        let left = len - before;
        if before < left {
            return;
        }
        self.cells.copy_within(before..len, 0);
        self.cells.truncate(left);
        self.first += before;
    }
}
