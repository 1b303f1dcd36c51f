//! State machines over the symbols of code points.
ghost use Rattle.std.specs.Prelude.{◌≡◌, ℕ, ◌<◌, ◌↔◌, IsTrue, IfOk, IfErr, IfSome, Some, [], length};
ghost use Rattle.seg_data.specs.declared.provider.DataError.TheVariants.{SymbolOutOfRange};
ghost use Rattle.seg_data.specs.Faults.{IsFaultless, IsLowestFault};
ghost use Rattle.seg_machine.specs.MachineFaults.{IsChecked, HasMachineFault};
ghost use Rattle.seg_machine.specs.Machine.{machine, state_at, step, symbol_count, with_tailoring};
ghost use Rattle.seg_machine.specs.Pick.{IsStallFree};
ghost use Rattle.seg_machine.specs.Scan.{IsMark};
ghost use Rattle.seg_machine.specs.Lemmas.SameMachines.{same_machine, same_machine-laws};

use crate::provider::checks::{check_parts, has_stray_symbol};
use crate::provider::marks::{Marks, marks_of};
use crate::provider::transitions::next_of;
use crate::provider::{Acceptance, Lookahead, SegmenterStateMachineOverride, State, Symbol};
use seg_data::provider::{ClassTable, ComplexScript, DataError};
use std::fmt::{self, Debug, Formatter};
use std::marker::Model;

/// A state machine that finds the segments of a text, over the symbols of its code points.
///
/// A code point's value in `symbols` is its symbol where it is below `pseudo_symbol_shift`, and
/// otherwise, less the shift, a place in `pseudo_symbol_map`, which has the symbol and the script.
/// The transition of state q on symbol s is at `q + s * states.len()`; 255 means none.
pub struct SegmenterStateMachine {
    symbols: ClassTable,
    states: Vec<(Acceptance, Option<Lookahead>)>,
    transitions: Vec<State>,
    num_lookaheads: usize,
    pseudo_symbol_shift: u8,
    pseudo_symbol_map: Vec<(Symbol, ComplexScript)>,
    // What the states do to a scan, once more: no part of the Model's value, nor of what `==` compares.
    marks: Marks,
}

// Written out, so that it is proved here and not in each function that drops one.
impl Drop for SegmenterStateMachine {
    fn drop(self) {
        let SegmenterStateMachine {
            symbols: _,
            states: _,
            transitions: _,
            num_lookaheads: _,
            pseudo_symbol_shift: _,
            pseudo_symbol_map: _,
            marks: _,
        } = self;
    }
}

impl Model for SegmenterStateMachine {
    ghost use Rattle.seg_machine.specs.Machine.{Machine, machine};

    ghost Value = { Machine };

    ghost use Rattle.seg_machine.specs.MachineFaults.{IsChecked};
    ghost use Rattle.seg_machine.specs.Scan.{AreMarks};

    ghost view = { λ m. machine m.symbols m.states.items m.transitions.items m.num_lookaheads m.pseudo_symbol_shift m.pseudo_symbol_map.items };

    ghost invariant = { λ m. IsChecked (machine m.symbols m.states.items m.transitions.items m.num_lookaheads m.pseudo_symbol_shift m.pseudo_symbol_map.items)
        × AreMarks m.states.items m.marks };
}

impl SegmenterStateMachine {
    /// The state that each scan begins in.
    pub const START_STATE: State = 0;

    /// What stands among the transitions for no state.
    pub const TRASH_STATE: State = 255;

    /// The symbol of the end of the text.
    pub const EOT_SYMBOL: Symbol = 0;

    /// The machine of these parts, or what is wrong with them: `StateCount` to `Stalls`, of
    /// several faults that with the lowest number.
    pub fn try_from_parts(
        symbols: ClassTable,
        states: Vec<(Acceptance, Option<Lookahead>)>,
        transitions: Vec<State>,
        num_lookaheads: usize,
        pseudo_symbol_shift: u8,
        pseudo_symbol_map: Vec<(Symbol, ComplexScript)>,
    ) -> Result<Self, DataError>
        ensures accepted { let parts = machine symbols states.items transitions.items num_lookaheads pseudo_symbol_shift pseudo_symbol_map.items in
            IfOk result (λ m. (m ≡ parts) × IsFaultless (HasMachineFault parts)) }
        ensures rejected { IfErr result (IsLowestFault (HasMachineFault (machine symbols states.items transitions.items num_lookaheads pseudo_symbol_shift pseudo_symbol_map.items))) }
        ensures stall_free { IfOk result IsStallFree }
        ensures checked { IfOk result IsChecked }
    {
        check_parts(
            &symbols,
            states.as_slice(),
            transitions.as_slice(),
            num_lookaheads,
            pseudo_symbol_shift,
            pseudo_symbol_map.as_slice(),
        )?;
        let marks = marks_of(states.as_slice());
        Ok(SegmenterStateMachine {
            symbols,
            states,
            transitions,
            num_lookaheads,
            pseudo_symbol_shift,
            pseudo_symbol_map,
            marks,
        })
    }

    /// The table of the code points' symbols and pseudo symbols.
    pub fn symbols(&self) -> &ClassTable
        ensures { result.now ≡ self.now.symbols }
    {
        &self.symbols
    }

    /// What each state accepts, and the lookahead that it names.
    pub fn states(&self) -> &[(Acceptance, Option<Lookahead>)]
        ensures { result.now ≡ self.now.states }
    {
        self.states.as_slice()
    }

    /// The transitions: that of state q on symbol s is at `q + s * states().len()`.
    pub fn transitions(&self) -> &[State]
        ensures { result.now ≡ self.now.transitions }
    {
        self.transitions.as_slice()
    }

    /// How many lookaheads there are.
    pub fn num_lookaheads(&self) -> usize
        ensures { result ≡ self.now.num_lookaheads }
    {
        self.num_lookaheads
    }

    /// The first value of `symbols()` that is a pseudo symbol.
    pub fn pseudo_symbol_shift(&self) -> u8
        ensures { result ≡ self.now.pseudo_symbol_shift }
    {
        self.pseudo_symbol_shift
    }

    /// The symbol and the script of each pseudo symbol, from the shift on.
    pub fn pseudo_symbol_map(&self) -> &[(Symbol, ComplexScript)]
        ensures { result.now ≡ self.now.pseudo_symbol_map }
    {
        self.pseudo_symbol_map.as_slice()
    }
}

// What is read of a machine whatever its map is.
impl SegmenterStateMachine {
    /// The state that a symbol leads to from a state, or `None` where it leads to none.
    pub(crate) fn next_state(&self, state: State, symbol: Symbol) -> Option<State>
        requires state { state < length self.now.states }
        requires symbol { symbol < symbol_count self.now }
        ensures value { result ≡ step self.now state symbol }
        ensures state { IfSome result (λ next. next < length self.now.states) }
    {
        self.facts();
        next_of(self.states(), self.transitions(), state, symbol as usize)
    }

    /// The mark of a state.
    #[inline(always)]
    pub(crate) fn mark(&self, state: State) -> u8
        requires { state < length self.now.states }
        ensures { IsMark (state_at self.now state) result }
    {
        self.marks[state as usize]
    }

    // Whether the machine with this tailoring has a value that gives no symbol of a text, an entry
    // of the map gives none, or a replacement is stray.
    pub(crate) fn has_stray_symbol(&self, tailoring: &SegmenterStateMachineOverride) -> bool
        ensures { IsTrue result ↔ HasMachineFault (with_tailoring self.now (Some tailoring.now)) SymbolOutOfRange }
    {
        self.facts();
        has_stray_symbol(
            self.symbols(),
            self.transitions().len() / self.states().len(),
            self.pseudo_symbol_shift(),
            tailoring.pseudo_symbol_map(),
            tailoring.symbol_map(),
        )
    }

    /// Law: only a tailoring replaces symbols.
    pub(crate) fn has_no_replacements(&self)
        ensures { self.now.symbol_map ≡ [] }
    {
        let _symbols = &self.symbols;
    }

    /// Law: what holds of each machine.
    pub(crate) fn facts(&self)
        ensures { IsChecked self.now }
    {
        let _symbols = &self.symbols;
    }
}

impl Debug for SegmenterStateMachine {
    // The parts passed in: the marks only say of states the same again.
    fn fmt<W: fmt::Write>(&self, f: &mut Formatter<W>) -> fmt::Result {
        f.debug_struct("SegmenterStateMachine")
            .field("symbols", &self.symbols)
            .field("states", &self.states)
            .field("transitions", &self.transitions)
            .field("num_lookaheads", &self.num_lookaheads)
            .field("pseudo_symbol_shift", &self.pseudo_symbol_shift)
            .field("pseudo_symbol_map", &self.pseudo_symbol_map)
            .finish()
    }
}

impl PartialEq for SegmenterStateMachine {
    ghost eq = { same_machine };

    ghost laws = { same_machine-laws };

    // Whether the parts are the same.
    fn eq(&self, other: &SegmenterStateMachine) -> bool
        ensures value { result ≡ same_machine self.now other.now }
        ensures same { IsTrue result ↔ (self.now ≡ other.now) }
    {
        self.symbols == other.symbols
            && self.states == other.states
            && self.transitions == other.transitions
            && self.num_lookaheads == other.num_lookaheads
            && self.pseudo_symbol_shift == other.pseudo_symbol_shift
            && self.pseudo_symbol_map == other.pseudo_symbol_map
    }
}
