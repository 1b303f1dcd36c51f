//! Machines with their tailorings, as engines read them. It isn't part of the library's surface.
ghost use Rattle.std.specs.Prelude.{◌≡◌, ◌↔◌, ℕ, ◌<◌, IsTrue, IfOk, IfErr, IfSome, Some, length};
ghost use Rattle.std.specs.Option.{ForSome, option_map};
ghost use Rattle.std.proofs.Props.{props};
ghost use Rattle.seg_data.specs.Faults.{IsFaultless, IsLowestFault};
ghost use Rattle.seg_machine.specs.MachineFaults.{HasTextSymbols, IsChecked, HasComplexBelow0100, HasTailoringFault};
ghost use Rattle.seg_machine.specs.Scan.{IsMark};
ghost use Rattle.seg_machine.specs.DenseRows.{IsRowData};
ghost use Rattle.seg_machine.specs.Machine.{IsTextSymbol, state_at, step, symbol_and_script, symbol_count, with_tailoring, without_transitions, ArePlainBelow, with_parts};

use crate::dense_rows::DenseRows;
use crate::machine_parts::{MachineParts, replacement_by};
use crate::provider::{
    Acceptance, Lookahead, SegmenterStateMachine, SegmenterStateMachineOverride, State, Symbol,
};
use seg_data::provider::{ComplexScript, DataError};
use std::alloc::{AllocError, Global};

/// A checked machine with its tailoring, if there is one.
pub struct TailoredMachine {
    machine: SegmenterStateMachine,
    tailoring: Option<SegmenterStateMachineOverride>,
    // What each state does by each symbol, where that was asked for.
    rows: Option<DenseRows>,
    ghost text_symbols: { HasTextSymbols (with_tailoring machine tailoring) },
    ghost rows_stand: { ForSome rows (IsRowData (with_tailoring machine tailoring)) } by { Prim.hlevel props },
}

// Written out, so that it is proved here and not in each function that drops one.
impl Drop for TailoredMachine {
    fn drop(self) {
        let TailoredMachine {
            machine: _,
            tailoring: _,
            rows: _,
        } = self;
    }
}

impl TailoredMachine {
    ghost use Rattle.seg_machine.specs.Tailored.{has_rows, machine_of, owned_machine};

    /// The machine as it is.
    pub fn without_tailoring(machine: SegmenterStateMachine) -> Self
        ensures { owned_machine result ≡ machine }
    {
        machine.facts();
        TailoredMachine {
            machine,
            tailoring: None,
            rows: None,
        }
    }

    /// The machine with its tailoring, if there is one. `SymbolOutOfRange` where they don't fit.
    pub fn try_new(
        machine: SegmenterStateMachine,
        tailoring: Option<SegmenterStateMachineOverride>,
    ) -> Result<Self, DataError>
        ensures accepted { IfOk result (λ t. (owned_machine t ≡ with_tailoring machine tailoring) × IsFaultless (HasTailoringFault machine tailoring)) }
        ensures rejected { IfErr result (IsLowestFault (HasTailoringFault machine tailoring)) }
    {
        TailoredMachineBorrowed::try_new(&machine, tailoring.as_ref())?.facts();
        Ok(TailoredMachine {
            machine,
            tailoring,
            rows: None,
        })
    }

    /// Makes its dense rows, by which many boundaries are found at a time. Fails only when out of memory: then it stays as it was.
    pub fn make_rows(&mut self, alloc: Global) -> Result<(), AllocError>
        ensures machine { owned_machine self.new ≡ owned_machine self.old }
        ensures made { IfOk result (λ _. IsTrue (has_rows self.new)) }
        ensures kept { IfErr result (λ _. self.new ≡ self.old) }
    {
        let rows = DenseRows::try_from_machine(alloc, &self.as_borrowed())?;
        self.rows = Some(rows);
        Ok(())
    }

    /// This machine, borrowed.
    pub fn as_borrowed(&self) -> TailoredMachineBorrowed<'_>
        ensures { machine_of result ≡ owned_machine self.now }
    {
        let (pseudo_symbol_map, replacing) = parts_of(&self.machine, self.tailoring.as_ref());
        let rows = self.rows.as_ref();
        TailoredMachineBorrowed::from_parts(&self.machine, pseudo_symbol_map, replacing, rows)
    }
}

/// A checked machine, tailored or not, that is borrowed. It is what engines read, step by step.
#[derive(Clone, Copy)]
pub struct TailoredMachineBorrowed<'data> {
    pseudo_symbol_map: &'data [(Symbol, ComplexScript)],
    replacing: Option<&'data SegmenterStateMachineOverride>,
    // Each value below it is its own symbol: it is the shift where nothing is replaced, and else 0.
    plain_below: u8,
    machine: &'data SegmenterStateMachine,
    rows: Option<&'data DenseRows>,
    ghost text_symbols: { HasTextSymbols (with_parts machine.now pseudo_symbol_map.now (option_map (λ t. t.now) replacing)) },
    ghost plain: { ArePlainBelow (with_parts machine.now pseudo_symbol_map.now (option_map (λ t. t.now) replacing)) plain_below },
    ghost rows_stand: { ForSome rows (λ rows. IsRowData (with_parts machine.now pseudo_symbol_map.now (option_map (λ t. t.now) replacing)) rows.now) } by { Prim.hlevel props },
}

impl<'data> TailoredMachineBorrowed<'data> {
    ghost use Rattle.seg_machine.specs.Tailored.{machine_of, parts_of};

    /// The machine as it is.
    pub fn without_tailoring(machine: &'data SegmenterStateMachine) -> Self
        ensures { machine_of result ≡ machine.now }
    {
        machine.facts();
        machine.has_no_replacements();
        TailoredMachineBorrowed::from_parts(machine, machine.pseudo_symbol_map(), None, None)
    }

    /// The machine with its tailoring, if there is one. `SymbolOutOfRange` where they don't fit.
    pub fn try_new(
        machine: &'data SegmenterStateMachine,
        tailoring: Option<&'data SegmenterStateMachineOverride>,
    ) -> Result<Self, DataError>
        ensures accepted { IfOk result (λ t. (machine_of t ≡ with_tailoring machine.now (option_map (λ t. t.now) tailoring.entry))
            × IsFaultless (HasTailoringFault machine.now (option_map (λ t. t.now) tailoring.entry))) }
        ensures rejected { IfErr result (IsLowestFault (HasTailoringFault machine.now (option_map (λ t. t.now) tailoring.entry))) }
    {
        let Some(tailoring) = tailoring else {
            return Ok(TailoredMachineBorrowed::without_tailoring(machine));
        };
        if machine.has_stray_symbol(tailoring) {
            return Err(DataError::SymbolOutOfRange);
        }
        Ok(TailoredMachineBorrowed::from_parts(
            machine,
            tailoring.pseudo_symbol_map(),
            tailoring.replacing(),
            None,
        ))
    }

    // The machine with these parts.
    fn from_parts(
        machine: &'data SegmenterStateMachine,
        pseudo_symbol_map: &'data [(Symbol, ComplexScript)],
        replacing: Option<&'data SegmenterStateMachineOverride>,
        rows: Option<&'data DenseRows>,
    ) -> Self
        requires symbols { HasTextSymbols (with_parts machine.now pseudo_symbol_map.now (option_map (λ t. t.now) replacing)) }
        requires rows { ForSome rows (λ rows. IsRowData (with_parts machine.now pseudo_symbol_map.now (option_map (λ t. t.now) replacing)) rows.now) }
        ensures { machine_of result ≡ with_parts machine.now pseudo_symbol_map.now (option_map (λ t. t.now) replacing.entry) }
    {
        let plain_below = match replacing {
            Some(_) => 0,
            None => machine.pseudo_symbol_shift(),
        };
        TailoredMachineBorrowed {
            machine,
            pseudo_symbol_map,
            replacing,
            plain_below,
            rows,
        }
    }

    /// The machine, parts of which the tailoring's take the place of.
    pub fn machine(&self) -> &'data SegmenterStateMachine
        ensures states { result.now.states ≡ (machine_of self.now).states }
        ensures transitions { result.now.transitions ≡ (machine_of self.now).transitions }
    {
        self.machine
    }

    /// Its dense rows, where its owner made them.
    #[inline(always)]
    pub fn rows(&self) -> Option<&'data DenseRows>
        ensures { IfSome result (λ rows. IsRowData (machine_of self.now) rows.now) }
    {
        self.rows
    }

    /// How many lookaheads there are.
    pub fn num_lookaheads(&self) -> usize
        ensures { result ≡ (machine_of self.now).num_lookaheads }
    {
        self.machine.num_lookaheads()
    }

    /// This machine without its transitions.
    #[inline(always)]
    pub fn parts(&self) -> MachineParts<'data>
        ensures { parts_of result ≡ without_transitions (machine_of self.now) }
    {
        MachineParts::new(
            self.machine,
            self.pseudo_symbol_map,
            self.replacing,
            self.plain_below,
        )
    }

    /// The symbol of a code point.
    #[inline(always)]
    pub fn symbol(&self, code_point: u32) -> Symbol
        ensures value { result ≡ (symbol_and_script (machine_of self.now) code_point).0 }
        ensures text { IsTextSymbol (machine_of self.now) result }
    {
        let value = self.machine.symbols().get32(code_point);
        if value < self.plain_below {
            return value;
        }
        self.parts().symbol_of_value(code_point, value)
    }

    /// The script of a code point.
    #[inline(always)]
    pub fn script(&self, code_point: u32) -> ComplexScript
        ensures { result ≡ (symbol_and_script (machine_of self.now) code_point).1 }
    {
        let value = self.machine.symbols().get32(code_point);
        if value < self.plain_below {
            return ComplexScript::None;
        }
        script_of(
            self.machine,
            self.pseudo_symbol_map,
            self.replacing,
            code_point,
        )
    }

    /// The state that a symbol leads to from a state, or `None` where it leads to none.
    pub fn next_state(&self, state: State, symbol: Symbol) -> Option<State>
        requires state { state < length (machine_of self.now).states }
        requires symbol { symbol < symbol_count (machine_of self.now) }
        ensures value { result ≡ step (machine_of self.now) state symbol }
        ensures state { IfSome result (λ next. next < length (machine_of self.now).states) }
    {
        self.machine.next_state(state, symbol)
    }

    /// What a state accepts, and the lookahead that it names.
    pub fn entry(&self, state: State) -> (Acceptance, Option<Lookahead>)
        requires { state < length (machine_of self.now).states }
        ensures { result ≡ state_at (machine_of self.now) state }
    {
        self.machine.states()[state as usize]
    }

    /// The mark of a state.
    #[inline(always)]
    pub fn mark(&self, state: State) -> u8
        requires { state < length (machine_of self.now).states }
        ensures { IsMark (state_at (machine_of self.now) state) result }
    {
        self.machine.mark(state)
    }

    /// Law: what holds of each machine.
    pub fn facts(&self)
        ensures { IsChecked (machine_of self.now) }
    {
        self.machine.facts();
    }
}

/// Whether a code point below U+0100 has a script, by the machine with its tailoring, if there is one.
pub fn has_complex_below_0100(
    machine: &SegmenterStateMachine,
    tailoring: Option<&SegmenterStateMachineOverride>,
) -> bool
    ensures { IsTrue result ↔ HasComplexBelow0100 (with_tailoring machine.now (option_map (λ t. t.now) tailoring.entry)) }
{
    let (pseudo_symbol_map, replacing) = parts_of(machine, tailoring);
    for code_point in 0..0x100u32 {
        if script_of(machine, pseudo_symbol_map, replacing, code_point) != ComplexScript::None {
            return true;
        }
    }
    false
}

// The map of pseudo symbols, and what replaces symbols, of the machine with its tailoring, if
// there is one.
fn parts_of<'data>(
    machine: &'data SegmenterStateMachine,
    tailoring: Option<&'data SegmenterStateMachineOverride>,
) -> (
    &'data [(Symbol, ComplexScript)],
    Option<&'data SegmenterStateMachineOverride>,
)
    ensures { with_parts machine.now result.0.now (option_map (λ t. t.now) result.1) ≡ with_tailoring machine.now (option_map (λ t. t.now) tailoring.entry) }
{
    match tailoring {
        Some(tailoring) => (tailoring.pseudo_symbol_map(), tailoring.replacing()),
        None => {
            machine.has_no_replacements();
            (machine.pseudo_symbol_map(), None)
        }
    }
}

// The script of a code point by the machine with these parts, which may lack the code point's entry.
fn script_of(
    machine: &SegmenterStateMachine,
    pseudo_symbol_map: &[(Symbol, ComplexScript)],
    replacing: Option<&SegmenterStateMachineOverride>,
    code_point: u32,
) -> ComplexScript
    ensures { result ≡ (symbol_and_script (with_parts machine.now pseudo_symbol_map.now (option_map (λ t. t.now) replacing.entry)) code_point).1 }
{
    let value = machine.symbols().get32(code_point);
    let shift = machine.pseudo_symbol_shift();
    if value < shift {
        return replacement_by(replacing, value).1;
    }
    match pseudo_symbol_map.get((value - shift) as usize) {
        Some(entry) => entry.1,
        None => ComplexScript::None,
    }
}
