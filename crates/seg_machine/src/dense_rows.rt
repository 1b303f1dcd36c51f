//! Dense rows of a machine's steps.
ghost use Rattle.std.specs.Prelude.{◌≡◌, ◌<◌, ◌≤◌, ◌*◌, IfOk, IsTrue, length};
ghost use Rattle.seg_machine.specs.Machine.{state_at, symbol_and_script, symbol_count};
ghost use Rattle.seg_machine.specs.Pick.{acceptance_status};
ghost use Rattle.seg_machine.specs.Tailored.{machine_of};
ghost use Rattle.seg_machine.specs.DenseRows.{AreRows, AreStatuses, AreSymbols, IsPlain, IsRowData, end_status, index_entry, marked, row_entry, status_of};

use crate::certain::Passes;
use crate::provider::{Acceptance, SegmenterStateMachine, State, Symbol};
use crate::tailored_machine::TailoredMachineBorrowed;
use seg_data::provider::ComplexScript;
use std::alloc::{AllocError, Global};
use std::marker::Model;

/// An entry that says nothing.
pub const SLOW: u16 = 0xFFFF;

/// How many entries a row has: one for each ASCII character, and one for each of the first 128 symbols.
pub const ROW_LEN: usize = 256;

// How many code points have their symbols once more.
const SYMBOL_COUNT: u32 = 0x10000;

// How many ASCII characters there are.
const ASCII_COUNT: u32 = 0x80;

/// What is added to the symbol of a code point that has a script, where both are kept in a byte.
pub const HAS_SCRIPT: u8 = 128;

/// For each state of a machine a row of what it does by each ASCII character, and by each symbol.
#[derive(Drop)]
pub struct DenseRows {
    entries: Vec<u16>,
    // The status that each state accepts with.
    statuses: Vec<u8>,
    // The symbols of the code points below U+10000, once more, and which of these have scripts: one read each.
    symbols: Vec<u8>,
    // Whether no ASCII character has a script.
    is_plain: bool,
    // Between which symbols no scan passes.
    passes: Passes,
}

impl Model for DenseRows {
    ghost use Rattle.seg_machine.specs.DenseRows.{RowData};

    ghost Value = { RowData };

    ghost view = { λ s. record { entries = s.entries.items; statuses = s.statuses.items; symbols = s.symbols.items; is_plain = s.is_plain; passes = s.passes } };
}

impl DenseRows {
    /// The rows of a machine. Fails only when out of memory.
    pub fn try_from_machine(
        alloc: Global,
        machine: &TailoredMachineBorrowed<'_>,
    ) -> Result<DenseRows, AllocError>
        ensures { IfOk result (IsRowData (machine_of machine.now)) }
    {
        let entries = entries_of(alloc, machine)?;
        let statuses = statuses_of(alloc, machine)?;
        let symbols = symbols_of(alloc, machine)?;
        let is_plain = is_ascii_plain(machine);
        let passes = Passes::try_from_machine(alloc, machine)?;
        Ok(DenseRows {
            entries,
            statuses,
            symbols,
            is_plain,
            passes,
        })
    }

    /// The entries, row by row.
    #[inline(always)]
    pub fn entries(&self) -> &[u16]
        ensures { result.now ≡ self.now.entries }
    {
        self.entries.as_slice()
    }

    /// The status that each state accepts with, and 0 for one that doesn't.
    #[inline(always)]
    pub fn statuses(&self) -> &[u8]
        ensures { result.now ≡ self.now.statuses }
    {
        self.statuses.as_slice()
    }

    /// The symbols of the first code points, with `HAS_SCRIPT` more for those that have scripts.
    #[inline(always)]
    pub fn symbols(&self) -> &[u8]
        ensures { result.now ≡ self.now.symbols }
    {
        self.symbols.as_slice()
    }

    /// Whether no ASCII character has a script.
    pub fn is_plain(&self) -> bool
        ensures { result ≡ self.now.is_plain }
    {
        self.is_plain
    }

    /// Between which symbols no scan passes.
    pub fn passes(&self) -> &Passes
        ensures { result.now ≡ self.now.passes }
    {
        &self.passes
    }
}

// The entries of all states.
fn entries_of(alloc: Global, machine: &TailoredMachineBorrowed<'_>) -> Result<Vec<u16>, AllocError>
    ensures { IfOk result (λ entries. AreRows (machine_of machine.now) entries.items) }
{
    machine.facts();
    let len = machine.machine().states().len() * ROW_LEN;
    let mut entries = Vec::new(alloc);
    for index in 0..len {
        entries.push(entry_at(machine, index))?;
    }
    Ok(entries)
}

// The statuses of all states.
fn statuses_of(alloc: Global, machine: &TailoredMachineBorrowed<'_>) -> Result<Vec<u8>, AllocError>
    ensures { IfOk result (λ statuses. AreStatuses (machine_of machine.now) statuses.items) }
{
    machine.facts();
    let mut statuses = Vec::new(alloc);
    for state in 0..machine.machine().states().len() {
        statuses.push(accepted_status(machine, state as State).unwrap_or(0))?;
    }
    Ok(statuses)
}

// The symbols of the code points below U+10000, marked where these have scripts. None of a machine with more symbols than rows have entries for.
fn symbols_of(alloc: Global, machine: &TailoredMachineBorrowed<'_>) -> Result<Vec<u8>, AllocError>
    ensures { IfOk result (λ symbols. AreSymbols (machine_of machine.now) symbols.items) }
{
    let mut symbols = Vec::new(alloc);
    if symbols_in(machine) > HAS_SCRIPT as usize {
        return Ok(symbols);
    }
    for code_point in 0..SYMBOL_COUNT {
        symbols.push(marked_symbol(machine, code_point))?;
    }
    Ok(symbols)
}

// The symbol of a code point, marked where it has a script.
fn marked_symbol(machine: &TailoredMachineBorrowed<'_>, code_point: u32) -> u8
    requires { symbol_count (machine_of machine.now) ≤ 128 }
    ensures { result ≡ marked (symbol_and_script (machine_of machine.now) code_point) }
{
    let symbol = machine.symbol(code_point);
    match machine.script(code_point) {
        ComplexScript::None => symbol,
        _ => symbol + HAS_SCRIPT,
    }
}

// Whether no ASCII character has a script.
fn is_ascii_plain(machine: &TailoredMachineBorrowed<'_>) -> bool
    ensures { IsTrue result → IsPlain (machine_of machine.now) }
{
    for code_point in 0..ASCII_COUNT {
        if machine.script(code_point) != ComplexScript::None {
            return false;
        }
    }
    true
}

// The entry of an index.
fn entry_at(machine: &TailoredMachineBorrowed<'_>, index: usize) -> u16
    requires { index < length (machine_of machine.now).states * 256 }
    ensures { result ≡ index_entry (machine_of machine.now) index }
{
    machine.facts();
    let state = (index / ROW_LEN) as State;
    let place = index % ROW_LEN;
    if place < 128 {
        let symbol = machine.symbol(place as u32);
        return entry_of(machine, state, symbol);
    }
    let symbol = place - 128;
    if symbol < symbols_in(machine) {
        entry_of(machine, state, symbol as Symbol)
    } else {
        SLOW
    }
}

// How many symbols there are.
#[tactic(auto, unfolding(crate::specs::Machine::symbol_count))]
pub(crate) fn symbols_in(machine: &TailoredMachineBorrowed<'_>) -> usize
    ensures { result ≡ symbol_count (machine_of machine.now) }
{
    machine.facts();
    let machine = machine.machine();
    machine.transitions().len() / machine.states().len()
}

// What a state does by a symbol.
#[tactic(auto, unfolding(crate::specs::DenseRows::row_entry))]
fn entry_of(machine: &TailoredMachineBorrowed<'_>, state: State, symbol: Symbol) -> u16
    requires state { state < length (machine_of machine.now).states }
    requires symbol { symbol < symbol_count (machine_of machine.now) }
    ensures { result ≡ row_entry (machine_of machine.now) state symbol }
{
    machine.facts();
    if let Some(next) = machine.next_state(state, symbol) {
        return match machine.entry(next).0 {
            Acceptance::Conditional(_, _) => SLOW,
            _ => next as u16 * 256,
        };
    }
    if accepted_status(machine, state).is_none() {
        return SLOW;
    }
    match machine.next_state(SegmenterStateMachine::START_STATE, symbol) {
        Some(next) => next as u16 * 256 + 1,
        None => SLOW,
    }
}

/// The status of a segment that ends in a state at the end of the text, if it may.
#[tactic(auto, unfolding(crate::specs::DenseRows::end_status))]
pub fn status_at_end(machine: &TailoredMachineBorrowed<'_>, state: State) -> Option<u8>
    requires { state < length (machine_of machine.now).states }
    ensures { result ≡ end_status (machine_of machine.now) state }
{
    machine.facts();
    match machine.next_state(state, SegmenterStateMachine::EOT_SYMBOL) {
        Some(_) => None,
        None => accepted_status(machine, state),
    }
}

// The status that a state accepts with, if it does.
fn accepted_status(machine: &TailoredMachineBorrowed<'_>, state: State) -> Option<u8>
    requires { state < length (machine_of machine.now).states }
    ensures { result ≡ acceptance_status (state_at (machine_of machine.now) state) }
{
    match machine.entry(state).0 {
        Acceptance::Accept(status) => Some(status),
        _ => None,
    }
}
