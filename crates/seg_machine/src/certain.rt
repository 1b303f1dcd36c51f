//! Certain places: between which symbols no scan passes. What is asked again and again is found once, with dense rows.

ghost use Rattle.std.specs.Prelude.{◌≡◌, ◌↔◌, ◌<◌, ◌≤◌, ◌+◌, ◌*◌, ℕ, IsTrue, IfOk, None, length, slice_get};
ghost use Rattle.std.specs.Int.{bit_at};
ghost use Rattle.seg_machine.specs.Certain.{GoesOnBy, IsCertain, NeverBreaks, StopsBetween};
ghost use Rattle.seg_machine.specs.Machine.{step, symbol_count};
ghost use Rattle.seg_machine.specs.Passes.{AllGoOn, AllStop, ArePasses, AreStates, AreStatesBehind, AreStepMasks, HasMoreMasks, IsMaskBehind, IsStepMask, IsStopMask};
ghost use Rattle.seg_machine.specs.Tailored.{machine_of};

use crate::dense_rows::symbols_in;
use crate::provider::found::StateQueue;
use crate::provider::{Acceptance, SegmenterStateMachine, State, Symbol};
use crate::tailored_machine::TailoredMachineBorrowed;
use std::alloc::{AllocError, Global};
use std::marker::Model;

/// Whether no scan passes between the last two of three symbols, whatever it read before them: by the bits of a machine that has dense rows,
/// and else by its steps.
pub fn is_certain(
    machine: TailoredMachineBorrowed<'_>,
    before: Symbol,
    one: Symbol,
    other: Symbol,
) -> bool
    requires before { before < symbol_count (machine_of machine) }
    requires one { one < symbol_count (machine_of machine) }
    requires other { other < symbol_count (machine_of machine) }
    ensures { IsTrue result ↔ IsCertain (machine_of machine.entry) before one other }
{
    if let Some(rows) = machine.rows() {
        if let Some(mask) = rows.passes().mask(before, one) {
            return (mask >> other) & 1 == 0;
        }
    }
    is_certain_by_steps(machine, before, one, other)
}

/// Whether none passes there, by the machine's steps.
fn is_certain_by_steps(
    machine: TailoredMachineBorrowed<'_>,
    before: Symbol,
    one: Symbol,
    other: Symbol,
) -> bool
    requires before { before < symbol_count (machine_of machine) }
    requires one { one < symbol_count (machine_of machine) }
    requires other { other < symbol_count (machine_of machine) }
    ensures { IsTrue result ↔ IsCertain (machine_of machine.entry) before one other }
{
    machine.facts();
    for state in 0..machine.machine().states().len() {
        if let Some(next) = machine.next_state(state as State, before) {
            if !stops_between(machine, next, one, other) {
                return false;
            }
        }
    }
    let start = SegmenterStateMachine::START_STATE;
    stops_between(machine, start, one, other) || never_breaks(machine, before, one)
}

/// Whether a scan in the state that reads the one symbol doesn't go on by the other.
fn stops_between(
    machine: TailoredMachineBorrowed<'_>,
    state: State,
    one: Symbol,
    other: Symbol,
) -> bool
    requires state { state < length (machine_of machine).states }
    requires one { one < symbol_count (machine_of machine) }
    requires other { other < symbol_count (machine_of machine) }
    ensures { IsTrue result ↔ StopsBetween (machine_of machine.entry) state one other }
{
    match machine.next_state(state, one) {
        Some(next) => machine.next_state(next, other).is_none(),
        None => true,
    }
}

/// Whether no segment ends between two symbols, since each scan that read the one goes on by the other, to a state that accepts.
fn never_breaks(machine: TailoredMachineBorrowed<'_>, one: Symbol, other: Symbol) -> bool
    requires one { one < symbol_count (machine_of machine) }
    requires other { other < symbol_count (machine_of machine) }
    ensures { IsTrue result ↔ NeverBreaks (machine_of machine.entry) one other }
{
    machine.facts();
    for state in 0..machine.machine().states().len() {
        if let Some(next) = machine.next_state(state as State, one) {
            if !goes_on_by(machine, next, other) {
                return false;
            }
        }
    }
    true
}

/// Whether a scan in the state goes on by the symbol to a state that accepts, and names no lookahead before it.
fn goes_on_by(machine: TailoredMachineBorrowed<'_>, state: State, symbol: Symbol) -> bool
    requires state { state < length (machine_of machine).states }
    requires symbol { symbol < symbol_count (machine_of machine) }
    ensures { IsTrue result ↔ GoesOnBy (machine_of machine.entry) state symbol }
{
    if machine.entry(state).1.is_some() {
        return false;
    }
    match machine.next_state(state, symbol) {
        Some(next) => matches!(machine.entry(next).0, Acceptance::Accept(_)),
        None => false,
    }
}

/// How many bits a mask has, one for each symbol.
const MOST_SYMBOLS: usize = 128;

/// For each two symbols of a machine, to which others no scan passes from the second, whatever it read before them.
#[derive(Drop)]
pub struct Passes {
    // A bit for each symbol: 0 where none passes to it.
    masks: Vec<u128>,
    // How many symbols there are, and so how many masks have one first symbol.
    symbols: u8,
}

impl Model for Passes {
    ghost use Rattle.seg_machine.specs.Passes.{PassData};

    ghost Value = { PassData };

    ghost view = { λ s. record { masks = s.masks.items; symbols = s.symbols } };
}

impl Passes {
    /// Finds the masks of a machine; of one with more than 128 symbols it makes none. Fails only when out of memory.
    pub fn try_from_machine(
        alloc: Global,
        machine: &TailoredMachineBorrowed<'_>,
    ) -> Result<Passes, AllocError>
        ensures { IfOk result (ArePasses (machine_of machine.now)) }
    {
        let symbols = symbols_in(machine);
        let mut masks = Vec::new(alloc);
        if symbols > MOST_SYMBOLS {
            return Ok(Passes { masks, symbols: 0 });
        }
        let steps = step_masks(alloc, machine)?;
        for before in 0..symbols {
            push_masks(&mut masks, machine, steps.as_slice(), before as Symbol)?;
        }
        Ok(Passes {
            masks,
            symbols: symbols as u8,
        })
    }

    /// The mask of two symbols, if they have one.
    fn mask(&self, before: Symbol, one: Symbol) -> Option<u128>
        ensures { result ≡ slice_get self.now.masks (before * self.now.symbols + one) }
    {
        let place = before as usize * self.symbols as usize + one as usize;
        self.masks.get(place).copied()
    }
}

/// Puts the masks that have a first symbol behind others.
fn push_masks(
    masks: &mut Vec<u128>,
    machine: &TailoredMachineBorrowed<'_>,
    steps: &[u128],
    before: Symbol,
) -> Result<(), AllocError>
    requires before { before < symbol_count (machine_of machine.now) }
    requires few { symbol_count (machine_of machine.now) ≤ 128 }
    requires steps { AreStepMasks (machine_of machine.now) steps.now }
    ensures { IfOk result (λ _. HasMoreMasks (machine_of machine.now) before masks.old.items masks.new.items) }
{
    machine.facts();
    let states = states_behind(machine, before);
    for one in 0..symbols_in(machine) {
        masks.push(mask_behind(machine, steps, &states, one as Symbol))?;
    }
    Ok(())
}

/// To which symbols no scan passes from one that it reads in some states, or that it starts at.
fn mask_behind(
    machine: &TailoredMachineBorrowed<'_>,
    steps: &[u128],
    states: &StateQueue,
    one: Symbol,
) -> u128
    requires one { one < symbol_count (machine_of machine.now) }
    requires steps { AreStepMasks (machine_of machine.now) steps.now }
    requires states { AreStates (machine_of machine.now) states.now }
    ensures { IsMaskBehind (machine_of machine.now) states.now one result }
{
    machine.facts();
    let mask = stop_mask(machine, steps, states, one);
    if all_go_on(machine, states, one) {
        return mask;
    }
    let start = SegmenterStateMachine::START_STATE;
    mask | stop_mask_of(machine, steps, start, one)
}

/// To which symbols no scan passes from one that it reads in some states.
fn stop_mask(
    machine: &TailoredMachineBorrowed<'_>,
    steps: &[u128],
    states: &StateQueue,
    one: Symbol,
) -> u128
    requires one { one < symbol_count (machine_of machine.now) }
    requires steps { AreStepMasks (machine_of machine.now) steps.now }
    requires states { AreStates (machine_of machine.now) states.now }
    ensures { (other : ℕ) → other < symbol_count (machine_of machine.now) → (bit_at result other ≡ 0) ↔ AllStop (machine_of machine.now) states.now one other }
{
    let mut mask = 0;
    for place in 0..states.len() {
        mask |= stop_mask_of(machine, steps, states.state(place), one);
    }
    mask
}

/// To which symbols a scan in the state doesn't go on that reads the one symbol.
fn stop_mask_of(
    machine: &TailoredMachineBorrowed<'_>,
    steps: &[u128],
    state: State,
    one: Symbol,
) -> u128
    requires state { state < length (machine_of machine.now).states }
    requires one { one < symbol_count (machine_of machine.now) }
    requires steps { AreStepMasks (machine_of machine.now) steps.now }
    ensures { IsStopMask (machine_of machine.now) state one result }
{
    match machine.next_state(state, one) {
        Some(next) => steps[next as usize],
        None => 0,
    }
}

/// Whether scans in each of some states go on by the symbol to a state that accepts, and name no lookahead before it.
fn all_go_on(machine: &TailoredMachineBorrowed<'_>, states: &StateQueue, symbol: Symbol) -> bool
    requires symbol { symbol < symbol_count (machine_of machine.now) }
    requires states { AreStates (machine_of machine.now) states.now }
    ensures { IsTrue result ↔ AllGoOn (machine_of machine.now) states.now symbol }
{
    for place in 0..states.len() {
        if !goes_on_by(*machine, states.state(place), symbol) {
            return false;
        }
    }
    true
}

/// The states that a symbol leads to.
fn states_behind(machine: &TailoredMachineBorrowed<'_>, symbol: Symbol) -> StateQueue
    requires { symbol < symbol_count (machine_of machine.now) }
    ensures { AreStatesBehind (machine_of machine.now) symbol result }
{
    machine.facts();
    let mut states = StateQueue::new();
    for state in 0..machine.machine().states().len() {
        if let Some(next) = machine.next_state(state as State, symbol) {
            states.push(next);
        }
    }
    states
}

/// For each state, the symbols by which it has a step.
fn step_masks(alloc: Global, machine: &TailoredMachineBorrowed<'_>) -> Result<Vec<u128>, AllocError>
    requires { symbol_count (machine_of machine.now) ≤ 128 }
    ensures { IfOk result (λ masks. AreStepMasks (machine_of machine.now) masks.items) }
{
    machine.facts();
    let mut masks = Vec::new(alloc);
    for state in 0..machine.machine().states().len() {
        masks.push(step_mask(machine, state as State))?;
    }
    Ok(masks)
}

/// The symbols by which a state has a step.
fn step_mask(machine: &TailoredMachineBorrowed<'_>, state: State) -> u128
    requires state { state < length (machine_of machine.now).states }
    requires few { symbol_count (machine_of machine.now) ≤ 128 }
    ensures { IsStepMask (machine_of machine.now) state result }
{
    let mut mask = 0;
    for symbol in 0..symbols_in(machine) {
        if machine.next_state(state, symbol as Symbol).is_some() {
            mask |= 1 << symbol;
        }
    }
    mask
}
