//! Machines, and the engines of machines and of pair tables.

use crate::data::{machine_of, table_of, tailoring_of};
use crate::numbers::hex_of;
use crate::row::Row;
use crate::samples::quoted;
use anyhow::{Result, bail};
use bench::found::push_word;
use icu_segmenter::indices::{Latin1Indices, Utf8CharIndices};
use icu_segmenter::provider::{
    Acceptance, DataError, Lookahead, RuleBreakData, SegmenterStateMachine,
    SegmenterStateMachineOverride, Symbol,
};
use seg_machine::laws::picks_are_first_or_last;
use seg_machine::tailored_machine::{
    TailoredMachine, TailoredMachineBorrowed, has_complex_below_0100,
};
use seg_pairs::pair_data::PairDataBorrowed;
use seg_pairs::rule_segmenter_v1;
use seg_rows::rule_segmenter_v2::RuleBreakIterator;
use std::alloc::{AllocError, Global};

/// Says that a machine is accepted; the error is its fault.
pub fn machine(alloc: Global, row: Row<'_>) -> Result<String> {
    let _machine = machine_of(alloc, row)?;
    Ok("accepted".to_owned(alloc)?)
}

/// How many parts of each kind a machine has, and what its start accepts.
pub fn machine_parts(alloc: Global, row: Row<'_>) -> Result<String> {
    let machine = machine_of(alloc, row)?;
    Ok(shown_machine(alloc, &machine)?)
}

fn shown_machine(alloc: Global, machine: &SegmenterStateMachine) -> Result<String, AllocError> {
    let mut shown = String::new(alloc);
    push_lengths(&mut shown, machine)?;
    push_start(&mut shown, machine)?;
    Ok(shown)
}

// Adds how many states, moves and lookaheads a machine has.
fn push_lengths(shown: &mut String, machine: &SegmenterStateMachine) -> Result<(), AllocError> {
    let (states, moves) = (machine.states().len(), machine.transitions().len());
    let lookaheads = machine.num_lookaheads();
    let named = TailoredMachineBorrowed::without_tailoring(machine).num_lookaheads();
    write!(
        shown,
        "states {states}, moves {moves}, lookaheads {lookaheads} and borrowed {named}, "
    )
}

// Adds the pseudo symbols of a machine, and what its start accepts.
fn push_start(shown: &mut String, machine: &SegmenterStateMachine) -> Result<(), AllocError> {
    let (shift, map) = (
        machine.pseudo_symbol_shift(),
        machine.pseudo_symbol_map().len(),
    );
    let (acceptance, name) = start(TailoredMachineBorrowed::without_tailoring(machine));
    write!(
        shown,
        "shift {shift}, map {map}, start {acceptance:?} {name:?}"
    )
}

// What the start of a machine accepts, and the lookahead that it names.
fn start(machine: TailoredMachineBorrowed<'_>) -> (Acceptance, Option<Lookahead>) {
    machine.facts();
    picks_are_first_or_last(machine);
    machine.entry(SegmenterStateMachine::START_STATE)
}

/// The value and the symbol of a code point, and the state that it leads to from the start.
pub fn step(alloc: Global, row: Row<'_>) -> Result<String> {
    let machine = machine_of(alloc, row)?;
    step_by(alloc, row, &machine)
}

fn step_by(alloc: Global, row: Row<'_>, machine: &SegmenterStateMachine) -> Result<String> {
    let code_point = row.code_point("at")?;
    let value = machine.symbols().get32(code_point);
    let borrowed = TailoredMachineBorrowed::without_tailoring(machine);
    let (symbol, next) = first_step(borrowed, code_point);
    Ok(format!(in alloc; "value {value}, symbol {symbol}, next {next:?}")?)
}

// The symbol of a code point, and the state that it leads to from the start.
fn first_step(machine: TailoredMachineBorrowed<'_>, code_point: u32) -> (Symbol, Option<u8>) {
    machine.facts();
    let symbol = machine.symbol(code_point);
    let next = machine.next_state(SegmenterStateMachine::START_STATE, symbol);
    (symbol, next)
}

/// The boundaries of a text in UTF-8 by the engine of machines, each with its status.
pub fn boundaries(alloc: Global, row: Row<'_>) -> Result<String> {
    let machine = machine_of(alloc, row)?;
    boundaries_by(alloc, row, &machine)
}

fn boundaries_by(alloc: Global, row: Row<'_>, machine: &SegmenterStateMachine) -> Result<String> {
    let text = quoted(alloc, row)?;
    let borrowed = TailoredMachineBorrowed::without_tailoring(machine);
    let text = Utf8CharIndices::new(text.as_bytes());
    Ok(shown_boundaries(alloc, RuleBreakIterator::new(borrowed, text))?)
}

fn shown_boundaries(
    alloc: Global,
    mut boundaries: RuleBreakIterator<'_, Utf8CharIndices<'_>>,
) -> Result<String, AllocError> {
    let mut out = String::new(alloc);
    push_boundaries(alloc, &mut out, &mut boundaries)?;
    Ok(out)
}

fn push_boundaries(
    alloc: Global,
    out: &mut String,
    boundaries: &mut RuleBreakIterator<'_, Utf8CharIndices<'_>>,
) -> Result<(), AllocError> {
    for _ in 0..u64::MAX {
        let Some(place) = boundaries.next() else {
            break;
        };
        push_boundary(alloc, out, place, boundaries.status())?;
    }
    Ok(())
}

// Adds a boundary with its status.
fn push_boundary(
    alloc: Global,
    out: &mut String,
    place: usize,
    status: u8,
) -> Result<(), AllocError> {
    let word = format!(in alloc; "{place}:{status}")?;
    push_word(out, word.as_str())
}

/// The boundaries of a text in Latin-1 by the engine of pair tables, each with its status.
pub fn statuses(alloc: Global, row: Row<'_>) -> Result<String> {
    let table = table_of(alloc, row)?;
    statuses_by(alloc, row, &table)
}

fn statuses_by(alloc: Global, row: Row<'_>, table: &RuleBreakData) -> Result<String> {
    let text = quoted(alloc, row)?;
    let text = Latin1Indices::new(text.as_bytes());
    let pairs = PairDataBorrowed::new(table);
    Ok(shown_statuses(
        alloc,
        rule_segmenter_v1::RuleBreakIterator::new(pairs, text),
    )?)
}

fn shown_statuses(
    alloc: Global,
    mut boundaries: rule_segmenter_v1::RuleBreakIterator<'_, Latin1Indices<'_>>,
) -> Result<String, AllocError> {
    let mut out = String::new(alloc);
    push_statuses(alloc, &mut out, &mut boundaries)?;
    Ok(out)
}

fn push_statuses(
    alloc: Global,
    out: &mut String,
    boundaries: &mut rule_segmenter_v1::RuleBreakIterator<'_, Latin1Indices<'_>>,
) -> Result<(), AllocError> {
    for _ in 0..u64::MAX {
        let Some(place) = boundaries.next() else {
            break;
        };
        push_boundary(alloc, out, place, boundaries.rule_status())?;
    }
    Ok(())
}

/// The symbol of the code point that a row names, by a machine with its tailoring; or else how long the tailoring's maps are and
/// whether a code point below U+0100 has a script.
pub fn tailored(alloc: Global, row: Row<'_>) -> Result<String> {
    match row.part("at") {
        Some(digits) => symbol(alloc, row, hex_of(digits)?),
        None => scripts(alloc, row),
    }
}

// How long the tailoring's maps are, and whether a code point below U+0100 has a script.
fn scripts(alloc: Global, row: Row<'_>) -> Result<String> {
    let machine = machine_of(alloc, row)?;
    let tailoring = tailoring_of(alloc, row)?;
    Ok(shown_scripts(alloc, &machine, tailoring.as_ref())?)
}

fn shown_scripts(
    alloc: Global,
    machine: &SegmenterStateMachine,
    tailoring: Option<&SegmenterStateMachineOverride>,
) -> Result<String, AllocError> {
    let (map, replaced) = match tailoring {
        Some(tailoring) => (
            tailoring.pseudo_symbol_map().len(),
            tailoring.symbol_map().len(),
        ),
        None => (0, 0),
    };
    let word = if has_complex_below_0100(machine, tailoring) {
        "a script"
    } else {
        "no script"
    };
    format!(in alloc; "map {map}, replaced {replaced}, {word}")
}

// The symbol of a code point by a machine with its tailoring, borrowed and owned.
fn symbol(alloc: Global, row: Row<'_>, code_point: u32) -> Result<String> {
    let machine = machine_of(alloc, row)?;
    let tailoring = tailoring_of(alloc, row)?;
    let symbol = borrowed_symbol(&machine, tailoring.as_ref(), code_point)?;
    if owned_symbol(machine, tailoring, code_point)? != symbol {
        bail!("another symbol where it is owned");
    }
    Ok(format!(in alloc; "symbol {symbol}")?)
}

fn borrowed_symbol(
    machine: &SegmenterStateMachine,
    tailoring: Option<&SegmenterStateMachineOverride>,
    code_point: u32,
) -> Result<Symbol, DataError> {
    Ok(TailoredMachineBorrowed::try_new(machine, tailoring)?.symbol(code_point))
}

fn owned_symbol(
    machine: SegmenterStateMachine,
    tailoring: Option<SegmenterStateMachineOverride>,
    code_point: u32,
) -> Result<Symbol, DataError> {
    let owned = TailoredMachine::try_new(machine, tailoring)?;
    Ok(owned.as_borrowed().symbol(code_point))
}
