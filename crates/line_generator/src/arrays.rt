//! The states and the transitions of the machine, as arrays of the code.

use crate::rows::NAMES;
use seg_machine::provider::{Acceptance, Lookahead, SegmenterStateMachine, State};
use std::alloc::{AllocError, Global};

const HEAD: &str = "//! Lines: the states of the machine and where symbols lead from them.
// Written by line_generator from the rows of specs/LineRules.antt. Do not edit.

use crate::parts::{ACCEPT_0, ACCEPT_0_NAMED, ACCEPT_1, CONDITION_0, CONTINUE, Entry};
use seg_machine::provider::State;
";

// Lines have at most so many characters, and begin with an indent, of which the items have the last one.
const WIDTH: usize = 118;

const INDENT: &str = "   ";

/// The text of both arrays.
pub(crate) fn arrays(alloc: Global, machine: &SegmenterStateMachine) -> Result<String, AllocError> {
    let mut text = String::new(alloc);
    push_arrays(&mut text, machine)?;
    Ok(text)
}

fn push_arrays(text: &mut String, machine: &SegmenterStateMachine) -> Result<(), AllocError> {
    text.push_str(HEAD)?;
    let states = machine.states().len();
    write!(text, "{HEAD_OF_STATES}: [Entry; {states}] = [\n")?;
    push_states(text, machine.states())?;
    let count = machine.transitions().len();
    write!(text, "{HEAD_OF_TRANSITIONS}: [State; {count}] = [\n")?;
    push_transitions(text, machine)?;
    text.push_str("];\n")
}

const HEAD_OF_STATES: &str = "
/// What each state accepts; the first is the one that a segment begins in.
#[rattlefmt::skip]
pub(crate) static STATES";

const HEAD_OF_TRANSITIONS: &str = "];

/// A row for each symbol, in it what each state leads to; 255 is none.
#[rattlefmt::skip]
pub(crate) static TRANSITIONS";

/// Where a symbol leads from a state.
pub(crate) fn next(machine: &SegmenterStateMachine, state: usize, symbol: usize) -> State {
    let row = symbol.saturating_mul(machine.states().len());
    let next = machine.transitions().get(row.saturating_add(state));
    next.copied().unwrap_or(SegmenterStateMachine::TRASH_STATE)
}

fn push_states(
    text: &mut String,
    states: &[(Acceptance, Option<Lookahead>)],
) -> Result<(), AllocError> {
    text.push_str(INDENT)?;
    let mut width = INDENT.len();
    for entry in states {
        width = push_item(text, width, name_of(*entry))?;
    }
    text.push_str("\n")
}

// The constant for what a state accepts, whose status is 0 or 1.
fn name_of(entry: (Acceptance, Option<Lookahead>)) -> &'static str {
    match entry {
        (Acceptance::Continue, _) => "CONTINUE",
        (Acceptance::Accept(0), None) => "ACCEPT_0",
        (Acceptance::Accept(_), None) => "ACCEPT_1",
        (Acceptance::Accept(0), Some(_)) => "ACCEPT_0_NAMED",
        (Acceptance::Accept(_), Some(_)) => "ACCEPT_1_NAMED",
        (Acceptance::Conditional(_, 0), _) => "CONDITION_0",
        (Acceptance::Conditional(_, _), _) => "CONDITION_1",
    }
}

fn push_transitions(text: &mut String, machine: &SegmenterStateMachine) -> Result<(), AllocError> {
    for (symbol, name) in NAMES.iter().enumerate() {
        write!(text, "    // {symbol} {name}\n")?;
        push_row(text, machine, symbol)?;
    }
    Ok(())
}

// Writes where a symbol leads from each state.
fn push_row(
    text: &mut String,
    machine: &SegmenterStateMachine,
    symbol: usize,
) -> Result<(), AllocError> {
    text.push_str(INDENT)?;
    let mut width = INDENT.len();
    for state in 0..machine.states().len() {
        width = push_state(text, width, next(machine, state, symbol))?;
    }
    text.push_str("\n")
}

fn push_state(text: &mut String, width: usize, state: State) -> Result<usize, AllocError> {
    let item = format!(in *text.allocator(); "{state}")?;
    push_item(text, width, item.as_str())
}

// Writes an item after so many characters of a line, or on the next line. Returns how many characters the line has then.
fn push_item(text: &mut String, width: usize, item: &str) -> Result<usize, AllocError> {
    let more = item.len().saturating_add(2);
    let mut before = width;
    if before.saturating_add(more) > WIDTH {
        text.push_str("\n")?;
        text.push_str(INDENT)?;
        before = INDENT.len();
    }
    write!(text, " {item},")?;
    Ok(before.saturating_add(more))
}
