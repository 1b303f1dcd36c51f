//! Machines of clusters that read on far past a cluster's end.

use crate::failure::Failure;
use icu_segmenter::provider::{
    Acceptance, ClassTable, Lookahead, SegmenterStateMachine, State, Symbol,
};
use std::alloc::{AllocError, Global};

type Entry = (Acceptance, Option<Lookahead>);

const NONE: State = SegmenterStateMachine::TRASH_STATE;

// The symbol of `a`, that of `c`, and that of the others.
const SYMBOLS: [(u32, u32, Symbol); 2] = [(0x61, 0x61, 1), (0x63, 0x63, 2)];

const OTHER: Symbol = 3;

const STATES: [Entry; 5] = [
    (Acceptance::Continue, None),
    (Acceptance::Accept(0), None),
    (Acceptance::Continue, None),
    (Acceptance::Accept(0), None),
    (Acceptance::Accept(0), None),
];

/// A row for each symbol from 0 on, in it what each state leads to.
const TRANSITIONS: [State; 20] = [
    NONE, NONE, NONE, NONE, NONE, //
    1, 2, 2, NONE, NONE, //
    4, 3, 3, NONE, NONE, //
    4, NONE, NONE, NONE, NONE,
];

/// The machine of clusters that are one character, or some `a` and then `c`. The error is `Memory`.
pub fn small_machine(alloc: Global) -> Result<SegmenterStateMachine, Failure> {
    let states = Vec::from_slice(alloc, &STATES)?;
    let transitions = Vec::from_slice(alloc, &TRANSITIONS)?;
    let symbols = ClassTable::try_from_ranges(Vec::from_slice(alloc, &SYMBOLS)?, OTHER)?;
    let map = Vec::new(alloc);
    Ok(SegmenterStateMachine::try_from_parts(symbols, states, transitions, 0, 5, map)?)
}

// How many states the hostile machine has, as many as there can be.
const STATE_COUNT: u8 = 255;

// How many lookaheads it has, as many as there can be.
const LOOKAHEAD_COUNT: u8 = 8;

/// The machine of 255 states and 8 lookaheads whose clusters are one character: each scan goes to the end of the text, from state to
/// state, and names a lookahead on the way now and then. The error is `Memory`.
pub fn hostile_machine(alloc: Global) -> Result<SegmenterStateMachine, Failure> {
    let states = hostile_states(alloc)?;
    let transitions = hostile_transitions(alloc)?;
    let symbols = ClassTable::try_from_ranges(Vec::new(alloc), 1)?;
    let map = Vec::new(alloc);
    let lookaheads = LOOKAHEAD_COUNT as usize;
    Ok(SegmenterStateMachine::try_from_parts(symbols, states, transitions, lookaheads, 255, map)?)
}

fn hostile_states(alloc: Global) -> Result<Vec<Entry>, AllocError> {
    let mut states = Vec::new(alloc);
    for state in 0..STATE_COUNT {
        states.push(hostile_entry(state))?;
    }
    Ok(states)
}

// A row of no states, for the end of the text, and one from each state to the next, and from the last to the third.
fn hostile_transitions(alloc: Global) -> Result<Vec<State>, AllocError> {
    let mut transitions = vec![in alloc; NONE; STATE_COUNT as usize]?;
    for state in 1..STATE_COUNT {
        transitions.push(state)?;
    }
    transitions.push(2)?;
    Ok(transitions)
}

// The first state after the start accepts, and later every fourth names a lookahead.
fn hostile_entry(state: State) -> Entry {
    match state {
        1 => (Acceptance::Accept(0), None),
        _ if state > 1 && state % 4 == 0 => {
            (Acceptance::Continue, Some(state / 4 % LOOKAHEAD_COUNT))
        }
        _ => (Acceptance::Continue, None),
    }
}
