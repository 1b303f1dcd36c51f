//! The smallest machine of states that were found: those are made one that no text tells apart.

use crate::fault::Fault;
use crate::given::Given;
use crate::lists::at;
use crate::records::Records;
use crate::scans::{Kind, Scan};
use crate::search::{NOWHERE, Search};
use seg_machine::provider::{Acceptance, Lookahead, SegmenterStateMachine, State};
use std::alloc::AllocError;

// A machine has at most 255 states.
const MAX_STATES: usize = 255;

/// The states, the transitions and the number of lookaheads of a machine.
#[derive(Drop)]
pub(crate) struct Parts {
    pub(crate) states: Vec<(Acceptance, Option<Lookahead>)>,
    /// By each symbol from the end, 0, on, where it leads from each state.
    pub(crate) transitions: Vec<State>,
    pub(crate) lookaheads: usize,
}

/// The machine of the states that were found.
pub(crate) fn smallest(given: Given<'_>, search: &Search<'_>) -> Result<Parts, Fault> {
    let mut groups = Vec::new(given.alloc);
    let mut count = 0;
    for _ in 0..=MAX_STATES {
        let (finer, more) = refined(given, search, groups.as_slice())?;
        groups = finer;
        if more > MAX_STATES {
            return Err(Fault::TooManyStates);
        }
        if more == count {
            break;
        }
        count = more;
    }
    parts_of(given, search, groups.as_slice())
}

// A number of what a state accepts; the start has one of its own.
fn kind_of(scan: Scan) -> u32 {
    match scan.entry() {
        (Acceptance::Continue, _) => u32::from(scan.kind == Kind::Start),
        (Acceptance::Accept(status), None) => u32::from(status) + 0x100,
        (Acceptance::Accept(status), Some(_)) => u32::from(status) + 0x200,
        (Acceptance::Conditional(_, status), _) => u32::from(status) + 0x300,
    }
}

// Of each state the group of those that accept the same, and from which each symbol leads into one group; and how many these are.
fn refined(
    given: Given<'_>,
    search: &Search<'_>,
    groups: &[u16],
) -> Result<(Vec<u16>, usize), Fault> {
    let width = usize::from(given.symbols).saturating_add(2);
    let mut records = Records::new(given.alloc, width, NOWHERE)?;
    let mut record = Vec::new(given.alloc);
    let mut finer = Vec::new(given.alloc);
    for state in 0..NOWHERE {
        let Some(scan) = search.states.get(usize::from(state)) else {
            break;
        };
        record.clear();
        record.push(kind_of(*scan))?;
        follow(search.transitions(state), groups, &mut record)?;
        finer.push(records.number(record.as_slice(), None)?)?;
    }
    Ok((finer, records.len()))
}

// Adds the groups of states.
fn follow(states: &[u16], groups: &[u16], record: &mut Vec<u32>) -> Result<(), AllocError> {
    for state in states {
        record.push(u32::from(at(groups, usize::from(*state), NOWHERE)))?;
    }
    Ok(())
}

// The machine whose states are groups, by the first state of each.
fn parts_of(given: Given<'_>, search: &Search<'_>, groups: &[u16]) -> Result<Parts, Fault> {
    let mut parts = Parts {
        states: Vec::new(given.alloc),
        transitions: Vec::new(given.alloc),
        lookaheads: search.names.len().min(1),
    };
    let mut firsts = Vec::new(given.alloc);
    for state in 0..NOWHERE {
        let Some(scan) = search.states.get(usize::from(state)) else {
            break;
        };
        if usize::from(at(groups, usize::from(state), NOWHERE)) == parts.states.len() {
            parts.states.push(scan.entry())?;
            firsts.push(search.transitions(state))?;
        }
    }
    for symbol in 0..=given.symbols {
        lead(firsts.as_slice(), groups, symbol, &mut parts.transitions)?;
    }
    Ok(parts)
}

// Adds where a symbol leads from each group.
fn lead(
    firsts: &[&[u16]],
    groups: &[u16],
    symbol: u8,
    transitions: &mut Vec<State>,
) -> Result<(), AllocError> {
    for first in firsts {
        let next = at(first, usize::from(symbol), NOWHERE);
        let group = State::try_from(at(groups, usize::from(next), NOWHERE));
        transitions.push(group.unwrap_or(SegmenterStateMachine::TRASH_STATE))?;
    }
    Ok(())
}
