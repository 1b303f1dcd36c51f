//! The machine as the proof reads it, and what may be true within its scans.

use crate::arrays::next;
use crate::page::Page;
use crate::rows::NAMES;
use seg_machine::provider::{Acceptance, Lookahead, SegmenterStateMachine, State};
use seg_rules::certificate::Configuration;
use std::alloc::{AllocError, Global};

/// Writes the machine.
pub(crate) fn push_plan(
    alloc: Global,
    page: &mut Page,
    machine: &SegmenterStateMachine,
) -> Result<(), AllocError> {
    push_accepts(page, machine)?;
    push_nexts(page, machine)?;
    page.push(PLAN)?;
    let waits = waits(alloc, machine)?;
    push_waits(page, waits.as_slice())
}

const PLAN: &str = "    []

unfoldable pub plan : Plan
plan = record { accepts = accepts; nexts = nexts }

";

fn push_accepts(page: &mut Page, machine: &SegmenterStateMachine) -> Result<(), AllocError> {
    page.define("accepts", "List (ℕ × ℕ × Bool)")?;
    for entry in machine.states() {
        push_accept(page, *entry)?;
    }
    page.push("    []\n\n")
}

fn push_accept(page: &mut Page, entry: (Acceptance, Option<Lookahead>)) -> Result<(), AllocError> {
    let (kind, status) = match entry.0 {
        Acceptance::Continue => (0, 0),
        Acceptance::Accept(status) => (1, status),
        Acceptance::Conditional(_, status) => (2, status),
    };
    let names = entry.1.is_some();
    write!(page.text, "    ({kind}, {status}, {names}) ∷\n")
}

fn push_nexts(page: &mut Page, machine: &SegmenterStateMachine) -> Result<(), AllocError> {
    page.define("nexts", "List (List ℕ)")?;
    for state in 0..machine.states().len() {
        push_nexts_of(page, machine, state)?;
    }
    Ok(())
}

fn push_nexts_of(
    page: &mut Page,
    machine: &SegmenterStateMachine,
    state: usize,
) -> Result<(), AllocError> {
    page.push("    (")?;
    for symbol in 0..NAMES.len() {
        let next = next(machine, state, symbol);
        write!(page.text, "{next} ∷ ")?;
    }
    page.push("[]) ∷\n")
}

fn push_waits(page: &mut Page, waits: &[bool]) -> Result<(), AllocError> {
    page.define("waits", "List Bool")?;
    for waits in waits {
        write!(page.text, "    {waits} ∷\n")?;
    }
    page.push("    []\n\n")
}

// Of each state whether a scan comes there before anything was accepted.
fn waits(alloc: Global, machine: &SegmenterStateMachine) -> Result<Vec<bool>, AllocError> {
    let mut waits = vec![in alloc; false; machine.states().len()]?;
    let mut todo = Vec::new(alloc);
    wait_from_start(machine, &mut waits, &mut todo)?;
    Ok(waits)
}

fn wait_from_start(
    machine: &SegmenterStateMachine,
    waits: &mut Vec<bool>,
    todo: &mut Vec<State>,
) -> Result<(), AllocError> {
    wait(machine, SegmenterStateMachine::START_STATE, waits, todo)?;
    for place in 0..machine.states().len() {
        let Some(state) = todo.get(place) else {
            break;
        };
        wait(machine, *state, waits, todo)?;
    }
    Ok(())
}

// Adds the states that go on from a state.
fn wait(
    machine: &SegmenterStateMachine,
    state: State,
    waits: &mut Vec<bool>,
    todo: &mut Vec<State>,
) -> Result<(), AllocError> {
    for symbol in 0..NAMES.len() {
        let to = next(machine, usize::from(state), symbol);
        let entry = machine.states().get(usize::from(to));
        if let Some((Acceptance::Continue, _)) = entry
            && let Some(waits @ false) = waits.get_mut(usize::from(to))
        {
            *waits = true;
            todo.push(to)?;
        }
    }
    Ok(())
}

/// Writes what may be true in each state.
pub(crate) fn push_relation(
    page: &mut Page,
    relation: &[&[Configuration]],
) -> Result<(), AllocError> {
    page.define("relation", "List (List Configuration)")?;
    for configurations in relation {
        page.push("    (")?;
        push_configurations(page, configurations)?;
        page.push("[]) ∷\n")?;
    }
    page.push("    []\n\n")
}

fn push_configurations(
    page: &mut Page,
    configurations: &[Configuration],
) -> Result<(), AllocError> {
    for configuration in configurations {
        let Configuration {
            before,
            doubt,
            older,
            newest,
            last,
            status,
            named,
        } = configuration;
        write!(
            page.text,
            "at {before} {doubt} {older} {newest} {last} {status} {named} ∷ "
        )?;
    }
    Ok(())
}
