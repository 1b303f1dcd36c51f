//! Data that a caller hands in: here both kinds cut a text into runs of spaces and runs of other characters.
ghost use Rattle.std.specs.Prelude.{◌≡◌, None, IfOk};
ghost use Rattle.icu_segmenter.specs.MachineFaults.{IsChecked};
ghost use Rattle.icu_segmenter.specs.Clusters.{owned_cluster_rules};
ghost use Rattle.icu_segmenter.specs.Rules.Rules.{ByMachine, ByTable};
ghost use Rattle.callers.specs.Spaces.{spaces_machine, spaces_table};

use icu_segmenter::GraphemeClusterSegmenter;
use icu_segmenter::memo::MemoError;
use icu_segmenter::provider::{
    Acceptance, BreakState, ClassTable, DataError, Lookahead, RuleBreakData, SegmenterStateMachine,
    State,
};
use std::alloc::{AllocError, Global};
use thiserror::Error;

/// Why there is no segmenter, or no memo.
#[derive(Debug, Drop, Error)]
pub enum Failure {
    /// The data are rejected.
    #[error("{0}")]
    Rejected(#[from] DataError),
    /// No memory is left for them.
    #[error("no memory")]
    NoMemory(#[from] AllocError),
    /// There is no memo.
    #[error("{0}")]
    NoMemo(#[from] MemoError),
}

/// What START, the state after other characters and that after spaces accept; none names a lookahead.
const STATES: [(Acceptance, Option<Lookahead>); 3] = [
    (Acceptance::Continue, None),
    (Acceptance::Accept(0), None),
    (Acceptance::Accept(1), None),
];

/// What state q leads to on symbol s is at `q + s * 3`, since there are 3 states; 255 means none.
pub const TRANSITIONS: [State; 9] = [
    255, 255, 255, // symbol 0, the end of the text
    1, 1, 255, // symbol 1, another character
    2, 255, 2, // symbol 2, the space
];

/// A state machine, which is checked where it is made.
pub fn runs_machine(alloc: Global) -> Result<SegmenterStateMachine, Failure>
    ensures machine { IfOk result (λ machine. machine ≡ spaces_machine) }
    ensures checked { IfOk result IsChecked }
{
    let symbols = ClassTable::try_from_ranges(Vec::from_slice(alloc, &[(0x20, 0x20, 2)])?, 1)?;
    let states = Vec::from_slice(alloc, &STATES)?;
    let transitions = Vec::from_slice(alloc, &TRANSITIONS)?;
    let map = Vec::new(alloc);
    // No lookaheads; values from 3 on would be pseudo symbols.
    let machine = SegmenterStateMachine::try_from_parts(symbols, states, transitions, 0, 3, map)?;
    Ok(machine)
}

/// A segmenter by a state machine.
pub fn runs_by_machine(alloc: Global) -> Result<GraphemeClusterSegmenter, Failure>
    ensures { IfOk result (λ segmenter. owned_cluster_rules segmenter ≡ ByMachine spaces_machine) }
{
    Ok(GraphemeClusterSegmenter::try_new_neo(runs_machine(alloc)?)?)
}

const KEEP: BreakState = BreakState::Keep;

const BREAK: BreakState = BreakState::Break;

/// What stands between class `left` and class `right` is at `left * 4 + right`, since there are 4 classes.
const ENTRIES: [BreakState; 16] = [
    KEEP, BREAK, BREAK, BREAK, // after another character, class 0
    BREAK, KEEP, BREAK, BREAK, // after a space, class 1
    BREAK, BREAK, BREAK, BREAK, // after the start of the text, class 2
    BREAK, BREAK, BREAK, BREAK, // after its end, class 3
];

/// A segmenter by a pair table.
pub fn runs_by_table(alloc: Global) -> Result<GraphemeClusterSegmenter, Failure>
    ensures { IfOk result (λ segmenter. owned_cluster_rules segmenter ≡ ByTable spaces_table None) }
{
    let classes = ClassTable::try_from_ranges(Vec::from_slice(alloc, &[(0x20, 0x20, 1)])?, 0)?;
    let entries = Vec::from_slice(alloc, &ENTRIES)?;
    let statuses = Vec::new(alloc);
    // 4 classes, of which 1 is the last that characters have, 2 the start and 3 the end; 127 would be complex ones.
    let table = RuleBreakData::try_from_parts(classes, entries, statuses, 4, 1, 2, 3, 127)?;
    Ok(GraphemeClusterSegmenter::try_new(table)?)
}
