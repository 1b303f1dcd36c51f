//! State machines from parts that stand in the code.

ghost use Rattle.std.specs.Prelude.{◌≡◌, IfOk};
ghost use Rattle.icu_segmenter.specs.Faults.{HasRangeFault, IsFaultless};
ghost use Rattle.icu_segmenter.specs.MachineFaults.{HasMachineFault};
ghost use Rattle.icu_segmenter.specs.Machine.{machine};
ghost use Rattle.icu_segmenter.specs.Table.{table};

use icu_segmenter::provider::{
    Acceptance, ClassTable, ComplexScript, Lookahead, SegmenterStateMachine, State, Symbol,
};
use std::alloc::{AllocError, Global};

/// What a state accepts, and the lookahead that it names.
pub(crate) type Entry = (Acceptance, Option<Lookahead>);

// The first value that is a pseudo symbol, in each bench machine.
const PSEUDO_SYMBOL_SHIFT: u8 = 5;

/// The machine of these parts, which have no fault, without lookaheads. Fails only when out of memory.
pub(crate) fn machine_of(
    alloc: Global,
    ranges: &[(u32, u32, Symbol)],
    other: Symbol,
    states: &[Entry],
    transitions: &[State],
    map: &[(Symbol, ComplexScript)],
) -> Result<SegmenterStateMachine, AllocError>
    requires ranges { IsFaultless (HasRangeFault ranges.now) }
    requires parts { IsFaultless (HasMachineFault (machine (table ranges.now other) states.now transitions.now 0 5 map.now)) }
    ensures { IfOk result (λ m. m ≡ machine (table ranges.now other) states.now transitions.now 0 5 map.now) }
{
    let ranges = Vec::from_slice(alloc, ranges)?;
    let states = Vec::from_slice(alloc, states)?;
    let transitions = Vec::from_slice(alloc, transitions)?;
    let map = Vec::from_slice(alloc, map)?;
    let Ok(symbols) = ClassTable::try_from_ranges(ranges, other) else {
        unreachable!()
    };
    let shift = PSEUDO_SYMBOL_SHIFT;
    let Ok(machine) = SegmenterStateMachine::try_from_parts(
        symbols,
        states,
        transitions,
        0,
        shift,
        map,
    ) else {
        unreachable!()
    };
    Ok(machine)
}
