//! Checked values of parts that stand in the code.
ghost use Rattle.std.specs.Prelude.{◌≡◌, ◌⊎◌, IfOk, IfErr};
ghost use Rattle.seg_data.specs.declared.provider.DataError.TheVariants.{Memory};
ghost use Rattle.seg_data.specs.Faults.{HasRangeFault};
ghost use Rattle.seg_data.specs.Table.{table};
ghost use Rattle.seg_machine.specs.Machine.{machine, tailoring};
ghost use Rattle.seg_machine.specs.MachineFaults.{HasMachineFault, HasOverrideFault};

use seg_data::provider::{ClassTable, ComplexScript, DataError};
use seg_machine::provider::{
    Acceptance, Lookahead, SegmenterStateMachine, SegmenterStateMachineOverride, State, Symbol,
};
use std::alloc::Global;

/// What a state accepts, and the lookahead that it names.
pub(crate) type Entry = (Acceptance, Option<Lookahead>);

pub(crate) const CONTINUE: Entry = (Acceptance::Continue, None);

pub(crate) const ACCEPT_0: Entry = (Acceptance::Accept(0), None);

pub(crate) const ACCEPT_1: Entry = (Acceptance::Accept(1), None);

pub(crate) const ACCEPT_0_NAMED: Entry = (Acceptance::Accept(0), Some(0));

pub(crate) const CONDITION_0: Entry = (Acceptance::Conditional(0, 0), None);

/// The machine of these parts, with one lookahead. The errors are out of memory, and what is wrong with the parts.
pub(crate) fn machine_of(
    alloc: Global,
    ranges: &[(u32, u32, Symbol)],
    other: Symbol,
    states: &[Entry],
    transitions: &[State],
    shift: Symbol,
    map: &[(Symbol, ComplexScript)],
) -> Result<SegmenterStateMachine, DataError>
    ensures made { IfOk result (λ m. m ≡ machine (table ranges.now other) states.now transitions.now 1 shift map.now) }
    ensures rejected { IfErr result (λ fault. (fault ≡ Memory) ⊎ HasRangeFault ranges.now fault
        ⊎ HasMachineFault (machine (table ranges.now other) states.now transitions.now 1 shift map.now) fault) }
{
    let symbols = ClassTable::try_from_ranges(Vec::from_slice(alloc, ranges)?, other)?;
    let symbols = symbols.indexed(alloc)?;
    let states = Vec::from_slice(alloc, states)?;
    let transitions = Vec::from_slice(alloc, transitions)?;
    let map = Vec::from_slice(alloc, map)?;
    SegmenterStateMachine::try_from_parts(symbols, states, transitions, 1, shift, map)
}

/// The tailoring by this map and these symbols in the place of symbols. The errors are out of memory, and what is wrong with the parts.
pub(crate) fn tailoring_of(
    alloc: Global,
    map: &[(Symbol, ComplexScript)],
    replaced: &[(Symbol, Symbol, ComplexScript)],
) -> Result<SegmenterStateMachineOverride, DataError>
    ensures made { IfOk result (λ made. made ≡ tailoring map.now replaced.now) }
    ensures rejected { IfErr result (λ fault. (fault ≡ Memory) ⊎ HasOverrideFault (tailoring map.now replaced.now) fault) }
{
    let pseudo_symbol_map = Vec::from_slice(alloc, map)?;
    let symbol_map = Vec::from_slice(alloc, replaced)?;
    SegmenterStateMachineOverride::try_from_parts(pseudo_symbol_map, symbol_map)
}
