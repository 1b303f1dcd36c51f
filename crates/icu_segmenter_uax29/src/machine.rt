//! The machine of clusters, made of the arrays that stand in the code; segmenters take it.
ghost use Rattle.std.specs.Prelude.{◌≡◌, ◌⊎◌, [], IfOk, IfErr};
ghost use Rattle.seg_data.specs.declared.provider.DataError.TheVariants.{Memory};
ghost use Rattle.seg_data.specs.Faults.{HasRangeFault};
ghost use Rattle.seg_data.specs.Table.{table};
ghost use Rattle.seg_machine.specs.Machine.{machine};
ghost use Rattle.seg_machine.specs.MachineFaults.{HasMachineFault};
ghost use Rattle.icu_segmenter_uax29.specs.Clusters.{cluster_machine};

use crate::ranges::RANGES;
use crate::states::{Entry, STATES};
use crate::symbols::OTHER;
use crate::transitions::TRANSITIONS;
use seg_data::provider::{ClassTable, DataError};
use seg_machine::provider::{SegmenterStateMachine, State, Symbol};
use std::alloc::Global;

/// The machine of the extended grapheme clusters of UAX #29, as they are in Unicode 18.0. Fails only when out of memory.
#[tactic(auto, unfolding(crate::specs::Clusters::cluster_machine))]
pub fn cluster_machine(alloc: Global) -> Result<SegmenterStateMachine, DataError>
    ensures made { IfOk result (λ m. m ≡ cluster_machine) }
    ensures rejected { IfErr result (λ fault. fault ≡ Memory) }
{
    machine_of(alloc, &RANGES, &STATES, &TRANSITIONS)
}

// The machine of these parts. The errors are out of memory, and what is wrong with the parts.
pub(crate) fn machine_of(
    alloc: Global,
    ranges: &[(u32, u32, Symbol)],
    states: &[Entry],
    transitions: &[State],
) -> Result<SegmenterStateMachine, DataError>
    ensures made { IfOk result (λ m. m ≡ machine (table ranges.now 1) states.now transitions.now 0 255 []) }
    ensures rejected { IfErr result (λ fault. (fault ≡ Memory) ⊎ HasRangeFault ranges.now fault
        ⊎ HasMachineFault (machine (table ranges.now 1) states.now transitions.now 0 255 []) fault) }
{
    let table = ClassTable::try_from_ranges(Vec::from_slice(alloc, ranges)?, OTHER)?;
    let symbols = table.indexed(alloc)?;
    let states = Vec::from_slice(alloc, states)?;
    let transitions = Vec::from_slice(alloc, transitions)?;
    SegmenterStateMachine::try_from_parts(symbols, states, transitions, 0, 255, Vec::new(alloc))
}
