//! The machine of words, made of the arrays that stand in the code; segmenters take it.
ghost use Rattle.std.specs.Prelude.{◌≡◌, IfOk, IfErr};
ghost use Rattle.seg_data.specs.declared.provider.DataError.TheVariants.{Memory};
ghost use Rattle.icu_segmenter_uax29.specs.Words.{word_machine};

use crate::machine::machine_of;
use crate::words::ranges::RANGES;
use crate::words::states::STATES;
use crate::words::transitions::TRANSITIONS;
use seg_data::provider::DataError;
use seg_machine::provider::SegmenterStateMachine;
use std::alloc::Global;

/// The machine of the words of UAX #29, as they are in Unicode 18.0. Fails only when out of memory.
#[tactic(auto, unfolding(crate::specs::Words::word_machine))]
pub fn word_machine(alloc: Global) -> Result<SegmenterStateMachine, DataError>
    ensures made { IfOk result (λ m. m ≡ word_machine) }
    ensures rejected { IfErr result (λ fault. fault ≡ Memory) }
{
    machine_of(alloc, &RANGES, &STATES, &TRANSITIONS)
}
