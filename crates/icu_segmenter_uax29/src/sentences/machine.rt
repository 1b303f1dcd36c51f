//! The machine of sentences, made of the arrays that stand in the code; segmenters take it.
ghost use Rattle.std.specs.Prelude.{◌≡◌, IfOk, IfErr};
ghost use Rattle.seg_data.specs.declared.provider.DataError.TheVariants.{Memory};
ghost use Rattle.icu_segmenter_uax29.specs.Sentences.{sentence_machine};

use crate::machine::machine_of;
use crate::sentences::ranges::RANGES;
use crate::sentences::states::STATES;
use crate::sentences::transitions::TRANSITIONS;
use seg_data::provider::DataError;
use seg_machine::provider::SegmenterStateMachine;
use std::alloc::Global;

/// The machine of the sentences of UAX #29, as they are in Unicode 18.0. Fails only when out of memory.
#[tactic(auto, unfolding(crate::specs::Sentences::sentence_machine))]
pub fn sentence_machine(alloc: Global) -> Result<SegmenterStateMachine, DataError>
    ensures made { IfOk result (λ m. m ≡ sentence_machine) }
    ensures rejected { IfErr result (λ fault. fault ≡ Memory) }
{
    machine_of(alloc, &RANGES, &STATES, &TRANSITIONS)
}
