//! The machine of lines and its tailorings, of the arrays that stand in the code.
ghost use Rattle.std.specs.Prelude.{◌≡◌, IfOk, IfErr};
ghost use Rattle.seg_data.specs.declared.provider.DataError.TheVariants.{Memory};
ghost use Rattle.icu_segmenter_uax14.specs.Lines.{line_machine, line_tailorings};

use crate::data::{
    BREAK_ALL, BREAK_ALL_REPLACED, JA, JA_LOOSE, JA_NORMAL, KEEP_ALL, KEEP_ALL_REPLACED, LOOSE,
    MAP, NORMAL, OTHER, RANGES, SHIFT,
};
use crate::parts::{machine_of, tailoring_of};
use crate::states::{STATES, TRANSITIONS};
use seg_data::provider::DataError;
use seg_lines::provider::LineTailorings;
use seg_machine::provider::SegmenterStateMachine;
use std::alloc::Global;

/// The machine of the lines of UAX #14 revision 55, with the properties of Unicode 18.0. Status 1 is a mandatory break. Letters and marks of
/// Thai, Lao, Khmer and Myanmar have their script, so that dictionaries can cut them. The only error is out of memory.
#[tactic(auto, unfolding(crate::specs::Lines::line_machine))]
pub fn line_machine(alloc: Global) -> Result<SegmenterStateMachine, DataError>
    ensures made { IfOk result (λ m. m ≡ line_machine) }
    ensures rejected { IfErr result (λ fault. fault ≡ Memory) }
{
    machine_of(alloc, &RANGES, OTHER, &STATES, &TRANSITIONS, SHIFT, &MAP)
}

/// The tailorings of that machine, all seven, for the properties `line-break` and `word-break` of CSS Text 3. The only error is
/// out of memory.
#[tactic(auto, unfolding(crate::specs::Lines::line_tailorings))]
pub fn line_tailorings(alloc: Global) -> Result<LineTailorings, DataError>
    ensures made { IfOk result (λ tailorings. tailorings ≡ line_tailorings) }
    ensures rejected { IfErr result (λ fault. fault ≡ Memory) }
{
    Ok(LineTailorings {
        breakall: Some(tailoring_of(alloc, &BREAK_ALL, &BREAK_ALL_REPLACED)?),
        keepall: Some(tailoring_of(alloc, &KEEP_ALL, &KEEP_ALL_REPLACED)?),
        ja_loose: Some(tailoring_of(alloc, &JA_LOOSE, &[])?),
        loose: Some(tailoring_of(alloc, &LOOSE, &[])?),
        ja_normal: Some(tailoring_of(alloc, &JA_NORMAL, &[])?),
        normal: Some(tailoring_of(alloc, &NORMAL, &[])?),
        ja: Some(tailoring_of(alloc, &JA, &[])?),
    })
}
