//! The pair table of sentences, which `classic` makes a segmenter of.
ghost use Rattle.std.specs.Prelude.{◌≡◌, IfOk, IfErr};
ghost use Rattle.seg_data.specs.declared.provider.DataError.TheVariants.{Memory};
ghost use Rattle.icu_segmenter_data.specs.Unicode.{sentence_table};

mod data;

use crate::parts::table_of;
use data::{CLASSES, ENTRIES, NUMBERS, OTHER_CLASS};
use icu_segmenter::provider::{DataError, RuleBreakData};
use std::alloc::Global;

/// The pair table of sentences, by UAX #29. Fails only when out of memory.
pub fn sentence_table(alloc: Global) -> Result<RuleBreakData, DataError>
    ensures made { IfOk result (λ t. t ≡ sentence_table) }
    ensures rejected { IfErr result (λ fault. fault ≡ Memory) }
{
    table_of(alloc, &CLASSES, OTHER_CLASS, &ENTRIES, &[], NUMBERS)
}
