//! The pair table of lines of the engine 17, which `classic` makes a segmenter of.
ghost use Rattle.std.specs.Prelude.{◌≡◌, IfOk, IfErr};
ghost use Rattle.seg_data.specs.declared.provider.DataError.TheVariants.{Memory};
ghost use Rattle.icu_segmenter_data.specs.Unicode.{line_17_table};

mod data;

use crate::parts::table_of;
use data::{CLASSES, ENTRIES, NUMBERS, OTHER_CLASS};
use icu_segmenter::provider::{DataError, RuleBreakData};
use std::alloc::Global;

/// The pair table of lines for the engine 17, over the classes that it names (UAX #14's, of which East Asian width, General_Category
/// and Extended_Pictographic split some). Of class SA all is complex, marks too. Fails only when out of memory.
pub fn line_17_table(alloc: Global) -> Result<RuleBreakData, DataError>
    ensures made { IfOk result (λ t. t ≡ line_17_table) }
    ensures rejected { IfErr result (λ fault. fault ≡ Memory) }
{
    table_of(alloc, &CLASSES, OTHER_CLASS, &ENTRIES, &[], NUMBERS)
}
