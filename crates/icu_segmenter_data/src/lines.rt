//! The pair table of lines, which `classic` makes a segmenter of.
ghost use Rattle.std.specs.Prelude.{◌≡◌, IfOk, IfErr};
ghost use Rattle.seg_data.specs.declared.provider.DataError.TheVariants.{Memory};
ghost use Rattle.icu_segmenter_data.specs.Unicode.{line_table};

mod data;

use crate::parts::table_of;
use data::{CLASSES, ENTRIES, NUMBERS, OTHER_CLASS};
use icu_segmenter::provider::{DataError, RuleBreakData};
use std::alloc::Global;

/// The pair table of lines, over the classes that the classic engine of lines names (UAX #14's, where East Asian width,
/// General_Category and Extended_Pictographic split some), and 13 more that the rules tell apart. Of class SA all is complex, marks too.
/// Fails only when out of memory.
pub fn line_table(alloc: Global) -> Result<RuleBreakData, DataError>
    ensures made { IfOk result (λ t. t ≡ line_table) }
    ensures rejected { IfErr result (λ fault. fault ≡ Memory) }
{
    table_of(alloc, &CLASSES, OTHER_CLASS, &ENTRIES, &[], NUMBERS)
}
