//! The pair table of words, which `classic` makes a segmenter of.
ghost use Rattle.std.specs.Prelude.{◌≡◌, IfOk, IfErr};
ghost use Rattle.seg_data.specs.declared.provider.DataError.TheVariants.{Memory};
ghost use Rattle.icu_segmenter_data.specs.Unicode.{word_table};

mod data;

use crate::parts::table_of;
use data::{CLASSES, ENTRIES, NUMBERS, OTHER_CLASS, STATUSES};
use icu_segmenter::provider::{DataError, RuleBreakData};
use std::alloc::Global;

/// The pair table of words, by UAX #29. A word has status 1 where its last letter or digit is a digit, 2 where it is a letter, and
/// 0 where there is none. What dictionaries cut is one class: what has complex context in Thai, Lao, Khmer and Myanmar, Han and
/// Hiragana. Fails only when out of memory.
pub fn word_table(alloc: Global) -> Result<RuleBreakData, DataError>
    ensures made { IfOk result (λ t. t ≡ word_table) }
    ensures rejected { IfErr result (λ fault. fault ≡ Memory) }
{
    table_of(alloc, &CLASSES, OTHER_CLASS, &ENTRIES, &STATUSES, NUMBERS)
}
