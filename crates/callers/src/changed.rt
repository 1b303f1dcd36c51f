//! A caller that changes a rule of Unicode's words.
ghost use Rattle.std.specs.Prelude.{◌≡◌, Some, IfOk};
ghost use Rattle.callers.specs.Changed.{low_line_alone, low_line_of};
ghost use Rattle.icu_segmenter.specs.ScriptWords.{no_words};
ghost use Rattle.icu_segmenter.specs.WordRules.{table_words};
ghost use Rattle.icu_segmenter.specs.Words.{owned_word_rules};
ghost use Rattle.icu_segmenter_data.specs.Unicode.{cluster_table, word_table};

use crate::data::Failure;
use icu_segmenter::WordSegmenter;
use icu_segmenter::options::WordBreakOptions;
use icu_segmenter::provider::{ClassTable, RuleBreakDataOverride};
use icu_segmenter_data::{cluster_table, word_table};
use std::alloc::Global;

/// Words by Unicode's pair table, but that a low line joins no letters (by WB13a and WB13b it does): it has the class of an exclamation
/// mark, which no rule names. So `a_b` has two words.
pub fn words_split_at_low_lines(alloc: Global) -> Result<WordSegmenter, Failure>
    ensures { IfOk result (λ words. owned_word_rules words ≡ table_words word_table (Some low_line_alone) cluster_table no_words) }
{
    let table = word_table(alloc)?;
    let class = table.property_table().get32(u32::from('!'));
    let overriding = low_line_of(alloc, class)?;
    let clusters = cluster_table(alloc)?;
    let options = WordBreakOptions::default();
    Ok(WordSegmenter::try_new_for_non_complex_scripts(table, Some(overriding), clusters, options)?)
}

// The override by which a low line has this class.
fn low_line_of(alloc: Global, class: u8) -> Result<RuleBreakDataOverride, Failure>
    ensures { IfOk result (λ overriding. overriding ≡ low_line_of class) }
{
    let classes = ClassTable::try_from_ranges(Vec::from_slice(alloc, &[(0x5F, 0x5F, class)])?, 0)?;
    Ok(RuleBreakDataOverride::try_from_parts(classes)?)
}
