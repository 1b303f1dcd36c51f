//! Segmenters by Unicode's pair tables, each in one call, of the engines that the original calls classic and 17.
ghost use Rattle.std.specs.Prelude.{◌≡◌, None, IfOk, IfErr};
ghost use Rattle.seg_data.specs.declared.provider.DataError.TheVariants.{Memory};
ghost use Rattle.icu_segmenter.specs.Clusters.{owned_cluster_rules, owned_sentence_rules};
ghost use Rattle.icu_segmenter.specs.LineBreaks.{table_lines, turn_lines};
ghost use Rattle.icu_segmenter.specs.LineRules.{style_of};
ghost use Rattle.icu_segmenter.specs.Lines.{owned_line_rules};
ghost use Rattle.icu_segmenter.specs.Rules.Rules.{ByTable};
ghost use Rattle.icu_segmenter.specs.ScriptWords.{no_words};
ghost use Rattle.icu_segmenter.specs.WordRules.{table_words};
ghost use Rattle.icu_segmenter.specs.Words.{owned_word_rules};
ghost use Rattle.icu_segmenter_data.specs.Unicode.{cluster_table, line_table, line_17_table, sentence_table, word_table};

use crate::clusters::cluster_table;
use crate::lines::line_table;
use crate::lines_17::line_17_table;
use crate::sentences::sentence_table;
use crate::words::word_table;
use icu_segmenter::options::{LineBreakOptions, SentenceBreakOptions, WordBreakOptions};
use icu_segmenter::provider::DataError;
use icu_segmenter::{GraphemeClusterSegmenter, LineSegmenter, SentenceSegmenter, WordSegmenter};
use std::alloc::Global;

/// A segmenter of extended grapheme clusters, by the pair table of UAX #29 of Unicode 18.0. The only error is `Memory`.
pub fn grapheme_segmenter(alloc: Global) -> Result<GraphemeClusterSegmenter, DataError>
    ensures made { IfOk result (λ clusters. owned_cluster_rules clusters ≡ ByTable cluster_table None) }
    ensures rejected { IfErr result (λ fault. fault ≡ Memory) }
{
    GraphemeClusterSegmenter::try_new(cluster_table(alloc)?)
}

/// A segmenter of words, by the pair table of UAX #29 of Unicode 18.0, which knows their types, without dictionaries: `load_dictionary`
/// takes them. The only error is `Memory`.
pub fn word_segmenter(alloc: Global) -> Result<WordSegmenter, DataError>
    ensures made { IfOk result (λ words. owned_word_rules words ≡ table_words word_table None cluster_table no_words) }
    ensures rejected { IfErr result (λ fault. fault ≡ Memory) }
{
    let (table, clusters) = (word_table(alloc)?, cluster_table(alloc)?);
    WordSegmenter::try_new_for_non_complex_scripts(
        table,
        None,
        clusters,
        WordBreakOptions::default(),
    )
}

/// A segmenter of sentences, by the pair table of UAX #29 of Unicode 18.0. The only error is `Memory`.
pub fn sentence_segmenter(alloc: Global) -> Result<SentenceSegmenter, DataError>
    ensures made { IfOk result (λ sentences. owned_sentence_rules sentences ≡ ByTable sentence_table None) }
    ensures rejected { IfErr result (λ fault. fault ≡ Memory) }
{
    SentenceSegmenter::try_new(
        sentence_table(alloc)?,
        None,
        SentenceBreakOptions::default(),
    )
}

/// A segmenter of lines, by the pair table of UAX #14 revision 55, with the properties of Unicode 18.0, as these options read it, or by that of clusters where they are `Anywhere`; without
/// dictionaries: `load_dictionary` takes them. The only error is `Memory`.
pub fn line_segmenter(
    alloc: Global,
    options: LineBreakOptions<'_>,
) -> Result<LineSegmenter, DataError>
    ensures made { IfOk result (λ lines. owned_line_rules lines ≡ table_lines (record { table = line_table; style = style_of options.entry }) cluster_table no_words) }
    ensures rejected { IfErr result (λ fault. fault ≡ Memory) }
{
    let (table, clusters) = (line_table(alloc)?, cluster_table(alloc)?);
    LineSegmenter::try_new_for_non_complex_scripts(table, clusters, options)
}

/// A segmenter of lines, by the pair table of the engine 17 of UAX #14 revision 55, with the properties of Unicode 18.0, as these options read it, or by that
/// of clusters where they are `Anywhere`; without dictionaries: `load_dictionary` takes them. The only error is `Memory`.
pub fn line_17_segmenter(
    alloc: Global,
    options: LineBreakOptions<'_>,
) -> Result<LineSegmenter, DataError>
    ensures made { IfOk result (λ lines. owned_line_rules lines ≡ turn_lines (record { table = line_17_table; style = style_of options.entry }) cluster_table no_words) }
    ensures rejected { IfErr result (λ fault. fault ≡ Memory) }
{
    let (table, clusters) = (line_17_table(alloc)?, cluster_table(alloc)?);
    LineSegmenter::try_new_17_for_non_complex_scripts(table, clusters, options)
}
