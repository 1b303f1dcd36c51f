//! Segmenters by Unicode's machines, each in one call: they are proved to follow UAX #29 and UAX #14 revision 55.
ghost use Rattle.std.specs.Prelude.{◌≡◌, IfOk, IfErr};
ghost use Rattle.seg_data.specs.declared.provider.DataError.TheVariants.{Memory};
ghost use Rattle.icu_segmenter.specs.Clusters.{owned_cluster_rules, owned_sentence_rules};
ghost use Rattle.icu_segmenter.specs.Lines.{chosen_rules, owned_line_rules};
ghost use Rattle.icu_segmenter.specs.Options.{machine_choice};
ghost use Rattle.icu_segmenter.specs.Rules.{boundaries_by};
ghost use Rattle.icu_segmenter.specs.Rules.Rules.{ByMachine};
ghost use Rattle.icu_segmenter.specs.ScriptWords.{no_words};
ghost use Rattle.icu_segmenter.specs.WordRules.{machine_words, word_boundaries_by};
ghost use Rattle.icu_segmenter.specs.Words.{owned_word_rules};
ghost use Rattle.icu_segmenter_data.specs.Unicode.{cluster_table};
ghost use Rattle.icu_segmenter_data.specs.Words.{AreWords};
ghost use Rattle.icu_segmenter_uax14.specs.Lines.{line_machine, line_tailorings};
ghost use Rattle.icu_segmenter_uax14.specs.Tailored.{AreLines};
ghost use Rattle.icu_segmenter_uax29.specs.Clusters.{FindsClusters, cluster_machine};
ghost use Rattle.icu_segmenter_uax29.specs.Sentences.{FindsSentences, sentence_machine};
ghost use Rattle.icu_segmenter_uax29.specs.TypedWords.{typed_word_machine};
ghost use Rattle.icu_segmenter_uax29.specs.Words.{FindsWords};

use crate::clusters::cluster_table;
use icu_segmenter::options::{LineBreakOptions, SentenceBreakOptions, WordBreakOptions};
use icu_segmenter::provider::DataError;
use icu_segmenter::{GraphemeClusterSegmenter, LineSegmenter, SentenceSegmenter, WordSegmenter};
use icu_segmenter_uax14::laws::segmenters_follow_rules;
use icu_segmenter_uax14::{line_machine, line_tailorings};
use icu_segmenter_uax29::laws::{
    clusters_are_uax29, sentences_are_uax29, typed_words_are_words, word_types,
};
use icu_segmenter_uax29::{cluster_machine, sentence_machine, typed_word_machine};
use std::alloc::Global;

/// A segmenter of the extended grapheme clusters of UAX #29, as they are in Unicode 18.0. The only error is `Memory`.
pub fn grapheme_segmenter(alloc: Global) -> Result<GraphemeClusterSegmenter, DataError>
    ensures made { IfOk result (λ clusters. owned_cluster_rules clusters ≡ ByMachine cluster_machine) }
    ensures clusters { IfOk result (λ clusters. FindsClusters (boundaries_by (owned_cluster_rules clusters))) }
    ensures rejected { IfErr result (λ fault. fault ≡ Memory) }
{
    let mut clusters = clusters_by_scans(alloc)?;
    clusters.make_rows(alloc)?;
    Ok(clusters)
}

// The segmenter without dense rows.
fn clusters_by_scans(alloc: Global) -> Result<GraphemeClusterSegmenter, DataError>
    ensures made { IfOk result (λ clusters. owned_cluster_rules clusters ≡ ByMachine cluster_machine) }
    ensures clusters { IfOk result (λ clusters. FindsClusters (boundaries_by (owned_cluster_rules clusters))) }
    ensures rejected { IfErr result (λ fault. fault ≡ Memory) }
{
    clusters_are_uax29();
    GraphemeClusterSegmenter::try_new_neo(cluster_machine(alloc)?)
}

/// A segmenter of the words of UAX #29, as they are in Unicode 18.0, with their types. It has no dictionaries: `load_dictionary` takes
/// them. The only error is `Memory`.
pub fn word_segmenter(alloc: Global) -> Result<WordSegmenter, DataError>
    ensures machines { IfOk result (λ words. owned_word_rules words ≡ machine_words typed_word_machine cluster_table no_words) }
    ensures words { IfOk result (λ words. FindsWords (word_boundaries_by (owned_word_rules words))) }
    ensures types { IfOk result (λ words. AreWords (owned_word_rules words)) }
    ensures rejected { IfErr result (λ fault. fault ≡ Memory) }
{
    let mut words = words_by_scans(alloc)?;
    words.make_rows(alloc)?;
    Ok(words)
}

// The segmenter without dense rows.
fn words_by_scans(alloc: Global) -> Result<WordSegmenter, DataError>
    ensures machines { IfOk result (λ words. owned_word_rules words ≡ machine_words typed_word_machine cluster_table no_words) }
    ensures words { IfOk result (λ words. FindsWords (word_boundaries_by (owned_word_rules words))) }
    ensures types { IfOk result (λ words. AreWords (owned_word_rules words)) }
    ensures rejected { IfErr result (λ fault. fault ≡ Memory) }
{
    typed_words_are_words();
    word_types();
    WordSegmenter::try_new_neo_for_non_complex_scripts(
        typed_word_machine(alloc)?,
        cluster_table(alloc)?,
        WordBreakOptions::default(),
    )
}

/// A segmenter of the sentences of UAX #29, as they are in Unicode 18.0. The only error is `Memory`.
pub fn sentence_segmenter(alloc: Global) -> Result<SentenceSegmenter, DataError>
    ensures made { IfOk result (λ sentences. owned_sentence_rules sentences ≡ ByMachine sentence_machine) }
    ensures sentences { IfOk result (λ sentences. FindsSentences (boundaries_by (owned_sentence_rules sentences))) }
    ensures rejected { IfErr result (λ fault. fault ≡ Memory) }
{
    let mut sentences = sentences_by_scans(alloc)?;
    sentences.make_rows(alloc)?;
    Ok(sentences)
}

// The segmenter without dense rows.
fn sentences_by_scans(alloc: Global) -> Result<SentenceSegmenter, DataError>
    ensures made { IfOk result (λ sentences. owned_sentence_rules sentences ≡ ByMachine sentence_machine) }
    ensures sentences { IfOk result (λ sentences. FindsSentences (boundaries_by (owned_sentence_rules sentences))) }
    ensures rejected { IfErr result (λ fault. fault ≡ Memory) }
{
    sentences_are_uax29();
    let machine = sentence_machine(alloc)?;
    SentenceSegmenter::try_new_neo(machine, None, SentenceBreakOptions::default())
}

/// A segmenter of lines, with the tailoring of CSS Text 3 that these options choose. Its machine is proved to find the lines of UAX #14, in
/// the form of revision 55, with the properties of Unicode 18.0 (`icu_segmenter_uax14::laws::lines_follow_rules`). Where the options are
/// `Anywhere`, it is the machine of clusters. It has no dictionaries: `load_dictionary` takes them. The only error is `Memory`.
pub fn line_segmenter(
    alloc: Global,
    options: LineBreakOptions<'_>,
) -> Result<LineSegmenter, DataError>
    ensures machines { IfOk result (λ lines. owned_line_rules lines ≡ chosen_rules line_machine line_tailorings cluster_machine (machine_choice options.entry)) }
    ensures lines { IfOk result (λ lines. AreLines (owned_line_rules lines)) }
    ensures rejected { IfErr result (λ fault. fault ≡ Memory) }
{
    let mut lines = lines_by_scans(alloc, options)?;
    lines.make_rows(alloc)?;
    Ok(lines)
}

// The segmenter without dense rows.
fn lines_by_scans(alloc: Global, options: LineBreakOptions<'_>) -> Result<LineSegmenter, DataError>
    ensures machines { IfOk result (λ lines. owned_line_rules lines ≡ chosen_rules line_machine line_tailorings cluster_machine (machine_choice options.entry)) }
    ensures lines { IfOk result (λ lines. AreLines (owned_line_rules lines)) }
    ensures rejected { IfErr result (λ fault. fault ≡ Memory) }
{
    segmenters_follow_rules();
    LineSegmenter::try_new_neo_for_non_complex_scripts(
        line_machine(alloc)?,
        line_tailorings(alloc)?,
        cluster_machine(alloc)?,
        options,
    )
}
