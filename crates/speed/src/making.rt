//! How the segmenter of each engine is made.

use crate::data::{
    cluster_machine, cluster_table, line_17_table, line_machine, line_table, line_tailorings,
    sentence_machine, sentence_table, word_machine, word_table,
};
use crate::engine::{Data, Engine};
use anyhow::Result;
use bench::segmenter::AnySegmenter;
use icu_segmenter::options::{LineBreakOptions, SentenceBreakOptions, WordBreakOptions};
use icu_segmenter::{GraphemeClusterSegmenter, LineSegmenter, SentenceSegmenter, WordSegmenter};
use std::alloc::Global;

/// The segmenter of an engine with its data, with no dictionaries. Fails only when out of memory.
pub fn segmenter_of(alloc: Global, engine: Engine, source: Data) -> Result<AnySegmenter> {
    match engine {
        Engine::GraphemeClassic => clusters_by_table(alloc, source),
        Engine::GraphemeNeo | Engine::GraphemeMemo => clusters_by_machine(alloc, source),
        Engine::SentenceClassic => sentences_by_table(alloc, source),
        Engine::SentenceNeo | Engine::SentenceMemo => sentences_by_machine(alloc, source),
        Engine::WordClassic => words_by_table(alloc, source),
        Engine::WordNeo | Engine::WordMemo => words_by_machine(alloc, source),
        Engine::LineClassic => lines_by_table(alloc, source),
        Engine::Line17 => lines_by_turns(alloc, source),
        Engine::LineNeo | Engine::LineMemo => lines_by_machine(alloc, source),
    }
}

// Two data, or why the first that lacks is not there.
fn both<A: Drop, B: Drop>(first: Result<A>, second: Result<B>) -> Result<(A, B)> {
    Ok((first?, second?))
}

fn clusters_by_table(alloc: Global, source: Data) -> Result<AnySegmenter> {
    let table = cluster_table(alloc, source)?;
    Ok(AnySegmenter::Clusters(GraphemeClusterSegmenter::try_new(table)?))
}

fn clusters_by_machine(alloc: Global, source: Data) -> Result<AnySegmenter> {
    let machine = cluster_machine(alloc, source)?;
    Ok(AnySegmenter::Clusters(GraphemeClusterSegmenter::try_new_neo(machine)?))
}

fn sentences_by_table(alloc: Global, source: Data) -> Result<AnySegmenter> {
    let table = sentence_table(alloc, source)?;
    let options = SentenceBreakOptions::default();
    Ok(AnySegmenter::Sentences(SentenceSegmenter::try_new(table, None, options)?))
}

fn sentences_by_machine(alloc: Global, source: Data) -> Result<AnySegmenter> {
    let machine = sentence_machine(alloc, source)?;
    let options = SentenceBreakOptions::default();
    Ok(AnySegmenter::Sentences(SentenceSegmenter::try_new_neo(machine, None, options)?))
}

fn words_by_table(alloc: Global, source: Data) -> Result<AnySegmenter> {
    let (table, clusters) = both(word_table(alloc, source), cluster_table(alloc, source))?;
    let options = WordBreakOptions::default();
    let segmenter = WordSegmenter::try_new_for_non_complex_scripts(table, None, clusters, options)?;
    Ok(AnySegmenter::Words(segmenter))
}

fn words_by_machine(alloc: Global, source: Data) -> Result<AnySegmenter> {
    let (machine, clusters) = both(word_machine(alloc, source), cluster_table(alloc, source))?;
    let options = WordBreakOptions::default();
    let segmenter = WordSegmenter::try_new_neo_for_non_complex_scripts(machine, clusters, options)?;
    Ok(AnySegmenter::Words(segmenter))
}

fn lines_by_table(alloc: Global, source: Data) -> Result<AnySegmenter> {
    let (table, clusters) = both(line_table(alloc, source), cluster_table(alloc, source))?;
    let options = LineBreakOptions::default();
    let segmenter = LineSegmenter::try_new_for_non_complex_scripts(table, clusters, options)?;
    Ok(AnySegmenter::Lines(segmenter))
}

fn lines_by_turns(alloc: Global, source: Data) -> Result<AnySegmenter> {
    let (table, clusters) = both(line_17_table(alloc, source), cluster_table(alloc, source))?;
    let options = LineBreakOptions::default();
    let segmenter = LineSegmenter::try_new_17_for_non_complex_scripts(table, clusters, options)?;
    Ok(AnySegmenter::Lines(segmenter))
}

fn lines_by_machine(alloc: Global, source: Data) -> Result<AnySegmenter> {
    let machines = both(line_machine(alloc, source), cluster_machine(alloc, source));
    let ((machine, clusters), tailorings) = both(machines, line_tailorings(alloc, source))?;
    let options = LineBreakOptions::default();
    let segmenter = LineSegmenter::try_new_neo_for_non_complex_scripts(
        machine, tailorings, clusters, options,
    )?;
    Ok(AnySegmenter::Lines(segmenter))
}
