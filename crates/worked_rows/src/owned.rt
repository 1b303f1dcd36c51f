//! Segmenters with data of their own.

use crate::data::both;
use crate::options::Options;
use crate::parts::{Kind, Parts, given};
use anyhow::Result;
use bench::segmenter::AnySegmenter;
use icu_segmenter::options::{SentenceBreakOptions, WordBreakOptions};
use icu_segmenter::provider::RuleBreakData;
use icu_segmenter::{GraphemeClusterSegmenter, LineSegmenter, SentenceSegmenter, WordSegmenter};
use std::mem;

/// The segmenter of these parts, which are gone then.
pub fn own(parts: &mut Parts, kind: Kind, options: &Options) -> Result<AnySegmenter> {
    match kind {
        Kind::NeoClusters | Kind::Clusters => Ok(AnySegmenter::Clusters(clusters(parts, kind)?)),
        Kind::NeoSentences | Kind::Sentences => {
            Ok(AnySegmenter::Sentences(sentences(parts, kind, options)?))
        }
        Kind::NeoWords | Kind::Words => {
            let words = words(parts, kind)?;
            Ok(AnySegmenter::Words(loaded_words(words, parts)))
        }
        Kind::NeoLines | Kind::Lines | Kind::Lines17 => {
            let lines = lines(parts, kind, options)?;
            Ok(AnySegmenter::Lines(loaded_lines(lines, parts)))
        }
    }
}

fn clusters(parts: &mut Parts, kind: Kind) -> Result<GraphemeClusterSegmenter> {
    let clusters = match kind {
        Kind::NeoClusters => GraphemeClusterSegmenter::try_new_neo(given(&mut parts.machine)?),
        _ => GraphemeClusterSegmenter::try_new(given(&mut parts.table)?),
    };
    Ok(clusters?)
}

fn sentences(parts: &mut Parts, kind: Kind, options: &Options) -> Result<SentenceSegmenter> {
    let options = SentenceBreakOptions {
        content_locale: options.language(),
        ..SentenceBreakOptions::default()
    };
    let sentences = match kind {
        Kind::NeoSentences => {
            let machine = given(&mut parts.machine)?;
            SentenceSegmenter::try_new_neo(machine, parts.tailoring.take(), options)
        }
        _ => {
            let table = given(&mut parts.table)?;
            SentenceSegmenter::try_new(table, parts.overriding.take(), options)
        }
    };
    Ok(sentences?)
}

fn neo_words(parts: &mut Parts) -> Result<WordSegmenter> {
    let (machine, clusters) = both(given(&mut parts.machine), given(&mut parts.cluster_table))?;
    let options = WordBreakOptions::default();
    Ok(WordSegmenter::try_new_neo_for_non_complex_scripts(machine, clusters, options)?)
}

fn words(parts: &mut Parts, kind: Kind) -> Result<WordSegmenter> {
    match kind {
        Kind::NeoWords => neo_words(parts),
        _ => table_words(parts),
    }
}

// Words by a pair table, with dictionaries or by the constructor that takes none.
fn table_words(parts: &mut Parts) -> Result<WordSegmenter> {
    let (table, clusters) = tables(parts)?;
    let overriding = parts.overriding.take();
    let options = WordBreakOptions::default();
    let words = match parts.first.take() {
        Some(first) => {
            WordSegmenter::try_new_dictionary(table, overriding, clusters, first, options)
        }
        None => {
            WordSegmenter::try_new_for_non_complex_scripts(table, overriding, clusters, options)
        }
    };
    Ok(words?)
}

// The pair table, and that of clusters.
fn tables(parts: &mut Parts) -> Result<(RuleBreakData, RuleBreakData)> {
    both(given(&mut parts.table), given(&mut parts.cluster_table))
}

fn loaded_words(mut words: WordSegmenter, parts: &mut Parts) -> WordSegmenter {
    if let Some(later) = parts.later.take() {
        words.load_dictionary(later);
    }
    words
}

fn neo_lines(parts: &mut Parts, options: &Options) -> Result<LineSegmenter> {
    let (machine, clusters) = both(given(&mut parts.machine), given(&mut parts.cluster_machine))?;
    Ok(LineSegmenter::try_new_neo_for_non_complex_scripts(
        machine,
        mem::take(&mut parts.tailorings),
        clusters,
        options.of_lines(),
    )?)
}

fn lines(parts: &mut Parts, kind: Kind, options: &Options) -> Result<LineSegmenter> {
    match kind {
        Kind::NeoLines => neo_lines(parts, options),
        Kind::Lines17 => lines_17(parts, options),
        _ => table_lines(parts, options),
    }
}

// Lines by a pair table, with dictionaries or by the constructor that takes none.
fn table_lines(parts: &mut Parts, options: &Options) -> Result<LineSegmenter> {
    let (table, clusters) = tables(parts)?;
    let options = options.of_lines();
    let lines = match parts.first.take() {
        Some(first) => LineSegmenter::try_new_dictionary(table, clusters, first, options),
        None => LineSegmenter::try_new_for_non_complex_scripts(table, clusters, options),
    };
    Ok(lines?)
}

fn lines_17(parts: &mut Parts, options: &Options) -> Result<LineSegmenter> {
    let (table, clusters) = tables(parts)?;
    let options = options.of_lines();
    Ok(LineSegmenter::try_new_17_for_non_complex_scripts(table, clusters, options)?)
}

// Lines, once the words are loaded that they aren't made with.
fn loaded_lines(mut lines: LineSegmenter, parts: &mut Parts) -> LineSegmenter {
    if let Some(first) = parts.first.take() {
        lines.load_dictionary(first);
    }
    if let Some(later) = parts.later.take() {
        lines.load_dictionary(later);
    }
    lines
}
