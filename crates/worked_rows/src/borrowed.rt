//! Segmenters over parts that are borrowed.

use crate::options::Options;
use crate::parts::{Kind, Parts, borrowed};
use anyhow::Result;
use bench::segmenter::AnySegmenterBorrowed;
use icu_segmenter::options::{
    LineBreakOptions, SentenceBreakInvariantOptions, WordBreakInvariantOptions,
};
use icu_segmenter::provider::{DataError, Dictionaries, RuleBreakData};
use icu_segmenter::{
    GraphemeClusterSegmenterBorrowed, LineSegmenterBorrowed, SentenceSegmenterBorrowed,
    WordSegmenterBorrowed,
};

/// The segmenter over these parts.
pub fn lend<'a>(
    parts: &'a Parts,
    kind: Kind,
    options: &Options,
) -> Result<AnySegmenterBorrowed<'a>> {
    Ok(match kind {
        Kind::NeoClusters | Kind::Clusters => AnySegmenterBorrowed::Clusters(clusters(
            parts, kind,
        )?),
        Kind::NeoSentences | Kind::Sentences => {
            AnySegmenterBorrowed::Sentences(sentences(parts, kind)?)
        }
        Kind::NeoWords | Kind::Words => AnySegmenterBorrowed::Words(words(parts, kind)?),
        Kind::NeoLines | Kind::Lines | Kind::Lines17 => {
            AnySegmenterBorrowed::Lines(lines(parts, kind, options)?)
        }
    })
}

fn clusters(parts: &Parts, kind: Kind) -> Result<GraphemeClusterSegmenterBorrowed<'_>> {
    let clusters = match kind {
        Kind::NeoClusters => GraphemeClusterSegmenterBorrowed::new_neo(borrowed(&parts.machine)?),
        _ => GraphemeClusterSegmenterBorrowed::new(borrowed(&parts.table)?),
    };
    Ok(clusters?)
}

fn sentences(parts: &Parts, kind: Kind) -> Result<SentenceSegmenterBorrowed<'_>> {
    let options = SentenceBreakInvariantOptions::default();
    let sentences = match kind {
        Kind::NeoSentences => {
            let machine = borrowed(&parts.machine)?;
            SentenceSegmenterBorrowed::new_neo(machine, parts.tailoring.as_ref(), options)
        }
        _ => {
            let table = borrowed(&parts.table)?;
            SentenceSegmenterBorrowed::new(table, parts.overriding.as_ref(), options)
        }
    };
    Ok(sentences?)
}

fn words(parts: &Parts, kind: Kind) -> Result<WordSegmenterBorrowed<'_>> {
    let mut words = match kind {
        Kind::NeoWords => neo_words(parts)?,
        _ => table_words(parts)?,
    };
    words.load_dictionary(borrowed(&parts.later)?.as_borrowed());
    Ok(words)
}

fn neo_words(parts: &Parts) -> Result<WordSegmenterBorrowed<'_>> {
    let machine = borrowed(&parts.machine)?;
    let clusters = borrowed(&parts.cluster_table)?;
    let options = WordBreakInvariantOptions::default();
    Ok(WordSegmenterBorrowed::new_neo_for_non_complex_scripts(machine, clusters, options)?)
}

// Words by a pair table, with dictionaries or by the constructor that takes none.
fn table_words(parts: &Parts) -> Result<WordSegmenterBorrowed<'_>> {
    let table = borrowed(&parts.table)?;
    let clusters = borrowed(&parts.cluster_table)?;
    let overriding = parts.overriding.as_ref();
    let options = WordBreakInvariantOptions::default();
    let words = match &parts.first {
        Some(first) => {
            let first = first.as_borrowed();
            WordSegmenterBorrowed::new_dictionary(table, overriding, clusters, first, options)
        }
        None => WordSegmenterBorrowed::new_for_non_complex_scripts(
            table, overriding, clusters, options,
        ),
    };
    Ok(words?)
}

fn lines<'a>(parts: &'a Parts, kind: Kind, options: &Options) -> Result<LineSegmenterBorrowed<'a>> {
    let mut lines = match kind {
        Kind::NeoLines => neo_lines(parts, options)?,
        Kind::Lines17 => lines_17(parts, options)?,
        _ => table_lines(parts, options)?,
    };
    lines.load_dictionary(borrowed(&parts.later)?.as_borrowed());
    Ok(lines)
}

fn neo_lines<'a>(parts: &'a Parts, options: &Options) -> Result<LineSegmenterBorrowed<'a>> {
    let machine = borrowed(&parts.machine)?;
    let clusters = borrowed(&parts.cluster_machine)?;
    Ok(LineSegmenterBorrowed::new_neo_for_non_complex_scripts(
        machine,
        parts.tailorings.as_borrowed(),
        clusters,
        options.of_lines(),
    )?)
}

// Lines by a pair table, with dictionaries or by the constructor that takes none.
fn table_lines<'a>(parts: &'a Parts, options: &Options) -> Result<LineSegmenterBorrowed<'a>> {
    let table = borrowed(&parts.table)?;
    let clusters = borrowed(&parts.cluster_table)?;
    Ok(lines_with(table, clusters, parts.first.as_ref(), options.of_lines())?)
}

fn lines_with<'a>(
    table: &'a RuleBreakData,
    clusters: &'a RuleBreakData,
    words: Option<&'a Dictionaries>,
    options: LineBreakOptions<'_>,
) -> Result<LineSegmenterBorrowed<'a>, DataError> {
    match words {
        Some(words) => {
            LineSegmenterBorrowed::new_dictionary(table, clusters, words.as_borrowed(), options)
        }
        None => LineSegmenterBorrowed::new_for_non_complex_scripts(table, clusters, options),
    }
}

fn lines_17<'a>(parts: &'a Parts, options: &Options) -> Result<LineSegmenterBorrowed<'a>> {
    let table = borrowed(&parts.table)?;
    let clusters = borrowed(&parts.cluster_table)?;
    let options = options.of_lines();
    let lines = LineSegmenterBorrowed::new_17_for_non_complex_scripts(table, clusters, options);
    with_words(lines, parts.first.as_ref())
}

fn with_words<'a>(
    made: Result<LineSegmenterBorrowed<'a>, DataError>,
    words: Option<&'a Dictionaries>,
) -> Result<LineSegmenterBorrowed<'a>> {
    let mut lines = made?;
    if let Some(words) = words {
        lines.load_dictionary(words.as_borrowed());
    }
    Ok(lines)
}
