//! The boundaries that segmenters of any kind find, counted and added up.

use crate::tally::{Tally, tally_of};
use bench::segmenter::{AnySegmenter, Text};
use icu_segmenter::indices::{Latin1Indices, StrCharIndices, Utf8CharIndices, Utf16Indices};
use icu_segmenter::memo::{MemoBreakIterator, MemoError};
use icu_segmenter::rule_segmenter_v2::CountedTransitions;
use icu_segmenter::scaffold::PotentiallyIllFormedUtf8;
use icu_segmenter::segments::Source;
use icu_segmenter::{
    GraphemeClusterSegmenterBorrowed, LineSegmenterBorrowed, SentenceSegmenterBorrowed,
    WordSegmenterBorrowed,
};
use std::alloc::Global;

/// The boundaries of a text, counted and added up.
#[inline(never)]
pub fn tally(segmenter: &AnySegmenter, text: Text<'_>) -> Tally {
    match text {
        Text::Str(text) => tally_in(segmenter, StrCharIndices::new(text)),
        Text::Utf8(text) => tally_in(segmenter, Utf8CharIndices::new(text)),
        Text::Latin1(text) => tally_in(segmenter, Latin1Indices::new(text)),
        Text::Utf16(text) => tally_in(segmenter, Utf16Indices::new(text)),
    }
}

fn tally_in<I: Source>(segmenter: &AnySegmenter, text: I) -> Tally {
    match segmenter {
        AnySegmenter::Clusters(clusters) => clusters_in(clusters.as_borrowed(), text),
        AnySegmenter::Sentences(sentences) => sentences_in(sentences.as_borrowed(), text),
        AnySegmenter::Words(words) => words_in(words.as_borrowed(), text),
        AnySegmenter::Lines(lines) => lines_in(lines.as_borrowed(), text),
    }
}

// A function for each kind, and one for all encodings: so the proof is short.
fn clusters_in<I: Source>(clusters: GraphemeClusterSegmenterBorrowed<'_>, text: I) -> Tally {
    tally_of(clusters.segment(text))
}

fn sentences_in<I: Source>(sentences: SentenceSegmenterBorrowed<'_>, text: I) -> Tally {
    tally_of(sentences.segment(text))
}

fn words_in<I: Source>(words: WordSegmenterBorrowed<'_>, text: I) -> Tally {
    tally_of(words.segment(text))
}

fn lines_in<I: Source>(lines: LineSegmenterBorrowed<'_>, text: I) -> Tally {
    tally_of(lines.segment(text))
}

/// The boundaries of a text in possibly ill-formed UTF-8 by the memoised engine, whose table of cells is made anew. The errors are those of
/// `with_memo`.
#[inline(never)]
pub fn memo_tally(
    alloc: Global,
    segmenter: &AnySegmenter,
    text: &[u8],
) -> Result<Tally, MemoError> {
    match segmenter {
        AnySegmenter::Clusters(clusters) => memo_of_clusters(alloc, clusters.as_borrowed(), text),
        AnySegmenter::Sentences(sentences) => memo_of_sentences(
            alloc,
            sentences.as_borrowed(),
            text,
        ),
        AnySegmenter::Words(words) => memo_of_words(alloc, words.as_borrowed(), text),
        AnySegmenter::Lines(lines) => memo_of_lines(alloc, lines.as_borrowed(), text),
    }
}

// A function for each kind: one that has all four takes longer to prove.
fn memo_of_clusters(
    alloc: Global,
    clusters: GraphemeClusterSegmenterBorrowed<'_>,
    text: &[u8],
) -> Result<Tally, MemoError> {
    tally_of_memo(clusters.segment_utf8(text).with_memo(alloc))
}

fn memo_of_sentences(
    alloc: Global,
    sentences: SentenceSegmenterBorrowed<'_>,
    text: &[u8],
) -> Result<Tally, MemoError> {
    tally_of_memo(sentences.segment_utf8(text).with_memo(alloc))
}

fn memo_of_words(
    alloc: Global,
    words: WordSegmenterBorrowed<'_>,
    text: &[u8],
) -> Result<Tally, MemoError> {
    tally_of_memo(words.segment_utf8(text).with_memo(alloc))
}

fn memo_of_lines(
    alloc: Global,
    lines: LineSegmenterBorrowed<'_>,
    text: &[u8],
) -> Result<Tally, MemoError> {
    tally_of_memo(lines.segment_utf8(text).with_memo(alloc))
}

// The memo of a text in UTF-8, or why there is none.
type Memo<'data, 's> = Result<
    MemoBreakIterator<'data, 's, PotentiallyIllFormedUtf8, CountedTransitions<'data>>,
    MemoError,
>;

fn tally_of_memo(made: Memo<'_, '_>) -> Result<Tally, MemoError> {
    Ok(tally_of(made?))
}
