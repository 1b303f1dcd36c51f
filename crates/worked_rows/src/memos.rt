//! Boundaries by the memoised engine.

use crate::data::{both, machine_of};
use crate::row::Row;
use crate::samples::quoted;
use anyhow::Result;
use bench::found::push_word;
use bench::segmenter::{AnySegmenterBorrowed, Text};
use icu_segmenter::memo::{MemoBreakIterator, MemoError};
use icu_segmenter::provider::SegmenterStateMachine;
use icu_segmenter::rule_segmenter_v2::{CountedTransitions, ReadTransitions};
use icu_segmenter::scaffold::Utf8;
use icu_segmenter::{
    GraphemeClusterSegmenterBorrowed, LineSegmenterBorrowed, SentenceSegmenterBorrowed,
    WordSegmenterBorrowed,
};
use std::alloc::{AllocError, Global};

/// The boundaries of a `str` by the memo of its iterator, of which two were asked for before.
pub fn memo_answer(
    alloc: Global,
    segmenter: AnySegmenterBorrowed<'_>,
    text: Text<'_>,
) -> Result<String> {
    let text = match text {
        Text::Str(text) => text,
        _ => "",
    };
    match segmenter {
        AnySegmenterBorrowed::Clusters(clusters) => memo_of_clusters(alloc, clusters, text),
        AnySegmenterBorrowed::Sentences(sentences) => memo_of_sentences(alloc, sentences, text),
        AnySegmenterBorrowed::Words(words) => memo_of_words(alloc, words, text),
        AnySegmenterBorrowed::Lines(lines) => memo_of_lines(alloc, lines, text),
    }
}

// A function for each kind: one that has all four takes longer to prove.
fn memo_of_clusters(
    alloc: Global,
    clusters: GraphemeClusterSegmenterBorrowed<'_>,
    text: &str,
) -> Result<String> {
    let mut clusters = clusters.segment_str(text);
    let _ = clusters.next();
    let _ = clusters.next();
    shown_if_made(alloc, clusters.with_memo(alloc))
}

fn memo_of_sentences(
    alloc: Global,
    sentences: SentenceSegmenterBorrowed<'_>,
    text: &str,
) -> Result<String> {
    shown_if_made(alloc, sentences.segment_str(text).with_memo(alloc))
}

fn memo_of_words(alloc: Global, words: WordSegmenterBorrowed<'_>, text: &str) -> Result<String> {
    shown_if_made(alloc, words.segment_str(text).with_memo(alloc))
}

fn memo_of_lines(alloc: Global, lines: LineSegmenterBorrowed<'_>, text: &str) -> Result<String> {
    shown_if_made(alloc, lines.segment_str(text).with_memo(alloc))
}

/// What the memoised engine finds by the machine of a row.
pub fn look_ups(alloc: Global, row: Row<'_>) -> Result<String> {
    let (machine, text) = both(machine_of(alloc, row), quoted(alloc, row))?;
    look_ups_by(alloc, &machine, text.as_str())
}

fn look_ups_by(alloc: Global, machine: &SegmenterStateMachine, text: &str) -> Result<String> {
    let clusters = GraphemeClusterSegmenterBorrowed::new_neo(machine)?;
    shown_if_made(alloc, clusters.segment_str(text).with_memo(alloc))
}

// The memo of a `str`, or why there is none.
type Made<'data, 's> = Result<
    MemoBreakIterator<'data, 's, Utf8, CountedTransitions<'data>>,
    MemoError,
>;

fn shown_if_made(alloc: Global, made: Made<'_, '_>) -> Result<String> {
    Ok(shown_memo(alloc, made?)?)
}

/// What a memo gives: each place with its status and with how many look-ups there were when it came.
pub fn shown_memo<'data, 's, R: ReadTransitions>(
    alloc: Global,
    mut memo: MemoBreakIterator<'data, 's, Utf8, R>,
) -> Result<String, AllocError> {
    let mut out = String::new(alloc);
    push_memo(alloc, &mut memo, &mut out)?;
    Ok(out)
}

fn push_memo<'data, 's, R: ReadTransitions>(
    alloc: Global,
    memo: &mut MemoBreakIterator<'data, 's, Utf8, R>,
    out: &mut String,
) -> Result<(), AllocError> {
    if memo.lookups() > 0 {
        out.push('?')?;
    }
    for _ in 0..u64::MAX {
        let Some(place) = memo.next() else {
            break;
        };
        let (status, lookups) = (memo.status(), memo.lookups());
        let word = format!(in alloc; "{place}:{status}:{lookups}")?;
        push_word(out, word.as_str())?;
    }
    if memo.status() > 0 || memo.next().is_some() || memo.next().is_some() {
        out.push('?')?;
    }
    Ok(())
}
