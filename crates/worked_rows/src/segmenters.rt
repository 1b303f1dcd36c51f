//! What segmenters find, by data that are borrowed and by data of their own.

use crate::agreement::{
    SHORT_TEXTS, agrees_in_all, boundaries_in_all, has_same_clusters, short_text,
};
use crate::answers::or_fault;
use crate::borrowed::lend;
use crate::data::{machine_of, table_of};
use crate::memos::memo_answer;
use crate::options::Options;
use crate::owned::own;
use crate::parts::{Kind, Parts, kind_of};
use crate::row::Row;
use crate::samples::Sample;
use crate::wrapped::wrapped_answer;
use anyhow::{Result, bail};
use bench::segmenter::{AnySegmenterBorrowed, Text};
use icu_segmenter::{
    GraphemeClusterSegmenterBorrowed, LineSegmenterBorrowed, WordSegmenterBorrowed,
};
use std::alloc::{AllocError, Global};
use std::fmt;

/// What is asked of a segmenter.
#[derive(Clone, Copy)]
pub enum Manner {
    /// The boundaries.
    Boundaries,
    /// The boundaries by its memo, and how many look-ups there were.
    Memo,
    /// How an iterator is shown.
    Shown,
    /// Wrapped lines.
    Wrapped,
}

/// The answer by borrowed data, which is to be that by owned ones.
pub fn segmenter_answer(alloc: Global, row: Row<'_>, kind: &str, manner: Manner) -> Result<String> {
    let kind = kind_of(kind)?;
    let mut parts = Parts::none();
    answer_by(alloc, row, kind, manner, &mut parts)
}

fn answer_by(
    alloc: Global,
    row: Row<'_>,
    kind: Kind,
    manner: Manner,
    parts: &mut Parts,
) -> Result<String> {
    parts.read(alloc, row, kind)?;
    let borrowed = or_fault(alloc, borrowed_answer(alloc, row, kind, manner, parts))?;
    let owned = or_fault(alloc, owned_answer(alloc, row, kind, manner, parts))?;
    if borrowed != owned {
        bail!("another answer by owned data");
    }
    Ok(borrowed)
}

fn borrowed_answer(
    alloc: Global,
    row: Row<'_>,
    kind: Kind,
    manner: Manner,
    parts: &Parts,
) -> Result<String> {
    let options = Options::of(row)?;
    answer(alloc, row, manner, lend(parts, kind, &options)?)
}

fn owned_answer(
    alloc: Global,
    row: Row<'_>,
    kind: Kind,
    manner: Manner,
    parts: &mut Parts,
) -> Result<String> {
    let options = Options::of(row)?;
    let segmenter = own(parts, kind, &options)?;
    answer(alloc, row, manner, segmenter.as_borrowed())
}

fn answer(
    alloc: Global,
    row: Row<'_>,
    manner: Manner,
    segmenter: AnySegmenterBorrowed<'_>,
) -> Result<String> {
    let sample = Sample::of(alloc, row)?;
    answer_of(alloc, row, manner, segmenter, sample.text())
}

fn answer_of(
    alloc: Global,
    row: Row<'_>,
    manner: Manner,
    segmenter: AnySegmenterBorrowed<'_>,
    text: Text<'_>,
) -> Result<String> {
    let answer = match manner {
        Manner::Memo => return memo_answer(alloc, segmenter, text),
        Manner::Wrapped => return wrapped_answer(alloc, row, segmenter),
        Manner::Shown => shown_answer(alloc, segmenter),
        Manner::Boundaries if row.part("data").is_some() => "accepted".to_owned(alloc),
        Manner::Boundaries if row.part("short-texts").is_some() => {
            short_texts_answer(alloc, segmenter)
        }
        Manner::Boundaries => boundaries_in_all(alloc, segmenter, text),
    };
    Ok(answer?)
}

// How an iterator of words or lines is shown: the name before its fields.
fn shown_answer(alloc: Global, segmenter: AnySegmenterBorrowed<'_>) -> Result<String, AllocError> {
    match segmenter {
        AnySegmenterBorrowed::Words(words) => shown_words(alloc, words),
        AnySegmenterBorrowed::Lines(lines) => shown_lines(alloc, lines),
        _ => Ok(String::new(alloc)),
    }
}

// A function for each kind: one that has both takes longer to prove.
fn shown_words(alloc: Global, words: WordSegmenterBorrowed<'_>) -> Result<String, AllocError> {
    name_of(alloc, &words.segment_latin1(b"a"))
}

fn shown_lines(alloc: Global, lines: LineSegmenterBorrowed<'_>) -> Result<String, AllocError> {
    name_of(alloc, &lines.segment_latin1(b"a"))
}

// The name of what is shown.
fn name_of<D: fmt::Debug>(alloc: Global, value: &D) -> Result<String, AllocError> {
    let shown = format!(in alloc; "{value:?}")?;
    name_in(shown.as_str()).to_owned(alloc)
}

// The name of a struct that is shown.
fn name_in(shown: &str) -> &str {
    match shown.split_once(" { ") {
        Some((name, _)) => name,
        None => shown,
    }
}

// Whether the boundaries of all short texts are at equal ordinals in all encodings, or the first text of which they aren't.
fn short_texts_answer(
    alloc: Global,
    segmenter: AnySegmenterBorrowed<'_>,
) -> Result<String, AllocError> {
    for number in 0..SHORT_TEXTS {
        if let Some(text) = other_text(alloc, segmenter, number)? {
            return Ok(text);
        }
    }
    "agree".to_owned(alloc)
}

// The short text of this number, if its boundaries aren't at equal ordinals in all encodings.
fn other_text(
    alloc: Global,
    segmenter: AnySegmenterBorrowed<'_>,
    number: usize,
) -> Result<Option<String>, AllocError> {
    let text = short_text(alloc, number)?;
    let agrees = agrees_in_all(alloc, segmenter, text.as_str())?;
    Ok((!agrees).then_some(text))
}

/// Whether the clusters of all short texts are the same by the table and by the machine.
pub fn same_clusters(alloc: Global, row: Row<'_>) -> Result<String> {
    let table = table_of(alloc, row)?;
    let machine = machine_of(alloc, row)?;
    let classic = GraphemeClusterSegmenterBorrowed::new(&table)?;
    let neo = GraphemeClusterSegmenterBorrowed::new_neo(&machine)?;
    Ok(same_clusters_by(alloc, classic, neo)?)
}

fn same_clusters_by(
    alloc: Global,
    classic: GraphemeClusterSegmenterBorrowed<'_>,
    neo: GraphemeClusterSegmenterBorrowed<'_>,
) -> Result<String, AllocError> {
    for number in 0..SHORT_TEXTS {
        if let Some(text) = other_clusters(alloc, classic, neo, number)? {
            return Ok(text);
        }
    }
    "agree".to_owned(alloc)
}

// The short text of this number, if its clusters aren't the same.
fn other_clusters(
    alloc: Global,
    classic: GraphemeClusterSegmenterBorrowed<'_>,
    neo: GraphemeClusterSegmenterBorrowed<'_>,
    number: usize,
) -> Result<Option<String>, AllocError> {
    let text = short_text(alloc, number)?;
    let is_same = has_same_clusters(alloc, classic, neo, text.as_str())?;
    Ok((!is_same).then_some(text))
}
