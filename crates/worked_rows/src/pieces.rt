//! Pieces of one script, the cuts of pieces and of runs, and what dictionaries answer.

use crate::data::{machine_of, table_of};
use crate::dictionaries::{all_words, thai, words_of};
use crate::numbers::number_of;
use crate::row::Row;
use crate::samples::{Sample, quoted};
use anyhow::{Result, bail};
use bench::found::push_word;
use bench::segmenter::Text;
use icu_segmenter::complex::{ComplexIterator, ComplexPayloadBorrowed, ComplexPayloadsBorrowed};
use icu_segmenter::indices::{StrCharIndices, Utf16Indices};
use icu_segmenter::provider::{ComplexScript, DictionaryBreakData};
use icu_segmenter::{GraphemeClusterSegmenter, GraphemeClusterSegmenterBorrowed};
use seg_clusters::runs::RunCuts;
use seg_clusters::script_iter::ScriptIterator;
use seg_data::provider::DictionaryCursor;
use seg_data::words::WordCursor;
use seg_text::cursor::Cursor;
use seg_text::scaffold::RuleBreakType;
use std::alloc::{AllocError, Global};

/// The cuts of a text as one piece, by the words of Thai and the clusters of the row's pair table, or of its machine where it has none.
pub fn cuts(alloc: Global, row: Row<'_>) -> Result<String> {
    let dictionary = thai(alloc, row)?;
    let clusters = clusters_of(alloc, row)?;
    cuts_by(alloc, row, &dictionary, clusters.as_borrowed())
}

fn clusters_of(alloc: Global, row: Row<'_>) -> Result<GraphemeClusterSegmenter> {
    let clusters = match row.part("table") {
        Some(_) => GraphemeClusterSegmenter::try_new(table_of(alloc, row)?),
        None => GraphemeClusterSegmenter::try_new_neo(machine_of(alloc, row)?),
    };
    Ok(clusters?)
}

// No piece of a row has so many units.
const LONGEST: usize = 10_000;

fn cuts_by(
    alloc: Global,
    row: Row<'_>,
    dictionary: &DictionaryBreakData,
    clusters: GraphemeClusterSegmenterBorrowed<'_>,
) -> Result<String> {
    let offset = number_of(row.part("offset").unwrap_or("0"))?;
    let piece = ComplexPayloadBorrowed::Dict(dictionary);
    let sample = Sample::of(alloc, row)?;
    let cuts = cuts_in(alloc, piece, clusters, offset, sample.text())?;
    Ok(shown_cuts(alloc, cuts.as_slice())?)
}

// The cuts of a piece that is not too long.
fn cuts_in(
    alloc: Global,
    piece: ComplexPayloadBorrowed<'_>,
    clusters: GraphemeClusterSegmenterBorrowed<'_>,
    offset: u8,
    text: Text<'_>,
) -> Result<Vec<usize>> {
    let offset = usize::from(offset);
    let cuts = match text {
        Text::Str(text) if text.len() < LONGEST => {
            collected(alloc, piece.segment_str(text, clusters, offset))
        }
        Text::Utf8(bytes) if bytes.len() < LONGEST => {
            collected(alloc, piece.segment_utf8(bytes, clusters, offset))
        }
        Text::Utf16(units) if units.len() < LONGEST => {
            collected(alloc, piece.segment_utf16(units, clusters, offset))
        }
        _ => bail!("a text that is too long"),
    };
    Ok(cuts?)
}

fn collected<'s, Y: RuleBreakType<'s>>(
    alloc: Global,
    cuts: ComplexIterator<'_, 's, Y>,
) -> Result<Vec<usize>, AllocError> {
    cuts.collect(alloc)
}

/// The cuts of a run, by the words, and the clusters of the row's pair table, or of its machine where it has none.
pub fn run_cuts(alloc: Global, row: Row<'_>) -> Result<String> {
    let clusters = clusters_of(alloc, row)?;
    run_cuts_with(alloc, row, clusters.as_borrowed())
}

fn run_cuts_with(
    alloc: Global,
    row: Row<'_>,
    clusters: GraphemeClusterSegmenterBorrowed<'_>,
) -> Result<String> {
    let first = all_words(alloc, row.parts_of("words "))?;
    let later = all_words(alloc, row.parts_of("later "))?;
    let mut payloads = ComplexPayloadsBorrowed::new(first.as_borrowed(), clusters);
    payloads.load(later.as_borrowed());
    run_cuts_by(alloc, row, payloads)
}

fn run_cuts_by(
    alloc: Global,
    row: Row<'_>,
    payloads: ComplexPayloadsBorrowed<'_>,
) -> Result<String> {
    let text = quoted(alloc, row)?;
    Ok(cuts_of(alloc, StrCharIndices::new(text.as_str()), payloads)?)
}

fn cuts_of<I: Cursor>(
    alloc: Global,
    text: I,
    payloads: ComplexPayloadsBorrowed<'_>,
) -> Result<String, AllocError> {
    let cuts: Vec<usize> = RunCuts::new(payloads, text).collect(alloc)?;
    shown_cuts(alloc, cuts.as_slice())
}

fn shown_cuts(alloc: Global, cuts: &[usize]) -> Result<String, AllocError> {
    let mut out = String::new(alloc);
    for place in cuts {
        let word = format!(in alloc; "{place}")?;
        push_word(&mut out, word.as_str())?;
    }
    Ok(out)
}

/// The pieces of a text: where each begins and ends, and its script.
pub fn pieces(alloc: Global, row: Row<'_>) -> Result<String> {
    let sample = Sample::of(alloc, row)?;
    let pieces = match sample.text() {
        Text::Str(text) => shown_pieces(alloc, StrCharIndices::new(text)),
        Text::Utf16(units) => shown_pieces(alloc, Utf16Indices::new(units)),
        _ => Ok(String::new(alloc)),
    };
    Ok(pieces?)
}

fn shown_pieces<I: Cursor>(alloc: Global, text: I) -> Result<String, AllocError> {
    let mut out = String::new(alloc);
    push_pieces(alloc, &mut out, &mut ScriptIterator::new(text))?;
    Ok(out)
}

fn push_pieces<I: Cursor>(
    alloc: Global,
    out: &mut String,
    pieces: &mut ScriptIterator<I>,
) -> Result<(), AllocError> {
    for _ in 0..u64::MAX {
        if !push_next(alloc, out, pieces)? {
            break;
        }
    }
    if pieces.next_piece().is_some() {
        out.push('?')?;
    }
    Ok(())
}

// Adds the next piece, and says whether there is one.
fn push_next<I: Cursor>(
    alloc: Global,
    out: &mut String,
    pieces: &mut ScriptIterator<I>,
) -> Result<bool, AllocError> {
    let start = pieces.place();
    let Some((piece, script)) = pieces.next_piece() else {
        return Ok(false);
    };
    let (end, part) = (pieces.place(), part_of(piece));
    let mark = if part == Some((start, end)) { "" } else { "?" };
    push_piece(alloc, out, start, end, script, mark)?;
    Ok(true)
}

// Where the only piece of a piece begins and ends; none where there are others.
fn part_of<I: Cursor>(piece: I) -> Option<(usize, usize)> {
    let mut parts = ScriptIterator::new(piece);
    let first = parts.place();
    let _ = parts.next_piece();
    let last = parts.place();
    if parts.next_piece().is_some() {
        return None;
    }
    Some((first, last))
}

fn push_piece(
    alloc: Global,
    out: &mut String,
    start: usize,
    end: usize,
    script: ComplexScript,
    mark: &str,
) -> Result<(), AllocError> {
    let word = format!(in alloc; "{start}-{end} {script:?}{mark}")?;
    push_word(out, word.as_str())
}

/// What the dictionary of Thai answers after a text, or after each of its words where the row asks its data.
pub fn answers(alloc: Global, row: Row<'_>) -> Result<String> {
    let dictionary = thai(alloc, row)?;
    if row.part("data").is_some() {
        let words = words_of(alloc, row.parts_of("words ").words("th")?)?;
        return Ok(answer_after_each(&dictionary, words.as_slice()).to_owned(alloc)?);
    }
    let text = quoted(alloc, row)?;
    Ok(answer_after(&dictionary, text.as_str()).to_owned(alloc)?)
}

// What a dictionary answers after each of these words, or the first answer other than that it is a word.
fn answer_after_each(dictionary: &DictionaryBreakData, words: &[String]) -> &'static str {
    for word in words {
        let answer = answer_after(dictionary, word.as_str());
        if answer != "word" {
            return answer;
        }
    }
    "word"
}

/// What a cursor answers at its start, where a fork of it has read a text.
pub fn forks(alloc: Global, row: Row<'_>) -> Result<String> {
    let dictionary = thai(alloc, row)?;
    let text = quoted(alloc, row)?;
    let start = dictionary.cursor();
    let after = answer_of(&read(start.fork(), text.as_str()));
    let before = answer_of(&start);
    Ok(format!(in alloc; "{after}; before, {before}")?)
}

fn answer_after(dictionary: &DictionaryBreakData, text: &str) -> &'static str {
    answer_of(&read(dictionary.cursor(), text))
}

fn read<'data>(mut cursor: DictionaryCursor<'data>, text: &str) -> DictionaryCursor<'data> {
    for character in text.chars() {
        cursor.step(character as u32);
    }
    cursor
}

// Whether what was read is a word, and whether a longer one begins with it.
fn answer_of(cursor: &DictionaryCursor<'_>) -> &'static str {
    match (cursor.is_word(), cursor.goes_on()) {
        (true, true) => "word, goes on",
        (true, false) => "word",
        (false, true) => "goes on",
        (false, false) => "neither",
    }
}
