//! What is looked at of a segmenter: texts in each encoding, their segments, the memoised engine, and wrapped lines.

use crate::certain::check_certain;
use crate::dice::Dice;
use crate::failure::{Failure, check};
use crate::near::{check_near, check_words};
use crate::parts::{check_segments, check_wrapped};
use crate::samples::{decoded, random_bytes, random_units, size, starts};
use bench::found::Found;
use bench::segmenter::{AnySegmenter, AnySegmenterBorrowed, Text};
use icu_segmenter::indices::Utf8CharIndices;
use icu_segmenter::memo::{MemoBreakIterator, MemoError};
use icu_segmenter::provider::DataError;
use icu_segmenter::rule_segmenter_v2::CountedTransitions;
use icu_segmenter::scaffold::Utf8;
use icu_segmenter::{
    GraphemeClusterSegmenterBorrowed, LineSegmenterBorrowed, SentenceSegmenterBorrowed,
    WordSegmenterBorrowed,
};
use std::alloc::Global;

/// What was seen of texts that agreed.
#[derive(Clone, Copy)]
pub struct Seen {
    /// Whether they have memos.
    pub has_memo: bool,
    /// How many certain places they have.
    pub certain: u64,
}

/// Asks a segmenter with data of its own what `examine` asks of one over borrowed data.
pub fn examine_owned(
    alloc: Global,
    dice: &mut Dice,
    made: Result<AnySegmenter, DataError>,
) -> Result<Seen, Failure> {
    let segmenter = made?;
    examine(alloc, dice, Ok(segmenter.as_borrowed()))
}

// How many times a segmenter is asked for two texts.
const TIMES: u8 = 8;

/// Segments random texts, and says what was seen of them. The errors are why the data were rejected, out of memory, and what
/// is wrong.
pub fn examine(
    alloc: Global,
    dice: &mut Dice,
    made: Result<AnySegmenterBorrowed<'_>, DataError>,
) -> Result<Seen, Failure> {
    let segmenter = made?;
    let mut all = Seen {
        has_memo: false,
        certain: 0,
    };
    for _ in 0..TIMES {
        let seen = check_texts(alloc, dice, segmenter)?;
        all.has_memo = seen.has_memo;
        all.certain = all.certain.saturating_add(seen.certain);
    }
    Ok(all)
}

// Segments random units and random bytes, and says what was seen of the bytes.
fn check_texts(
    alloc: Global,
    dice: &mut Dice,
    segmenter: AnySegmenterBorrowed<'_>,
) -> Result<Seen, Failure> {
    let manner = dice.below(3);
    let columns = usize::from(dice.below(12));
    let units = random_units(alloc, dice)?;
    check_units(alloc, segmenter, manner, units.as_slice())?;
    let bytes = random_bytes(alloc, dice)?;
    check_bytes(alloc, segmenter, manner, columns, bytes.as_slice())
}

fn check_units(
    alloc: Global,
    segmenter: AnySegmenterBorrowed<'_>,
    manner: u8,
    units: &[u16],
) -> Result<(), Failure> {
    let _found = counted(alloc, segmenter, Text::Utf16(units))?;
    check_segments(manner, segmenter, Text::Utf16(units))
}

// Bytes have the boundaries of their characters.
fn check_bytes(
    alloc: Global,
    segmenter: AnySegmenterBorrowed<'_>,
    manner: u8,
    columns: usize,
    bytes: &[u8],
) -> Result<Seen, Failure> {
    let found = counted(alloc, segmenter, Text::Utf8(bytes))?;
    check_segments(manner, segmenter, Text::Utf8(bytes))?;
    check_wrapped(segmenter, Text::Utf8(bytes), columns)?;
    let text = decoded(alloc, Utf8CharIndices::new(bytes))?;
    check_text(alloc, segmenter, manner, columns, text.as_str(), &found)
}

// A text is to have these boundaries in each encoding that has it, its segments, its wrapped lines and its memo are to agree with
// them, and what a cursor says next to the place that `columns` numbers; and certain places are to be among them.
fn check_text(
    alloc: Global,
    segmenter: AnySegmenterBorrowed<'_>,
    manner: u8,
    columns: usize,
    text: &str,
    expected: &Found,
) -> Result<Seen, Failure> {
    check_parts(segmenter, manner, columns, text)?;
    check_encodings(alloc, segmenter, manner, text, expected)?;
    let found = segmenter.boundaries(alloc, Text::Str(text))?;
    check_near(segmenter, text, columns, &found)?;
    let certain = check_certain(segmenter, text, &found)?;
    let has_memo = has_memo(alloc, segmenter, text, &found)?;
    Ok(Seen { has_memo, certain })
}

// The segments of a text, its wrapped lines and its words are to agree with its boundaries.
fn check_parts(
    segmenter: AnySegmenterBorrowed<'_>,
    manner: u8,
    columns: usize,
    text: &str,
) -> Result<(), Failure> {
    check_segments(manner, segmenter, Text::Str(text))?;
    check_wrapped(segmenter, Text::Str(text), columns)?;
    check_words(segmenter, text)
}

// A text is to have these boundaries in each encoding that has it.
fn check_encodings(
    alloc: Global,
    segmenter: AnySegmenterBorrowed<'_>,
    manner: u8,
    text: &str,
    expected: &Found,
) -> Result<(), Failure> {
    check_same(alloc, segmenter, Text::Str(text), expected)?;
    check_utf16(alloc, segmenter, text, expected)?;
    check_latin1(alloc, segmenter, manner, text, expected)
}

fn check_utf16(
    alloc: Global,
    segmenter: AnySegmenterBorrowed<'_>,
    text: &str,
    expected: &Found,
) -> Result<(), Failure> {
    let units: Vec<u16> = text.encode_utf16().collect(alloc)?;
    check_same(alloc, segmenter, Text::Utf16(units.as_slice()), expected)
}

// So does a text in Latin-1, if it has all its characters.
fn check_latin1(
    alloc: Global,
    segmenter: AnySegmenterBorrowed<'_>,
    manner: u8,
    text: &str,
    expected: &Found,
) -> Result<(), Failure> {
    let mut bytes = Vec::new(alloc);
    for character in text.chars() {
        let Ok(byte) = u8::try_from(character) else {
            return Ok(());
        };
        bytes.extend_from_slice(&[byte])?;
    }
    let text = Text::Latin1(bytes.as_slice());
    check_segments(manner, segmenter, text)?;
    check_same(alloc, segmenter, text, expected)
}

fn check_same(
    alloc: Global,
    segmenter: AnySegmenterBorrowed<'_>,
    text: Text<'_>,
    expected: &Found,
) -> Result<(), Failure> {
    let found = counted(alloc, segmenter, text)?;
    check(
        found.as_slice() == expected.as_slice(),
        "encodings that don't agree",
    )
}

// The boundaries of a text, each with how many items stand before it in the place of its place. They are to cover the text.
fn counted(
    alloc: Global,
    segmenter: AnySegmenterBorrowed<'_>,
    text: Text<'_>,
) -> Result<Found, Failure> {
    let starts = starts(alloc, text)?;
    check(
        starts.last() == Some(&size(text)),
        "items that don't end at the end",
    )?;
    counts_of(segmenter.boundaries(alloc, text)?, starts.as_slice())
}

fn counts_of(mut found: Found, starts: &[usize]) -> Result<Found, Failure> {
    count(found.as_mut_slice(), starts)?;
    Ok(found)
}

// Boundaries are to rise strictly from 0 to the last of these places, which rise, and to be among them.
fn count(found: &mut [(usize, char)], starts: &[usize]) -> Result<(), Failure> {
    let mut least = 0;
    for boundary in found.iter_mut() {
        let Ok(count) = starts.binary_search(&boundary.0) else {
            return Err(Failure::Wrong("a boundary inside a character"));
        };
        let is_first = least > 0 || count == 0;
        check(
            is_first && count >= least,
            "boundaries that don't rise from 0",
        )?;
        boundary.0 = count;
        least = count.saturating_add(1);
    }
    check(
        least == starts.len(),
        "boundaries that don't end at the end",
    )
}

// The memo of a `str`, or why there is none.
type Memo<'data, 's> = Result<
    MemoBreakIterator<'data, 's, Utf8, CountedTransitions<'data>>,
    MemoError,
>;

// Whether there is a memo, which is to give the same boundaries.
fn has_memo(
    alloc: Global,
    segmenter: AnySegmenterBorrowed<'_>,
    text: &str,
    found: &Found,
) -> Result<bool, Failure> {
    match segmenter {
        AnySegmenterBorrowed::Clusters(clusters) => has_memo_of_clusters(
            alloc, clusters, text, found,
        ),
        AnySegmenterBorrowed::Sentences(sentences) => {
            has_memo_of_sentences(alloc, sentences, text, found)
        }
        AnySegmenterBorrowed::Words(words) => has_memo_of_words(alloc, words, text, found),
        AnySegmenterBorrowed::Lines(lines) => has_memo_of_lines(alloc, lines, text, found),
    }
}

// A function for each kind: one that has all four takes longer to prove.
fn has_memo_of_clusters(
    alloc: Global,
    clusters: GraphemeClusterSegmenterBorrowed<'_>,
    text: &str,
    found: &Found,
) -> Result<bool, Failure> {
    check_memo(clusters.segment_str(text).with_memo(alloc), found)
}

fn has_memo_of_sentences(
    alloc: Global,
    sentences: SentenceSegmenterBorrowed<'_>,
    text: &str,
    found: &Found,
) -> Result<bool, Failure> {
    check_memo(sentences.segment_str(text).with_memo(alloc), found)
}

fn has_memo_of_words(
    alloc: Global,
    words: WordSegmenterBorrowed<'_>,
    text: &str,
    found: &Found,
) -> Result<bool, Failure> {
    check_memo(words.segment_str(text).with_memo(alloc), found)
}

fn has_memo_of_lines(
    alloc: Global,
    lines: LineSegmenterBorrowed<'_>,
    text: &str,
    found: &Found,
) -> Result<bool, Failure> {
    check_memo(lines.segment_str(text).with_memo(alloc), found)
}

// A memo, if there is one, is to give these boundaries. Says whether there is one.
fn check_memo(memo: Memo<'_, '_>, found: &Found) -> Result<bool, Failure> {
    match memo {
        Ok(mut memo) => {
            check(agrees(&mut memo, found), "a memo that doesn't agree")?;
            check(memo.next().is_none(), "a memo that goes on")?;
            Ok(true)
        }
        Err(MemoError::Memory) => Err(Failure::Memory),
        Err(_) => Ok(false),
    }
}

// Whether a memo gives these boundaries first.
fn agrees<'data, 's>(
    memo: &mut MemoBreakIterator<'data, 's, Utf8, CountedTransitions<'data>>,
    found: &Found,
) -> bool {
    let mut agrees = true;
    for (place, _) in found {
        agrees &= memo.next() == Some(*place);
    }
    agrees
}
