//! What stands next to a place, as boundaries say it: by a cursor, and among words.

ghost use Rattle.std.specs.Prelude.{◌≡◌, length};
ghost use Rattle.seg_text.specs.Boundaries.{boundaries_in, IsCover};

use crate::failure::{Failure, check};
use bench::found::Found;
use bench::segmenter::AnySegmenterBorrowed;
use icu_segmenter::WordSegmenterBorrowed;
use icu_segmenter::cursor::{BoundaryCursor, CursorText, SegmenterOf};
use icu_segmenter::indices::StrCharIndices;
use icu_segmenter::segments::{BreakIterator, MarkedSegments, Source, WordBreaks, Words};

/// A cursor over a text is to find the boundaries next to a place.
pub fn check_near(
    segmenter: AnySegmenterBorrowed<'_>,
    text: &str,
    place: usize,
    found: &Found,
) -> Result<(), Failure> {
    let near = neighbours(found.as_slice(), place);
    check(
        agrees_in(segmenter, text.as_bytes(), place, near),
        "a cursor that doesn't agree",
    )
}

// Whether a cursor over units finds these boundaries next to a place. The proof is short for all encodings, and long for one.
fn agrees_in<T: CursorText>(
    segmenter: AnySegmenterBorrowed<'_>,
    text: T,
    place: usize,
    near: Near,
) -> bool {
    match segmenter {
        AnySegmenterBorrowed::Clusters(clusters) => agrees(clusters, text, place, near),
        AnySegmenterBorrowed::Sentences(sentences) => agrees(sentences, text, place, near),
        AnySegmenterBorrowed::Words(words) => agrees(words, text, place, near),
        AnySegmenterBorrowed::Lines(lines) => agrees(lines, text, place, near),
    }
}

// Whether it does by any kind of segmenter.
fn agrees<T: CursorText, S: SegmenterOf<T::Source>>(
    segmenter: S,
    text: T,
    place: usize,
    near: Near,
) -> bool {
    let cursor = BoundaryCursor::over(segmenter, text);
    cursor.previous_boundary(place) == near.below
        && cursor.is_boundary(place) == near.is_there
        && cursor.next_boundary(place) == near.above
}

/// The boundaries next to a place.
#[derive(Clone, Copy)]
pub struct Near {
    /// The nearest below it.
    pub below: Option<usize>,
    /// Whether one stands there.
    pub is_there: bool,
    /// The nearest above it.
    pub above: Option<usize>,
}

/// Those among boundaries that rise.
pub fn neighbours(found: &[(usize, char)], place: usize) -> Near {
    let mut near = Near {
        below: None,
        is_there: false,
        above: None,
    };
    for (boundary, _) in found {
        if *boundary < place {
            near.below = Some(*boundary);
        } else if *boundary == place {
            near.is_there = true;
        } else if near.above.is_none() {
            near.above = Some(*boundary);
        }
    }
    near
}

/// Words are to be those segments that have a type.
pub fn check_words(segmenter: AnySegmenterBorrowed<'_>, text: &str) -> Result<(), Failure> {
    match segmenter {
        AnySegmenterBorrowed::Words(words) => check_same_words::<StrCharIndices<'_>>(words, text),
        _ => Ok(()),
    }
}

fn check_same_words<I: Source>(
    words: WordSegmenterBorrowed<'_>,
    text: I::Units,
) -> Result<(), Failure>
where
    I::Units: PartialEq,
{
    let (agrees, has_ended) = compare_words(
        SegmenterOf::<I>::breaks(&words, text),
        SegmenterOf::<I>::breaks(&words, text),
    );
    check(agrees, "segments that are no words")?;
    check(has_ended, "words that are no segments")
}

// Whether the segments that have a type are the first words, and whether there are no others.
fn compare_words<B: WordBreaks>(breaks: B, others: B) -> (bool, bool)
where
    B::Units: PartialEq,
    requires found { B.left breaks ≡ boundaries_in (B.find breaks) (B.decode (B.whole breaks)) }
    requires cover { IsCover 0 (length (B.whole breaks)) (B.left breaks) }
    requires others_found { B.left others ≡ boundaries_in (B.find others) (B.decode (B.whole others)) }
    requires others_cover { IsCover 0 (length (B.whole others)) (B.left others) }
{
    let mut words = others.words();
    let agrees = have_words(breaks.marked_segments(), &mut words);
    (agrees, words.next().is_none())
}

// Whether the segments that have a type are these words, as far as they come.
fn have_words<B: WordBreaks>(segments: MarkedSegments<B>, words: &mut Words<B>) -> bool
where
    B::Units: PartialEq,
{
    let mut agrees = true;
    for segment in segments {
        if segment.2.is_word_like() {
            agrees &= words.next() == Some(segment);
        }
    }
    agrees
}
