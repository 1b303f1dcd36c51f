//! What a segmenter says of a text, in the encoding of the cursor that reads it: possibly ill-formed UTF-8 by `Utf8CharIndices`, possibly
//! ill-formed UTF-16 by `Utf16Indices`, and Latin-1 by `Latin1Indices`. Places are units of the text.

ghost use Rattle.std.specs.Prelude.{◌≡◌, ◌+◌, ◌<◌, ◌^◌, drop, length, min};
ghost use Rattle.icu_segmenter.specs.NearBoundaries.{IsNearestAbove, IsNearestBelow, places_of_units};
ghost use Rattle.icu_segmenter.specs.Filled.{IsFilled, TakesFirst};
ghost use Rattle.yengatomu_segmenter.specs.Finders.{finder_of, marks_behind, places_behind, places_in};
ghost use Rattle.yengatomu_segmenter.specs.Near.{IsNearest};
ghost use Rattle.yengatomu_segmenter.specs.Words.{word_count};

use crate::buffers;
use crate::segmenter::{Segmenter, suppressing};
use icu_segmenter::cursor::{BoundaryCursor, CursorText, SegmenterOf};
use icu_segmenter::segments::{Source, Units};

// Asks the segmenter that is held, of whatever kind it is.
macro_rules! by_kind {
    ($segmenter:expr, $held:ident => $answer:expr) => {
        match $segmenter {
            Segmenter::Clusters(s) => {
                let $held = s.as_borrowed();
                $answer
            }
            Segmenter::Words(s) => {
                let $held = s.as_borrowed();
                $answer
            }
            Segmenter::Sentences(s, known) => match known.as_ref() {
                None => {
                    let $held = s.as_borrowed();
                    $answer
                }
                Some(a) => {
                    let $held = suppressing(s, a);
                    $answer
                }
            },
            Segmenter::Lines(s, _) => {
                let $held = s.as_borrowed();
                $answer
            }
        }
    };
}

/// What is left of a text from a place on: nothing where it is past the end.
pub fn rest_of<T: CursorText>(text: T, from: usize) -> T
    ensures rest { T.units result ≡ drop from (T.units text) }
    ensures fits { from + length (T.units result) < 2 ^ 64 }
{
    let (_, rest) = text.parts_at(from.min(text.len()));
    rest
}

/// Writes the first boundaries behind a place, as many as there is room for, and returns how many.
pub fn boundaries<I: Source>(
    segmenter: &Segmenter,
    text: I::Units,
    from: usize,
    places: &mut [usize],
) -> usize
where
    I::Units: CursorText,
    ensures { IsFilled (places_behind (finder_of segmenter.now) I.decode (I.Units.units text) from) places.old places.new result }
{
    let rest = rest_of(text, from);
    by_kind!(segmenter, held => {
        let found = SegmenterOf::<I>::breaks(&held, rest);
        buffers::fill(found, from, places)
    })
}

/// Writes the first boundaries behind a place with their marks, as many as both buffers have room for, and returns how many.
pub fn marked_boundaries<I: Source>(
    segmenter: &Segmenter,
    text: I::Units,
    from: usize,
    places: &mut [usize],
    marks: &mut [u8],
) -> usize
where
    I::Units: CursorText,
    ensures places { TakesFirst (min (length places.old) (length marks.old)) (places_behind (finder_of segmenter.now) I.decode (I.Units.units text) from) places.old places.new result }
    ensures marks { TakesFirst (min (length places.old) (length marks.old)) (marks_behind (finder_of segmenter.now) I.decode (I.Units.units text) from) marks.old marks.new result }
{
    let rest = rest_of(text, from);
    by_kind!(segmenter, held => {
        let found = SegmenterOf::<I>::breaks(&held, rest);
        buffers::fill_both(found, from, places, marks)
    })
}

/// How many segments the text has.
pub fn count<I: Source>(segmenter: &Segmenter, text: I::Units) -> usize
    ensures { result + 1 ≡ length (places_in (finder_of segmenter.now) I.decode (I.Units.units text)) }
{
    // So there are fewer units than 2 ^ 64.
    let _end = text.len();
    by_kind!(segmenter, held => buffers::count(SegmenterOf::<I>::breaks(&held, text)))
}

/// How many words the text has: none by other kinds.
pub fn count_words<I: Source>(segmenter: &Segmenter, text: I::Units) -> usize
    ensures { result ≡ word_count (finder_of segmenter.now) I.decode (I.Units.units text) }
{
    // So there are fewer units than 2 ^ 64.
    let _end = text.len();
    match segmenter {
        Segmenter::Words(s) => {
            buffers::count_words(SegmenterOf::<I>::breaks(&s.as_borrowed(), text))
        }
        Segmenter::Clusters(_) | Segmenter::Sentences(_, _) | Segmenter::Lines(_, _) => 0,
    }
}

/// The nearest boundary above a place.
pub fn next<T: CursorText>(segmenter: &Segmenter, text: T, place: usize) -> Option<usize>
    ensures nearest { IsNearestAbove (places_in (finder_of segmenter.now) T.Source.decode (T.units text)) place result }
{
    near(segmenter, text, place, true)
}

/// The nearest boundary below a place.
pub fn previous<T: CursorText>(segmenter: &Segmenter, text: T, place: usize) -> Option<usize>
    ensures nearest { IsNearestBelow (places_in (finder_of segmenter.now) T.Source.decode (T.units text)) place result }
{
    near(segmenter, text, place, false)
}

// The nearest above a place, or else the nearest below it.
fn near<T: CursorText>(
    segmenter: &Segmenter,
    text: T,
    place: usize,
    is_above: bool,
) -> Option<usize>
    ensures { IsNearest is_above (places_in (finder_of segmenter.now) T.Source.decode (T.units text)) place result }
{
    by_kind!(segmenter, held => near_by(held, text, place, is_above))
}

// That one by any kind of segmenter.
fn near_by<T: CursorText, S: SegmenterOf<T::Source>>(
    segmenter: S,
    text: T,
    place: usize,
    is_above: bool,
) -> Option<usize>
    ensures { IsNearest is_above (places_of_units T.Source.decode (S.find segmenter) (T.units text)) place result }
{
    let cursor = BoundaryCursor::over(segmenter, text);
    if is_above {
        cursor.next_boundary(place)
    } else {
        cursor.previous_boundary(place)
    }
}
