//! Laws of the boundaries that a segmenter gives. They do nothing.

ghost use Rattle.std.specs.Prelude.{◌≡◌, length, take};
ghost use Rattle.icu_segmenter.specs.Boundaries.{IsCover, boundaries_in};
ghost use Rattle.icu_segmenter.specs.Decoding.{latin1, utf8, utf16};
ghost use Rattle.icu_segmenter.specs.NearBoundaries.{BeginsLine};
ghost use Rattle.icu_segmenter.specs.Rules.{PartsTexts};
ghost use Rattle.yengatomu_segmenter.specs.Finders.{GoesOnAt, LineFeedsReset, find_by, finder_of};

use crate::segmenter::{Segmenter, suppressing};
use icu_segmenter::cursor::SegmenterOf;
use icu_segmenter::indices::{Latin1Indices, Utf8CharIndices, Utf16Indices};
use icu_segmenter::laws;
use icu_segmenter::segments::Source;
use icu_segmenter::suppress::laws::parts_behind_line_feeds;

/// Law: where line feeds reset, the boundaries of a text may go on from wherever a line begins.
pub fn goes_on(segmenter: &Segmenter, text: &[u8], from: usize)
    ensures { LineFeedsReset (finder_of segmenter.now) → BeginsLine text.now from → GoesOnAt (finder_of segmenter.now) utf8 text.now from }
{
    parts(segmenter);
    cover::<Utf8CharIndices<'_>>(segmenter, text);
    cover::<Utf8CharIndices<'_>>(segmenter, front_of(text, from));
}

/// Law: so they may in UTF-16.
pub fn goes_on_utf16(segmenter: &Segmenter, text: &[u16], from: usize)
    ensures { LineFeedsReset (finder_of segmenter.now) → BeginsLine text.now from → GoesOnAt (finder_of segmenter.now) utf16 text.now from }
{
    parts(segmenter);
    cover::<Utf16Indices<'_>>(segmenter, text);
    cover::<Utf16Indices<'_>>(segmenter, front_of(text, from));
}

/// Law: so they may in Latin-1.
pub fn goes_on_latin1(segmenter: &Segmenter, text: &[u8], from: usize)
    ensures { LineFeedsReset (finder_of segmenter.now) → BeginsLine text.now from → GoesOnAt (finder_of segmenter.now) latin1 text.now from }
{
    parts(segmenter);
    cover::<Latin1Indices<'_>>(segmenter, text);
    cover::<Latin1Indices<'_>>(segmenter, front_of(text, from));
}

// Law: where line feeds reset, texts may be split after them.
fn parts(segmenter: &Segmenter)
    ensures { LineFeedsReset (finder_of segmenter.now) → PartsTexts (find_by (finder_of segmenter.now)) 0x0A }
{
    match segmenter {
        Segmenter::Clusters(s) => laws::grapheme::parts_behind_resets(s.as_borrowed(), '\n'),
        Segmenter::Words(s) => laws::word::parts_behind_resets(s.as_borrowed(), '\n'),
        Segmenter::Sentences(s, known) => match known.as_ref() {
            None => laws::sentence::parts_behind_resets(s.as_borrowed(), '\n'),
            Some(a) => parts_behind_line_feeds(a, s.as_borrowed()),
        },
        Segmenter::Lines(s, _) => laws::line::parts_behind_resets(s.as_borrowed(), '\n'),
    }
}

// Law: the first boundary is at the start, and the last at the end.
fn cover<I: Source>(segmenter: &Segmenter, text: I::Units)
    ensures { IsCover 0 (length (I.Units.units text)) (boundaries_in (find_by (finder_of segmenter.now)) (I.decode (I.Units.units text))) }
{
    let items = I::of(text);
    match segmenter {
        Segmenter::Clusters(s) => {
            let _ = s.as_borrowed().segment(items);
        }
        Segmenter::Words(s) => {
            let _ = s.as_borrowed().segment(items);
        }
        Segmenter::Sentences(s, known) => match known.as_ref() {
            None => {
                let _ = s.as_borrowed().segment(items);
            }
            Some(a) => SegmenterOf::<I>::cover(&suppressing(s, a), text),
        },
        Segmenter::Lines(s, _) => {
            let _ = s.as_borrowed().segment(items);
        }
    }
}

// The first units, or all where there are fewer.
fn front_of<T>(units: &[T], count: usize) -> &[T]
    ensures { result.now ≡ take count units.now }
{
    match units.get(..count) {
        Some(front) => front,
        None => units,
    }
}
