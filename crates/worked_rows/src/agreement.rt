//! The boundaries of texts in all encodings, counted in code points.

use crate::data::both;
use bench::found::{Found, shown};
use bench::segmenter::{AnySegmenterBorrowed, Text};
use icu_segmenter::GraphemeClusterSegmenterBorrowed;
use icu_segmenter::indices::{Utf8CharIndices, Utf16Indices};
use std::alloc::{AllocError, Global};

/// The boundaries of a text as rows have them; of a `str`, where those in the other encodings are at equal ordinals.
pub fn boundaries_in_all(
    alloc: Global,
    segmenter: AnySegmenterBorrowed<'_>,
    text: Text<'_>,
) -> Result<String, AllocError> {
    let found = segmenter.boundaries(alloc, text)?;
    match text {
        Text::Str(text) if !agrees(alloc, segmenter, text, found.as_slice())? => {
            "other boundaries in another encoding".to_owned(alloc)
        }
        _ => shown(alloc, found.as_slice()),
    }
}

/// Whether the boundaries of a text are at equal ordinals in the encodings that have it.
pub fn agrees_in_all(
    alloc: Global,
    segmenter: AnySegmenterBorrowed<'_>,
    text: &str,
) -> Result<bool, AllocError> {
    let found = segmenter.boundaries(alloc, Text::Str(text))?;
    agrees(alloc, segmenter, text, found.as_slice())
}

/// Whether two segmenters find the same clusters.
pub fn has_same_clusters(
    alloc: Global,
    one: GraphemeClusterSegmenterBorrowed<'_>,
    other: GraphemeClusterSegmenterBorrowed<'_>,
    text: &str,
) -> Result<bool, AllocError> {
    let (found, expected) = both(
        AnySegmenterBorrowed::Clusters(one).boundaries(alloc, Text::Str(text)),
        AnySegmenterBorrowed::Clusters(other).boundaries(alloc, Text::Str(text)),
    )?;
    Ok(found.as_slice() == expected.as_slice())
}

// Whether boundaries of a text, which are those in `str`, are at equal ordinals in the encodings that have it.
fn agrees(
    alloc: Global,
    segmenter: AnySegmenterBorrowed<'_>,
    text: &str,
    found: &[(usize, char)],
) -> Result<bool, AllocError> {
    let expected = ordinals_in_bytes(alloc, text.as_bytes(), found)?;
    Ok(
        agrees_in_utf8(alloc, segmenter, text.as_bytes(), found)?
            && agrees_in_utf16(alloc, segmenter, text, expected.as_slice())?
            && agrees_in_latin1(alloc, segmenter, text, expected.as_slice())?,
    )
}

// The ordinals of boundaries, in code points.
fn ordinals_in_bytes(
    alloc: Global,
    bytes: &[u8],
    found: &[(usize, char)],
) -> Result<Found, AllocError> {
    let places: Vec<usize> = Utf8CharIndices::new(bytes)
        .map(|item| item.0)
        .collect(alloc)?;
    ordinals(alloc, found, places.as_slice())
}

fn agrees_in_utf8(
    alloc: Global,
    segmenter: AnySegmenterBorrowed<'_>,
    bytes: &[u8],
    expected: &[(usize, char)],
) -> Result<bool, AllocError> {
    let found = segmenter.boundaries(alloc, Text::Utf8(bytes))?;
    Ok(found.as_slice() == expected)
}

fn agrees_in_utf16(
    alloc: Global,
    segmenter: AnySegmenterBorrowed<'_>,
    text: &str,
    expected: &[(usize, char)],
) -> Result<bool, AllocError> {
    let units: Vec<u16> = text.encode_utf16().collect(alloc)?;
    let found = ordinals_in_units(alloc, segmenter, units.as_slice())?;
    Ok(found.as_slice() == expected)
}

fn ordinals_in_units(
    alloc: Global,
    segmenter: AnySegmenterBorrowed<'_>,
    units: &[u16],
) -> Result<Found, AllocError> {
    let places: Vec<usize> = Utf16Indices::new(units).map(|item| item.0).collect(alloc)?;
    let found = segmenter.boundaries(alloc, Text::Utf16(units))?;
    ordinals(alloc, found.as_slice(), places.as_slice())
}

// True also where Latin-1 hasn't the text.
fn agrees_in_latin1(
    alloc: Global,
    segmenter: AnySegmenterBorrowed<'_>,
    text: &str,
    expected: &[(usize, char)],
) -> Result<bool, AllocError> {
    let mut bytes = Vec::new(alloc);
    if !push_latin1(text, &mut bytes)? {
        return Ok(true);
    }
    let found = segmenter.boundaries(alloc, Text::Latin1(bytes.as_slice()))?;
    Ok(found.as_slice() == expected)
}

// Adds a text in Latin-1, unless that hasn't all its characters, and returns whether it has.
fn push_latin1(text: &str, bytes: &mut Vec<u8>) -> Result<bool, AllocError> {
    for character in text.chars() {
        let Ok(byte) = u8::try_from(character as u32) else {
            return Ok(false);
        };
        bytes.push(byte)?;
    }
    Ok(true)
}

// The ordinals of boundaries, in code points, where the items have these places.
fn ordinals(
    alloc: Global,
    boundaries: &[(usize, char)],
    items: &[usize],
) -> Result<Found, AllocError> {
    let mut found = Vec::new(alloc);
    for (boundary, mark) in boundaries {
        let ordinal = items.iter().filter(|place| **place < *boundary).count();
        found.push((ordinal, *mark))?;
    }
    Ok(found)
}

// The code points of short texts.
const CODE_POINTS: [char; 10] = [
    'a',
    '\r',
    '\n',
    ' ',
    '\u{301}',
    '\u{E01}',
    '\u{E34}',
    '\u{4E00}',
    '\u{20000}',
    '\u{FFFD}',
];

/// How many texts there are of at most three of ten code points.
pub const SHORT_TEXTS: usize = 1111;

/// The text of this number: the shorter ones come first.
pub fn short_text(alloc: Global, number: usize) -> Result<String, AllocError> {
    let mut text = String::new(alloc);
    let mut left = number;
    for _ in 0..3 {
        if left == 0 {
            break;
        }
        left -= 1;
        text.push(CODE_POINTS[left % 10])?;
        left /= 10;
    }
    Ok(text)
}
