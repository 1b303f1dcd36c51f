//! Certain places: where three characters of a text say that it breaks, it does.

use crate::failure::{Failure, check};
use crate::near::neighbours;
use bench::found::Found;
use bench::segmenter::AnySegmenterBorrowed;
use icu_segmenter::cursor::BoundaryFinder;

/// Between the last two of three characters that always break there, as a segmenter says, a text is to have a boundary. Gives how many such
/// places it has.
pub fn check_certain(
    segmenter: AnySegmenterBorrowed<'_>,
    text: &str,
    found: &Found,
) -> Result<u64, Failure> {
    let mut count: u64 = 0;
    let (mut before, mut one) = (None, None);
    for (place, other) in text.char_indices() {
        if always_breaks(segmenter, before, one, other) {
            check(
                neighbours(found.as_slice(), place).is_there,
                "a certain place that is no boundary",
            )?;
            count = count.saturating_add(1);
        }
        before = one;
        one = Some(other);
    }
    Ok(count)
}

// Whether a segmenter says so; not where fewer characters stand before.
fn always_breaks(
    segmenter: AnySegmenterBorrowed<'_>,
    before: Option<char>,
    one: Option<char>,
    other: char,
) -> bool {
    let (Some(before), Some(one)) = (before, one) else {
        return false;
    };
    match segmenter {
        AnySegmenterBorrowed::Clusters(clusters) => breaks_by(clusters, before, one, other),
        AnySegmenterBorrowed::Sentences(sentences) => breaks_by(sentences, before, one, other),
        AnySegmenterBorrowed::Words(words) => breaks_by(words, before, one, other),
        AnySegmenterBorrowed::Lines(lines) => breaks_by(lines, before, one, other),
    }
}

fn breaks_by<S: BoundaryFinder>(segmenter: S, before: char, one: char, other: char) -> bool {
    segmenter.has_certain_places()
        && segmenter.always_breaks(before as u32, one as u32, other as u32)
}
