//! The parts of a text, which are to be all of it, one after the other: segments, as each iterator of them gives them, and wrapped lines.

ghost use Rattle.std.specs.Prelude.{◌≡◌, length};
ghost use Rattle.seg_text.specs.Boundaries.{boundaries_in, IsCover};

use crate::failure::{Failure, check};
use bench::segmenter::{AnySegmenterBorrowed, Text};
use icu_segmenter::cursor::SegmenterOf;
use icu_segmenter::indices::{Latin1Indices, StrCharIndices, Utf8CharIndices, Utf16Indices};
use icu_segmenter::segments::{BreakIterator, Source, Units};
use icu_segmenter::wrap::{LineWrapper, WrapIterator, WrapUtf8Iterator};
use icu_segmenter::{
    GraphemeClusterSegmenterBorrowed, LineSegmenterBorrowed, SentenceSegmenterBorrowed,
    WordSegmenterBorrowed,
};

/// What has parts, one after the other.
pub trait Whole: Units {
    /// How many units it has.
    fn size(self) -> usize;

    /// What is left behind a part that it begins with.
    fn behind(self, part: Self) -> Option<Self>;
}

impl<'s> Whole for &'s str {
    fn size(self) -> usize {
        self.len()
    }

    fn behind(self, part: Self) -> Option<Self> {
        self.strip_prefix(part)
    }
}

impl<'s> Whole for &'s [u8] {
    fn size(self) -> usize {
        self.len()
    }

    fn behind(self, part: Self) -> Option<Self> {
        self.strip_prefix(part)
    }
}

impl<'s> Whole for &'s [u16] {
    fn size(self) -> usize {
        self.len()
    }

    fn behind(self, part: Self) -> Option<Self> {
        self.strip_prefix(part)
    }
}

// What a part leaves of what it begins, unless it is empty.
fn rest_behind<U: Whole>(part: U, rest: Option<U>) -> Option<U> {
    if part.size() == 0 {
        return None;
    }
    rest?.behind(part)
}

// What a part leaves of what it begins, where it is to stand at a place of the whole.
fn rest_from<U: Whole>(whole: U, place: usize, part: U, rest: Option<U>) -> Option<U> {
    let rest = rest?;
    if whole.size().saturating_sub(rest.size()) != place {
        return None;
    }
    rest_behind(part, Some(rest))
}

// Whether there is a rest, which has nothing.
fn is_empty<U: Whole>(rest: Option<U>) -> bool {
    match rest {
        Some(rest) => rest.size() == 0,
        None => false,
    }
}

// Whether the segments are the text: alone, with their places, or with their marks too.
fn has_parts<B: BreakIterator>(manner: u8, breaks: B) -> bool
where
    B::Units: Whole,
    requires found { B.left breaks ≡ boundaries_in (B.find breaks) (B.decode (B.whole breaks)) }
    requires cover { IsCover 0 (length (B.whole breaks)) (B.left breaks) }
{
    match manner {
        0 => has_segments(breaks),
        1 => has_indices(breaks),
        _ => has_marked_segments(breaks),
    }
}

fn has_segments<B: BreakIterator>(breaks: B) -> bool
where
    B::Units: Whole,
    requires found { B.left breaks ≡ boundaries_in (B.find breaks) (B.decode (B.whole breaks)) }
    requires cover { IsCover 0 (length (B.whole breaks)) (B.left breaks) }
{
    let mut rest = Some(breaks.text());
    for segment in breaks.segments() {
        rest = rest_behind(segment, rest);
    }
    is_empty(rest)
}

fn has_indices<B: BreakIterator>(breaks: B) -> bool
where
    B::Units: Whole,
    requires found { B.left breaks ≡ boundaries_in (B.find breaks) (B.decode (B.whole breaks)) }
    requires cover { IsCover 0 (length (B.whole breaks)) (B.left breaks) }
{
    let whole = breaks.text();
    let mut rest = Some(whole);
    for (place, segment) in breaks.segment_indices() {
        rest = rest_from(whole, place, segment, rest);
    }
    is_empty(rest)
}

fn has_marked_segments<B: BreakIterator>(breaks: B) -> bool
where
    B::Units: Whole,
    requires found { B.left breaks ≡ boundaries_in (B.find breaks) (B.decode (B.whole breaks)) }
    requires cover { IsCover 0 (length (B.whole breaks)) (B.left breaks) }
{
    let whole = breaks.text();
    let mut rest = Some(whole);
    for (place, segment, _) in breaks.marked_segments() {
        rest = rest_from(whole, place, segment, rest);
    }
    is_empty(rest)
}

/// The segments of a text are to be its parts, as each iterator of segments gives them, by number.
pub fn check_segments(
    manner: u8,
    segmenter: AnySegmenterBorrowed<'_>,
    text: Text<'_>,
) -> Result<(), Failure> {
    let has_parts = match text {
        Text::Str(text) => has_parts_by::<StrCharIndices<'_>>(manner, segmenter, text),
        Text::Utf8(text) => has_parts_by::<Utf8CharIndices<'_>>(manner, segmenter, text),
        Text::Latin1(text) => has_parts_by::<Latin1Indices<'_>>(manner, segmenter, text),
        Text::Utf16(text) => has_parts_by::<Utf16Indices<'_>>(manner, segmenter, text),
    };
    check(has_parts, "segments that aren't the text")
}

fn has_parts_by<I: Source>(manner: u8, segmenter: AnySegmenterBorrowed<'_>, text: I::Units) -> bool
where
    I::Units: Whole,
{
    match segmenter {
        AnySegmenterBorrowed::Clusters(clusters) => has_clusters::<I>(manner, clusters, text),
        AnySegmenterBorrowed::Sentences(sentences) => has_sentences::<I>(manner, sentences, text),
        AnySegmenterBorrowed::Words(words) => has_words::<I>(manner, words, text),
        AnySegmenterBorrowed::Lines(lines) => has_lines::<I>(manner, lines, text),
    }
}

// A function for each kind, and one for all encodings: so the proof is short.
fn has_clusters<I: Source>(
    manner: u8,
    clusters: GraphemeClusterSegmenterBorrowed<'_>,
    text: I::Units,
) -> bool
where
    I::Units: Whole,
{
    has_parts(manner, SegmenterOf::<I>::breaks(&clusters, text))
}

fn has_sentences<I: Source>(
    manner: u8,
    sentences: SentenceSegmenterBorrowed<'_>,
    text: I::Units,
) -> bool
where
    I::Units: Whole,
{
    has_parts(manner, SegmenterOf::<I>::breaks(&sentences, text))
}

fn has_words<I: Source>(manner: u8, words: WordSegmenterBorrowed<'_>, text: I::Units) -> bool
where
    I::Units: Whole,
{
    has_parts(manner, SegmenterOf::<I>::breaks(&words, text))
}

fn has_lines<I: Source>(manner: u8, lines: LineSegmenterBorrowed<'_>, text: I::Units) -> bool
where
    I::Units: Whole,
{
    has_parts(manner, SegmenterOf::<I>::breaks(&lines, text))
}

/// Wrapped lines are to be the text, where lines are by a machine.
pub fn check_wrapped(
    segmenter: AnySegmenterBorrowed<'_>,
    text: Text<'_>,
    columns: usize,
) -> Result<(), Failure> {
    let has_lines = match segmenter {
        AnySegmenterBorrowed::Lines(lines) => has_wrapped(lines, text, columns),
        _ => true,
    };
    check(has_lines, "wrapped lines that aren't the text")
}

fn has_wrapped(lines: LineSegmenterBorrowed<'_>, text: Text<'_>, columns: usize) -> bool {
    match (LineWrapper::new(lines), text) {
        (Ok(wrapper), Text::Str(text)) => has_wrapped_lines(wrapper, text, columns),
        (Ok(wrapper), Text::Utf8(bytes)) => has_wrapped_utf8(wrapper, bytes, columns),
        _ => true,
    }
}

fn has_wrapped_lines(wrapper: LineWrapper<'_>, text: &str, columns: usize) -> bool {
    are_lines(&mut wrapper.wrap_str(text, columns), text)
}

fn are_lines(lines: &mut WrapIterator<'_, '_>, text: &str) -> bool {
    let mut rest = Some(text);
    for _turn in 0..u64::MAX {
        let Some(line) = lines.next() else {
            break;
        };
        rest = rest_behind(line.text(), rest);
    }
    is_empty(rest)
}

fn has_wrapped_utf8(wrapper: LineWrapper<'_>, bytes: &[u8], columns: usize) -> bool {
    are_utf8_lines(&mut wrapper.wrap_utf8(bytes, columns), bytes)
}

fn are_utf8_lines(lines: &mut WrapUtf8Iterator<'_, '_>, bytes: &[u8]) -> bool {
    let mut rest = Some(bytes);
    for _turn in 0..u64::MAX {
        let Some(line) = lines.next() else {
            break;
        };
        rest = rest_behind(line.bytes(), rest);
    }
    is_empty(rest)
}
