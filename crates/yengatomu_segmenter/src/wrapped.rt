//! Where wrapped lines end, and how wide they are.

ghost use Rattle.std.specs.Prelude.{◌≡◌, ◌+◌, ◌<◌, ◌^◌, ℕ, List, [], MatchOption, drop, length, min};
ghost use Rattle.icu_segmenter.specs.Decoding.{utf8, utf16};
ghost use Rattle.icu_segmenter.specs.Items.{Text};
ghost use Rattle.icu_segmenter.specs.Wrapping.{TextLine};
ghost use Rattle.icu_segmenter.specs.WrappedLines.{joined_units, utf16_lines_to_come, utf8_lines_to_come, wrapped_units, wrapper_measure, wrapper_rules};
ghost use Rattle.icu_segmenter.specs.Filled.{IsFilled, TakesFirst};
ghost use Rattle.seg_wrap.specs.declared.wrap.wrapping.Span.{Span};
ghost use Rattle.yengatomu_segmenter.specs.Balanced.{GivesFirst, IsParagraphBehind};
ghost use Rattle.yengatomu_segmenter.specs.Finders.{finder_of};
ghost use Rattle.yengatomu_segmenter.specs.Wrapped.{GivesLine, ends_from, widths_of, wrapped_behind};

use crate::segmenter::Segmenter;
use crate::texts::rest_of;
use icu_segmenter::wrap::{LineWrapper, WrapUtf8Iterator, WrapUtf16Iterator};

/// Lines that a text is wrapped to, in any encoding.
pub trait WrappedLines: Drop {
    /// The lines that are still to come.
    ghost left: { Self → List TextLine };

    /// How many units and how many columns the next line has. None at the end, and from then on.
    fn next_line(&mut self) -> Option<(usize, u128)>
        ensures { GivesLine (left self.old) result (left self.new) };
}

impl<'data, 's> WrappedLines for WrapUtf8Iterator<'data, 's> {
    ghost left = { utf8_lines_to_come };

    fn next_line(&mut self) -> Option<(usize, u128)> {
        let line = self.next()?;
        Some((line.bytes().len(), line.columns()))
    }
}

impl<'data, 's> WrappedLines for WrapUtf16Iterator<'data, 's> {
    ghost left = { utf16_lines_to_come };

    fn next_line(&mut self) -> Option<(usize, u128)> {
        let line = self.next()?;
        Some((line.units().len(), line.columns()))
    }
}

/// Writes where the first lines behind a place end, as many as there is room for, and returns how many.
pub fn ends(
    segmenter: &Segmenter,
    text: &[u8],
    from: usize,
    columns: usize,
    ends: &mut [usize],
) -> usize
    ensures { IsFilled (ends_from from (wrapped_behind (finder_of segmenter.now) utf8 columns text.now from)) ends.old ends.new result }
{
    match wrapper_of(segmenter) {
        Some(wrapper) => fill(wrapper.wrap_utf8(rest_of(text, from), columns), from, ends),
        None => 0,
    }
}

/// Writes where the first lines behind a place end and how wide they are, as many as both buffers have room for, and returns how many.
pub fn ends_and_widths(
    segmenter: &Segmenter,
    text: &[u8],
    from: usize,
    columns: usize,
    ends: &mut [usize],
    widths: &mut [usize],
) -> usize
    ensures lines { TakesFirst (min (length ends.old) (length widths.old)) (ends_from from (wrapped_behind (finder_of segmenter.now) utf8 columns text.now from)) ends.old ends.new result }
    ensures widths { TakesFirst (min (length ends.old) (length widths.old)) (widths_of (wrapped_behind (finder_of segmenter.now) utf8 columns text.now from)) widths.old widths.new result }
{
    match wrapper_of(segmenter) {
        Some(wrapper) => {
            let lines = wrapper.wrap_utf8(rest_of(text, from), columns);
            fill_both(lines, from, ends, widths)
        }
        None => 0,
    }
}

/// Writes where the first lines of UTF-16 behind a place end, as many as there is room for, and returns how many.
pub fn ends_utf16(
    segmenter: &Segmenter,
    text: &[u16],
    from: usize,
    columns: usize,
    ends: &mut [usize],
) -> usize
    ensures { IsFilled (ends_from from (wrapped_behind (finder_of segmenter.now) utf16 columns text.now from)) ends.old ends.new result }
{
    match wrapper_of(segmenter) {
        Some(wrapper) => fill(wrapper.wrap_utf16(rest_of(text, from), columns), from, ends),
        None => 0,
    }
}

/// Writes where the first lines of UTF-16 behind a place end and how wide they are, as many as both buffers have room for, and returns how many.
pub fn ends_and_widths_utf16(
    segmenter: &Segmenter,
    text: &[u16],
    from: usize,
    columns: usize,
    ends: &mut [usize],
    widths: &mut [usize],
) -> usize
    ensures lines { TakesFirst (min (length ends.old) (length widths.old)) (ends_from from (wrapped_behind (finder_of segmenter.now) utf16 columns text.now from)) ends.old ends.new result }
    ensures widths { TakesFirst (min (length ends.old) (length widths.old)) (widths_of (wrapped_behind (finder_of segmenter.now) utf16 columns text.now from)) widths.old widths.new result }
{
    match wrapper_of(segmenter) {
        Some(wrapper) => {
            let lines = wrapper.wrap_utf16(rest_of(text, from), columns);
            fill_both(lines, from, ends, widths)
        }
        None => 0,
    }
}

/// The wrapper by a segmenter of lines, if it is one by a machine. It counts columns as the segmenter says.
pub fn wrapper_of(segmenter: &Segmenter) -> Option<LineWrapper<'_>>
    ensures lines { MatchOption result ((decode : List ℕ → Text) (columns : ℕ) (units : List ℕ) (from : ℕ) → wrapped_behind (finder_of segmenter.now) decode columns units from ≡ [])
        (λ wrapper. (decode : List ℕ → Text) (columns : ℕ) (units : List ℕ) (from : ℕ) → wrapped_behind (finder_of segmenter.now) decode columns units from ≡ wrapped_units decode (wrapper_measure wrapper) (wrapper_rules wrapper) columns (drop from units)) }
    ensures paragraphs { MatchOption result ((decode : List ℕ → Text) (columns : ℕ) (units : List ℕ) (from : ℕ) → IsParagraphBehind (finder_of segmenter.now) decode columns units from [])
        (λ wrapper. (decode : List ℕ → Text) (columns : ℕ) (units : List ℕ) (from : ℕ) (spans : List Span)
        → GivesFirst decode (wrapper_measure wrapper) (wrapper_rules wrapper) columns (drop from units) spans
        → IsParagraphBehind (finder_of segmenter.now) decode columns units from spans) }
{
    match segmenter {
        Segmenter::Lines(lines, None) => LineWrapper::new(lines.as_borrowed()).ok(),
        Segmenter::Lines(lines, Some(clusters)) => {
            let wrapper = LineWrapper::new(lines.as_borrowed()).ok()?;
            Some(wrapper.by_cluster(clusters.as_borrowed()))
        }
        Segmenter::Clusters(_) | Segmenter::Words(_) | Segmenter::Sentences(_, _) => None,
    }
}

/// Writes where the first lines end, as many as there is room for, and returns how many.
pub fn fill<L: WrappedLines>(lines: L, from: usize, ends: &mut [usize]) -> usize
    requires { from + length (joined_units (L.left lines)) < 2 ^ 64 }
    ensures { IsFilled (ends_from from (L.left lines)) ends.old ends.new result }
{
    let mut lines = lines;
    let mut end = from;
    for index in 0..ends.len() {
        match lines.next_line() {
            Some((units, _)) => {
                end += units;
                ends[index] = end;
            }
            None => return index,
        }
    }
    ends.len()
}

/// Writes the ends of lines as `fill` does, with how wide they are, as many as both buffers have room for.
pub fn fill_both<L: WrappedLines>(
    lines: L,
    from: usize,
    ends: &mut [usize],
    widths: &mut [usize],
) -> usize
    requires { from + length (joined_units (L.left lines)) < 2 ^ 64 }
    ensures lines { TakesFirst (min (length ends.old) (length widths.old)) (ends_from from (L.left lines)) ends.old ends.new result }
    ensures widths { TakesFirst (min (length ends.old) (length widths.old)) (widths_of (L.left lines)) widths.old widths.new result }
{
    let mut lines = lines;
    let mut end = from;
    let room = ends.len().min(widths.len());
    for index in 0..room {
        match lines.next_line() {
            Some((units, columns)) => {
                end += units;
                ends[index] = end;
                widths[index] = columns.min(usize::MAX as u128) as usize;
            }
            None => return index,
        }
    }
    room
}
