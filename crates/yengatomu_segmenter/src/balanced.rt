//! Balanced lines of the first paragraph behind a place.

ghost use Rattle.std.specs.Prelude.{◌+◌, ◌<◌, ◌^◌, IfOk, length, min};
ghost use Rattle.std.specs.List.{All};
ghost use Rattle.icu_segmenter.specs.Decoding.{utf8, utf16};
ghost use Rattle.icu_segmenter.specs.Filled.{TakesFirst};
ghost use Rattle.seg_wrap.specs.declared.wrap.wrapping.Span.{Span};
ghost use Rattle.yengatomu_segmenter.specs.Balanced.{IsParagraphBehind, span_ends, span_widths};
ghost use Rattle.yengatomu_segmenter.specs.Finders.{finder_of};

use crate::segmenter::Segmenter;
use crate::texts::rest_of;
use crate::wrapped::wrapper_of;
use icu_segmenter::wrap::{ParagraphStyle, Span};
use std::alloc::{AllocError, Global};

/// The lines of possibly ill-formed UTF-8, by where they begin and end behind the place. Other kinds have none. Fails only when out of memory.
pub fn lines(
    alloc: Global,
    segmenter: &Segmenter,
    text: &[u8],
    from: usize,
    columns: u32,
) -> Result<Vec<Span>, AllocError>
    ensures given { IfOk result (λ spans. IsParagraphBehind (finder_of segmenter.now) utf8 columns text.now from spans.items) }
    ensures within { IfOk result (λ spans. All (λ (span : Span). from + span.end < 2 ^ 64) spans.items) }
{
    match wrapper_of(segmenter) {
        Some(wrapper) => {
            let style = ParagraphStyle::balanced(columns as usize);
            let mut paragraphs = wrapper.paragraphs_utf8(rest_of(text, from), style);
            paragraphs.next_paragraph(alloc, None)
        }
        None => Ok(Vec::new(alloc)),
    }
}

/// The lines of possibly ill-formed UTF-16.
pub fn lines_utf16(
    alloc: Global,
    segmenter: &Segmenter,
    text: &[u16],
    from: usize,
    columns: u32,
) -> Result<Vec<Span>, AllocError>
    ensures given { IfOk result (λ spans. IsParagraphBehind (finder_of segmenter.now) utf16 columns text.now from spans.items) }
    ensures within { IfOk result (λ spans. All (λ (span : Span). from + span.end < 2 ^ 64) spans.items) }
{
    match wrapper_of(segmenter) {
        Some(wrapper) => {
            let style = ParagraphStyle::balanced(columns as usize);
            let mut paragraphs = wrapper.paragraphs_utf16(rest_of(text, from), style);
            paragraphs.next_paragraph(alloc, None)
        }
        None => Ok(Vec::new(alloc)),
    }
}

/// Writes where the first lines end and how wide they are, as many as both buffers have room for, and returns how many. A width is `usize::MAX` at
/// most.
pub fn put(spans: &[Span], from: usize, ends: &mut [usize], widths: &mut [usize]) -> usize
    requires { All (λ (span : Span). from + span.end < 2 ^ 64) spans.now }
    ensures ends { TakesFirst (min (length ends.old) (length widths.old)) (span_ends from spans.now) ends.old ends.new result }
    ensures widths { TakesFirst (min (length ends.old) (length widths.old)) (span_widths spans.now) widths.old widths.new result }
{
    let room = spans.len().min(ends.len().min(widths.len()));
    for index in 0..room {
        let span = &spans[index];
        ends[index] = from + span.end;
        widths[index] = span.columns.min(usize::MAX as u128) as usize;
    }
    room
}
