//! Where a cursor may begin to search a text: where a line begins, or where the code points around a place tell so.

ghost use Rattle.std.specs.Prelude.{◌≡◌, ◌⊎◌, ◌≤◌, IfSome, IsTrue, length};
ghost use Rattle.seg_clusters.specs.Certain.{AlwaysBreaks, BeginsBetween};
ghost use Rattle.seg_segments.specs.NearBoundaries.{IsTold, MayBegin};
ghost use Rattle.seg_segments.specs.TextSegments.{IsPlace};

use crate::cursor::line_starts::line_start;
use crate::cursor::{BoundaryFinder, CursorText};
use crate::segments::Source;
use seg_text::cursor::Cursor;

// How many units before the place are looked at first. Each time none is found there, twice as many are.
pub(super) const NEAR: usize = 64;

/// Where a search begins.
#[derive(Clone, Copy)]
pub(super) struct Start {
    /// The place.
    pub(super) place: usize,
    /// Whether it is known that a boundary stands there.
    pub(super) is_boundary: bool,
}

/// A place up to another one where a search may begin: not far before it, if one is known there, and else the start.
pub(super) fn start_before<T: CursorText, S: BoundaryFinder>(
    segmenter: &S,
    text: T,
    has_parts: bool,
    place: usize,
) -> Start
    requires { place ≤ length (T.units text) }
    ensures order { result.place ≤ place }
    ensures begins { MayBegin T.Source.decode (S.find segmenter.now) has_parts (T.units text) result }
{
    let knows_some = has_parts || segmenter.has_certain_places() || segmenter.has_beginnings();
    let mut least = place.saturating_sub(NEAR);
    while least > 0 && knows_some {
        if let Some(start) = start_in(segmenter, text, has_parts, least, place) {
            return start;
        }
        least = least.saturating_sub(place - least);
    }
    start_in(segmenter, text, has_parts, 0, place).unwrap_or(Start {
        place: 0,
        is_boundary: true,
    })
}

/// Such a place from another one on, if one is known there.
fn start_in<T: CursorText, S: BoundaryFinder>(
    segmenter: &S,
    text: T,
    has_parts: bool,
    least: usize,
    place: usize,
) -> Option<Start>
    requires { place ≤ length (T.units text) }
    ensures order { IfSome result (λ start. start.place ≤ place) }
    ensures begins { IfSome result (MayBegin T.Source.decode (S.find segmenter.now) has_parts (T.units text)) }
{
    let line = if has_parts {
        line_start(text, least, place)
    } else {
        None
    };
    let from = item_start(text, line.unwrap_or(least).min(place));
    if let Some(start) = told_start(segmenter, text, from, place) {
        return Some(start);
    }
    let place = line?;
    Some(Start {
        place,
        is_boundary: true,
    })
}

/// The place of an item at or before another place: the nearest that its first unit tells, or the start.
pub(super) fn item_start<T: CursorText>(text: T, place: usize) -> usize
    requires { place ≤ length (T.units text) }
    ensures { (result ≡ 0) ⊎ IsPlace (T.Source.decode (T.units text)) result }
{
    let mut start = place;
    while start > 0 && (start == text.len() || !text.begins_item(start)) {
        start -= 1;
    }
    start
}

/// The last place up to another one where a search may begin, as the items tell that stand from one of them on, if there is one.
fn told_start<T: CursorText, S: BoundaryFinder>(
    segmenter: &S,
    text: T,
    from: usize,
    place: usize,
) -> Option<Start>
    requires { (from ≡ 0) ⊎ IsPlace (T.Source.decode (T.units text)) from }
    ensures order { IfSome result (λ start. start.place ≤ place) }
    ensures told { IfSome result (IsTold T.Source.decode (S.find segmenter.now) (T.units text)) }
{
    let is_boundary = segmenter.has_certain_places();
    if !is_boundary && !segmenter.has_beginnings() {
        return None;
    }
    let mut items = T::Source::of(text);
    items.seek(from);
    let (_, mut before) = items.next_item()?;
    let (_, mut one) = items.next_item()?;
    let mut found = None;
    while let Some((at, other)) = items.next_item() {
        if at > place {
            break;
        }
        if may_begin(segmenter, is_boundary, before, one, other) {
            found = Some(Start {
                place: at,
                is_boundary,
            });
        }
        before = one;
        one = other;
    }
    found
}

/// Whether a search may begin with the last of three code points: at a boundary, or where it isn't said whether one stands there.
fn may_begin<S: BoundaryFinder>(
    segmenter: &S,
    is_boundary: bool,
    before: u32,
    one: u32,
    other: u32,
) -> bool
    ensures breaks { IsTrue is_boundary → IsTrue result → AlwaysBreaks (S.find segmenter.now) before one other }
    ensures begins { IsTrue result → BeginsBetween (S.find segmenter.now) before one other }
{
    if is_boundary {
        segmenter.always_breaks(before, one, other)
    } else {
        segmenter.always_begins(before, one, other)
    }
}
