//! Where a text that comes part by part may be split before the rest of it has come.

ghost use Rattle.std.specs.Prelude.{◌≤◌, IfSome, length};
ghost use Rattle.seg_text.specs.Decoding.{utf8};
ghost use Rattle.seg_segments.specs.NearBoundaries.{SplitsAt, boundaries_of_units};

use crate::cursor::certain::{NEAR, item_start};
use crate::cursor::{BoundaryFinder, SegmenterOf};
use seg_text::cursor::Cursor;
use seg_text::indices::Utf8CharIndices;

/// The last place in the beginning of a text, possibly ill-formed UTF-8, where the text may be split whatever comes behind these bytes, as far
/// as certain places tell: what stands from `least` on is looked at, from the end. None where no place there is certain, and by segmenters
/// that know none (`BoundaryFinder::has_certain_places`). Takes no memory.
pub fn last_split<'s, S: SegmenterOf<Utf8CharIndices<'s>>>(
    segmenter: &S,
    bytes: &'s [u8],
    least: usize,
) -> Option<usize>
    ensures within { IfSome result (λ place. place ≤ length bytes.now) }
    ensures splits { IfSome result (SplitsAt (boundaries_of_units utf8 (S.find segmenter.now)) bytes.now) }
{
    if !segmenter.has_certain_places() {
        return None;
    }
    let mut from = bytes.len().saturating_sub(NEAR);
    while from > least {
        if let Some(place) = split_from(segmenter, bytes, from) {
            return Some(place);
        }
        from = from.saturating_sub(bytes.len() - from);
    }
    split_from(segmenter, bytes, least.min(bytes.len()))
}

/// The last such place that the items tell that stand from a place on.
fn split_from<'s, S: SegmenterOf<Utf8CharIndices<'s>>>(
    segmenter: &S,
    bytes: &'s [u8],
    from: usize,
) -> Option<usize>
    requires { from ≤ length bytes.now }
    ensures within { IfSome result (λ place. place ≤ length bytes.now) }
    ensures splits { IfSome result (SplitsAt (boundaries_of_units utf8 (S.find segmenter.now)) bytes.now) }
{
    let mut items = Utf8CharIndices::new(bytes);
    items.seek(item_start(bytes, from));
    let (_, mut before) = items.next_item()?;
    let (_, mut one) = items.next_item()?;
    let (mut at, mut other) = items.next_item()?;
    let mut found = None;
    // What begins before another item stays as it is, whatever comes behind the bytes.
    while let Some((end, next)) = items.next_item() {
        if segmenter.always_breaks(before, one, other) {
            found = Some((at, end));
        }
        before = one;
        one = other;
        other = next;
        at = end;
    }
    let (place, end) = found?;
    segmenter.cover(&bytes[..end]);
    segmenter.cover(&bytes[place..]);
    Some(place)
}
