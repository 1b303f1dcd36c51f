//! Where the lines of a text begin, for cursors that start at one.

ghost use Rattle.std.specs.Prelude.{◌≤◌, IfSome, length};
ghost use Rattle.seg_segments.specs.NearBoundaries.{BeginsLine};

use crate::cursor::CursorText;

/// The greatest place behind one and up to another where a line begins, if one does.
pub(super) fn line_start<T: CursorText>(text: T, least: usize, place: usize) -> Option<usize>
    requires { place ≤ length (T.units text) }
    ensures order { IfSome result (λ start. start ≤ place) }
    ensures begins { IfSome result (BeginsLine (T.units text)) }
{
    let mut start = place;
    while start > least {
        if text.has_line_feed_at(start - 1) {
            return Some(start);
        }
        start -= 1;
    }
    None
}
