//! The texts that cursors take: str, UTF-8 and UTF-16, split at a place.

ghost use Rattle.std.specs.Prelude.{◌≡◌, ◌==◌, ◌<◌, ◌≤◌, IsTrue, drop, length, slice_index, take};
ghost use Rattle.seg_text.specs.Decoding.{utf8, utf16};
ghost use Rattle.seg_clusters.specs.Rules.{PartsBehind};
ghost use Rattle.seg_segments.specs.NearBoundaries.{boundaries_of_units, line_feed};
ghost use Rattle.seg_segments.specs.TextSegments.{IsPlace};

use crate::cursor::BoundaryFinder;
use crate::segments::{Source, Units};
use seg_text::indices::{Utf8CharIndices, Utf16Indices};

/// A text as cursors take it: possibly ill-formed UTF-8 or UTF-16. A line feed is one unit in it.
pub trait CursorText: Units {
    /// What reads its items.
    type Source: Source<Units = Self>;

    /// Whether each text of this form may be split after its line feeds, so that each part has the boundaries that a segmenter finds
    /// in it alone. If `false`, nothing is said.
    fn has_parts<S: BoundaryFinder>(segmenter: &S) -> bool
        ensures { IsTrue result → PartsBehind (boundaries_of_units Self.Source.decode (S.find segmenter.now)) line_feed };

    /// Whether the unit at an index is a line feed.
    fn has_line_feed_at(self, index: usize) -> bool
        requires { index < length (Self.units self) }
        ensures { result ≡ (slice_index (Self.units self) index == 0x0A) };

    /// Whether the unit at an index tells that an item begins there. If `false`, nothing is said.
    fn begins_item(self, index: usize) -> bool
        requires { index < length (Self.units self) }
        ensures { IsTrue result → IsPlace (Self.Source.decode (Self.units self)) index };

    /// What stands before a place, and what stands from there on. O(1), takes no memory.
    fn parts_at(self, place: usize) -> (Self, Self)
        requires { place ≤ length (Self.units self) }
        ensures front { Self.units result.0 ≡ take place (Self.units self) }
        ensures back { Self.units result.1 ≡ drop place (Self.units self) };
}

impl<'s> CursorText for &'s [u8] {
    type Source = Utf8CharIndices<'s>;

    fn has_parts<S: BoundaryFinder>(segmenter: &S) -> bool
        ensures { IsTrue result → PartsBehind (boundaries_of_units utf8 (S.find segmenter.now)) line_feed }
    {
        segmenter.parts_behind_line_feeds()
    }

    fn has_line_feed_at(self, index: usize) -> bool {
        self[index] == 0x0A
    }

    // A byte that goes on no sequence, by Unicode's Table 3-7.
    fn begins_item(self, index: usize) -> bool {
        let byte = self[index];
        byte < 0x80 || byte > 0xBF
    }

    fn parts_at(self, place: usize) -> (&'s [u8], &'s [u8]) {
        self.split_at(place)
    }
}

impl<'s> CursorText for &'s [u16] {
    type Source = Utf16Indices<'s>;

    fn has_parts<S: BoundaryFinder>(segmenter: &S) -> bool
        ensures { IsTrue result → PartsBehind (boundaries_of_units utf16 (S.find segmenter.now)) line_feed }
    {
        segmenter.parts_behind_line_feeds()
    }

    fn has_line_feed_at(self, index: usize) -> bool {
        self[index] == 0x0A
    }

    // A unit that is no low surrogate.
    fn begins_item(self, index: usize) -> bool {
        self[index] & 0xFC00 != 0xDC00
    }

    fn parts_at(self, place: usize) -> (&'s [u16], &'s [u16]) {
        self.split_at(place)
    }
}
