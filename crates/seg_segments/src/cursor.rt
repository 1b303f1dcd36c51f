//! The boundaries near a place of a text, in both directions, as editors ask for them.
//!
//! With the sample data (`bench::clusters`), where U+0301 extends a cluster, `e\u{301}a` has the boundaries 0, 3 and 4:
//!
//! ```text
//! let cursor = BoundaryCursor::new(segmenter, "e\u{301}a");
//! cursor.next_boundary(0)         Some(3)
//! cursor.previous_boundary(2)     Some(0)
//! cursor.is_boundary(1)           false
//! ```

ghost use Rattle.std.specs.Prelude.{◌≡◌, ◌↔◌, ◌<◌, ◌≤◌, ◌+◌, ◌^◌, ℕ, IsTrue, IfSome, List, Contains, length};
ghost use Rattle.seg_text.specs.declared.boundary.Boundary.{Boundary};
ghost use Rattle.seg_text.specs.Boundaries.{boundaries_in, IsCover};
ghost use Rattle.seg_text.specs.Decoding.{utf8, utf16};
ghost use Rattle.seg_clusters.specs.Certain.{AlwaysBreaks, BeginsBetween, SplitsBetween};
ghost use Rattle.seg_clusters.specs.Rules.{PartsBehind};
ghost use Rattle.seg_segments.specs.NearBoundaries.{IsNearestAbove, IsNearestBelow, IsPart, StartsAt, boundaries_of_units, boundary_places, line_feed, places_of_units};

mod certain;
mod clusters;
mod line_starts;
mod lines;
mod sentences;
mod splits;
mod suppressed;
mod texts;
mod words;

use crate::segments::{BreakIterator, Source};
use certain::{Start, start_before};
use seg_text::indices::{Utf8CharIndices, Utf16Indices};
pub use splits::last_split;
use std::marker::Model;
pub use texts::CursorText;

/// A segmenter, as cursors ask it.
pub trait BoundaryFinder: Drop {
    /// How the boundaries of a list of code points are found.
    ghost find: { Self → List ℕ → List Boundary };

    /// Whether each text may be split after its line feeds, so that each part has the boundaries that it has alone. If `false`,
    /// nothing is said.
    fn parts_behind_line_feeds(&self) -> bool
        ensures utf8 { IsTrue result → PartsBehind (boundaries_of_units utf8 (find self.now)) line_feed }
        ensures utf16 { IsTrue result → PartsBehind (boundaries_of_units utf16 (find self.now)) line_feed };

    /// Whether `always_breaks` may say so of some code points. If `false`, it isn't asked.
    fn has_certain_places(&self) -> bool;

    /// Whether each text that has these three code points one after another has a boundary between the last two, and may be split there. If
    /// `false`, nothing is said.
    fn always_breaks(&self, before: u32, one: u32, other: u32) -> bool
        ensures breaks { IsTrue result → AlwaysBreaks (find self.now) before one other }
        ensures parts { IsTrue result → SplitsBetween (find self.now) before one other }
        ensures begins { IsTrue result → BeginsBetween (find self.now) before one other };

    /// Whether `always_begins` may be `true` of some code points. It is asked only where `has_certain_places` is `false`.
    fn has_beginnings(&self) -> bool {
        false
    }

    /// Whether in each text that has these three code points one after another, what begins with the last has the boundaries that it has
    /// alone, but perhaps for the one at its start. If `false`, nothing is said.
    fn always_begins(&self, before: u32, one: u32, other: u32) -> bool
        ensures { IsTrue result → BeginsBetween (find self.now) before one other }
    {
        let _ = (before, one, other);
        false
    }
}

/// A segmenter of texts in one encoding: that which the cursor reads.
pub trait SegmenterOf<I: Source>: BoundaryFinder {
    /// An iterator over the boundaries of a text.
    type Breaks: BreakIterator;

    /// The boundaries of a text. Takes no memory.
    fn breaks(&self, text: I::Units) -> Self::Breaks
        ensures boundaries { Self.Breaks.left result ≡ boundaries_of_units I.decode (Self.find self.now) (I.Units.units text) }
        ensures cover { IsCover 0 (length (I.Units.units text)) (Self.Breaks.left result) }
        ensures whole { Self.Breaks.whole result ≡ I.Units.units text }
        ensures found { Self.Breaks.left result ≡ boundaries_in (Self.Breaks.find result) (Self.Breaks.decode (Self.Breaks.whole result)) };

    /// The first boundary of a text is at its start, and the last at its end. Takes no memory.
    final fn cover(&self, text: I::Units)
        ensures { IsCover 0 (length (I.Units.units text)) (boundaries_of_units I.decode (Self.find self.now) (I.Units.units text)) }
    {
        let _ = self.breaks(text);
    }

    /// The nearest boundary of a text above a place, if there is one. Takes no memory.
    final fn nearest_above(&self, text: I::Units, place: usize) -> Option<usize>
        ensures nearest { IsNearestAbove (places_of_units I.decode (Self.find self.now) (I.Units.units text)) place result }
        ensures within { IfSome result (λ found. found ≤ length (I.Units.units text)) }
    {
        let mut breaks = self.breaks(text);
        while let Some((found, _)) = breaks.next_break() {
            if found > place {
                return Some(found);
            }
        }
        None
    }

    /// The nearest boundary below it, if there is one.
    final fn nearest_below(&self, text: I::Units, place: usize) -> Option<usize>
        ensures nearest { IsNearestBelow (places_of_units I.decode (Self.find self.now) (I.Units.units text)) place result }
        ensures within { IfSome result (λ found. found ≤ length (I.Units.units text)) }
    {
        let mut breaks = self.breaks(text);
        let mut nearest = None;
        while let Some((found, _)) = breaks.next_break() {
            if found >= place {
                break;
            }
            nearest = Some(found);
        }
        nearest
    }
}

/// A text with the segmenter that finds its boundaries: it answers which are near a place. Places are units from the start: bytes of
/// UTF-8, 16-bit units of UTF-16.
///
/// An answer takes no memory. It takes as long as finding the boundaries up to the one above the place, from where a search may begin. That
/// is the nearest certain place (`has_certain_places`), or, where the segmenter knows none, the nearest place of which `always_begins` says
/// so; or what stands behind the last line feed, where the segmenter's rules part texts there; or else the start of the text. Whether a
/// boundary stands at a place of `always_begins`, a search from further back tells, each time at least twice as far.
#[derive(Drop)]
pub struct BoundaryCursor<T: CursorText, S: SegmenterOf<T::Source>> {
    segmenter: S,
    text: T,
    has_parts: bool,
}

impl<T: CursorText, S: SegmenterOf<T::Source>> Model for BoundaryCursor<T, S> {
    ghost use Rattle.std.specs.Prelude.{ℕ, List, IsTrue, length};
    ghost use Rattle.seg_text.specs.Boundaries.{IsCover};
    ghost use Rattle.seg_clusters.specs.Rules.{PartsBehind};
    ghost use Rattle.seg_segments.specs.NearBoundaries.{boundaries_of_units, line_feed, places_of_units};

    ghost Value = { List ℕ };

    ghost view = { λ s. places_of_units T.Source.decode (S.find s.segmenter) (T.units s.text) };

    ghost invariant = { λ s. IsCover 0 (length (T.units s.text)) (boundaries_of_units T.Source.decode (S.find s.segmenter) (T.units s.text))
        × (IsTrue s.has_parts → PartsBehind (boundaries_of_units T.Source.decode (S.find s.segmenter)) line_feed) };
}

impl<'s, S: SegmenterOf<Utf8CharIndices<'s>>> BoundaryCursor<&'s [u8], S> {
    /// A cursor over a `str`. Takes no memory.
    pub fn new(segmenter: S, text: &'s str) -> Self
        ensures { result ≡ boundary_places (S.find segmenter) text.now }
    {
        BoundaryCursor::of_utf8(segmenter, text.as_bytes())
    }

    /// A cursor over possibly ill-formed UTF-8. Takes no memory.
    pub fn of_utf8(segmenter: S, text: &'s [u8]) -> Self
        ensures { result ≡ boundary_places (S.find segmenter) text.now }
    {
        BoundaryCursor::over(segmenter, text)
    }
}

impl<'s, S: SegmenterOf<Utf16Indices<'s>>> BoundaryCursor<&'s [u16], S> {
    /// A cursor over possibly ill-formed UTF-16. Takes no memory.
    pub fn of_utf16(segmenter: S, units: &'s [u16]) -> Self
        ensures { result ≡ places_of_units utf16 (S.find segmenter) units.now }
    {
        BoundaryCursor::over(segmenter, units)
    }
}

impl<T: CursorText, S: SegmenterOf<T::Source>> BoundaryCursor<T, S> {
    /// A cursor over a text in either form. Takes no memory.
    pub fn over(segmenter: S, text: T) -> Self
        ensures { result ≡ places_of_units T.Source.decode (S.find segmenter) (T.units text) }
    {
        segmenter.cover(text);
        BoundaryCursor {
            // A machine that resets behind line feeds knows that such places are certain.
            has_parts: !segmenter.has_certain_places() && T::has_parts(&segmenter),
            segmenter,
            text,
        }
    }

    /// Whether a boundary is at the place. There is none inside a character, nor past the end.
    pub fn is_boundary(&self, place: usize) -> bool
        ensures { IsTrue result ↔ Contains self.now place }
    {
        let _ = &self.text;
        place == 0 || self.next_boundary(place - 1) == Some(place)
    }

    /// The nearest boundary above the place, which may be inside a character. None from the end on.
    pub fn next_boundary(&self, place: usize) -> Option<usize>
        ensures { IsNearestAbove self.now place result }
    {
        let (start, part) = part_at(&self.segmenter, self.text, self.has_parts, place);
        let found = self.segmenter.nearest_above(part, place - start.place)?;
        Some(start.place + found)
    }

    /// The nearest boundary below the place, which may be inside a character, or past the end. None at 0.
    pub fn previous_boundary(&self, place: usize) -> Option<usize>
        ensures { IsNearestBelow self.now place result }
    {
        if place == 0 {
            return None;
        }
        let mut below = place;
        let mut from = place - 1;
        'starts: loop {
            let (start, part) = part_at(&self.segmenter, self.text, self.has_parts, from);
            let found = self.segmenter.nearest_below(part, below - start.place)?;
            if found > 0 || start.is_boundary || start.place == 0 {
                return Some(start.place + found);
            }
            // No boundary stands above the start. Whether one stands at it, an earlier start tells.
            below = start.place + 1;
            from = start.place.saturating_sub(place - start.place);
        }
    }
}

/// The part of a text that a search for the boundaries near a place reads: where it begins, and its units.
fn part_at<T: CursorText, S: SegmenterOf<T::Source>>(
    segmenter: &S,
    text: T,
    has_parts: bool,
    place: usize,
) -> (Start, T)
    requires cover { IsCover 0 (length (T.units text)) (boundaries_of_units T.Source.decode (S.find segmenter.now) (T.units text)) }
    requires parts { IsTrue has_parts → PartsBehind (boundaries_of_units T.Source.decode (S.find segmenter.now)) line_feed }
    ensures order { result.0.place ≤ place }
    ensures fits { result.0.place + length (T.units result.1) < 2 ^ 64 }
    ensures starts { StartsAt 0 (places_of_units T.Source.decode (S.find segmenter.now) (T.units result.1)) }
    ensures part { IsPart (places_of_units T.Source.decode (S.find segmenter.now) (T.units text)) result.0.place (places_of_units T.Source.decode (S.find segmenter.now) (T.units result.1)) }
    ensures boundary { IsTrue result.0.is_boundary → Contains (places_of_units T.Source.decode (S.find segmenter.now) (T.units text)) result.0.place }
{
    let start = start_before(segmenter, text, has_parts, place.min(text.len()));
    let (before, part) = text.parts_at(start.place);
    segmenter.cover(before);
    segmenter.cover(part);
    (start, part)
}
