//! The segments of a text, as parts of it: what stands between neighbouring boundaries.
//!
//! An iterator over the boundaries of a text (`BreakIterator`) gives its segments. With the sample data (`bench::words`), where letters
//! and digits are words:
//!
//! ```text
//! words.segment_str("one 42.").segments()             "one" " " "42" "."
//! words.segment_str("one 42.").segment_indices()      (0, "one") (3, " ") (4, "42") (6, ".")
//! words.segment_str("one 42.").words()                (0, "one", Letter) (4, "42", Number)
//! ```

ghost use Rattle.std.specs.Prelude.{◌≡◌, ℕ, ◌<◌, ◌≤◌, ⊤, List, All, drop, length, min};
ghost use Rattle.std.specs.List.{flat_map};
ghost use Rattle.std.specs.Iterator.{YieldsFirst, YieldsFirstBy, item_count};
ghost use Rattle.seg_text.specs.declared.boundary.Boundary.{Boundary};
ghost use Rattle.seg_text.specs.Boundaries.{boundaries_in, offsets, IsCover};
ghost use Rattle.seg_text.specs.Items.{Text};
ghost use Rattle.seg_text.specs.Filled.{IsFilled, TakesFirst, statuses as all_statuses};
ghost use Rattle.seg_segments.specs.TextSegments.{indices_of, marked, segments_of, units_of, words_of, AreSegments, IsPlace};
ghost use Rattle.seg_segments.specs.SegmentsLeft.{indices_left, segments_left, words_left};

mod cluster_breaks;
mod held;
mod line_breaks;
mod places;
mod sentence_breaks;
mod source;
mod units;
mod word_breaks;

pub use held::Held;
pub use places::Places;
use seg_words::word::WordType;
pub use source::Source;
use std::alloc::AllocError;
use std::fmt;
use std::marker::Model;
pub use units::Units;

/// An iterator over the boundaries of a text, which gives the segments between them.
///
/// `segments` and its kin may be asked as long as no boundary was given: that all are left is what `segment_str` and its kin promise.
pub trait BreakIterator: Drop + Sized {
    /// What the text stands in.
    type Units: Units;

    /// What the status of a boundary says of the segment that ends there: of words their type, and of lines whether
    /// a line must end there.
    type Mark: Copy;

    /// What a status says, in clauses.
    ghost mark: { ℕ → Self.Mark };

    /// The boundaries that are still to come.
    ghost left: { Self → List Boundary };

    /// How they are found in a list of code points.
    ghost find: { Self → List ℕ → List Boundary };

    /// The units in which the whole text stands.
    ghost whole: { Self → List ℕ };

    /// The text that stands in some units.
    ghost decode: { List ℕ → Text };

    /// The whole text, whatever was given of its boundaries. Takes no memory.
    fn text(&self) -> Self::Units
        ensures { Self.Units.units result ≡ whole self.now };

    /// The next boundary, as its place and what its status says. None at the end, and from then on.
    fn next_break(&mut self) -> Option<(usize, Self::Mark)>
        ensures { YieldsFirst (λ s. marked mark (left s)) self.old result self.new };

    /// What a status says.
    fn mark_of(status: u8) -> Self::Mark
        ensures { result ≡ mark status };

    /// Writes the places of the next boundaries over the first of `places` and their statuses over the first of `statuses`, as many as
    /// there are and both have room for, and returns how many. The next call goes on behind them. Takes no memory.
    fn fill_both(&mut self, places: &mut [usize], statuses: &mut [u8]) -> usize
        ensures places { TakesFirst (min (length places.old) (length statuses.old)) (offsets (left self.old)) places.old places.new result }
        ensures marks { TakesFirst (min (length places.old) (length statuses.old)) (all_statuses (left self.old)) statuses.old statuses.new result }
        ensures left { left self.new ≡ drop result (left self.old) };

    /// Writes the places of the next boundaries over the first of `places`, as many as there are and there is room for, and returns
    /// how many. The next call goes on behind them. Takes no memory.
    fn fill(&mut self, places: &mut [usize]) -> usize
        ensures filled { IsFilled (offsets (left self.old)) places.old places.new result }
        ensures left { marked mark (left self.new) ≡ drop result (marked mark (left self.old)) }
    {
        for index in 0..places.len() {
            match self.next_break() {
                Some((place, _)) => places[index] = place,
                None => return index,
            }
        }
        places.len()
    }

    /// The places of the boundaries that are left, found many at a time. Takes no memory.
    final fn into_places(self) -> Places<Self>
        ensures { result ≡ offsets (left self) }
    {
        Places::new(self)
    }

    /// Law: a text may be cut at the places of its items.
    ghost places: { (text : Self.Units) (place : ℕ) → IsPlace (decode (Self.Units.units text)) place → Self.Units.MayCut text place };

    /// The segments of the text. Takes no memory.
    final fn segments(self) -> Segments<Self>
        requires found { left self ≡ boundaries_in (find self) (decode (whole self)) }
        requires cover { IsCover 0 (length (whole self)) (left self) }
        ensures segments { segments_left result ≡ units_of (segments_of mark (whole self) (left self)) }
        ensures joined { flat_map (λ segment. segment) (segments_left result) ≡ whole self }
        ensures some { All (λ segment. 0 < length segment) (segments_left result) }
        ensures few { length (segments_left result) ≤ length (whole self) }
    {
        Segments {
            segments: self.marked_segments(),
        }
    }

    /// The segments of the text, each with the place where it begins. Takes no memory.
    final fn segment_indices(self) -> SegmentIndices<Self>
        requires found { left self ≡ boundaries_in (find self) (decode (whole self)) }
        requires cover { IsCover 0 (length (whole self)) (left self) }
        ensures segments { indices_left result ≡ indices_of (segments_of mark (whole self) (left self)) }
        ensures places { All (λ segment. IsPlace (decode (whole self)) segment.0) (indices_left result) }
        ensures few { length (indices_left result) ≤ length (whole self) }
    {
        SegmentIndices {
            segments: self.marked_segments(),
        }
    }

    /// The segments of the text, each with the place where it begins, and with what the status of the boundary says at which it
    /// ends. Takes no memory.
    final fn marked_segments(self) -> MarkedSegments<Self>
        requires found { left self ≡ boundaries_in (find self) (decode (whole self)) }
        requires cover { IsCover 0 (length (whole self)) (left self) }
        ensures segments { result ≡ segments_of mark (whole self) (left self) }
        ensures whole { AreSegments (decode (whole self)) (whole self) result }
        ensures few { length result ≤ length (whole self) }
    {
        let text = self.text();
        let mut breaks = Held::new(self);
        let _start = breaks.next();
        MarkedSegments {
            breaks,
            text,
            from: 0,
        }
    }
}

// The clone of what can always be cloned.
fn copy_of<T: Clone>(value: &T) -> T
    requires { T.is_infallible value.now }
    ensures { T.is_clone value.now result }
{
    let Ok(copy) = value.clone() else {
        unreachable!()
    };
    copy
}

/// An iterator over the boundaries of a text that can be had once more. It is a trait of its own, since a function that returns `Self` is
/// dear to prove wherever a type meets its trait.
pub trait ForkBreaks: BreakIterator {
    /// What is left of the boundaries, once more. Takes no memory and never fails.
    fn fork(&self) -> Self
        ensures { result ≡ self.now };
}

/// An iterator over the boundaries of words.
pub trait WordBreaks: BreakIterator<Mark = WordType> {
    /// The words of a text, each with the place where it begins and its type: those segments whose type isn't `None`. Takes no memory.
    final fn words(self) -> Words<Self>
        requires found { Self.left self ≡ boundaries_in (Self.find self) (Self.decode (Self.whole self)) }
        requires cover { IsCover 0 (length (Self.whole self)) (Self.left self) }
        ensures words { words_left result ≡ words_of (segments_of Self.mark (Self.whole self) (Self.left self)) }
        ensures few { length (words_left result) ≤ length (Self.whole self) }
    {
        Words {
            segments: self.marked_segments(),
        }
    }
}

/// The segments of a text, each with the place where it begins and with what the status says of the boundary at which it ends. After
/// None it stays None.
#[derive(Drop)]
pub struct MarkedSegments<B: BreakIterator> {
    breaks: Held<B>,
    text: B::Units,
    from: usize,
}

impl<B: BreakIterator> fmt::Debug for MarkedSegments<B> {
    fn fmt<W: fmt::Write>(&self, f: &mut fmt::Formatter<W>) -> fmt::Result {
        f.write_str("MarkedSegments { .. }")
    }
}

impl<B: BreakIterator> Model for MarkedSegments<B> {
    ghost use Rattle.std.specs.Prelude.{List, length};
    ghost use Rattle.seg_segments.specs.TextSegments.{Segment, AreCuts, marked, segments_from};

    ghost Value = { List (Segment B.Mark) };

    ghost view = { λ s. segments_from (B.Units.units s.text) s.from (marked B.mark s.breaks) };

    ghost invariant = { λ s. AreCuts (B.Units.MayCut s.text) s.from (marked B.mark s.breaks) (length (B.Units.units s.text)) };
}

impl<B: ForkBreaks> MarkedSegments<B> {
    // What is left of the segments, once more.
    fn fork(&self) -> Self
        ensures { result ≡ self.now }
    {
        MarkedSegments {
            breaks: self.breaks.fork(),
            text: self.text,
            from: self.from,
        }
    }
}

impl<B: ForkBreaks> Clone for MarkedSegments<B> {
    ghost is_clone = { λ s r. r ≡ s };

    ghost is_infallible = { λ _. ⊤ };

    fn clone(&self) -> Result<Self, AllocError> {
        Ok(self.fork())
    }
}

impl<B: BreakIterator> Iterator for MarkedSegments<B> {
    type Item = (usize, B::Units, B::Mark);

    ghost next_gives = { YieldsFirstBy (λ item. record { offset = item.0; units = B.Units.units item.1; mark = item.2 }) (λ s. s) };

    ghost remaining = { item_count (λ s. s) };

    #[inline(always)]
    fn next(&mut self) -> Option<(usize, B::Units, B::Mark)> {
        let end = self.breaks.next()?;
        let from = self.from;
        self.from = end.offset;
        Some((
            from,
            self.text.part(from, end.offset),
            B::mark_of(end.status),
        ))
    }

    // Each segment that is left has a unit or more, and the last ends with the text.
    fn size_hint(&self) -> (usize, Option<usize>) {
        let units = self.text.len() - self.from;
        (units.min(1), Some(units))
    }
}

/// The segments of a text. After None it stays None.
#[derive(Drop)]
pub struct Segments<B: BreakIterator> {
    segments: MarkedSegments<B>,
}

impl<B: BreakIterator> fmt::Debug for Segments<B> {
    fn fmt<W: fmt::Write>(&self, f: &mut fmt::Formatter<W>) -> fmt::Result {
        f.write_str("Segments { .. }")
    }
}

impl<B: ForkBreaks> Clone for Segments<B> {
    ghost is_clone = { λ s r. r ≡ s };

    ghost is_infallible = { λ _. ⊤ };

    fn clone(&self) -> Result<Self, AllocError> {
        let segments = self.segments.fork();
        Ok(Segments { segments })
    }
}

impl<B: BreakIterator> Iterator for Segments<B> {
    type Item = B::Units;

    ghost next_gives = { YieldsFirstBy B.Units.units segments_left };

    ghost remaining = { item_count segments_left };

    #[inline(always)]
    fn next(&mut self) -> Option<B::Units> {
        let (_, segment, _) = self.segments.next()?;
        Some(segment)
    }

    fn size_hint(&self) -> (usize, Option<usize>) {
        self.segments.size_hint()
    }
}

/// The segments of a text, each with the place where it begins. After None it stays None.
#[derive(Drop)]
pub struct SegmentIndices<B: BreakIterator> {
    segments: MarkedSegments<B>,
}

impl<B: BreakIterator> fmt::Debug for SegmentIndices<B> {
    fn fmt<W: fmt::Write>(&self, f: &mut fmt::Formatter<W>) -> fmt::Result {
        f.write_str("SegmentIndices { .. }")
    }
}

impl<B: ForkBreaks> Clone for SegmentIndices<B> {
    ghost is_clone = { λ s r. r ≡ s };

    ghost is_infallible = { λ _. ⊤ };

    fn clone(&self) -> Result<Self, AllocError> {
        let segments = self.segments.fork();
        Ok(SegmentIndices { segments })
    }
}

impl<B: BreakIterator> Iterator for SegmentIndices<B> {
    type Item = (usize, B::Units);

    ghost next_gives = { YieldsFirstBy (λ item. (item.0, B.Units.units item.1)) indices_left };

    ghost remaining = { item_count indices_left };

    #[inline(always)]
    fn next(&mut self) -> Option<(usize, B::Units)> {
        let (offset, segment, _) = self.segments.next()?;
        Some((offset, segment))
    }

    fn size_hint(&self) -> (usize, Option<usize>) {
        self.segments.size_hint()
    }
}

/// The words of a text, each with the place where it begins and its type. After None it stays None.
#[derive(Drop)]
pub struct Words<B: BreakIterator<Mark = WordType>> {
    segments: MarkedSegments<B>,
}

impl<B: BreakIterator<Mark = WordType>> fmt::Debug for Words<B> {
    fn fmt<W: fmt::Write>(&self, f: &mut fmt::Formatter<W>) -> fmt::Result {
        f.write_str("Words { .. }")
    }
}

impl<B: ForkBreaks + BreakIterator<Mark = WordType>> Clone for Words<B> {
    ghost is_clone = { λ s r. r ≡ s };

    ghost is_infallible = { λ _. ⊤ };

    fn clone(&self) -> Result<Self, AllocError> {
        let segments = self.segments.fork();
        Ok(Words { segments })
    }
}

impl<B: BreakIterator<Mark = WordType>> Iterator for Words<B> {
    type Item = (usize, B::Units, WordType);

    ghost next_gives = { YieldsFirstBy (λ item. record { offset = item.0; units = B.Units.units item.1; mark = item.2 }) words_left };

    ghost remaining = { item_count words_left };

    #[inline(always)]
    fn next(&mut self) -> Option<(usize, B::Units, WordType)> {
        'segments: while let Some((offset, word, word_type)) = self.segments.next() {
            if word_type.is_word_like() {
                return Some((offset, word, word_type));
            }
        }
        None
    }

    // It may be that no segment is a word.
    fn size_hint(&self) -> (usize, Option<usize>) {
        (0, self.segments.size_hint().1)
    }
}
