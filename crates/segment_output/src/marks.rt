//! What is said of segments beside their places.
ghost use Rattle.std.specs.Prelude.{◌≡◌, ◌==◌, ℕ, nat_le, true, Bool};
ghost use Rattle.std.specs.Iterator.{YieldsFirst, item_count};
ghost use Rattle.icu_segmenter.specs.TextSegments.{marked};
ghost use Rattle.segment_output.specs.Output.{is_shown, is_word, shown_boundaries, shown_places, unmarked};
ghost use Rattle.segment_output.specs.declared.marks.Mark.TheVariants.{Unmarked, Word, Line, Rule};

use icu_segmenter::options::WordType;
use icu_segmenter::segments::{BreakIterator, Held, Places};

/// What is said of a segment beside its places.
#[derive(Clone, Copy, PartialEq, Eq)]
pub enum Mark {
    /// Of clusters and sentences nothing.
    Unmarked,
    /// Of words, and of what stands between them, their type.
    Word(WordType),
    /// Of lines, whether the line must end there.
    Line(bool),
    /// Of rules of the caller's own, whether the boundary has status 1.
    Rule(bool),
}

impl Mark {
    /// Whether the segment is shown: all are, or words alone, and of rules what ends at a boundary without status 1.
    #[inline(always)]
    pub fn is_shown(self, alone: bool) -> bool
        ensures { result ≡ is_shown alone self }
    {
        !alone || self.is_word()
    }

    #[inline(always)]
    fn is_word(self) -> bool
        ensures { result ≡ is_word self }
    {
        match self {
            Mark::Unmarked | Mark::Line(_) => false,
            Mark::Word(kind) => kind.is_word_like(),
            Mark::Rule(is_marked) => !is_marked,
        }
    }
}

/// What boundaries of a kind say of the segments that end there.
pub trait HasMark: Copy {
    ghost use Rattle.segment_output.specs.declared.marks.Mark.{Mark};

    /// The mark of the segment, in clauses.
    ghost said: { Self → Mark };

    /// The mark of the segment.
    fn mark(self) -> Mark
        ensures { result ≡ said self };
}

impl HasMark for WordType {
    ghost said = { λ kind. Word kind };

    #[inline(always)]
    fn mark(self) -> Mark {
        Mark::Word(self)
    }
}

impl HasMark for bool {
    ghost said = { λ is_mandatory. Line is_mandatory };

    #[inline(always)]
    fn mark(self) -> Mark {
        Mark::Line(self)
    }
}

/// Up to where the segments of a part are written.
pub trait Limit: Copy {
    /// Whether a place isn't behind it.
    ghost holds: { Self → ℕ → Bool };

    /// Whether a place isn't behind it.
    fn admits(self, place: usize) -> bool
        ensures { result ≡ holds self place };
}

/// Up to the end: all of them.
#[derive(Clone, Copy)]
pub struct Whole;

impl Limit for Whole {
    ghost holds = { λ _ _. true };

    #[inline(always)]
    fn admits(self, _place: usize) -> bool {
        true
    }
}

/// Up to a place: those that end there or before.
#[derive(Clone, Copy)]
pub struct UpTo {
    /// The place, in bytes from the part's start.
    pub place: usize,
}

impl Limit for UpTo {
    ghost holds = { λ limit place. nat_le place limit.place };

    #[inline(always)]
    fn admits(self, place: usize) -> bool {
        place <= self.place
    }
}

/// The boundaries that an iterator has still to give up to a limit, each with the mark of the segment that ends there.
#[derive(Drop)]
pub struct Marked<B: BreakIterator, L: Limit> {
    pub breaks: Held<B>,
    pub limit: L,
}

impl<M: HasMark, B: BreakIterator<Mark = M>, L: Limit> Iterator for Marked<B, L> {
    type Item = (usize, Mark);

    ghost next_gives = { YieldsFirst (λ s. marked (λ status. M.said (B.mark status)) (shown_boundaries (L.holds s.limit) s.breaks)) };

    ghost remaining = { item_count (λ s. marked (λ status. M.said (B.mark status)) (shown_boundaries (L.holds s.limit) s.breaks)) };

    #[inline(always)]
    fn next(&mut self) -> Option<(usize, Mark)> {
        while let Some(end) = self.breaks.next() {
            if self.limit.admits(end.offset) {
                return Some((end.offset, B::mark_of(end.status).mark()));
            }
        }
        None
    }
}

/// The boundaries that an iterator has still to give up to a limit, each unmarked: what is said of the segments is never worked out.
#[derive(Drop)]
pub struct Bare<B: BreakIterator, L: Limit> {
    pub places: Places<B>,
    pub limit: L,
}

impl<B: BreakIterator, L: Limit> Iterator for Bare<B, L> {
    type Item = (usize, Mark);

    ghost next_gives = { YieldsFirst (λ s. unmarked (shown_places (L.holds s.limit) s.places)) };

    ghost remaining = { item_count (λ s. unmarked (shown_places (L.holds s.limit) s.places)) };

    #[inline(always)]
    fn next(&mut self) -> Option<(usize, Mark)> {
        while let Some(end) = self.places.next() {
            if self.limit.admits(end) {
                return Some((end, Mark::Unmarked));
            }
        }
        None
    }
}

/// The boundaries by rules of the caller's own that an iterator has still to give up to a limit, each with its status.
#[derive(Drop)]
pub struct Ruled<B: BreakIterator, L: Limit> {
    pub breaks: Held<B>,
    pub limit: L,
}

impl<B: BreakIterator<Mark = bool>, L: Limit> Iterator for Ruled<B, L> {
    type Item = (usize, Mark);

    ghost next_gives = { YieldsFirst (λ s. marked (λ status. Rule (B.mark status)) (shown_boundaries (L.holds s.limit) s.breaks)) };

    ghost remaining = { item_count (λ s. marked (λ status. Rule (B.mark status)) (shown_boundaries (L.holds s.limit) s.breaks)) };

    #[inline(always)]
    fn next(&mut self) -> Option<(usize, Mark)> {
        while let Some(end) = self.breaks.next() {
            if self.limit.admits(end.offset) {
                return Some((end.offset, Mark::Rule(B::mark_of(end.status))));
            }
        }
        None
    }
}
