//! The boundaries that stay.

ghost use Rattle.std.specs.Prelude.{◌≡◌, ◌≤◌, false, length, IfSome};
ghost use Rattle.std.specs.Iterator.{YieldsFirst};
ghost use Rattle.seg_text.specs.Boundaries.{offsets, IsCover};
ghost use Rattle.seg_data.specs.ScriptWords.{words_after};
ghost use Rattle.seg_segments.specs.Kept.{left_of, AreAscending};

use crate::segments::{BreakIterator, ForkBreaks, Held};
use crate::suppress::starts::Starts;
use seg_data::provider::DictionaryCursor;
use seg_text::boundary::Boundary;
use seg_text::cursor::Cursor;
use seg_text::reach::Reach;
use std::marker::Model;

/// Boundaries without those before which a text ends with one of some words.
#[derive(Drop)]
pub(super) struct Kept<'data, B: BreakIterator, I: Cursor> {
    breaks: Held<B>,
    starts: Starts<'data, I>,
}

impl<'data, B: BreakIterator, I: Cursor> Model for Kept<'data, B, I> {
    ghost use Rattle.std.specs.Prelude.{List};
    ghost use Rattle.seg_text.specs.declared.boundary.Boundary.{Boundary};
    ghost use Rattle.seg_text.specs.Boundaries.{offsets};
    ghost use Rattle.seg_data.specs.ScriptWords.{words_after};
    ghost use Rattle.seg_segments.specs.Kept.{left_of, AreAscending};

    ghost Value = { List Boundary };

    ghost view = { λ s. left_of (words_after s.starts.words) s.starts.joined (I.text s.starts.rest) s.breaks };

    ghost invariant = { λ s. AreAscending (offsets s.breaks) };
}

impl<'data, B: BreakIterator, I: Cursor> Kept<'data, B, I> {
    /// What is kept of some boundaries, where the cursor stands at the text's start, by words of which nothing was read.
    pub(super) fn new(breaks: B, words: DictionaryCursor<'data>, text: I) -> Self
        requires { AreAscending (offsets (B.left breaks)) }
        ensures { result ≡ left_of (words_after words.entry) false (I.text text) (B.left breaks) }
    {
        Kept {
            breaks: Held::new(breaks),
            starts: Starts {
                words,
                rest: text,
                joined: false,
            },
        }
    }

    /// The next boundary that stays.
    pub(super) fn next_boundary(&mut self) -> Option<Boundary>
        ensures { YieldsFirst (λ left. left) self.old result self.new }
    {
        'breaks: loop {
            let found = self.breaks.next()?;
            if self.starts.keeps(found.offset) {
                return Some(found);
            }
        }
    }
}

impl<'data, B: ForkBreaks, I: Cursor> Kept<'data, B, I> {
    /// What is left of the boundaries, once more.
    pub(super) fn fork(&self) -> Self
        ensures { result ≡ self.now }
    {
        Kept {
            breaks: self.breaks.fork(),
            starts: self.starts.fork(),
        }
    }
}

/// The boundaries that stay, with how far they were given: so it is known how many are left at least and at most.
#[derive(Drop)]
pub(super) struct HintedKept<'data, B: BreakIterator, I: Cursor> {
    kept: Kept<'data, B, I>,
    reach: Reach,
}

impl<'data, B: BreakIterator, I: Cursor> Model for HintedKept<'data, B, I> {
    ghost use Rattle.std.specs.Prelude.{List};
    ghost use Rattle.seg_text.specs.declared.boundary.Boundary.{Boundary};
    ghost use Rattle.seg_text.specs.Boundaries.{AreAhead};

    ghost Value = { List Boundary };

    ghost view = { λ s. s.kept };

    ghost invariant = { λ s. AreAhead s.reach s.kept };
}

impl<'data, B: BreakIterator, I: Cursor> HintedKept<'data, B, I> {
    /// What is kept of the boundaries of a whole text, which has so many units.
    pub(super) fn new(kept: Kept<'data, B, I>, end: usize) -> Self
        requires { IsCover 0 end kept }
        ensures { result ≡ kept.entry }
    {
        HintedKept {
            kept,
            reach: Reach {
                started: false,
                place: 0,
                end,
            },
        }
    }

    /// The next boundary that stays.
    pub(super) fn next_boundary(&mut self) -> Option<Boundary>
        ensures { YieldsFirst (λ left. left) self.old result self.new }
    {
        let found = self.kept.next_boundary()?;
        self.reach.go_to(found.offset);
        Some(found)
    }

    /// How many are left at least and at most.
    pub(super) fn size_hint(&self) -> (usize, Option<usize>)
        ensures lower { result.0 ≤ length self.now }
        ensures upper { IfSome result.1 (λ most. length self.now ≤ most) }
    {
        self.reach.size_hint()
    }
}

impl<'data, B: ForkBreaks, I: Cursor> HintedKept<'data, B, I> {
    /// What is left of the boundaries, once more.
    pub(super) fn fork(&self) -> Self
        ensures { result ≡ self.now }
    {
        HintedKept {
            kept: self.kept.fork(),
            reach: self.reach,
        }
    }
}
