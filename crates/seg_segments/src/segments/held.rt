//! The boundaries of a text, found many at a time.

ghost use Rattle.std.specs.Prelude.{◌≡◌};
ghost use Rattle.std.specs.Iterator.{YieldsFirst, item_count};

use crate::segments::{BreakIterator, ForkBreaks};
use seg_text::boundary::Boundary;
use std::marker::Model;

// How many are found at a time.
const ROOM: usize = 64;

/// The boundaries that an iterator has still to give, with their statuses, found 64 at a time. After None it stays None.
#[derive(Drop)]
pub struct Held<B: BreakIterator> {
    breaks: B,
    // The whole text. (The kit covers callers of a type with a `Model` only where one of its fields names their lifetime.)
    text: B::Units,
    // The places of those that were found, and their statuses: from `next` to `end` they weren't given yet.
    places: [usize; ROOM],
    statuses: [u8; ROOM],
    next: usize,
    end: usize,
}

impl<B: BreakIterator> Model for Held<B> {
    ghost use Rattle.std.specs.Prelude.{List, ◌≤◌, ◌++◌};
    ghost use Rattle.seg_text.specs.declared.boundary.Boundary.{Boundary};
    ghost use Rattle.seg_segments.specs.HeldBoundaries.{held_boundaries};

    ghost Value = { List Boundary };

    ghost view = { λ s. held_boundaries s.next s.end s.places s.statuses ++ B.left s.breaks };

    ghost invariant = { λ s. (s.next ≤ s.end) × (s.end ≤ 64) };
}

impl<B: BreakIterator> Held<B> {
    /// What is left of some boundaries. Takes no memory.
    pub fn new(breaks: B) -> Self
        ensures { result ≡ B.left breaks }
    {
        let text = breaks.text();
        Held {
            breaks,
            text,
            places: [0; ROOM],
            statuses: [0; ROOM],
            next: 0,
            end: 0,
        }
    }
}

impl<B: ForkBreaks> Held<B> {
    /// What is left of the boundaries, once more.
    pub(crate) fn fork(&self) -> Self
        ensures { result ≡ self.now }
    {
        Held {
            breaks: self.breaks.fork(),
            text: self.text,
            places: self.places,
            statuses: self.statuses,
            next: self.next,
            end: self.end,
        }
    }
}

impl<B: BreakIterator> Iterator for Held<B> {
    type Item = Boundary;

    ghost next_gives = { YieldsFirst (λ s. s) };

    ghost remaining = { item_count (λ s. s) };

    #[inline(always)]
    fn next(&mut self) -> Option<Boundary> {
        if self.next == self.end {
            self.end = self.breaks.fill_both(&mut self.places, &mut self.statuses);
            self.next = 0;
            if self.end == 0 {
                return None;
            }
        }
        let offset = self.places[self.next];
        let status = self.statuses[self.next];
        self.next += 1;
        Some(Boundary { offset, status })
    }

    fn size_hint(&self) -> (usize, Option<usize>) {
        (0, None)
    }
}
