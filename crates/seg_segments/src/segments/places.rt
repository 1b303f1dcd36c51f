//! The places of a text's boundaries, found many at a time.

ghost use Rattle.std.specs.Prelude.{◌≡◌, ◌++◌, ◌<◌, [], length};
ghost use Rattle.std.specs.Iterator.{YieldsFirst, item_count};
ghost use Rattle.seg_text.specs.Boundaries.{offsets};

use crate::segments::BreakIterator;
use std::marker::Model;

// How many are found at a time.
const ROOM: usize = 64;

/// The places of the boundaries that an iterator has still to give, found 64 at a time. After None it stays None.
#[derive(Drop)]
pub struct Places<B: BreakIterator> {
    breaks: B,
    // The whole text. (The kit covers callers of a type with a `Model` only where one of its fields names their lifetime.)
    text: B::Units,
    // Those that were found: from `next` to `end` they weren't given yet.
    held: [usize; ROOM],
    next: usize,
    end: usize,
}

impl<B: BreakIterator> Model for Places<B> {
    ghost use Rattle.std.specs.Prelude.{ℕ, List, ◌≤◌, ◌++◌};
    ghost use Rattle.seg_text.specs.Boundaries.{offsets};
    ghost use Rattle.seg_segments.specs.HeldBoundaries.{held_from};

    ghost Value = { List ℕ };

    ghost view = { λ s. held_from s.next s.end s.held ++ offsets (B.left s.breaks) };

    ghost invariant = { λ s. (s.next ≤ s.end) × (s.end ≤ 64) };
}

impl<B: BreakIterator> Places<B> {
    /// The places of what is left of some boundaries. Takes no memory.
    pub(crate) fn new(breaks: B) -> Self
        ensures { result ≡ offsets (B.left breaks) }
    {
        let text = breaks.text();
        Places {
            breaks,
            text,
            held: [0; ROOM],
            next: 0,
            end: 0,
        }
    }
}

impl<B: BreakIterator> Iterator for Places<B> {
    type Item = usize;

    ghost next_gives = { YieldsFirst (λ s. s) };

    ghost remaining = { item_count (λ s. s) };

    #[inline(always)]
    fn next(&mut self) -> Option<usize> {
        if self.next == self.end {
            self.end = self.breaks.fill(&mut self.held);
            self.next = 0;
            if self.end == 0 {
                return None;
            }
        }
        let place = self.held[self.next];
        self.next += 1;
        Some(place)
    }

    fn size_hint(&self) -> (usize, Option<usize>) {
        (0, None)
    }
}
