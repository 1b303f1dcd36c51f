//! The places of clusters as boundaries of lines, of which none is mandatory.

ghost use Rattle.std.specs.Prelude.{◌≡◌, ⊤};
ghost use Rattle.std.specs.Iterator.{YieldsFirst, MakesProgress, item_count};
ghost use Rattle.seg_text.specs.Boundaries.{GivesNext, offsets, offsets_left, with_status};

use seg_clusters::engine::Boundaries;
use seg_text::cursor::Cursor;
use std::marker::Model;

/// The places of boundaries, each with status 0.
#[derive(Drop)]
pub(crate) struct UnmarkedBoundaries<'data, I: Cursor> {
    boundaries: Boundaries<'data, I>,
}

impl<'data, I: Cursor> Model for UnmarkedBoundaries<'data, I> {
    ghost use Rattle.seg_text.specs.Boundaries.{Remainder, offsets, with_status};

    ghost Value = { Remainder };

    ghost view = { λ s. record { left = with_status 0 (offsets s.boundaries.left); status = 0 } };
}

impl<'data, I: Cursor> UnmarkedBoundaries<'data, I> {
    /// These boundaries without their statuses.
    pub(crate) fn new(boundaries: Boundaries<'data, I>) -> Self
        ensures boundaries { result.left ≡ with_status 0 (offsets boundaries.entry.left) }
        ensures status { result.status ≡ 0 }
    {
        UnmarkedBoundaries { boundaries }
    }

    /// The status of the boundary that was given last: 0.
    pub(crate) fn status(&self) -> u8
        ensures { result ≡ self.now.status }
    {
        let _ = &self.boundaries;
        0
    }
}

impl<'data, I: Cursor> Iterator for UnmarkedBoundaries<'data, I> {
    type Item = usize;

    ghost next_gives = { YieldsFirst offsets_left };

    ghost remaining = { item_count offsets_left };

    fn next(&mut self) -> Option<usize>
        ensures steps { YieldsFirst offsets_left self.old result self.new × GivesNext self.old result self.new }
        ensures goes { MakesProgress (λ _. ⊤) (item_count offsets_left) self.old result self.new }
    {
        self.boundaries.next()
    }
}

impl<'data, I: Cursor> UnmarkedBoundaries<'data, I> {
    /// What is left of the boundaries, once more. Takes no memory.
    pub(crate) fn fork(&self) -> Self
        ensures { result ≡ self.now }
    {
        UnmarkedBoundaries {
            boundaries: self.boundaries.fork(),
        }
    }
}
