//! The cuts strictly inside a run of complex code points.

ghost use Rattle.std.specs.Prelude.{◌≡◌};
ghost use Rattle.std.specs.Iterator.{YieldsFirst, item_count};
ghost use Rattle.seg_text.specs.Boundaries.{cut_places};
ghost use Rattle.seg_clusters.specs.Payloads.{payloads_of, run_cuts_by};
ghost use Rattle.seg_line_pairs.specs.LineBoundaries.{inside};

use seg_clusters::complex::ComplexPayloadsBorrowed;
use seg_clusters::runs::RunCuts;
use seg_text::cursor::Cursor;
use std::marker::Model;

/// The cuts strictly inside a run, as places in units.
#[derive(Drop)]
pub struct InsideCuts<'data, I: Cursor> {
    cuts: RunCuts<'data, I>,
    // Where the run ends.
    end: usize,
}

impl<'data, I: Cursor> Model for InsideCuts<'data, I> {
    ghost use Rattle.std.specs.Prelude.{ℕ, List};
    ghost use Rattle.seg_line_pairs.specs.LineEvents.{places_before};

    ghost Value = { List ℕ };

    ghost view = { λ s. places_before s.end s.cuts };
}

impl<'data, I: Cursor> InsideCuts<'data, I> {
    /// The cuts of a run, which ends at this place. Takes no memory.
    pub fn new(payloads: ComplexPayloadsBorrowed<'data>, run: I, end: usize) -> Self
        requires { end ≡ (I.text run).end }
        ensures { result ≡ cut_places (inside (run_cuts_by (payloads_of payloads.entry))) (I.text run) }
    {
        InsideCuts {
            cuts: RunCuts::new(payloads, run),
            end,
        }
    }
}

impl<'data, I: Cursor> InsideCuts<'data, I> {
    /// The next cut. Once there is none, the run counts as ended at 0.
    #[inline(never)]
    fn next_inside(&mut self) -> Option<usize>
        ensures { YieldsFirst (λ left. left) self.old result self.new }
    {
        loop {
            let Some(place) = self.cuts.next() else {
                self.end = 0;
                return None;
            };
            if place < self.end {
                return Some(place);
            }
        }
    }
}

impl<'data, I: Cursor> Iterator for InsideCuts<'data, I> {
    type Item = usize;

    ghost next_gives = { YieldsFirst (λ left. left) };

    ghost remaining = { item_count (λ left. left) };

    #[inline(always)]
    fn next(&mut self) -> Option<usize> {
        if self.end == 0 {
            return None;
        }
        self.next_inside()
    }
}

impl<'data, I: Cursor> InsideCuts<'data, I> {
    /// What is left of the cuts, once more. Takes no memory.
    pub fn fork(&self) -> Self
        ensures { result ≡ self.now }
    {
        InsideCuts {
            cuts: self.cuts.fork(),
            end: self.end,
        }
    }
}
