//! The boundaries of lines, each with whether a line must end there.

ghost use Rattle.std.specs.Prelude.{◌≡◌, ◌==◌};
ghost use Rattle.seg_lines.specs.LineBreaks.{line_boundaries_by};
ghost use Rattle.seg_lines.specs.Lines.{line_finder, lines_left, lines_source};

use crate::segments::{BreakIterator, ForkBreaks, Source, copy_of};
use seg_lines::line::LineBreakIterator;

impl<'data, I: Source> BreakIterator for LineBreakIterator<'data, I> {
    type Units = I::Units;

    type Mark = bool;

    ghost mark = { λ status. status == 1 };

    ghost left = { λ lines. lines_left lines };

    ghost find = { λ lines. line_boundaries_by (line_finder lines) };

    ghost whole = { λ lines. I.units (lines_source lines) };

    ghost decode = { I.decode };

    ghost places = { I.places };

    fn text(&self) -> I::Units {
        self.source().rest()
    }

    #[inline(always)]
    fn next_break(&mut self) -> Option<(usize, bool)> {
        let place = self.next()?;
        Some((place, self.is_mandatory()))
    }

    fn mark_of(status: u8) -> bool
        ensures { result ≡ (status == 1) }
    {
        status == 1
    }

    fn fill_both(&mut self, places: &mut [usize], statuses: &mut [u8]) -> usize {
        self.fill_both(places, statuses)
    }

    fn fill(&mut self, places: &mut [usize]) -> usize {
        self.fill(places)
    }
}

impl<'data, I: Source> ForkBreaks for LineBreakIterator<'data, I> {
    fn fork(&self) -> Self {
        copy_of(self)
    }
}
