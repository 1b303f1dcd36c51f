//! Cursors over the lines of a text.

ghost use Rattle.seg_lines.specs.LineBreaks.{line_boundaries_by};
ghost use Rattle.seg_lines.specs.Lines.{line_rules};

use crate::cursor::{BoundaryFinder, SegmenterOf};
use crate::segments::Source;
use seg_lines::laws::{certain_places, parts_behind_resets};
use seg_lines::line::{LineBreakIterator, LineSegmenterBorrowed};

impl<'data> BoundaryFinder for LineSegmenterBorrowed<'data> {
    ghost find = { λ segmenter. line_boundaries_by (line_rules segmenter) };

    fn parts_behind_line_feeds(&self) -> bool {
        parts_behind_resets(*self, '\n');
        self.resets_after('\n')
    }

    fn has_certain_places(&self) -> bool {
        (*self).has_certain_places()
    }

    fn always_breaks(&self, before: u32, one: u32, other: u32) -> bool {
        certain_places(*self, before, one, other);
        (*self).always_breaks(before, one, other)
    }
}

impl<'data, I: Source> SegmenterOf<I> for LineSegmenterBorrowed<'data> {
    type Breaks = LineBreakIterator<'data, I>;

    fn breaks(&self, text: I::Units) -> LineBreakIterator<'data, I> {
        self.segment(I::of(text))
    }
}
