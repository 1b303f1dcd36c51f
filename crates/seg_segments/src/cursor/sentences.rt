//! Cursors over the sentences of a text.

ghost use Rattle.seg_clusters.specs.Clusters.{sentence_rules};
ghost use Rattle.seg_clusters.specs.Rules.{boundaries_by};

use crate::cursor::{BoundaryFinder, SegmenterOf};
use crate::segments::Source;
use seg_clusters::laws::sentence::{certain_places, parts_behind_resets};
use seg_clusters::sentence::{SentenceBreakIterator, SentenceSegmenterBorrowed};

impl<'data> BoundaryFinder for SentenceSegmenterBorrowed<'data> {
    ghost find = { λ segmenter. boundaries_by (sentence_rules segmenter) };

    fn parts_behind_line_feeds(&self) -> bool {
        parts_behind_resets(*self, '\n');
        self.resets_after('\n')
    }

    fn has_certain_places(&self) -> bool {
        (*self).has_certain_places()
    }

    fn always_breaks(&self, before: u32, one: u32, other: u32) -> bool {
        certain_places(*self, before, one, other);
        (*self).always_breaks(before, one, other)
    }
}

impl<'data, I: Source> SegmenterOf<I> for SentenceSegmenterBorrowed<'data> {
    type Breaks = SentenceBreakIterator<'data, I>;

    fn breaks(&self, text: I::Units) -> SentenceBreakIterator<'data, I> {
        self.segment(I::of(text))
    }
}
