//! Cursors over the clusters of a text.

ghost use Rattle.seg_clusters.specs.Clusters.{cluster_rules};
ghost use Rattle.seg_clusters.specs.Rules.{boundaries_by};

use crate::cursor::{BoundaryFinder, SegmenterOf};
use crate::segments::Source;
use seg_clusters::grapheme::{GraphemeClusterBreakIterator, GraphemeClusterSegmenterBorrowed};
use seg_clusters::laws::grapheme::{certain_places, parts_behind_resets};

impl<'data> BoundaryFinder for GraphemeClusterSegmenterBorrowed<'data> {
    ghost find = { λ segmenter. boundaries_by (cluster_rules segmenter) };

    fn parts_behind_line_feeds(&self) -> bool {
        parts_behind_resets(*self, '\n');
        self.resets_after('\n')
    }

    fn has_certain_places(&self) -> bool {
        (*self).has_certain_places()
    }

    fn always_breaks(&self, before: u32, one: u32, other: u32) -> bool {
        certain_places(*self, before, one, other);
        (*self).always_breaks(before, one, other)
    }
}

impl<'data, I: Source> SegmenterOf<I> for GraphemeClusterSegmenterBorrowed<'data> {
    type Breaks = GraphemeClusterBreakIterator<'data, I>;

    fn breaks(&self, text: I::Units) -> GraphemeClusterBreakIterator<'data, I> {
        self.segment(I::of(text))
    }
}
