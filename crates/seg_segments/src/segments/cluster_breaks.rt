//! The boundaries of clusters.

ghost use Rattle.std.specs.Prelude.{◌≡◌};
ghost use Rattle.seg_clusters.specs.Rules.{boundaries_by};
ghost use Rattle.seg_clusters.specs.Clusters.{cluster_finder, clusters_left, clusters_source};
ghost use Rattle.seg_segments.specs.TextSegments.{nothing};

use crate::segments::{BreakIterator, ForkBreaks, Source, copy_of};
use seg_clusters::grapheme::GraphemeClusterBreakIterator;

impl<'data, I: Source> BreakIterator for GraphemeClusterBreakIterator<'data, I> {
    type Units = I::Units;

    type Mark = ();

    ghost mark = { nothing };

    ghost left = { λ clusters. clusters_left clusters };

    ghost find = { λ clusters. boundaries_by (cluster_finder clusters) };

    ghost whole = { λ clusters. I.units (clusters_source clusters) };

    ghost decode = { I.decode };

    ghost places = { I.places };

    fn text(&self) -> I::Units {
        self.source().rest()
    }

    #[inline(always)]
    fn next_break(&mut self) -> Option<(usize, ())> {
        let place = self.next()?;
        Some((place, ()))
    }

    fn mark_of(status: u8)
        ensures { result ≡ nothing status }
    {
        let _ = status;
    }

    fn fill_both(&mut self, places: &mut [usize], statuses: &mut [u8]) -> usize {
        self.fill_both(places, statuses)
    }

    fn fill(&mut self, places: &mut [usize]) -> usize {
        self.fill(places)
    }
}

impl<'data, I: Source> ForkBreaks for GraphemeClusterBreakIterator<'data, I> {
    fn fork(&self) -> Self {
        copy_of(self)
    }
}
