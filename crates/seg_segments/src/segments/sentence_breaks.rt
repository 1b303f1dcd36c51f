//! The boundaries of sentences.

ghost use Rattle.std.specs.Prelude.{◌≡◌};
ghost use Rattle.seg_clusters.specs.Rules.{boundaries_by};
ghost use Rattle.seg_clusters.specs.Clusters.{sentence_finder, sentences_left, sentences_source};
ghost use Rattle.seg_segments.specs.TextSegments.{nothing};

use crate::segments::{BreakIterator, ForkBreaks, Source, copy_of};
use seg_clusters::sentence::SentenceBreakIterator;

impl<'data, I: Source> BreakIterator for SentenceBreakIterator<'data, I> {
    type Units = I::Units;

    type Mark = ();

    ghost mark = { nothing };

    ghost left = { λ sentences. sentences_left sentences };

    ghost find = { λ sentences. boundaries_by (sentence_finder sentences) };

    ghost whole = { λ sentences. I.units (sentences_source sentences) };

    ghost decode = { I.decode };

    ghost places = { I.places };

    fn text(&self) -> I::Units {
        self.source().rest()
    }

    #[inline(always)]
    fn next_break(&mut self) -> Option<(usize, ())> {
        let place = self.next()?;
        Some((place, ()))
    }

    fn mark_of(status: u8)
        ensures { result ≡ nothing status }
    {
        let _ = status;
    }

    fn fill_both(&mut self, places: &mut [usize], statuses: &mut [u8]) -> usize {
        self.fill_both(places, statuses)
    }

    fn fill(&mut self, places: &mut [usize]) -> usize {
        self.fill(places)
    }
}

impl<'data, I: Source> ForkBreaks for SentenceBreakIterator<'data, I> {
    fn fork(&self) -> Self {
        copy_of(self)
    }
}
