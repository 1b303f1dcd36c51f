//! Cursors over the code points of sentences.

ghost use Rattle.seg_clusters.specs.Clusters.{sentences_source};

use crate::segments::Source;
use crate::suppress::SentenceBreaks;
use seg_clusters::sentence::SentenceBreakIterator;

impl<'data, I: Source> SentenceBreaks for SentenceBreakIterator<'data, I> {
    type CodePoints = I;

    ghost start = { λ sentences. sentences_source sentences };

    fn code_points(&self) -> I {
        self.source()
    }
}
