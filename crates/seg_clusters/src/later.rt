//! Cuts of a piece that stands later in a text.

ghost use Rattle.std.specs.Prelude.{◌≡◌, ◌+◌, ◌<◌, ◌^◌};
ghost use Rattle.std.specs.Iterator.{YieldsFirst, item_count};
ghost use Rattle.seg_text.specs.Boundaries.{cut_places};
ghost use Rattle.seg_clusters.specs.Rules.{boundaries_by};
ghost use Rattle.seg_clusters.specs.Clusters.{cluster_rules};
ghost use Rattle.seg_clusters.specs.DictionaryCuts.{dictionary_cuts};
ghost use Rattle.seg_clusters.specs.Scripts.{later_places};

use crate::dictionaries::DictionaryCuts;
use crate::grapheme::GraphemeClusterSegmenterBorrowed;
use seg_data::provider::{DictionaryBreakData, DictionaryCursor};
use seg_text::cursor::Cursor;
use std::marker::Model;

/// The cuts of a piece, each so much later.
#[derive(Drop)]
pub(crate) struct LaterCuts<'data, I: Cursor> {
    cuts: DictionaryCuts<'data, DictionaryCursor<'data>, I>,
    offset: usize,
}

impl<'data, I: Cursor> Model for LaterCuts<'data, I> {
    ghost use Rattle.std.specs.Prelude.{ℕ, List};
    ghost use Rattle.seg_clusters.specs.Scripts.{FitLater, later_places};

    ghost Value = { List ℕ };

    ghost view = { λ s. later_places s.offset s.cuts };

    ghost invariant = { λ s. FitLater s.offset s.cuts };
}

impl<'data, I: Cursor> LaterCuts<'data, I> {
    ghost use Rattle.seg_data.specs.ScriptWords.{words_of};

    /// The cuts of what is left of a piece by a dictionary.
    pub(crate) fn new(
        dictionary: &'data DictionaryBreakData,
        clusters: GraphemeClusterSegmenterBorrowed<'data>,
        piece: I,
        offset: usize,
    ) -> Self
        requires { offset + (I.text piece).end < 2 ^ 64 }
        ensures { result ≡ later_places offset (cut_places (dictionary_cuts (words_of dictionary.now) (boundaries_by (cluster_rules clusters.entry))) (I.text piece)) }
    {
        LaterCuts {
            cuts: DictionaryCuts::new(dictionary.cursor(), clusters, piece),
            offset,
        }
    }
}

impl<'data, I: Cursor> Iterator for LaterCuts<'data, I> {
    type Item = usize;

    ghost next_gives = { YieldsFirst (λ left. left) };

    ghost remaining = { item_count (λ left. left) };

    fn next(&mut self) -> Option<usize> {
        match self.cuts.next() {
            Some(place) => Some(self.offset + place),
            None => None,
        }
    }

    fn size_hint(&self) -> (usize, Option<usize>) {
        self.cuts.size_hint()
    }
}

impl<'data, I: Cursor> LaterCuts<'data, I> {
    /// What is left of the cuts, once more.
    pub(crate) fn fork(&self) -> Self
        ensures { result ≡ self.now }
    {
        LaterCuts {
            cuts: self.cuts.fork(),
            offset: self.offset,
        }
    }
}
