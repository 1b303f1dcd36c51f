//! Cuts of a piece by a set of words.

ghost use Rattle.std.specs.Prelude.{◌≡◌, ◌≢◌, ◌≤◌, ◌<◌, Some, if◌then◌else◌, [], ◌∷◌};
ghost use Rattle.std.specs.Iterator.{YieldsFirst, item_count};
ghost use Rattle.seg_text.specs.Items.{start_of, rest_after, code_points};
ghost use Rattle.seg_text.specs.Boundaries.{offsets_left, cut_places};
ghost use Rattle.seg_clusters.specs.Rules.{boundaries_by};
ghost use Rattle.seg_clusters.specs.Clusters.{cluster_rules};
ghost use Rattle.seg_clusters.specs.DictionaryCuts.{next_cut, dictionary_cuts};

use crate::engine::Boundaries;
use crate::grapheme::GraphemeClusterSegmenterBorrowed;
use crate::laws::grapheme;
use seg_data::words::WordCursor;
use seg_text::cursor::Cursor;
use std::marker::Model;

/// The cuts of a piece by a set of words, as places in units.
///
/// Each cut is at the end of a cluster of the piece. The first comes after the longest word at the piece's beginning that
/// ends with a cluster. If there is none, code points are read until no longer word begins with them, and the cut comes
/// after the cluster of the last one; or else, where all are read, at the piece's end. The next cut is that of what is left.
/// After None it stays None. It takes no memory.
#[derive(Drop)]
pub struct DictionaryCuts<'data, D: WordCursor, I: Cursor> {
    dictionary: D,
    clusters: GraphemeClusterSegmenterBorrowed<'data>,
    rest: I,
}

impl<'data, D: WordCursor, I: Cursor> Model for DictionaryCuts<'data, D, I> {
    ghost use Rattle.std.specs.Prelude.{ℕ, List};
    ghost use Rattle.seg_text.specs.Boundaries.{cut_places};
    ghost use Rattle.seg_clusters.specs.Rules.{boundaries_by};
    ghost use Rattle.seg_clusters.specs.Clusters.{cluster_rules};
    ghost use Rattle.seg_clusters.specs.DictionaryCuts.{dictionary_cuts};

    ghost Value = { List ℕ };

    ghost view = { λ s. cut_places (dictionary_cuts (D.tails s.dictionary) (boundaries_by (cluster_rules s.clusters))) (I.text s.rest) };
}

impl<'data, D: WordCursor, I: Cursor> DictionaryCuts<'data, D, I> {
    /// The cuts of what is left of a piece, by the words of which the cursor has read nothing. Takes no memory.
    pub fn new(dictionary: D, clusters: GraphemeClusterSegmenterBorrowed<'data>, piece: I) -> Self
        ensures { result ≡ cut_places (dictionary_cuts (D.tails dictionary) (boundaries_by (cluster_rules clusters.entry))) (I.text piece) }
    {
        DictionaryCuts {
            dictionary,
            clusters,
            rest: piece,
        }
    }
}

impl<'data, D: WordCursor, I: Cursor> Iterator for DictionaryCuts<'data, D, I> {
    type Item = usize;

    ghost next_gives = { YieldsFirst (λ left. left) };

    ghost remaining = { item_count (λ left. left) };

    fn next(&mut self) -> Option<usize> {
        if self.rest.is_at_end() {
            return None;
        }
        let place = first_cut(&self.dictionary, self.clusters, &self.rest);
        self.rest.seek(place);
        Some(place)
    }

    // Each cut is a unit or more after the one before, and the last is at the piece's end.
    fn size_hint(&self) -> (usize, Option<usize>) {
        grapheme::cover(self.clusters);
        let units = self.rest.end() - self.rest.place();
        (units.min(1), Some(units))
    }
}

/// The place of the first cut of what is left of a piece.
fn first_cut<D: WordCursor, I: Cursor>(
    dictionary: &D,
    clusters: GraphemeClusterSegmenterBorrowed<'_>,
    rest: &I,
) -> usize
    requires { (I.text rest.now).items ≢ [] }
    ensures { result ≡ start_of (rest_after (next_cut (D.tails dictionary.now) (boundaries_by (cluster_rules clusters.entry)) (code_points (I.text rest.now).items)) (I.text rest.now)) }
{
    grapheme::cover(clusters);
    let mut ends = clusters.boundaries(rest.fork());
    let mut cluster = first_end(&mut ends);
    let mut ahead = rest.fork();
    let mut words = dictionary.fork();
    let mut longest: Option<usize> = None;
    loop {
        let Some((_, code_point)) = ahead.next_item() else {
            return longest.unwrap_or(cluster);
        };
        let reached = ahead.place();
        cluster = end_from(&mut ends, cluster, reached);
        words.step(code_point);
        longest = longer(longest, words.is_word() & (cluster == reached), reached);
        if !words.goes_on() {
            return longest.unwrap_or(cluster);
        }
    }
}

/// The place that was found last, or else the one before.
fn longer(before: Option<usize>, found: bool, place: usize) -> Option<usize>
    ensures { result ≡ (if found then Some place else before) }
{
    if found { Some(place) } else { before }
}

/// The first boundary that is left.
fn first_end<I: Cursor>(ends: &mut Boundaries<'_, I>) -> usize
    requires { offsets_left ends.old ≢ [] }
    ensures { offsets_left ends.old ≡ result ∷ offsets_left ends.new }
{
    let Some(first) = ends.next() else {
        unreachable!()
    };
    first
}

/// This boundary, or the next one where it is before a place.
fn end_from<I: Cursor>(ends: &mut Boundaries<'_, I>, end: usize, place: usize) -> usize
    ensures stays { place ≤ end → (result ≡ end) × (offsets_left ends.new ≡ offsets_left ends.old) }
    ensures goes { end < place → offsets_left ends.old ≢ [] → offsets_left ends.old ≡ result ∷ offsets_left ends.new }
{
    if end < place {
        match ends.next() {
            Some(next) => next,
            None => end,
        }
    } else {
        end
    }
}

impl<'data, D: WordCursor, I: Cursor> DictionaryCuts<'data, D, I> {
    /// What is left of the cuts, once more. Takes no memory.
    pub fn fork(&self) -> Self
        ensures { result ≡ self.now }
    {
        DictionaryCuts {
            dictionary: self.dictionary.fork(),
            clusters: self.clusters,
            rest: self.rest.fork(),
        }
    }
}
