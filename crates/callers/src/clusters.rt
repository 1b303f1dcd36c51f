//! Callers that ask for grapheme clusters: places, carets, fields of so many clusters.
ghost use Rattle.std.specs.Prelude.{◌≡◌, IfOk, slice_get};
ghost use Rattle.callers.specs.Fields.{before_segment};
ghost use Rattle.icu_segmenter.specs.Boundaries.{offsets};
ghost use Rattle.icu_segmenter.specs.Clusters.{cluster_rules};
ghost use Rattle.icu_segmenter.specs.NearBoundaries.{IsNearestAbove, IsNearestBelow, places_of_units};
ghost use Rattle.icu_segmenter.specs.Rules.{boundaries_of};
ghost use Rattle.icu_segmenter.specs.TextSegments.{indices_of, nothing, segments_of};
ghost use Rattle.icu_segmenter.specs.Decoding.{utf8};

use icu_segmenter::GraphemeClusterSegmenterBorrowed;
use icu_segmenter::cursor::{BoundaryCursor, CursorText, SegmenterOf};
use icu_segmenter::segments::BreakIterator;
use std::alloc::{AllocError, Global};

/// The places of the boundaries of a text's clusters, in bytes. Fails only when out of memory.
pub fn cluster_places(
    alloc: Global,
    segmenter: GraphemeClusterSegmenterBorrowed<'_>,
    text: &str,
) -> Result<Vec<usize>, AllocError>
    ensures { IfOk result (λ places. places.items ≡ offsets (boundaries_of (cluster_rules segmenter.entry) (utf8 text.now))) }
{
    segmenter.segment_str(text).collect(alloc)
}

/// The first clusters of a text, as many as a field has room for; all of it where it has no more.
pub fn first_clusters<'s>(
    segmenter: GraphemeClusterSegmenterBorrowed<'_>,
    text: &'s str,
    room: usize,
) -> &'s str
    ensures { result.now ≡ before_segment text.now (slice_get (indices_of (segments_of nothing text.now (boundaries_of (cluster_rules segmenter.entry) (utf8 text.now)))) room) }
{
    match segmenter.segment_str(text).segment_indices().nth(room) {
        Some((place, _)) => &text[..place],
        None => text,
    }
}

/// Where the caret of an editor moves to, one segment to the left and one to the right, in units of the text: by clusters, or by any other
/// kind. None where the text ends there.
pub fn caret_moves<T: CursorText, S: SegmenterOf<T::Source>>(
    segmenter: S,
    text: T,
    caret: usize,
) -> (Option<usize>, Option<usize>)
    ensures left { IsNearestBelow (places_of_units T.Source.decode (S.find segmenter) (T.units text)) caret result.0 }
    ensures right { IsNearestAbove (places_of_units T.Source.decode (S.find segmenter) (T.units text)) caret result.1 }
{
    let cursor = BoundaryCursor::over(segmenter, text);
    (cursor.previous_boundary(caret), cursor.next_boundary(caret))
}
