//! Laws of the boundaries of grapheme clusters.

ghost use Rattle.std.specs.Prelude.{◌≡◌, ℕ, List, length};
ghost use Rattle.seg_text.specs.Boundaries.{AreSameCounted, HasRestart, IsCover, HasOneAnswer};
ghost use Rattle.seg_text.specs.Decoding.{utf8, utf16};
ghost use Rattle.seg_text.specs.Items.{code_points};
ghost use Rattle.seg_clusters.specs.Certain.{AlwaysBreaks, AreCertain, BeginsBetween, SplitsBetween};
ghost use Rattle.seg_clusters.specs.Rules.{PartsTexts, ResetsAfter, boundaries_by, boundaries_of, first_stretch};
ghost use Rattle.seg_clusters.specs.Clusters.{cluster_rules, clusters_left};

use crate::grapheme::{GraphemeClusterBreakIterator, GraphemeClusterSegmenterBorrowed};
use crate::laws::engine;
use seg_text::indices::{StrCharIndices, Utf8CharIndices, Utf16Indices};

/// Law: a list of code points has exactly one list of boundaries, in code points: the first is at its start, and each
/// other one comes from the first stretch of what is left. Such a stretch is the machine's pick, or what the verdict of the
/// table takes.
pub fn boundaries_are_one(segmenter: GraphemeClusterSegmenterBorrowed<'_>)
    ensures { HasOneAnswer (first_stretch (cluster_rules segmenter.entry)) }
{
    engine::boundaries_are_one(segmenter.engine);
}

/// Law: a text in possibly ill-formed UTF-8 and one in possibly ill-formed UTF-16 that have equal code points have the same
/// boundaries, counted in code points, with the same statuses. The clusters of both are returned, none of them read.
pub fn equal_code_points<'data, 's>(
    segmenter: GraphemeClusterSegmenterBorrowed<'data>,
    one: &'s [u8],
    other: &'s [u16],
) -> (
    GraphemeClusterBreakIterator<'data, Utf8CharIndices<'s>>,
    GraphemeClusterBreakIterator<'data, Utf16Indices<'s>>,
)
    ensures one { clusters_left result.0 ≡ boundaries_of (cluster_rules segmenter.entry) (utf8 one.now) }
    ensures other { clusters_left result.1 ≡ boundaries_of (cluster_rules segmenter.entry) (utf16 other.now) }
    ensures equal { code_points (utf8 one.now).items ≡ code_points (utf16 other.now).items
        → AreSameCounted (utf8 one.now) (clusters_left result.0) (utf16 other.now) (clusters_left result.1) }
{
    (segmenter.segment_utf8(one), segmenter.segment_utf16(other))
}

/// Law: a text may be segmented anew from any of its boundaries: for every list of code points, the boundaries after one of
/// them are those of the rest taken alone, shifted, with the same statuses.
pub fn restart(segmenter: GraphemeClusterSegmenterBorrowed<'_>)
    ensures { HasRestart (boundaries_by (cluster_rules segmenter.entry)) }
{
    engine::restart(segmenter.engine);
}

/// Law: the boundaries of a list of code points rise strictly from 0, where the first is, to its length, where the last is.
pub fn cover(segmenter: GraphemeClusterSegmenterBorrowed<'_>)
    ensures { (code_points : List ℕ) → IsCover 0 (length code_points) (boundaries_by (cluster_rules segmenter.entry) code_points) }
{
    engine::cover(segmenter.engine);
}

/// Law: a text may be split after each code point that `resets_after` names. Where the first of two texts ends with it, the boundaries of
/// both, joined, are those of the first, and then those of the second but for its start, so much later, with the same statuses. So it is
/// counted in code points, and as places in possibly ill-formed UTF-8, a `str` too, in Latin-1 and in possibly ill-formed UTF-16.
pub fn parts_behind_resets(segmenter: GraphemeClusterSegmenterBorrowed<'_>, code_point: char)
    ensures { ResetsAfter (cluster_rules segmenter.entry) code_point → PartsTexts (boundaries_by (cluster_rules segmenter.entry)) code_point }
{
    engine::parts_behind_resets(segmenter.engine, code_point);
}

/// Law: each list that has three code points one after another, of which `always_breaks` says so, has a boundary between the last two,
/// whatever stands before and behind them. The list may be split there: it has the boundaries and statuses of what reaches up to the last of the
/// three, without its end, and then those of what begins with it. So above the place it has those of what begins there.
pub fn certain_places(
    segmenter: GraphemeClusterSegmenterBorrowed<'_>,
    before: u32,
    one: u32,
    other: u32,
)
    ensures breaks { AreCertain (cluster_rules segmenter.entry) before one other → AlwaysBreaks (boundaries_by (cluster_rules segmenter.entry)) before one other }
    ensures parts { AreCertain (cluster_rules segmenter.entry) before one other → SplitsBetween (boundaries_by (cluster_rules segmenter.entry)) before one other }
    ensures begins { AreCertain (cluster_rules segmenter.entry) before one other → BeginsBetween (boundaries_by (cluster_rules segmenter.entry)) before one other }
{
    engine::certain_places(segmenter.engine, before, one, other);
}

/// Law: the clusters of a `str` are those of its bytes as UTF-8, since a `str` is the special case of UTF-8 in which no
/// item is ill-formed.
pub fn str_and_its_bytes<'data, 's>(
    segmenter: GraphemeClusterSegmenterBorrowed<'data>,
    text: &'s str,
) -> (
    GraphemeClusterBreakIterator<'data, StrCharIndices<'s>>,
    GraphemeClusterBreakIterator<'data, Utf8CharIndices<'s>>,
)
    ensures one { clusters_left result.0 ≡ clusters_left result.1 }
    ensures boundaries { clusters_left result.0 ≡ boundaries_of (cluster_rules segmenter.entry) (utf8 text.now) }
{
    (
        segmenter.segment_str(text),
        segmenter.segment_utf8(text.as_bytes()),
    )
}
