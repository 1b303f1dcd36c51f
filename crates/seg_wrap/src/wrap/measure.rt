//! How the characters of segments are measured: one by one, or cluster by cluster.

ghost use Rattle.std.specs.Prelude.{◌≡◌, ◌+◌, ◌*◌, ◌<◌, ◌≤◌, ◌^◌, ◌∷◌, [], None, length, map, encode_utf8_all, IfSome};
ghost use Rattle.seg_text.specs.Decoding.{character_of};
ghost use Rattle.seg_text.specs.Items.{code_points, start_of};
ghost use Rattle.seg_clusters.specs.Clusters.{cluster_rules};
ghost use Rattle.seg_wrap.specs.Walk.{line_extent, measure_of};
ghost use Rattle.seg_wrap.specs.Wrapping.{by_clusters, cluster_cell};

use crate::wrap::extent::Extent;
use arrayvec::ArrayString;
use seg_clusters::grapheme::GraphemeClusterSegmenterBorrowed;
use seg_text::character::character_of;
use seg_text::cursor::Cursor;
use unicode_width::UnicodeWidthStr;

/// How the characters of a segment are measured.
#[derive(Clone, Copy)]
pub(crate) enum Measuring<'data> {
    /// One by one.
    Characters,
    /// Cluster by cluster, of the clusters that these find in the segment by itself.
    Clusters(GraphemeClusterSegmenterBorrowed<'data>),
}

impl<'data> Measuring<'data> {
    /// The columns of a segment.
    pub(crate) fn extent_of<I: Cursor>(self, segment: I) -> Extent
        requires { (I.text segment).end < 2 ^ 64 }
        ensures measured { result ≡ line_extent (measure_of self.entry (code_points (I.text segment).items)) }
        ensures small { result.inner_columns + 8 * start_of (I.text segment) ≤ 8 * (I.text segment).end }
    {
        match self {
            Measuring::Characters => Extent::of_text(segment),
            Measuring::Clusters(clusters) => of_clusters(clusters, segment),
        }
    }
}

// The columns of the clusters of a text.
fn of_clusters<I: Cursor>(clusters: GraphemeClusterSegmenterBorrowed<'_>, mut text: I) -> Extent
    requires { (I.text text).end < 2 ^ 64 }
    ensures measured { result ≡ line_extent (by_clusters (cluster_rules clusters.entry) (code_points (I.text text).items)) }
    ensures small { result.inner_columns + 8 * start_of (I.text text) ≤ 8 * (I.text text).end }
{
    let mut boundaries = clusters.boundaries(text.fork());
    let _start = boundaries.next();
    let mut extent = Extent::none();
    'clusters: while let Some(end) = boundaries.next() {
        extent = extent.joined(of_cluster(text.up_to(end)));
        text.seek(end);
    }
    extent
}

// The columns of a cluster.
fn of_cluster<I: Cursor>(cluster: I) -> Extent
    requires { (I.text cluster).end < 2 ^ 64 }
    ensures measured { result ≡ line_extent (cluster_cell (code_points (I.text cluster).items) ∷ []) }
    ensures small { result.inner_columns + 8 * start_of (I.text cluster) ≤ 8 * (I.text cluster).end }
{
    let characters = Extent::of_text(cluster.fork());
    let width = match shown(cluster) {
        Some(shown) => shown.as_str().width() as u128,
        None => characters.inner_columns,
    };
    Extent::of_cell(width, characters.is_trailing)
}

// The characters of a cluster as a str, if that has at most 128 bytes.
fn shown<I: Cursor>(mut cluster: I) -> Option<ArrayString<128>>
    ensures some { IfSome result (λ shown. shown.bytes ≡ encode_utf8_all (map character_of (code_points (I.text cluster).items))) }
    ensures none { result ≡ None → 128 < length (encode_utf8_all (map character_of (code_points (I.text cluster).items))) }
{
    let mut shown = ArrayString::new();
    'items: while let Some((_, code_point)) = cluster.next_item() {
        shown.try_push(character_of(code_point)).ok()?;
    }
    Some(shown)
}
