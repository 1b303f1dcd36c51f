//! The edges of a node.
ghost use Rattle.std.specs.Prelude.{◌≡◌, ℕ, ◌<◌, IfSome, [], length, slice_index_or};
ghost use Rattle.std.specs.Option.{option_map_or};
ghost use Rattle.seg_data.specs.Trie.{IsFirstFrom, AreEdgesRising, words_along};
ghost use Rattle.seg_data.specs.WordSets.{Words, tails_after};

/// Where the edge of a code point leads, by halving edges that rise, if there is such an edge.
pub(super) fn target_of(edges: &[(u32, usize)], code_point: u32) -> Option<usize>
    requires { AreEdgesRising edges.now }
    ensures words { (words_from : ℕ → Words) → tails_after code_point (words_along words_from edges.now) ≡ option_map_or words_from result [] }
    ensures is_there { IfSome result (λ target. (k : ℕ) × (k < length edges.now) × (target ≡ (slice_index_or edges.now k (0, 0)).1)) }
{
    let place = first_from(edges, code_point);
    if place < edges.len() && edges[place].0 == code_point {
        Some(edges[place].1)
    } else {
        None
    }
}

// The place of the first edge whose code point isn't below this one, or how many edges there are.
fn first_from(edges: &[(u32, usize)], code_point: u32) -> usize
    requires { AreEdgesRising edges.now }
    ensures { IsFirstFrom edges.now code_point result }
{
    let mut low = 0;
    let mut high = edges.len();
    while low < high {
        let middle = low + (high - low) / 2;
        if edges[middle].0 < code_point {
            low = middle + 1;
        } else {
            high = middle;
        }
    }
    low
}
