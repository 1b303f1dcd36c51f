//! Laws of pieces, and of the cuts of pieces and runs, for the proofs of words and lines.

ghost use Rattle.std.specs.Prelude.{◌≡◌, ℕ, Option, List, [], ◌∷◌, length};
ghost use Rattle.seg_text.specs.Boundaries.{RisesTo, with_status};
ghost use Rattle.seg_data.specs.declared.provider.ComplexScript.{ComplexScript};
ghost use Rattle.seg_data.specs.ScriptWords.{ScriptWords, AreSameWords};
ghost use Rattle.seg_data.specs.WordSets.{IsSameSet, Words};
ghost use Rattle.seg_clusters.specs.Rules.{boundaries_by};
ghost use Rattle.seg_machine.specs.Machine.{Machine};
ghost use Rattle.seg_clusters.specs.Clusters.{cluster_rules};
ghost use Rattle.seg_clusters.specs.DictionaryCuts.{AreDictionaryCuts, Clusters, dictionary_cuts, by_dictionaries, small_clusters, thai_word, thai_words, edition_words, replacement_word};
ghost use Rattle.seg_clusters.specs.Spans.{inner_cuts, IsOutsideRuns, PartsCuts};
ghost use Rattle.seg_clusters.specs.Payloads.{Payloads, run_cuts_by};
ghost use Rattle.seg_clusters.specs.Scripts.{ArePieces, pieces, PieceCuts, CoverPieces, CoverRuns, at_end, run_cuts};

use crate::grapheme::GraphemeClusterSegmenterBorrowed;
use crate::laws::grapheme;

/// Law: a list of code points has exactly one list of pieces: joined they are the list, none is empty, each has code points
/// of one script, and neighbours have different ones.
pub fn pieces_are_one()
    ensures are { (code_points : List ℕ) → ArePieces code_points (pieces code_points) }
    ensures only { (code_points : List ℕ) (found : List (List ℕ)) → ArePieces code_points found → found ≡ pieces code_points }
{}

/// Law: the cuts of a run, counted in code points, rise strictly from its start, where there is none, and the last is at its
/// end. So it is for any cuts of pieces that do the same in each piece.
pub fn cuts_cover_runs()
    ensures at_end { (run : List ℕ) → RisesTo 0 (with_status 0 (run_cuts at_end run)) (length run) }
    ensures any { (cuts : PieceCuts) → CoverPieces cuts → CoverRuns cuts }
{}

/// Law: a piece has exactly one list of cuts by a set of words, in code points. From the piece's start and from each cut but the last, the
/// next one is the end of the longest word there that ends with a cluster. If there is none, it is the first end of a cluster that isn't
/// before the first dead end, where code points are read that no longer word begins with. If there is no dead end, it is the piece's end.
/// The clusters are those of the piece alone.
pub fn dictionary_cuts_are_one(clusters: GraphemeClusterSegmenterBorrowed<'_>)
    ensures are { (words : Words) (piece : List ℕ)
        → AreDictionaryCuts words (boundaries_by (cluster_rules clusters.entry)) piece (dictionary_cuts words (boundaries_by (cluster_rules clusters.entry)) piece) }
    ensures only { (words : Words) (piece found : List ℕ) → AreDictionaryCuts words (boundaries_by (cluster_rules clusters.entry)) piece found
        → found ≡ dictionary_cuts words (boundaries_by (cluster_rules clusters.entry)) piece }
{
    grapheme::cover(clusters);
    grapheme::restart(clusters);
}

/// Law: where each piece is cut by the words of its script, or at its end alone where the script has none, the cuts rise strictly from the
/// piece's start, where there is none, and the last is at its end. So they do in each run.
pub fn dictionary_cuts_cover(clusters: GraphemeClusterSegmenterBorrowed<'_>)
    ensures pieces { (dictionaries : ComplexScript → Option Words)
        → CoverPieces (by_dictionaries dictionaries (boundaries_by (cluster_rules clusters.entry))) }
    ensures runs { (dictionaries : ComplexScript → Option Words)
        → CoverRuns (by_dictionaries dictionaries (boundaries_by (cluster_rules clusters.entry))) }
{
    grapheme::cover(clusters);
}

/// Law: what a piece is cut by is a set of words: in what order they come, and how often, says nothing; nor does it for runs,
/// which are cut by the words of each script.
pub fn equal_words()
    ensures pieces { (words others : Words) → IsSameSet words others → (clusters : Clusters) → dictionary_cuts words clusters ≡ dictionary_cuts others clusters }
    ensures runs { (payloads : Payloads) (others : ScriptWords) → AreSameWords payloads.words others
        → run_cuts_by (record { words = others; clusters = payloads.clusters }) ≡ run_cuts_by payloads }
{}

/// Law: the cuts strictly inside runs, where a machine tells the runs, may be split after each code point that stands in no run. Where the
/// first of two lists of code points ends with it, the cuts of both, joined, are those of the first, and then those of the second, so much
/// later.
pub fn cuts_part_outside_runs()
    ensures { (m : Machine) (payloads : Payloads) (code_point : ℕ) → IsOutsideRuns m payloads.words code_point
        → PartsCuts (inner_cuts m payloads) code_point }
{}

/// Law: where small sets of words cut, where U+0301 and U+0E34 belong to the cluster before them and each other code point
/// begins one.
pub fn small_dictionaries_cut()
    ensures inside_cluster { dictionary_cuts (thai_word ∷ []) small_clusters (0x0E01 ∷ 0x0E01 ∷ 0x0E34 ∷ []) ≡ 3 ∷ [] }
    ensures longer_word { dictionary_cuts thai_words small_clusters (0x0E01 ∷ 0x0E02 ∷ []) ≡ 2 ∷ [] }
    ensures no_words { dictionary_cuts [] small_clusters (0x0E01 ∷ 0x0E02 ∷ []) ≡ 1 ∷ 2 ∷ [] }
    ensures empty_word { dictionary_cuts ([] ∷ []) small_clusters (0x0E01 ∷ 0x0E02 ∷ []) ≡ 1 ∷ 2 ∷ [] }
    ensures one_cluster { dictionary_cuts [] small_clusters (0x0E01 ∷ 0x0E34 ∷ []) ≡ 2 ∷ [] }
    ensures word_twice { dictionary_cuts ((0x0E01 ∷ []) ∷ (0x0E01 ∷ []) ∷ []) small_clusters (0x0E01 ∷ 0x0E01 ∷ []) ≡ 1 ∷ 2 ∷ [] }
    ensures twice { dictionary_cuts edition_words small_clusters (0x30A8 ∷ 0x30C7 ∷ 0x30A3 ∷ 0x30BF ∷ 0x30FC ∷ 0x30A8 ∷ 0x30C7 ∷ 0x30A3 ∷ 0x30BF ∷ 0x30FC ∷ []) ≡ 5 ∷ 10 ∷ [] }
    ensures shorter { dictionary_cuts edition_words small_clusters (0x30A8 ∷ 0x30C7 ∷ 0x30A3 ∷ 0x30BF ∷ 0x30FC ∷ 0x30A8 ∷ 0x30C7 ∷ 0x30A3 ∷ []) ≡ 5 ∷ 8 ∷ [] }
    ensures back { dictionary_cuts edition_words small_clusters (0x30A8 ∷ 0x30C7 ∷ 0x30A3 ∷ 0x30BF ∷ 0x30FC ∷ 0x30A8 ∷ 0x30C7 ∷ 0x30A3 ∷ 0x30B7 ∷ 0x30BD ∷ []) ≡ 5 ∷ 8 ∷ 9 ∷ 10 ∷ [] }
    ensures replacement { dictionary_cuts (replacement_word ∷ []) small_clusters (0xFFFD ∷ 0x0301 ∷ []) ≡ 2 ∷ [] }
{}
