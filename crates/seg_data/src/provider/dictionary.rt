//! Dictionaries: sets of words that are kept as packed tries.
ghost use Rattle.std.specs.Prelude.{◌≡◌, IfOk, IfErr};
ghost use Rattle.seg_data.specs.Trie.{IsTrie, trie};

mod building;
mod cursor;
mod edges;
mod sorting;

use crate::provider::DataError;
use building::Draft;
pub use cursor::DictionaryCursor;
use sorting::sorted;
use std::alloc::Global;

/// A set of words, kept as a packed trie: a node for each beginning of a word.
#[derive(Debug)]
pub struct DictionaryBreakData {
    // For each node, whether it is a word.
    flags: Vec<bool>,
    // For each node, where its edges begin. They end where those of the next node begin, and after
    // the last node stands where its edges end.
    starts: Vec<usize>,
    // For each edge, its code point and its target.
    edges: Vec<(u32, usize)>,
    ghost is_trie: { IsTrie (trie flags.items starts.items edges.items) },
}

// Written out, so that it is proved here and not in each program.
impl Drop for DictionaryBreakData {
    fn drop(self) {
        let DictionaryBreakData {
            flags: _,
            starts: _,
            edges: _,
        } = self;
    }
}

impl DictionaryBreakData {
    ghost use Rattle.seg_data.specs.ScriptWords.{words_of};
    ghost use Rattle.seg_data.specs.WordSets.{IsSameSet, code_points_of_each};

    /// The set of these words: their order says nothing, and a word that is there twice counts once.
    /// The empty word is a word as any other.
    ///
    /// Takes 25 bytes at most for each code point of a word, a node of 9 and an edge of 16, which
    /// words that begin alike share, and 17 bytes more. While it is built it takes some four times as
    /// much. Beyond sorting the words, its time grows as their code points do.
    /// `Memory` when out of memory, and for nothing else: the words are only read.
    pub fn try_from_words(alloc: Global, words: &[&str]) -> Result<Self, DataError>
        ensures words { IfOk result (λ dictionary. IsSameSet (words_of dictionary) (code_points_of_each words.now)) }
        ensures rejected { IfErr result (λ fault. fault ≡ DataError.Memory) }
    {
        let sorted = sorted(alloc, words)?;
        let draft = Draft::whole(alloc, sorted.as_slice())?;
        Ok(DictionaryBreakData {
            flags: draft.flags,
            starts: draft.starts,
            edges: draft.edges,
        })
    }
}
