//! A cursor over the words of a dictionary.
ghost use Rattle.std.specs.Prelude.{◌≡◌, ◌<◌, length};
ghost use Rattle.std.specs.Option.{ForSome};

use crate::provider::DictionaryBreakData;
use crate::provider::dictionary::edges::target_of;
use crate::words::WordCursor;

/// A place in the words of a dictionary: the node that the code points lead to that were read, or
/// none where no word begins with them. It is as cheap to copy as a reference and a number.
#[derive(Clone, Copy)]
pub struct DictionaryCursor<'data> {
    data: &'data DictionaryBreakData,
    node: Option<usize>,
    ghost is_node: { ForSome node (λ n. n < length data.now.flags.items) },
}

impl DictionaryBreakData {
    ghost use Rattle.seg_data.specs.ScriptWords.{words_after, words_of, trie_of};
    ghost use Rattle.seg_data.specs.Trie.{words_from};
    ghost use Rattle.seg_data.specs.WordSets.{has_empty, has_nonempty, tails_after};
    ghost use Rattle.std.specs.Option.{option_map_or};
    ghost use Rattle.std.specs.Prelude.{[]};

    /// A cursor over the words, before any code point was read. Takes no memory.
    pub fn cursor(&self) -> DictionaryCursor<'_>
        ensures { words_after result ≡ words_of self.now }
    {
        DictionaryCursor {
            data: self,
            node: Some(0),
        }
    }

    // The node that a code point leads to from a node, if there is one.
    fn target(&self, node: usize, code_point: u32) -> Option<usize>
        requires { node < length self.now.flags.items }
        ensures words { option_map_or (words_from (trie_of self.now)) result [] ≡ tails_after code_point (words_from (trie_of self.now) node) }
        ensures is_node { ForSome result (λ n. n < length self.now.flags.items) }
    {
        target_of(
            &self.edges[self.starts[node]..self.starts[node + 1]],
            code_point,
        )
    }

    // Whether a node is a word.
    fn is_word(&self, node: usize) -> bool
        requires { node < length self.now.flags.items }
        ensures { result ≡ has_empty (words_from (trie_of self.now) node) }
    {
        self.flags[node]
    }

    // Whether a longer word goes on from a node.
    fn goes_on(&self, node: usize) -> bool
        requires { node < length self.now.flags.items }
        ensures { result ≡ has_nonempty (words_from (trie_of self.now) node) }
    {
        self.starts[node] < self.starts[node + 1]
    }
}

impl<'data> WordCursor for DictionaryCursor<'data> {
    ghost use Rattle.seg_data.specs.ScriptWords.{words_after};

    ghost tails = { words_after };

    fn fork(&self) -> Self {
        *self
    }

    fn step(&mut self, code_point: u32) {
        self.node = match self.node {
            Some(node) => self.data.target(node, code_point),
            None => None,
        };
    }

    fn is_word(&self) -> bool {
        match self.node {
            Some(node) => self.data.is_word(node),
            None => false,
        }
    }

    fn goes_on(&self) -> bool {
        match self.node {
            Some(node) => self.data.goes_on(node),
            None => false,
        }
    }
}
