//! How a packed trie is built from words in order, node by node.
ghost use Rattle.std.specs.Prelude.{◌≡◌, ℕ, ◌+◌, ◌-◌, ◌<◌, ◌≤◌, ◌^◌, OnOk, IfOk, length, slice_index, slice_index_or};
ghost use Rattle.seg_data.specs.Building.{AreAdded, AreLonger, IsBegun, IsDraft, IsGroup, IsRange, left, letter, word_at};
ghost use Rattle.seg_data.specs.WordSets.{IsInOrder, held};
ghost use Rattle.seg_data.specs.Trie.{trie, words_from, IsTrie};

use std::alloc::{AllocError, Global};

// A range of words, (first, end, depth): those from the first to before the end, which begin with the
// same code points, as many as the depth.
type Range = (usize, usize, usize);

/// A trie whose first nodes stand.
#[derive(Drop)]
pub(super) struct Draft {
    /// For each node that stands, whether it is a word.
    pub(super) flags: Vec<bool>,
    /// For each node that stands, where its edges begin, and then where those of the last end.
    pub(super) starts: Vec<usize>,
    /// For each edge, its code point and its target.
    pub(super) edges: Vec<(u32, usize)>,
    // For each node that stands or is the target of an edge, the range of its words.
    ranges: Vec<Range>,
}

impl Draft {
    /// The trie of words that are in order.
    pub(super) fn whole(alloc: Global, words: &[Vec<char>]) -> Result<Self, AllocError>
        requires { IsInOrder (held words.now) }
        ensures trie { IfOk result (λ d. IsTrie (trie d.flags.items d.starts.items d.edges.items)) }
        ensures words { IfOk result (λ d. words_from (trie d.flags.items d.starts.items d.edges.items) 0 ≡ held words.now) }
    {
        let mut draft = Draft::new(alloc, words)?;
        while draft.flags.len() < draft.ranges.len() {
            draft.add_node(words)?;
        }
        draft.shrink_to_fit();
        Ok(draft)
    }

    // Gives back the memory that the trie doesn't need.
    fn shrink_to_fit(&mut self)
        ensures flags { self.new.flags.items ≡ self.old.flags.items }
        ensures starts { self.new.starts.items ≡ self.old.starts.items }
        ensures edges { self.new.edges.items ≡ self.old.edges.items }
    {
        self.flags.shrink_to_fit();
        self.starts.shrink_to_fit();
        self.edges.shrink_to_fit();
    }

    // The root is known, and no node stands.
    fn new(alloc: Global, words: &[Vec<char>]) -> Result<Self, AllocError>
        requires { IsInOrder (held words.now) }
        ensures { IfOk result (λ d. IsDraft (held words.now) d.ranges.items (trie d.flags.items d.starts.items d.edges.items)) }
    {
        Ok(Draft {
            flags: Vec::new(alloc),
            starts: vec![in alloc; 0]?,
            edges: Vec::new(alloc),
            ranges: vec![in alloc; (0, words.len(), 0)]?,
        })
    }

    // Adds the first node that doesn't stand yet.
    fn add_node(&mut self, words: &[Vec<char>]) -> Result<(), AllocError>
        requires draft { IsDraft (held words.now) self.old.ranges.items (trie self.old.flags.items self.old.starts.items self.old.edges.items) }
        requires known { length self.old.flags.items < length self.old.ranges.items }
        ensures draft { OnOk result (IsDraft (held words.now) self.new.ranges.items (trie self.new.flags.items self.new.starts.items self.new.edges.items)) }
        ensures owes { OnOk result (left (held words.now) self.new.ranges.items (length self.new.flags.items) < left (held words.now) self.old.ranges.items (length self.old.flags.items)) }
    {
        let (first, end, depth) = self.ranges[self.flags.len()];
        let (is_word, begin) = word_and_rest(words, first, end, depth);
        self.add_edges(words, begin, end, depth)?;
        self.flags.push(is_word)?;
        self.starts.push(self.edges.len())?;
        Ok(())
    }

    // Adds an edge, and the range that it leads to, for each code point at this depth of words.
    fn add_edges(
        &mut self,
        words: &[Vec<char>],
        begin: usize,
        end: usize,
        depth: usize,
    ) -> Result<(), AllocError>
        requires range { IsRange (held words.now) (begin, end, depth) }
        requires longer { AreLonger (held words.now) depth begin end }
        ensures added { OnOk result (AreAdded (held words.now) depth begin end end self.old.ranges.items self.new.ranges.items self.old.edges.items self.new.edges.items) }
        ensures flags { self.new.flags ≡ self.old.flags }
        ensures starts { self.new.starts ≡ self.old.starts }
    {
        let mut first = begin;
        while first < end {
            let next = group_end(words, first, end, depth);
            self.edges
                .push((code_point(words, first, depth), self.ranges.len()))?;
            self.ranges.push((first, next, depth + 1))?;
            first = next;
        }
        Ok(())
    }
}

// Whether the first of a node's words ends at the node's depth, and where the longer words begin.
fn word_and_rest(words: &[Vec<char>], first: usize, end: usize, depth: usize) -> (bool, usize)
    requires { IsRange (held words.now) (first, end, depth) }
    ensures { IsBegun (held words.now) first end depth result.0 result.1 }
{
    if first < end && length_of(words, first) == depth {
        (true, first + 1)
    } else {
        (false, first)
    }
}

// Where the words end that have the same code point at this depth as the first.
fn group_end(words: &[Vec<char>], first: usize, end: usize, depth: usize) -> usize
    requires some { first < end }
    requires within { end ≤ length (held words.now) }
    requires longer { AreLonger (held words.now) depth first end }
    ensures { IsGroup (held words.now) depth first end result }
{
    let shared = code_point(words, first, depth);
    let mut next = first + 1;
    while next < end && code_point(words, next, depth) == shared {
        next += 1;
    }
    next
}

// The code point at this depth of a word.
fn code_point(words: &[Vec<char>], word: usize, depth: usize) -> u32
    requires word { word < length (held words.now) }
    requires depth { depth < length (word_at (held words.now) word) }
    ensures value { result ≡ letter (held words.now) depth word }
    ensures room { depth + 1 < 2 ^ 64 }
{
    let characters = &words[word];
    characters[depth] as u32
}

// How many code points a word has.
fn length_of(words: &[Vec<char>], word: usize) -> usize
    requires { word < length (held words.now) }
    ensures { result ≡ length (word_at (held words.now) word) }
{
    words[word].len()
}
