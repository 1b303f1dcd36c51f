//! Values of places, found in a trie.

ghost use Rattle.std.specs.Prelude.{◌≡◌, ℕ, ◌+◌, ◌<◌, ◌≤◌, ◌^◌, None, List, max, length, slice_index};
ghost use Rattle.seg_hyphens.specs.Liang.{edged, IsValue, Pattern};
ghost use Rattle.seg_hyphens.specs.Tries.{child, IsSound, Keeps};
ghost use Rattle.seg_hyphens.specs.Values.{AreRaised};

use crate::trie::Trie;

// The edge of a word.
const EDGE: u8 = b'.';

// The letter of a word with its edges at an index.
fn letter_at(word: &[u8], index: usize) -> u8
    requires inside { index < length word.now + 2 }
    ensures { result ≡ slice_index (edged word.now) index }
{
    if index == 0 || index > word.len() {
        return EDGE;
    }
    word[index - 1]
}

// The node to which the letter at an index leads from a node. None does behind the last.
fn next_node(trie: &Trie, node: usize, word: &[u8], index: usize) -> Option<usize>
    ensures some { index < length word.now + 2 → result ≡ child trie.now node (slice_index (edged word.now) index) }
    ensures none { length word.now + 2 ≤ index → result ≡ None }
{
    if index > word.len() && index - word.len() > 1 {
        return None;
    }
    trie.child(node, letter_at(word, index))
}

// Raises values from a start on to digits.
fn raise(values: &mut [usize], start: usize, digits: &[u8])
    requires { start ≤ length values.old }
    ensures behind { (offset : ℕ) → start + offset < length values.old → slice_index values.new (start + offset) ≡ max (slice_index values.old (start + offset)) (slice_index digits.now offset) }
    ensures before { (place : ℕ) → place < start → slice_index values.new place ≡ slice_index values.old place }
{
    let len = digits.len().min(values.len() - start);
    for offset in 0..len {
        values[start + offset] = values[start + offset].max(usize::from(digits[offset]));
    }
}

// Raises values to the digits of all patterns that fit a word with its edges behind so many letters.
fn raise_from(trie: &Trie, word: &[u8], start: usize, values: &mut [usize])
    requires sound { IsSound trie.now }
    requires inside { start ≤ length word.now + 2 }
    requires long { length values.old ≡ length word.now + 3 }
    requires raised { AreRaised trie.now (edged word.now) start 0 values.old }
    ensures { AreRaised trie.now (edged word.now) (start + 1) 0 values.new }
{
    let mut next = Some(0);
    let mut count = 0;
    'letters: while let Some(node) = next {
        raise(values, start, trie.node_digits(node));
        next = next_node(trie, node, word, start + count);
        count += 1;
    }
}

/// Sets the values of all places of a word with its edges. All are 0 before.
pub fn set_values(trie: &Trie, word: &[u8], values: &mut [usize])
    requires sound { IsSound trie.now }
    requires room { length word.now + 3 < 2 ^ 64 }
    requires long { length values.old ≡ length word.now + 3 }
    requires zero { (place : ℕ) → slice_index values.old place ≡ 0 }
    ensures { (patterns : List Pattern) → Keeps trie.now patterns → (place : ℕ) → place < length word.now + 3 → IsValue patterns (edged word.now) place (slice_index values.new place) }
{
    'starts: for start in 0..word.len() + 3 {
        raise_from(trie, word, start, values);
    }
}
