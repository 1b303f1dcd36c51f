//! Patterns in a trie.

ghost use Rattle.std.specs.Prelude.{◌≡◌, ◌+◌, ◌++◌, ◌<◌, ◌≤◌, Some, IfOk, OnOk, [], length, take, drop, slice_index};
ghost use Rattle.seg_hyphens.specs.Tries.{merged};

use std::alloc::{AllocError, Global};
use std::collections::HashMap;

/// Letters of patterns, and for each the digits of the patterns with these letters. The root is node 0.
pub struct Trie {
    // The node to which a letter leads from a node.
    pub children: HashMap<(usize, u8), usize>,
    // Of each node, where its digits begin, and how many they are.
    pub ranges: Vec<(usize, usize)>,
    // The digits of all nodes.
    pub digits: Vec<u8>,
}

// Written out, so that it is proved here and not in each program.
impl Drop for Trie {
    fn drop(self) {
        let Trie {
            children: _,
            ranges: _,
            digits: _,
        } = self;
    }
}

impl Trie {
    ghost use Rattle.seg_hyphens.specs.Tries.{child, kept, walk, node_digits, Adds, Grows, IsSound, IsTrie, Keeps};

    /// No patterns.
    pub fn try_new(alloc: Global) -> Result<Self, AllocError>
        ensures is { IfOk result IsTrie }
        ensures keeps { IfOk result (λ trie. Keeps trie []) }
    {
        let mut ranges = Vec::new(alloc);
        ranges.push((0, 0))?;
        Ok(Trie {
            children: HashMap::new(alloc),
            ranges,
            digits: Vec::new(alloc),
        })
    }

    /// The node to which a letter leads from a node.
    pub fn child(&self, node: usize, letter: u8) -> Option<usize>
        ensures { result ≡ child self.now node letter }
    {
        self.children.get(&(node, letter)).copied()
    }

    /// The digits of a node.
    pub fn node_digits(&self, node: usize) -> &[u8]
        requires sound { IsSound self.now }
        requires inside { node < length self.now.ranges.items }
        ensures { result.now ≡ node_digits self.now.ranges.items self.now.digits.items node }
    {
        let (start, len) = self.ranges[node];
        &self.digits[start..start + len]
    }

    // The node to which a letter leads from a node, a new one where it leads nowhere.
    fn child_or_new(&mut self, node: usize, letter: u8) -> Result<usize, AllocError>
        requires is { IsTrie self.old }
        requires inside { node < length self.old.ranges.items }
        ensures grows { OnOk result (Grows self.old self.new) }
        ensures leads { IfOk result (λ next. child self.new node letter ≡ Some next) }
    {
        if let Some(next) = self.child(node, letter) {
            return Ok(next);
        }
        let next = self.ranges.len();
        self.ranges.push((0, 0))?;
        self.children.insert((node, letter), next)?;
        Ok(next)
    }

    // The node to which letters lead from the root. What is missing on the way to it is made.
    fn node_of(&mut self, letters: &[u8]) -> Result<usize, AllocError>
        requires is { IsTrie self.old }
        ensures grows { OnOk result (Grows self.old self.new) }
        ensures leads { IfOk result (λ node. walk (child self.new) 0 letters.now ≡ Some node) }
    {
        let mut node = 0;
        for &letter in letters {
            node = self.child_or_new(node, letter)?;
        }
        Ok(node)
    }

    /// Adds a pattern.
    pub fn add(&mut self, letters: &[u8], digits: &[u8]) -> Result<(), AllocError>
        requires is { IsTrie self.old }
        ensures is { OnOk result (IsTrie self.new) }
        ensures adds { OnOk result (Adds self.old self.new letters.now digits.now) }
    {
        let node = self.node_of(letters)?;
        let (start, len) = self.ranges[node];
        let begin = self.digits.len();
        push_merged(&mut self.digits, start, len, digits)?;
        self.ranges[node] = (begin, self.digits.len() - begin);
        Ok(())
    }
}

// The digit at a place, and 0 behind the last.
fn digit_at(digits: &[u8], offset: usize) -> u8
    ensures { result ≡ slice_index digits.now offset }
{
    digits.get(offset).copied().unwrap_or(0)
}

// Appends the greater of the digits that stand in a range and of others, at each place.
fn push_merged(all: &mut Vec<u8>, start: usize, len: usize, others: &[u8]) -> Result<(), AllocError>
    requires { start + len ≤ length all.old.items }
    ensures { OnOk result (all.new.items ≡ all.old.items ++ merged (take len (drop start all.old.items)) others.now) }
{
    for offset in 0..len.max(others.len()) {
        let digit = digit_at(&all[start..start + len], offset);
        let other = digit_at(others, offset);
        all.push(digit.max(other))?;
    }
    Ok(())
}
