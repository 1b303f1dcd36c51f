//! Symbols by their names, with their sets of code points. For the readers of sets and of rules, and for `TextRules`.

ghost use Rattle.std.specs.Prelude.{◌≤◌};

use crate::fault::Fault;
use crate::line::spells;
use crate::merge::Join;
use crate::points::CodePoints;
use seg_machine::provider::Symbol;
use seg_rules::rules::Class;
use std::alloc::{AllocError, Global};

/// The symbols from 1 on, each with its set, and then `other`, for what is in none of the sets.
#[derive(Drop)]
pub(crate) struct Symbols {
    sets: Vec<Named>,
    // What is in any of the sets.
    taken: CodePoints,
}

// A symbol: its name, the line of its set, and the set.
#[derive(Drop)]
struct Named {
    name: String,
    line: usize,
    points: CodePoints,
}

/// The name of what is in no set.
pub(crate) const OTHER: &str = "other";

// One more symbol is `other`, and a class has bits for those from 0 up to 127.
const MAX_SETS: usize = 126;

impl Symbols {
    /// `other` alone.
    pub(crate) fn new(alloc: Global) -> Symbols {
        Symbols {
            sets: Vec::new(alloc),
            taken: CodePoints::none(alloc),
        }
    }

    /// How many symbols there are, which is the number of `other`.
    pub(crate) fn count(&self) -> Symbol
        ensures some { 1 ≤ result }
        ensures few { result ≤ 127 }
    {
        self.sets.len().min(MAX_SETS) as u8 + 1
    }

    // The place of a set in their list, by its name.
    fn index_of(&self, word: &[char]) -> Option<usize> {
        for (index, set) in self.sets.iter().enumerate() {
            if spells(set.name.as_str(), word) {
                return Some(index);
            }
        }
        None
    }

    /// The set with a name.
    pub(crate) fn points_of(&self, alloc: Global, word: &[char]) -> Result<CodePoints, Fault> {
        for set in self.sets.as_slice() {
            if spells(set.name.as_str(), word) {
                return Ok(set.points.copied(alloc)?);
            }
        }
        Err(Fault::NoTerm)
    }

    /// The name of a symbol; `None` for the end of the text, and for what is no symbol.
    pub(crate) fn name_of(&self, symbol: Symbol) -> Option<&str> {
        if symbol == self.count() {
            return Some(OTHER);
        }
        let index = usize::from(symbol).checked_sub(1)?;
        Some(self.sets.get(index)?.name.as_str())
    }

    /// The symbol with a name, and not the start or the end of the text.
    pub(crate) fn number_of(&self, word: &[char]) -> Result<Symbol, Fault> {
        if spells(OTHER, word) {
            return Ok(self.count());
        }
        match self.index_of(word) {
            Some(index) if index < MAX_SETS => Ok(index as u8 + 1),
            _ => Err(Fault::UnknownName),
        }
    }

    /// The class of all symbols, without the start and the end of the text.
    pub(crate) fn all(&self) -> Class {
        (u128::MAX >> (127 - u32::from(self.count().min(127)))) & !1
    }

    /// Adds a symbol, with the line of its set, and the set.
    pub(crate) fn add(
        &mut self,
        alloc: Global,
        word: &[char],
        line: usize,
        points: CodePoints,
    ) -> Result<(), Fault> {
        let shared = self.taken.joined(alloc, &points, Join::Both)?;
        if let Some(code_point) = shared.lowest() {
            return Err(self.shared(code_point));
        }
        self.taken = self.taken.joined(alloc, &points, Join::Either)?;
        let name = text_of(alloc, word)?;
        self.sets.push(Named { name, line, points })?;
        Ok(())
    }

    /// Whether a symbol may have this name.
    pub(crate) fn check_name(&self, word: &[char]) -> Result<(), Fault> {
        if self.sets.len() >= MAX_SETS {
            return Err(Fault::TooManySets);
        }
        if is_reserved(word) {
            return Err(Fault::ReservedName);
        }
        match self.index_of(word) {
            Some(index) => Err(Fault::NameTwice(self.line_at(index))),
            None => Ok(()),
        }
    }

    /// The ranges of code points of all sets, each with its symbol, in order.
    pub(crate) fn ranges(&self, alloc: Global) -> Result<Vec<(u32, u32, Symbol)>, AllocError> {
        let mut ranges = Vec::new(alloc);
        for (index, set) in self.sets.iter().enumerate() {
            let symbol = index.min(MAX_SETS) as u8 + 1;
            set.points.add_to(&mut ranges, symbol)?;
        }
        ranges.sort()?;
        Ok(ranges)
    }

    // The line of a set.
    fn line_at(&self, index: usize) -> usize {
        match self.sets.get(index) {
            Some(set) => set.line,
            None => 0,
        }
    }

    // Says in which set a code point is too.
    fn shared(&self, code_point: u32) -> Fault {
        let mut line = 0;
        for set in self.sets.as_slice() {
            if set.points.contains(code_point) {
                line = set.line;
                break;
            }
        }
        Fault::SharedCodePoint { code_point, line }
    }
}

// The text of a word.
fn text_of(alloc: Global, word: &[char]) -> Result<String, AllocError> {
    let mut text = String::new(alloc);
    for character in word {
        text.push(*character)?;
    }
    Ok(text)
}

fn is_reserved(word: &[char]) -> bool {
    spells(OTHER, word) || spells("X", word) || spells("sot", word) || spells("eot", word)
}
