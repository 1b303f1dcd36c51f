//! Rules, as they are read: by the numbers of their rows, of which those above that of marks come first.

use crate::patterns::has;
use seg_rules::rules::{Row, Rules};
use std::alloc::Global;

/// The rules, the symbols of texts beside the end, and the allocator.
#[derive(Clone, Copy)]
pub(crate) struct Given<'a> {
    pub(crate) alloc: Global,
    pub(crate) rules: &'a Rules<'a>,
    pub(crate) symbols: u8,
}

impl<'a> Given<'a> {
    /// How many rows there are.
    pub(crate) fn len(self) -> usize {
        self.rules
            .above
            .len()
            .saturating_add(self.rules.below.len())
    }

    /// The row of a number.
    pub(crate) fn row(self, number: usize) -> Option<&'a Row<'a>> {
        match number.checked_sub(self.rules.above.len()) {
            Some(number) => self.rules.below.get(number),
            None => self.rules.above.get(number),
        }
    }

    /// Whether a number is that of a row below that of marks.
    pub(crate) fn is_below(self, number: usize) -> bool {
        number >= self.rules.above.len()
    }

    /// Whether a symbol is a mark.
    pub(crate) fn is_mark(self, symbol: u8) -> bool {
        has(self.rules.marks, symbol)
    }

    /// The symbol as which a row of a number reads a symbol: below that of marks a mark that isn't glued is another one.
    pub(crate) fn read_as(self, number: usize, symbol: u8) -> u8 {
        if self.is_below(number) && self.is_mark(symbol) {
            self.rules.alone
        } else {
            symbol
        }
    }

    /// Whether a mark would be glued after a symbol.
    pub(crate) fn glues(self, glues: bool, symbol: u8) -> bool {
        (glues && self.is_mark(symbol)) || (self.rules.has_marks && !has(self.rules.bare, symbol))
    }
}
