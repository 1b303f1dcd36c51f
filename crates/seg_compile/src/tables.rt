//! The tables of rules: what may stand before places, and what may be owed to them.

use crate::befores::Befores;
use crate::dues::{Draft, Dues, VERDICTS};
use crate::fault::Fault;
use crate::given::Given;
use crate::lists::at;

/// The tables of rules over so many symbols.
#[derive(Drop)]
pub(crate) struct Tables {
    pub(crate) symbols: u8,
    pub(crate) befores: Befores,
    // Of each that stands before a place, what is owed to it.
    owes: Vec<u8>,
    pub(crate) dues: Dues,
}

impl Tables {
    /// The tables of rules.
    pub(crate) fn new(given: Given<'_>) -> Result<Tables, Fault> {
        let mut tables = Tables {
            symbols: given.symbols,
            befores: Befores::new(given)?,
            owes: Vec::new(given.alloc),
            dues: Dues::new(given),
        };
        let mut draft = Draft::new(given);
        for before in 0..u16::MAX {
            if usize::from(before) >= tables.befores.len() {
                break;
            }
            draft.owe(tables.befores.records.get(before))?;
            tables.owes.push(tables.dues.number(&draft)?)?;
        }
        tables.dues.follow_all(given)?;
        Ok(tables)
    }

    /// What is owed to a place before which this stands.
    pub(crate) fn owes(&self, before: u16) -> u8 {
        at(self.owes.as_slice(), usize::from(before), 0)
    }

    /// What is owed after a symbol, where this stands before it.
    pub(crate) fn after(&self, number: u8, before: u16, symbol: u8) -> u8 {
        self.dues.after(number, symbol, self.befores.glues(before))
    }

    /// The status that a place is accepted with to which this is owed.
    pub(crate) fn status(&self, given: Given<'_>, number: u8) -> u8 {
        let (entries, otherwise) = self.dues.owed(number);
        let mut verdicts = entries.iter().map(|entry| given.verdict(entry.0));
        let first = verdicts.find(|verdict| *verdict != 0).unwrap_or(0);
        otherwise.max(first).saturating_sub(1)
    }

    /// Whether an older place may turn out to be no boundary, and the newest one then to be one, when one more symbol is read.
    pub(crate) fn may_follow(&self, before: u16, older: u8, newest: u8) -> bool {
        for symbol in 0..=self.symbols {
            if self.after(older, before, symbol) == 0 && self.after(newest, before, symbol) != 0 {
                return true;
            }
        }
        false
    }
}

/// Whether this is the verdict of a boundary.
pub(crate) fn is_sure(number: u8) -> bool {
    number != 0 && number < VERDICTS
}

/// Whether verdicts are still open.
pub(crate) fn is_open(number: u8) -> bool {
    number >= VERDICTS
}
