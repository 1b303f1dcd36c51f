//! What may stand before places: of each row which rests of its left pattern may come next, and whether a mark would be glued.

use crate::fault::Fault;
use crate::given::Given;
use crate::lists::{at, row};
use crate::patterns::flow;
use crate::records::{Records, Way};
use std::alloc::AllocError;

/// What may stand before places, and where each symbol leads from there.
#[derive(Drop)]
pub(crate) struct Befores {
    // Of each row what is live, and then 1 if a mark would be glued, or 0.
    pub(crate) records: Records,
    // Of each, by each symbol from 1 on, the number of what stands before the next place.
    moves: Vec<u16>,
    symbols: u8,
}

// At most so much may stand before places.
const MOST: u16 = 4096;

impl Befores {
    /// All that may stand before a place.
    pub(crate) fn new(given: Given<'_>) -> Result<Befores, Fault> {
        let mut befores = Befores {
            records: Records::new(given.alloc, given.len().saturating_add(1), MOST)?,
            moves: Vec::new(given.alloc),
            symbols: given.symbols,
        };
        let mut record = Vec::new(given.alloc);
        start(given, &mut record)?;
        befores.records.number(record.as_slice(), None)?;
        for from in 0..MOST {
            if usize::from(from) >= befores.len() {
                break;
            }
            befores.follow(given, from, &mut record)?;
        }
        Ok(befores)
    }

    // Where the symbols lead from there.
    fn follow(&mut self, given: Given<'_>, from: u16, record: &mut Vec<u32>) -> Result<(), Fault> {
        for symbol in 1..=self.symbols {
            moved(given, self.records.get(from), symbol, record)?;
            let way = Way { from, symbol };
            let to = self.records.number(record.as_slice(), Some(way))?;
            self.moves.push(to)?;
        }
        Ok(())
    }

    /// How many there are.
    pub(crate) fn len(&self) -> usize {
        self.records.len()
    }

    /// Whether a mark would be glued there.
    pub(crate) fn glues(&self, before: u16) -> bool {
        glued(self.records.get(before))
    }

    /// By each symbol, what stands before the next place.
    pub(crate) fn moves(&self, before: u16) -> &[u16] {
        row(
            self.moves.as_slice(),
            usize::from(before),
            usize::from(self.symbols),
        )
    }

    /// What stands before the next place, after a symbol.
    pub(crate) fn moved(&self, before: u16, symbol: u8) -> u16 {
        at(self.moves(before), usize::from(symbol.saturating_sub(1)), 0)
    }
}

// Whether a mark would be glued: the last word of a record says so.
fn glued(record: &[u32]) -> bool {
    record.last() == Some(&1)
}

// What stands before the first place: of each row, what is live at the start of a text, symbol 0.
fn start(given: Given<'_>, record: &mut Vec<u32>) -> Result<(), AllocError> {
    for number in 0..given.len() {
        if let Some(row) = given.row(number) {
            let whole = flow(true, row.left, 0, 0);
            record.push(flow(true, row.left, whole, 0))?;
        }
    }
    record.push(0)?;
    Ok(())
}

// What stands before the next place, after a symbol.
fn moved(given: Given<'_>, from: &[u32], symbol: u8, to: &mut Vec<u32>) -> Result<(), AllocError> {
    let is_glued = glued(from) && given.is_mark(symbol);
    to.clear();
    for (number, live) in from.iter().enumerate() {
        if let Some(row) = given.row(number) {
            let next = flow(true, row.left, *live, given.read_as(number, symbol));
            let stays = is_glued && given.is_below(number);
            to.push(if stays { *live } else { next })?;
        }
    }
    to.push(u32::from(given.glues(glued(from), symbol)))?;
    Ok(())
}
