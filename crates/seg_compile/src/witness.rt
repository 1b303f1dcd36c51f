//! What shows that rules can't be followed: a row and a text.

use crate::dues::Draft;
use crate::fault::Why;
use crate::given::Given;
use crate::lists::at;
use crate::records::{Records, Way};
use crate::tables::Tables;
use seg_machine::provider::Symbol;
use std::alloc::AllocError;

/// A text that shows that rules can't be followed, and a row that is read there.
#[derive(Debug, Drop)]
pub struct Witness {
    /// The number of a row that is read where the rules can't be followed, from 0 on, if there is one: the rows above that of marks
    /// come first.
    pub row: Option<usize>,
    /// The symbols of the text, as far as it shows it.
    pub symbols: Vec<Symbol>,
    /// How many of them stand before the boundary from which on the rules can't be followed.
    pub begin: usize,
}

/// The witness of scans that are stuck after the record of a number, by a symbol, 0 at the end.
pub(crate) fn witness_of(
    given: Given<'_>,
    tables: &Tables,
    scans: &Records,
    stuck: Way,
    why: Why,
) -> Result<Witness, AllocError> {
    let mut symbols = Vec::new(given.alloc);
    let root = walk(scans, Some(stuck), &mut symbols)?;
    let read = symbols.len();
    let befores = &tables.befores.records;
    walk(befores, befores.way(before(scans, root)), &mut symbols)?;
    symbols.reverse();
    let begin = symbols.len().saturating_sub(read);
    let row = row_of(given, tables, before(scans, stuck.from), why)?;
    Ok(Witness {
        row,
        symbols,
        begin,
    })
}

// The row that is read there: of the older place, if two are undecided, or of the newest one, before which this stands.
fn row_of(
    given: Given<'_>,
    tables: &Tables,
    before: u16,
    why: Why,
) -> Result<Option<usize>, AllocError> {
    if let Why::Undecided(older) = why {
        return Ok(tables.dues.first_row(older));
    }
    let mut draft = Draft::new(given);
    draft.owe(tables.befores.records.get(before))?;
    Ok(draft.first_row())
}

// What stands before the newest place, of the record of a scan.
fn before(scans: &Records, number: u16) -> u16 {
    u16::try_from(at(scans.get(number), 1, 0)).unwrap_or(0)
}

// Adds the symbols but for the end by which it was come that way, the last one first. Returns the record that it began with.
fn walk(records: &Records, to: Option<Way>, symbols: &mut Vec<Symbol>) -> Result<u16, AllocError> {
    let mut to = to;
    let mut root = 0;
    for _ in 0..=records.len() {
        let Some(way) = to else {
            break;
        };
        if way.symbol != 0 {
            symbols.push(way.symbol)?;
        }
        root = way.from;
        to = records.way(root);
    }
    Ok(root)
}
