//! What may be owed to places: right patterns, as far as they are read, and the verdict where none of them fits.

use crate::fault::Fault;
use crate::given::Given;
use crate::lists::{at, row};
use crate::patterns::{flow, is_full};
use seg_rules::certificate::Entry;
use std::alloc::AllocError;

/// The first numbers of what is owed are verdicts.
pub(crate) const VERDICTS: u8 = 3;

/// A row whose left pattern fits, by its number, and what is live of its right one. That of marks has a number past all rows, and 1
/// there says that a mark is glued, 2 that one may be.
pub(crate) type Owed = (usize, u32);

const MARKS: usize = usize::MAX;

/// What is owed to a place, and the row that has the verdict where no entry fits.
#[derive(Drop)]
pub(crate) struct Draft<'a> {
    given: Given<'a>,
    entries: Vec<Owed>,
    otherwise: u8,
    row: Option<usize>,
}

impl<'a> Draft<'a> {
    /// Nothing is owed.
    pub(crate) fn new(given: Given<'a>) -> Draft<'a> {
        Draft {
            given,
            entries: Vec::new(given.alloc),
            otherwise: 0,
            row: None,
        }
    }

    /// What is owed to a place before which so much is live of each row.
    pub(crate) fn owe(&mut self, lives: &[u32]) -> Result<(), AllocError> {
        let given = self.given;
        self.entries.clear();
        self.otherwise = 0;
        self.row = None;
        for (number, live) in lives.iter().enumerate() {
            if number == given.rules.above.len() && given.rules.has_marks {
                self.entries.push((MARKS, 2))?;
            }
            if let Some(row) = given.row(number)
                && is_full(row.left, *live)
                && self.put(number, flow(true, row.right, 0, 0))?
            {
                break;
            }
        }
        self.settle();
        Ok(())
    }

    // Adds the entry of a number, if something is live of it, and says whether it decides.
    fn put(&mut self, number: usize, live: u32) -> Result<bool, AllocError> {
        let row = self.given.row(number);
        let decides = row.map_or(live == 1, |row| is_full(row.right, live));
        if decides {
            self.otherwise = self.given.verdict(number);
            self.row = Some(number);
        } else if live != 0 {
            self.entries.push((number, live))?;
        }
        Ok(decides)
    }

    // Last entries that say what comes without them are left out.
    fn settle(&mut self) {
        for _ in 0..self.entries.len() {
            match self.entries.last() {
                Some(entry) if self.given.verdict(entry.0) == self.otherwise => {}
                _ => break,
            }
            self.entries.pop();
        }
    }

    // What is owed after a symbol, 0 at the end, of entries and a verdict, where a mark would be glued or not.
    fn read(&mut self, owed: (&[Owed], u8), symbol: u8, glues: bool) -> Result<(), AllocError> {
        self.entries.clear();
        self.otherwise = owed.1;
        for (number, live) in owed.0 {
            let next = self.given.read(*number, *live, symbol, glues);
            if self.put(*number, next)? {
                break;
            }
        }
        self.settle();
        Ok(())
    }

    /// The first row that is owed, or that which decides.
    pub(crate) fn first_row(&self) -> Option<usize> {
        first_row(self.entries.as_slice()).or(self.row)
    }
}

// The row of the first entry that has one.
fn first_row(entries: &[Owed]) -> Option<usize> {
    for (number, _) in entries {
        if *number != MARKS {
            return Some(*number);
        }
    }
    None
}

impl Given<'_> {
    /// The verdict of an entry's row.
    pub(crate) fn verdict(self, number: usize) -> u8 {
        self.row(number).map_or(0, |row| row.verdict)
    }

    // What is live of an entry after a symbol, where a mark would be glued or not; at the end nothing that doesn't decide.
    fn read(self, number: usize, live: u32, symbol: u8, glues: bool) -> u32 {
        let is_glued = glues && self.is_mark(symbol);
        let Some(row) = self.row(number) else {
            return u32::from(is_glued);
        };
        if is_glued && self.is_below(number) {
            return live;
        }
        let next = flow(false, row.right, live, self.read_as(number, symbol));
        let stays = symbol != 0 || is_full(row.right, next);
        if stays { next } else { 0 }
    }

    // An entry, as a certificate has it.
    fn entry(self, owed: Owed) -> Entry {
        let (number, live) = owed;
        let above = self.rules.above.len();
        if number == MARKS {
            Entry::Marks
        } else if number < above {
            Entry::Above(u8::try_from(number).unwrap_or(u8::MAX), live)
        } else {
            Entry::Below(u8::try_from(number - above).unwrap_or(u8::MAX), live)
        }
    }
}

/// All that may be owed, numbered after the verdicts.
#[derive(Drop)]
pub(crate) struct Dues {
    entries: Vec<Owed>,
    pub(crate) parts: Vec<Part>,
    // Of each, by each symbol from the end, 0, on, what is owed then, where a mark isn't glued and where it is.
    reads: Vec<(u8, u8)>,
    symbols: u8,
}

/// Which entries are owed, from one place to another, and the verdict where none of them fits.
#[derive(Clone, Copy)]
pub(crate) struct Part {
    pub(crate) from: usize,
    pub(crate) to: usize,
    pub(crate) otherwise: u8,
}

impl Dues {
    /// Nothing is owed yet.
    pub(crate) fn new(given: Given<'_>) -> Dues {
        Dues {
            entries: Vec::new(given.alloc),
            parts: Vec::new(given.alloc),
            reads: Vec::new(given.alloc),
            symbols: given.symbols,
        }
    }

    /// The entries of a number, and the verdict where none of them fits.
    pub(crate) fn owed(&self, number: u8) -> (&[Owed], u8) {
        let index = usize::from(number).wrapping_sub(usize::from(VERDICTS));
        let Some(part) = self.parts.get(index) else {
            return (&[], number);
        };
        let entries = self.entries.get(part.from..part.to);
        (entries.unwrap_or(&[]), part.otherwise)
    }

    /// The first row that is owed, of a number.
    pub(crate) fn first_row(&self, number: u8) -> Option<usize> {
        first_row(self.owed(number).0)
    }

    /// The number of what is owed, which is kept if it is new.
    pub(crate) fn number(&mut self, draft: &Draft<'_>) -> Result<u8, Fault> {
        if draft.entries.is_empty() {
            return Ok(draft.otherwise);
        }
        for number in VERDICTS..u8::MAX {
            if usize::from(number - VERDICTS) >= self.parts.len() {
                self.add(draft)?;
                return Ok(number);
            }
            if self.owed(number) == (draft.entries.as_slice(), draft.otherwise) {
                return Ok(number);
            }
        }
        Err(Fault::TooLarge)
    }

    fn add(&mut self, draft: &Draft<'_>) -> Result<(), AllocError> {
        let from = self.entries.len();
        self.entries.extend_from_slice(draft.entries.as_slice())?;
        let to = self.entries.len();
        let otherwise = draft.otherwise;
        self.parts.push(Part {
            from,
            to,
            otherwise,
        })?;
        Ok(())
    }

    /// Finds what is owed after each symbol, of all that is owed.
    pub(crate) fn follow_all(&mut self, given: Given<'_>) -> Result<(), Fault> {
        let mut draft = Draft::new(given);
        for number in VERDICTS..u8::MAX {
            if usize::from(number - VERDICTS) >= self.parts.len() {
                break;
            }
            self.follow(number, &mut draft)?;
        }
        Ok(())
    }

    // Finds what is owed after each symbol.
    fn follow(&mut self, number: u8, draft: &mut Draft<'_>) -> Result<(), Fault> {
        for symbol in 0..=self.symbols {
            draft.read(self.owed(number), symbol, false)?;
            let plain = self.number(draft)?;
            draft.read(self.owed(number), symbol, true)?;
            let glued = self.number(draft)?;
            self.reads.push((plain, glued))?;
        }
        Ok(())
    }

    /// Of a number less the verdicts, what is owed after each symbol.
    pub(crate) fn reads(&self, index: usize) -> &[(u8, u8)] {
        row(
            self.reads.as_slice(),
            index,
            usize::from(self.symbols).saturating_add(1),
        )
    }

    /// What is owed after a symbol, where a mark would be glued or not; at the end none is.
    pub(crate) fn after(&self, number: u8, symbol: u8, glues: bool) -> u8 {
        if number < VERDICTS {
            return number;
        }
        let reads = self.reads(usize::from(number - VERDICTS));
        let (plain, glued) = at(reads, usize::from(symbol), (0, 0));
        if glues && symbol != 0 { glued } else { plain }
    }

    /// All entries, as a certificate has them.
    pub(crate) fn entries(&self, given: Given<'_>) -> Result<Vec<Entry>, AllocError> {
        let entries = self.entries.iter().map(|owed| given.entry(*owed));
        entries.collect(given.alloc)
    }
}
