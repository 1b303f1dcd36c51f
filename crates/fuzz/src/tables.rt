//! Random tables of classes, and pair tables.

use crate::dice::{CHARACTERS, Dice};
use crate::failure::{Failure, both};
use icu_segmenter::provider::{BreakState, ClassTable, RuleBreakData, RuleBreakDataOverride};
use std::alloc::{AllocError, Global};

// How many times in 256 something is wrong.
const SELDOM: u8 = 3;

/// What classes a table mostly gives: from the lowest on, below one bound to characters below U+0100 and to those that it does not
/// name, and below another to the others.
#[derive(Clone, Copy)]
pub struct Classes {
    /// The lowest.
    pub lowest: u8,
    /// The bound below U+0100.
    pub low: u8,
    /// The other bound.
    pub high: u8,
}

impl Classes {
    // A class below a bound, or hardly ever any byte.
    fn draw(self, dice: &mut Dice, bound: u8) -> u8 {
        if dice.hardly_comes(8) {
            return dice.byte();
        }
        let above = dice.below(bound.saturating_sub(self.lowest));
        self.lowest.saturating_add(above)
    }

    // Ranges of one character each, in order, and seldom one of any numbers.
    fn ranges(self, alloc: Global, dice: &mut Dice) -> Result<Vec<(u32, u32, u8)>, AllocError> {
        let mut ranges = Vec::new(alloc);
        for character in CHARACTERS {
            if dice.comes(160) {
                let code_point = character as u32;
                let is_low = code_point < 0x100;
                let class = self.draw(dice, if is_low { self.low } else { self.high });
                ranges.push((code_point, code_point, class))?;
            }
        }
        if dice.comes(SELDOM) {
            ranges.push((dice.number(), dice.number(), dice.byte()))?;
        }
        Ok(ranges)
    }

    /// A table of such classes. The errors are those of its ranges, and out of memory.
    pub fn table(self, alloc: Global, dice: &mut Dice) -> Result<ClassTable, Failure> {
        let ranges = self.ranges(alloc, dice)?;
        Ok(ClassTable::try_from_ranges(ranges, self.draw(dice, self.low))?)
    }
}

/// The numbers of a pair table.
#[derive(Clone, Copy)]
pub struct TableNumbers {
    /// How many classes and states there are. The last two are those of the start and the end.
    pub count: u8,
    /// The class of complex code points.
    pub complex: u8,
    /// What classes characters have.
    pub classes: Classes,
}

impl TableNumbers {
    /// The numbers of a table of few classes, of which only words mostly have one of complex code points.
    pub fn few(dice: &mut Dice, has_complex: bool) -> Self {
        let plain = dice.below(5).saturating_add(2);
        let complex = if has_complex || dice.comes(SELDOM) {
            plain
        } else {
            255
        };
        TableNumbers {
            count: plain.saturating_add(3),
            complex,
            classes: Classes {
                lowest: 0,
                low: plain,
                high: plain.saturating_add(1),
            },
        }
    }

    /// The numbers of a table of lines, of so many classes and states.
    pub fn of_lines(dice: &mut Dice, count: u8, complex: u8) -> Self {
        let complex = if dice.comes(SELDOM) {
            dice.byte()
        } else {
            complex
        };
        TableNumbers {
            count,
            complex,
            classes: Classes {
                lowest: 1,
                low: 46,
                high: count.saturating_sub(2),
            },
        }
    }

    /// A pair table with these numbers. The errors are those of its parts, and out of memory.
    pub fn table(self, alloc: Global, dice: &mut Dice) -> Result<RuleBreakData, Failure> {
        let start = self.count.saturating_sub(2);
        let last = dice.below(start);
        let classes = self.classes.table(alloc, dice)?;
        let entries = entries(alloc, dice, self.count, last);
        let (entries, statuses) = both(entries, bytes(alloc, dice, self.count))?;
        Ok(RuleBreakData::try_from_parts(
            classes,
            entries,
            statuses,
            self.count,
            last,
            start,
            start.saturating_add(1),
            self.complex,
        )?)
    }
}

// What stands between each two classes, and seldom not between all. After the start there is mostly a boundary.
fn entries(
    alloc: Global,
    dice: &mut Dice,
    count: u8,
    last: u8,
) -> Result<Vec<BreakState>, AllocError> {
    let start = count.saturating_sub(2);
    let mut entries = Vec::new(alloc);
    for place in 0..u16::from(count).saturating_mul(u16::from(count)) {
        let is_start = place / u16::from(count.max(1)) == u16::from(start);
        let is_break = is_start && !dice.hardly_comes(64);
        entries.push(if is_break {
            BreakState::Break
        } else {
            entry(dice, last)
        })?;
    }
    if dice.comes(SELDOM) {
        entries.truncate(7);
    }
    Ok(entries)
}

fn entry(dice: &mut Dice, last: u8) -> BreakState {
    let state = dice.below(last.saturating_add(1));
    match dice.below(8) {
        0 => BreakState::Index(state),
        1 => BreakState::Intermediate(state),
        2 => BreakState::NoMatch,
        3 | 4 => BreakState::Keep,
        5 if dice.hardly_comes(4) => BreakState::from_unaligned(dice.byte()),
        _ => BreakState::Break,
    }
}

// So many bytes below 4.
fn bytes(alloc: Global, dice: &mut Dice, count: u8) -> Result<Vec<u8>, AllocError> {
    let mut bytes = Vec::new(alloc);
    for _ in 0..count {
        bytes.push(dice.below(4))?;
    }
    Ok(bytes)
}

/// A pair table of clusters. The errors are those of its parts, and out of memory.
pub fn cluster_table(alloc: Global, dice: &mut Dice) -> Result<RuleBreakData, Failure> {
    TableNumbers::few(dice, false).table(alloc, dice)
}

/// An override of some classes, if there is one. The errors are those of its ranges, and out of memory.
pub fn overriding(
    alloc: Global,
    dice: &mut Dice,
) -> Result<Option<RuleBreakDataOverride>, Failure> {
    if dice.comes(128) {
        return Ok(None);
    }
    let classes = Classes {
        lowest: 0,
        low: 2,
        high: 2,
    };
    let classes = classes.table(alloc, dice)?;
    Ok(Some(RuleBreakDataOverride::try_from_parts(classes)?))
}
