//! Tables of classes, made while growths are refused.

use crate::failure::Failure;
use icu_segmenter::provider::{ClassTable, DataError};
use std::alloc::Global;
use std::io::{self, Write};

const RANGES: [(u32, u32, u8); 4] = [
    (0x61, 0x7A, 1),
    (0x300, 0x36F, 2),
    (0xE00, 0xE7F, 3),
    (0x20000, 0x2FFFF, 4),
];

const OTHER: u8 = 5;

/// Makes the table of some ranges twice, which takes no memory, and its fast form, and prints each time what it says of their ends and of
/// what stands beside them, or why there is none. The errors are `Memory`, for the ranges, and `Write`.
pub fn try_table<O: Write>(alloc: Global, out: &mut O) -> Result<(), Failure> {
    let first = ClassTable::try_from_ranges(Vec::from_slice(alloc, &RANGES)?, OTHER)?;
    let second = ClassTable::try_from_ranges(Vec::from_slice(alloc, &RANGES)?, OTHER)?;
    print_table(first.indexed(alloc), out)?;
    print_table(second.indexed(alloc), out)?;
    Ok(())
}

fn print_table<O: Write>(made: Result<ClassTable, DataError>, out: &mut O) -> io::Result<()> {
    match made {
        Ok(table) => {
            for (first, last, _) in RANGES {
                let before = table.get32(first.saturating_sub(1));
                let (begin, end) = (table.get32(first), table.get32(last));
                let after = table.get32(last.saturating_add(1));
                write!(out, "{before} {begin} {end} {after}, ")?;
            }
            writeln!(out, "{}", table.get32(0x10FFFF))
        }
        Err(fault) => writeln!(out, "{fault:?}"),
    }
}
