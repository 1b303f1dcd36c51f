//! A table of as many ranges as there can be: each code point is one.

use crate::failure::{Failure, check};
use bench::found::Found;
use bench::segmenter::{AnySegmenterBorrowed, Text};
use icu_segmenter::GraphemeClusterSegmenterBorrowed;
use icu_segmenter::provider::{
    Acceptance, ClassTable, Lookahead, SegmenterStateMachine, State, Symbol,
};
use std::alloc::{AllocError, Global};
use std::io::Write;

// How many code points there are.
const CODE_POINTS: u32 = 0x110000;

const OTHER: Symbol = 3;

const STATES: [(Acceptance, Option<Lookahead>); 3] = [
    (Acceptance::Continue, None),
    (Acceptance::Accept(0), None),
    (Acceptance::Accept(0), None),
];

/// A row for each symbol from 0 on, in it what each state leads to: segments are runs of characters of one symbol.
const TRANSITIONS: [State; 12] = [
    255, 255, 255, //
    1, 1, 255, //
    2, 255, 2, //
    1, 1, 255,
];

/// Makes the table in both forms, and prints how many boundaries the text of all characters has. The errors are `Memory`, `Write`, and
/// `Wrong` where the forms don't agree.
pub fn try_ranges<O: Write>(alloc: Global, out: &mut O) -> Result<(), Failure> {
    let count = boundary_count(alloc)?;
    writeln!(
        out,
        "a range for each of {CODE_POINTS} code points: {count} boundaries"
    )?;
    Ok(())
}

// How many boundaries the text of all characters has by the table in both forms.
fn boundary_count(alloc: Global) -> Result<usize, Failure> {
    let plain = ClassTable::try_from_ranges(ranges(alloc)?, OTHER)?;
    let indexed = ClassTable::try_from_ranges(ranges(alloc)?, OTHER)?.indexed(alloc)?;
    check_values(&plain, &indexed)?;
    count_by_both(alloc, plain, indexed)
}

fn count_by_both(alloc: Global, plain: ClassTable, indexed: ClassTable) -> Result<usize, Failure> {
    let text = all_characters(alloc)?;
    let found = boundaries(alloc, plain, text.as_str())?;
    let found_by_index = boundaries(alloc, indexed, text.as_str())?;
    check(
        found.as_slice() == found_by_index.as_slice(),
        "other boundaries by an index",
    )?;
    Ok(found.len())
}

// A range for each code point.
fn ranges(alloc: Global) -> Result<Vec<(u32, u32, Symbol)>, AllocError> {
    let mut ranges = Vec::new(alloc);
    for code_point in 0..CODE_POINTS {
        ranges.push((code_point, code_point, symbol(code_point)))?;
    }
    Ok(ranges)
}

// One of two symbols, such that hardly two blocks of code points have the same.
fn symbol(code_point: u32) -> Symbol {
    let mixed = code_point.wrapping_mul(code_point).wrapping_mul(0x9E3779B1);
    if mixed < 0x8000_0000 { 1 } else { 2 }
}

// Each form is to have the symbol of each code point, and the default past them.
fn check_values(plain: &ClassTable, indexed: &ClassTable) -> Result<(), Failure> {
    for code_point in 0..CODE_POINTS {
        let (one, other) = (plain.get32(code_point), indexed.get32(code_point));
        let symbol = symbol(code_point);
        check(one == symbol && other == symbol, "another symbol")?;
    }
    let past = (plain.get32(CODE_POINTS), indexed.get32(CODE_POINTS));
    check(past == (OTHER, OTHER), "a symbol past the last code point")
}

fn all_characters(alloc: Global) -> Result<String, AllocError> {
    let mut text = String::new(alloc);
    for code_point in 0..CODE_POINTS {
        if let Some(character) = char::from_u32(code_point) {
            text.push(character)?;
        }
    }
    Ok(text)
}

// The boundaries of a text into runs of characters of one symbol.
fn boundaries(alloc: Global, symbols: ClassTable, text: &str) -> Result<Found, Failure> {
    let machine = machine(alloc, symbols)?;
    let runs = GraphemeClusterSegmenterBorrowed::new_neo(&machine)?;
    Ok(AnySegmenterBorrowed::Clusters(runs).boundaries(alloc, Text::Str(text))?)
}

fn machine(alloc: Global, symbols: ClassTable) -> Result<SegmenterStateMachine, Failure> {
    let states = Vec::from_slice(alloc, &STATES)?;
    let transitions = Vec::from_slice(alloc, &TRANSITIONS)?;
    let map = Vec::new(alloc);
    Ok(SegmenterStateMachine::try_from_parts(symbols, states, transitions, 0, 4, map)?)
}
