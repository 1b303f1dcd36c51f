//! A small machine with a lookahead, the rules whose places it finds, and the certificate of both, as numbers.
//!
//! Symbol 1 is a letter, 2 a space, 3 a mark, 4 a flag and 5 the end of a line. A mark is one with what stands before it, but not
//! after a space or a line's end or at the start. There is a boundary after the end of a line, with the status 1. Letters are
//! joined, flags two by two, and a letter with a space that a flag comes after. Everywhere else there is a boundary.

use crate::failure::Failure;
use icu_segmenter::provider::{
    Acceptance, ClassTable, Lookahead, SegmenterStateMachine, State, Symbol,
};
use seg_rules::rules::{Class, Count, Row, Rules};
use std::alloc::Global;

const LETTER: Class = 0b000010;

const SPACE: Class = 0b000100;

const MARK: Class = 0b001000;

const FLAG: Class = 0b010000;

const LINE_END: Class = 0b100000;

// All symbols but flags, and the start of a text.
const NO_FLAG: Class = 0b101111;

/// The rules.
pub static RULES: Rules<'static> = Rules {
    above: &[Row {
        left: &[(LINE_END, Count::One)],
        right: &[],
        verdict: 2,
    }],
    below: &[
        Row {
            left: &[(LETTER, Count::One)],
            right: &[(LETTER, Count::One)],
            verdict: 0,
        },
        Row {
            left: &[(LETTER, Count::One)],
            right: &[(SPACE, Count::One), (FLAG, Count::One)],
            verdict: 0,
        },
        Row {
            left: &[
                (NO_FLAG, Count::One),
                (FLAG, Count::Pairs),
                (FLAG, Count::One),
            ],
            right: &[(FLAG, Count::One)],
            verdict: 0,
        },
        Row {
            left: &[],
            right: &[],
            verdict: 1,
        },
    ],
    has_marks: true,
    marks: MARK,
    bare: SPACE | LINE_END,
    alone: 1,
    at_end: 0,
};

/// What a state accepts, and the lookahead that it names.
pub type Accepted = (Acceptance, Option<Lookahead>);

/// The machine's states. Nothing leads to the last one.
pub const STATES: [Accepted; 9] = [
    (Acceptance::Continue, None),
    (Acceptance::Accept(0), Some(0)),
    (Acceptance::Accept(0), None),
    (Acceptance::Accept(0), None),
    (Acceptance::Accept(1), None),
    (Acceptance::Accept(0), None),
    (Acceptance::Accept(0), None),
    (Acceptance::Conditional(0, 0), None),
    (Acceptance::Accept(0), None),
];

/// A row for each symbol from 0 on, in it what each state leads to.
pub const TRANSITIONS: [State; 54] = [
    255, 255, 255, 255, 2, 7, 255, 255, 255, //
    1, 1, 255, 255, 255, 7, 255, 255, 255, //
    2, 5, 255, 255, 255, 7, 255, 255, 255, //
    1, 1, 255, 3, 255, 7, 6, 255, 255, //
    3, 255, 255, 6, 255, 255, 255, 255, 255, //
    4, 255, 255, 255, 255, 7, 255, 255, 255,
];

/// Characters of the symbols from 1 on, in Latin-1.
pub const CHARACTERS: [u8; 5] = [b'a', b' ', b'^', b'f', b'\n'];

const SYMBOLS: [(u32, u32, Symbol); 4] = [
    (0x0A, 0x0A, 5),
    (0x20, 0x20, 2),
    (0x5E, 0x5E, 3),
    (0x66, 0x66, 4),
];

/// A machine of these states and transitions, with as many lookaheads as there may be. The errors are why it is rejected, and out of memory.
pub fn machine(
    alloc: Global,
    states: &[Accepted],
    transitions: &[State],
) -> Result<SegmenterStateMachine, Failure> {
    let states = Vec::from_slice(alloc, states)?;
    let transitions = Vec::from_slice(alloc, transitions)?;
    let symbols = ClassTable::try_from_ranges(Vec::from_slice(alloc, &SYMBOLS)?, 1)?;
    let map = Vec::new(alloc);
    Ok(SegmenterStateMachine::try_from_parts(symbols, states, transitions, 8, 6, map)?)
}
