//! The bench machine of lines, and its tailorings.

ghost use Rattle.std.specs.Prelude.{◌≡◌, IfOk};
ghost use Rattle.bench.specs.Lines.{line_machine, line_tailorings, breakall};

use crate::machines::{Entry, machine_of};
use icu_segmenter::provider::{
    Acceptance, ComplexScript, LineTailorings, SegmenterStateMachine,
    SegmenterStateMachineOverride, State, Symbol,
};
use std::alloc::{AllocError, Global};

/// The line feed, the space and ideographs; and of the pseudo symbols Thai, Myanmar and Latin letters.
const SYMBOLS: [(u32, u32, Symbol); 10] = [
    (0x0A, 0x0A, 3),
    (0x20, 0x20, 2),
    (0x41, 0x5A, 7),
    (0x61, 0x7A, 7),
    (0xC0, 0x24F, 7),
    (0xE01, 0xE3A, 5),
    (0xE40, 0xE4E, 5),
    (0x1000, 0x103F, 6),
    (0x1E00, 0x1EFF, 7),
    (0x4E00, 0x9FFF, 4),
];

/// Any other character.
const OTHER: Symbol = 1;

/// Thai, Myanmar and letters are as any other character.
const MAP: [(Symbol, ComplexScript); 3] = [
    (1, ComplexScript::Thai),
    (1, ComplexScript::Myanmar),
    (1, ComplexScript::None),
];

/// Thai, Myanmar and letters are as ideographs.
const BREAKALL_MAP: [(Symbol, ComplexScript); 3] = [
    (4, ComplexScript::None),
    (4, ComplexScript::None),
    (4, ComplexScript::None),
];

const STATES: [Entry; 6] = [
    (Acceptance::Continue, None),
    (Acceptance::Accept(0), None),
    (Acceptance::Accept(0), None),
    (Acceptance::Accept(1), None),
    (Acceptance::Accept(0), None),
    (Acceptance::Accept(1), None),
];

/// A row for each symbol from 0 on, in it what each state leads to.
const TRANSITIONS: [State; 30] = [
    255, 5, 5, 255, 5, 255, //
    1, 1, 255, 255, 255, 255, //
    2, 2, 2, 255, 2, 255, //
    3, 3, 3, 255, 3, 255, //
    4, 255, 255, 255, 255, 255,
];

/// The bench machine of lines: a line may be broken after spaces and beside ideographs, and must be
/// after a line feed and at the end of the text.
/// Fails only when out of memory.
pub fn line_machine(alloc: Global) -> Result<SegmenterStateMachine, AllocError>
    ensures { IfOk result (λ machine. machine ≡ line_machine) }
{
    machine_of(alloc, &SYMBOLS, OTHER, &STATES, &TRANSITIONS, &MAP)
}

/// The tailoring of the bench machine of lines that breaks beside each letter.
/// Fails only when out of memory.
pub fn breakall(alloc: Global) -> Result<SegmenterStateMachineOverride, AllocError>
    ensures { IfOk result (λ tailoring. tailoring ≡ breakall) }
{
    let map = Vec::from_slice(alloc, &BREAKALL_MAP)?;
    let Ok(tailoring) = SegmenterStateMachineOverride::try_from_parts(map, Vec::new(alloc)) else {
        unreachable!()
    };
    Ok(tailoring)
}

/// The tailorings of the bench machine of lines: that of the word option `BreakAll` alone.
/// Fails only when out of memory.
pub fn line_tailorings(alloc: Global) -> Result<LineTailorings, AllocError>
    ensures { IfOk result (λ tailorings. tailorings ≡ line_tailorings) }
{
    Ok(LineTailorings {
        breakall: Some(breakall(alloc)?),
        ..LineTailorings::default()
    })
}
