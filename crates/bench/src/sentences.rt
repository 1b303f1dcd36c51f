//! The bench machine of sentences.

ghost use Rattle.std.specs.Prelude.{◌≡◌, IfOk};
ghost use Rattle.bench.specs.Sentences.{sentence_machine};

use crate::machines::{Entry, machine_of};
use icu_segmenter::provider::{Acceptance, SegmenterStateMachine, State, Symbol};
use std::alloc::{AllocError, Global};

/// Line ends, the space, and what ends a sentence.
const SYMBOLS: [(u32, u32, Symbol); 6] = [
    (0x0A, 0x0A, 4),
    (0x0D, 0x0D, 4),
    (0x20, 0x20, 3),
    (0x21, 0x21, 2),
    (0x2E, 0x2E, 2),
    (0x3F, 0x3F, 2),
];

/// Any other character.
const OTHER: Symbol = 1;

const STATES: [Entry; 5] = [
    (Acceptance::Continue, None),
    (Acceptance::Accept(0), None),
    (Acceptance::Accept(0), None),
    (Acceptance::Accept(0), None),
    (Acceptance::Accept(0), None),
];

/// A row for each symbol from 0 on, in it what each state leads to.
const TRANSITIONS: [State; 25] = [
    255, 255, 255, 255, 255, //
    1, 1, 1, 255, 255, //
    2, 2, 2, 255, 255, //
    1, 1, 3, 3, 255, //
    4, 4, 4, 4, 255,
];

/// The bench machine of sentences: a sentence ends with its line, or with a full stop, an
/// exclamation mark or a question mark and the spaces after it.
/// Fails only when out of memory.
pub fn sentence_machine(alloc: Global) -> Result<SegmenterStateMachine, AllocError>
    ensures { IfOk result (λ machine. machine ≡ sentence_machine) }
{
    machine_of(alloc, &SYMBOLS, OTHER, &STATES, &TRANSITIONS, &[])
}
