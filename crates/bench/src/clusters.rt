//! The bench machine of grapheme clusters.

ghost use Rattle.std.specs.Prelude.{◌≡◌, IfOk};
ghost use Rattle.bench.specs.Clusters.{cluster_machine};

use crate::machines::{Entry, machine_of};
use icu_segmenter::provider::{Acceptance, SegmenterStateMachine, State, Symbol};
use std::alloc::{AllocError, Global};

/// Carriage return, line feed, and what extends a cluster.
const SYMBOLS: [(u32, u32, Symbol); 7] = [
    (0x0A, 0x0A, 3),
    (0x0D, 0x0D, 2),
    (0x300, 0x36F, 4),
    (0xE31, 0xE31, 4),
    (0xE34, 0xE3A, 4),
    (0xE47, 0xE4E, 4),
    (0x200D, 0x200D, 4),
];

/// Any other character.
const OTHER: Symbol = 1;

const STATES: [Entry; 4] = [
    (Acceptance::Continue, None),
    (Acceptance::Accept(0), None),
    (Acceptance::Accept(0), None),
    (Acceptance::Accept(0), None),
];

/// A row for each symbol from 0 on, in it what each state leads to.
const TRANSITIONS: [State; 20] = [
    255, 255, 255, 255, //
    1, 255, 255, 255, //
    2, 255, 255, 255, //
    3, 255, 3, 255, //
    1, 1, 255, 255,
];

/// The bench machine of grapheme clusters: CR LF, or a character with the marks after it.
/// Fails only when out of memory.
pub fn cluster_machine(alloc: Global) -> Result<SegmenterStateMachine, AllocError>
    ensures { IfOk result (λ machine. machine ≡ cluster_machine) }
{
    machine_of(alloc, &SYMBOLS, OTHER, &STATES, &TRANSITIONS, &[])
}
