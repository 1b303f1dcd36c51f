//! The bench machine of words.

ghost use Rattle.std.specs.Prelude.{◌≡◌, IfOk};
ghost use Rattle.bench.specs.PairTables.{cluster_table};
ghost use Rattle.bench.specs.Words.{word_machine};
ghost use Rattle.icu_segmenter.specs.Faults.{IsFaultless};
ghost use Rattle.icu_segmenter.specs.Words.{HasWordMachineFault};

use crate::machines::{Entry, machine_of};
use icu_segmenter::provider::{Acceptance, ComplexScript, SegmenterStateMachine, State, Symbol};
use std::alloc::{AllocError, Global};

/// Digits and Latin letters; and of the pseudo symbols Thai, Myanmar and ideographs.
const SYMBOLS: [(u32, u32, Symbol); 10] = [
    (0x30, 0x39, 3),
    (0x41, 0x5A, 2),
    (0x61, 0x7A, 2),
    (0xC0, 0x24F, 2),
    (0xE01, 0xE3A, 5),
    (0xE40, 0xE4E, 5),
    (0x1000, 0x103F, 7),
    (0x1E00, 0x1EFF, 2),
    (0x4E00, 0x9FFF, 6),
    (0x20000, 0x2A6DF, 6),
];

/// Any other character.
const OTHER: Symbol = 1;

/// Thai, ideographs and Myanmar are complex.
const MAP: [(Symbol, ComplexScript); 3] = [
    (4, ComplexScript::Thai),
    (4, ComplexScript::ChineseOrJapanese),
    (4, ComplexScript::Myanmar),
];

const STATES: [Entry; 5] = [
    (Acceptance::Continue, None),
    (Acceptance::Accept(0), None),
    (Acceptance::Accept(2), None),
    (Acceptance::Accept(1), None),
    (Acceptance::Accept(2), None),
];

/// A row for each symbol from 0 on, in it what each state leads to.
const TRANSITIONS: [State; 25] = [
    255, 255, 255, 255, 255, //
    1, 255, 255, 255, 255, //
    2, 255, 2, 2, 255, //
    3, 255, 3, 3, 255, //
    4, 255, 255, 255, 4,
];

/// The bench machine of words: a word is a run of letters and digits, with the status of the last of
/// them, 2 or 1, or a run of complex characters, with status 2. Any other character stands by itself,
/// with status 0.
/// Fails only when out of memory.
pub fn word_machine(alloc: Global) -> Result<SegmenterStateMachine, AllocError>
    ensures value { IfOk result (λ machine. machine ≡ word_machine) }
    ensures sound { IfOk result (λ machine. IsFaultless (HasWordMachineFault machine cluster_table)) }
{
    machine_of(alloc, &SYMBOLS, OTHER, &STATES, &TRANSITIONS, &MAP)
}
