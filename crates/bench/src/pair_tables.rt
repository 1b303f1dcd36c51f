//! The bench pair tables of grapheme clusters, of sentences and of words.

ghost use Rattle.std.specs.Prelude.{◌≡◌, None, IfOk};
ghost use Rattle.bench.specs.PairTables.{cluster_table, sentence_table, word_table};
ghost use Rattle.icu_segmenter.specs.Faults.{IsFaultless};
ghost use Rattle.icu_segmenter.specs.PairData.{HasPairDataFault};
ghost use Rattle.icu_segmenter.specs.Words.{HasWordTableFault};

use icu_segmenter::provider::{BreakState, ClassTable, RuleBreakData};
use std::alloc::{AllocError, Global};

/// Carriage return, line feed, and what extends a cluster.
const CLUSTER_CLASSES: [(u32, u32, u8); 7] = [
    (0x0A, 0x0A, 2),
    (0x0D, 0x0D, 1),
    (0x300, 0x36F, 3),
    (0xE31, 0xE31, 3),
    (0xE34, 0xE3A, 3),
    (0xE47, 0xE4E, 3),
    (0x200D, 0x200D, 3),
];

const KEEP: BreakState = BreakState::Keep;

const BREAK: BreakState = BreakState::Break;

/// A row for each class from 0 on, then those of the text's start and end.
const CLUSTER_ENTRIES: [BreakState; 36] = [
    BREAK, BREAK, BREAK, KEEP, BREAK, BREAK, //
    BREAK, BREAK, KEEP, BREAK, BREAK, BREAK, //
    BREAK, BREAK, BREAK, BREAK, BREAK, BREAK, //
    BREAK, BREAK, BREAK, KEEP, BREAK, BREAK, //
    BREAK, BREAK, BREAK, BREAK, BREAK, BREAK, //
    BREAK, BREAK, BREAK, BREAK, BREAK, BREAK,
];

/// The bench pair table of grapheme clusters: CR LF, or a character with the marks after it.
/// Fails only when out of memory.
pub fn cluster_table(alloc: Global) -> Result<RuleBreakData, AllocError>
    ensures value { IfOk result (λ table. table ≡ cluster_table) }
    ensures sound { IfOk result (λ table. IsFaultless (HasPairDataFault table None)) }
{
    let Ok(classes) = ClassTable::try_from_ranges(Vec::from_slice(alloc, &CLUSTER_CLASSES)?, 0)
    else {
        unreachable!()
    };
    let entries = Vec::from_slice(alloc, &CLUSTER_ENTRIES)?;
    let statuses = Vec::new(alloc);
    let Ok(table) = RuleBreakData::try_from_parts(classes, entries, statuses, 6, 3, 4, 5, 127)
    else {
        unreachable!()
    };
    Ok(table)
}

/// Line feed and carriage return, space, and what ends a sentence.
const SENTENCE_CLASSES: [(u32, u32, u8); 6] = [
    (0x0A, 0x0A, 3),
    (0x0D, 0x0D, 3),
    (0x20, 0x20, 2),
    (0x21, 0x21, 1),
    (0x2E, 0x2E, 1),
    (0x3F, 0x3F, 1),
];

/// The spaces after what ends a sentence: state 4.
const SPACES: BreakState = BreakState::Index(4);

/// A row for each class and state from 0 on, then those of the text's start and end.
const SENTENCE_ENTRIES: [BreakState; 49] = [
    KEEP, KEEP, KEEP, KEEP, KEEP, KEEP, KEEP, //
    KEEP, KEEP, SPACES, KEEP, KEEP, KEEP, KEEP, //
    KEEP, KEEP, KEEP, KEEP, KEEP, KEEP, KEEP, //
    BREAK, BREAK, BREAK, BREAK, BREAK, BREAK, BREAK, //
    BREAK, BREAK, SPACES, KEEP, KEEP, KEEP, KEEP, //
    BREAK, BREAK, BREAK, BREAK, BREAK, BREAK, BREAK, //
    KEEP, KEEP, KEEP, KEEP, KEEP, KEEP, KEEP,
];

/// The bench pair table of sentences: each ends after a full stop, an exclamation or a question mark and
/// the spaces after it, or after a line's end. Fails only when out of memory.
pub fn sentence_table(alloc: Global) -> Result<RuleBreakData, AllocError>
    ensures value { IfOk result (λ table. table ≡ sentence_table) }
    ensures sound { IfOk result (λ table. IsFaultless (HasPairDataFault table None)) }
{
    let Ok(classes) = ClassTable::try_from_ranges(Vec::from_slice(alloc, &SENTENCE_CLASSES)?, 0)
    else {
        unreachable!()
    };
    let entries = Vec::from_slice(alloc, &SENTENCE_ENTRIES)?;
    let statuses = Vec::new(alloc);
    let Ok(table) = RuleBreakData::try_from_parts(classes, entries, statuses, 7, 3, 5, 6, 127)
    else {
        unreachable!()
    };
    Ok(table)
}

/// Digits, Latin letters, and what is complex: Thai, Myanmar and ideographs.
const WORD_CLASSES: [(u32, u32, u8); 10] = [
    (0x30, 0x39, 2),
    (0x41, 0x5A, 1),
    (0x61, 0x7A, 1),
    (0xC0, 0x24F, 1),
    (0xE01, 0xE3A, 3),
    (0xE40, 0xE4E, 3),
    (0x1000, 0x103F, 3),
    (0x1E00, 0x1EFF, 1),
    (0x4E00, 0x9FFF, 3),
    (0x20000, 0x2A6DF, 3),
];

/// A row for each class from 0 on, then those of the text's start and end.
const WORD_ENTRIES: [BreakState; 36] = [
    BREAK, BREAK, BREAK, BREAK, BREAK, BREAK, //
    BREAK, KEEP, KEEP, BREAK, BREAK, BREAK, // letters
    BREAK, KEEP, KEEP, BREAK, BREAK, BREAK, // digits
    BREAK, BREAK, BREAK, BREAK, BREAK, BREAK, //
    BREAK, BREAK, BREAK, BREAK, BREAK, BREAK, //
    BREAK, BREAK, BREAK, BREAK, BREAK, BREAK,
];

/// The statuses of letters, digits and what is complex.
const WORD_STATUSES: [u8; 3] = [2, 1, 2];

/// The bench pair table of words: a word is a run of letters and digits, with the status of the last
/// of them, 2 or 1. A complex character has status 2, and any other stands by itself.
/// Fails only when out of memory.
pub fn word_table(alloc: Global) -> Result<RuleBreakData, AllocError>
    ensures value { IfOk result (λ table. table ≡ word_table) }
    ensures sound { IfOk result (λ table. IsFaultless (HasWordTableFault table None cluster_table)) }
{
    let Ok(classes) = ClassTable::try_from_ranges(Vec::from_slice(alloc, &WORD_CLASSES)?, 0) else {
        unreachable!()
    };
    let entries = Vec::from_slice(alloc, &WORD_ENTRIES)?;
    let statuses = Vec::from_slice(alloc, &WORD_STATUSES)?;
    let Ok(table) = RuleBreakData::try_from_parts(classes, entries, statuses, 6, 3, 4, 5, 3) else {
        unreachable!()
    };
    Ok(table)
}
