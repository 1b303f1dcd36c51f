//! Small answers: numbers, names and texts that callers see.

use crate::numbers::{hex_of, number_of};
use crate::row::Row;
use crate::words::meaning;
use anyhow::{Context, Result, bail};
use icu_segmenter::memo::MemoError;
use icu_segmenter::options::WordType;
use icu_segmenter::provider::{Acceptance, BreakState, DataError, LanguageIdentifier};
use icu_segmenter::wrap::WrapError;
use seg_clusters::script_iter::script_of;
use std::alloc::{AllocError, Global};

/// The script of a code point in hexadecimal digits.
pub fn script(alloc: Global, row: Row<'_>) -> Result<String> {
    let script = script_of(hex_of(row.asked())?);
    Ok(format!(in alloc; "{script:?}")?)
}

/// What a byte of a pair table means, which means that byte.
pub fn break_state(alloc: Global, row: Row<'_>) -> Result<String> {
    let byte = number_of(row.asked())?;
    let state = BreakState::from_unaligned(byte);
    if state.to_unaligned() != byte {
        bail!("another byte");
    }
    Ok(format!(in alloc; "{state:?}")?)
}

/// What a byte of a machine accepts, and the byte that means that.
pub fn acceptance(alloc: Global, row: Row<'_>) -> Result<String> {
    let acceptance = Acceptance::from_unaligned(number_of(row.asked())?);
    let byte = acceptance.to_unaligned();
    Ok(format!(in alloc; "{acceptance:?}, {byte}")?)
}

const WORD_TYPES: [(&str, WordType); 3] = [
    ("none", WordType::None),
    ("number", WordType::Number),
    ("letter", WordType::Letter),
];

/// Whether a type of words is word-like.
pub fn word_type(alloc: Global, row: Row<'_>) -> Result<String> {
    let word_type = meaning(&WORD_TYPES, row.asked()).context("no type")?;
    let is_word_like = word_type.is_word_like();
    Ok(format!(in alloc; "{is_word_like}")?)
}

/// The letters of the language that a text names, or a hyphen.
pub fn language(alloc: Global, row: Row<'_>) -> Result<String> {
    match LanguageIdentifier::try_from_language(row.quoted().unwrap_or("")) {
        Some(language) => Ok(language.language().to_owned(alloc)?),
        None => Ok("-".to_owned(alloc)?),
    }
}

const MEMO_ERRORS: [(&str, MemoError); 4] = [
    ("MemoError Memory", MemoError::Memory),
    ("MemoError NotNeo", MemoError::NotNeo),
    ("MemoError HasDictionary", MemoError::HasDictionary),
    ("MemoError TooLarge", MemoError::TooLarge),
];

/// The text of an error of this name.
pub fn error(alloc: Global, row: Row<'_>) -> Result<String> {
    let name = row.asked();
    if name == "WrapError NotNeo" {
        return Ok(format!(in alloc; "{}", WrapError::NotNeo)?);
    }
    let error = meaning(&MEMO_ERRORS, name).context("no error")?;
    Ok(format!(in alloc; "{error}")?)
}

// The faults of data.
const FAULTS: [DataError; 19] = [
    DataError::Memory,
    DataError::RangeOrder,
    DataError::RangePast10FFFF,
    DataError::TableSize,
    DataError::ClassOutOfRange,
    DataError::StateOutOfRange,
    DataError::StartRowKeeps,
    DataError::ComplexItems,
    DataError::ComplexBelow0100,
    DataError::ComplexClassNamed,
    DataError::StateCount,
    DataError::TransitionSize,
    DataError::TransitionOutOfRange,
    DataError::SymbolOutOfRange,
    DataError::TooManyLookaheads,
    DataError::LookaheadOutOfRange,
    DataError::EndCycle,
    DataError::Stalls,
    DataError::MissingTailoring,
];

/// The number of the fault of this name, and its text as far as its second word.
pub fn fault(alloc: Global, row: Row<'_>) -> Result<String> {
    for fault in &FAULTS {
        if is_named(alloc, *fault, row.asked())? {
            return numbered(alloc, *fault);
        }
    }
    bail!("no fault of this name")
}

fn is_named(alloc: Global, fault: DataError, name: &str) -> Result<bool, AllocError> {
    let shown = format!(in alloc; "{fault:?}")?;
    Ok(shown.as_str() == name)
}

fn numbered(alloc: Global, fault: DataError) -> Result<String> {
    let number = fault.number();
    let shown = format!(in alloc; "{fault}")?;
    let (head, _text) = shown.as_str().split_once(": ").context("no colon")?;
    Ok(format!(in alloc; "{number}, {head}:")?)
}
