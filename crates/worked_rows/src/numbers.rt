//! Numbers, and what is made of them, as the files write them.

use crate::words::meaning;
use anyhow::{Context, Result};
use icu_segmenter::provider::{Acceptance, ComplexScript, Lookahead, Symbol};
use std::alloc::{AllocError, Global};

/// A decimal number.
pub fn number_of(word: &str) -> Result<u8> {
    Ok(u8::from_str_radix(word, 10)?)
}

/// A number in hexadecimal digits.
pub fn hex_of(word: &str) -> Result<u32> {
    Ok(u32::from_str_radix(word, 16)?)
}

/// Decimal numbers.
pub fn numbers_of(alloc: Global, words: &str) -> Result<Vec<u8>> {
    let mut numbers = Vec::new(alloc);
    for word in words.split_whitespace() {
        numbers.push(number_of(word)?).map_err(AllocError::from)?;
    }
    Ok(numbers)
}

/// Ranges of code points, each with a value, as `61-7A=2`; of one code point as `61=2`.
pub fn ranges_of(alloc: Global, words: &str) -> Result<Vec<(u32, u32, u8)>> {
    let mut ranges = Vec::new(alloc);
    for word in words.split_whitespace() {
        ranges.push(range_of(word)?).map_err(AllocError::from)?;
    }
    Ok(ranges)
}

fn range_of(word: &str) -> Result<(u32, u32, u8)> {
    let (range, value) = word.split_once('=').context("a range without a value")?;
    let (first, last) = range.split_once('-').unwrap_or((range, range));
    Ok((hex_of(first)?, hex_of(last)?, number_of(value)?))
}

/// Two decimal numbers, and what stands there, as `3+35=57`.
pub fn cell_of(word: &str) -> Result<(u8, u8, u8)> {
    let (place, value) = word.split_once('=').context("a cell without a value")?;
    let (one, other) = place.split_once('+').context("a cell without a place")?;
    Ok((number_of(one)?, number_of(other)?, number_of(value)?))
}

/// Symbols and scripts, each as `1=Thai`; those that replace a symbol, as `4>1=Thai`, are left out.
pub fn map_of(alloc: Global, words: &str) -> Result<Vec<(Symbol, ComplexScript)>> {
    let mut map = Vec::new(alloc);
    for word in words.split_whitespace() {
        if word.split_once('>').is_none() {
            map.push(symbol_and_script(word)?)
                .map_err(AllocError::from)?;
        }
    }
    Ok(map)
}

/// What replaces symbols, each as `4>1=Thai`; words without `>` are left out.
pub fn replaced_of(alloc: Global, words: &str) -> Result<Vec<(Symbol, Symbol, ComplexScript)>> {
    let mut replaced = Vec::new(alloc);
    for word in words.split_whitespace() {
        if let Some((from, rest)) = word.split_once('>') {
            let (to, script) = symbol_and_script(rest)?;
            replaced
                .push((number_of(from)?, to, script))
                .map_err(AllocError::from)?;
        }
    }
    Ok(replaced)
}

fn symbol_and_script(word: &str) -> Result<(Symbol, ComplexScript)> {
    let (symbol, script) = word.split_once('=').context("a symbol without a script")?;
    Ok((number_of(symbol)?, script_named(script)?))
}

const SCRIPTS: [(&str, ComplexScript); 4] = [
    ("None", ComplexScript::None),
    ("Thai", ComplexScript::Thai),
    ("Myanmar", ComplexScript::Myanmar),
    ("ChineseOrJapanese", ComplexScript::ChineseOrJapanese),
];

fn script_named(name: &str) -> Result<ComplexScript> {
    Ok(meaning(&SCRIPTS, name).context("no script")?)
}

/// States, as `-` that accepts nothing, `1` that accepts with this status, and `0?1` with status 1 on condition of the lookahead 0;
/// each with the lookahead that it names, as `-@0`.
pub fn states_of(alloc: Global, words: &str) -> Result<Vec<(Acceptance, Option<Lookahead>)>> {
    let mut states = Vec::new(alloc);
    for word in words.split_whitespace() {
        states.push(state_of(word)?).map_err(AllocError::from)?;
    }
    Ok(states)
}

fn state_of(word: &str) -> Result<(Acceptance, Option<Lookahead>)> {
    match word.split_once('@') {
        Some((accepted, named)) => Ok((acceptance_of(accepted)?, Some(number_of(named)?))),
        None => Ok((acceptance_of(word)?, None)),
    }
}

fn acceptance_of(word: &str) -> Result<Acceptance> {
    if word == "-" {
        return Ok(Acceptance::Continue);
    }
    match word.split_once('?') {
        Some((lookahead, status)) => {
            Ok(Acceptance::Conditional(number_of(lookahead)?, number_of(status)?))
        }
        None => Ok(Acceptance::Accept(number_of(word)?)),
    }
}
