//! Random texts, and how texts are read.

use crate::dice::Dice;
use bench::segmenter::Text;
use icu_segmenter::indices::{Latin1Indices, StrCharIndices, Utf8CharIndices, Utf16Indices};
use seg_text::cursor::Cursor;
use std::alloc::{AllocError, Global};

/// How many bytes or units a text has.
pub fn size(text: Text<'_>) -> usize {
    match text {
        Text::Str(text) => text.len(),
        Text::Utf8(text) | Text::Latin1(text) => text.len(),
        Text::Utf16(text) => text.len(),
    }
}

/// Where each item of a text begins, and at last its end. Fails only when out of memory.
pub fn starts(alloc: Global, text: Text<'_>) -> Result<Vec<usize>, AllocError> {
    match text {
        Text::Str(text) => places(alloc, StrCharIndices::new(text)),
        Text::Utf8(text) => places(alloc, Utf8CharIndices::new(text)),
        Text::Latin1(text) => places(alloc, Latin1Indices::new(text)),
        Text::Utf16(text) => places(alloc, Utf16Indices::new(text)),
    }
}

fn places<I: Cursor>(alloc: Global, mut text: I) -> Result<Vec<usize>, AllocError> {
    let mut places = Vec::new(alloc);
    for _turn in 0..u64::MAX {
        places.push(text.place())?;
        if text.next_item().is_none() {
            break;
        }
    }
    Ok(places)
}

/// The characters of a text. Fails only when out of memory.
pub fn decoded<I: Cursor>(alloc: Global, mut text: I) -> Result<String, AllocError> {
    let mut characters = String::new(alloc);
    for _turn in 0..u64::MAX {
        let Some((_, code_point)) = text.next_item() else {
            break;
        };
        characters.push(char::from_u32(code_point).unwrap_or(char::REPLACEMENT_CHARACTER))?;
    }
    Ok(characters)
}

/// The characters of random bytes. Fails only when out of memory.
pub fn random_text(alloc: Global, dice: &mut Dice) -> Result<String, AllocError> {
    let bytes = random_bytes(alloc, dice)?;
    decoded(alloc, Utf8CharIndices::new(bytes.as_slice()))
}

/// Bytes of some characters in UTF-8, one in four times with others between them. Fails only when out of memory.
pub fn random_bytes(alloc: Global, dice: &mut Dice) -> Result<Vec<u8>, AllocError> {
    let mut bytes = Vec::new(alloc);
    let others = if dice.comes(64) { 96 } else { 0 };
    let bound = if dice.comes(128) { 6 } else { 40 };
    for _ in 0..dice.below(bound) {
        if dice.comes(others) {
            bytes.push(dice.byte())?;
        } else {
            bytes.extend_from_slice(dice.character().encode_utf8(&mut [0; 4]).as_bytes())?;
        }
    }
    Ok(bytes)
}

/// Units of some characters in UTF-16, with surrogates between them. Fails only when out of memory.
pub fn random_units(alloc: Global, dice: &mut Dice) -> Result<Vec<u16>, AllocError> {
    let mut units = Vec::new(alloc);
    for _ in 0..dice.below(16) {
        if dice.comes(128) {
            units.push(0xD800 | (dice.number() % 0x800) as u16)?;
        } else {
            units.extend_from_slice(dice.character().encode_utf16(&mut [0; 2]))?;
        }
    }
    Ok(units)
}
