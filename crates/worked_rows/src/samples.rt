//! The texts that rows ask.

use crate::numbers::hex_of;
use crate::row::Row;
use anyhow::{Context, Result};
use bench::segmenter::Text;
use std::alloc::{AllocError, Global};

/// The text of a row.
#[derive(Drop)]
pub enum Sample {
    /// A text, for each encoding that has it.
    Str(String),
    /// Bytes in UTF-8 alone.
    Utf8(Vec<u8>),
    /// Bytes in Latin-1 alone.
    Latin1(Vec<u8>),
    /// Units in UTF-16 alone.
    Utf16(Vec<u16>),
}

impl Sample {
    /// The text of a row: between quotes, or an encoding and its bytes or units in hexadecimal digits; empty where there is none.
    pub fn of(alloc: Global, row: Row<'_>) -> Result<Self> {
        if let Some(text) = row.quoted() {
            return Ok(Sample::Str(unescaped(alloc, text)?));
        }
        if let Some(words) = row.part("utf8") {
            return Ok(Sample::Utf8(bytes_of(alloc, words)?));
        }
        if let Some(words) = row.part("latin1") {
            return Ok(Sample::Latin1(bytes_of(alloc, words)?));
        }
        match row.part("utf16") {
            Some(words) => Ok(Sample::Utf16(units_of(alloc, words)?)),
            None => Ok(Sample::Str(String::new(alloc))),
        }
    }

    /// The text, borrowed.
    pub fn text(&self) -> Text<'_> {
        match self {
            Sample::Str(text) => Text::Str(text.as_str()),
            Sample::Utf8(bytes) => Text::Utf8(bytes.as_slice()),
            Sample::Latin1(bytes) => Text::Latin1(bytes.as_slice()),
            Sample::Utf16(units) => Text::Utf16(units.as_slice()),
        }
    }
}

fn bytes_of(alloc: Global, words: &str) -> Result<Vec<u8>> {
    let mut bytes = Vec::new(alloc);
    for word in words.split_whitespace() {
        bytes
            .push(u8::try_from(hex_of(word)?)?)
            .map_err(AllocError::from)?;
    }
    Ok(bytes)
}

fn units_of(alloc: Global, words: &str) -> Result<Vec<u16>> {
    let mut units = Vec::new(alloc);
    for word in words.split_whitespace() {
        units
            .push(u16::try_from(hex_of(word)?)?)
            .map_err(AllocError::from)?;
    }
    Ok(units)
}

/// The text of a row between quotes, or an empty one.
pub fn quoted(alloc: Global, row: Row<'_>) -> Result<String> {
    unescaped(alloc, row.quoted().unwrap_or(""))
}

/// The text with these escapes: `\n`, `\r`, a code point as `\u{301}`, and a text so often, as `\*3{ab}`.
pub fn unescaped(alloc: Global, text: &str) -> Result<String> {
    let mut out = String::new(alloc);
    let mut rest = text;
    for _ in 0..text.len() {
        let Some((before, escape)) = rest.split_once('\\') else {
            break;
        };
        out.push_str(before)?;
        rest = push_escape(&mut out, escape)?;
    }
    out.push_str(rest)?;
    Ok(out)
}

// Adds what an escape means, and returns what comes after it.
fn push_escape<'a>(out: &mut String, escape: &'a str) -> Result<&'a str> {
    if let Some(rest) = escape.strip_prefix('n') {
        out.push('\n')?;
        return Ok(rest);
    }
    if let Some(rest) = escape.strip_prefix('r') {
        out.push('\r')?;
        return Ok(rest);
    }
    let (name, rest) = escape.split_once('}').context("no escape")?;
    match name.split_once('{').context("no escape")? {
        ("u", digits) => push_code_point(out, digits)?,
        (count, text) => push_repeated(out, count, text)?,
    }
    Ok(rest)
}

fn push_code_point(out: &mut String, digits: &str) -> Result<()> {
    let character = char::from_u32(hex_of(digits)?).context("a surrogate")?;
    out.push(character)?;
    Ok(())
}

fn push_repeated(out: &mut String, count: &str, text: &str) -> Result<()> {
    let count = count.strip_prefix('*').context("no escape")?;
    for _ in 0..u32::from_str_radix(count, 10)? {
        out.push_str(text)?;
    }
    Ok(())
}
