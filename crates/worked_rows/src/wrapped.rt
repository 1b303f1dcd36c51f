//! Lines wrapped to columns.

use crate::row::Row;
use crate::samples::quoted;
use anyhow::{Result, bail};
use bench::segmenter::AnySegmenterBorrowed;
use icu_segmenter::wrap::{LineWrapper, WrapIterator, WrapUtf8Iterator};
use std::alloc::{AllocError, Global};

/// The wrapped lines of a `str`, which are those of its bytes: where each ends, in bytes, the columns that it takes, and `!` where it
/// must end there.
pub fn wrapped_answer(
    alloc: Global,
    row: Row<'_>,
    segmenter: AnySegmenterBorrowed<'_>,
) -> Result<String> {
    match segmenter {
        AnySegmenterBorrowed::Lines(lines) => wrapped_in(alloc, row, LineWrapper::new(lines)?),
        _ => bail!("no segmenter of lines"),
    }
}

fn wrapped_in(alloc: Global, row: Row<'_>, wrapper: LineWrapper<'_>) -> Result<String> {
    let columns = row.number("columns")?;
    let text = quoted(alloc, row)?;
    same_lines(alloc, wrapper, text.as_str(), columns)
}

// The lines of a str, which are to be those of its bytes.
fn same_lines(
    alloc: Global,
    wrapper: LineWrapper<'_>,
    text: &str,
    columns: usize,
) -> Result<String> {
    let lines = lines_of(alloc, wrapper, text, columns)?;
    if lines != lines_of_bytes(alloc, wrapper, text.as_bytes(), columns)? {
        bail!("other lines of the bytes");
    }
    Ok(lines)
}

// The lines of a str.
fn lines_of(
    alloc: Global,
    wrapper: LineWrapper<'_>,
    text: &str,
    columns: usize,
) -> Result<String, AllocError> {
    let mut out = String::new(alloc);
    push_lines(alloc, &mut wrapper.wrap_str(text, columns), &mut out)?;
    Ok(out)
}

// Adds the lines that come, and a question mark where one comes after the end.
fn push_lines(
    alloc: Global,
    lines: &mut WrapIterator<'_, '_>,
    out: &mut String,
) -> Result<(), AllocError> {
    let mut end = 0usize;
    for _ in 0..u64::MAX {
        let Some(line) = lines.next() else {
            break;
        };
        end = end.saturating_add(line.text().len());
        push_line(alloc, out, end, line.columns(), line.is_mandatory())?;
    }
    if lines.next().is_some() || lines.next().is_some() {
        out.push('?')?;
    }
    Ok(())
}

// The lines of bytes.
fn lines_of_bytes(
    alloc: Global,
    wrapper: LineWrapper<'_>,
    bytes: &[u8],
    columns: usize,
) -> Result<String, AllocError> {
    let mut out = String::new(alloc);
    push_lines_of_bytes(alloc, &mut wrapper.wrap_utf8(bytes, columns), &mut out)?;
    Ok(out)
}

fn push_lines_of_bytes(
    alloc: Global,
    lines: &mut WrapUtf8Iterator<'_, '_>,
    out: &mut String,
) -> Result<(), AllocError> {
    let mut end = 0usize;
    for _ in 0..u64::MAX {
        let Some(line) = lines.next() else {
            break;
        };
        end = end.saturating_add(line.bytes().len());
        push_line(alloc, out, end, line.columns(), line.is_mandatory())?;
    }
    if lines.next().is_some() || lines.next().is_some() {
        out.push('?')?;
    }
    Ok(())
}

// Adds a line, after a comma if there are some.
fn push_line(
    alloc: Global,
    out: &mut String,
    end: usize,
    columns: u128,
    is_mandatory: bool,
) -> Result<(), AllocError> {
    if !out.is_empty() {
        out.push_str(", ")?;
    }
    let mark = if is_mandatory { "!" } else { "" };
    let line = format!(in alloc; "{end} {columns}{mark}")?;
    out.push_str(line.as_str())
}
