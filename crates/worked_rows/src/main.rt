//! Asks worked rows of files of the library: each row has a text or another question, and the answer that is wanted.
//!
//! The lines before a row say by which data, options and words its answer comes; the head of clusters.rows tells how they are written.
//! Whatever finds boundaries is asked by borrowed data and by owned ones, and of a text in each encoding that has it. The argument is the
//! folder of the files. Where an answer is not the one that is wanted, its file, its line and what was found are printed, and the
//! status is 1.
#![tactic(auto)]

mod agreement;
mod answers;
mod borrowed;
mod data;
mod dictionaries;
mod items;
mod line_classes;
mod machines;
mod memos;
mod names;
mod numbers;
mod options;
mod owned;
mod parts;
mod pieces;
mod readers;
mod row;
mod same;
mod samples;
mod segmenters;
mod tables;
mod words;
mod wrapped;

use answers::{answer_of, or_fault};
use anyhow::{Context, Result};
use row::{Row, row_of};
use seg_data::laws::complex_script_numbers;
use seg_machine::laws::small_machines_find;
use seg_text::laws::{
    encodings_with_southeast_asia, latin1_items_are_one, utf8_items_are_one, utf16_items_are_one,
    well_formed_is_str,
};
use std::process::ExitCode;
use std::{env, fs};

/// The files of rows, in the order in which they are asked.
const FILES: [&str; 21] = [
    "items.rows",
    "slices.rows",
    "rests.rows",
    "encodings.rows",
    "tables.rows",
    "machines.rows",
    "tailorings.rows",
    "same.rows",
    "clusters.rows",
    "sentences.rows",
    "statuses.rows",
    "words.rows",
    "word_tables.rows",
    "lines.rows",
    "line_tables.rows",
    "walks.rows",
    "wrapped.rows",
    "pieces.rows",
    "memos.rows",
    "faults.rows",
    "names.rows",
];

fn main(rt: HostRuntime) -> Result<ExitCode> {
    let folder = env::args(&rt)?.nth(1).context("usage: worked_rows FOLDER")?;
    status_of(&rt, folder.as_str())
}

// Asks all files, prints what laws give, and returns the exit status.
fn status_of(rt: &HostRuntime, folder: &str) -> Result<ExitCode> {
    let failed = failed_in_all(rt, folder)?;
    print_laws(rt)?;
    Ok(if failed > 0 {
        ExitCode::FAILURE
    } else {
        ExitCode::SUCCESS
    })
}

// Asks all files, and returns how many rows failed.
fn failed_in_all(rt: &HostRuntime, folder: &str) -> Result<u32> {
    let mut failed = 0_u32;
    for file in FILES {
        failed = failed.saturating_add(failed_in(rt, folder, file)?);
    }
    Ok(failed)
}

// Calls the laws that have no texts or machines, and prints the two lists that laws give.
fn print_laws(rt: &HostRuntime) -> Result<()> {
    latin1_items_are_one();
    utf8_items_are_one();
    utf16_items_are_one();
    well_formed_is_str();
    small_machines_find();
    let (encodings, scripts) = (encodings_with_southeast_asia(), complex_script_numbers());
    println!(rt; "encodings with Southeast Asia {encodings:?}, numbers of scripts {scripts:?}")?;
    Ok(())
}

// Asks a file, and returns how many of its rows failed.
fn failed_in(rt: &HostRuntime, folder: &str, file: &str) -> Result<u32> {
    let (agreed, failed) = counts_in(rt, folder, file)?;
    println!(rt; "{file}: {agreed} agreed, {failed} failed")?;
    Ok(failed)
}

// How many rows of a file agree, and how many fail.
fn counts_in(rt: &HostRuntime, folder: &str, file: &str) -> Result<(u32, u32)> {
    let text = text_of(rt, folder, file)?;
    counts_of(rt, file, text.as_str())
}

fn text_of(rt: &HostRuntime, folder: &str, file: &str) -> Result<String> {
    let path = format!(in rt.alloc(); "{folder}/{file}")?;
    Ok(fs::read_to_string(rt, path.as_str()).context("reading a file of rows")?)
}

// How many rows of a text agree, and how many fail. The lines of settings of a row begin with the last one that says what is asked.
fn counts_of(rt: &HostRuntime, file: &str, text: &str) -> Result<(u32, u32)> {
    let (mut agreed, mut failed, mut number) = (0_u32, 0_u32, 0_u32);
    let (mut begin, mut end) = (0_usize, 0_usize);
    for line in text.lines() {
        number = number.saturating_add(1);
        if line.starts_with("find ") {
            begin = end;
        }
        let settings = text.get(begin..end).unwrap_or("");
        end = end.saturating_add(line.len()).saturating_add(1);
        if let Some((asked, wanted)) = row_of(line) {
            if agrees(rt, file, number, Row::new(settings, asked), wanted)? {
                agreed = agreed.saturating_add(1);
            } else {
                failed = failed.saturating_add(1);
            }
        }
    }
    Ok((agreed, failed))
}

// Whether the answer to a row is the one that is wanted. Prints any other.
fn agrees(rt: &HostRuntime, file: &str, number: u32, row: Row<'_>, wanted: &str) -> Result<bool> {
    let found = or_fault(rt.alloc(), answer_of(rt.alloc(), row))?;
    let is_wanted = found.as_str().trim() == wanted.trim();
    if !is_wanted {
        println!(rt; "{file}:{number}: found {found}")?;
    }
    Ok(is_wanted)
}
