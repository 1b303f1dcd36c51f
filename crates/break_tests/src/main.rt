//! Runs the official break tests of Unicode 15.0 through the library, with the data of `icu_segmenter_data`, and rows of lines with
//! options; and through the segmenters whose boundaries are proved to be those of UAX #29 and UAX #14, by Unicode 18.0. Then it compares
//! pair tables with these, on every text of up to three characters out of one for each symbol of a machine and class of a table.
//!
//! A test is passed where the text has just the boundaries that its line says, as str, as UTF-8 and as UTF-16; in lines also just the
//! mandatory ones that the rules named in its comment make so. Lines that aren't passed are printed: those of rules that have changed
//! since. The argument is the folder of the test files.
#![tactic(auto)]

mod compare;
mod counts;
mod engine;
mod options;
mod sample;
mod segmenter;

use anyhow::{Context, Result};
use compare::compare_rows;
use counts::{Counts, counts_of, option_counts_of};
use engine::{ENGINES, Engine};
use std::process::ExitCode;
use std::{env, fs};

fn main(rt: HostRuntime) -> Result<ExitCode> {
    let folder = env::args(&rt)?.nth(1).context("usage: break_tests FOLDER")?;
    let mut failed = failed_with_options(&rt, folder.as_str())?;
    for engine in ENGINES {
        failed = failed.saturating_add(failed_by(&rt, folder.as_str(), engine)?);
    }
    let rows = read(&rt, folder.as_str(), "Representatives.txt")?;
    compare_rows(&rt, rows.as_str())?;
    Ok(if failed > 0 {
        ExitCode::FAILURE
    } else {
        ExitCode::SUCCESS
    })
}

// Runs an engine over its file, and returns how many samples it failed but for those of rules that have changed.
fn failed_by(rt: &HostRuntime, folder: &str, engine: Engine) -> Result<u32> {
    let text = read(rt, folder, engine.file())?;
    let segmenter = engine.segmenter(rt.alloc())?;
    let counts = counts_of(rt, &segmenter, text.as_str())?;
    print(rt, engine.file(), engine.name(), counts)?;
    Ok(counts.failed.saturating_sub(engine.changed_since()))
}

// Runs the rows of lines with options, and returns how many failed.
fn failed_with_options(rt: &HostRuntime, folder: &str) -> Result<u32> {
    let text = read(rt, folder, OPTION_FILE)?;
    let counts = option_counts_of(rt, text.as_str())?;
    print(rt, OPTION_FILE, "lines by machine", counts)?;
    Ok(counts.failed)
}

// The rows of lines with options.
const OPTION_FILE: &str = "LineOptionTest.txt";

// A file of the folder.
fn read(rt: &HostRuntime, folder: &str, file: &str) -> Result<String> {
    let path = format!(in rt.alloc(); "{folder}/{file}")?;
    fs::read_to_string(rt, path.as_str()).context("reading a test file")
}

fn print(rt: &HostRuntime, file: &str, name: &str, counts: Counts) -> Result<()> {
    let Counts { passed, failed } = counts;
    println!(rt; "{file}, {name}: {passed} passed, {failed} failed")?;
    Ok(())
}
