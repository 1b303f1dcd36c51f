//! Writes the machine of lines of `icu_segmenter_uax14`, as the compiler of rules finds it, and the certificate by which the proof
//! checks it there. So nothing here is trusted.
//!
//! The word `arrays` asks for src/states.rt of that crate, `certificate` for proofs/LineTables.antt, and `sizes` for how large they are.
#![tactic(auto)]

mod arrays;
mod certificate;
mod claims;
mod page;
mod plan;
mod rows;
mod rules;
mod tables;

use anyhow::{Context, Result, bail};
use arrays::arrays;
use certificate::certificate;
use rows::{SYMBOLS, rules};
use seg_compile::compile::{Certified, Characters, compile_certified};
use seg_data::provider::ClassTable;
use seg_machine::provider::SegmenterStateMachine;
use seg_rules::certificate::Configuration;
use std::alloc::{AllocError, Global};
use std::env::{Env, FillError};
use std::io::Write;
use std::str;

// The longest word that is known has so many bytes.
const LONGEST: usize = 11;

fn main(rt: HostRuntime) -> Result<()> {
    let mut buffer = [0; LONGEST];
    let word = word(&rt, &mut buffer).context(USAGE)?;
    let text = text_of(rt.alloc(), word)?;
    rt.stdout().write_all(text.as_bytes())?;
    Ok(())
}

const USAGE: &str = "usage: line_generator arrays|certificate|sizes";

// The one word of the command line.
fn word<'a>(rt: &HostRuntime, buffer: &'a mut [u8; LONGEST]) -> Option<&'a str> {
    let count = rt.arg(1, buffer).ok()?;
    match rt.arg(2, &mut []) {
        Err(FillError::NotPresent) => str::from_utf8(&buffer[..count]).ok(),
        _ => None,
    }
}

// What a word asks for.
fn text_of(alloc: Global, word: &str) -> Result<String> {
    let lines = lines(alloc)?;
    text_about(alloc, &lines, word)
}

// What a word asks for of the machine of lines.
fn text_about(alloc: Global, lines: &Certified, word: &str) -> Result<String> {
    match word {
        "arrays" => Ok(arrays(alloc, lines.machine())?),
        "certificate" => Ok(certificate(alloc, lines)?),
        "sizes" => sizes(alloc, lines),
        _ => bail!(USAGE),
    }
}

// The machine of lines. Its symbols of characters are others than in `icu_segmenter_uax14`, and aren't written.
fn lines(alloc: Global) -> Result<Certified> {
    let characters = Characters {
        symbols: ClassTable::try_from_ranges(Vec::new(alloc), rules().alone)?,
        pseudo_symbol_shift: u8::MAX,
        pseudo_symbol_map: Vec::new(alloc),
    };
    Ok(compile_certified(alloc, rules(), SYMBOLS, characters)?)
}

// How many configurations there are in all.
fn count(relation: &[&[Configuration]]) -> usize {
    let mut count = 0_usize;
    for configurations in relation {
        count = count.saturating_add(configurations.len());
    }
    count
}

// How large the rules, the machine and its certificate are.
fn sizes(alloc: Global, lines: &Certified) -> Result<String> {
    let befores = lines.befores(alloc)?.len();
    let configurations = count(lines.relation(alloc)?.as_slice());
    Ok(shown_sizes(alloc, lines.machine(), befores, configurations)?)
}

fn shown_sizes(
    alloc: Global,
    machine: &SegmenterStateMachine,
    befores: usize,
    configurations: usize,
) -> Result<String, AllocError> {
    let rows = rules().above.len().saturating_add(rules().below.len());
    let states = machine.states().len();
    let lookaheads = machine.num_lookaheads();
    format!(in alloc;
        "{rows} rows, {SYMBOLS} symbols, {befores} before a place, {states} states, {lookaheads} lookahead, {configurations} configurations\n"
    )
}
