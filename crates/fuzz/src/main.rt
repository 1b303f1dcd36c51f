//! Hands random data and random texts to every kind of segmenter, and looks whether anything but an answer or a refusal comes.
//!
//! The arguments are how many cases of each kind are tried, and the seed of the first; the others have those after it. What is
//! printed of a kind is how many cases had boundaries, of how many of them there was a memo, and of how many the data were rejected,
//! by fault. A hundred times as many certificates of `seg_rules` are changed, and of each part of one is printed how many are accepted.
//!
//! With `ranges` a table of as many ranges as there can be is tried, and with `refusals` what takes memory (`refusals`).
#![tactic(auto)]

mod cases;
mod certain;
mod certificate;
mod changes;
mod dice;
mod failure;
mod machines;
mod near;
mod parts;
mod ranges;
mod refusals;
mod samples;
mod small;
mod tables;
mod tally;
mod trial;

use anyhow::{Context, Result};
use cases::Kind;
use changes::try_changes;
use failure::Failure;
use ranges::try_ranges;
use refusals::try_named;
use std::alloc::AllocError;
use std::env;
use std::io::Write;
use std::process::ExitCode;
use tally::tally_of;

fn main(rt: HostRuntime) -> ExitCode {
    match start(&rt) {
        Ok(()) => ExitCode::SUCCESS,
        Err(error) => {
            let _ = writeln!(rt.stderr(), "fuzz: {error}");
            ExitCode::FAILURE
        }
    }
}

// Tries what the command line asks for.
fn start(rt: &HostRuntime) -> Result<()> {
    let words = words(rt)?;
    try_words(rt, words.as_slice())
}

fn try_words(rt: &HostRuntime, words: &[String]) -> Result<()> {
    match words {
        [_, mode] if mode.as_str() == "ranges" => { Ok(try_ranges(rt.alloc(), &mut rt.stdout())?) }
        [_, mode, names @ ..] if mode.as_str() == "refusals" => try_refusals(rt, names),
        [_, cases, seed] => try_cases(rt, cases.as_str(), seed.as_str()),
        _ => Err(Failure::Usage.into()),
    }
}

// The words of the command line. They are pushed one by one: `collect` asks for memory by a hint, and where it is refused once more for
// less.
fn words(rt: &HostRuntime) -> Result<Vec<String>, Failure> {
    let mut words = Vec::new(rt.alloc());
    for word in env::args(rt).map_err(|_| Failure::Memory)? {
        words.push(word).map_err(AllocError::from)?;
    }
    Ok(words)
}

// How many times as many certificates are changed as there are cases of a kind.
const CHANGES: u64 = 100;

fn try_cases(rt: &HostRuntime, cases: &str, seed: &str) -> Result<()> {
    let cases = cases.parse().context("the number of cases")?;
    let seed = seed.parse().context("the seed")?;
    try_kinds(rt, cases, seed)?;
    let changes = cases.saturating_mul(CHANGES);
    Ok(try_changes(rt.alloc(), changes, seed, &mut rt.stdout())?)
}

fn try_kinds(rt: &HostRuntime, cases: u64, seed: u64) -> Result<()> {
    for kind in &Kind::ALL {
        let tally = tally_of(rt.alloc(), *kind, cases, seed)?;
        println!(rt; "{kind:?}: {tally}")?;
    }
    Ok(())
}

// Tries what these words name, in their order.
fn try_refusals(rt: &HostRuntime, names: &[String]) -> Result<()> {
    for name in names {
        try_named(rt.alloc(), name.as_str(), &mut rt.stdout())?;
    }
    Ok(())
}
