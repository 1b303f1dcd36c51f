//! Measures how many bytes of a text the engines segment a second, over small data and over Unicode's.
#![tactic(auto)]

mod data;
mod engine;
mod making;
mod run;
mod segmenter;
mod tally;
mod trial;

use std::env;
use std::process::ExitCode;

fn main(rt: HostRuntime) -> anyhow::Result<ExitCode> {
    let arguments: Vec<String> = env::args(&rt)?.collect(rt.alloc())?;
    Ok(ExitCode::from(status_of(&rt, arguments.as_slice())?))
}

// Measures what the words after the program's name say, and returns the exit status.
fn status_of(rt: &HostRuntime, arguments: &[String]) -> anyhow::Result<u8> {
    let words: Vec<&str> = arguments
        .iter()
        .skip(1)
        .map(|word| word.as_str())
        .collect(rt.alloc())?;
    run::run(rt, words.as_slice(), &mut rt.stdout(), &mut rt.stderr())
}
