//! The program, over any runtime and writers.
ghost use Rattle.std.specs.Prelude.{◌<◌, length};

use crate::engine::{Data, ENGINES, Engine, are_engines, is_chosen};
use crate::trial::{PASSES, Trial};
use anyhow::{Context, Result, ensure};
use bench::segmenter::Text;
use std::alloc::{AllocError, Global};
use std::io::Write;
use std::rt::{Clock, Files};
use std::{fs, io};

// How many bytes a text has at most.
const TEXT_LEN: usize = 300_000;

// The words of encodings.
const ENCODINGS: [&str; 4] = ["utf8", "str", "latin1", "utf16"];

const USAGE: &str =
    "usage: speed [{grapheme,sentence,word,line}-{classic,neo,memo}].. [utf8|str|latin1|utf16] FILE\n";

/// Measures the engines that the words name over the text of the file that the last word names, and
/// returns the exit status: 0, or 2 where the words are no command's.
pub fn run<R: AllocGlobal + Files + Clock, O: Write, E: Write>(
    rt: &R,
    words: &[&str],
    out: &mut O,
    err: &mut E,
) -> Result<u8> {
    let Some((file, encoding, engines)) = request_of(words) else {
        return refuse(err);
    };
    let text = text_of(rt, file)?;
    measure_engines(rt, engines, encoding, text.as_slice(), out, err)?;
    Ok(0)
}

// The file that the words name, the encoding before it, or else UTF-8, and the engines' words before these.
fn request_of<'a>(words: &'a [&'a str]) -> Option<(&'a str, &'a str, &'a [&'a str])> {
    let (file, before) = words.split_last()?;
    let (encoding, engines) = match before.split_last() {
        Some((word, engines)) if ENCODINGS.contains(word) => (*word, engines),
        _ => (ENCODINGS[0], before),
    };
    if are_engines(engines) {
        Some((file, encoding, engines))
    } else {
        None
    }
}

// Says how the program is called, and returns the status of a wrong call.
fn refuse<E: Write>(err: &mut E) -> Result<u8> {
    err.write_all(USAGE.as_bytes())?;
    Ok(2)
}

// The bytes of a file, again and again.
fn text_of<R: AllocGlobal + Files>(rt: &R, file: &str) -> Result<Vec<u8>> {
    let bytes = fs::read(rt, file).context("reading the file")?;
    ensure!(!bytes.is_empty(), "the file is empty");
    Ok(repeated(rt.alloc(), bytes.as_slice())?)
}

// Measures the engines that the words name over a text, and prints what was found.
fn measure_engines<R: AllocGlobal + Clock, O: Write, E: Write>(
    rt: &R,
    engines: &[&str],
    encoding: &str,
    text: &[u8],
    out: &mut O,
    err: &mut E,
) -> Result<()> {
    let mut trials = trials_of(rt, engines)?;
    measure_in(rt, trials.as_mut_slice(), encoding, text)?;
    Ok(print(trials.as_slice(), text.len(), out, err)?)
}

// The bytes, cut off where they are too many, as often as they have room.
fn repeated(alloc: Global, bytes: &[u8]) -> Result<Vec<u8>, AllocError>
    requires { 0 < length bytes.now }
{
    let start = &bytes[..bytes.len().min(TEXT_LEN)];
    start.repeat(alloc, TEXT_LEN / start.len())
}

// The engines that the words name, each with both data.
fn trials_of<R: AllocGlobal + Clock>(rt: &R, engines: &[&str]) -> Result<Vec<Trial>> {
    let mut trials = Vec::new(rt.alloc());
    add_trials(rt, engines, &mut trials)?;
    Ok(trials)
}

fn add_trials<R: AllocGlobal + Clock>(
    rt: &R,
    engines: &[&str],
    trials: &mut Vec<Trial>,
) -> Result<()> {
    for engine in &ENGINES {
        if is_chosen(engines, *engine) {
            add_trial(rt, *engine, Data::Small, trials)?;
            add_trial(rt, *engine, Data::Real, trials)?;
        }
    }
    Ok(())
}

fn add_trial<R: AllocGlobal + Clock>(
    rt: &R,
    engine: Engine,
    source: Data,
    trials: &mut Vec<Trial>,
) -> Result<()> {
    let trial = Trial::new(rt, rt.alloc(), engine, source)?;
    Ok(trials.push(trial).map_err(AllocError::from)?)
}

// Measures the engines over a text in an encoding: in Latin-1 the bytes as they are, in str and UTF-16 what they say in UTF-8.
fn measure_in<R: AllocGlobal + Clock>(
    rt: &R,
    trials: &mut [Trial],
    encoding: &str,
    bytes: &[u8],
) -> Result<()> {
    let text = String::from_utf8_lossy(rt.alloc(), bytes)?;
    measure_by(rt, trials, encoding, bytes, text.as_str())
}

fn measure_by<R: AllocGlobal + Clock>(
    rt: &R,
    trials: &mut [Trial],
    encoding: &str,
    bytes: &[u8],
    text: &str,
) -> Result<()> {
    match encoding {
        "str" => measure(rt, trials, Text::Str(text)),
        "latin1" => measure(rt, trials, Text::Latin1(bytes)),
        "utf16" => measure_in_utf16(rt, trials, text),
        _ => measure(rt, trials, Text::Utf8(bytes)),
    }
}

fn measure_in_utf16<R: AllocGlobal + Clock>(
    rt: &R,
    trials: &mut [Trial],
    text: &str,
) -> Result<()> {
    let units: Vec<u16> = text.encode_utf16().collect(rt.alloc())?;
    measure(rt, trials, Text::Utf16(units.as_slice()))
}

// Goes over the text with each engine in turn, and that again and again, so that what disturbs the
// machine disturbs them all.
fn measure<R: AllocGlobal + Clock>(rt: &R, trials: &mut [Trial], text: Text<'_>) -> Result<()> {
    for _ in 0..PASSES {
        for trial in trials.iter_mut() {
            trial.pass(rt, rt.alloc(), text)?;
        }
    }
    Ok(())
}

fn print<O: Write, E: Write>(
    trials: &[Trial],
    len: usize,
    out: &mut O,
    err: &mut E,
) -> io::Result<()> {
    for trial in trials {
        trial.print_found(out)?;
        trial.print_time(len, err)?;
    }
    out.flush()
}
