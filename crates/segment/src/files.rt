//! The files that are named, one after another.

use crate::job::Job;
use crate::run::run;
use segment_text::counts::write_count;
use segment_text::fault::Fault;
use segment_text::size::{Size, Tally};
use std::io::ErrorKind;
use std::process::ExitCode;
use std::{fs, io};

// The name of standard input among operands.
const STANDARD_INPUT: &str = "-";

// What came of the files so far.
#[derive(Clone, Copy)]
struct Totals {
    // What was found, and how large the files were.
    tally: Tally,
    // Whether a file failed.
    has_failed: bool,
}

/// Does a job to each file in turn, or to standard input where none is named. Where segments are counted in more than one file, it writes
/// how many there were in all, and the numbers beside. What can't be read is complained of, and the next file comes. Out of memory it ends,
/// and blames no file. The status is 1 where there was such a file, not all was written, or when out of memory. A pipe that nobody reads
/// ends all quietly.
pub fn run_all(rt: &HostRuntime, job: &Job, names: &[&str]) -> ExitCode {
    match try_run_all(rt, job, names) {
        Ok(totals) if totals.has_failed => ExitCode::FAILURE,
        Ok(_) => ExitCode::SUCCESS,
        // Nobody reads on, so there is nothing more to do.
        Err(error) if error.kind() == ErrorKind::BrokenPipe => ExitCode::SUCCESS,
        Err(error) if error.kind() == ErrorKind::OutOfMemory => {
            let _unheard = eprintln!(rt; "segment: out of memory");
            ExitCode::FAILURE
        }
        Err(error) => {
            complain(rt, "standard output", &error);
            ExitCode::FAILURE
        }
    }
}

// The error is the output's, or being out of memory.
fn try_run_all(rt: &HostRuntime, job: &Job, names: &[&str]) -> io::Result<Totals> {
    let mut totals = no_totals();
    if names.is_empty() {
        add_file(rt, job, None, &mut totals)?;
    }
    for name in names {
        add_file(rt, job, Some(name), &mut totals)?;
    }
    if let Some(numbers) = job.asked_counts()
        && names.len() > 1
    {
        write_count(
            rt.alloc(),
            numbers,
            totals.tally,
            Some("total"),
            &mut rt.stdout(),
        )?;
    }
    Ok(totals)
}

fn no_totals() -> Totals {
    Totals {
        tally: Tally {
            segments: 0,
            size: Size { lines: 0, bytes: 0 },
        },
        has_failed: false,
    }
}

// What was found in two files.
fn both(one: Tally, other: Tally) -> Tally {
    Tally {
        segments: one.segments.saturating_add(other.segments),
        size: Size {
            lines: one.size.lines.saturating_add(other.size.lines),
            bytes: one.size.bytes.saturating_add(other.size.bytes),
        },
    }
}

// Does a job to a file, and adds what came of it. The error is the output's, or being out of memory.
fn add_file(
    rt: &HostRuntime,
    job: &Job,
    name: Option<&str>,
    totals: &mut Totals,
) -> io::Result<()> {
    match run_file(rt, job, name) {
        Ok(tally) => totals.tally = both(totals.tally, tally),
        Err(Fault::Write(error)) => return Err(error),
        Err(Fault::MemoryBefore | Fault::MemoryAmid) => {
            return Err(io::Error::from(ErrorKind::OutOfMemory));
        }
        Err(Fault::Read(error)) => {
            totals.has_failed = true;
            complain(rt, shown_name(name), &error);
        }
    }
    Ok(())
}

fn run_file(rt: &HostRuntime, job: &Job, name: Option<&str>) -> Result<Tally, Fault> {
    let alloc = rt.alloc();
    match name {
        None => run(alloc, job, name, &mut rt.stdin(), &mut rt.stdout()),
        Some(STANDARD_INPUT) => run(alloc, job, name, &mut rt.stdin(), &mut rt.stdout()),
        Some(path) => {
            let mut file = fs::open(rt, path).map_err(Fault::of_reading)?;
            run(alloc, job, name, &mut file, &mut rt.stdout())
        }
    }
}

// What complaints call a file.
fn shown_name(name: Option<&str>) -> &str {
    match name {
        None | Some(STANDARD_INPUT) => "standard input",
        Some(path) => path,
    }
}

// Where there is no standard error, nobody hears it.
fn complain<E: std::fmt::Display>(rt: &HostRuntime, name: &str, error: &E) {
    let _unheard = eprintln!(rt; "segment: {name}: {error}");
}
