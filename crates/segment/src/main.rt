//! Cuts texts into grapheme clusters, words, sentences or lines, by the data of Unicode, or by rules of the caller's own, and writes each
//! segment on a line of its own, or how many there are, or wraps lines to columns.
#![tactic(auto)]

mod abbreviations;
mod command;
mod dictionary;
mod files;
mod folder;
mod job;
mod lists;
mod patterns;
mod rules;
mod run;
mod shown;
mod words;

use abbreviations::{Location, abbreviations_at, location_of};
use anyhow::{Result, bail};
use clap::ArgMatches;
use clap::error::ErrorKind;
use command::{Request, request_of};
use dictionary::dictionaries_of;
use files::run_all;
use job::{Job, job_of};
use patterns::patterns_of;
use rules::{OwnRules, RulesRequest, job_by, rules_at, rules_request_of};
use segment_arguments::{Columns, columns_by, command_line};
use segment_output::vocabulary::Vocabulary;
use std::env;
use std::process::ExitCode;

// What a command line that can't be followed ends with, as clap's do.
const USAGE_STATUS: u8 = 2;

fn main(rt: HostRuntime) -> ExitCode {
    match start(&rt) {
        Ok(status) => status,
        Err(error) => {
            let _unheard = eprintln!(&rt; "segment: {error:#}");
            ExitCode::FAILURE
        }
    }
}

// Follows the command line. The errors are what a dictionary lacks, and being out of memory.
fn start(rt: &HostRuntime) -> Result<ExitCode> {
    let alloc = rt.alloc();
    let words: Vec<String> = env::args(rt)?.collect(alloc)?;
    let columns = columns_by(words.as_slice());
    match command_line(alloc, columns)?.try_get_matches_from(words.as_slice()) {
        Ok(matches) => follow(rt, &matches),
        Err(error) if error.kind() == ErrorKind::ValueValidation => {
            follow_files(rt, words.as_slice())
        }
        Err(error) => answer(rt, &error),
    }
}

// Follows words of which no operand says columns: one that is no number, where columns may stand, is a file.
fn follow_files(rt: &HostRuntime, words: &[String]) -> Result<ExitCode> {
    match command_line(rt.alloc(), Columns::InOption)?.try_get_matches_from(words) {
        Ok(matches) => follow(rt, &matches),
        Err(error) => answer(rt, &error),
    }
}

// Prints what clap has to say, which is help or why the command line can't be followed. Fails only when out of memory.
fn answer(rt: &HostRuntime, error: &clap::Error) -> Result<ExitCode> {
    if error.kind() == ErrorKind::OutOfMemory {
        bail!("out of memory");
    }
    error.print(rt)?;
    Ok(ExitCode::from(error.exit_code() as u8))
}

// Does what the subcommand asks for.
fn follow(rt: &HostRuntime, matches: &ArgMatches<'_>) -> Result<ExitCode> {
    let Some((kind, matches)) = matches.subcommand() else {
        return refuse(rt, &"no kind of segments is named");
    };
    if kind == "rules" {
        return follow_rules(rt, matches);
    }
    match request_of(kind, matches) {
        Ok(request) => run_request(rt, &request, matches),
        Err(error) => refuse(rt, &error),
    }
}

// Cuts the files that are named by the rules that are, or shows their machine. Rules that can't be followed are a wrong command line.
fn follow_rules(rt: &HostRuntime, matches: &ArgMatches<'_>) -> Result<ExitCode> {
    let request = match rules_request_of(matches) {
        Ok(request) => request,
        Err(error) => return refuse(rt, &error),
    };
    match rules_at(rt, request.path) {
        Ok(rules) => run_rules(rt, request, rules, matches),
        Err(fault) => {
            let path = request.path;
            eprintln!(rt; "segment: {path}: {fault}")?;
            Ok(ExitCode::from(USAGE_STATUS))
        }
    }
}

// Shows the machine of rules, or cuts the files that are named by them.
fn run_rules(
    rt: &HostRuntime,
    request: RulesRequest<'_>,
    rules: OwnRules,
    matches: &ArgMatches<'_>,
) -> Result<ExitCode> {
    if request.shows_machine {
        return show_machine(rt, &rules);
    }
    Ok(cut_by(rt, request, rules, matches))
}

fn show_machine(rt: &HostRuntime, rules: &OwnRules) -> Result<ExitCode> {
    print!(rt; "{rules}")?;
    Ok(ExitCode::SUCCESS)
}

fn cut_by(
    rt: &HostRuntime,
    request: RulesRequest<'_>,
    rules: OwnRules,
    matches: &ArgMatches<'_>,
) -> ExitCode {
    run_files(rt, job_by(rules, request.tokens, request.written), matches)
}

// Says why a command line can't be followed.
fn refuse<E: std::fmt::Display>(rt: &HostRuntime, error: &E) -> Result<ExitCode> {
    eprintln!(rt; "error: {error}\n\nFor more information, try '--help'.")?;
    Ok(ExitCode::from(USAGE_STATUS))
}

// Reads the lists that a request takes, and does it to the files. A language whose list is in no folder is a wrong command line.
fn run_request(
    rt: &HostRuntime,
    request: &Request<'_>,
    matches: &ArgMatches<'_>,
) -> Result<ExitCode> {
    let location = location_of(rt, request, matches)?;
    if let Location::InNoFolder = &location {
        return refuse(
            rt,
            &"'--lang <LANGUAGE>' needs '--dictionaries <FOLDER>' or SEGMENT_DICTIONARIES",
        );
    }
    let abbreviations = abbreviations_at(rt, &location)?;
    let words = Vocabulary {
        dictionaries: dictionaries_of(rt, request.action, matches)?,
        abbreviations,
        patterns: patterns_of(rt, matches)?,
    };
    run_words(rt, request, words, matches)
}

// Does what a request asks for, with these words, to the files that are named.
fn run_words(
    rt: &HostRuntime,
    request: &Request<'_>,
    words: Vocabulary,
    matches: &ArgMatches<'_>,
) -> Result<ExitCode> {
    let job = job_of(rt.alloc(), request, words)?;
    Ok(run_files(rt, job, matches))
}

// Does a job to the files that are named; where there are more than one, objects and offsets say which.
fn run_files(rt: &HostRuntime, job: Job, matches: &ArgMatches<'_>) -> ExitCode {
    let names = matches.get_strs("file").unwrap_or(&[]);
    let mut job = job;
    job.names_files = names.len() > 1;
    run_all(rt, &job, names)
}
