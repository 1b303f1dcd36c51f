//! Rules of the caller's own, from a file.
ghost use Rattle.std.specs.Prelude.{IfOk};
ghost use Rattle.clap.specs.Matches.{found_of};
ghost use Rattle.seg_notation.specs.Texts.{rules_in};
ghost use Rattle.seg_rules.specs.Passed.{FindsPlaces};
ghost use Rattle.segment.specs.Rules.{IsJobByRules, IsRulesRequest};

use crate::command::{Written, written_of};
use crate::job::{Action, Job};
use crate::words::{text_of, without_mark};
use anyhow::{Result, bail};
use clap::ArgMatches;
use icu_segmenter::provider::{SegmenterStateMachine, Symbol};
use seg_compile::compile::{CompileError, Witness};
use seg_notation::{TextError, TextRules};
use segment_output::segmenter::TextSegmenter;
use segment_text::preparation::Preparation;
use std::alloc::{AllocError, Global};
use std::rt::Files;
use std::{fmt, fs};

/// What a command line with rules asks for.
#[derive(Clone, Copy)]
pub struct RulesRequest<'m> {
    /// The file that has the rules.
    pub path: &'m str,
    /// What is written of a text.
    pub written: Written,
    /// Whether those segments are left out which end at a boundary of status 1.
    pub tokens: bool,
    /// Whether the machine is shown, and no text is cut.
    pub shows_machine: bool,
}

/// Rules, with a machine that finds the places where they break.
#[derive(Drop)]
pub struct OwnRules {
    rules: TextRules,
    machine: SegmenterStateMachine,
    ghost finds: { FindsPlaces (rules_in rules) machine },
}

impl OwnRules {
    /// The rules.
    pub fn rules(&self) -> &TextRules {
        &self.rules
    }

    /// Their machine.
    pub fn machine(&self) -> &SegmenterStateMachine {
        &self.machine
    }
}

/// What the arguments of rules ask for. The errors are that no file of rules is named, and parts of no bytes.
pub fn rules_request_of<'m>(matches: &'m ArgMatches<'_>) -> Result<RulesRequest<'m>>
    ensures { IfOk result (IsRulesRequest (found_of matches.now)) }
{
    match matches.get_str("rules") {
        Some(path) => Ok(RulesRequest {
            path,
            written: written_of(matches)?,
            tokens: matches.get_flag("tokens"),
            shows_machine: matches.get_flag("show-machine"),
        }),
        None => bail!("no file of rules is named"),
    }
}

/// Why no text is cut by rules.
#[derive(Drop)]
pub enum RulesFault {
    /// Their file can't be read or isn't UTF-8, or out of memory.
    Unread(anyhow::Error),
    /// What is wrong with them.
    Wrong(String),
}

impl fmt::Display for RulesFault {
    fn fmt<W: fmt::Write>(&self, f: &mut fmt::Formatter<W>) -> fmt::Result {
        match self {
            RulesFault::Unread(error) => write!(f, "{error:#}"),
            RulesFault::Wrong(text) => f.write_str(text.as_str()),
        }
    }
}

/// The rules in a file. The faults are one that can't be read or isn't UTF-8, rules that are wrong, with the line, the column and the word
/// that is there, rules without a machine, with what shows it, and being out of memory.
pub fn rules_at<R: AllocGlobal + Files>(rt: &R, path: &str) -> Result<OwnRules, RulesFault> {
    match read_rules(rt, path) {
        Ok(Ok(rules)) => Ok(rules),
        Ok(Err(wrong)) => Err(RulesFault::Wrong(wrong)),
        Err(error) => Err(RulesFault::Unread(error)),
    }
}

// The rules in a file, or what is wrong with them, apart from the errors of reading them.
fn read_rules<R: AllocGlobal + Files>(rt: &R, path: &str) -> Result<Result<OwnRules, String>> {
    let bytes = fs::read(rt, path)?;
    let text = without_mark(text_of(bytes.as_slice())?);
    match TextRules::try_from_text(rt.alloc(), text) {
        Ok(rules) => with_machine(rt.alloc(), rules),
        Err(error) => Ok(Err(with_word(rt.alloc(), text, &error)?)),
    }
}

// What is wrong with a text of rules, and the word that is there, if any. Fails only when out of memory.
fn with_word(alloc: Global, text: &str, error: &TextError) -> Result<String, AllocError> {
    let word = shown_word(alloc, error.word_in(text))?;
    if word.is_empty() {
        return format!(in alloc; "{error}");
    }
    let line = error.line;
    let column = error.column;
    let fault = error.fault;
    format!(in alloc; "line {line}, column {column}: '{word}': {fault}")
}

// Of a longer word as many characters are shown, and two dots.
const MAX_SHOWN: usize = 40;

// A word, with control characters and separators as escapes. Fails only when out of memory.
fn shown_word(alloc: Global, word: &str) -> Result<String, AllocError> {
    let mut shown = String::new(alloc);
    for (index, character) in word.chars().enumerate() {
        if index >= MAX_SHOWN {
            shown.push_str("..")?;
            break;
        }
        push_shown(&mut shown, character)?;
    }
    Ok(shown)
}

fn push_shown(shown: &mut String, character: char) -> Result<(), AllocError> {
    if !character.is_control() && !matches!(character, '\u{2028}' | '\u{2029}') {
        return shown.push(character);
    }
    for part in character.escape_unicode() {
        shown.push(part)?;
    }
    Ok(())
}

// Rules with their machine, or why they have none, with the line of a rule and a text that show it. Fails only when out of memory.
fn with_machine(alloc: Global, rules: TextRules) -> Result<Result<OwnRules, String>> {
    match rules.compile(alloc) {
        Ok(machine) => Ok(Ok(OwnRules { rules, machine })),
        Err(error) => Ok(Err(complaint(alloc, &rules, &error)?)),
    }
}

/// The job of rules: texts are cut where they break, and tokens alone are shown or all segments.
pub fn job_by(rules: OwnRules, tokens: bool, written: Written) -> Job
    ensures { IsJobByRules (rules_in rules.rules) tokens written result }
{
    let OwnRules { rules: _, machine } = rules;
    Job {
        preparation: Preparation {
            tabs: None,
            joins: false,
        },
        action: Action::of(TextSegmenter::Ruled(machine, tokens), written),
        names_files: false,
    }
}

// Why rules have no machine. Fails only when out of memory.
fn complaint(alloc: Global, rules: &TextRules, error: &CompileError) -> Result<String, AllocError> {
    let Some(witness) = witness_of(error) else {
        return format!(in alloc; "{error}");
    };
    let names = names_of(alloc, rules, witness.symbols.as_slice())?;
    match line_of(rules, witness) {
        Some(line) => format!(in alloc; "line {line}: {error}, as{names} shows"),
        None => format!(in alloc; "{error}, as{names} shows"),
    }
}

fn witness_of(error: &CompileError) -> Option<&Witness> {
    match error {
        CompileError::TwoUndecided(witness) => Some(witness),
        CompileError::TwoLookaheads(witness) => Some(witness),
        CompileError::NeedsPast(witness) => Some(witness),
        _ => None,
    }
}

fn line_of(rules: &TextRules, witness: &Witness) -> Option<usize> {
    rules.line_of_row(witness.row?)
}

// The names of symbols, a space before each. Fails only when out of memory.
fn names_of(alloc: Global, rules: &TextRules, symbols: &[Symbol]) -> Result<String, AllocError> {
    let mut names = String::new(alloc);
    for symbol in symbols {
        names.push(' ')?;
        names.push_str(name_of(rules, *symbol))?;
    }
    Ok(names)
}

/// The name of a symbol, which may be the end of the text.
pub fn name_of(rules: &TextRules, symbol: Symbol) -> &str {
    rules.name_of(symbol).unwrap_or("eot")
}
