//! Compiles rules, as text and as rows: the places that the machines of some find in texts, those of UAX #29 and UAX #14 beside the
//! machines that stand in the code, and why others are refused. The text of UAX #14 is read from the files of data/.
#![tactic(auto)]

mod good;
mod large;
mod lines;
mod refusals;
mod refused;
mod texts;
mod wrong;

use anyhow::{Result, bail};
use icu_segmenter_uax14::line_machine;
use icu_segmenter_uax29::{cluster_machine, sentence_machine, word_machine};
use refusals::print_refusals;
use seg_compile::compile::{CompileError, Witness};
use seg_machine::provider::SegmenterStateMachine;
use seg_notation::TextRules;
use texts::{Boundaries, boundaries, have_same, keeps_symbols, text_of};

fn main(rt: HostRuntime) -> Result<()> {
    print_places(&rt, good::NAMES, &good::NAME_TEXTS)?;
    print_places(&rt, good::ADDRESSES, &good::ADDRESS_TEXTS)?;
    print_places(&rt, good::RECORDS, &good::RECORD_TEXTS)?;
    print_standards(&rt)?;
    print_tailored(&rt)?;
    print_witness(&rt, wrong::TWO_LOOKAHEADS)?;
    print_witness(&rt, wrong::TWO_UNDECIDED)?;
    print_wrong(&rt)?;
    print_large(&rt)?;
    print_refusals(&rt)
}

// Prints whether the rules of the standards have the boundaries of the machines in the code.
fn print_standards(rt: &HostRuntime) -> Result<()> {
    let alloc = rt.alloc();
    print_same(rt, "clusters", good::CLUSTERS, &cluster_machine(alloc)?)?;
    print_same(rt, "words", good::WORDS, &word_machine(alloc)?)?;
    print_same(rt, "sentences", good::SENTENCES, &sentence_machine(alloc)?)?;
    let lines = lines::text(rt)?;
    print_same(rt, "lines", lines.as_str(), &line_machine(alloc)?)
}

// Prints where lines may break by the standard, and by rows that are added to it.
fn print_tailored(rt: &HostRuntime) -> Result<()> {
    print_places(rt, lines::text(rt)?.as_str(), &good::LINE_TEXTS)?;
    for path in ["keep_all.rules", "break_all.rules"] {
        println!(rt; "{path}")?;
        print_places(rt, lines::tailored(rt, path)?.as_str(), &good::LINE_TEXTS)?;
    }
    Ok(())
}

// Prints where texts are parted by rules.
fn print_places(rt: &HostRuntime, rules: &str, texts: &[&str]) -> Result<()> {
    let rules = TextRules::try_from_text(rt.alloc(), rules)?;
    let machine = rules.compile(rt.alloc())?;
    print_texts(rt, &machine, texts)
}

fn print_texts(rt: &HostRuntime, machine: &SegmenterStateMachine, texts: &[&str]) -> Result<()> {
    for text in texts {
        println!(rt; "{text:?}")?;
        print_boundaries(rt, &mut boundaries(machine, text))?;
    }
    Ok(())
}

// Prints the boundaries of a text, those of status 1 with an exclamation mark.
fn print_boundaries(rt: &HostRuntime, places: &mut Boundaries<'_, '_>) -> Result<()> {
    for _ in 0..u64::MAX {
        let Some(place) = places.next() else {
            break;
        };
        let sign = if places.status() == 1 { "!" } else { "" };
        print!(rt; " {place}{sign}")?;
    }
    println!(rt; "")?;
    Ok(())
}

// Prints whether rules of a standard have the boundaries of a machine.
fn print_same(
    rt: &HostRuntime,
    name: &str,
    rules: &str,
    machine: &SegmenterStateMachine,
) -> Result<()> {
    let rules = TextRules::try_from_text(rt.alloc(), rules)?;
    let compiled = rules.compile(rt.alloc())?;
    let is_same = are_same(rt, &compiled, machine)?;
    let found = if is_same { "the same" } else { "other" };
    let symbols = rules.symbols();
    let states = compiled.states().len();
    println!(rt; "{name}: {symbols} symbols, {states} states, {found} boundaries")?;
    Ok(())
}

fn are_same(
    rt: &HostRuntime,
    compiled: &SegmenterStateMachine,
    machine: &SegmenterStateMachine,
) -> Result<bool> {
    let text = text_of(rt.alloc(), machine)?;
    Ok(keeps_symbols(machine, compiled) && have_same(compiled, machine, text.as_str()))
}

// Prints why rules have no machine, by their line and the names of symbols.
fn print_witness(rt: &HostRuntime, rules: &str) -> Result<()> {
    let rules = TextRules::try_from_text(rt.alloc(), rules)?;
    match rules.compile(rt.alloc()) {
        Err(CompileError::TwoLookaheads(witness)) => {
            print_symbols(rt, "lookaheads", &rules, &witness)
        }
        Err(CompileError::TwoUndecided(witness)) => {
            print_symbols(rt, "undecided", &rules, &witness)
        }
        _ => bail!("rules that can be followed"),
    }
}

fn print_symbols(rt: &HostRuntime, what: &str, rules: &TextRules, witness: &Witness) -> Result<()> {
    let line = match witness.row {
        Some(row) => rules.line_of_row(row),
        None => None,
    };
    print!(rt; "two {what} at line {line:?}, in")?;
    for symbol in witness.symbols.as_slice() {
        let name = rules.name_of(*symbol).unwrap_or("?");
        print!(rt; " {name}")?;
    }
    println!(rt; "")?;
    Ok(())
}

// Prints what is wrong with texts.
fn print_wrong(rt: &HostRuntime) -> Result<()> {
    for (name, text) in wrong::TEXTS.as_slice() {
        print_error(rt, name, text)?;
    }
    Ok(())
}

fn print_error(rt: &HostRuntime, name: &str, text: &str) -> Result<()> {
    match TextRules::try_from_text(rt.alloc(), text) {
        Ok(_) => bail!("{name}: rules"),
        Err(error) => println!(rt; "{name}: {error}")?,
    }
    Ok(())
}

// Prints what is wrong with texts that are too large.
fn print_large(rt: &HostRuntime) -> Result<()> {
    let sets = large::sets(rt.alloc(), 300)?;
    print_error(rt, "300 sets", sets.as_str())?;
    let rules = large::rules(rt.alloc(), 256)?;
    print_error(rt, "256 rules", rules.as_str())?;
    let long = large::line(rt.alloc(), 100_000)?;
    print_error(rt, "a long line", long.as_str())
}
