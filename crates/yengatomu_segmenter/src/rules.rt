//! Segmenters by a caller's own rules, as text.

ghost use Rattle.std.specs.Prelude.{◌≡◌, ℕ, IfErr, IfOk, List};
ghost use Rattle.icu_segmenter.specs.Boundaries.{HasRestart};
ghost use Rattle.seg_notation.specs.Lines.{IsLineOf};
ghost use Rattle.seg_notation.specs.Texts.{rules_in};
ghost use Rattle.seg_rules.specs.Passed.{FindsPlaces};
ghost use Rattle.yengatomu_segmenter.specs.ByRules.{IsByRules, IsBySomeRules, IsComplaint, by_machine};
ghost use Rattle.yengatomu_segmenter.specs.Finders.{find_by, finder_of};

use crate::segmenter::Segmenter;
use icu_segmenter::provider::SegmenterStateMachine;
use icu_segmenter::{GraphemeClusterSegmenter, laws};
use seg_compile::compile::{CompileError, Witness};
use seg_notation::{Fault, TextError, TextRules};
use std::alloc::Global;
use std::str;

/// Why a text makes no segmenter.
#[derive(Clone, Copy, PartialEq, Eq)]
pub enum Complaint {
    /// Out of memory.
    Memory,
    /// The rules are wrong at this line, from 1 on; or the text isn't UTF-8, of which 0 stands.
    Wrong(usize),
    /// The rules have no machine, as the row at this line shows, from 1 on; 0 if none does.
    NoMachine(usize),
}

/// The segmenter by the rules in a text, in a box.
pub fn boxed(alloc: Global, text: &[u8]) -> Result<Box<Segmenter>, Complaint>
    ensures made { IfOk result (λ segmenter. IsBySomeRules (finder_of segmenter.value)) }
    ensures restart { IfOk result (λ segmenter. HasRestart (find_by (finder_of segmenter.value))) }
    ensures rejected { IfErr result (IsComplaint text.now) }
{
    let rules = read(alloc, text)?;
    boxed_by(alloc, &rules)
}

// The segmenter by rules, in a box.
fn boxed_by(alloc: Global, rules: &TextRules) -> Result<Box<Segmenter>, Complaint>
    ensures made { IfOk result (λ segmenter. IsByRules (rules_in rules.now) (finder_of segmenter.value)) }
    ensures restart { IfOk result (λ segmenter. HasRestart (find_by (finder_of segmenter.value))) }
    ensures rejected { IfErr result (λ why. (text : List ℕ) → IsComplaint text why) }
{
    let machine = machine_by(alloc, rules)?;
    match Box::new(alloc, segmenter_by(machine)) {
        Ok(boxed) => Ok(boxed),
        Err(_) => Err(Complaint::Memory),
    }
}

// The rules in a text.
fn read(alloc: Global, text: &[u8]) -> Result<TextRules, Complaint>
    ensures { IfErr result (IsComplaint text.now) }
{
    let Ok(text) = str::from_utf8(text) else {
        return Err(Complaint::Wrong(0));
    };
    match TextRules::try_from_text(alloc, text) {
        Ok(rules) => Ok(rules),
        Err(error) => Err(wrong(error)),
    }
}

fn wrong(error: TextError) -> Complaint
    ensures { (text : List ℕ) → IsLineOf text error.line → IsComplaint text result }
{
    match error.fault {
        Fault::Memory => Complaint::Memory,
        _ => Complaint::Wrong(error.line),
    }
}

// The machine of rules.
fn machine_by(alloc: Global, rules: &TextRules) -> Result<SegmenterStateMachine, Complaint>
    ensures made { IfOk result (FindsPlaces (rules_in rules.now)) }
    ensures rejected { IfErr result (λ why. (text : List ℕ) → IsComplaint text why) }
{
    match rules.compile(alloc) {
        Ok(machine) => Ok(machine),
        Err(error) => Err(without_machine(rules, &error)),
    }
}

fn without_machine(rules: &TextRules, error: &CompileError) -> Complaint
    ensures { (text : List ℕ) → IsComplaint text result }
{
    match error {
        CompileError::Memory => Complaint::Memory,
        _ => Complaint::NoMachine(line_of(rules, error).unwrap_or(0)),
    }
}

// The line of a row that shows why there is no machine.
fn line_of(rules: &TextRules, error: &CompileError) -> Option<usize> {
    rules.line_of_row(witness_of(error)?.row?)
}

fn witness_of(error: &CompileError) -> Option<&Witness> {
    match error {
        CompileError::TwoUndecided(witness) => Some(witness),
        CompileError::TwoLookaheads(witness) => Some(witness),
        CompileError::NeedsPast(witness) => Some(witness),
        _ => None,
    }
}

// The segmenter by a machine.
fn segmenter_by(machine: SegmenterStateMachine) -> Segmenter
    ensures made { finder_of result ≡ by_machine machine }
    ensures restart { HasRestart (find_by (finder_of result)) }
{
    let Ok(clusters) = GraphemeClusterSegmenter::try_new_neo(machine) else {
        unreachable!()
    };
    laws::grapheme::restart(clusters.as_borrowed());
    Segmenter::Clusters(clusters)
}
