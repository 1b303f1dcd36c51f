//! The certificate by which the proof checks the machine.

use crate::claims::{CHECK_TESTS, RULE_TESTS, push_claims};
use crate::page::{Page, push_name, push_words};
use crate::plan::{push_plan, push_relation};
use crate::rows::rules;
use crate::rules::push_rules;
use crate::tables::{PART, Table, push_dues, push_parts};
use seg_compile::compile::Certified;
use seg_rules::certificate::Before;
use std::alloc::{AllocError, Global};

const HEAD: &str =
    "-- The certificate of the machine of lines: written by line_generator. Do not edit.
use Rattle.std.specs.Prelude.{◌≡◌, ℕ, Bool, true, false, ◌&&◌, nat_lt, List, [], ◌∷◌, length}
use Rattle.std.proofs.Common.{refl}
use Rattle.std.proofs.lemmas.Bool.{and_from}
use Rattle.seg_rules.specs.declared.certificate.Configuration.{Configuration}
use Rattle.seg_rules.specs.declared.rules.Count.TheVariants.{One, Star, Pairs}
";

const REST_OF_HEAD: &str = "use Rattle.seg_rules.specs.Classes.{bits_from, pattern_of, rows_of}
use Rattle.icu_segmenter_uax14.specs.LineRules.{rows_above_marks, rows_below_marks, line_rules}

abbrev at : (before doubt older : ℕ) (newest : Bool) (last status named : ℕ) → Configuration
at before doubt older newest last status named =
    record { before = before; doubt = doubt; older = older; newest = newest; last = last; status = status; named = named }

-- which rests of a pattern may come next
";

/// The text of the certificate.
pub(crate) fn certificate(alloc: Global, lines: &Certified) -> Result<String, AllocError> {
    let mut page = Page::new(alloc);
    push_body(alloc, lines, &mut page)?;
    let mut text = String::new(alloc);
    push_all(alloc, &mut text, &mut page)?;
    Ok(text)
}

// Writes a page behind its imports and the flags that it names.
fn push_all(alloc: Global, text: &mut String, page: &mut Page) -> Result<(), AllocError> {
    text.push_str(HEAD)?;
    push_imports(alloc, text)?;
    text.push_str(REST_OF_HEAD)?;
    push_flags(text, &mut page.flags)?;
    text.push_str(page.text.as_str())
}

fn push_body(alloc: Global, lines: &Certified, page: &mut Page) -> Result<(), AllocError> {
    push_rules(page, rules())?;
    let parts = push_tables(page, lines.befores(alloc)?.as_slice())?;
    push_scans(alloc, lines, page)?;
    push_claims(alloc, &mut page.text, parts)
}

// Writes what is said of all that may stand before places, and returns in how many parts.
fn push_tables(page: &mut Page, befores: &[Before<'_>]) -> Result<usize, AllocError> {
    push_parts(page, Table::Befores, befores)?;
    push_parts(page, Table::Moves, befores)?;
    push_parts(page, Table::Owes, befores)?;
    Ok(befores.len().div_ceil(PART))
}

// Writes what may be owed to places, the machine, and what may be true within its scans.
fn push_scans(alloc: Global, lines: &Certified, page: &mut Page) -> Result<(), AllocError> {
    push_dues(page, lines.dues(alloc)?.as_slice())?;
    push_plan(alloc, page, lines.machine())?;
    push_relation(page, lines.relation(alloc)?.as_slice())
}

// Writes the imports of what the tests unfold.
fn push_imports(alloc: Global, text: &mut String) -> Result<(), AllocError> {
    let rules = RULE_TESTS.replace(alloc, ' ', ", ")?;
    let check = CHECK_TESTS.replace(alloc, ' ', ", ")?;
    write!(
        text,
        "use Rattle.seg_rules.specs.RowRules.{{Row, RowRules, Before, Marks, Owed, Due, DueOf, at_start, {rules}}}
use Rattle.seg_rules.specs.Check.{{Plan, Tables, no_before, same_before, verdicts, tables_hold, scans_hold, {check}}}
"
    )
}

// Writes what the names of flags say.
fn push_flags(text: &mut String, flags: &mut Vec<u32>) -> Result<(), AllocError> {
    flags.sort_unstable();
    for flags in flags.as_slice() {
        push_list(text, *flags)?;
    }
    Ok(())
}

fn push_list(text: &mut String, flags: u32) -> Result<(), AllocError> {
    text.push_str("abbrev ")?;
    push_name(text, flags)?;
    text.push_str(" : List Bool\n")?;
    push_name(text, flags)?;
    push_value(text, flags)
}

fn push_value(text: &mut String, flags: u32) -> Result<(), AllocError> {
    text.push_str(" = ")?;
    push_words(text, flags, "false ∷ ", "true ∷ ")?;
    text.push_str("[]\n\n")
}
