//! That the tables and the relation pass their tests.

use crate::rows::SYMBOLS;
use crate::tables::push_nested;
use std::alloc::{AllocError, Global};

/// What the tests unfold of the rules.
pub(crate) const RULE_TESTS: &str =
    "once once_number once_flags flow no_flags is_full is_live moved unread moves_on put_on put onto \
    begun owed_rows owed reading read_all read";

/// What they unfold of the check.
pub(crate) const CHECK_TESTS: &str =
    "get same_flags same_lives same_pattern same_entries same_due moves_hold befores_hold reads_hold \
    dues_hold append_dues all_below rows_below among ends entered goes_on each_goes configurations_hold configuration_holds \
    relation_holds starts_hold";

const RULES_ARE: &str = "pub rules-are : line_rules ≡ numbered_rules
unfolding bits_from pattern_of rows_of rows_above_marks rows_below_marks line_rules numbered_above numbered_below numbered_rules
rules-are = refl

";

/// Writes the claims with their proofs, over tables in so many parts.
pub(crate) fn push_claims(
    alloc: Global,
    text: &mut String,
    parts: usize,
) -> Result<(), AllocError> {
    let tests = tests(alloc, parts)?;
    push_claims_by(text, tests.as_str(), parts)
}

// Writes the claims, whose tests unfold these words.
fn push_claims_by(text: &mut String, tests: &str, parts: usize) -> Result<(), AllocError> {
    text.push_str(RULES_ARE)?;
    push_parts_hold(text, tests, parts)?;
    write!(
        text,
        "befores-hold : befores_hold numbered_rules tables {SYMBOLS} befores moves owes ≡ true
unfolding befores moves owes befores_hold
befores-hold = "
    )?;
    push_nested(text, parts, ("befores-hold", "-", " _ _ _ "), "refl")?;
    push_others(text, tests)
}

// What the tests unfold.
fn tests(alloc: Global, parts: usize) -> Result<String, AllocError> {
    let mut tests = String::new(alloc);
    push_tests(&mut tests, parts)?;
    Ok(tests)
}

fn push_tests(tests: &mut String, parts: usize) -> Result<(), AllocError> {
    tests.push_str("numbered_above numbered_below numbered_rules")?;
    push_names(tests, "befores", parts)?;
    push_names(tests, "moves", parts)?;
    push_names(tests, "owes", parts)?;
    write!(
        tests,
        " befores moves owes dues reads tables {RULE_TESTS} {CHECK_TESTS}"
    )
}

// Writes the names of the parts of a table.
fn push_names(text: &mut String, name: &str, parts: usize) -> Result<(), AllocError> {
    for number in 0..parts {
        write!(text, " {name}_{number}")?;
    }
    Ok(())
}

fn push_parts_hold(text: &mut String, tests: &str, parts: usize) -> Result<(), AllocError> {
    for part in 0..parts {
        push_part_holds(text, tests, part)?;
    }
    Ok(())
}

// Writes that a part of the tables of what may stand before places holds where the rest does.
fn push_part_holds(text: &mut String, tests: &str, part: usize) -> Result<(), AllocError> {
    write!(
        text,
        "befores-hold-{part} : (ss : List Before) (rows : List (List ℕ)) (os : List ℕ) → befores_hold numbered_rules tables {SYMBOLS} ss rows os ≡ true
    → befores_hold numbered_rules tables {SYMBOLS} (befores_{part} ss) (moves_{part} rows) (owes_{part} os) ≡ true
unfolding {tests}
befores-hold-{part} ss rows os h = h

"
    )
}

fn push_others(text: &mut String, tests: &str) -> Result<(), AllocError> {
    write!(
        text,
        "

start-holds : same_before (at_start numbered_rules) (get no_before befores 0) ≡ true
unfolding {tests}
start-holds = refl

dues-hold : dues_hold numbered_rules tables {SYMBOLS} (append_dues verdicts dues) reads ≡ true
unfolding {tests}
dues-hold = refl

moves-below : once_number (length befores) (λ many. nat_lt 0 many && rows_below many moves) ≡ true
unfolding {tests}
moves-below = refl

pub scans-hold : scans_hold numbered_rules tables plan relation ≡ true
unfolding {tests} accepts nexts plan relation
scans-hold = refl

pub tables-hold : tables_hold numbered_rules {SYMBOLS} tables ≡ true
unfolding tables
tables-hold = and_from _ _ start-holds (and_from _ _ befores-hold (and_from _ _ dues-hold moves-below))
"
    )
}
