//! The rules by numbers.

use crate::page::Page;
use seg_rules::rules::{Class, Count, Row, Rules};
use std::alloc::AllocError;

/// Writes the rules.
pub(crate) fn push_rules(page: &mut Page, rules: &Rules<'_>) -> Result<(), AllocError> {
    push_rows(page, "numbered_above", rules.above)?;
    push_rows(page, "numbered_below", rules.below)?;
    push_fields(page, rules)
}

fn push_fields(page: &mut Page, rules: &Rules<'_>) -> Result<(), AllocError> {
    let Rules {
        has_marks,
        marks,
        bare,
        alone,
        at_end,
        ..
    } = *rules;
    write!(
        page.text,
        "unfoldable pub numbered_rules : RowRules
numbered_rules = record {{
  above = numbered_above;
  below = numbered_below;
  has_marks = {has_marks};
  marks = {marks};
  bare = {bare};
  alone = {alone};
  at_end = {at_end};
}}

"
    )
}

fn push_rows(page: &mut Page, name: &str, rows: &[Row<'_>]) -> Result<(), AllocError> {
    page.define(name, "List Row")?;
    for row in rows {
        push_row(page, row)?;
    }
    page.push("    []\n\n")
}

fn push_row(page: &mut Page, row: &Row<'_>) -> Result<(), AllocError> {
    page.push("    record { left = ")?;
    push_pattern(page, row.left)?;
    page.push("; right = ")?;
    push_pattern(page, row.right)?;
    let verdict = row.verdict;
    write!(page.text, "; verdict = {verdict} }} ∷\n")
}

/// Writes a pattern.
pub(crate) fn push_pattern(page: &mut Page, pattern: &[(Class, Count)]) -> Result<(), AllocError> {
    for (class, count) in pattern {
        write!(page.text, "({class}, {count:?}) ∷ ")?;
    }
    page.push("[]")
}
