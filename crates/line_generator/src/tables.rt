//! What may stand before places, and what may be owed to them.

use crate::page::Page;
use crate::rows::{SYMBOLS, rules};
use crate::rules::push_pattern;
use seg_rules::certificate::{Before, Due, Entry};
use seg_rules::rules::Row;
use std::alloc::AllocError;

/// How many of what stands before a place one proof is about.
pub(crate) const PART: usize = 30;

// The first numbers of what is owed are verdicts.
const VERDICTS: u8 = 3;

/// What is said of all that may stand before a place.
#[derive(Clone, Copy)]
pub(crate) enum Table {
    /// What it is.
    Befores,
    /// Where symbols lead.
    Moves,
    /// What is owed to the place.
    Owes,
}

impl Table {
    // The name of the table, and what its items are.
    fn words(self) -> (&'static str, &'static str) {
        match self {
            Table::Befores => ("befores", "Before"),
            Table::Moves => ("moves", "List ℕ"),
            Table::Owes => ("owes", "ℕ"),
        }
    }
}

/// Writes a table in parts, each before the rest, so that no proof computes too much.
pub(crate) fn push_parts(
    page: &mut Page,
    table: Table,
    befores: &[Before<'_>],
) -> Result<(), AllocError> {
    let mut parts = 0_usize;
    for part in befores.chunks(PART) {
        push_part(page, table, parts, part)?;
        parts = parts.saturating_add(1);
    }
    push_whole(page, table, parts)
}

// Writes the table of so many parts.
fn push_whole(page: &mut Page, table: Table, parts: usize) -> Result<(), AllocError> {
    let (name, kind) = table.words();
    write!(
        page.text,
        "unfoldable pub {name} : List ({kind})\n{name} = "
    )?;
    push_nested(&mut page.text, parts, (name, "_", " "), "[]")?;
    page.push("\n\n")
}

// Writes the part of this number.
fn push_part(
    page: &mut Page,
    table: Table,
    number: usize,
    part: &[Before<'_>],
) -> Result<(), AllocError> {
    let (name, kind) = table.words();
    write!(
        page.text,
        "unfoldable pub {name}_{number} : List ({kind}) → List ({kind})\n{name}_{number} rest =\n"
    )?;
    for before in part {
        push_item(page, table, before)?;
    }
    page.push("    rest\n\n")
}

fn push_item(page: &mut Page, table: Table, before: &Before<'_>) -> Result<(), AllocError> {
    page.push("    ")?;
    let owes = before.owes;
    match table {
        Table::Befores => push_before(page, before)?,
        Table::Moves => push_moves(page, before.moves)?,
        Table::Owes => write!(page.text, "{owes}")?,
    }
    page.push(" ∷\n")
}

/// Writes numbered functions applied to one another, and the last one to a word: of each its name, a sign, its number, and what follows.
pub(crate) fn push_nested(
    text: &mut String,
    parts: usize,
    words: (&str, &str, &str),
    last: &str,
) -> Result<(), AllocError> {
    push_opened(text, parts, words)?;
    text.push_str(last)?;
    for _ in 1..parts {
        text.push(')')?;
    }
    Ok(())
}

// Writes the functions, with a parenthesis before each but the first.
fn push_opened(
    text: &mut String,
    parts: usize,
    words: (&str, &str, &str),
) -> Result<(), AllocError> {
    for number in 0..parts {
        text.push_str(if number > 0 { "(" } else { "" })?;
        push_numbered(text, words, number)?;
    }
    Ok(())
}

fn push_numbered(
    text: &mut String,
    words: (&str, &str, &str),
    number: usize,
) -> Result<(), AllocError> {
    let (name, sign, after) = words;
    write!(text, "{name}{sign}{number}{after}")
}

fn push_moves(page: &mut Page, moves: &[u16]) -> Result<(), AllocError> {
    page.push("(")?;
    for to in moves {
        write!(page.text, "{to} ∷ ")?;
    }
    page.push("[])")
}

fn push_before(page: &mut Page, before: &Before<'_>) -> Result<(), AllocError> {
    page.push("record { above = ")?;
    push_lives(page, rules().above, before.above)?;
    page.push("; below = ")?;
    push_lives(page, rules().below, before.below)?;
    let glues = before.glues;
    write!(page.text, "; glues = {glues} }}")
}

// Writes which rests of the left patterns of rows may come next.
fn push_lives(page: &mut Page, rows: &[Row<'_>], lives: &[u32]) -> Result<(), AllocError> {
    for (row, live) in rows.iter().zip(lives) {
        page.push_flags(row.left, *live)?;
        page.push(" ∷ ")?;
    }
    page.push("[]")
}

/// Writes what may be owed to places, and what is owed then after each symbol.
pub(crate) fn push_dues(page: &mut Page, dues: &[Due<'_>]) -> Result<(), AllocError> {
    page.define("dues", "List Due")?;
    for due in dues {
        push_due(page, due)?;
    }
    page.push("    []\n\n")?;
    push_reads(page, dues)
}

fn push_due(page: &mut Page, due: &Due<'_>) -> Result<(), AllocError> {
    page.push("    DueOf (")?;
    push_entries(page, due.entries)?;
    let otherwise = due.otherwise;
    write!(page.text, "[]) {otherwise} ∷\n")
}

fn push_entries(page: &mut Page, entries: &[Entry]) -> Result<(), AllocError> {
    for entry in entries {
        push_entry(page, *entry)?;
        page.push(" ∷ ")?;
    }
    Ok(())
}

fn push_entry(page: &mut Page, entry: Entry) -> Result<(), AllocError> {
    match entry {
        Entry::Marks => page.push("Marks"),
        Entry::Above(number, live) => push_owed(page, false, number, live),
        Entry::Below(number, live) => push_owed(page, true, number, live),
    }
}

// Writes the right pattern of a row above that of marks, or below, as far as it is read.
fn push_owed(page: &mut Page, is_below: bool, number: u8, live: u32) -> Result<(), AllocError> {
    let rows = if is_below {
        rules().below
    } else {
        rules().above
    };
    match rows.get(usize::from(number)) {
        Some(row) => push_owed_row(page, is_below, row, live),
        None => Ok(()),
    }
}

fn push_owed_row(
    page: &mut Page,
    is_below: bool,
    row: &Row<'_>,
    live: u32,
) -> Result<(), AllocError> {
    page.push("Owed (")?;
    push_pattern(page, row.right)?;
    page.push(") ")?;
    page.push_flags(row.right, live)?;
    let verdict = row.verdict;
    write!(page.text, " {verdict} {is_below}")
}

// Writes what is owed after each symbol, of the verdicts and of what may be owed.
fn push_reads(page: &mut Page, dues: &[Due<'_>]) -> Result<(), AllocError> {
    page.define("reads", "List (List (ℕ × ℕ))")?;
    push_verdicts(page)?;
    for due in dues {
        push_row(page, due.reads)?;
    }
    page.push(TABLES)
}

const TABLES: &str = "    []

unfoldable pub tables : Tables
tables = record { befores = befores; moves = moves; owes = owes; dues = dues; reads = reads }

";

fn push_verdicts(page: &mut Page) -> Result<(), AllocError> {
    for verdict in 0..VERDICTS {
        push_row(page, &[(verdict, verdict); SYMBOLS + 1])?;
    }
    Ok(())
}

fn push_row(page: &mut Page, reads: &[(u8, u8)]) -> Result<(), AllocError> {
    page.push("    (")?;
    for (plain, glued) in reads {
        write!(page.text, "({plain}, {glued}) ∷ ")?;
    }
    page.push("[]) ∷\n")
}
