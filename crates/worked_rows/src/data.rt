//! Machines and pair tables: the sample data, and other parts in the place of theirs.
ghost use Rattle.std.specs.Prelude.{◌≡◌, IfOk};
ghost use Rattle.seg_data.specs.Faults.{HasRangeFault, IsFaultless};

use crate::numbers::{cell_of, map_of, number_of, numbers_of, ranges_of, replaced_of, states_of};
use crate::row::Row;
use anyhow::{Context, Result, bail};
use bench::clusters::cluster_machine;
use bench::line_tables::line_table;
use bench::lines::{breakall, line_machine};
use bench::pair_tables::{cluster_table, sentence_table, word_table};
use bench::sentences::sentence_machine;
use bench::turn_tables::turn_table;
use bench::words::word_machine;
use icu_segmenter::provider::{
    Acceptance, BreakState, ClassTable, ComplexScript, Lookahead, RuleBreakData,
    RuleBreakDataOverride, SegmenterStateMachine, SegmenterStateMachineOverride, State, Symbol,
};
use std::alloc::{AllocError, Global};

/// The table of these words: the class of other code points, and ranges.
pub fn classes_of(alloc: Global, words: &str) -> Result<ClassTable>
    ensures { IfOk result (λ table. IsFaultless (HasRangeFault table.ranges)) }
{
    let (default, ranges) = words.split_once(' ').unwrap_or((words, ""));
    let default = number_of(default)?;
    Ok(ClassTable::try_from_ranges(ranges_of(alloc, ranges)?, default)?)
}

/// A copy of a table.
pub fn copy_of(alloc: Global, table: &ClassTable) -> Result<ClassTable>
    ensures { IfOk result (λ copy. copy ≡ table.now) }
{
    let ranges = Vec::from_slice(alloc, table.ranges())?;
    Ok(ClassTable::try_from_ranges(ranges, table.default())?)
}

// The first pseudo symbol, where a row has no other.
const SHIFT: &str = "5";

/// The machine of a row.
pub fn machine_of(alloc: Global, row: Row<'_>) -> Result<SegmenterStateMachine> {
    let sample = sample_machine(alloc, row)?;
    machine_like(alloc, row, sample.as_ref())
}

// The machine of a row, with the parts of a sample where the row has none of its own.
fn machine_like(
    alloc: Global,
    row: Row<'_>,
    sample: Option<&SegmenterStateMachine>,
) -> Result<SegmenterStateMachine> {
    let tables = both(map_in(alloc, row, sample), symbols_in(alloc, row, sample));
    let rest = both(machine_numbers(row), tables);
    let ((states, moves), ((lookaheads, shift), (map, symbols))) = both(
        steps_in(alloc, row, sample),
        rest,
    )?;
    Ok(SegmenterStateMachine::try_from_parts(symbols, states, moves, lookaheads, shift, map)?)
}

/// Two answers, or why the first that lacks is not there.
pub fn both<A: Drop, B: Drop, E: Drop>(
    first: Result<A, E>,
    second: Result<B, E>,
) -> Result<(A, B), E> {
    Ok((first?, second?))
}

// What the states of a machine accept, and where symbols lead from them.
type Steps = (Vec<(Acceptance, Option<Lookahead>)>, Vec<State>);

fn steps_in(alloc: Global, row: Row<'_>, sample: Option<&SegmenterStateMachine>) -> Result<Steps> {
    let states = states_in(alloc, row, sample)?;
    let moves = moves_in(alloc, row, sample, states.len())?;
    Ok((states, moves))
}

// How many lookaheads a machine has, and its first pseudo symbol.
fn machine_numbers(row: Row<'_>) -> Result<(usize, Symbol)> {
    let lookaheads = number_of(row.part_since("lookaheads", "machine").unwrap_or("0"))?;
    let shift = number_of(row.part("shift").unwrap_or(SHIFT))?;
    Ok((usize::from(lookaheads), shift))
}

// The sample machine of a row, if it names one.
fn sample_machine(alloc: Global, row: Row<'_>) -> Result<Option<SegmenterStateMachine>> {
    let machine = match row.part("machine") {
        None => return Ok(None),
        Some("bench clusters") => cluster_machine(alloc),
        Some("bench sentences") => sentence_machine(alloc),
        Some("bench words") => word_machine(alloc),
        Some("bench lines") => line_machine(alloc),
        _ => bail!("no machine"),
    };
    Ok(Some(machine?))
}

// A sample, which must be there.
fn named<T>(sample: Option<&T>) -> Result<&T> {
    Ok(sample.context("a sample, or a part of the row")?)
}

fn symbols_in(
    alloc: Global,
    row: Row<'_>,
    sample: Option<&SegmenterStateMachine>,
) -> Result<ClassTable> {
    match row.part_since("symbols", "machine") {
        Some(words) => classes_of(alloc, words),
        None => copy_of(alloc, named(sample)?.symbols()),
    }
}

fn states_in(
    alloc: Global,
    row: Row<'_>,
    sample: Option<&SegmenterStateMachine>,
) -> Result<Vec<(Acceptance, Option<Lookahead>)>> {
    match row.part_since("states", "machine") {
        Some(words) => states_of(alloc, words),
        None => Ok(Vec::from_slice(alloc, named(sample)?.states())?),
    }
}

fn map_in(
    alloc: Global,
    row: Row<'_>,
    sample: Option<&SegmenterStateMachine>,
) -> Result<Vec<(Symbol, ComplexScript)>> {
    match (row.part_since("map", "machine"), sample) {
        (Some(words), _) => map_of(alloc, words),
        (None, None) => Ok(Vec::new(alloc)),
        (None, Some(machine)) => Ok(Vec::from_slice(alloc, machine.pseudo_symbol_map())?),
    }
}

fn moves_in(
    alloc: Global,
    row: Row<'_>,
    sample: Option<&SegmenterStateMachine>,
    states: usize,
) -> Result<Vec<State>> {
    match row.part_since("moves", "machine") {
        Some(words) => moves_of(alloc, states, words),
        None => Ok(Vec::from_slice(alloc, named(sample)?.transitions())?),
    }
}

/// The state that each symbol leads to from each state; or how many symbols there are, and moves from a state, on a symbol, to a state, as
/// `0+1=2`, beside which there are no others.
pub fn moves_of(alloc: Global, states: usize, words: &str) -> Result<Vec<State>> {
    match words.split_once('+') {
        Some(_) => some_moves(alloc, states, words),
        None => numbers_of(alloc, words),
    }
}

fn some_moves(alloc: Global, states: usize, words: &str) -> Result<Vec<State>> {
    let (symbols, moves) = words.split_once(' ').context("no moves")?;
    let count = states.saturating_mul(usize::from(number_of(symbols)?));
    let mut transitions = vec![in alloc; 255; count]?;
    put_moves(&mut transitions, states, moves)?;
    Ok(transitions)
}

fn put_moves(transitions: &mut [State], states: usize, moves: &str) -> Result<()> {
    for word in moves.split_whitespace() {
        let (state, symbol, next) = cell_of(word)?;
        let place = place_in(states, symbol, state);
        *transitions.get_mut(place).context("no such transition")? = next;
    }
    Ok(())
}

// Where a column of a row stands in a table that has so many columns.
fn place_in(columns: usize, row: u8, column: u8) -> usize {
    usize::from(row)
        .saturating_mul(columns)
        .saturating_add(usize::from(column))
}

/// The tailoring of a row, if it has one: the symbol and the script of each pseudo symbol, as `1=Thai`, and among them what replaces
/// symbols, as `4>1=None`; or that of the sample lines.
pub fn tailoring_of(alloc: Global, row: Row<'_>) -> Result<Option<SegmenterStateMachineOverride>> {
    match row.part("tailoring") {
        None => Ok(None),
        Some("bench") => Ok(Some(breakall(alloc)?)),
        Some(words) => {
            let map = map_of(alloc, words)?;
            let replaced = replaced_of(alloc, words)?;
            Ok(Some(SegmenterStateMachineOverride::try_from_parts(map, replaced)?))
        }
    }
}

/// The override of a row, if it has one.
pub fn override_of(alloc: Global, row: Row<'_>) -> Result<Option<RuleBreakDataOverride>> {
    match row.part("override") {
        None | Some("none") => Ok(None),
        Some(words) => Ok(Some(RuleBreakDataOverride::try_from_parts(classes_of(alloc, words)?)?)),
    }
}

/// The pair table of a row.
pub fn table_of(alloc: Global, row: Row<'_>) -> Result<RuleBreakData> {
    let sample = sample_table(alloc, row)?;
    table_like(alloc, row, sample.as_ref())
}

// The pair table of a row, with the parts of a sample where the row has none of its own.
fn table_like(
    alloc: Global,
    row: Row<'_>,
    sample: Option<&RuleBreakData>,
) -> Result<RuleBreakData> {
    let (count, [last, start, end, complex]) = table_numbers(alloc, row, sample)?;
    let rest = both(
        statuses_in(alloc, row, sample),
        classes_in(alloc, row, sample),
    );
    let (entries, (statuses, classes)) = both(entries_in(alloc, row, sample, count), rest)?;
    Ok(RuleBreakData::try_from_parts(classes, entries, statuses, count, last, start, end, complex)?)
}

// The sample pair table of a row, if it names one.
fn sample_table(alloc: Global, row: Row<'_>) -> Result<Option<RuleBreakData>> {
    let table = match row.part("table") {
        None => return Ok(None),
        Some("bench clusters") => cluster_table(alloc),
        Some("bench sentences") => sentence_table(alloc),
        Some("bench words") => word_table(alloc),
        Some("bench lines") => line_table(alloc),
        Some("bench turns") => turn_table(alloc),
        _ => bail!("no table"),
    };
    Ok(Some(table?))
}

fn classes_in(alloc: Global, row: Row<'_>, sample: Option<&RuleBreakData>) -> Result<ClassTable> {
    match row.part_since("classes", "table") {
        Some(words) => classes_of(alloc, words),
        None => copy_of(alloc, named(sample)?.property_table()),
    }
}

fn statuses_in(alloc: Global, row: Row<'_>, sample: Option<&RuleBreakData>) -> Result<Vec<u8>> {
    match row.part_since("statuses", "table") {
        Some(words) => numbers_of(alloc, words),
        None => Ok(Vec::from_slice(alloc, named(sample)?.rule_status_table())?),
    }
}

// How many classes there are, and those that have a meaning of their own: the last of code points, of the start, of the end, complex.
fn table_numbers(
    alloc: Global,
    row: Row<'_>,
    sample: Option<&RuleBreakData>,
) -> Result<(u8, [u8; 4])> {
    let (count, [last, start, end, complex]) = match row.part_since("numbers", "table") {
        Some(words) => numbers_in(alloc, words)?,
        None => numbers_of_table(named(sample)?),
    };
    let complex = match row.part_since("complex", "table") {
        Some(words) => number_of(words)?,
        None => complex,
    };
    Ok((count, [last, start, end, complex]))
}

fn numbers_in(alloc: Global, words: &str) -> Result<(u8, [u8; 4])> {
    match numbers_of(alloc, words)?.as_slice() {
        &[count, last, start, end, complex] => Ok((count, [last, start, end, complex])),
        _ => bail!("a table has five numbers"),
    }
}

fn numbers_of_table(table: &RuleBreakData) -> (u8, [u8; 4]) {
    let (last, start) = (table.last_codepoint_property(), table.sot_property());
    let (end, complex) = (table.eot_property(), table.complex_property());
    (table.property_count(), [last, start, end, complex])
}

// The entries: those of the sample or others, and what is set in their places, each two classes.
fn entries_in(
    alloc: Global,
    row: Row<'_>,
    sample: Option<&RuleBreakData>,
    count: u8,
) -> Result<Vec<BreakState>> {
    let mut entries = all_entries(alloc, row, sample, count)?;
    let words = row.part_since("set", "table").unwrap_or("");
    set_entries(&mut entries, count, words)?;
    Ok(entries)
}

fn set_entries(entries: &mut [BreakState], count: u8, words: &str) -> Result<()> {
    for word in words.split_whitespace() {
        let (left, right, byte) = cell_of(word)?;
        let place = place_in(usize::from(count), left, right);
        *entries.get_mut(place).context("no such entry")? = BreakState::from_unaligned(byte);
    }
    Ok(())
}

fn all_entries(
    alloc: Global,
    row: Row<'_>,
    sample: Option<&RuleBreakData>,
    count: u8,
) -> Result<Vec<BreakState>> {
    match row.part_since("entries", "table") {
        Some(words) => entries_of(alloc, words, count),
        None => Ok(Vec::from_slice(alloc, named(sample)?.break_state_table())?),
    }
}

// Entries by their bytes, or the same one for each two classes, as `all 255`.
fn entries_of(alloc: Global, words: &str, count: u8) -> Result<Vec<BreakState>> {
    if let Some(byte) = words.strip_prefix("all ") {
        let count = usize::from(count).saturating_mul(usize::from(count));
        let entry = BreakState::from_unaligned(number_of(byte)?);
        return Ok(vec![in alloc; entry; count]?);
    }
    let bytes = numbers_of(alloc, words)?;
    Ok(break_states(alloc, bytes.as_slice())?)
}

fn break_states(alloc: Global, bytes: &[u8]) -> Result<Vec<BreakState>, AllocError> {
    let mut entries = Vec::new(alloc);
    for byte in bytes {
        entries.push(BreakState::from_unaligned(*byte))?;
    }
    Ok(entries)
}
