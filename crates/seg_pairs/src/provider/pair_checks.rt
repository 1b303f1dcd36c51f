//! What a pair table's parts are checked for.
ghost use Rattle.std.specs.Prelude.{◌≡◌, ◌≢◌, ℕ, ◌+◌, ◌*◌, ◌<◌, ◌≤◌, ◌↔◌, ◌⊎◌, Any, IsTrue, IfErr, IsSomeAnd, OnOk, length};
ghost use Rattle.seg_data.specs.Faults.{IsFaultless, IsLowestFault};
ghost use Rattle.seg_data.specs.Table.{named_values};
ghost use Rattle.seg_pairs.specs.PairTable.{named_state, table_in, Overrides};
ghost use Rattle.seg_pairs.specs.PairData.{HasPartsFault, KeepsStart, NamesStatePast};

use crate::provider::{BreakState, RuleBreakData, RuleBreakDataOverride};
use seg_data::named_values::{names, names_from};
use seg_data::provider::{ClassTable, DataError};

// The lowest fault of a pair table's parts, if there is one.
pub(super) fn check_pairs(
    classes: &ClassTable,
    entries: &[BreakState],
    count: u8,
    sot: u8,
    eot: u8,
) -> Result<(), DataError>
    ensures accepted { OnOk result (IsFaultless (HasPartsFault classes.now entries.now count sot eot)) }
    ensures rejected { IfErr result (IsLowestFault (HasPartsFault classes.now entries.now count sot eot)) }
{
    if count == 0 || entries.len() != count as usize * count as usize {
        return Err(DataError::TableSize);
    }
    if names_from(classes, count) {
        return Err(DataError::ClassOutOfRange);
    }
    if sot >= count || eot >= count || names_state_past(entries, count) {
        return Err(DataError::StateOutOfRange);
    }
    Ok(())
}

// Whether an entry names a state that isn't below the number of states.
fn names_state_past(entries: &[BreakState], count: u8) -> bool
    ensures { IsTrue result ↔ Any (NamesStatePast count) entries.now }
{
    entries.iter().any(|entry| is_state_past(*entry, count))
}

// Whether this entry names such a state.
fn is_state_past(entry: BreakState, count: u8) -> bool
    ensures { IsTrue result ↔ NamesStatePast count entry }
{
    match entry.named() {
        Some(state) => count <= state,
        None => false,
    }
}

// Whether the override, where there is one, names the class.
pub(crate) fn overrides(overriding: Option<&RuleBreakDataOverride>, class: u8) -> bool
    ensures { IsTrue result ↔ Overrides (table_in overriding.entry) class }
{
    match overriding {
        Some(classes) => overrides_by(class) && names(classes.property_table_override(), class),
        None => false,
    }
}

// Whether a value of an override is a class: 0 leaves the table's.
pub(crate) fn overrides_by(value: u8) -> bool
    ensures { IsTrue result ↔ value ≢ 0 }
{
    value != 0
}

// Whether the override, where there is one, names this class, which isn't 0, or one above it.
pub(crate) fn overrides_from(overriding: Option<&RuleBreakDataOverride>, class: u8) -> bool
    requires { 0 < class }
    ensures { IsTrue result ↔ ((named : ℕ) × Overrides (table_in overriding.entry) named × (class ≤ named)) }
{
    match overriding {
        Some(classes) => names_from(classes.property_table_override(), class),
        None => false,
    }
}

// Whether no boundary stands between the text's start and this class.
pub(crate) fn keeps_start_before(table: &RuleBreakData, class: u8) -> bool
    requires { class < table.now.property_count }
    ensures { IsTrue result ↔ KeepsStart table.now class }
{
    table.facts();
    let entry = table.entry(table.sot_property(), class);
    entry != BreakState::Break && entry != BreakState::NoMatch
}
