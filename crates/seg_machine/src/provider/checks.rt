//! What a machine's parts are checked for.
ghost use Rattle.std.specs.Prelude.{◌≡◌, ◌≢◌, ℕ, ◌+◌, ◌*◌, ◌/◌, ◌<◌, ◌≤◌, ◌↔◌, ◌⊎◌, Any, IsTrue, IfErr, IsSomeAnd, OnOk, length};
ghost use Rattle.seg_data.specs.Faults.{IsFaultless, IsLowestFault};
ghost use Rattle.seg_data.specs.Table.{named_values};
ghost use Rattle.seg_machine.specs.MachineFaults.{HasMachineFault, IsConditionPast, IsStray, IsStrayReplacement, NamesPast};
ghost use Rattle.seg_machine.specs.Machine.{IsSymbolOf, machine};

use crate::provider::cycles::has_end_cycle;
use crate::provider::stalls::is_stall_free;
use crate::provider::{Acceptance, Lookahead, SegmenterStateMachine, State, Symbol};
use seg_data::provider::{ClassTable, ComplexScript, DataError};

// A transition is a byte, and 255 means none.
const MAX_STATES: usize = 255;

const MAX_LOOKAHEADS: usize = 8;

// The lowest fault of a machine's parts, if there is one.
pub(super) fn check_parts(
    symbols: &ClassTable,
    states: &[(Acceptance, Option<Lookahead>)],
    transitions: &[State],
    num_lookaheads: usize,
    shift: u8,
    map: &[(Symbol, ComplexScript)],
) -> Result<(), DataError>
    ensures accepted { OnOk result (IsFaultless (HasMachineFault (machine symbols.now states.now transitions.now num_lookaheads shift map.now))) }
    ensures rejected { IfErr result (IsLowestFault (HasMachineFault (machine symbols.now states.now transitions.now num_lookaheads shift map.now))) }
{
    if states.is_empty() || states.len() > MAX_STATES {
        return Err(DataError::StateCount);
    }
    if has_wrong_size(transitions.len(), states.len()) {
        return Err(DataError::TransitionSize);
    }
    if leads_past(transitions, states.len()) {
        return Err(DataError::TransitionOutOfRange);
    }
    let count = transitions.len() / states.len();
    if has_stray_symbol(symbols, count, shift, map, &[]) {
        return Err(DataError::SymbolOutOfRange);
    }
    if num_lookaheads > MAX_LOOKAHEADS {
        return Err(DataError::TooManyLookaheads);
    }
    if names_past(states, num_lookaheads) {
        return Err(DataError::LookaheadOutOfRange);
    }
    if has_end_cycle(states, transitions) {
        return Err(DataError::EndCycle);
    }
    if !is_stall_free(states, transitions) {
        return Err(DataError::Stalls);
    }
    Ok(())
}

// Whether the number of transitions isn't the number of states times 1 to 256.
fn has_wrong_size(transitions: usize, states: usize) -> bool
    requires { 0 < states }
    ensures { IsTrue result ↔ ((count : ℕ) → 0 < count → count ≤ 256 → transitions ≢ states * count) }
{
    let count = transitions / states;
    transitions % states != 0 || count == 0 || count > 256
}

// Whether a transition is neither 255 nor a state.
fn leads_past(transitions: &[State], states: usize) -> bool
    ensures { IsTrue result ↔ Any (λ next. (next ≢ 255) × (states ≤ next)) transitions.now }
{
    transitions.iter().any(|next| *next != SegmenterStateMachine::TRASH_STATE
        && states <= *next as usize)
}

// Whether a value of the table, or an entry of the map, gives no symbol of a text, or an entry that
// replaces a symbol is stray.
pub(super) fn has_stray_symbol(
    symbols: &ClassTable,
    count: usize,
    shift: u8,
    map: &[(Symbol, ComplexScript)],
    replacements: &[(Symbol, Symbol, ComplexScript)],
) -> bool
    ensures { IsTrue result ↔ ((Any (IsStray count shift (length map.now)) (named_values symbols.now)
        ⊎ Any (λ entry. IsSymbolOf count entry.0 → ⊥) map.now)
        ⊎ Any (IsStrayReplacement count shift) replacements.now) }
{
    has_stray_value(symbols, count, shift, map.len())
        || has_stray_entry(map, count)
        || has_stray_replacement(replacements, count, shift)
}

// Whether a value of the table gives no symbol of a text.
fn has_stray_value(symbols: &ClassTable, count: usize, shift: u8, entries: usize) -> bool
    ensures { IsTrue result ↔ Any (IsStray count shift entries) (named_values symbols.now) }
{
    is_stray(symbols.default(), count, shift, entries)
        || has_stray_range(symbols.ranges(), count, shift, entries)
}

// Whether the value of a range gives no symbol of a text.
fn has_stray_range(ranges: &[(u32, u32, u8)], count: usize, shift: u8, entries: usize) -> bool
    ensures { IsTrue result ↔ Any (λ range. IsStray count shift entries range.2) ranges.now }
{
    ranges
        .iter()
        .any(|range| is_stray(range.2, count, shift, entries))
}

// Whether a value gives no symbol of a text: below the shift as a symbol, from the shift on as a
// pseudo symbol.
fn is_stray(value: u8, count: usize, shift: u8, entries: usize) -> bool
    ensures { IsTrue result ↔ IsStray count shift entries value }
{
    if value < shift {
        !is_text_symbol(value, count)
    } else {
        entries <= (value - shift) as usize
    }
}

// Whether a symbol is one of a text, where there are so many symbols.
fn is_text_symbol(symbol: Symbol, count: usize) -> bool
    ensures { IsTrue result ↔ IsSymbolOf count symbol }
{
    symbol != SegmenterStateMachine::EOT_SYMBOL && (symbol as usize) < count
}

// Whether an entry of the map gives no symbol of a text.
fn has_stray_entry(map: &[(Symbol, ComplexScript)], count: usize) -> bool
    ensures { IsTrue result ↔ Any (λ entry. IsSymbolOf count entry.0 → ⊥) map.now }
{
    map.iter().any(|entry| !is_text_symbol(entry.0, count))
}

// Whether an entry doesn't put a symbol of a text in the place of one below the shift.
fn has_stray_replacement(
    replacements: &[(Symbol, Symbol, ComplexScript)],
    count: usize,
    shift: u8,
) -> bool
    ensures { IsTrue result ↔ Any (IsStrayReplacement count shift) replacements.now }
{
    replacements.iter().any(|entry| is_stray_replacement(entry.0, entry.1, count, shift))
}

// Whether this isn't a symbol of a text below the shift and one in its place.
fn is_stray_replacement(from: Symbol, to: Symbol, count: usize, shift: u8) -> bool
    ensures { IsTrue result ↔ (((IsSymbolOf count from → ⊥) ⊎ (shift ≤ from)) ⊎ (IsSymbolOf count to → ⊥)) }
{
    !is_text_symbol(from, count) || shift <= from || !is_text_symbol(to, count)
}

// Whether a state, or its condition, names a lookahead that isn't below the number of lookaheads.
fn names_past(states: &[(Acceptance, Option<Lookahead>)], lookaheads: usize) -> bool
    ensures { IsTrue result ↔ Any (NamesPast lookaheads) states.now }
{
    states.iter().any(|state| is_past(*state, lookaheads))
}

// Whether this state, or its condition, names such a lookahead.
fn is_past(state: (Acceptance, Option<Lookahead>), lookaheads: usize) -> bool
    ensures { IsTrue result ↔ NamesPast lookaheads state }
{
    is_named_past(state.1, lookaheads) || is_condition_past(state.0, lookaheads)
}

// Whether this lookahead is one, and isn't below the number of lookaheads.
fn is_named_past(named: Option<Lookahead>, lookaheads: usize) -> bool
    ensures { IsTrue result ↔ IsSomeAnd named (λ lookahead. lookaheads ≤ lookahead) }
{
    match named {
        Some(lookahead) => lookaheads <= lookahead as usize,
        None => false,
    }
}

// Whether this is a condition on a lookahead that isn't below the number of lookaheads.
fn is_condition_past(acceptance: Acceptance, lookaheads: usize) -> bool
    ensures { IsTrue result ↔ IsConditionPast lookaheads acceptance }
{
    match acceptance {
        Acceptance::Conditional(lookahead, _) => lookaheads <= lookahead as usize,
        _ => false,
    }
}
