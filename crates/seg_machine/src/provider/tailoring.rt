//! Tailorings of state machines.
ghost use Rattle.std.specs.Prelude.{◌≡◌, ◌↔◌, ◌⊎◌, IsTrue, IsNone, IfOk, IfErr, IfSome, Any, map};
ghost use Rattle.std.specs.Option.{option_map};
ghost use Rattle.seg_data.specs.Faults.{IsFaultless, IsLowestFault};
ghost use Rattle.seg_machine.specs.Machine.{replaced, tailoring, ArePlaced, replacements_of};
ghost use Rattle.seg_machine.specs.MachineFaults.{HasOverrideFault, HasTwice, NamesEnd};
ghost use Rattle.seg_machine.specs.Lemmas.SameMachines.{same_tailoring, same_tailoring-laws};

use crate::provider::{SegmenterStateMachine, Symbol};
use seg_data::provider::{ComplexScript, DataError};
use std::fmt::{self, Debug, Formatter};
use std::marker::Model;

// For each symbol the symbol and the script in its place; symbol 0 where it keeps its own.
type Replacements = [(Symbol, ComplexScript); 256];

/// A tailoring of a state machine: a map that takes the place of the machine's own, so that its
/// pseudo symbols have other symbols and scripts, and symbols and scripts in the place of symbols
/// below the shift.
pub struct SegmenterStateMachineOverride {
    pseudo_symbol_map: Vec<(Symbol, ComplexScript)>,
    symbol_map: Vec<(Symbol, Symbol, ComplexScript)>,
    replacements: Replacements,
}

// Written out, so that it is proved here and not in each function that drops one.
impl Drop for SegmenterStateMachineOverride {
    fn drop(self) {
        let SegmenterStateMachineOverride {
            pseudo_symbol_map: _,
            symbol_map: _,
            replacements: _,
        } = self;
    }
}

impl Model for SegmenterStateMachineOverride {
    ghost use Rattle.seg_machine.specs.Machine.{MachineTailoring, tailoring, ArePlaced};

    ghost Value = { MachineTailoring };

    ghost view = { λ t. tailoring t.pseudo_symbol_map.items t.symbol_map.items };

    ghost invariant = { λ t. ArePlaced t.symbol_map.items t.replacements };
}

impl SegmenterStateMachineOverride {
    /// The tailoring by this map of pseudo symbols and these entries (from, to, script), which put
    /// a symbol and a script in the place of a symbol. What the map gives isn't replaced.
    /// `SymbolOutOfRange` where a symbol of the map or of an entry is 0, or two entries have the
    /// same `from`; whether its machine has the other symbols is looked at where the two come
    /// together. Takes no memory.
    pub fn try_from_parts(
        pseudo_symbol_map: Vec<(Symbol, ComplexScript)>,
        symbol_map: Vec<(Symbol, Symbol, ComplexScript)>,
    ) -> Result<Self, DataError>
        ensures accepted { let parts = tailoring pseudo_symbol_map.items symbol_map.items in
            IfOk result (λ t. (t ≡ parts) × IsFaultless (HasOverrideFault parts)) }
        ensures rejected { IfErr result (IsLowestFault (HasOverrideFault (tailoring pseudo_symbol_map.items symbol_map.items))) }
    {
        if gives_end(pseudo_symbol_map.as_slice()) {
            return Err(DataError::SymbolOutOfRange);
        }
        let Some(replacements) = place_entries(symbol_map.as_slice()) else {
            return Err(DataError::SymbolOutOfRange);
        };
        Ok(SegmenterStateMachineOverride {
            pseudo_symbol_map,
            symbol_map,
            replacements,
        })
    }

    /// The symbol and the script of each pseudo symbol, from the shift on.
    pub fn pseudo_symbol_map(&self) -> &[(Symbol, ComplexScript)]
        ensures { result.now ≡ self.now.pseudo_symbol_map }
    {
        self.pseudo_symbol_map.as_slice()
    }

    /// The entries (from, to, script) that put a symbol and a script in the place of a symbol.
    pub fn symbol_map(&self) -> &[(Symbol, Symbol, ComplexScript)]
        ensures { result.now ≡ self.now.symbol_map }
    {
        self.symbol_map.as_slice()
    }

    /// The tailoring where it replaces symbols at all.
    pub(crate) fn replacing(&self) -> Option<&SegmenterStateMachineOverride>
        ensures { replacements_of (option_map (λ t. t.now) result) ≡ self.now.symbol_map }
    {
        if self.symbol_map().is_empty() {
            None
        } else {
            Some(self)
        }
    }

    /// The symbol and the script in the place of a symbol.
    #[inline(always)]
    pub(crate) fn replacement(&self, symbol: Symbol) -> (Symbol, ComplexScript)
        ensures { result ≡ replaced self.now.symbol_map symbol }
    {
        let placed = self.replacements[symbol as usize];
        if placed.0 == SegmenterStateMachine::EOT_SYMBOL {
            (symbol, ComplexScript::None)
        } else {
            placed
        }
    }
}

// Whether an entry gives the symbol of the end.
fn gives_end(map: &[(Symbol, ComplexScript)]) -> bool
    ensures { IsTrue result ↔ Any (λ entry. entry.0 ≡ 0) map.now }
{
    map.iter()
        .any(|entry| entry.0 == SegmenterStateMachine::EOT_SYMBOL)
}

// What is in the place of each symbol, or `None` where an entry names symbol 0 or two replace the
// same symbol.
fn place_entries(entries: &[(Symbol, Symbol, ComplexScript)]) -> Option<Replacements>
    ensures placed { IfSome result (ArePlaced entries.now) }
    ensures named { IfSome result (λ _. Any NamesEnd entries.now → ⊥) }
    ensures once { IfSome result (λ _. HasTwice (map (λ entry. entry.0) entries.now) → ⊥) }
    ensures fault { IsNone result → Any NamesEnd entries.now ⊎ HasTwice (map (λ entry. entry.0) entries.now) }
{
    let mut replacements = [(SegmenterStateMachine::EOT_SYMBOL, ComplexScript::None); 256];
    for index in 0..entries.len() {
        let (from, to, script) = entries[index];
        if names_end(from, to) {
            return None;
        }
        if replacements[from as usize].0 != SegmenterStateMachine::EOT_SYMBOL {
            return None;
        }
        replacements[from as usize] = (to, script);
    }
    Some(replacements)
}

// Whether one of these is the symbol of the end.
fn names_end(from: Symbol, to: Symbol) -> bool
    ensures { IsTrue result ↔ ((from ≡ 0) ⊎ (to ≡ 0)) }
{
    from == SegmenterStateMachine::EOT_SYMBOL || to == SegmenterStateMachine::EOT_SYMBOL
}

impl Debug for SegmenterStateMachineOverride {
    // The parts passed in: the table of replacements only says the same again.
    fn fmt<W: fmt::Write>(&self, f: &mut Formatter<W>) -> fmt::Result {
        f.debug_struct("SegmenterStateMachineOverride")
            .field("pseudo_symbol_map", &self.pseudo_symbol_map)
            .field("symbol_map", &self.symbol_map)
            .finish()
    }
}

impl PartialEq for SegmenterStateMachineOverride {
    ghost eq = { same_tailoring };

    ghost laws = { same_tailoring-laws };

    // Whether the parts are the same.
    fn eq(&self, other: &SegmenterStateMachineOverride) -> bool
        ensures value { result ≡ same_tailoring self.now other.now }
        ensures same { IsTrue result ↔ (self.now ≡ other.now) }
    {
        self.pseudo_symbol_map == other.pseudo_symbol_map && self.symbol_map == other.symbol_map
    }
}
