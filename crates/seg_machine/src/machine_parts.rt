//! A machine with its tailoring, without its transitions: what an engine reads beside a reader of transitions. It isn't part of
//! the library's surface.
ghost use Rattle.std.specs.Prelude.{◌≡◌, ◌<◌, [], length};
ghost use Rattle.std.specs.Option.{option_map};
ghost use Rattle.seg_machine.specs.MachineFaults.{HasTextSymbols};
ghost use Rattle.seg_data.specs.Table.{value_of};
ghost use Rattle.seg_machine.specs.Machine.{ArePlainBelow, HasEntries, machine, replaced, replacements_of, state_at, symbol_and_script, with_parts, without_transitions};

use crate::provider::{
    Acceptance, Lookahead, SegmenterStateMachine, SegmenterStateMachineOverride, State, Symbol,
};
use seg_data::provider::{ClassTable, ComplexScript};

/// The symbols of code points, and what states accept, by a checked machine, tailored or not, that is borrowed.
#[derive(Clone, Copy)]
pub struct MachineParts<'data> {
    symbols: &'data ClassTable,
    pseudo_symbol_shift: u8,
    // Each value below it is its own symbol: it is the shift where nothing is replaced, and else 0.
    plain_below: u8,
    pseudo_symbol_map: &'data [(Symbol, ComplexScript)],
    // The tailoring whose entries replace symbols.
    symbol_map: Option<&'data SegmenterStateMachineOverride>,
    states: &'data [(Acceptance, Option<Lookahead>)],
    num_lookaheads: usize,
    ghost entries: { HasEntries (with_parts (machine symbols.now states.now [] num_lookaheads pseudo_symbol_shift pseudo_symbol_map.now) pseudo_symbol_map.now (option_map (λ t. t.now) symbol_map)) },
    ghost plain: { ArePlainBelow (with_parts (machine symbols.now states.now [] num_lookaheads pseudo_symbol_shift pseudo_symbol_map.now) pseudo_symbol_map.now (option_map (λ t. t.now) symbol_map)) plain_below },
}

impl<'data> MachineParts<'data> {
    ghost use Rattle.seg_machine.specs.Tailored.{parts_of};

    // The parts of a machine, with another map of pseudo symbols, and replaced symbols.
    #[inline(always)]
    pub(crate) fn new(
        machine: &'data SegmenterStateMachine,
        pseudo_symbol_map: &'data [(Symbol, ComplexScript)],
        symbol_map: Option<&'data SegmenterStateMachineOverride>,
        plain_below: u8,
    ) -> Self
        requires text { HasTextSymbols (with_parts machine.now pseudo_symbol_map.now (option_map (λ t. t.now) symbol_map)) }
        requires plain { ArePlainBelow (with_parts machine.now pseudo_symbol_map.now (option_map (λ t. t.now) symbol_map)) plain_below }
        ensures { parts_of result ≡ without_transitions (with_parts machine.now pseudo_symbol_map.now (option_map (λ t. t.now) symbol_map.entry)) }
    {
        MachineParts {
            symbols: machine.symbols(),
            pseudo_symbol_shift: machine.pseudo_symbol_shift(),
            plain_below,
            pseudo_symbol_map,
            symbol_map,
            states: machine.states(),
            num_lookaheads: machine.num_lookaheads(),
        }
    }

    /// How many lookaheads there are.
    pub fn num_lookaheads(&self) -> usize
        ensures { result ≡ (parts_of self.now).num_lookaheads }
    {
        self.num_lookaheads
    }

    /// The symbol of a code point.
    #[inline(always)]
    pub fn symbol(&self, code_point: u32) -> Symbol
        ensures { result ≡ (symbol_and_script (parts_of self.now) code_point).0 }
    {
        let value = self.symbols.get32(code_point);
        if value < self.plain_below {
            return value;
        }
        self.symbol_of_value(code_point, value)
    }

    // The symbol of a code point by its value in the table of symbols.
    #[inline(always)]
    pub(crate) fn symbol_of_value(&self, code_point: u32, value: u8) -> Symbol
        requires { value ≡ value_of self.now.symbols.now code_point }
        ensures { result ≡ (symbol_and_script (parts_of self.now) code_point).0 }
    {
        let shift = self.pseudo_symbol_shift;
        if value < shift {
            replacement_by(self.symbol_map, value).0
        } else {
            self.pseudo_symbol_map[(value - shift) as usize].0
        }
    }

    /// What a state accepts, and the lookahead that it names.
    pub fn entry(&self, state: State) -> (Acceptance, Option<Lookahead>)
        requires { state < length (parts_of self.now).states }
        ensures { result ≡ state_at (parts_of self.now) state }
    {
        self.states[state as usize]
    }
}

// The symbol and the script in the place of a symbol.
#[inline(always)]
pub(crate) fn replacement_by(
    replacing: Option<&SegmenterStateMachineOverride>,
    symbol: Symbol,
) -> (Symbol, ComplexScript)
    ensures { result ≡ replaced (replacements_of (option_map (λ t. t.now) replacing.entry)) symbol }
{
    match replacing {
        None => (symbol, ComplexScript::None),
        Some(tailoring) => tailoring.replacement(symbol),
    }
}
