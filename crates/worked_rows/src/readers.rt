//! The memo of an iterator with a reader of the caller's own, by the public names of `icu_segmenter` alone.
ghost use Rattle.std.specs.Prelude.{◌≡◌, IfOk};
ghost use Rattle.icu_segmenter.specs.Configurations.{reading};
ghost use Rattle.icu_segmenter.specs.Machine.{machine};
ghost use Rattle.icu_segmenter.specs.MachineFaults.{IsChecked};

use crate::data::{copy_of, machine_of, moves_of};
use crate::memos::shown_memo;
use crate::row::Row;
use crate::samples::quoted;
use anyhow::Result;
use icu_segmenter::GraphemeClusterSegmenterBorrowed;
use icu_segmenter::provider::{SegmenterStateMachine, State, Symbol};
use icu_segmenter::rule_segmenter_v2::ReadTransitions;
use std::alloc::Global;

/// A reader of transitions that a caller keeps in a list of its own.
#[derive(Drop)]
struct ListedTransitions<'data> {
    states: usize,
    transitions: &'data [State],
    count: usize,
}

impl<'data> ReadTransitions for ListedTransitions<'data> {
    ghost states = { λ r. r.states };

    ghost transitions = { λ r. r.transitions.now };

    ghost counted = { λ r. r.count };

    fn read(&mut self, state: State, symbol: Symbol) -> State {
        self.count += 1;
        self.transitions[state as usize + symbol as usize * self.states]
    }

    fn count(&self) -> usize {
        self.count
    }
}

/// The clusters of a text by the memo of their iterator, which reads the transitions of the row's reader in the place of the machine's
/// own.
pub fn look_ups_by_a_reader(alloc: Global, row: Row<'_>) -> Result<String> {
    let base = machine_of(alloc, row)?;
    let moves = moves_of(alloc, base.states().len(), row.words("reader")?)?;
    let text = quoted(alloc, row)?;
    look_ups_with(alloc, &base, moves.as_slice(), text.as_str())
}

// What `look_ups_by_a_reader` gives, by a machine, and by a reader of other moves.
fn look_ups_with(
    alloc: Global,
    base: &SegmenterStateMachine,
    moves: &[State],
    text: &str,
) -> Result<String> {
    let own = with_moves(alloc, base, base.transitions())?;
    let other = with_moves(alloc, base, moves)?;
    look_ups_by(alloc, &own, &other, text)
}

// A machine with these moves, and all else as the base.
fn with_moves(
    alloc: Global,
    base: &SegmenterStateMachine,
    moves: &[State],
) -> Result<SegmenterStateMachine>
    ensures made { IfOk result (λ made. made ≡ machine base.now.symbols base.now.states moves.now base.now.num_lookaheads base.now.pseudo_symbol_shift base.now.pseudo_symbol_map) }
    ensures checked { IfOk result IsChecked }
{
    let states = Vec::from_slice(alloc, base.states())?;
    let moves = Vec::from_slice(alloc, moves)?;
    let map = Vec::from_slice(alloc, base.pseudo_symbol_map())?;
    let (lookaheads, shift) = (base.num_lookaheads(), base.pseudo_symbol_shift());
    let symbols = copy_of(alloc, base.symbols())?;
    Ok(SegmenterStateMachine::try_from_parts(symbols, states, moves, lookaheads, shift, map)?)
}

fn look_ups_by(
    alloc: Global,
    own: &SegmenterStateMachine,
    other: &SegmenterStateMachine,
    text: &str,
) -> Result<String>
    requires moves { other.now ≡ reading own.now other.now.transitions }
    requires checked { IsChecked other.now }
{
    let clusters = GraphemeClusterSegmenterBorrowed::new_neo(own)?;
    let reader = ListedTransitions {
        states: other.states().len(),
        transitions: other.transitions(),
        count: 0,
    };
    let memo = clusters
        .segment_str(text)
        .with_memo(alloc)?
        .with_reader(reader);
    Ok(shown_memo(alloc, memo)?)
}
