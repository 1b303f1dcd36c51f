//! Steps between the states of a machine.
ghost use Rattle.std.specs.Prelude.{◌≡◌, ◌<◌, IfSome, length};
ghost use Rattle.seg_machine.specs.Machine.{step, symbol_count};
ghost use Rattle.seg_machine.specs.Search.{IsBounded, bare};

use crate::provider::{Acceptance, Lookahead, SegmenterStateMachine, State};

// The state that a symbol leads to from a state, or `None` where it leads to none.
pub(super) fn next_of(
    states: &[(Acceptance, Option<Lookahead>)],
    transitions: &[State],
    state: State,
    symbol: usize,
) -> Option<State>
    requires bounded { IsBounded (bare states.now transitions.now) }
    requires state { state < length states.now }
    requires symbol { symbol < symbol_count (bare states.now transitions.now) }
    ensures value { result ≡ step (bare states.now transitions.now) state symbol }
    ensures state { IfSome result (λ next. next < length states.now) }
{
    let next = transitions[state as usize + symbol * states.len()];
    if next == SegmenterStateMachine::TRASH_STATE {
        None
    } else {
        Some(next)
    }
}
