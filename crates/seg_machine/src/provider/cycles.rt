//! Whether symbol 0, the end of the text, goes round in a cycle.
ghost use Rattle.std.specs.Prelude.{◌≡◌, ℕ, ◌<◌, ◌↔◌, IsTrue, length};
ghost use Rattle.std.specs.Option.{is_some};
ghost use Rattle.seg_machine.specs.MachineFaults.{HasEndCycle};
ghost use Rattle.seg_machine.specs.Machine.{state_after_ends};
ghost use Rattle.seg_machine.specs.Search.{IsBounded, bare};

use crate::provider::transitions::next_of;
use crate::provider::{Acceptance, Lookahead, State};

// Whether symbol 0 leads from some state back to it.
pub(super) fn has_end_cycle(
    states: &[(Acceptance, Option<Lookahead>)],
    transitions: &[State],
) -> bool
    requires bounded { IsBounded (bare states.now transitions.now) }
    ensures { IsTrue result ↔ HasEndCycle (bare states.now transitions.now) }
{
    for state in 0..states.len() {
        if leads_on(states, transitions, state as State) {
            return true;
        }
    }
    false
}

// Whether symbol 0 leads on as often as there are states.
fn leads_on(states: &[(Acceptance, Option<Lookahead>)], transitions: &[State], state: State) -> bool
    requires bounded { IsBounded (bare states.now transitions.now) }
    requires state { state < length states.now }
    ensures { result ≡ is_some (state_after_ends (bare states.now transitions.now) state (length states.now)) }
{
    let mut current = state;
    for _step in 0..states.len() {
        let Some(next) = next_of(states, transitions, current, 0) else {
            return false;
        };
        current = next;
    }
    true
}
