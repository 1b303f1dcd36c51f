//! Whether every text that isn't empty has a pick.
ghost use Rattle.std.specs.Prelude.{◌≡◌, ℕ, ◌+◌, ◌<◌, ◌≤◌, IsTrue, IsFalse, IfSome, IsSomeAnd, List, ◌++◌, length};
ghost use Rattle.seg_machine.specs.MachineFaults.{IsConditionPast, NamesPast};
ghost use Rattle.seg_machine.specs.Pick.{HasStall, IsStallFree};
ghost use Rattle.seg_machine.specs.Search.{AreDone, AreFollowed, AreReached, IsBounded, IsGrowth, IsMet, IsQueue, bare, enter, has, is_pick, is_settled_at_end, keep};

use crate::provider::found::{Marks, SETS, StateQueue, WORDS, list_pair, queue_of};
use crate::provider::transitions::next_of;
use crate::provider::{Acceptance, Lookahead, State};

// Whether every text that isn't empty has a pick. It looks at each pair of a state and the set of
// lookaheads named up to there that a text leads to while no pick is sure. Sets only grow on the
// way, so they are taken in the order of their numbers.
pub(super) fn is_stall_free(
    states: &[(Acceptance, Option<Lookahead>)],
    transitions: &[State],
) -> bool
    requires bounded { IsBounded (bare states.now transitions.now) }
    ensures free { IsTrue result → IsStallFree (bare states.now transitions.now) }
    ensures stalls { IsFalse result → HasStall (bare states.now transitions.now) }
{
    let mut marks = [0; WORDS];
    if !follow_pair(
        states,
        transitions,
        0,
        0,
        &mut marks,
        &mut StateQueue::new(),
    ) {
        return false;
    }
    for kept in 0..SETS {
        if !follow_set(states, transitions, kept as u8, &mut marks) {
            return false;
        }
    }
    true
}

// Follows the pairs with this set, or answers `false` where some text has no pick.
fn follow_set(
    states: &[(Acceptance, Option<Lookahead>)],
    transitions: &[State],
    kept: u8,
    marks: &mut Marks,
) -> bool
    requires bounded { IsBounded (bare states.now transitions.now) }
    requires reached { AreReached (bare states.now transitions.now) marks.old }
    requires done { AreDone (bare states.now transitions.now) marks.old kept }
    ensures reached { AreReached (bare states.now transitions.now) marks.new }
    ensures growth { IsGrowth marks.old marks.new kept }
    ensures done { IsTrue result → AreDone (bare states.now transitions.now) marks.new (kept + 1) }
    ensures stalls { IsFalse result → HasStall (bare states.now transitions.now) }
{
    let mut queue = queue_of(marks, kept);
    let mut done = 0;
    while done < queue.len() {
        let state = queue.state(done);
        if !is_sure_at_end(states, transitions, state, kept) {
            return false;
        }
        if !follow_pair(states, transitions, state, kept, marks, &mut queue) {
            return false;
        }
        done += 1;
    }
    true
}

// Marks the pairs that the symbols of a text lead to from a pair, or answers `false` where some
// symbol leads to no state. Those with the same set are put in the queue, too.
fn follow_pair(
    states: &[(Acceptance, Option<Lookahead>)],
    transitions: &[State],
    state: State,
    kept: u8,
    marks: &mut Marks,
    queue: &mut StateQueue,
) -> bool
    requires bounded { IsBounded (bare states.now transitions.now) }
    requires pair { IsMet (bare states.now transitions.now) (state, kept) }
    requires reached { AreReached (bare states.now transitions.now) marks.old }
    requires queue { IsQueue marks.old queue.old kept }
    ensures reached { AreReached (bare states.now transitions.now) marks.new }
    ensures queue { IsQueue marks.new queue.new kept }
    ensures more { (more : List ℕ) × (queue.new ≡ queue.old ++ more) }
    ensures growth { IsGrowth marks.old marks.new kept }
    ensures followed { IsTrue result → AreFollowed (bare states.now transitions.now) marks.new state kept }
    ensures stalls { IsFalse result → HasStall (bare states.now transitions.now) }
{
    let count = transitions.len() / states.len();
    for symbol in 1..count {
        let Some(next) = next_of(states, transitions, state, symbol) else {
            return false;
        };
        if let Some(after) = enter_state(states[next as usize], kept) {
            list_pair(marks, queue, kept, next, after);
        }
    }
    true
}

// Whether the end of the text leads from a pair to a state that settles that there is a pick.
fn is_sure_at_end(
    states: &[(Acceptance, Option<Lookahead>)],
    transitions: &[State],
    state: State,
    kept: u8,
) -> bool
    requires bounded { IsBounded (bare states.now transitions.now) }
    requires state { state < length states.now }
    ensures { result ≡ is_settled_at_end (bare states.now transitions.now) state kept }
{
    let mut current = state;
    let mut set = kept;
    for _step in 0..states.len() {
        let Some(next) = next_of(states, transitions, current, 0) else {
            return false;
        };
        let Some(after) = enter_state(states[next as usize], set) else {
            return true;
        };
        current = next;
        set = after;
    }
    false
}

// The set of lookaheads after a state, or `None` where the state settles that there is a pick.
fn enter_state(state: (Acceptance, Option<Lookahead>), kept: u8) -> Option<u8>
    requires named { NamesPast 8 state → ⊥ }
    ensures after { result ≡ enter kept state }
    ensures in_range { IfSome result (λ after. after < 256) }
    ensures grows { IfSome result (λ after. kept ≤ after) }
{
    if is_sure(state.0, kept) {
        None
    } else {
        Some(keep_named(state.1, kept))
    }
}

// Whether a state accepts, or its condition holds after these lookaheads.
fn is_sure(acceptance: Acceptance, kept: u8) -> bool
    requires { IsConditionPast 8 acceptance → ⊥ }
    ensures { result ≡ is_pick kept acceptance }
{
    match acceptance {
        Acceptance::Continue => false,
        Acceptance::Accept(_) => true,
        Acceptance::Conditional(lookahead, _) => is_kept(lookahead, kept),
    }
}

// Whether a lookahead is in a set.
pub(super) fn is_kept(lookahead: Lookahead, kept: u8) -> bool
    requires { lookahead < 8 }
    ensures { result ≡ has kept lookahead }
{
    (kept >> lookahead) & 1 == 1
}

// The set with the lookahead that a state names.
fn keep_named(named: Option<Lookahead>, kept: u8) -> u8
    requires named { IsSomeAnd named (λ lookahead. 8 ≤ lookahead) → ⊥ }
    ensures value { result ≡ keep kept named }
    ensures in_range { result < 256 }
    ensures grows { kept ≤ result }
{
    match named {
        Some(lookahead) => kept | (1 << lookahead),
        None => kept,
    }
}
