//! What a search has found: pairs of a state and a set of lookaheads.
ghost use Rattle.std.specs.Prelude.{◌≡◌, ◌↔◌, ℕ, ◌<◌, ◌≤◌, ◌+◌, ◌*◌, ◌⊎◌, IsTrue, IsFalse, [], ◌∷◌, ◌++◌, Contains, length, slice_index_or};
ghost use Rattle.seg_machine.specs.Search.{IsBelow, IsMarked, IsQueue, Pair};

use crate::provider::State;
use crate::provider::stalls::is_kept;
use arrayvec::ArrayVec;
use std::marker::Model;

// How many states and lookaheads there may be, and how many sets of lookaheads.
const STATES: usize = 255;

const LOOKAHEADS: u8 = 8;

pub(super) const SETS: usize = 256;

// How many bits a word has, how many words a set's states take, and how many all sets'.
const WORD: usize = 64;

const ROW: usize = 4;

pub(super) const WORDS: usize = 1024;

/// A bit for each pair: 256 for each set, with one for each state.
pub(super) type Marks = [u64; WORDS];

// The number of a pair's bit.
fn bit_number(state: State, kept: u8) -> usize
    ensures { result ≡ kept * 256 + state }
{
    kept as usize * SETS + state as usize
}

// Marks a pair.
fn mark(marks: &mut Marks, state: State, kept: u8)
    requires state { state < 255 }
    ensures marked { IsMarked marks.new (state, kept) }
    ensures keeps { (pair : Pair) → IsMarked marks.old pair → IsMarked marks.new pair }
    ensures only { (pair : Pair) → IsMarked marks.new pair → (pair ≡ (state, kept)) ⊎ IsMarked marks.old pair }
{
    let bit = bit_number(state, kept);
    marks[bit / WORD] |= 1 << (bit % WORD);
}

// Whether a pair is marked.
fn is_marked(marks: &Marks, state: State, kept: u8) -> bool
    requires state { state < 255 }
    ensures { IsTrue result ↔ IsMarked marks.now (state, kept) }
{
    let bit = bit_number(state, kept);
    (marks[bit / WORD] >> (bit % WORD)) & 1 == 1
}

// Whether no pair with this set is marked.
fn has_no_mark(marks: &Marks, kept: u8) -> bool
    ensures { IsTrue result → (state : ℕ) → IsMarked marks.now (state, kept) → ⊥ }
{
    for word in 0..ROW {
        if marks[kept as usize * ROW + word] != 0 {
            return false;
        }
    }
    true
}

/// States, each once, in the order in which they came.
#[derive(Drop)]
pub(crate) struct StateQueue {
    known: [bool; STATES],
    states: ArrayVec<State, STATES>,
}

impl Model for StateQueue {
    ghost use Rattle.std.specs.Prelude.{ℕ, List};
    ghost use Rattle.seg_machine.specs.Search.{IsTable};

    ghost Value = { List ℕ };

    ghost view = { λ q. q.states.items };

    ghost invariant = { λ q. IsTable q.known q.states.items };
}

impl StateQueue {
    /// No states.
    pub(crate) fn new() -> Self
        ensures { result ≡ [] }
    {
        let known = [false; STATES];
        StateQueue {
            known,
            states: ArrayVec::new(),
        }
    }

    /// How many states there are.
    pub(crate) fn len(&self) -> usize
        ensures value { result ≡ length self.now }
        ensures few { result ≤ 255 }
    {
        self.states.len()
    }

    /// The state at a place.
    pub(crate) fn state(&self, place: usize) -> State
        requires { place < length self.now }
        ensures { result ≡ slice_index_or self.now place 0 }
    {
        self.states[place]
    }

    /// Puts a state in the queue, unless it is there.
    pub(crate) fn push(&mut self, state: State)
        requires { state < 255 }
        ensures listed { Contains self.new state }
        ensures more { (self.new ≡ self.old) ⊎ (self.new ≡ self.old ++ state ∷ []) }
    {
        if !self.known[state as usize] {
            self.known[state as usize] = true;
            self.states.push(state);
        }
    }
}

// Whether the state is marked with a set that lacks one lookahead of this one, too.
fn is_found_below(marks: &Marks, state: State, kept: u8) -> bool
    requires state { state < 255 }
    ensures { IsTrue result → IsBelow marks.now state kept }
{
    for lookahead in 0..LOOKAHEADS {
        if is_kept(lookahead, kept) && is_marked(marks, state, kept & !(1 << lookahead)) {
            return true;
        }
    }
    false
}

// Whether a pair is to be followed: it is marked, and its state isn't with a smaller set, which
// settles less.
fn is_to_follow(marks: &Marks, state: State, kept: u8) -> bool
    requires state { state < 255 }
    ensures marked { IsTrue result → IsMarked marks.now (state, kept) }
    ensures others { IsFalse result → IsMarked marks.now (state, kept) → IsBelow marks.now state kept }
{
    is_marked(marks, state, kept) && !is_found_below(marks, state, kept)
}

// The states that are to be followed with this set.
pub(super) fn queue_of(marks: &Marks, kept: u8) -> StateQueue
    ensures { IsQueue marks.now result kept }
{
    let mut queue = StateQueue::new();
    if has_no_mark(marks, kept) {
        return queue;
    }
    for state in 0..STATES {
        if is_to_follow(marks, state as State, kept) {
            queue.push(state as State);
        }
    }
    queue
}

// Marks a pair, and puts its state in the queue where its set is the queue's.
pub(super) fn list_pair(
    marks: &mut Marks,
    queue: &mut StateQueue,
    kept: u8,
    state: State,
    after: u8,
)
    requires state { state < 255 }
    requires queue { IsQueue marks.old queue.old kept }
    ensures queue { IsQueue marks.new queue.new kept }
    ensures more { (queue.new ≡ queue.old) ⊎ (queue.new ≡ queue.old ++ state ∷ []) }
    ensures marked { IsMarked marks.new (state, after) }
    ensures keeps { (pair : Pair) → IsMarked marks.old pair → IsMarked marks.new pair }
    ensures only { (pair : Pair) → IsMarked marks.new pair → (pair ≡ (state, after)) ⊎ IsMarked marks.old pair }
{
    mark(marks, state, after);
    if after == kept {
        queue.push(state);
    }
}
