//! Readers of transitions, which count what they read.

ghost use Rattle.std.specs.Prelude.{◌≡◌, ℕ, ◌+◌, ◌*◌, ◌/◌, ◌<◌, List, length, slice_index};

use seg_machine::provider::{SegmenterStateMachine, State, Symbol};

/// Reads the transitions of a table that never changes, and counts the readings.
pub trait ReadTransitions: Drop {
    /// How many states the table has.
    ghost states: { Self → ℕ };

    /// Its transitions: that of state q on symbol s is at `q + s * states`.
    ghost transitions: { Self → List ℕ };

    /// How many were read.
    ghost counted: { Self → ℕ };

    /// The transition of a state on a symbol, 255 for none. It is counted.
    fn read(&mut self, state: State, symbol: Symbol) -> State
        requires state { state < states self.old }
        requires symbol { symbol < length (transitions self.old) / states self.old }
        requires room { counted self.old < usize.MAX }
        ensures value { result ≡ slice_index (transitions self.old) (state + symbol * states self.old) }
        ensures states { states self.new ≡ states self.old }
        ensures transitions { transitions self.new ≡ transitions self.old }
        ensures counted { counted self.new ≡ counted self.old + 1 };

    /// How many were read.
    fn count(&self) -> usize
        ensures { result ≡ counted self.now };
}

/// The reader of a machine's own transitions.
#[derive(Debug, Drop)]
pub struct CountedTransitions<'data> {
    states: usize,
    transitions: &'data [State],
    count: usize,
}

impl<'data> CountedTransitions<'data> {
    /// The transitions of a machine, none of which was read.
    pub fn new(machine: &'data SegmenterStateMachine) -> Self
        ensures states { result.states ≡ length machine.now.states }
        ensures transitions { result.transitions.now ≡ machine.now.transitions }
        ensures count { result.count ≡ 0 }
    {
        CountedTransitions {
            states: machine.states().len(),
            transitions: machine.transitions(),
            count: 0,
        }
    }
}

impl<'data> ReadTransitions for CountedTransitions<'data> {
    ghost states = { λ r. r.states };

    ghost transitions = { λ r. r.transitions.now };

    ghost counted = { λ r. r.count };

    fn read(&mut self, state: State, symbol: Symbol) -> State {
        self.count += 1;
        self.transitions[state as usize + symbol as usize * self.states]
    }

    fn count(&self) -> usize {
        self.count
    }
}
