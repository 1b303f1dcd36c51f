//! Which symbols end a machine's scans, so that no scan looks past them.

ghost use Rattle.std.specs.Prelude.{◌↔◌, ◌<◌, IsTrue, length};
ghost use Rattle.seg_clusters.specs.Rules.{IsLastState, IsReset};
ghost use Rattle.seg_machine.specs.Machine.{IsTextSymbol};
ghost use Rattle.seg_machine.specs.Tailored.{machine_of};

use seg_machine::provider::{SegmenterStateMachine, State, Symbol};
use seg_machine::tailored_machine::TailoredMachineBorrowed;

/// Whether a scan that reads the symbol is over there: from each state it leads to none, or to one that nothing leads on from.
pub(crate) fn is_reset(machine: TailoredMachineBorrowed<'_>, symbol: Symbol) -> bool
    requires { IsTextSymbol (machine_of machine) symbol }
    ensures { IsTrue result ↔ IsReset (machine_of machine.entry) symbol }
{
    machine.facts();
    let count = machine.machine().states().len();
    for state in 0..count {
        if let Some(next) = machine.next_state(state as State, symbol) {
            if !is_last_state(machine, next) {
                return false;
            }
        }
    }
    true
}

/// Whether no symbol leads on from the state, nor the end of the text.
fn is_last_state(machine: TailoredMachineBorrowed<'_>, state: State) -> bool
    requires { state < length (machine_of machine).states }
    ensures { IsTrue result ↔ IsLastState (machine_of machine.entry) state }
{
    machine.facts();
    let states = machine.machine().states().len();
    let transitions = machine.machine().transitions();
    for symbol in 0..transitions.len() / states {
        if transitions[state as usize + symbol * states] != SegmenterStateMachine::TRASH_STATE {
            return false;
        }
    }
    true
}
