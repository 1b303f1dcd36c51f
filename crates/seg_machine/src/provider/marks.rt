//! What states do to a scan, in a byte each.
ghost use Rattle.std.specs.Prelude.{◌≤◌, length};
ghost use Rattle.seg_machine.specs.Scan.{AreMarks, IsMark};

use crate::provider::{Acceptance, Lookahead};

// How many marks there are, at least one for each state.
const MARK_COUNT: usize = 256;

/// The mark of a state that neither accepts nor names a lookahead. A mark below it is the status that a state accepts with which
/// names no lookahead.
pub const CONTINUES: u8 = 254;

/// The mark of any other state.
const OTHER: u8 = 255;

/// For each state its mark.
pub(super) type Marks = [u8; MARK_COUNT];

/// The marks of these states.
pub(super) fn marks_of(states: &[(Acceptance, Option<Lookahead>)]) -> Marks
    requires { length states.now ≤ 255 }
    ensures { AreMarks states.now result }
{
    let mut marks = [OTHER; MARK_COUNT];
    for state in 0..states.len() {
        marks[state] = mark_of(states[state]);
    }
    marks
}

// The mark of a state.
fn mark_of(state: (Acceptance, Option<Lookahead>)) -> u8
    ensures { IsMark state result }
{
    if state.1.is_some() {
        return OTHER;
    }
    match state.0 {
        Acceptance::Continue => CONTINUES,
        Acceptance::Accept(status) if status < CONTINUES => status,
        _ => OTHER,
    }
}
