//! State machines and their tailorings, each checked once, where it is made.
ghost use Rattle.std.specs.Prelude.{◌≡◌};
ghost use Rattle.seg_machine.specs.Scan.{HasByte, acceptance_of, byte_of};

mod checks;
mod cycles;
pub(crate) mod found;
mod machine;
mod marks;
mod stalls;
mod tailoring;
mod transitions;

pub use machine::SegmenterStateMachine;
pub use marks::CONTINUES;
pub use tailoring::SegmenterStateMachineOverride;

/// A state of a machine: its place in the list of states, from 0 on.
pub type State = u8;

/// A symbol of a machine: what its transitions are for. Symbol 0 is the end of the text.
pub type Symbol = u8;

/// A lookahead of a machine, from 0 on.
pub type Lookahead = u8;

/// What a state accepts.
#[derive(Clone, Copy, Debug, PartialEq)]
pub enum Acceptance {
    /// Nothing: the scan goes on.
    Continue,
    /// The text up to here is a segment, with this status, unless a longer one is accepted.
    Accept(u8),
    /// Where a state before has named this lookahead, the text up to the last such state is the
    /// segment, with this status.
    Conditional(Lookahead, u8),
}

impl Acceptance {
    /// What a byte means. Its high five bits are a condition's lookahead, or 31 for none, and
    /// its low three are the status, where 7 with no lookahead is `Continue`.
    pub fn from_unaligned(byte: u8) -> Self
        ensures value { result ≡ acceptance_of byte }
        ensures fits { HasByte result }
        ensures back { byte_of result ≡ byte }
    {
        let lookahead = byte >> 3;
        let status = byte & 7;
        if lookahead != 31 {
            Acceptance::Conditional(lookahead, status)
        } else if status != 7 {
            Acceptance::Accept(status)
        } else {
            Acceptance::Continue
        }
    }

    /// The byte that means this: it has a status below 7 where it accepts, and for a
    /// condition a lookahead below 31 and a status below 8.
    pub fn to_unaligned(self) -> u8
        requires { HasByte self }
        ensures value { result ≡ byte_of self }
        ensures back { acceptance_of result ≡ self }
    {
        match self {
            Acceptance::Continue => 255,
            Acceptance::Accept(status) => 248 + status,
            Acceptance::Conditional(lookahead, status) => lookahead * 8 + status,
        }
    }
}
