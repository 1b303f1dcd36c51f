//! The states of the machine: what of the text before a place the rules of UAX #29 may still ask for.

use seg_machine::provider::{Acceptance, Lookahead, SegmenterStateMachine, State};

/// What a state accepts, and the lookahead that it names.
pub(crate) type Entry = (Acceptance, Option<Lookahead>);

/// Nothing was read of the cluster.
pub(crate) const START: State = 0;

/// Nothing that the rules ask for.
pub(crate) const PLAIN: State = 1;

/// CR, after which LF alone goes on.
pub(crate) const CR: State = 2;

/// A control or LF, after which nothing goes on.
pub(crate) const CONTROL: State = 3;

/// Linker Extend*.
pub(crate) const LINKER: State = 4;

/// An odd number of regional indicators.
pub(crate) const HALF_FLAG: State = 5;

/// Prepend.
pub(crate) const PREPEND: State = 6;

/// L of Hangul.
pub(crate) const LEADING: State = 7;

/// LV or V of Hangul.
pub(crate) const VOWEL: State = 8;

/// LVT or T of Hangul.
pub(crate) const TRAILING: State = 9;

/// Extended_Pictographic Extend*.
pub(crate) const EMOJI: State = 10;

/// Extended_Pictographic Extend*, of which a part is Linker Extend*.
pub(crate) const EMOJI_LINKER: State = 11;

/// Extended_Pictographic Extend* ZWJ.
pub(crate) const JOINER: State = 12;

/// Extended_Pictographic Extend* ZWJ, of which a part is Linker Extend*.
pub(crate) const JOINER_LINKER: State = 13;

/// No state: there is a boundary before the symbol.
pub(crate) const NONE: State = SegmenterStateMachine::TRASH_STATE;

const GOES_ON: Entry = (Acceptance::Continue, None);

const ENDS_HERE: Entry = (Acceptance::Accept(0), None);

/// What each state accepts: a cluster may end after anything.
#[rattlefmt::skip]
pub(crate) static STATES: [Entry; 14] = [
    GOES_ON, ENDS_HERE, ENDS_HERE, ENDS_HERE, ENDS_HERE, ENDS_HERE, ENDS_HERE,
    ENDS_HERE, ENDS_HERE, ENDS_HERE, ENDS_HERE, ENDS_HERE, ENDS_HERE, ENDS_HERE,
];
