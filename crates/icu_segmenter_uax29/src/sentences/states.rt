//! The states of the machine: what of the text before a place the rules of UAX #29 may still ask for. After each character of a
//! name may stand what extends it or formats, which SB5 skips.

use crate::states::Entry;
use seg_machine::provider::{Acceptance, SegmenterStateMachine, State};

/// Nothing was read of the sentence.
pub(crate) const START: State = 0;

/// Nothing that the rules ask for.
pub(crate) const PLAIN: State = 1;

/// CR, after which LF alone goes on.
pub(crate) const CR: State = 2;

/// LF or Sep, after which nothing goes on.
pub(crate) const PARA_SEP: State = 3;

/// Upper or Lower.
pub(crate) const CASED: State = 4;

/// STerm Close*.
pub(crate) const TERM: State = 5;

/// STerm Close* Sp+.
pub(crate) const TERM_SPACE: State = 6;

/// ATerm.
pub(crate) const STOP: State = 7;

/// (Upper | Lower) ATerm.
pub(crate) const CASED_STOP: State = 8;

/// ATerm Close+.
pub(crate) const STOP_CLOSE: State = 9;

/// ATerm Close* Sp+.
pub(crate) const STOP_SPACE: State = 10;

/// ATerm Close* Sp*, and then what SB8 reads on its way to Lower. The sentence ends before it, unless Lower comes.
pub(crate) const WAIT: State = 11;

/// No state: there is a boundary before the symbol, or before the wait.
pub(crate) const NONE: State = SegmenterStateMachine::TRASH_STATE;

const GOES_ON: Entry = (Acceptance::Continue, None);

const ENDS_HERE: Entry = (Acceptance::Accept(0), None);

/// What each state accepts: a sentence may end after anything, but not while it waits.
#[rattlefmt::skip]
pub(crate) static STATES: [Entry; 12] = [
    GOES_ON, ENDS_HERE, ENDS_HERE, ENDS_HERE, ENDS_HERE, ENDS_HERE, ENDS_HERE,
    ENDS_HERE, ENDS_HERE, ENDS_HERE, ENDS_HERE, GOES_ON,
];
