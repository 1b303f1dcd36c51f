//! The states of the machine: what of the text before a place the rules of UAX #29 may still ask for. After each character of a
//! name may stand what WB4 skips; ZWJ is named where it stands last.

use crate::states::Entry;
use seg_machine::provider::{Acceptance, SegmenterStateMachine, State};

/// Nothing was read of the word.
pub(crate) const START: State = 0;

/// Nothing that the rules ask for.
pub(crate) const PLAIN: State = 1;

/// CR, after which LF alone goes on.
pub(crate) const CR: State = 2;

/// LF or Newline, after which nothing goes on.
pub(crate) const NEWLINE: State = 3;

/// WSegSpace.
pub(crate) const SPACE: State = 4;

/// ZWJ, and nothing else that the rules ask for.
pub(crate) const ZWJ: State = 5;

/// ALetter.
pub(crate) const LETTER: State = 6;

/// ALetter ZWJ.
pub(crate) const LETTER_ZWJ: State = 7;

/// Hebrew_Letter.
pub(crate) const HEBREW: State = 8;

/// Hebrew_Letter ZWJ.
pub(crate) const HEBREW_ZWJ: State = 9;

/// Numeric.
pub(crate) const NUMBER: State = 10;

/// Numeric ZWJ.
pub(crate) const NUMBER_ZWJ: State = 11;

/// Katakana.
pub(crate) const KATAKANA: State = 12;

/// Katakana ZWJ.
pub(crate) const KATAKANA_ZWJ: State = 13;

/// ExtendNumLet.
pub(crate) const EXTEND_NUM_LET: State = 14;

/// ExtendNumLet ZWJ.
pub(crate) const EXTEND_NUM_LET_ZWJ: State = 15;

/// Hebrew_Letter Single_Quote, after which a letter goes on.
pub(crate) const HEBREW_QUOTE: State = 16;

/// Hebrew_Letter Single_Quote ZWJ.
pub(crate) const HEBREW_QUOTE_ZWJ: State = 17;

/// An odd number of regional indicators.
pub(crate) const HALF_FLAG: State = 18;

/// An odd number of regional indicators, and ZWJ.
pub(crate) const HALF_FLAG_ZWJ: State = 19;

/// A letter and what may stand between two. The word ends before that, unless a letter comes.
pub(crate) const WAIT_LETTER: State = 20;

/// Hebrew_Letter Double_Quote. The word ends before the quotation mark, unless Hebrew_Letter comes.
pub(crate) const WAIT_HEBREW: State = 21;

/// Numeric and what may stand between two. The word ends before that, unless Numeric comes.
pub(crate) const WAIT_NUMBER: State = 22;

/// No state: there is a boundary before the symbol, or before the wait.
pub(crate) const NONE: State = SegmenterStateMachine::TRASH_STATE;

const GOES_ON: Entry = (Acceptance::Continue, None);

const ENDS_HERE: Entry = (Acceptance::Accept(0), None);

/// What each state accepts: a word may end after anything, but not while it waits.
#[rattlefmt::skip]
pub(crate) static STATES: [Entry; 23] = [
    GOES_ON, ENDS_HERE, ENDS_HERE, ENDS_HERE, ENDS_HERE, ENDS_HERE, ENDS_HERE, ENDS_HERE,
    ENDS_HERE, ENDS_HERE, ENDS_HERE, ENDS_HERE, ENDS_HERE, ENDS_HERE, ENDS_HERE, ENDS_HERE,
    ENDS_HERE, ENDS_HERE, ENDS_HERE, ENDS_HERE, GOES_ON, GOES_ON, GOES_ON,
];
