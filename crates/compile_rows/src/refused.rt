//! Rules that have no machine which the check knows.

use seg_rules::rules::Count::{One, Optional};
use seg_rules::rules::{Row, Rules};

/// Words between brackets, of which the second joins only after an opening one: symbol 1 opens, 2 is a word, 3 closes.
#[rattlefmt::skip]
pub(crate) static NEEDS_PAST: Rules<'static> = Rules {
    above: &[
        Row { left: &[(2, One), (4, One)], right: &[], verdict: 1 },
        Row { left: &[(2, One), (4, One), (4, One)], right: &[(4, One)], verdict: 0 },
        Row { left: &[(2, One)], right: &[], verdict: 0 },
        Row { left: &[], right: &[(2, One)], verdict: 1 },
        Row { left: &[(4, One)], right: &[(8, One)], verdict: 0 },
        Row { left: &[], right: &[], verdict: 1 },
    ],
    below: &[],
    has_marks: false,
    marks: 0,
    bare: 0,
    alone: 0,
    at_end: 0,
};

/// Nothing joins unless three symbols come that are 1, 2 and 3, or the third.
#[rattlefmt::skip]
pub(crate) static TWO_UNDECIDED: Rules<'static> = Rules {
    above: &[
        Row { left: &[], right: &[(2, One), (4, One), (8, One)], verdict: 0 },
        Row { left: &[], right: &[(8, One)], verdict: 0 },
        Row { left: &[], right: &[], verdict: 1 },
    ],
    below: &[],
    has_marks: false,
    marks: 0,
    bare: 0,
    alone: 0,
    at_end: 0,
};

/// Names as `camelCase` and `HTTPServer`: symbol 1 is a small letter, 2 a capital one, 3 a digit, 4 the low line and 5 another.
#[rattlefmt::skip]
pub(crate) static TWO_LOOKAHEADS: Rules<'static> = Rules {
    above: &[
        Row { left: &[(0x10, One)], right: &[(0x10, One)], verdict: 0 },
        Row { left: &[(2, One)], right: &[(2, One)], verdict: 0 },
        Row { left: &[(4, One)], right: &[(2, One)], verdict: 0 },
        Row { left: &[(4, One)], right: &[(4, One), (4, One)], verdict: 0 },
        Row { left: &[(4, One)], right: &[(4, One), (0x39, One)], verdict: 0 },
        Row { left: &[(8, One)], right: &[(8, One)], verdict: 0 },
        Row { left: &[(6, One)], right: &[(8, One)], verdict: 0 },
        Row { left: &[(0x20, One)], right: &[(0x20, Optional), (0x20, One)], verdict: 0 },
        Row { left: &[], right: &[], verdict: 1 },
    ],
    below: &[],
    has_marks: false,
    marks: 0,
    bare: 0,
    alone: 0,
    at_end: 0,
};
