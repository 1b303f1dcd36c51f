//! The rules of lines, LB4 to LB31 of UAX #14, as rows.
// Written by generate/generate.py. Do not edit.

use seg_rules::rules::Count::{One, Pairs, Star};
use seg_rules::rules::{Row, Rules};

/// How many symbols there are beside the end of a text.
pub(crate) const SYMBOLS: usize = 72;

/// The properties of each symbol; 0 is the edge of a text.
#[rattlefmt::skip]
pub(crate) static NAMES: [&str; 73] = [
    "Unknown, Edge", "Alphabetic", "Aksara", "Alphabetic, East Asian", "Alphabetic, Unassigned", "Alphabetic, Dotted",
    "AksaraPrebase", "AksaraStart", "BreakBoth", "BreakAfter", "BreakAfter, East Asian", "BreakAfter, Loose",
    "BreakBefore", "MandatoryBreak", "ContingentBreak", "ClosePunctuation", "ClosePunctuation, East Asian",
    "CombiningMark", "CloseParenthesis", "CarriageReturn", "EBase", "EBase, East Asian", "EModifier, East Asian",
    "Exclamation", "Exclamation, East Asian", "Glue", "Glue, East Asian", "H2, East Asian", "H3, East Asian",
    "UnambiguousHyphen", "UnambiguousHyphen, Loose", "HebrewLetter", "Hyphen", "Ideographic",
    "Ideographic, East Asian", "Ideographic, Unassigned", "Ideographic, Kept", "Ideographic, East Asian, Kept",
    "Inseparable", "Inseparable, East Asian", "Inseparable, Loose", "Inseparable, East Asian, Loose", "InfixNumeric",
    "Jl, East Asian", "Jt", "Jv", "LineFeed", "NextLine", "Nonstarter", "Nonstarter, East Asian",
    "Nonstarter, East Asian, Kept", "Numeric", "OpenPunctuation", "OpenPunctuation, East Asian", "PostfixNumeric",
    "PostfixNumeric, East Asian", "PostfixNumeric, Loose", "PostfixNumeric, East Asian, Loose", "PrefixNumeric",
    "PrefixNumeric, East Asian", "PrefixNumeric, Loose", "PrefixNumeric, East Asian, Loose", "Quotation",
    "Quotation, Opening", "Quotation, Closing", "RegionalIndicator", "Space", "BreakSymbols", "ViramaFinal", "Virama",
    "WordJoiner", "ZWSpace", "Zwj",
];

/// The rules. A function that asks here isn't proved over all of them.
pub(crate) fn rules() -> &'static Rules<'static> {
    &RULES
}

#[rattlefmt::skip]
static RULES: Rules<'static> = Rules {
    above: &[
        Row { left: &[(0x2000, One)], right: &[], verdict: 2 },
        Row { left: &[(0x80000, One)], right: &[(0x400000000000, One)], verdict: 0 },
        Row { left: &[(0xc00000080000, One)], right: &[], verdict: 2 },
        Row { left: &[], right: &[(0xc00000082000, One)], verdict: 0 },
        Row { left: &[], right: &[(0x840000000000000000, One)], verdict: 0 },
        Row { left: &[(0x800000000000000000, One), (0x40000000000000000, Star)], right: &[], verdict: 1 },
        Row { left: &[(0x1000000000000000000, One)], right: &[], verdict: 0 },
    ],
    below: &[
        Row { left: &[], right: &[(0x400000000000000000, One)], verdict: 0 },
        Row { left: &[(0x400000000000000000, One)], right: &[], verdict: 0 },
        Row { left: &[(0x6000000, One)], right: &[], verdict: 0 },
        Row { left: &[(0x1fbfffffffe9ffff1fe, One)], right: &[(0x6000000, One)], verdict: 0 },
        Row { left: &[], right: &[(0x80000000001858000, One)], verdict: 0 },
        Row { left: &[(0x30000000000000, One), (0x40000000000000000, Star)], right: &[], verdict: 0 },
        Row { left: &[(0x85c030c00006082001, One), (0x8000000000000000, One), (0x40000000000000000, Star)], right: &[], verdict: 0 },
        Row { left: &[], right: &[(0x10000000000000000, One), (0xcdc000c400078da001, One)], verdict: 0 },
        Row { left: &[(0x40000000000000000, One)], right: &[(0x40000000000, One), (0x8000000000000, One)], verdict: 1 },
        Row { left: &[], right: &[(0x40000000000, One)], verdict: 0 },
        Row { left: &[(0x58000, One), (0x40000000000000000, Star)], right: &[(0x7000000000000, One)], verdict: 0 },
        Row { left: &[(0x100, One), (0x40000000000000000, Star)], right: &[(0x100, One)], verdict: 0 },
        Row { left: &[(0x40000000000000000, One)], right: &[], verdict: 1 },
        Row { left: &[], right: &[(0x14000000000000000, One)], verdict: 0 },
        Row { left: &[(0xc000000000000000, One)], right: &[], verdict: 0 },
        Row { left: &[(0x1ffd559f55be29efbf6, One)], right: &[(0x1c000000000000000, One)], verdict: 0 },
        Row { left: &[], right: &[(0x1c000000000000000, One), (0x1ffd559f55be29efbf7, One)], verdict: 0 },
        Row { left: &[(0x1c000000000000000, One)], right: &[(0x1ffd559f55be29efbf6, One)], verdict: 0 },
        Row { left: &[(0x1ffd559f55be29efbf7, One), (0x1c000000000000000, One)], right: &[], verdict: 0 },
        Row { left: &[], right: &[(0x4000, One)], verdict: 1 },
        Row { left: &[(0x4000, One)], right: &[], verdict: 1 },
        Row { left: &[(0x840000c00006086001, One), (0x120000000, One)], right: &[(0x8000003a, One)], verdict: 0 },
        Row { left: &[(0x3e00000000, One)], right: &[(0x40000800, One)], verdict: 1 },
        Row { left: &[], right: &[(0x7000160000e00, One)], verdict: 0 },
        Row { left: &[(0x1000, One)], right: &[], verdict: 0 },
        Row { left: &[(0x80000000, One), (0x160000000, One)], right: &[(0x1ffffffffff7ffffffe, One)], verdict: 0 },
        Row { left: &[(0x80000000000000000, One)], right: &[(0x80000000, One)], verdict: 0 },
        Row { left: &[(0x30000000000, One)], right: &[(0x30000000000, One)], verdict: 1 },
        Row { left: &[], right: &[(0x3c000000000, One)], verdict: 0 },
        Row { left: &[], right: &[(0x300000000000000, One)], verdict: 1 },
        Row { left: &[(0x3000000000000000, One)], right: &[], verdict: 1 },
        Row { left: &[(0x800308000003a, One)], right: &[(0x3000000000, One)], verdict: 0 },
        Row { left: &[(0x4003000000000, One)], right: &[(0x800308000003a, One)], verdict: 0 },
        Row { left: &[(0x8000003a, One)], right: &[(0x8000000000000, One)], verdict: 0 },
        Row { left: &[(0x8000000000000, One)], right: &[(0x8000003a, One)], verdict: 0 },
        Row { left: &[(0x3c00000000000000, One)], right: &[(0x3e00700000, One)], verdict: 0 },
        Row { left: &[(0x3e00700000, One)], right: &[(0x3c0000000000000, One)], verdict: 0 },
        Row { left: &[(0x3fc0000000000000, One)], right: &[(0x8000003a, One)], verdict: 0 },
        Row { left: &[(0x8000003a, One)], right: &[(0x3fc0000000000000, One)], verdict: 0 },
        Row { left: &[(0x8000000000000, One), (0x80000040000000000, Star), (0x18000, One)], right: &[(0x3c0000000000000, One)], verdict: 0 },
        Row { left: &[(0x8000000000000, One), (0x80000040000000000, Star), (0x40000, One)], right: &[(0x3c0000000000000, One)], verdict: 0 },
        Row { left: &[(0x8000000000000, One), (0x80000040000000000, Star), (0x18000, One)], right: &[(0x3c00000000000000, One)], verdict: 0 },
        Row { left: &[(0x8000000000000, One), (0x80000040000000000, Star), (0x40000, One)], right: &[(0x3c00000000000000, One)], verdict: 0 },
        Row { left: &[(0x8000000000000, One), (0x80000040000000000, Star)], right: &[(0x3c0000000000000, One)], verdict: 0 },
        Row { left: &[(0x8000000000000, One), (0x80000040000000000, Star)], right: &[(0x3c00000000000000, One)], verdict: 0 },
        Row { left: &[(0x3c0000000000000, One)], right: &[(0x30000000000000, One), (0x8000000000000, One)], verdict: 0 },
        Row { left: &[(0x3c0000000000000, One)], right: &[(0x30000000000000, One), (0x40000000000, One), (0x8000000000000, One)], verdict: 0 },
        Row { left: &[(0x3c0000000000000, One)], right: &[(0x8000000000000, One)], verdict: 0 },
        Row { left: &[(0x3c00000000000000, One)], right: &[(0x30000000000000, One), (0x8000000000000, One)], verdict: 0 },
        Row { left: &[(0x3c00000000000000, One)], right: &[(0x30000000000000, One), (0x40000000000, One), (0x8000000000000, One)], verdict: 0 },
        Row { left: &[(0x3c00000000000000, One)], right: &[(0x8000000000000, One)], verdict: 0 },
        Row { left: &[(0x100000000, One)], right: &[(0x8000000000000, One)], verdict: 0 },
        Row { left: &[(0x40000000000, One)], right: &[(0x8000000000000, One)], verdict: 0 },
        Row { left: &[(0x8000000000000, One), (0x80000040000000000, Star)], right: &[(0x8000000000000, One)], verdict: 0 },
        Row { left: &[(0x80000000000, One)], right: &[(0x280018000000, One)], verdict: 0 },
        Row { left: &[(0x200008000000, One)], right: &[(0x300000000000, One)], verdict: 0 },
        Row { left: &[(0x100010000000, One)], right: &[(0x100000000000, One)], verdict: 0 },
        Row { left: &[(0x380018000000, One)], right: &[(0x3c0000000000000, One)], verdict: 0 },
        Row { left: &[(0x3c00000000000000, One)], right: &[(0x380018000000, One)], verdict: 0 },
        Row { left: &[(0x8000003a, One)], right: &[(0x8000003a, One)], verdict: 0 },
        Row { left: &[(0x40, One)], right: &[(0xa4, One)], verdict: 0 },
        Row { left: &[(0xa4, One)], right: &[(0x300000000000000000, One)], verdict: 0 },
        Row { left: &[(0xa4, One), (0x200000000000000000, One)], right: &[(0x24, One)], verdict: 0 },
        Row { left: &[(0xa4, One)], right: &[(0xa4, One), (0x100000000000000000, One)], verdict: 0 },
        Row { left: &[(0x40000000000, One)], right: &[(0x8000003a, One)], verdict: 0 },
        Row { left: &[(0x800008000003a, One)], right: &[(0x10000000000000, One)], verdict: 0 },
        Row { left: &[(0x40000, One)], right: &[(0x800008000003a, One)], verdict: 0 },
        Row { left: &[(0x1, One), (0x20000000000000000, Pairs), (0x20000000000000000, One)], right: &[(0x20000000000000000, One)], verdict: 0 },
        Row { left: &[(0x1fdfffffffffffffffe, One), (0x20000000000000000, Pairs), (0x20000000000000000, One)], right: &[(0x20000000000000000, One)], verdict: 0 },
        Row { left: &[(0x300000, One)], right: &[(0x400000, One)], verdict: 0 },
        Row { left: &[(0x800000010, One)], right: &[(0x400000, One)], verdict: 0 },
        Row { left: &[], right: &[], verdict: 1 },
    ],
    has_marks: true,
    marks: 0x1000000000000020000,
    bare: 0x840000c00000082000,
    alone: 1,
    at_end: 1,
};
