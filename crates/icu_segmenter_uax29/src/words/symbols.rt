//! The symbols of the machine: the values of Word_Break, with Extended_Pictographic, as far as code points have them. Symbol 0 is
//! the end of the text.

use seg_machine::provider::Symbol;

/// None of the others.
pub(crate) const OTHER: Symbol = 1;

/// The carriage return.
pub(crate) const CR: Symbol = 2;

/// The line feed.
pub(crate) const LF: Symbol = 3;

/// Another end of lines.
pub(crate) const NEWLINE: Symbol = 4;

/// What extends a character.
pub(crate) const EXTEND: Symbol = 5;

/// The zero width joiner.
pub(crate) const ZWJ: Symbol = 6;

/// A control of formats.
pub(crate) const FORMAT: Symbol = 7;

/// A regional indicator: half a flag.
pub(crate) const REGIONAL_INDICATOR: Symbol = 8;

/// Katakana.
pub(crate) const KATAKANA: Symbol = 9;

/// A Hebrew letter.
pub(crate) const HEBREW_LETTER: Symbol = 10;

/// Another letter of words.
pub(crate) const A_LETTER: Symbol = 11;

/// The apostrophe.
pub(crate) const SINGLE_QUOTE: Symbol = 12;

/// The quotation mark.
pub(crate) const DOUBLE_QUOTE: Symbol = 13;

/// What may stand between two letters, or between two digits.
pub(crate) const MID_NUM_LET: Symbol = 14;

/// What may stand between two letters.
pub(crate) const MID_LETTER: Symbol = 15;

/// What may stand between two digits.
pub(crate) const MID_NUM: Symbol = 16;

/// A digit.
pub(crate) const NUMERIC: Symbol = 17;

/// What joins words, as the low line.
pub(crate) const EXTEND_NUM_LET: Symbol = 18;

/// A space, of which several stay together.
pub(crate) const W_SEG_SPACE: Symbol = 19;

/// An Extended_Pictographic that is none of the others.
pub(crate) const PICTOGRAPH: Symbol = 20;

/// An Extended_Pictographic that is a letter.
pub(crate) const LETTER_PICTOGRAPH: Symbol = 21;
