//! The symbols of the machine: the values of Sentence_Break. Symbol 0 is the end of the text.

use seg_machine::provider::Symbol;

/// None of the others.
pub(crate) const OTHER: Symbol = 1;

/// The carriage return.
pub(crate) const CR: Symbol = 2;

/// The line feed.
pub(crate) const LF: Symbol = 3;

/// Another separator of paragraphs.
pub(crate) const SEP: Symbol = 4;

/// What extends a character.
pub(crate) const EXTEND: Symbol = 5;

/// A control of formats.
pub(crate) const FORMAT: Symbol = 6;

/// A space.
pub(crate) const SP: Symbol = 7;

/// A lower-case letter.
pub(crate) const LOWER: Symbol = 8;

/// An upper-case letter, or one of titles.
pub(crate) const UPPER: Symbol = 9;

/// A letter that has no case.
pub(crate) const O_LETTER: Symbol = 10;

/// A digit.
pub(crate) const NUMERIC: Symbol = 11;

/// A full stop, which ends a sentence or an abbreviation.
pub(crate) const A_TERM: Symbol = 12;

/// What ends a sentence and nothing else.
pub(crate) const S_TERM: Symbol = 13;

/// A bracket or a quotation mark.
pub(crate) const CLOSE: Symbol = 14;

/// What a sentence goes on after: a comma, a colon, a dash.
pub(crate) const S_CONTINUE: Symbol = 15;
