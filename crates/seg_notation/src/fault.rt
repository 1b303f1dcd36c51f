//! What is wrong with a text, and where: for callers of `TextRules`, and within this crate.

use std::alloc::{AllocError, AllocFailed};
use std::fmt::{self, Debug, Display, Formatter};
use thiserror::Error;

/// Why a text gives no rules.
#[derive(Clone, Copy, Debug, PartialEq, Error)]
#[error("line {line}, column {column}: {fault}")]
pub struct TextError {
    /// The number of the line, from 1 on.
    pub line: usize,
    /// Where the wrong word or sign begins in that line, in characters, from 1 on. Where something is missing at the end of the line, this
    /// is the column behind its last character that is no blank. `NoRules` and `NoLastRule`, which are faults of the whole text, have 1,
    /// and `Memory` has any column of the line that was read.
    pub column: usize,
    /// What is wrong there.
    pub fault: Fault,
}

impl TextError {
    /// The word that is wrong: what stands at this line and column of the text that was read, up to a blank or the end of the line. It is
    /// empty where something is missing at the end of the line, for `NoRules`, `NoLastRule` and `Memory`, which are no word's fault, and in
    /// another text that has no such place.
    pub fn word_in<'t>(&self, text: &'t str) -> &'t str {
        if matches!(
            self.fault,
            Fault::NoRules | Fault::NoLastRule | Fault::Memory
        ) {
            return "";
        }
        let line = self.line.saturating_sub(1);
        match text.split('\n').nth(line) {
            Some(line) => word_at(line, self.column),
            None => "",
        }
    }
}

// What stands at a column of a line up to a blank.
fn word_at(line: &str, column: usize) -> &str {
    let mut characters = line.chars();
    for _ in 1..column {
        characters.next();
    }
    let rest = characters.as_str();
    match rest.find([' ', '\t', '\r']) {
        Some(len) => &rest[..len],
        None => rest,
    }
}

/// What is wrong at a line, by what was wanted there.
#[derive(Clone, Copy, PartialEq, Error)]
pub enum Fault {
    /// The text has no rules.
    #[error("wanted rules, and the text has none")]
    NoRules,
    /// The last rule has something beside its sign.
    #[error("wanted a last rule that decides all else: ×, ÷ or ! alone")]
    NoLastRule,
    /// A set stands after a rule.
    #[error("wanted a rule: sets stand above the first rule")]
    SetAfterRule,
    /// The set of the line given has the same name.
    #[error("wanted another name: it is that of the set of line {0}")]
    NameTwice(usize),
    /// The name means something else.
    #[error("wanted another name: X, other, sot and eot have a meaning of their own")]
    ReservedName,
    /// More than 126 sets, which with `other` are 127 symbols.
    #[error("wanted a rule: there are 126 sets already")]
    TooManySets,
    /// A code point that is also in the set of another line.
    #[error("wanted a set without U+{code_point:04X}, which is in that of line {line}")]
    SharedCodePoint {
        /// The lowest such code point.
        code_point: u32,
        /// The line of the other set.
        line: usize,
    },
    /// No term of a set.
    #[error("wanted \\p{{..}}, [..], U+.. or the name of a set above")]
    NoTerm,
    /// Something after a term of a set.
    #[error("wanted + or -, or the end of the line")]
    NoSign,
    /// More than 100 terms in a set.
    #[error("wanted the end of the line after 100 terms")]
    TooManyTerms,
    /// A property that isn't known.
    #[error("wanted the name of a property, general category or script")]
    UnknownProperty,
    /// A value that isn't known, of a property that is.
    #[error("wanted a value of this property")]
    UnknownValue,
    /// A property without its end.
    #[error("wanted a }} behind the property")]
    NoBrace,
    /// A bracket without its end.
    #[error("wanted a ]")]
    NoBracket,
    /// A bracket with nothing in it: a space only separates.
    #[error("wanted a character or U+.. before ]; a space needs a \\ before it")]
    EmptyBracket,
    /// A letter or a digit after a backslash, which would mean itself; that of `U+` alone may stand there.
    #[error("wanted a sign or a space after \\: a line feed is U+000A")]
    EscapedLetter,
    /// No character where a range begins or ends.
    #[error("wanted a character or U+.. on both sides of two dots")]
    NoCharacter,
    /// A number above 10FFFF.
    #[error("wanted a number up to 10FFFF")]
    NoCodePoint,
    /// A range whose end lies before its start.
    #[error("wanted a range whose end is no less than its start")]
    BackwardRange,
    /// A rule without its sign.
    #[error("wanted ×, ÷ or !")]
    NoVerdict,
    /// A second sign.
    #[error("wanted the end of the line or a symbol: a rule has one of ×, ÷ and !")]
    SecondVerdict,
    /// Something that is no symbol.
    #[error("wanted the name of a symbol, ( or [^")]
    NoSymbol,
    /// A name that isn't known.
    #[error("wanted the name of a set above, or other")]
    UnknownName,
    /// The start of the text on the right, its end on the left, or one of them among marks.
    #[error("wanted a symbol: sot stands on the left alone, and eot on the right")]
    OtherEdge,
    /// A group without its end.
    #[error("wanted | or )")]
    NoParenthesis,
    /// A group of two symbols that aren't the same, or that doesn't repeat them.
    #[error("wanted | or ), or one symbol twice as in (a a)*; two in turn stand in a row of their own, as Back × Quote")]
    NoPairs,
    /// `*` or `?` without anything before it.
    #[error("wanted a symbol before * or ?")]
    NothingToRepeat,
    /// The outermost symbol of a side may be left out, so that it decides nothing.
    #[error("wanted a symbol beyond that with * or ?, which decides nothing at the end of a side")]
    NothingBeyond,
    /// More than 7 symbols and groups on a side.
    #[error("wanted at most 7 symbols and groups on a side")]
    TooManyItems,
    /// More than 255 rules above, or below, that of marks.
    #[error("wanted at most 255 rules above that of marks, and below it")]
    TooManyRules,
    /// The end of the text joined.
    #[error("wanted ÷ or ! before eot: the end of a text is a boundary")]
    JoinedEnd,
    /// A second rule of marks.
    #[error("wanted one rule of marks")]
    SecondMarks,
    /// A rule of marks in another form.
    #[error("wanted X (a | b)* treated as X, but after c d; alone as e")]
    NoMarks,
    /// Out of memory.
    #[error("out of memory")]
    Memory,
}

// The message: a derived one is proved variant by variant, for half a minute.
impl Debug for Fault {
    fn fmt<W: fmt::Write>(&self, f: &mut Formatter<W>) -> fmt::Result {
        Display::fmt(self, f)
    }
}

impl From<AllocError> for Fault {
    fn from(_error: AllocError) -> Fault {
        Fault::Memory
    }
}

impl<T: Drop> From<AllocFailed<T>> for Fault {
    fn from(_error: AllocFailed<T>) -> Fault {
        Fault::Memory
    }
}
