//! Rules of boundaries as text, in the notation of the standard's tables: `TextRules`.
//!
//! A text has a line for each symbol, then one for each rule. Blanks and lines without anything else are skipped, and so is what follows
//! a `#` outside of brackets.
//!
//! - `Letter = \p{Alphabetic} - \p{Ideographic}` names a symbol by its set of code points. Terms are joined from left to right, by `+`
//!   for what is in either and `-` for what is in the first alone. A term is `\p{..}` with a property or with a property and its
//!   value, as `\p{gc=Lu}`, `[..]`, `U+2014`, `U+2010..U+2015`, or the name of a set above. Code points in no set have the symbol `other`.
//! - In brackets stand characters and `a..z` or `U+0041..U+005A`; blanks part them. A `\` makes the sign or blank after it a plain one: it
//!   is needed for `\]`, `\\`, a blank, two dots, and a `U+` before a digit.
//! - `Letter (Comma | Dot)? × Digit` joins what stands before a place to what comes after it; `÷` parts them, and `!` parts them with
//!   status 1. The first rule decides whose sides both fit. `a*` is any number of a, `a?` at most one, `(a a)*` an even number, and
//!   `[^ a b]` any symbol but these. `sot` and `eot` are the start of the text and its end.
//! - `÷ eot` and `! eot` give the end's own status, 0 or 1; it is 0 if neither stands there.
//! - `X (a | b)* treated as X, but after c d; alone as e` parts the rules above, over single symbols, from those below, which read a
//!   symbol with the marks a and b behind it as one. Marks at the start, and after c and d, are read as e there.
//! - The last rule is `×`, `÷` or `!` alone.
#![tactic(auto)]

mod fault;
mod given;
mod line;
mod merge;
mod points;
mod rows;
mod sets;
mod symbols;
pub mod text_rules;

pub use fault::{Fault, TextError};
pub use text_rules::TextRules;
