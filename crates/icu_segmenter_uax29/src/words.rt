//! Words: the parts of their machines, without types and with them.

mod machine;
mod ranges;
mod states;
mod symbols;
mod transitions;
mod typed;

pub use machine::word_machine;
pub use typed::typed_word_machine;
