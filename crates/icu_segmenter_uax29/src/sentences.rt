//! Sentences: the parts of their machine.

mod machine;
mod ranges;
mod states;
mod symbols;
mod transitions;

pub use machine::sentence_machine;
