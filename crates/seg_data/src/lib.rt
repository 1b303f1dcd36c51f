//! Tables that give code points their classes, languages, the faults of data, and sets of words with what can follow in them.
#![tactic(auto)]

pub mod dictionaries;
pub mod laws;
pub mod named_values;
pub mod provider;
pub mod words;
