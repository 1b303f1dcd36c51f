//! What all segmenters share, boundaries of texts by the rules of a pair table or of a state machine; the segmenters of grapheme
//! clusters and of sentences; and runs of scripts without spaces between words, cut into pieces of one script, and pieces cut by words.
#![tactic(auto)]

pub mod complex;
pub mod dictionaries;
pub mod engine;
pub mod grapheme;
pub mod inner;
mod later;
pub mod laws;
mod resets;
pub mod runs;
pub mod script_iter;
pub mod sentence;
pub mod spans;
