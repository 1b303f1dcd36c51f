//! Where words may be hyphenated, by Liang's patterns, which are read from a text.
//!
//! In specs/, Liang says what patterns mean, Texts what a text of them says, and Words where the words of a text have points; Tries and
//! Values say how places are found.
#![tactic(auto)]

pub mod fault;
pub mod laws;
mod lines;
pub mod patterns;
mod places;
mod reading;
mod trie;
mod values;
mod words;
