//! A segmenter of any kind over Unicode's data or by a caller's rules, and what it says of texts in each encoding: what a slot of the library for
//! C holds.
//!
//! In specs/, Finders says what a segmenter finds boundaries by; Wrapped how lines are wrapped; Loaded, Abbreviated, Columns and ByRules what
//! changes or makes one.
#![tactic(auto)]

pub mod abbreviations;
pub mod balanced;
mod buffers;
pub mod columns;
pub mod dictionary;
pub mod laws;
pub mod request;
pub mod rules;
pub mod segmenter;
pub mod texts;
pub mod wrapped;
