//! Sample data, written by hand: machines, pair tables, tailorings and dictionaries for tests, examples and the programs; and
//! segmenters of any kind, for programs that ask all kinds the same.
//!
//! This is no benchmark (crates/speed measures), and no claim is made that the data agree with UAX #14 or UAX #29.
#![tactic(auto)]

pub mod clusters;
pub mod dictionaries;
pub mod found;
pub mod line_tables;
pub mod lines;
mod machines;
pub mod pair_tables;
pub mod segmenter;
pub mod sentences;
pub mod turn_tables;
pub mod words;
