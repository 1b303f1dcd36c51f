//! Pair tables and their overrides, checked where they are made, and their engine: a text's boundaries by the pairs of its classes.
#![tactic(auto)]

pub mod elements;
pub mod laws;
pub mod pair_data;
pub mod provider;
pub mod rule_segmenter_v1;
pub mod runs;
pub mod verdicts;
pub mod walk;
