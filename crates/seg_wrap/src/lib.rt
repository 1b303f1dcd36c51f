//! Lines of texts, wrapped to columns.
#![tactic(auto)]

pub mod laws;
pub mod wrap;
