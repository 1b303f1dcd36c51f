//! Lines of texts: where they may be broken, and where they must be.
#![tactic(auto)]

mod boundaries;
mod finder;
mod joined;
pub mod laws;
pub mod line;
mod memo;
mod neo_lines;
pub mod provider;
mod unmarked;
