//! The segmenters of words (UAX #29), and their boundaries by either engine.
#![tactic(auto)]

mod boundaries;
mod classic;
mod data;
pub mod laws;
mod neo;
mod prefix;
mod span;
pub mod word;
