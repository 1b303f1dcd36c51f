//! The boundaries of lines by the rules of the engine 17: turns, each from an item with its marks.
#![tactic(auto)]

mod bases;
pub mod boundaries;
mod classes;
pub mod engine_17;
pub mod laws;
pub mod turn_events;
pub mod turn_units;
pub mod turn_walk;
mod turns;
