//! Rules of boundaries as data, and a check that a machine finds their places.
#![tactic(auto)]

mod befores;
pub mod certificate;
pub mod check;
mod dues;
mod flow;
pub mod laws;
mod relation;
pub mod rules;
mod tables;
