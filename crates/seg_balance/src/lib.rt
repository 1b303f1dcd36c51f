//! Lines of a text, balanced: of all the lines that have room in so many columns, those whose right edge is the least ragged.
//!
//! In specs/, Balanced says which lines these are; Choice how they are found.
#![tactic(auto)]

pub mod balance;
