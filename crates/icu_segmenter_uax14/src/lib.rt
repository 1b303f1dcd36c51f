//! Line breaking, proved to be that of UAX #14, revision 55, with the properties of Unicode 18.0.
//!
//! The rules are data: a row for each line of the standard (specs/LineRules.antt). The machine is arrays that
//! `generate/generate.py` writes, and that the segmenters of `icu_segmenter` read. Its states are those that the compiler of
//! rules finds (`line_generator`). The arrays aren't trusted: it is proved that the
//! symbol of every code point means its properties, and that the boundaries of the machine, and of each of its tailorings,
//! are for every text the places where the rules break.
#![tactic(auto)]

mod data;
pub mod laws;
mod machine;
mod parts;
mod states;

pub use machine::{line_machine, line_tailorings};
