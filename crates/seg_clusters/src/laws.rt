//! Laws of boundaries and cuts, for the proofs of callers.

pub mod complex;
pub mod engine;
pub mod grapheme;
pub mod sentence;
