//! What stands between the boundaries of a text, a cursor that moves from boundary to boundary, and boundaries of sentences that abbreviations take back.
#![tactic(auto)]

pub mod cursor;
pub mod segments;
pub mod suppress;
