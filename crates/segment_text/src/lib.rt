//! Texts that are not cut: blocks of them as they are read, how large they are, tabs as spaces, lines that are joined to paragraphs, trimmed or
//! limited in number, counts of segments, escapes, what needs none, and texts, pieces and numbers that are put into a buffer.
#![tactic(auto)]

pub mod bare;
pub mod blocks;
pub mod copied;
pub mod counts;
pub mod digits;
pub mod escapes;
pub mod fault;
pub mod gathered;
pub mod joined;
pub mod limit;
pub mod numbers;
pub mod pieces;
pub mod preparation;
pub mod size;
pub mod tabs;
pub mod trimmed;
