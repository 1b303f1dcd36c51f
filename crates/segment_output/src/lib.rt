//! What `segment` writes of a text: its segments, by the segmenters of Unicode's data, each on a line of its own, or how many there are;
//! and its wrapped lines.
#![tactic(auto)]

mod machine_lines;
pub mod marks;
mod object_lines;
mod object_pieces;
mod objects;
pub mod output;
mod page;
pub mod parts;
pub mod segmenter;
pub mod splits;
mod stretch;
pub mod vocabulary;
pub mod wrapper;
