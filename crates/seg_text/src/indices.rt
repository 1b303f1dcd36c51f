//! Cursors that give the items of a text, each with its place.

mod latin1;
mod str;
mod units;
mod utf16;
mod utf8;

pub use latin1::Latin1Indices;
pub use str::StrCharIndices;
pub use units::{Indices, ReadsUnits};
pub use utf8::Utf8CharIndices;
pub use utf16::Utf16Indices;
