//! Texts as lists of items: cursors that decode them, and the encodings that segmenters take.
#![tactic(auto)]

pub mod batches;
pub mod boundary;
pub mod character;
pub mod cursor;
pub mod indices;
pub mod laws;
pub mod prefixes;
pub mod reach;
pub mod scaffold;

mod private {
    /// Keeps the traits of encodings to this crate.
    pub trait Sealed {}
}
