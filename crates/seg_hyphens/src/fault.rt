//! What is wrong with a text of patterns, and where.

ghost use Rattle.std.specs.Prelude.{◌≡◌};

use std::alloc::{AllocError, AllocFailed};
use std::fmt::{self, Debug, Display, Formatter};
use thiserror::Error;

/// Why a text gives no patterns.
#[derive(Clone, Copy, Debug, PartialEq, Error)]
pub enum HyphenationError {
    /// Out of memory.
    #[error("out of memory")]
    Memory,
    /// The number of the first line that is at fault, from 1 on, and its fault.
    #[error("line {0}: {1}")]
    Text(usize, Fault),
}

/// What is wrong at a line.
#[derive(Clone, Copy, PartialEq, Error)]
pub enum Fault {
    /// The first line names no encoding that is read.
    #[error("wanted UTF-8 or ISO8859-1")]
    NotEncoding,
    /// The line is not UTF-8.
    #[error("wanted UTF-8, which the first line names")]
    NotUtf8,
    /// No number after LEFTHYPHENMIN or RIGHTHYPHENMIN.
    #[error("wanted a space and a digit from 1 to 9")]
    NotNumber,
    /// Patterns of a second level, for what stands between the points of the first. Each level is read as a text of its own, behind the first
    /// line.
    #[error("wanted patterns of one level, without NEXTLEVEL")]
    NextLevel,
    /// Characters beside which words are not hyphenated, which are not read.
    #[error("wanted patterns without NOHYPHEN")]
    NoHyphen,
    /// A pattern that changes letters, which is not read.
    #[error("wanted a pattern without a change of letters behind /")]
    NonStandard,
    /// White space in a pattern.
    #[error("wanted one pattern without white space in it")]
    Blank,
    /// A pattern of digits alone.
    #[error("wanted a pattern with letters")]
    NoLetters,
}

// The message: a derived one is proved variant by variant.
impl Debug for Fault {
    fn fmt<W: fmt::Write>(&self, f: &mut Formatter<W>) -> fmt::Result {
        Display::fmt(self, f)
    }
}

impl From<AllocError> for HyphenationError {
    ghost use Rattle.seg_hyphens.specs.declared.fault.HyphenationError.TheVariants.{Memory};

    ghost from_gives = { λ _ error. error ≡ Memory };

    fn from(_error: AllocError) -> HyphenationError {
        HyphenationError::Memory
    }
}

impl<T: Drop> From<AllocFailed<T>> for HyphenationError {
    ghost use Rattle.seg_hyphens.specs.declared.fault.HyphenationError.TheVariants.{Memory};

    ghost from_gives = { λ _ error. error ≡ Memory };

    fn from(_error: AllocFailed<T>) -> HyphenationError {
        HyphenationError::Memory
    }
}
