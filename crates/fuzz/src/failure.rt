//! What ends a case, or a run.

use icu_segmenter::provider::DataError;
use std::alloc::AllocError;
use std::io;
use thiserror::Error;

/// Why a case has no answer, or a run no end.
#[derive(Clone, Copy, Debug, Error)]
pub enum Failure {
    /// The command line names nothing that can be tried.
    #[error("usage: fuzz CASES SEED, fuzz ranges, or fuzz refusals dictionary|table|memo|letters|hostile ..")]
    Usage,
    /// The output took not all.
    #[error("write failed")]
    Write,
    /// The data are rejected, as data may be.
    #[error("refused: {0}")]
    Refused(DataError),
    /// Out of memory.
    #[error("no memory")]
    Memory,
    /// An answer is wrong, in this way.
    #[error("{0}")]
    Wrong(&'static str),
}

impl From<AllocError> for Failure {
    fn from(_error: AllocError) -> Failure {
        Failure::Memory
    }
}

impl From<io::Error> for Failure {
    fn from(_error: io::Error) -> Failure {
        Failure::Write
    }
}

impl From<DataError> for Failure {
    fn from(error: DataError) -> Failure {
        match error {
            DataError::Memory => Failure::Memory,
            _ => Failure::Refused(error),
        }
    }
}

/// The error is `Wrong`, unless the answer is right.
pub fn check(is_right: bool, wrong: &'static str) -> Result<(), Failure> {
    if is_right {
        Ok(())
    } else {
        Err(Failure::Wrong(wrong))
    }
}

/// Two answers, or why the first that lacks is not there.
pub fn both<A: Drop, B: Drop, E: Drop>(
    first: Result<A, E>,
    second: Result<B, E>,
) -> Result<(A, B), E> {
    Ok((first?, second?))
}
