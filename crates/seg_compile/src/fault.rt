//! Why a search ends without a machine.

use std::alloc::{AllocError, AllocFailed};

/// Why there is no machine.
#[derive(Clone, Copy)]
pub(crate) enum Fault {
    /// Out of memory.
    Memory,
    /// More stands before places, is owed to them, or is known within a scan than is looked at.
    TooLarge,
    /// More than 255 states.
    TooManyStates,
    /// A scan can't be followed, after the record of this number, by this symbol, 0 at the end.
    Stuck(u16, u8, Why),
}

/// Why a scan can't be followed.
#[derive(Clone, Copy)]
pub(crate) enum Why {
    /// Two older places are undecided, and this is owed to the older of them.
    Undecided(u8),
    /// Two older places need a lookahead.
    Lookaheads,
    /// What came before the scan makes another boundary the first.
    Past,
}

impl From<AllocError> for Fault {
    fn from(_error: AllocError) -> Fault {
        Fault::Memory
    }
}

impl<T: Drop> From<AllocFailed<T>> for Fault {
    fn from(_error: AllocFailed<T>) -> Fault {
        Fault::Memory
    }
}
