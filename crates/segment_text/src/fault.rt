//! What ends a run early.
ghost use Rattle.segment_text.specs.Fault.{IsReadFault};

use std::io;
use std::io::ErrorKind;

/// What ends a run early.
#[derive(Drop)]
pub enum Fault {
    /// The input can't be read to its end.
    Read(io::Error),
    /// Out of memory before anything of what was read is written.
    MemoryBefore,
    /// The output took not all.
    Write(io::Error),
    /// Out of memory while what was read is written, or more segments, lines or bytes than a `usize` counts.
    MemoryAmid,
}

impl Fault {
    /// What an error of reading means.
    pub fn of_reading(error: io::Error) -> Fault
        ensures { IsReadFault result }
    {
        match error.kind() {
            ErrorKind::OutOfMemory => Fault::MemoryBefore,
            _ => Fault::Read(error),
        }
    }

    /// What an error of writing means, or of the memory that it takes.
    pub fn of_writing(error: io::Error) -> Fault
        ensures { IsReadFault result → ⊥ }
    {
        match error.kind() {
            ErrorKind::OutOfMemory => Fault::MemoryAmid,
            _ => Fault::Write(error),
        }
    }
}
