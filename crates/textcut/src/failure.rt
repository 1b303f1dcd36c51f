//! What ends a run early, and what is said of it.
ghost use Rattle.std.specs.Prelude.{◌≡◌};
ghost use Rattle.textcut.specs.Failure.{failure_of, status_of, message_of, AppendsBeginning};
ghost use Rattle.textcut.specs.declared.failure.Failure.TheVariants.{NoMemory};
ghost use Rattle.textcut.specs.declared.failure.PrintFailure.TheVariants as printing;

use std::alloc::AllocError;
use std::io::{ErrorKind, Write};

/// Why a run ended early.
#[derive(Clone, Copy)]
pub enum Failure {
    /// The words are no request's.
    Usage,
    /// The input could not be read to its end.
    ReadFailed,
    /// Lines are to be wrapped of an input that isn't UTF-8.
    NotUtf8,
    /// The output took not all.
    WriteFailed,
    /// Memory ran out.
    NoMemory,
}

impl From<AllocError> for Failure {
    ghost from_gives = { λ _ failure. failure ≡ NoMemory };

    fn from(_error: AllocError) -> Failure {
        Failure::NoMemory
    }
}

/// Why nothing, or not all, was printed of a text that was read.
#[derive(Clone, Copy)]
pub enum PrintFailure {
    /// The output took not all.
    WriteFailed,
    /// Memory ran out.
    NoMemory,
}

impl From<AllocError> for PrintFailure {
    ghost from_gives = { λ _ failure. failure ≡ printing.NoMemory };

    fn from(_error: AllocError) -> PrintFailure {
        PrintFailure::NoMemory
    }
}

impl From<PrintFailure> for Failure {
    ghost from_gives = { λ given failure. failure ≡ failure_of given };

    fn from(failure: PrintFailure) -> Failure {
        match failure {
            PrintFailure::WriteFailed => Failure::WriteFailed,
            PrintFailure::NoMemory => Failure::NoMemory,
        }
    }
}

impl Failure {
    /// Says what failed, as far as the writer takes it, and returns the exit status, which doesn't depend on the writer.
    pub fn report<E: Write>(self, err: &mut E) -> u8
        ensures status { result ≡ status_of self }
        ensures said { AppendsBeginning (E.contents err.old) (E.contents err.new) (message_of self) }
    {
        say(err, self.message().as_bytes());
        self.status()
    }

    fn message(self) -> &'static str
        ensures { result.now ≡ message_of self }
    {
        match self {
            Failure::Usage => {
                "usage: textcut grapheme|sentence|word|line classic|17|neo, or textcut wrap COLUMNS\n"
            }
            Failure::ReadFailed => "textcut: read failed\n",
            Failure::NotUtf8 => "textcut: not UTF-8\n",
            Failure::WriteFailed => "textcut: write failed\n",
            Failure::NoMemory => "textcut: no memory\n",
        }
    }

    fn status(self) -> u8
        ensures { result ≡ status_of self }
    {
        match self {
            Failure::Usage => 2,
            _ => 1,
        }
    }
}

// Writes the message, up to where the writer takes no more.
fn say<E: Write>(err: &mut E, message: &[u8])
    ensures { AppendsBeginning (E.contents err.old) (E.contents err.new) message.now }
{
    let mut said = 0;
    for _turn in 0..u64::MAX {
        if said == message.len() {
            return;
        }
        match err.write(&message[said..]) {
            Ok(0) => return,
            Ok(count) => said += count,
            Err(e) if e.kind() == ErrorKind::Interrupted => {}
            Err(_) => return,
        }
    }
}
