//! What a command line asks for.
ghost use Rattle.std.specs.Prelude.{◌≡◌, MatchOption};
ghost use Rattle.std.specs.Str.Parse.{digits_value};
ghost use Rattle.textcut.specs.Command.{texts};
ghost use Rattle.textcut.specs.Request.{HasWords, IsColumns, IsNoRequest};
ghost use Rattle.textcut.specs.declared.request.Request.{Request as AnyRequest};

use crate::command::{Command, command_of};

/// What a command line asks for.
#[derive(Clone, Copy)]
pub enum Request {
    /// The boundaries of a text.
    Boundaries(Command),
    /// The lines of a text, wrapped to so many columns, by the machine that is built in, with the default options.
    Wrapped(usize),
}

/// The request that has these words.
pub fn request_of(words: &[&str]) -> Option<Request>
    ensures { MatchOption result (IsNoRequest (texts words.now))
        (λ request. HasWords request (texts words.now)
        × ((other : AnyRequest) → HasWords other (texts words.now) → other ≡ request)) }
{
    match words {
        ["wrap", columns] => Some(Request::Wrapped(columns_of(columns)?)),
        _ => Some(Request::Boundaries(command_of(words)?)),
    }
}

// Columns have at most so many digits.
const MAX_DIGITS: usize = 5;

// The columns that a word says.
fn columns_of(word: &str) -> Option<usize>
    ensures { MatchOption result (IsColumns word.now → ⊥)
        (λ columns. IsColumns word.now × (columns ≡ digits_value 10 word.now)) }
{
    if word.len() > MAX_DIGITS || word.starts_with('+') {
        return None;
    }
    word.parse().ok()
}
