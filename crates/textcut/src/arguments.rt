//! The words of the command line, read without memory.
ghost use Rattle.std.specs.Prelude.{◌≡◌, ◌≤◌, List, ℕ, length};
ghost use Rattle.std.specs.List.{All};
ghost use Rattle.textcut.specs.Request.{HasWords};
ghost use Rattle.textcut.specs.declared.request.Request.{Request as AnyRequest};

use std::env::{Env, FillError};
use std::str;

/// The longest words of requests have so many bytes.
pub const LONGEST: usize = 8;

/// Law: a request has two words, each of at most so many bytes. So what isn't read of a command line is no request's.
pub fn requests_have_two_short_words()
    ensures { (request : AnyRequest) (words : List (List ℕ)) → HasWords request words
        → (length words ≡ 2) × All (λ word. length word ≤ LONGEST) words }
{}

/// The two words of the command line. None where there are fewer or more, or where one is longer than those of requests, or isn't UTF-8.
pub fn two_words<'a, E: Env>(
    env: &E,
    first: &'a mut [u8; LONGEST],
    second: &'a mut [u8; LONGEST],
) -> Option<(&'a str, &'a str)> {
    let words = (word(env, 1, first)?, word(env, 2, second)?);
    match env.arg(3, &mut []) {
        Err(FillError::NotPresent) => Some(words),
        _ => None,
    }
}

// The word of this number.
fn word<'a, E: Env>(env: &E, number: usize, buffer: &'a mut [u8; LONGEST]) -> Option<&'a str> {
    let count = env.arg(number, buffer).ok()?;
    str::from_utf8(&buffer[..count]).ok()
}
