//! Tries each call that takes memory, and tries it again: `tools/refusals` refuses the growths of such runs in turn, and compares
//! what they print.

mod dictionary;
mod machines;
mod memo;
mod table;

use crate::failure::Failure;
use dictionary::try_dictionary;
use machines::{hostile_machine, small_machine};
use memo::try_memo;
use std::alloc::{AllocError, Global};
use std::io::Write;
use table::try_table;

/// Tries what a word names. The errors are `Usage`, `Memory` for the data of what is tried, and `Write`.
pub fn try_named<O: Write>(alloc: Global, name: &str, out: &mut O) -> Result<(), Failure> {
    match name {
        "dictionary" => try_dictionary(alloc, out),
        "table" => try_table(alloc, out),
        "memo" => try_memo(alloc, &small_machine(alloc)?, "aaaa", out),
        "letters" => try_memo(alloc, &small_machine(alloc)?, letters(alloc)?.as_str(), out),
        "hostile" => try_memo(alloc, &hostile_machine(alloc)?, "aaaaaaaaaaaaaaaaaaaa", out),
        _ => Err(Failure::Usage),
    }
}

// A thousand times the letter a.
fn letters(alloc: Global) -> Result<String, AllocError> {
    let mut text = String::new(alloc);
    for _letter in 0..1000 {
        text.push('a')?;
    }
    Ok(text)
}
