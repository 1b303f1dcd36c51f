//! Dictionaries, made while growths are refused.

use crate::failure::Failure;
use icu_segmenter::provider::{DataError, DictionaryBreakData};
use seg_data::words::WordCursor;
use std::alloc::Global;
use std::io::{self, Write};

/// Makes the dictionary of two words twice, and prints each time what it holds, or why there is none. The error is `Write`.
pub fn try_dictionary<O: Write>(alloc: Global, out: &mut O) -> Result<(), Failure> {
    let words = ["ภาษา", "ไทย"];
    for _attempt in 0..2 {
        print_dictionary(DictionaryBreakData::try_from_words(alloc, &words), out)?;
    }
    Ok(())
}

fn print_dictionary<O: Write>(
    made: Result<DictionaryBreakData, DataError>,
    out: &mut O,
) -> io::Result<()> {
    match made {
        Ok(dictionary) => print_words(&dictionary, out),
        Err(fault) => writeln!(out, "{fault:?}"),
    }
}

fn print_words<O: Write>(dictionary: &DictionaryBreakData, out: &mut O) -> io::Result<()> {
    let whole = is_word(dictionary, "ภาษา");
    let other = is_word(dictionary, "ไทย");
    let begun = is_word(dictionary, "ภา");
    writeln!(out, "ภาษา {whole}, ไทย {other}, ภา {begun}")
}

// Whether a text is a word of a dictionary.
fn is_word(dictionary: &DictionaryBreakData, text: &str) -> bool {
    let mut cursor = dictionary.cursor();
    for character in text.chars() {
        cursor.step(character as u32);
    }
    cursor.is_word()
}
