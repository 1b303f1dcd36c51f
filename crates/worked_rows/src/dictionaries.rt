//! The words of scripts.

use crate::row::Row;
use crate::samples::unescaped;
use anyhow::Result;
use bench::dictionaries::dictionaries;
use icu_segmenter::provider::{Dictionaries, DictionaryBreakData};
use std::alloc::{AllocError, Global};

/// The words that a segmenter of the row is made with, if it is made with some.
pub fn first_words(alloc: Global, row: Row<'_>) -> Result<Option<Dictionaries>> {
    let words = row.parts_of("words ");
    let scripts = ["bench", "th", "my", "ja"];
    if scripts.iter().all(|script| words.part(*script).is_none()) {
        return Ok(None);
    }
    Ok(Some(all_words(alloc, words)?))
}

/// The sample dictionaries, or those of the scripts that have words.
pub fn all_words(alloc: Global, row: Row<'_>) -> Result<Dictionaries> {
    if row.part("bench").is_some() {
        return Ok(dictionaries(alloc)?);
    }
    let mut words = Dictionaries {
        my: None,
        km: None,
        lo: None,
        th: None,
        ja: None,
    };
    read_words(alloc, row, &mut words)?;
    Ok(words)
}

fn read_words(alloc: Global, row: Row<'_>, words: &mut Dictionaries) -> Result<()> {
    words.th = some_dictionary(alloc, row.part("th"))?;
    words.my = some_dictionary(alloc, row.part("my"))?;
    words.ja = some_dictionary(alloc, row.part("ja"))?;
    Ok(())
}

fn some_dictionary(alloc: Global, words: Option<&str>) -> Result<Option<DictionaryBreakData>> {
    match words {
        Some(words) => Ok(Some(dictionary_of(alloc, words)?)),
        None => Ok(None),
    }
}

/// The dictionary of Thai of the row, which has no words where there is no list.
pub fn thai(alloc: Global, row: Row<'_>) -> Result<DictionaryBreakData> {
    dictionary_of(alloc, row.parts_of("words ").part("th").unwrap_or(""))
}

fn dictionary_of(alloc: Global, words: &str) -> Result<DictionaryBreakData> {
    let list = words_of(alloc, words)?;
    dictionary_in(alloc, list.as_slice())
}

fn dictionary_in(alloc: Global, list: &[String]) -> Result<DictionaryBreakData> {
    let words: Vec<&str> = list.iter().map(|word| word.as_str()).collect(alloc)?;
    Ok(DictionaryBreakData::try_from_words(alloc, words.as_slice())?)
}

/// The words, as the files write them, of which `""` is the empty one. All words of four digits below 8 are one word of the list.
pub fn words_of(alloc: Global, words: &str) -> Result<Vec<String>> {
    let mut list = Vec::new(alloc);
    for word in words.split_whitespace() {
        push_word(alloc, word, &mut list)?;
    }
    Ok(list)
}

fn push_word(alloc: Global, word: &str, list: &mut Vec<String>) -> Result<()> {
    match word {
        "\"\"" => list.push(String::new(alloc)).map_err(AllocError::from)?,
        "all-numbers" => push_numbers(alloc, list)?,
        _ => list
            .push(unescaped(alloc, word)?)
            .map_err(AllocError::from)?,
    }
    Ok(())
}

// Adds the 4,096 words of four digits of 0 to 7: the last digit changes slowest.
fn push_numbers(alloc: Global, list: &mut Vec<String>) -> Result<(), AllocError> {
    for number in 0..0o10000_u32 {
        let (low, high) = (number % 64, number / 64);
        let (first, second, third, fourth) = (low % 8, low / 8, high % 8, high / 8);
        list.push(format!(in alloc; "{first}{second}{third}{fourth}")?)?;
    }
    Ok(())
}
