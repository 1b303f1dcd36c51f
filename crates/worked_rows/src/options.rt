//! Options, as the files write them.

use crate::row::Row;
use crate::words::meaning;
use anyhow::{Context, Result};
use icu_segmenter::options::{
    LanguageIdentifier, LineBreakOptions, LineBreakStrictness, LineBreakWordOption,
};

/// Options of lines and sentences.
#[derive(Drop)]
pub struct Options {
    strictness: Option<LineBreakStrictness>,
    word_option: Option<LineBreakWordOption>,
    language: Option<LanguageIdentifier>,
}

impl Options {
    /// The options of a row: a strictness, a word option and a language, each of which may be `-` for none.
    pub fn of(row: Row<'_>) -> Result<Self> {
        let mut words = row.part("options").unwrap_or("").split_whitespace();
        let strictness = strictness_of(words.next().unwrap_or("-"))?;
        let word_option = word_option_of(words.next().unwrap_or("-"))?;
        let language = LanguageIdentifier::try_from_language(words.next().unwrap_or("-"));
        Ok(Options {
            strictness,
            word_option,
            language,
        })
    }

    /// The language.
    pub fn language(&self) -> Option<&LanguageIdentifier> {
        self.language.as_ref()
    }

    /// The options of lines.
    pub fn of_lines(&self) -> LineBreakOptions<'_> {
        LineBreakOptions {
            strictness: self.strictness,
            word_option: self.word_option,
            content_locale: self.language.as_ref(),
        }
    }
}

const STRICTNESSES: [(&str, Option<LineBreakStrictness>); 5] = [
    ("-", None),
    ("loose", Some(LineBreakStrictness::Loose)),
    ("normal", Some(LineBreakStrictness::Normal)),
    ("strict", Some(LineBreakStrictness::Strict)),
    ("anywhere", Some(LineBreakStrictness::Anywhere)),
];

fn strictness_of(word: &str) -> Result<Option<LineBreakStrictness>> {
    Ok(meaning(&STRICTNESSES, word).context("no strictness")?)
}

const WORD_OPTIONS: [(&str, Option<LineBreakWordOption>); 4] = [
    ("-", None),
    ("normal", Some(LineBreakWordOption::Normal)),
    ("break-all", Some(LineBreakWordOption::BreakAll)),
    ("keep-all", Some(LineBreakWordOption::KeepAll)),
];

fn word_option_of(word: &str) -> Result<Option<LineBreakWordOption>> {
    Ok(meaning(&WORD_OPTIONS, word).context("no word option")?)
}
