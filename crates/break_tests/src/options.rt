//! Lines with options.

use crate::segmenter::TestedSegmenter;
use anyhow::{Context, Result, bail};
use icu_segmenter::options::{
    LanguageIdentifier, LineBreakOptions, LineBreakStrictness, LineBreakWordOption,
};
use icu_segmenter_data::line_segmenter;
use std::alloc::Global;

/// The segmenter of lines with the options of a row: the words of a strictness, a word option and a language. The errors are
/// out of memory, and words that name nothing.
pub fn segmenter_with(alloc: Global, options: &str) -> Result<TestedSegmenter> {
    let mut words = options.split_whitespace();
    let strictness = strictness_of(words.next().context("no strictness")?)?;
    let word_option = word_option_of(words.next().context("no word option")?)?;
    let language = words.next().and_then(LanguageIdentifier::try_from_language);
    let options = LineBreakOptions {
        strictness: Some(strictness),
        word_option: Some(word_option),
        content_locale: language.as_ref(),
    };
    Ok(TestedSegmenter::Lines(line_segmenter(alloc, options)?))
}

fn strictness_of(word: &str) -> Result<LineBreakStrictness> {
    Ok(match word {
        "loose" => LineBreakStrictness::Loose,
        "normal" => LineBreakStrictness::Normal,
        "strict" => LineBreakStrictness::Strict,
        "anywhere" => LineBreakStrictness::Anywhere,
        _ => bail!("no strictness"),
    })
}

fn word_option_of(word: &str) -> Result<LineBreakWordOption> {
    Ok(match word {
        "normal" => LineBreakWordOption::Normal,
        "break-all" => LineBreakWordOption::BreakAll,
        "keep-all" => LineBreakWordOption::KeepAll,
        _ => bail!("no word option"),
    })
}
