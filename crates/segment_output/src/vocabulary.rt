//! What segmenters and wrappers know of words.

use icu_segmenter::hyphens::HyphenationPatterns;
use icu_segmenter::provider::Dictionaries;
use icu_segmenter::suppress::Abbreviations;

/// What a segmenter or a wrapper knows of words.
#[derive(Drop)]
pub struct Vocabulary {
    /// The words of scripts without spaces.
    pub dictionaries: Dictionaries,
    /// Abbreviations, after which a sentence goes on, if there are some.
    pub abbreviations: Option<Abbreviations>,
    /// Patterns by which words are hyphenated where lines are wrapped, if there are some.
    pub patterns: Option<HyphenationPatterns>,
}
