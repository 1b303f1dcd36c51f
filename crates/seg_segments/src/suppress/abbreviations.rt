//! Sets of abbreviations.

ghost use Rattle.std.specs.Prelude.{◌≡◌, ◌↔◌, false, true, IfErr, IfOk, IsTrue, Contains};
ghost use Rattle.std.specs.Str.{chars};
ghost use Rattle.seg_data.specs.ScriptWords.{words_of};
ghost use Rattle.seg_data.specs.WordSets.{IsSameSet, code_points_of_each};
ghost use Rattle.seg_segments.specs.InLines.{AreInLines, AreSpaceless, IsSpaceless};

use crate::suppress::characters::is_space;
use seg_data::provider::{DictionaryBreakData, DictionaryCursor};
use std::alloc::Global;
use std::fmt;
use thiserror::Error;

/// Why there are no abbreviations.
#[derive(Clone, Copy, Debug, PartialEq, Eq, Error)]
pub enum AbbreviationError {
    /// Out of memory.
    #[error("out of memory")]
    Memory,
    /// An abbreviation has a line feed: a text couldn't be segmented line by line.
    #[error("an abbreviation has a line feed")]
    LineFeed,
}

/// A set of abbreviations, as `Mr.`, `e.g.` or `z. B.`: whole words with their full stops, and with spaces where they have some.
/// Upper and lower case differ.
pub struct Abbreviations {
    words: DictionaryBreakData,
    // Whether none has a space.
    spaceless: bool,
    ghost in_lines: { AreInLines (words_of words) },
    ghost without_spaces: { IsTrue spaceless → AreSpaceless (words_of words) },
}

impl fmt::Debug for Abbreviations {
    fn fmt<W: fmt::Write>(&self, f: &mut fmt::Formatter<W>) -> fmt::Result {
        f.write_str("Abbreviations { .. }")
    }
}

// Written out, so that it is proved here and not in each program.
impl Drop for Abbreviations {
    fn drop(self) {
        let Abbreviations {
            words: _,
            spaceless: _,
        } = self;
    }
}

impl Abbreviations {
    ghost use Rattle.seg_data.specs.ScriptWords.{words_after};
    ghost use Rattle.seg_segments.specs.Abbreviations.{abbreviations_of, IsRejection};

    /// The set of these abbreviations: their order says nothing, and one that is there twice counts once. The empty word suppresses
    /// nothing. One that ends with a space wants that space after it.
    ///
    /// Takes the memory of a dictionary of these words. `LineFeed` where one has a line feed, before any memory is asked for;
    /// `Memory` when out of memory.
    pub fn try_from_words(alloc: Global, words: &[&str]) -> Result<Self, AbbreviationError>
        ensures made { IfOk result (λ abbreviations. IsSameSet (abbreviations_of abbreviations) (code_points_of_each words.now)
            × AreInLines (code_points_of_each words.now)) }
        ensures rejected { IfErr result (IsRejection (code_points_of_each words.now)) }
    {
        if have_line_feed(words) {
            return Err(AbbreviationError::LineFeed);
        }
        let spaceless = !have_space(words);
        match DictionaryBreakData::try_from_words(alloc, words) {
            Ok(words) => Ok(Abbreviations { words, spaceless }),
            Err(_) => Err(AbbreviationError::Memory),
        }
    }

    /// A cursor over the abbreviations, before any code point was read. Takes no memory.
    pub fn cursor(&self) -> DictionaryCursor<'_>
        ensures words { words_after result ≡ abbreviations_of self.now }
        ensures in_lines { AreInLines (words_after result) }
    {
        self.words.cursor()
    }

    /// Whether no abbreviation has a space. If `false`, nothing is said.
    pub fn are_spaceless(&self) -> bool
        ensures { IsTrue result → AreSpaceless (abbreviations_of self.now) }
    {
        self.spaceless
    }
}

/// Whether some word has a line feed.
fn have_line_feed(words: &[&str]) -> bool
    ensures none { result ≡ false → AreInLines (code_points_of_each words.now) }
    ensures some { result ≡ true → AreInLines (code_points_of_each words.now) → ⊥ }
{
    for word in words {
        if has_line_feed(word) {
            return true;
        }
    }
    false
}

/// Whether a word has a line feed.
fn has_line_feed(word: &str) -> bool
    ensures { IsTrue result ↔ Contains (chars word.now) 0x0A }
{
    word.chars().any(|character| character == '\n')
}

/// Whether some word has a space.
fn have_space(words: &[&str]) -> bool
    ensures { result ≡ false → AreSpaceless (code_points_of_each words.now) }
{
    for word in words {
        if has_space(word) {
            return true;
        }
    }
    false
}

/// Whether a word has a space.
fn has_space(word: &str) -> bool
    ensures { result ≡ false → IsSpaceless (chars word.now) }
{
    word.chars().any(|character| is_space(u32::from(character)))
}
