//! Abbreviations that a segmenter of sentences takes.

ghost use Rattle.std.specs.Prelude.{◌≡◌, ◌⊎◌, IfErr, IfOk};
ghost use Rattle.icu_segmenter.specs.Abbreviations.{abbreviations_of};
ghost use Rattle.icu_segmenter.specs.WordSets.{IsSameSet, code_points_of_each};
ghost use Rattle.yengatomu_segmenter.specs.Abbreviated.{CanAbbreviate, HasTaken, IsWhy};
ghost use Rattle.yengatomu_segmenter.specs.Finders.{finder_of};

use crate::dictionary::{Refusal as NoTexts, texts_of};
use crate::segmenter::Segmenter;
use icu_segmenter::suppress::{AbbreviationError, Abbreviations};
use std::alloc::Global;

/// Why no abbreviations are loaded.
#[derive(Clone, Copy, PartialEq, Eq)]
pub enum Refusal {
    /// Out of memory.
    Memory,
    /// What is held isn't a segmenter of sentences, or has abbreviations.
    NoSuch,
    /// A word isn't UTF-8, or has a line feed.
    WrongWord,
}

/// Gives a segmenter of sentences abbreviations, as whole words with their full stops. A segmenter that is refused is as it was.
pub fn load(alloc: Global, segmenter: &mut Segmenter, words: &[&[u8]]) -> Result<(), Refusal>
    ensures loaded { IfOk result (λ _. HasTaken words.now (finder_of segmenter.old) (finder_of segmenter.new)) }
    ensures rejected { IfErr result (λ why. (finder_of segmenter.new ≡ finder_of segmenter.old) × IsWhy words.now (finder_of segmenter.old) why) }
{
    if !segmenter.takes_abbreviations() {
        return Err(Refusal::NoSuch);
    }
    let abbreviations = set_of(alloc, words)?;
    segmenter.take_abbreviations(abbreviations);
    Ok(())
}

fn set_of(alloc: Global, words: &[&[u8]]) -> Result<Abbreviations, Refusal>
    ensures words { IfOk result (λ abbreviations. IsSameSet (abbreviations_of abbreviations) (code_points_of_each words.now) × CanAbbreviate words.now) }
    ensures rejected { IfErr result (λ why. (why ≡ Refusal.Memory) ⊎ ((why ≡ Refusal.WrongWord) × (CanAbbreviate words.now → ⊥))) }
{
    let texts = match texts_of(alloc, words) {
        Ok(texts) => texts,
        Err(NoTexts::Memory) => return Err(Refusal::Memory),
        Err(_) => return Err(Refusal::WrongWord),
    };
    match Abbreviations::try_from_words(alloc, texts.as_slice()) {
        Ok(abbreviations) => Ok(abbreviations),
        Err(AbbreviationError::Memory) => Err(Refusal::Memory),
        Err(AbbreviationError::LineFeed) => Err(Refusal::WrongWord),
    }
}
