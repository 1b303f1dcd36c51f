//! Dictionaries that a caller loads.

ghost use Rattle.std.specs.Prelude.{◌≡◌, ◌⊎◌, IfErr, IfOk, Some};
ghost use Rattle.icu_segmenter.specs.ScriptWords.{script_words, words_of};
ghost use Rattle.icu_segmenter.specs.WordSets.{IsSameSet, code_points_of_each};
ghost use Rattle.icu_segmenter.specs.declared.provider.ComplexScript.{ComplexScript};
ghost use Rattle.yengatomu_segmenter.specs.Finders.{finder_of};
ghost use Rattle.yengatomu_segmenter.specs.Loaded.{AreUtf8, HasTaken, IsWhy, numbered_script, only};

use crate::segmenter::Segmenter;
use icu_segmenter::provider::{ComplexScript, DataError, Dictionaries, DictionaryBreakData};
use std::alloc::Global;
use std::str;

const SCRIPTS: [Option<ComplexScript>; 6] = [
    None,
    Some(ComplexScript::Myanmar),
    Some(ComplexScript::ChineseOrJapanese),
    Some(ComplexScript::Khmer),
    Some(ComplexScript::Lao),
    Some(ComplexScript::Thai),
];

/// Why no dictionary is loaded.
#[derive(Clone, Copy, PartialEq, Eq)]
pub enum Refusal {
    /// Out of memory.
    Memory,
    /// There is no such script, or what is held takes no dictionaries.
    NoSuch,
    /// A word isn't UTF-8.
    NotUtf8,
}

/// Gives a segmenter the words of the script of a number.
pub fn load(
    alloc: Global,
    segmenter: &mut Segmenter,
    words: &[&[u8]],
    script: u32,
) -> Result<(), Refusal>
    ensures loaded { IfOk result (λ _. (which : ComplexScript) × (numbered_script script ≡ Some which) × HasTaken words.now which (finder_of segmenter.old) (finder_of segmenter.new)) }
    ensures rejected { IfErr result (λ why. (finder_of segmenter.new ≡ finder_of segmenter.old) × IsWhy words.now (numbered_script script) (finder_of segmenter.old) why) }
{
    let Some(script) = script_of(script) else {
        return Err(Refusal::NoSuch);
    };
    if !segmenter.takes_words() {
        return Err(Refusal::NoSuch);
    }
    let dictionary = dictionary_of(alloc, words)?;
    segmenter.take_words(only(script, dictionary));
    Ok(())
}

fn script_of(number: u32) -> Option<ComplexScript>
    ensures { result ≡ numbered_script number }
{
    *SCRIPTS.get(number as usize)?
}

fn dictionary_of(alloc: Global, words: &[&[u8]]) -> Result<DictionaryBreakData, Refusal>
    ensures words { IfOk result (λ dictionary. IsSameSet (words_of dictionary) (code_points_of_each words.now) × AreUtf8 words.now) }
    ensures rejected { IfErr result (λ why. (why ≡ Refusal.Memory) ⊎ ((why ≡ Refusal.NotUtf8) × (AreUtf8 words.now → ⊥))) }
{
    let texts = texts_of(alloc, words)?;
    match DictionaryBreakData::try_from_words(alloc, texts.as_slice()) {
        Ok(dictionary) => Ok(dictionary),
        Err(_) => Err(Refusal::Memory),
    }
}

pub fn texts_of<'w>(alloc: Global, words: &[&'w [u8]]) -> Result<Vec<&'w str>, Refusal>
    ensures texts { IfOk result (λ texts. (code_points_of_each texts.items ≡ code_points_of_each words.now) × AreUtf8 words.now) }
    ensures rejected { IfErr result (λ why. (why ≡ Refusal.Memory) ⊎ ((why ≡ Refusal.NotUtf8) × (AreUtf8 words.now → ⊥))) }
{
    let mut texts = Vec::new(alloc);
    for index in 0..words.len() {
        let Ok(text) = str::from_utf8(words[index]) else {
            return Err(Refusal::NotUtf8);
        };
        match texts.push(text) {
            Ok(()) => {}
            Err(_) => return Err(Refusal::Memory),
        }
    }
    Ok(texts)
}

// The dictionary of one script.
fn only(script: ComplexScript, dictionary: DictionaryBreakData) -> Dictionaries
    ensures { script_words result ≡ only script (words_of dictionary) }
{
    let mut dictionaries = Dictionaries::none();
    let dictionary = Some(dictionary);
    match script {
        ComplexScript::None => {}
        ComplexScript::Myanmar => dictionaries.my = dictionary,
        ComplexScript::ChineseOrJapanese => dictionaries.ja = dictionary,
        ComplexScript::Khmer => dictionaries.km = dictionary,
        ComplexScript::Lao => dictionaries.lo = dictionary,
        ComplexScript::Thai => dictionaries.th = dictionary,
    }
    dictionaries
}
