//! The bench dictionaries.

ghost use Rattle.std.specs.Prelude.{IfOk};
ghost use Rattle.bench.specs.Dictionaries.{dictionary_words};
ghost use Rattle.icu_segmenter.specs.ScriptWords.{words_of, AreSameWords, script_words};
ghost use Rattle.icu_segmenter.specs.WordSets.{code_points_of_each, IsSameSet};

use icu_segmenter::provider::{Dictionaries, DictionaryBreakData};
use std::alloc::{AllocError, Global};

const THAI: [&str; 2] = ["ภาษา", "ไทย"];

const IDEOGRAPHS: [&str; 2] = ["龟山岛", "\u{20000}\u{20001}"];

/// The bench dictionaries: ภาษา and ไทย of Thai, 龟山岛 and U+20000 U+20001 of Chinese and Japanese.
/// Fails only when out of memory.
pub fn dictionaries(alloc: Global) -> Result<Dictionaries, AllocError>
    ensures { IfOk result (λ dictionaries. AreSameWords (script_words dictionaries) dictionary_words) }
{
    Ok(Dictionaries {
        my: None,
        km: None,
        lo: None,
        th: Some(dictionary_of(alloc, &THAI)?),
        ja: Some(dictionary_of(alloc, &IDEOGRAPHS)?),
    })
}

// A dictionary is refused only for lack of memory.
fn dictionary_of(alloc: Global, words: &[&str]) -> Result<DictionaryBreakData, AllocError>
    ensures { IfOk result (λ dictionary. IsSameSet (words_of dictionary) (code_points_of_each words.now)) }
{
    match DictionaryBreakData::try_from_words(alloc, words) {
        Ok(dictionary) => Ok(dictionary),
        Err(_) => Err(AllocError),
    }
}
