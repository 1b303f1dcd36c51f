//! Dictionaries from files.
ghost use Rattle.std.specs.Prelude.{◌≡◌};
ghost use Rattle.icu_segmenter.specs.ScriptWords.{words_of, script_words};
ghost use Rattle.segment.specs.Dictionaries.{words_with};

use crate::command::{RequestedAction, script_of};
use crate::folder::{folder_dictionaries, folder_of};
use crate::lists::{Choice, choice_by};
use crate::words::{text_of, without_mark, words_in};
use anyhow::{Context, Result, ensure};
use clap::ArgMatches;
use icu_segmenter::provider::{ComplexScript, Dictionaries, DictionaryBreakData};
use std::alloc::Global;
use std::fs;
use std::rt::{Env, Files};

/// The dictionaries that an action has: of the files that are named, one word a line, each in its script's place, and of a folder's lists for
/// the other scripts. The errors are a file that can't be read, isn't UTF-8 or has no words, and a folder without lists, which are named, and
/// being out of memory.
pub fn dictionaries_of<R: AllocGlobal + Files + Env>(
    rt: &R,
    action: RequestedAction<'_>,
    matches: &ArgMatches<'_>,
) -> Result<Dictionaries> {
    let mut dictionaries = named_dictionaries(rt, matches)?;
    dictionaries.fill(more_dictionaries(rt, choice_by(action), matches)?);
    Ok(dictionaries)
}

// The dictionaries of the folder that the command line names, or the environment.
fn more_dictionaries<R: AllocGlobal + Files + Env>(
    rt: &R,
    choice: Choice,
    matches: &ArgMatches<'_>,
) -> Result<Dictionaries> {
    if choice == Choice::Nothing {
        return Ok(Dictionaries::none());
    }
    match folder_of(rt, matches)? {
        Some(folder) => folder_dictionaries(rt, folder.as_str(), choice),
        None => Ok(Dictionaries::none()),
    }
}

fn named_dictionaries<R: AllocGlobal + Files>(
    rt: &R,
    matches: &ArgMatches<'_>,
) -> Result<Dictionaries> {
    let mut dictionaries = Dictionaries::none();
    let named = (matches.get_strs("dictionary"), matches.get_strs("script"));
    let (Some(files), Some(scripts)) = named else {
        return Ok(dictionaries);
    };
    for (file, script) in files.iter().zip(scripts.iter()) {
        let script = script_of(script)?;
        let words = read_dictionary(rt, file).context(format_args!("{file}"))?;
        put_dictionary(script, words, &mut dictionaries);
    }
    Ok(dictionaries)
}

fn read_dictionary<R: AllocGlobal + Files>(rt: &R, file: &str) -> Result<DictionaryBreakData> {
    let bytes = fs::read(rt, file)?;
    dictionary_of(rt.alloc(), bytes.as_slice())
}

/// The dictionary of a list's lines, without a byte order mark at its start, and but for lines that are empty or white space alone. The
/// errors are ill-formed UTF-8, with its line, no words, and being out of memory.
pub fn dictionary_of(alloc: Global, list: &[u8]) -> Result<DictionaryBreakData> {
    let words = words_in(alloc, without_mark(text_of(list)?))?;
    ensure!(!words.is_empty(), "the dictionary has no words");
    Ok(DictionaryBreakData::try_from_words(alloc, words.as_slice())?)
}

/// Puts a dictionary into its script's place.
pub fn put_dictionary(
    script: ComplexScript,
    dictionary: DictionaryBreakData,
    dictionaries: &mut Dictionaries,
)
    ensures { script_words dictionaries.new ≡ words_with script (words_of dictionary) (script_words dictionaries.old) }
{
    match script {
        ComplexScript::Myanmar => dictionaries.my = Some(dictionary),
        ComplexScript::Khmer => dictionaries.km = Some(dictionary),
        ComplexScript::Lao => dictionaries.lo = Some(dictionary),
        ComplexScript::Thai => dictionaries.th = Some(dictionary),
        ComplexScript::ChineseOrJapanese => dictionaries.ja = Some(dictionary),
        ComplexScript::None => {}
    }
}
