//! Abbreviations from files.
ghost use Rattle.std.specs.Prelude.{◌≡◌, codes, string_bytes, IfOk};
ghost use Rattle.std.specs.Option.{option_map};
ghost use Rattle.clap.specs.Matches.{first_value, found_of};
ghost use Rattle.icu_segmenter.specs.Abbreviations.{abbreviations_of};
ghost use Rattle.icu_segmenter.specs.WordSets.{IsSameSet};
ghost use Rattle.segment.specs.Abbreviations.{list_name, listed_language, IsLocation};
ghost use Rattle.segment.specs.Words.{code_points_in};

use crate::command::{Request, RequestedAction};
use crate::folder::{folder_of, path_of};
use crate::words::{text_of, without_mark, words_in};
use anyhow::{Context, Result, ensure};
use clap::ArgMatches;
use icu_segmenter::options::LanguageIdentifier;
use icu_segmenter::suppress::Abbreviations;
use segment_output::segmenter::Kind;
use std::alloc::{AllocError, Global};
use std::fs;
use std::rt::{Env, Files};

/// Where abbreviations are.
#[derive(Drop)]
pub enum Location {
    /// None are asked for.
    Nowhere,
    /// In this file.
    InFile(String),
    /// In a language's list, but no folder of lists is named.
    InNoFolder,
}

/// Where the abbreviations are that a request asks for: in the file that the command line names, or in the list of its language. The errors
/// are a folder's name that isn't UTF-8, and being out of memory.
pub fn location_of<R: AllocGlobal + Env>(
    rt: &R,
    request: &Request<'_>,
    matches: &ArgMatches<'_>,
) -> Result<Location> {
    let folder = match listed_language(request) {
        Some(_) => folder_of(rt, matches)?,
        None => None,
    };
    Ok(named_location(rt.alloc(), request, matches, folder.as_deref())?)
}

// The language whose list is asked for: that of sentences.
fn listed_language<'r>(request: &'r Request<'_>) -> Option<&'r LanguageIdentifier>
    ensures { option_map (λ language. language.now) result ≡ listed_language request.now }
{
    match request.action {
        RequestedAction::Cut(Kind::Sentences, _, _) => request.language.as_ref(),
        _ => None,
    }
}

// The file that is named, or the list of the language in the folder. Fails only when out of memory.
fn named_location(
    alloc: Global,
    request: &Request<'_>,
    matches: &ArgMatches<'_>,
    folder: Option<&str>,
) -> Result<Location, AllocError>
    ensures { IfOk result (IsLocation (first_value (found_of matches.now) (codes "abbreviations")) (listed_language request.now) (option_map (λ folder. folder.now) folder.entry)) }
{
    let file = matches.get_str("abbreviations");
    match (file, listed_language(request), folder) {
        (Some(file), _, _) => Ok(Location::InFile(String::from_str(alloc, file)?)),
        (None, Some(language), Some(folder)) => {
            let name = list_name(alloc, language)?;
            Ok(Location::InFile(path_of(alloc, folder, name.as_str())?))
        }
        (None, Some(_), None) => Ok(Location::InNoFolder),
        (None, None, _) => Ok(Location::Nowhere),
    }
}

// The name of a language's list.
fn list_name(alloc: Global, language: &LanguageIdentifier) -> Result<String, AllocError>
    ensures { IfOk result (λ name. string_bytes name ≡ list_name language.now) }
{
    let mut name = String::from_str(alloc, "abbreviations-")?;
    name.push_str(language.language())?;
    Ok(name)
}

/// The abbreviations at a location. The errors are a file that can't be read, isn't UTF-8 or has none, which is named, and being out of memory.
pub fn abbreviations_at<R: AllocGlobal + Files>(
    rt: &R,
    location: &Location,
) -> Result<Option<Abbreviations>> {
    match location {
        Location::InFile(path) => {
            let read = read_abbreviations(rt, path.as_str());
            Ok(Some(read.context(format_args!("{path}"))?))
        }
        Location::Nowhere | Location::InNoFolder => Ok(None),
    }
}

fn read_abbreviations<R: AllocGlobal + Files>(rt: &R, path: &str) -> Result<Abbreviations> {
    let bytes = fs::read(rt, path)?;
    let text = text_of(bytes.as_slice())?;
    abbreviations_in(rt.alloc(), without_mark(text))
}

// The abbreviations of a list, one a line. The errors are being out of memory, and that there are none.
fn abbreviations_in(alloc: Global, list: &str) -> Result<Abbreviations>
    ensures { IfOk result (λ abbreviations. IsSameSet (abbreviations_of abbreviations) (code_points_in list.now)) }
{
    let words = words_in(alloc, list)?;
    ensure!(!words.is_empty(), "there are no abbreviations in it");
    Ok(Abbreviations::try_from_words(alloc, words.as_slice())?)
}
