//! A folder of lists of words.
ghost use Rattle.std.specs.Prelude.{◌≡◌, None, IfOk, string_bytes};
ghost use Rattle.segment.specs.Lists.{path_of};

use crate::dictionary::dictionary_of;
use crate::lists::{Choice, ReadLists, listed_dictionaries};
use anyhow::{Context, Result, bail};
use clap::ArgMatches;
use icu_segmenter::provider::{Dictionaries, DictionaryBreakData};
use std::alloc::{AllocError, Global};
use std::env::VarError;
use std::io::ErrorKind;
use std::rt::{Env, Files};
use std::{env, fs};

// What names a folder of lists where the command line names none.
const VARIABLE: &str = "SEGMENT_DICTIONARIES";

// The lists that a folder may have.
const NAMES: [&str; 5] = ["thai", "lao", "khmer", "myanmar", "cj"];

// A folder whose files are lists: that of Thai is thai.txt.
#[derive(Drop)]
struct Folder<'a, R> {
    rt: &'a R,
    path: &'a str,
}

impl<'a, R: AllocGlobal + Files> ReadLists for Folder<'a, R> {
    ghost lists = { λ _ _. None };

    fn read_list(&self, name: &str) -> Result<Option<DictionaryBreakData>> {
        let alloc = self.rt.alloc();
        let path = path_of(alloc, self.path, name)?;
        match fs::read(self.rt, path.as_str()) {
            Ok(list) => {
                let dictionary = dictionary_of(alloc, list.as_slice());
                Ok(Some(dictionary.context(format_args!("{path}"))?))
            }
            Err(error) if error.kind() == ErrorKind::NotFound => Ok(None),
            Err(error) => Err(error).context(format_args!("{path}")),
        }
    }
}

/// The folder of lists that the command line names, or else the environment, unless that is empty. The errors are a name that isn't UTF-8,
/// and being out of memory.
pub fn folder_of<R: AllocGlobal + Env>(rt: &R, matches: &ArgMatches<'_>) -> Result<Option<String>> {
    if let Some(folder) = matches.get_str("dictionaries") {
        return Ok(Some(String::from_str(rt.alloc(), folder)?));
    }
    let folder = match env::var(rt, VARIABLE) {
        Ok(folder) => folder,
        Err(VarError::NotPresent) => return Ok(None),
        Err(error) => bail!("{VARIABLE}: {error}"),
    };
    if folder.is_empty() {
        return Ok(None);
    }
    Ok(Some(folder))
}

/// The dictionaries of the lists in a folder that are chosen. The errors are a folder that isn't there or has no list, a list that can't be
/// read, isn't UTF-8 or has no words, each of which is named, and being out of memory.
pub fn folder_dictionaries<R: AllocGlobal + Files>(
    rt: &R,
    path: &str,
    choice: Choice,
) -> Result<Dictionaries> {
    check_folder(rt, path).context(format_args!("{path}"))?;
    listed_dictionaries(&Folder { rt, path }, choice)
}

// The error is a folder that isn't there, or in which no list is.
fn check_folder<R: AllocGlobal + Files>(rt: &R, path: &str) -> Result<()> {
    fs::metadata(rt, path)?;
    for name in NAMES.iter() {
        let list = path_of(rt.alloc(), path, name)?;
        if fs::metadata(rt, list.as_str()).is_ok() {
            return Ok(());
        }
    }
    bail!("there is no thai.txt, lao.txt, khmer.txt, myanmar.txt or cj.txt in it")
}

/// Where a list stands in a folder.
pub fn path_of(alloc: Global, folder: &str, name: &str) -> Result<String, AllocError>
    ensures { IfOk result (λ path. string_bytes path ≡ path_of folder.now name.now) }
{
    let mut path = String::new(alloc);
    path.push_str(folder)?;
    path.push_str("/")?;
    path.push_str(name)?;
    path.push_str(".txt")?;
    Ok(path)
}
