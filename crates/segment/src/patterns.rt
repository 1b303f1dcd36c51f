//! Patterns of hyphenation from a file.

use anyhow::{Context, Result};
use clap::ArgMatches;
use icu_segmenter::hyphens::HyphenationPatterns;
use std::fs;
use std::rt::Files;

/// The patterns of the file that the command line names, if it names one. The errors are a file that can't be read or is at fault, which is
/// named, and being out of memory.
pub fn patterns_of<R: AllocGlobal + Files>(
    rt: &R,
    matches: &ArgMatches<'_>,
) -> Result<Option<HyphenationPatterns>> {
    match matches.get_str("hyphenate") {
        Some(path) => {
            let read = read_patterns(rt, path);
            Ok(Some(read.context(format_args!("{path}"))?))
        }
        None => Ok(None),
    }
}

fn read_patterns<R: AllocGlobal + Files>(rt: &R, path: &str) -> Result<HyphenationPatterns> {
    let text = fs::read(rt, path)?;
    let patterns = HyphenationPatterns::try_from_text(rt.alloc(), text.as_slice())?;
    Ok(patterns)
}
