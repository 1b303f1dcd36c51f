//! Words in lists.
ghost use Rattle.std.specs.Prelude.{◌≡◌, map, IfOk};
ghost use Rattle.segment.specs.Words.{words_in};

use anyhow::{Result, bail};
use segment_text::size::line_feeds;
use std::alloc::{AllocError, Global};

/// The text that a file's bytes are. The error is ill-formed UTF-8, with its line.
pub fn text_of(bytes: &[u8]) -> Result<&str>
    ensures { IfOk result (λ text. text.now ≡ bytes.now) }
{
    match str::from_utf8(bytes) {
        Ok(text) => Ok(text),
        Err(error) => {
            let before = line_feeds(&bytes[..error.valid_up_to()]);
            bail!("line {}: ill-formed UTF-8", before + 1)
        }
    }
}

/// A text without a byte order mark at its start.
pub fn without_mark(text: &str) -> &str {
    text.strip_prefix('\u{FEFF}').unwrap_or(text)
}

/// The words of a list: one a line, without the white space around it; lines that are empty or white space alone have none. Fails only when
/// out of memory.
pub fn words_in<'t>(alloc: Global, list: &'t str) -> Result<Vec<&'t str>, AllocError>
    ensures { IfOk result (λ words. map (λ word. word.now) words.items ≡ words_in list.now) }
{
    list.lines()
        .map(|line| line.trim())
        .filter(|word| !word.is_empty())
        .collect(alloc)
}
