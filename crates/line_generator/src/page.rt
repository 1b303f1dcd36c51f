//! A text that is written, and which flags it names.

use seg_rules::rules::{Class, Count};
use std::alloc::{AllocError, Global};

/// A text, and the flags of patterns that it names.
#[derive(Drop)]
pub(crate) struct Page {
    pub(crate) text: String,
    /// Each as a number of two bits a flag, the first the highest: 1 says no, 2 says yes, and 0 that there are no more.
    pub(crate) flags: Vec<u32>,
}

// So many flags are a number.
const MOST: u32 = 16;

impl Page {
    /// Nothing is written yet.
    pub(crate) fn new(alloc: Global) -> Page {
        Page {
            text: String::new(alloc),
            flags: Vec::new(alloc),
        }
    }

    /// Writes words.
    pub(crate) fn push(&mut self, words: &str) -> Result<(), AllocError> {
        self.text.push_str(words)
    }

    /// Begins a list.
    pub(crate) fn define(&mut self, name: &str, kind: &str) -> Result<(), AllocError> {
        write!(self.text, "unfoldable pub {name} : {kind}\n{name} =\n")
    }

    /// Writes the name of the flags of a pattern, of which the first is the lowest bit.
    pub(crate) fn push_flags(
        &mut self,
        pattern: &[(Class, Count)],
        bits: u32,
    ) -> Result<(), AllocError> {
        let flags = flags_of(width(pattern), bits);
        if !self.flags.contains(&flags) {
            self.flags.push(flags)?;
        }
        push_name(&mut self.text, flags)
    }
}

/// Writes the name of flags.
pub(crate) fn push_name(text: &mut String, flags: u32) -> Result<(), AllocError> {
    text.push_str("live_")?;
    push_words(text, flags, "f", "t")
}

// How many flags a pattern has.
fn width(pattern: &[(Class, Count)]) -> u32 {
    let mut width = 1_u32;
    for (_, count) in pattern {
        width = width.saturating_add(if *count == Count::Pairs { 2 } else { 1 });
    }
    width
}

// Flags as a number.
fn flags_of(width: u32, bits: u32) -> u32 {
    let mut flags = 0_u32;
    for place in 0..MOST {
        let flag = if place < width {
            1 + (bits >> place & 1)
        } else {
            0
        };
        flags = flags << 2 | flag;
    }
    flags
}

/// Writes flags, each as one of two words.
pub(crate) fn push_words(
    text: &mut String,
    flags: u32,
    no: &str,
    yes: &str,
) -> Result<(), AllocError> {
    for place in 0..MOST {
        match flags >> (2 * (MOST - 1 - place)) & 3 {
            1 => text.push_str(no)?,
            2 => text.push_str(yes)?,
            _ => {}
        }
    }
    Ok(())
}
