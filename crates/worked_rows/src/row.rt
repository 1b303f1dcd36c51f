//! Rows: parts with semicolons between them, each a name and what it holds, and last the text that is asked, if there is one.

use crate::numbers::hex_of;
use anyhow::{Context, Result};

/// A row, with the lines of settings before it. It has the parts of these, where its own don't take their place.
#[derive(Clone, Copy)]
pub struct Row<'a> {
    lines: &'a str,
    own: &'a str,
    quoted: Option<&'a str>,
    // What the names of parts begin with in the lines.
    whose: &'static str,
}

/// What a line asks, and the answer that is wanted; none for settings, a comment and an empty line.
pub fn row_of(line: &str) -> Option<(&str, &str)> {
    if line.starts_with('#') {
        return None;
    }
    line.split_once(" |")
}

impl<'a> Row<'a> {
    /// What is asked, after these lines of settings.
    pub fn new(lines: &'a str, asked: &'a str) -> Self {
        let (own, quoted) = match asked.split_once('"') {
            Some((own, text)) => (own, Some(text.strip_suffix('"').unwrap_or(text))),
            None => (asked, None),
        };
        Row {
            lines,
            own,
            quoted,
            whose: "",
        }
    }

    /// What is asked, with the parts of the lines alone, whose names begin so there.
    pub fn parts_of(self, whose: &'static str) -> Self {
        Row {
            lines: self.lines,
            own: "",
            quoted: self.quoted,
            whose,
        }
    }

    /// All that it asks itself, but a text between quotes.
    pub fn asked(self) -> &'a str {
        self.own.trim()
    }

    /// The text between quotes, with its escapes.
    pub fn quoted(self) -> Option<&'a str> {
        self.quoted
    }

    /// What the part of this name holds.
    pub fn part(self, name: &str) -> Option<&'a str> {
        self.part_since(name, "find")
    }

    /// What the part of this name holds, unless a later line of the other name begins anew.
    pub fn part_since(self, name: &str, anew: &str) -> Option<&'a str> {
        match own_part(self.own, name) {
            Some(words) => Some(words),
            None => self.line_part(name, anew),
        }
    }

    // Such a part among the lines of settings, of which other rows stand between.
    fn line_part(self, name: &str, anew: &str) -> Option<&'a str> {
        for line in self.lines.rsplit('\n') {
            match setting_in(line, self.whose) {
                Some((found, words)) if found == name => return Some(words),
                Some((found, _)) if found == anew => return None,
                _ => {}
            }
        }
        None
    }

    /// What the part of this name holds, which must be there.
    pub fn words(self, name: &str) -> Result<&'a str> {
        Ok(self.part(name).context("a part that must be there")?)
    }

    /// The number in the part of this name.
    pub fn number(self, name: &str) -> Result<usize> {
        Ok(self.words(name)?.parse()?)
    }

    /// The code point in the part of this name, in hexadecimal digits.
    pub fn code_point(self, name: &str) -> Result<u32> {
        hex_of(self.words(name)?)
    }
}

// What the part of this name holds among a row's own.
fn own_part<'a>(parts: &'a str, name: &str) -> Option<&'a str> {
    for part in parts.split(';') {
        let (found, words) = named(part.trim());
        if found == name {
            return Some(words);
        }
    }
    None
}

// The part of a line of settings whose name begins so, without that beginning.
fn setting_in<'a>(line: &'a str, whose: &str) -> Option<(&'a str, &'a str)> {
    match row_of(line) {
        Some(_) => None,
        None => Some(named(line.strip_prefix(whose)?)),
    }
}

// The name of a part, and what it holds.
fn named(part: &str) -> (&str, &str) {
    part.split_once(' ').unwrap_or((part, ""))
}
