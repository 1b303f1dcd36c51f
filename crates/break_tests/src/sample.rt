//! The lines of the official test files.

use anyhow::{Context, Result};
use std::alloc::{AllocError, Global};

/// A text, and where its boundaries stand.
pub struct Sample {
    /// The text.
    pub text: String,
    /// The text in UTF-16.
    pub units: Vec<u16>,
    /// Its boundaries, in bytes of UTF-8.
    pub places: Vec<usize>,
    /// Its boundaries, in units of UTF-16.
    pub unit_places: Vec<usize>,
    /// Its mandatory boundaries, in bytes of UTF-8, by the numbers of rules that the comment names.
    pub mandatory: Vec<usize>,
}

// Written out, so that it is proved here and not in each function that drops one.
impl Drop for Sample {
    fn drop(self) {
        let Sample {
            text: _,
            units: _,
            places: _,
            unit_places: _,
            mandatory: _,
        } = self;
    }
}

// The rules of UAX #14 by which a line must be broken: after the text and after LB4's and LB5's characters.
const MANDATORY: [&str; 5] = ["[0.3]", "[4.0]", "[5.02]", "[5.03]", "[5.04]"];

/// The sample of a line, which has ÷ and × and between them code points in hexadecimal digits, and in a comment the number
/// of the rule for each mark; ! is a mandatory boundary. None for a line that is empty or a comment alone.
pub fn sample_of(alloc: Global, line: &str) -> Result<Option<Sample>> {
    let mut sample = empty_sample(alloc);
    sample.add_line(line)?;
    if sample.text.is_empty() {
        return Ok(None);
    }
    Ok(Some(sample))
}

fn empty_sample(alloc: Global) -> Sample {
    Sample {
        text: String::new(alloc),
        units: Vec::new(alloc),
        places: Vec::new(alloc),
        unit_places: Vec::new(alloc),
        mandatory: Vec::new(alloc),
    }
}

impl Sample {
    // The marks and the code points of a line.
    fn add_line(&mut self, line: &str) -> Result<()> {
        let (marks, comment) = line.split_once('#').unwrap_or((line, ""));
        let mut rules = comment
            .split_whitespace()
            .filter(|word| word.starts_with('['));
        for word in marks.split_whitespace() {
            match word {
                "÷" | "×" | "!" => self.add_mark(word, rules.next())?,
                _ => self.add_character(word)?,
            }
        }
        Ok(())
    }

    // The mark after what is there, by this rule.
    fn add_mark(&mut self, mark: &str, rule: Option<&str>) -> Result<()> {
        let (text_len, unit_len) = (self.text.len(), self.units.len());
        // A text has a boundary at its start, though rules of lines say none.
        if mark == "×" && text_len > 0 {
            return Ok(());
        }
        self.places.push(text_len).map_err(AllocError::from)?;
        self.unit_places.push(unit_len).map_err(AllocError::from)?;
        if text_len > 0 && (mark == "!" || rule.is_some_and(|rule| MANDATORY.contains(&rule))) {
            self.mandatory.push(text_len).map_err(AllocError::from)?;
        }
        Ok(())
    }

    // The code point of these digits.
    fn add_character(&mut self, digits: &str) -> Result<()> {
        let code_point = u32::from_str_radix(digits, 16)?;
        let character = char::from_u32(code_point).context("a surrogate")?;
        self.text.push(character)?;
        let mut units = [0; 2];
        for unit in character.encode_utf16(&mut units).iter() {
            self.units.push(*unit).map_err(AllocError::from)?;
        }
        Ok(())
    }
}
