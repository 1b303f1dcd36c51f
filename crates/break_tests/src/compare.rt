//! Pair tables beside machines, on every text of up to three characters out of some.

use crate::engine::Engine;
use crate::segmenter::TestedSegmenter;
use anyhow::{Context, Result};
use std::alloc::{AllocError, Global};

/// What is compared, and the characters of texts.
#[derive(Clone, Copy)]
struct Comparison<'a> {
    table: &'a TestedSegmenter,
    machine: &'a TestedSegmenter,
    characters: &'a [char],
}

/// How many texts there were, on how many of them the boundaries differ, and the first of the shortest of these.
#[derive(Drop)]
struct Differences {
    texts: u32,
    differ: u32,
    shortest: Vec<char>,
}

/// Compares pair tables with machines on the characters of each row, and prints how many texts there were and how many differ. A row has
/// a name, a semicolon and code points in hexadecimal digits. The errors are out of memory, a row that can't be read, and output that
/// fails.
pub fn compare_rows(rt: &HostRuntime, text: &str) -> Result<()> {
    for row in text.lines() {
        if let Some((name, code_points)) = row.split_once(';') {
            compare_row(rt, name, code_points)?;
        }
    }
    Ok(())
}

// Compares what the first word of the name says.
fn compare_row(rt: &HostRuntime, name: &str, code_points: &str) -> Result<()> {
    let characters = characters_of(rt.alloc(), code_points)?;
    let characters = characters.as_slice();
    match name.split_whitespace().next() {
        Some("clusters") => compare(rt, name, Engine::ClusterTable, characters),
        Some("sentences") => compare(rt, name, Engine::SentenceTable, characters),
        Some("words") => compare(rt, name, Engine::WordTable, characters),
        _ => {
            compare(rt, name, Engine::LineTable, characters)?;
            compare(rt, name, Engine::LineTurns, characters)
        }
    }
}

// The characters of code points in hexadecimal digits.
fn characters_of(alloc: Global, code_points: &str) -> Result<Vec<char>> {
    let mut characters = Vec::new(alloc);
    for digits in code_points.split_whitespace() {
        let code_point = u32::from_str_radix(digits, 16)?;
        characters.push(char::from_u32(code_point).context("a surrogate")?)?;
    }
    Ok(characters)
}

fn compare(rt: &HostRuntime, name: &str, engine: Engine, characters: &[char]) -> Result<()> {
    let Differences {
        texts,
        differ,
        shortest,
    } = differences_of(rt.alloc(), engine, characters)?;
    let shortest = written(rt.alloc(), shortest.as_slice())?;
    let (by_table, by_machine) = (engine.name(), engine.machine().name());
    println!(rt; "{name}; {by_table}, {by_machine}: {texts} texts, {differ} differ{shortest}")?;
    Ok(())
}

fn differences_of(alloc: Global, engine: Engine, characters: &[char]) -> Result<Differences> {
    let table = engine.segmenter(alloc)?;
    let machine = engine.machine().segmenter(alloc)?;
    let comparison = Comparison {
        table: &table,
        machine: &machine,
        characters,
    };
    comparison.differences(alloc)
}

// What is printed of the shortest text that differs.
fn written(alloc: Global, characters: &[char]) -> Result<String> {
    let mut found = String::new(alloc);
    for character in characters {
        let sign = if found.is_empty() { ", as" } else { "" };
        let code_point = u32::from(*character);
        write!(found, "{sign} {code_point:04X}")?;
    }
    Ok(found)
}

impl Comparison<'_> {
    // The differences of all texts of up to three characters.
    fn differences(&self, alloc: Global) -> Result<Differences> {
        let mut found = Differences {
            texts: 0,
            differ: 0,
            shortest: Vec::new(alloc),
        };
        self.add_all(alloc, &mut found)?;
        Ok(found)
    }

    fn add_all(&self, alloc: Global, found: &mut Differences) -> Result<()> {
        for first in self.characters.iter() {
            self.add(alloc, &[*first], found)?;
            self.add_after(alloc, *first, found)?;
        }
        Ok(())
    }

    // Adds the texts of two and three that begin with this one.
    fn add_after(&self, alloc: Global, first: char, found: &mut Differences) -> Result<()> {
        for second in self.characters.iter() {
            self.add(alloc, &[first, *second], found)?;
            self.add_after_two(alloc, [first, *second], found)?;
        }
        Ok(())
    }

    // Adds the texts of three that begin with these two.
    fn add_after_two(
        &self,
        alloc: Global,
        begin: [char; 2],
        found: &mut Differences,
    ) -> Result<()> {
        let [first, second] = begin;
        for third in self.characters.iter() {
            self.add(alloc, &[first, second, *third], found)?;
        }
        Ok(())
    }

    // Adds a text.
    fn add(&self, alloc: Global, characters: &[char], found: &mut Differences) -> Result<()> {
        found.texts = found.texts.saturating_add(1);
        if self.differs(alloc, characters)? {
            if found.differ == 0 || characters.len() < found.shortest.len() {
                found.shortest = Vec::from_slice(alloc, characters)?;
            }
            found.differ = found.differ.saturating_add(1);
        }
        Ok(())
    }

    // Whether the text has other boundaries by the table than by the machine.
    fn differs(&self, alloc: Global, characters: &[char]) -> Result<bool> {
        let text = text_of(alloc, characters)?;
        Ok(self.differs_in(alloc, text.as_str())?)
    }

    fn differs_in(&self, alloc: Global, text: &str) -> Result<bool, AllocError> {
        let by_table = self.table.places_in_str(alloc, text)?;
        let by_machine = self.machine.places_in_str(alloc, text)?;
        Ok(by_table != by_machine)
    }
}

fn text_of(alloc: Global, characters: &[char]) -> Result<String, AllocError> {
    let mut text = String::new(alloc);
    for character in characters {
        text.push(*character)?;
    }
    Ok(text)
}
