//! Rules that were read from a text: the reader of lines, and what a caller gets.

ghost use Rattle.std.specs.Prelude.{◌≡◌, ◌+◌, ◌-◌, ◌^◌, ◌≤◌, ◌==◌, count_by, length, min};
ghost use Rattle.std.specs.List.{after_first, before_first};
ghost use Rattle.seg_notation.specs.Lines.{is_end};

use crate::fault::{Fault, TextError};
use crate::given::rows_of;
use crate::line::Line;
use crate::rows::{EDGE, Marks, OwnRow, marks_of, row_of};
use crate::sets::set_of;
use crate::symbols::Symbols;
use seg_compile::compile::{Characters, CompileError, compile};
use seg_data::provider::ClassTable;
use seg_machine::provider::{SegmenterStateMachine, Symbol};
use seg_rules::rules::{Count, Rules};
use std::alloc::Global;
use std::fmt;

/// Rules of boundaries, read from a text, with the symbols of code points.
#[derive(Drop)]
pub struct TextRules {
    symbols: Symbols,
    // The rules above that of marks, and those below it; without it all are above.
    above: Vec<OwnRow>,
    below: Vec<OwnRow>,
    has_marks: bool,
    marks: Marks,
    at_end: u8,
    // Whether the status of the end was read.
    has_end: bool,
    ghost few_above: { length above.items ≤ 255 },
    ghost few_below: { length below.items ≤ 255 },
}

impl fmt::Debug for TextRules {
    fn fmt<W: fmt::Write>(&self, f: &mut fmt::Formatter<W>) -> fmt::Result {
        f.write_str("TextRules { .. }")
    }
}

const MAX_ROWS: usize = 255;

impl TextRules {
    ghost use Rattle.std.specs.Prelude.{IfOk, IfErr};
    ghost use Rattle.seg_rules.specs.Passed.{FindsPlaces};
    ghost use Rattle.seg_notation.specs.Lines.{IsColumnOf, IsLineOf};
    ghost use Rattle.seg_notation.specs.Texts.{rules_in};

    /// Reads rules from a text, whose notation is told at the head of this crate.
    ///
    /// The error has the first line that is wrong, the column, and what is wrong there: of a text that lacks rules its last line, and the
    /// line that was read when memory was refused.
    pub fn try_from_text(alloc: Global, text: &str) -> Result<TextRules, TextError>
        ensures line { IfErr result (λ error. IsLineOf text.now error.line) }
        ensures column { IfErr result (λ error. IsColumnOf text.now error.line error.column) }
    {
        let ends = line_ends(text);
        let characters = match text.chars().collect::<Vec<char>>(alloc) {
            Ok(characters) => characters,
            Err(_) => return Err(error_at(0, 1, Fault::Memory)),
        };
        let mut rules = TextRules::new(alloc);
        let mut rest = characters.as_slice();
        for before in 0..=ends {
            let (line, others) = first_line(rest);
            rest = others;
            let mut unread = Line::new(line);
            if let Err(fault) = rules.read(alloc, &mut unread, before.saturating_add(1)) {
                let column = column_of(line, unread.token());
                return Err(error_at(before, column, fault));
            }
        }
        match rules.check() {
            Ok(()) => Ok(rules),
            Err(fault) => Err(error_at(ends, 1, fault)),
        }
    }

    /// How many symbols there are beside the end of the text: the sets, and `other`. They are numbered from 1 on, and at most 127.
    pub fn symbols(&self) -> usize
        ensures some { 1 ≤ result }
        ensures few { result ≤ 127 }
    {
        usize::from(self.symbols.count())
    }

    /// The name of a symbol; `None` for what is no symbol, and for the end of the text, 0.
    pub fn name_of(&self, symbol: Symbol) -> Option<&str> {
        self.symbols.name_of(symbol)
    }

    /// The line, from 1 on, of a row with this number, from 0 on, as an error of `compile` names it.
    pub fn line_of_row(&self, row: usize) -> Option<usize> {
        match row.checked_sub(self.above.len()) {
            Some(row) => Some(self.below.get(row)?.line),
            None => Some(self.above.get(row)?.line),
        }
    }

    /// The machine of these rules: its boundaries of every list of code points are, with their statuses, the places where they break.
    ///
    /// The errors are those of `seg_compile`, whose rows `line_of_row` gives as lines.
    pub fn compile(&self, alloc: Global) -> Result<SegmenterStateMachine, CompileError>
        ensures { IfOk result (λ machine. FindsPlaces (rules_in self.now) machine) }
    {
        let Ok(above) = rows_of(alloc, self.above.as_slice()) else {
            return Err(CompileError::Memory);
        };
        let Ok(below) = rows_of(alloc, self.below.as_slice()) else {
            return Err(CompileError::Memory);
        };
        let characters = characters_of(alloc, &self.symbols)?;
        let rules = Rules {
            above: above.as_slice(),
            below: below.as_slice(),
            has_marks: self.has_marks,
            marks: self.marks.marks,
            bare: self.marks.bare,
            alone: self.marks.alone,
            at_end: self.at_end,
        };
        compile(alloc, &rules, self.symbols(), characters)
    }

    // No rules.
    fn new(alloc: Global) -> TextRules {
        TextRules {
            symbols: Symbols::new(alloc),
            above: Vec::new(alloc),
            below: Vec::new(alloc),
            has_marks: false,
            marks: Marks::NONE,
            at_end: 0,
            has_end: false,
        }
    }

    // Reads a line, whose number is given.
    fn read(&mut self, alloc: Global, line: &mut Line<'_>, number: usize) -> Result<(), Fault> {
        if line.is_done() {
            return Ok(());
        }
        let start = line.len();
        let mut ahead = *line;
        let word = ahead.word();
        if !word.is_empty() && ahead.takes('=') {
            *line = ahead;
            line.go_back_to(start);
            return self.read_set(alloc, word, line, number);
        }
        if line.takes_word("X") {
            return self.read_marks(line);
        }
        let row = row_of(alloc, line, &self.symbols, number)?;
        line.go_back_to(start);
        self.add(row)
    }

    // Reads a set behind its `=`, whose name is where the line has gone back to.
    fn read_set(
        &mut self,
        alloc: Global,
        word: &[char],
        line: &mut Line<'_>,
        number: usize,
    ) -> Result<(), Fault> {
        let name = line.token();
        if self.has_end || self.has_marks || !self.above.is_empty() {
            return Err(Fault::SetAfterRule);
        }
        self.symbols.check_name(word)?;
        let points = set_of(alloc, line, &self.symbols)?;
        line.go_back_to(name);
        self.symbols.add(alloc, word, number, points)
    }

    // Reads the rule of marks behind its `X`.
    fn read_marks(&mut self, line: &mut Line<'_>) -> Result<(), Fault> {
        if self.has_marks {
            return Err(Fault::SecondMarks);
        }
        self.marks = marks_of(line, &self.symbols)?;
        self.has_marks = true;
        Ok(())
    }

    // Adds a rule, or the status of the end.
    fn add(&mut self, row: OwnRow) -> Result<(), Fault> {
        if is_of_end(&row) {
            return self.end(row.verdict);
        }
        if self.has_marks {
            add_row(&mut self.below, row)
        } else {
            add_row(&mut self.above, row)
        }
    }

    // Sets the status of the end.
    fn end(&mut self, verdict: u8) -> Result<(), Fault> {
        match verdict.checked_sub(1) {
            Some(status) => {
                self.at_end = status;
                self.has_end = true;
                Ok(())
            }
            None => Err(Fault::JoinedEnd),
        }
    }

    // Whether the last rule decides all else.
    fn check(&self) -> Result<(), Fault> {
        match self.below.last().or(self.above.last()) {
            None => Err(Fault::NoRules),
            Some(row) if row.left.is_empty() && row.right.is_empty() => Ok(()),
            Some(_) => Err(Fault::NoLastRule),
        }
    }
}

// What is wrong in the line after so many ends of lines.
fn error_at(ends: usize, column: usize, fault: Fault) -> TextError
    ensures line { result.line ≡ min (ends + 1) (2 ^ 64 - 1) }
    ensures column { result.column ≡ column }
{
    TextError {
        line: ends.saturating_add(1),
        column,
        fault,
    }
}

// The column of the place in a line where so many characters are left.
fn column_of(line: &[char], left: usize) -> usize
    ensures some { 1 ≤ result }
    ensures few { result ≤ length line.now + 1 }
{
    line.len().saturating_sub(left).saturating_add(1)
}

// Adds a rule to those above that of marks, or below it.
fn add_row(rows: &mut Vec<OwnRow>, row: OwnRow) -> Result<(), Fault>
    requires { length rows.old.items ≤ 255 }
    ensures { length rows.new.items ≤ 255 }
{
    if rows.len() >= MAX_ROWS {
        return Err(Fault::TooManyRules);
    }
    rows.push(row)?;
    Ok(())
}

// The symbols of code points.
fn characters_of(alloc: Global, symbols: &Symbols) -> Result<Characters, CompileError> {
    let Ok(ranges) = symbols.ranges(alloc) else {
        return Err(CompileError::Memory);
    };
    let symbols = ClassTable::try_from_ranges(ranges, symbols.count()).map_err(CompileError::Data)?;
    Ok(Characters {
        symbols,
        pseudo_symbol_shift: u8::MAX,
        pseudo_symbol_map: Vec::new(alloc),
    })
}

// Whether a rule is of the end of the text alone.
fn is_of_end(row: &OwnRow) -> bool {
    row.left.is_empty() && matches!(row.right.as_slice(), [(EDGE, Count::One)])
}

// How many lines of a text end before the last one.
fn line_ends(text: &str) -> usize
    ensures { result ≡ count_by (λ byte. byte == 10) text.now }
{
    text.as_bytes()
        .iter()
        .filter(|byte| **byte == b'\n')
        .count()
}

// The first line of some, without its end, and what follows it.
fn first_line(characters: &[char]) -> (&[char], &[char])
    ensures first { result.0.now ≡ before_first is_end characters.now }
    ensures others { result.1.now ≡ after_first is_end characters.now }
{
    match characters.iter().position(|character| *character == '\n') {
        Some(index) => (&characters[..index], &characters[index + 1..]),
        None => (characters, &[]),
    }
}
