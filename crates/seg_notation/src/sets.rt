//! The reader of sets of code points: terms joined by `+` and `-`. For the reader of lines.
ghost use Rattle.std.specs.Prelude.{◌≡◌, ◌≤◌, ℕ, IfOk};
ghost use Rattle.ucd_sets.specs.Sets.{in_set};
ghost use Rattle.seg_notation.specs.Sets.{has};

use crate::fault::Fault;
use crate::line::Line;
use crate::merge::Join;
use crate::points::CodePoints;
use crate::symbols::Symbols;
use std::alloc::{AllocError, Global};
use ucd_sets::{LookupError, Set, by_name, by_value, normalize};

// How many terms a set may have, so that none takes long.
const MAX_TERMS: usize = 100;

const MAX_CODE_POINT: u32 = 0x10_FFFF;

/// Reads a set up to the end of its line. Returns its code points.
pub(crate) fn set_of(
    alloc: Global,
    line: &mut Line<'_>,
    symbols: &Symbols,
) -> Result<CodePoints, Fault> {
    let mut points = term(alloc, line, symbols)?;
    for _ in 1..MAX_TERMS {
        let Some(join) = sign(line) else {
            break;
        };
        let next = term(alloc, line, symbols)?;
        points = points.joined(alloc, &next, join)?;
    }
    if line.is_done() {
        Ok(points)
    } else if sign(line).is_some() {
        Err(Fault::TooManyTerms)
    } else {
        Err(Fault::NoSign)
    }
}

// Reads the sign between two terms, if one comes next.
fn sign(line: &mut Line<'_>) -> Option<Join> {
    if line.takes('+') {
        Some(Join::Either)
    } else if line.takes('-') {
        Some(Join::First)
    } else {
        None
    }
}

// Reads a term. Returns its code points.
fn term(alloc: Global, line: &mut Line<'_>, symbols: &Symbols) -> Result<CodePoints, Fault> {
    if line.takes('\\') {
        property(alloc, line)
    } else if line.takes('[') {
        bracket(alloc, line)
    } else if line.begins_number() {
        let (first, last) = numbers(line)?;
        Ok(CodePoints::of_range(alloc, first, last)?)
    } else {
        symbols.points_of(alloc, line.word())
    }
}

// Reads a property behind its `\`. Returns its code points.
fn property(alloc: Global, line: &mut Line<'_>) -> Result<CodePoints, Fault> {
    if !line.takes_at_once('p') || !line.takes_at_once('{') {
        return Err(Fault::NoTerm);
    }
    let start = line.len();
    let name = line.property();
    let value = if line.takes_at_once('=') {
        Some(line.property())
    } else {
        None
    };
    if !line.takes_at_once('}') {
        return Err(Fault::NoBrace);
    }
    let set = found(alloc, name, value);
    if matches!(set, Err(Fault::UnknownProperty)) {
        line.go_back_to(start);
    }
    Ok(members(alloc, set?)?)
}

// The code points that a property names.
fn members(alloc: Global, set: Set) -> Result<CodePoints, AllocError>
    ensures { IfOk result (λ points. (c : ℕ) → c ≤ 0x10FFFF → has points.changes.items c ≡ in_set set c) }
{
    let ranges = set.ranges(alloc)?;
    let points = CodePoints::of_ranges(alloc, ranges.as_slice())?;
    Ok(points)
}

// The set of a property, or of a property and a value.
fn found(alloc: Global, name: &[char], value: Option<&[char]>) -> Result<Set, Fault> {
    let name = plain(alloc, name)?;
    let found = match value {
        None => by_name(name.as_slice()),
        Some(value) => by_value(name.as_slice(), plain(alloc, value)?.as_slice()),
    };
    match found {
        Ok(set) => Ok(set),
        Err(LookupError::PropertyNotFound) => Err(Fault::UnknownProperty),
        Err(LookupError::PropertyValueNotFound) => Err(Fault::UnknownValue),
    }
}

// A name as names are compared. One that isn't ASCII is nobody's: what isn't is kept as a letter that no name has.
fn plain(alloc: Global, name: &[char]) -> Result<Vec<u8>, Fault> {
    if is_ascii(name) {
        Ok(normalize(alloc, name)?)
    } else {
        Ok(Vec::from_slice(alloc, b"?")?)
    }
}

fn is_ascii(name: &[char]) -> bool {
    for character in name {
        if !character.is_ascii() {
            return false;
        }
    }
    true
}

// Reads a bracket behind its `[`. Returns its code points.
fn bracket(alloc: Global, line: &mut Line<'_>) -> Result<CodePoints, Fault> {
    let mut ranges = Vec::new(alloc);
    for _ in 0..line.len() {
        if line.takes(']') {
            return code_points_of(alloc, ranges.as_slice());
        }
        ranges.push(range(line)?)?;
    }
    Err(Fault::NoBracket)
}

// The code points of a bracket, which isn't empty.
fn code_points_of(alloc: Global, ranges: &[(u32, u32)]) -> Result<CodePoints, Fault> {
    if ranges.is_empty() {
        return Err(Fault::EmptyBracket);
    }
    Ok(CodePoints::of_ranges(alloc, ranges)?)
}

// Reads a character within brackets, or a range of them.
fn range(line: &mut Line<'_>) -> Result<(u32, u32), Fault> {
    let start = line.len();
    let first = character(line)?;
    if !line.takes_dots() {
        return Ok((first, first));
    }
    let last = character(line)?;
    line.go_back_to(start);
    in_order(first, last)
}

// Reads a code point by its number outside of brackets, or a range of them.
fn numbers(line: &mut Line<'_>) -> Result<(u32, u32), Fault> {
    let start = line.len();
    let first = number(line)?;
    if !line.takes_dots() {
        return Ok((first, first));
    }
    if !line.begins_number() {
        return Err(Fault::NoCharacter);
    }
    let last = number(line)?;
    line.go_back_to(start);
    in_order(first, last)
}

fn in_order(first: u32, last: u32) -> Result<(u32, u32), Fault> {
    if first <= last {
        Ok((first, last))
    } else {
        Err(Fault::BackwardRange)
    }
}

// Reads a character within brackets.
fn character(line: &mut Line<'_>) -> Result<u32, Fault> {
    if line.begins_number() {
        return number(line);
    }
    if line.begins('.', '.') || line.next() == Some(']') {
        return Err(Fault::NoCharacter);
    }
    let is_escaped = line.takes_at_once('\\');
    match line.read() {
        Some(character) if is_escaped && is_letter(character) => Err(Fault::EscapedLetter),
        Some(character) => Ok(u32::from(character)),
        None if is_escaped => Err(Fault::NoCharacter),
        None => Err(Fault::NoBracket),
    }
}

// Whether a character is a letter or a digit of ASCII, which means nothing else after a backslash; that of `U+` may stand there.
fn is_letter(character: char) -> bool {
    character.is_ascii_alphanumeric() && character != 'U'
}

// Reads a code point by its number, as `U+2010`.
fn number(line: &mut Line<'_>) -> Result<u32, Fault> {
    line.read();
    line.read();
    let mut value = 0_u32;
    for _ in 0..line.len() {
        let Some(digit) = digit(line) else {
            break;
        };
        value = value.saturating_mul(16).saturating_add(digit);
    }
    if value <= MAX_CODE_POINT {
        Ok(value)
    } else {
        Err(Fault::NoCodePoint)
    }
}

// Reads a digit, if one comes next.
fn digit(line: &mut Line<'_>) -> Option<u32> {
    let digit = line.next()?.to_digit(16)?;
    line.read();
    Some(digit)
}
