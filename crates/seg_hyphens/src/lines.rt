//! Lines of a text of patterns, and what each says.

ghost use Rattle.std.specs.Prelude.{◌≡◌, ◌==◌, ◌||◌, ◌≤◌, length, nat_eq, codes};
ghost use Rattle.std.specs.Char.{is_ascii_digit};
ghost use Rattle.std.specs.Str.{is_utf8};
ghost use Rattle.std.specs.List.{after_first, before_first, list_all, list_any, starts_with};
ghost use Rattle.seg_hyphens.specs.Texts.{encoding_of, is_blank, is_comment, kind_of, kind_of_pattern, left_kind, number_of, right_kind, trimmed};

use crate::fault::Fault;
use std::str;

/// What the bytes of a text are.
#[derive(Clone, Copy, Debug)]
pub enum Encoding {
    Utf8,
    Latin1,
}

/// What a line says.
#[derive(Clone, Copy)]
pub enum LineKind {
    Nothing,
    /// How many characters stand at least before a point.
    Left(usize),
    /// How many stand behind it.
    Right(usize),
    OfPattern,
    Faulty(Fault),
}

/// The first line of a text, without its line feed, and what follows it.
pub fn first_line(text: &[u8]) -> (&[u8], &[u8])
    ensures first { result.0.now ≡ before_first (λ byte. byte == 10) text.now }
    ensures others { result.1.now ≡ after_first (λ byte. byte == 10) text.now }
{
    match text.iter().position(|byte| *byte == b'\n') {
        Some(index) => (&text[..index], &text[index + 1..]),
        None => (text, &[]),
    }
}

/// A line without the white space at its end.
pub fn trimmed(line: &[u8]) -> &[u8]
    ensures { result.now ≡ trimmed line.now }
{
    line.trim_ascii_end()
}

/// The encoding that a line names.
pub fn encoding_of(line: &[u8]) -> Option<Encoding>
    ensures { result ≡ encoding_of line.now }
{
    if line.starts_with(b"UTF-8") && line.len() == 5 {
        return Some(Encoding::Utf8);
    }
    if (line.starts_with(b"ISO8859-1") && line.len() == 9)
        || (line.starts_with(b"ISO-8859-1") && line.len() == 10)
    {
        return Some(Encoding::Latin1);
    }
    None
}

// Whether a line is empty or begins as a comment does.
fn is_comment(line: &[u8]) -> bool
    ensures { result ≡ is_comment line.now }
{
    match line {
        [] => true,
        [first, ..] => *first == b'#' || *first == b'%',
    }
}

// Whether a line is UTF-8.
fn is_utf8(line: &[u8]) -> bool
    ensures { result ≡ is_utf8 line.now }
{
    match str::from_utf8(line) {
        Ok(_) => true,
        Err(_) => false,
    }
}

// The number behind the name of a minimum.
fn number_of(rest: &[u8]) -> Option<usize>
    ensures { result ≡ number_of rest.now }
{
    if rest.len() == 2 && rest[0] == b' ' && rest[1] >= b'1' && rest[1] <= b'9' {
        return Some(usize::from(rest[1] - b'0'));
    }
    None
}

// What a line that gives a minimum before a point says.
fn left_kind(line: &[u8]) -> LineKind
    requires { 13 ≤ length line.now }
    ensures { result ≡ left_kind line.now }
{
    match number_of(&line[13..]) {
        Some(number) => LineKind::Left(number),
        None => LineKind::Faulty(Fault::NotNumber),
    }
}

// What a line that gives a minimum behind a point says.
fn right_kind(line: &[u8]) -> LineKind
    requires { 14 ≤ length line.now }
    ensures { result ≡ right_kind line.now }
{
    match number_of(&line[14..]) {
        Some(number) => LineKind::Right(number),
        None => LineKind::Faulty(Fault::NotNumber),
    }
}

// Whether a line changes letters.
fn has_change(line: &[u8]) -> bool
    ensures { result ≡ list_any (λ byte. byte == 47) line.now }
{
    line.iter().any(|byte| *byte == b'/')
}

// Whether white space or a control character stands in a line.
fn has_blank(line: &[u8]) -> bool
    ensures { result ≡ list_any is_blank line.now }
{
    line.iter().any(|byte| *byte <= b' ')
}

// Whether a line is digits alone.
fn is_digits(line: &[u8]) -> bool
    ensures { result ≡ list_all is_ascii_digit line.now }
{
    line.iter().all(|byte| byte.is_ascii_digit())
}

// Whether a line gives a minimum of parts of compounds, which one level of patterns does without.
fn is_compound_minimum(line: &[u8]) -> bool
    ensures { result ≡ (starts_with nat_eq line.now (codes "COMPOUNDLEFTHYPHENMIN") || starts_with nat_eq line.now (codes "COMPOUNDRIGHTHYPHENMIN")) }
{
    line.starts_with(b"COMPOUNDLEFTHYPHENMIN") || line.starts_with(b"COMPOUNDRIGHTHYPHENMIN")
}

/// What a line in UTF-8 without white space at its end says.
pub fn kind_of(line: &[u8]) -> LineKind
    ensures { result ≡ kind_of line.now }
{
    if is_comment(line) {
        return LineKind::Nothing;
    }
    if !is_utf8(line) {
        return LineKind::Faulty(Fault::NotUtf8);
    }
    if line.starts_with(b"LEFTHYPHENMIN") {
        return left_kind(line);
    }
    if line.starts_with(b"RIGHTHYPHENMIN") {
        return right_kind(line);
    }
    if is_compound_minimum(line) {
        return LineKind::Nothing;
    }
    if line.starts_with(b"NEXTLEVEL") {
        return LineKind::Faulty(Fault::NextLevel);
    }
    if line.starts_with(b"NOHYPHEN") {
        return LineKind::Faulty(Fault::NoHyphen);
    }
    kind_of_pattern(line)
}

// What a line says that is none of the others.
fn kind_of_pattern(line: &[u8]) -> LineKind
    ensures { result ≡ kind_of_pattern line.now }
{
    if has_change(line) {
        return LineKind::Faulty(Fault::NonStandard);
    }
    if has_blank(line) {
        return LineKind::Faulty(Fault::Blank);
    }
    if is_digits(line) {
        return LineKind::Faulty(Fault::NoLetters);
    }
    LineKind::OfPattern
}
