//! Escapes of control characters, of separators of lines and paragraphs, and of backslashes.
ghost use Rattle.std.specs.Prelude.{◌≡◌, ◌+◌, ◌<◌, ◌≤◌, ◌++◌, length, take, drop, MatchOption, IsTrue, OnOk};
ghost use Rattle.segment_text.specs.Escapes.{ArePlain, are_control, are_separator, control_of, escape_of, escaped, hex_digit, hex_digits, is_escaped, is_plain, separator_of};

use std::alloc::AllocError;

// So many bytes are looked at, at once.
const RUN_LEN: usize = 16;

/// Adds bytes in UTF-8 to some lines, with control characters, separators and backslashes as escapes, and all else as it is. Fails
/// only when out of memory.
#[inline(always)]
pub fn push_escaped(bytes: &[u8], lines: &mut Vec<u8>) -> Result<(), AllocError>
    ensures { OnOk result (lines.new.items ≡ lines.old.items ++ escaped bytes.now) }
{
    let mut rest = bytes;
    while let Some(found) = first_escaped(rest) {
        lines.extend_from_slice(&rest[..found.start])?;
        push_escape(found.code, lines)?;
        rest = &rest[found.end..];
    }
    lines.extend_from_slice(rest)
}

// A character that is escaped.
#[derive(Clone, Copy)]
struct EscapedChar {
    /// Where it begins.
    start: usize,
    /// Where it ends.
    end: usize,
    /// Its code point.
    code: u16,
}

// The first character of some bytes that is escaped.
#[inline(always)]
fn first_escaped(bytes: &[u8]) -> Option<EscapedChar>
    ensures { MatchOption result (escaped bytes.now ≡ bytes.now)
        (λ found. (found.start < found.end) × (found.end ≤ length bytes.now)
        × (escaped bytes.now ≡ take found.start bytes.now ++ escape_of found.code ++ escaped (drop found.end bytes.now))) }
{
    for start in 0..bytes.len() {
        if let Some((code, len)) = escaped_at(&bytes[start..]) {
            let end = start + len;
            return Some(EscapedChar { start, end, code });
        }
    }
    None
}

// The code point of the character that begins some bytes, where it is escaped, and how many bytes it has.
#[inline(always)]
fn escaped_at(bytes: &[u8]) -> Option<(u16, usize)>
    requires { 0 < length bytes.now }
    ensures { MatchOption result (escaped bytes.now ≡ take 1 bytes.now ++ escaped (drop 1 bytes.now))
        (λ found. (0 < found.1) × (found.1 ≤ length bytes.now)
        × (escaped bytes.now ≡ escape_of found.0 ++ escaped (drop found.1 bytes.now))) }
{
    let first = bytes[0];
    if is_plain(first) {
        return None;
    }
    if is_escaped(first) {
        return Some((first as u16, 1));
    }
    if let Some(code) = control_of(bytes) {
        return Some((code, 2));
    }
    if let Some(code) = separator_of(bytes) {
        return Some((code, 3));
    }
    None
}

// Whether a byte is a character that is escaped.
#[inline(always)]
fn is_escaped(byte: u8) -> bool
    ensures { result ≡ is_escaped byte }
{
    byte < 0x20 || byte == b'\\' || byte == 0x7F
}

/// Whether a byte neither is such a character nor begins one of more bytes.
#[inline(always)]
pub fn is_plain(byte: u8) -> bool
    ensures { result ≡ is_plain byte }
{
    (byte >= 0x20) & (byte != b'\\') & (byte != 0x7F) & (byte != 0xC2) & (byte != 0xE2)
}

// The control character that begins some bytes, where it has two.
fn control_of(bytes: &[u8]) -> Option<u16>
    ensures { result ≡ control_of bytes.now }
{
    match bytes {
        [first, second, ..] if are_control(*first, *second) => Some(*second as u16),
        _ => None,
    }
}

// The separator that begins some bytes.
fn separator_of(bytes: &[u8]) -> Option<u16>
    ensures { result ≡ separator_of bytes.now }
{
    match bytes {
        [first, second, third, ..] if are_separator(*first, *second, *third) => {
            Some(0x1F80 + *third as u16)
        }
        _ => None,
    }
}

// Whether two bytes are a control character.
fn are_control(first: u8, second: u8) -> bool
    ensures { result ≡ are_control first second }
{
    first == 0xC2 && second >= 0x80 && second <= 0x9F
}

// Whether three bytes are a separator.
fn are_separator(first: u8, second: u8, third: u8) -> bool
    ensures { result ≡ are_separator first second third }
{
    first == 0xE2 && second == 0x80 && (third == 0xA8 || third == 0xA9)
}

fn push_escape(code: u16, lines: &mut Vec<u8>) -> Result<(), AllocError>
    ensures { OnOk result (lines.new.items ≡ lines.old.items ++ escape_of code) }
{
    match code {
        0x09 => lines.extend_from_slice(b"\\t"),
        0x0A => lines.extend_from_slice(b"\\n"),
        0x0D => lines.extend_from_slice(b"\\r"),
        0x5C => lines.extend_from_slice(b"\\\\"),
        _ => {
            lines.extend_from_slice(b"\\u{")?;
            push_digits(code, lines)?;
            lines.extend_from_slice(b"}")
        }
    }
}

fn push_digits(code: u16, lines: &mut Vec<u8>) -> Result<(), AllocError>
    ensures { OnOk result (lines.new.items ≡ lines.old.items ++ hex_digits code) }
{
    if code < 0x100 {
        lines.extend_from_slice(&[hex_digit(code / 16), hex_digit(code % 16)])
    } else {
        lines.extend_from_slice(&[
            hex_digit(code / 4096),
            hex_digit(code / 256 % 16),
            hex_digit(code / 16 % 16),
            hex_digit(code % 16),
        ])
    }
}

// The digit of a number below 16.
fn hex_digit(number: u16) -> u8
    requires { number < 16 }
    ensures { result ≡ hex_digit number }
{
    if number < 10 {
        b'0' + number as u8
    } else {
        b'a' + (number - 10) as u8
    }
}

/// How far from a place on no byte is escaped, or begins more bytes that may be.
pub fn plain_end(text: &[u8], from: usize) -> usize
    ensures { ArePlain text.now from result }
{
    if from >= text.len() {
        return from;
    }
    let mut to = plain_runs_end(text, from);
    while to < text.len() && is_plain(text[to]) {
        to += 1;
    }
    to
}

// How far from a place on there are whole runs in which no byte is escaped, or begins more bytes that may be.
fn plain_runs_end(text: &[u8], from: usize) -> usize
    requires { from ≤ length text.now }
    ensures high { result ≤ length text.now }
    ensures plain { ArePlain text.now from result }
{
    let mut to = from;
    while text.len() - to >= RUN_LEN && is_plain_run(text, to) {
        to += RUN_LEN;
    }
    to
}

// Whether no byte of the run at a place is escaped, or begins more bytes that may be.
#[inline(always)]
fn is_plain_run(text: &[u8], from: usize) -> bool
    requires { from + 16 ≤ length text.now }
    ensures { IsTrue result → ArePlain text.now from (from + 16) }
{
    let mut plain = true;
    for offset in 0..RUN_LEN {
        plain &= is_plain(text[from + offset]);
    }
    plain
}
