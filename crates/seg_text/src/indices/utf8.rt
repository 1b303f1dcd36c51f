//! A cursor over possibly ill-formed UTF-8.

ghost use Rattle.std.specs.Prelude.{◌≡◌, ◌≤◌, ◌<◌, ℕ, ⊤, ◌↔◌, IsTrue, [], ◌∷◌, drop, length, ◌+◌, ◌==◌, slice_index};
ghost use Rattle.std.specs.Char.{IsScalar};
ghost use Rattle.seg_text.specs.Decoding.{utf8_items, utf8_from, read_utf8, read_row, trail, StandsAt, Range};
ghost use Rattle.seg_text.specs.Lemmas.Encoded.{utf8-encoding};

use crate::indices::units::{Indices, ReadsUnits};
use crate::scaffold::PotentiallyIllFormedUtf8;

/// What means an ill-formed part.
const REPLACEMENT: char = '\u{FFFD}';

/// The characters of possibly ill-formed UTF-8, with the place of each in bytes.
///
/// Sequences are those of Table 3-7 of the Unicode Standard. Where none stands, the longest beginning of any
/// of them that stands there, at least one byte, is one U+FFFD.
pub type Utf8CharIndices<'a> = Indices<'a, u8, PotentiallyIllFormedUtf8>;

impl ReadsUnits<u8> for PotentiallyIllFormedUtf8 {
    type Character = char;

    ghost read = { read_utf8 };

    ghost code_point = { λ c. c };

    ghost characters = { utf8_items };

    ghost text = { utf8_from };

    #[inline(always)]
    fn read_single(units: &[u8]) -> Option<char> {
        let first = units[0];
        if first < 0x80 {
            Some(first as char)
        } else {
            None
        }
    }

    #[inline(always)]
    fn read_ascii(units: &[u8]) -> Option<u8> {
        let first = units[0];
        if first < 0x80 { Some(first) } else { None }
    }

    #[inline(always)]
    fn read_first(units: &[u8]) -> (usize, char) {
        let first = units[0];
        if first < 0x80 {
            (1, first as char)
        } else {
            read_wide(units)
        }
    }

    #[inline(always)]
    fn code_point(character: char) -> u32 {
        character as u32
    }

    ghost is_encoding = { utf8-encoding };
}

/// Whether a byte stands at an index, and from `low` to `high`.
#[inline(always)]
fn stands_at(bytes: &[u8], index: usize, low: u8, high: u8) -> bool
    ensures { IsTrue result ↔ StandsAt bytes.now index (low, high) }
{
    index < bytes.len() && low <= bytes[index] && bytes[index] <= high
}

/// The character that a code point is.
#[inline(always)]
fn character(code: u32) -> char
    requires { IsScalar code }
    ensures { result ≡ code }
{
    let Some(character) = char::from_u32(code) else {
        unreachable!()
    };
    character
}

/// Reads the first item where no ASCII stands: how many bytes it takes, and its character. The commonest rows of
/// Table 3-7 come first.
#[inline(always)]
fn read_wide(bytes: &[u8]) -> (usize, char)
    requires { 0x80 ≤ slice_index bytes.now 0 }
    ensures { result ≡ read_utf8 bytes.now }
{
    let first = bytes[0];
    if 0xE1 <= first && first <= 0xEC {
        return read_three(bytes, 0x80, 0xBF);
    }
    if first == 0xE0 {
        return read_three(bytes, 0xA0, 0xBF);
    }
    read_other(bytes)
}

/// Reads the first item by one of the other rows.
#[inline(never)]
fn read_other(bytes: &[u8]) -> (usize, char)
    requires wide { 0x80 ≤ slice_index bytes.now 0 }
    requires other { 0xE0 ≤ slice_index bytes.now 0 → 0xEC < slice_index bytes.now 0 }
    ensures { result ≡ read_utf8 bytes.now }
{
    match bytes[0] {
        0xC2..=0xDF => read_two(bytes),
        0xED => read_three(bytes, 0x80, 0x9F),
        0xEE..=0xEF => read_three(bytes, 0x80, 0xBF),
        0xF0 => read_four(bytes, 0x90, 0xBF),
        0xF1..=0xF3 => read_four(bytes, 0x80, 0xBF),
        0xF4 => read_four(bytes, 0x80, 0x8F),
        _ => (1, REPLACEMENT),
    }
}

/// Reads a sequence of two bytes, or what begins one.
fn read_two(bytes: &[u8]) -> (usize, char)
    requires low { 0xC2 ≤ slice_index bytes.now 0 }
    requires high { slice_index bytes.now 0 ≤ 0xDF }
    ensures { (first : Range) → StandsAt bytes.now 0 first → result ≡ read_row (first ∷ trail ∷ []) bytes.now }
{
    if !stands_at(bytes, 1, 0x80, 0xBF) {
        return (1, REPLACEMENT);
    }
    let code = (bytes[0] - 0xC0) as u32 * 0x40 + (bytes[1] - 0x80) as u32;
    (2, character(code))
}

/// Reads a sequence of three bytes, or what begins one, where the second byte is from `low` to `high`.
#[inline(always)]
fn read_three(bytes: &[u8], low: u8, high: u8) -> (usize, char)
    requires low { 0xE0 ≤ slice_index bytes.now 0 }
    requires high { slice_index bytes.now 0 ≤ 0xEF }
    requires trail { (0x80 ≤ low) × (high ≤ 0xBF) }
    requires no_surrogate { slice_index bytes.now 0 ≡ 0xED → high ≤ 0x9F }
    ensures { (first : Range) → StandsAt bytes.now 0 first
        → result ≡ read_row (first ∷ (low, high) ∷ trail ∷ []) bytes.now }
{
    if !has_two_trails(bytes, low, high) {
        return read_part(bytes, low, high);
    }
    let code = (bytes[0] - 0xE0) as u32 * 0x1000
        + (bytes[1] - 0x80) as u32 * 0x40
        + (bytes[2] - 0x80) as u32;
    (3, character(code))
}

/// Whether two more bytes stand, the second from `low` to `high`, and the third a trail. It tests the length once.
#[inline(always)]
fn has_two_trails(bytes: &[u8], low: u8, high: u8) -> bool
    ensures { IsTrue result ↔ (StandsAt bytes.now 1 (low, high) × StandsAt bytes.now 2 trail) }
{
    2 < bytes.len() && stands_at(bytes, 1, low, high) && stands_at(bytes, 2, 0x80, 0xBF)
}

/// Reads what begins a sequence of three bytes that isn't whole.
#[inline(never)]
fn read_part(bytes: &[u8], low: u8, high: u8) -> (usize, char)
    requires { StandsAt bytes.now 1 (low, high) → StandsAt bytes.now 2 trail → ⊥ }
    ensures { (first : Range) → StandsAt bytes.now 0 first
        → result ≡ read_row (first ∷ (low, high) ∷ trail ∷ []) bytes.now }
{
    if stands_at(bytes, 1, low, high) {
        (2, REPLACEMENT)
    } else {
        (1, REPLACEMENT)
    }
}

/// Reads a sequence of four bytes, or what begins one, where the second byte is from `low` to `high`.
fn read_four(bytes: &[u8], low: u8, high: u8) -> (usize, char)
    requires low { 0xF0 ≤ slice_index bytes.now 0 }
    requires high { slice_index bytes.now 0 ≤ 0xF4 }
    requires trail { (0x80 ≤ low) × (high ≤ 0xBF) }
    requires not_above { slice_index bytes.now 0 ≡ 0xF4 → high ≤ 0x8F }
    requires not_below { slice_index bytes.now 0 ≡ 0xF0 → 0x90 ≤ low }
    ensures { (first : Range) → StandsAt bytes.now 0 first
        → result ≡ read_row (first ∷ (low, high) ∷ trail ∷ trail ∷ []) bytes.now }
{
    if !stands_at(bytes, 1, low, high) {
        return (1, REPLACEMENT);
    }
    if !stands_at(bytes, 2, 0x80, 0xBF) {
        return (2, REPLACEMENT);
    }
    if !stands_at(bytes, 3, 0x80, 0xBF) {
        return (3, REPLACEMENT);
    }
    let code = (bytes[0] - 0xF0) as u32 * 0x40000
        + (bytes[1] - 0x80) as u32 * 0x1000
        + (bytes[2] - 0x80) as u32 * 0x40
        + (bytes[3] - 0x80) as u32;
    (4, character(code))
}
