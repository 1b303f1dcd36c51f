//! Texts in which nothing is escaped in strings of JSON.
ghost use Rattle.std.specs.Prelude.{◌≡◌, ◌+◌, ◌<◌, ◌≤◌, ℕ, drop, length, take, true, IsTrue};
ghost use Rattle.std.specs.List.{list_all};
ghost use Rattle.segment_text.specs.Bare.{AreAllBare, AreBare, IsBareStretch, is_bare};

use simdutf8::compat::from_utf8;

// A stretch has so many bytes at most.
const STRETCH_LEN: usize = 256;

// So many bytes are looked at, at once.
const RUN_LEN: usize = 16;

/// Whether a text is well-formed, and nothing in it is escaped in a string.
pub fn is_bare_text(text: &[u8]) -> bool
    ensures { IsTrue result → AreBare text.now }
{
    if text.is_ascii() {
        return are_bare(text);
    }
    match from_utf8(text) {
        Ok(_) => are_bare(text),
        Err(_) => false,
    }
}

// Whether each byte stands in a string as it is.
fn are_bare(text: &[u8]) -> bool
    ensures { result ≡ list_all is_bare text.now }
{
    text.iter().all(|byte| is_bare(*byte))
}

// Whether a byte stands in a string as it is.
#[inline(always)]
fn is_bare(byte: u8) -> bool
    ensures { result ≡ is_bare byte }
{
    byte >= b' ' && byte != b'"' && byte != b'\\'
}

/// A stretch of a text in which nothing is escaped in a string of JSON.
#[derive(Clone, Copy)]
pub struct BareStretch<'s> {
    /// Where it begins.
    pub from: usize,
    /// What stands there.
    pub text: &'s str,
}

/// The stretch that begins at a place of a text, of at most 256 bytes.
pub fn bare_stretch_after<'s>(text: &'s [u8], from: usize) -> BareStretch<'s>
    ensures { IsBareStretch text.now result }
{
    let near = near(text, from);
    BareStretch {
        from,
        text: well_formed(&near[..bare_len(near)]),
    }
}

// What stands at a place of a text, as far as it is looked at.
fn near<'s>(text: &'s [u8], from: usize) -> &'s [u8]
    ensures { (len : ℕ) × (result.now ≡ take len (drop from text.now)) }
{
    if from >= text.len() {
        return &[];
    }
    if text.len() - from <= STRETCH_LEN {
        return &text[from..];
    }
    let to = back_in_character(
        text,
        back_in_character(text, back_in_character(text, from + STRETCH_LEN)),
    );
    &text[from..to]
}

// A place, or the one before it where a character goes on there.
fn back_in_character(text: &[u8], place: usize) -> usize
    requires { (0 < place) × (place < length text.now) }
    ensures { (result ≤ place) × (place ≤ result + 1) }
{
    if text[place] & 0xC0 == 0x80 {
        place - 1
    } else {
        place
    }
}

// How many bytes a text begins with of which none is escaped.
fn bare_len(text: &[u8]) -> usize
    ensures few { result ≤ length text.now }
    ensures bare { list_all is_bare (take result text.now) ≡ true }
{
    let mut len = bare_runs_len(text);
    while len < text.len() && is_bare(text[len]) {
        len += 1;
    }
    len
}

// How many bytes whole runs have that a text begins with, in which none is escaped.
fn bare_runs_len(text: &[u8]) -> usize
    ensures few { result ≤ length text.now }
    ensures bare { AreAllBare text.now 0 result }
{
    let mut len = 0;
    while text.len() - len >= RUN_LEN && is_bare_run(text, len) {
        len += RUN_LEN;
    }
    len
}

// Whether no byte of the run at a place is escaped.
#[inline(always)]
fn is_bare_run(text: &[u8], from: usize) -> bool
    requires { from + 16 ≤ length text.now }
    ensures { IsTrue result → AreAllBare text.now from (from + 16) }
{
    let mut bare = true;
    for offset in 0..RUN_LEN {
        bare &= is_bare(text[from + offset]);
    }
    bare
}

// The well-formed UTF-8 that some bytes begin with.
fn well_formed(bytes: &[u8]) -> &str
    ensures { (len : ℕ) × (result.now ≡ take len bytes.now) }
{
    match from_utf8(bytes) {
        Ok(text) => text,
        Err(fault) => {
            let begin = bytes.get(..fault.valid_up_to()).unwrap_or(&[]);
            from_utf8(begin).unwrap_or("")
        }
    }
}
