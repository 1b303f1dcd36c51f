//! Places where the words of a text may be hyphenated.

ghost use Rattle.std.specs.Prelude.{◌≡◌, ◌+◌, ◌<◌, ◌^◌, ◌++◌, ◌↔◌, [], Contains, IfOk, IsTrue, OnOk, encode_utf8_all, length, string_bytes};
ghost use Rattle.std.specs.List.Sorted.{IsStrictlyIncreasing};
ghost use Rattle.seg_text.specs.Items.{code_points, rest_after};
ghost use Rattle.seg_hyphens.specs.Words.{lower_of, lowered, PlacesIn, PushesPoints, PushesWord};

use crate::patterns::HyphenationPatterns;
use seg_text::character::character_of;
use seg_text::cursor::Cursor;
use seg_text::prefixes::{CodePointTest, take_prefix};
use std::alloc::{AllocError, Global};

// Whether code points are letters.
#[derive(Clone, Copy)]
struct LetterTest;

impl CodePointTest for LetterTest {
    ghost use Rattle.seg_hyphens.specs.Words.{is_letter};

    ghost passes = { λ test. is_letter };

    #[tactic(auto, unfolding(crate::specs::Words::is_letter))]
    fn accepts(&self, code_point: u32) -> bool {
        character_of(code_point).is_alphabetic()
    }
}

// The character of a code point in lower case, or as it is where that is several characters.
fn lower_of(code_point: u32) -> char
    ensures { result ≡ lower_of code_point }
{
    let character = character_of(code_point);
    let mut lower = character.to_lowercase();
    let Some(first) = lower.next() else {
        return character;
    };
    if lower.next().is_some() {
        return character;
    }
    first
}

// Appends the characters of a word in lower case.
fn push_lower<I: Cursor>(word: &I, lower: &mut String) -> Result<(), AllocError>
    ensures { OnOk result (string_bytes lower.new ≡ string_bytes lower.old ++ encode_utf8_all (lowered (code_points (I.text word.now).items))) }
{
    let mut rest = word.fork();
    'items: while let Some((_, code_point)) = rest.next_item() {
        lower.push(lower_of(code_point))?;
    }
    Ok(())
}

// Whether there is a point behind so many bytes, which isn't the start.
fn has_point(points: &[usize], offset: usize) -> bool
    ensures some { IsTrue result → 0 < offset }
    ensures is { IsStrictlyIncreasing points.now → (IsTrue result ↔ ((0 < offset) × Contains points.now offset)) }
{
    let found = points.binary_search(&offset).is_ok();
    found & (0 < offset)
}

// Pushes the places where a word has points in lower case, but not its start.
fn push_points<I: Cursor>(
    word: &I,
    points: &[usize],
    places: &mut Vec<usize>,
) -> Result<(), AllocError>
    requires { length (encode_utf8_all (lowered (code_points (I.text word.now).items))) < 2 ^ 64 }
    ensures { OnOk result (PushesPoints points.now (I.text word.now) places.old.items places.new.items) }
{
    let mut rest = word.fork();
    let mut offset = 0;
    'items: while let Some((place, code_point)) = rest.next_item() {
        if has_point(points, offset) {
            places.push(place)?;
        }
        offset += lower_of(code_point).len_utf8();
    }
    Ok(())
}

// Goes on behind the next item, if there is one.
fn skip_item<I: Cursor>(rest: &mut I)
    ensures { I.text rest.new ≡ rest_after 1 (I.text rest.old) }
{
    let _ = rest.next_item();
}

// Memory for a word in lower case, and for its points.
struct WordMemory {
    lower: String,
    points: Vec<usize>,
}

// Written out, so that it is proved here and not in each program.
impl Drop for WordMemory {
    fn drop(self) {
        let WordMemory {
            lower: _,
            points: _,
        } = self;
    }
}

impl HyphenationPatterns {
    // Pushes the places where a word may be hyphenated.
    fn push_word<I: Cursor>(
        &self,
        word: &I,
        memory: &mut WordMemory,
        places: &mut Vec<usize>,
    ) -> Result<(), AllocError>
        ensures { OnOk result (PushesWord self.now (I.text word.now) places.old.items places.new.items) }
    {
        memory.lower.clear();
        push_lower(word, &mut memory.lower)?;
        self.points(memory.lower.as_str(), &mut memory.points)?;
        push_points(word, memory.points.as_slice(), places)
    }

    // Pushes the places where the words of a text may be hyphenated.
    fn push_words<I: Cursor>(
        &self,
        text: &I,
        memory: &mut WordMemory,
        places: &mut Vec<usize>,
    ) -> Result<(), AllocError>
        requires { places.old.items ≡ [] }
        ensures { OnOk result (PlacesIn self.now (I.text text.now) places.new.items) }
    {
        let mut rest = text.fork();
        'words: while !rest.is_at_end() {
            let word = take_prefix(&mut rest, &LetterTest);
            if !word.is_at_end() {
                self.push_word(&word, memory, places)?;
            }
            skip_item(&mut rest);
        }
        Ok(())
    }

    /// Where the words of a text may be hyphenated, in order, as places of the text: bytes, or 16-bit units of UTF-16.
    ///
    /// A word is a longest run of alphabetic characters. Its points are those of `points` for the word in lower case, but not one at its
    /// start. A character whose lower case is several characters stays as it is. Lone surrogates and ill-formed bytes are no letters.
    ///
    /// Takes some 8 bytes for each place, and 9 for each byte of the longest word. Fails only when out of memory.
    pub fn places<I: Cursor>(&self, alloc: Global, text: I) -> Result<Vec<usize>, AllocError>
        ensures { IfOk result (λ places. PlacesIn self.now (I.text text) places.items) }
    {
        let mut places = Vec::new(alloc);
        let mut memory = WordMemory {
            lower: String::new(alloc),
            points: Vec::new(alloc),
        };
        self.push_words(&text, &mut memory, &mut places)?;
        Ok(places)
    }
}
