//! A cursor over a `str`.

ghost use Rattle.std.specs.Prelude.{◌≡◌, ◌≤◌, ◌<◌, ℕ, ⊤, drop, length, ◌+◌, ◌==◌, MatchOption, ◌∷◌};
ghost use Rattle.std.specs.Iterator.{YieldsFirst, item_count, MakesProgress};
ghost use Rattle.seg_text.specs.Decoding.{utf8_items, utf8_from, read_utf8};
ghost use Rattle.seg_text.specs.Items.{Rest, GoesOn, BeginsWide};
ghost use Rattle.seg_text.specs.Lemmas.Rising.{utf8_items-rises};

use crate::cursor::Cursor;
use std::alloc::AllocError;
use std::marker::Model;

/// The characters of a `str`, with the place of each in bytes.
///
/// They are the items of its bytes as possibly ill-formed UTF-8, none of which is ill-formed.
#[derive(Debug, Drop)]
pub struct StrCharIndices<'a> {
    text: &'a str,
    front_offset: usize,
}

impl<'a> Model for StrCharIndices<'a> {
    ghost use Rattle.std.specs.Prelude.{ℕ, ◌≤◌, drop, length};
    ghost use Rattle.std.specs.Str.{IsUtf8};
    ghost use Rattle.seg_text.specs.Items.{Rest};

    ghost Value = { Rest ℕ };

    ghost view = { λ s. record { place = s.front_offset; units = drop s.front_offset s.text.now } };

    ghost invariant = { λ s. (s.front_offset ≤ length s.text.now) × IsUtf8 (drop s.front_offset s.text.now) };
}

impl<'a> StrCharIndices<'a> {
    /// A cursor at the start of `input`.
    pub fn new(input: &'a str) -> Self
        ensures { result ≡ record { place = 0; units = input.now } }
    {
        StrCharIndices {
            text: input,
            front_offset: 0,
        }
    }

    /// The characters that aren't read yet.
    pub fn as_str(&self) -> &'a str
        ensures { result.now ≡ self.now.units }
    {
        &self.text[self.front_offset..]
    }

    /// The place of the next item, in bytes from the text's start.
    pub fn offset(&self) -> usize
        ensures { result ≡ self.now.place }
    {
        self.front_offset
    }
}

impl<'a> Clone for StrCharIndices<'a> {
    ghost is_clone = { λ s r. r ≡ s };

    ghost is_infallible = { λ _. ⊤ };

    fn clone(&self) -> Result<Self, AllocError> {
        Ok(self.fork())
    }
}

impl<'a> Iterator for StrCharIndices<'a> {
    type Item = (usize, char);

    ghost next_gives = { YieldsFirst (λ s. utf8_items s.place s.units) };

    ghost remaining = { item_count (λ s. utf8_items s.place s.units) };

    #[inline(always)]
    fn next(&mut self) -> Option<(usize, char)>
        ensures steps { YieldsFirst (λ s. utf8_items s.place s.units) self.old result self.new × GoesOn self.old self.new }
        ensures goes { MakesProgress (λ _. ⊤) (item_count (λ s. utf8_items s.place s.units)) self.old result self.new }
    {
        let place = self.front_offset;
        if place < self.text.len() {
            let byte = self.text.as_bytes()[place];
            if byte < 0x80 {
                self.front_offset = place + 1;
                return Some((place, byte as char));
            }
            let (taken, character) = read_first(&self.text[place..]);
            self.front_offset = place + taken;
            Some((place, character))
        } else {
            None
        }
    }

    /// Each item takes one byte or more.
    fn size_hint(&self) -> (usize, Option<usize>) {
        let bytes = self.text.len() - self.front_offset;
        (bytes.min(1), Some(bytes))
    }
}

impl<'a> Cursor for StrCharIndices<'a> {
    ghost text = { λ s. utf8_from s.place s.units };

    fn next_item(&mut self) -> Option<(usize, u32)> {
        match self.next() {
            Some((place, character)) => Some((place, character as u32)),
            None => None,
        }
    }

    #[inline(always)]
    fn next_ascii(&mut self) -> Option<(usize, u8)> {
        let place = self.front_offset;
        if place < self.text.len() {
            let byte = self.text.as_bytes()[place];
            if byte < 0x80 {
                self.front_offset = place + 1;
                return Some((place, byte));
            }
        }
        None
    }

    fn fork(&self) -> Self {
        StrCharIndices {
            text: self.text,
            front_offset: self.front_offset,
        }
    }

    fn is_at_end(&self) -> bool {
        self.front_offset == self.text.len()
    }

    fn place(&self) -> usize {
        self.offset()
    }

    fn end(&self) -> usize {
        self.text.len()
    }

    fn seek(&mut self, place: usize) {
        self.front_offset = place;
    }

    fn slice(&self, from: usize, to: usize) -> Self {
        StrCharIndices::new(&self.text[from..to])
    }

    fn up_to(&self, to: usize) -> Self {
        StrCharIndices {
            text: &self.text[..to],
            front_offset: self.front_offset,
        }
    }

    ghost rises = { λ s. utf8_items-rises s.place s.units };
}

/// Reads the first character: how many bytes it takes, and which it is.
#[inline(always)]
fn read_first(text: &str) -> (usize, char)
    requires { 0 < length text.now }
    ensures { result ≡ read_utf8 text.now }
{
    let mut characters = text.chars();
    let Some(character) = characters.next() else {
        unreachable!()
    };
    (text.len() - characters.as_str().len(), character)
}
