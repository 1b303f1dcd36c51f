//! A cursor over a slice of units, for each encoding that reads them.
ghost use Rattle.std.specs.Prelude.{◌≡◌, ◌≤◌, ◌<◌, ℕ, ⊤, drop, length, ◌+◌, ◌==◌, List, IfSome, MatchOption, ◌∷◌};
ghost use Rattle.std.specs.Iterator.{YieldsFirst, item_count, MakesProgress};
ghost use Rattle.seg_text.specs.Items.{Rest, GoesOn, Text, BeginsWide};
ghost use Rattle.seg_text.specs.Lemmas.Encodings.{IsEncoding, coded, text-rises};

use crate::cursor::Cursor;
use crate::private::Sealed;
use std::alloc::AllocError;
use std::fmt::Debug;
use std::marker::{Model, PhantomData};

/// An encoding of texts in slices of units: how the first item of some units is read. Sealed.
pub trait ReadsUnits<U: Copy>: Sealed {
    /// What is read.
    type Character: Copy;

    /// How many units the first item takes, and its character.
    ghost read: { List U → ℕ × Self.Character };

    /// The code point of a character.
    ghost code_point: { Self.Character → ℕ };

    /// The characters of some units from a place on, each with its place.
    ghost characters: { ℕ → List U → List (ℕ × Self.Character) };

    /// The text of some units from a place on.
    ghost text: { ℕ → List U → Text };

    /// The character of the first item, where its first unit tells that it takes no other.
    fn read_single(units: &[U]) -> Option<Self::Character>
        requires { 0 < length units.now }
        ensures { IfSome result (λ character. (1, character) ≡ read units.now) };

    /// The first item's character, where it is ASCII.
    fn read_ascii(units: &[U]) -> Option<u8>
        requires { 0 < length units.now }
        ensures { MatchOption result (0x80 ≤ code_point (read units.now).1)
            (λ character. (character < 0x80) × ((1, character) ≡ coded read code_point units.now)) };

    /// Reads the first item: how many units it takes, and its character.
    fn read_first(units: &[U]) -> (usize, Self::Character)
        requires { 0 < length units.now }
        ensures { result ≡ read units.now };

    /// The code point of a character.
    fn code_point(character: Self::Character) -> u32
        ensures { result ≡ code_point character };

    /// The texts, and their characters, are what is read.
    ghost is_encoding: { IsEncoding read code_point characters text };
}

/// The characters of a text in slices of units, with the place of each in units.
#[derive_where(Debug; U)]
pub struct Indices<'a, U: Copy, E: ReadsUnits<U>> {
    units: &'a [U],
    front_offset: usize,
    encoding: PhantomData<E>,
}

impl<'a, U: Copy, E: ReadsUnits<U>> Drop for Indices<'a, U, E> {
    fn drop(self) {
        let Indices {
            units: _,
            front_offset: _,
            encoding: _,
        } = self;
    }
}

impl<'a, U: Copy, E: ReadsUnits<U>> Model for Indices<'a, U, E> {
    ghost use Rattle.std.specs.Prelude.{◌≤◌, drop, length};
    ghost use Rattle.seg_text.specs.Items.{Rest};

    ghost Value = { Rest U };

    ghost view = { λ s. record { place = s.front_offset; units = drop s.front_offset s.units.now } };

    ghost invariant = { λ s. s.front_offset ≤ length s.units.now };
}

impl<'a, U: Copy, E: ReadsUnits<U>> Indices<'a, U, E> {
    /// A cursor at the start of `input`.
    pub fn new(input: &'a [U]) -> Self
        ensures { result ≡ record { place = 0; units = input.now } }
    {
        Indices {
            units: input,
            front_offset: 0,
            encoding: PhantomData,
        }
    }

    /// The units that aren't read yet.
    pub fn as_slice(&self) -> &'a [U]
        ensures { result.now ≡ self.now.units }
    {
        &self.units[self.front_offset..]
    }

    /// The place of the next item, in units from the text's start.
    pub fn offset(&self) -> usize
        ensures { result ≡ self.now.place }
    {
        self.front_offset
    }
}

impl<'a, U: Copy, E: ReadsUnits<U>> Clone for Indices<'a, U, E> {
    ghost is_clone = { λ s r. r ≡ s };

    ghost is_infallible = { λ _. ⊤ };

    fn clone(&self) -> Result<Self, AllocError> {
        Ok(self.fork())
    }
}

impl<'a, U: Copy, E: ReadsUnits<U>> Iterator for Indices<'a, U, E> {
    type Item = (usize, E::Character);

    ghost next_gives = { YieldsFirst (λ s. E.characters s.place s.units) };

    ghost remaining = { item_count (λ s. E.characters s.place s.units) };

    #[inline(always)]
    fn next(&mut self) -> Option<(usize, E::Character)>
        ensures steps { YieldsFirst (λ s. E.characters s.place s.units) self.old result self.new × GoesOn self.old self.new }
        ensures goes { MakesProgress (λ _. ⊤) (item_count (λ s. E.characters s.place s.units)) self.old result self.new }
    {
        let place = self.front_offset;
        if place < self.units.len() {
            let units = &self.units[place..];
            // An item of one unit goes its own way, so that what comes after needn't ask again which it is.
            if let Some(character) = E::read_single(units) {
                self.front_offset = place + 1;
                return Some((place, character));
            }
            let (taken, character) = E::read_first(units);
            self.front_offset = place + taken;
            Some((place, character))
        } else {
            None
        }
    }

    /// Each item takes one unit or more.
    fn size_hint(&self) -> (usize, Option<usize>) {
        let units = self.units.len() - self.front_offset;
        (units.min(1), Some(units))
    }
}

impl<'a, U: Copy, E: ReadsUnits<U>> Cursor for Indices<'a, U, E> {
    ghost text = { λ s. E.text s.place s.units };

    #[inline(always)]
    fn next_item(&mut self) -> Option<(usize, u32)> {
        match self.next() {
            Some((place, character)) => Some((place, E::code_point(character))),
            None => None,
        }
    }

    #[inline(always)]
    fn next_ascii(&mut self) -> Option<(usize, u8)> {
        let place = self.front_offset;
        if place < self.units.len() {
            if let Some(ascii) = E::read_ascii(&self.units[place..]) {
                self.front_offset = place + 1;
                return Some((place, ascii));
            }
        }
        None
    }

    fn fork(&self) -> Self {
        Indices {
            units: self.units,
            front_offset: self.front_offset,
            encoding: PhantomData,
        }
    }

    fn is_at_end(&self) -> bool {
        self.front_offset == self.units.len()
    }

    fn place(&self) -> usize {
        self.offset()
    }

    fn end(&self) -> usize {
        self.units.len()
    }

    fn seek(&mut self, place: usize) {
        self.front_offset = place;
    }

    fn slice(&self, from: usize, to: usize) -> Self {
        Indices::new(&self.units[from..to])
    }

    fn up_to(&self, to: usize) -> Self {
        Indices {
            units: &self.units[..to],
            front_offset: self.front_offset,
            encoding: PhantomData,
        }
    }

    ghost rises = { λ s. text-rises _ _ _ _ E.is_encoding s.place s.units };
}
