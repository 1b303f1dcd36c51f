//! The cursors at whose start a text is had back in its units, one for each encoding.

ghost use Rattle.std.specs.Prelude.{◌≡◌, ℕ, List, drop, length};
ghost use Rattle.seg_text.specs.Decoding.{latin1, utf8, utf16};
ghost use Rattle.seg_text.specs.Items.{Text, rest_after, start_of};
ghost use Rattle.seg_text.specs.Lemmas.Encoded.{latin1-encoding, utf16-encoding, utf8-encoding};
ghost use Rattle.seg_segments.specs.Lemmas.Rests.{rests};
ghost use Rattle.seg_segments.specs.TextSegments.{IsPlace, later_text};

use crate::segments::Units;
use seg_text::cursor::Cursor;
use seg_text::indices::{Latin1Indices, StrCharIndices, Utf8CharIndices, Utf16Indices};

/// What an encoding is for segments: a cursor over a text, with the units in which the text stands.
pub trait Source: Cursor {
    /// What the text stands in.
    type Units: Units;

    /// The units that aren't read yet.
    ghost units: { Self → List ℕ };

    /// The text that stands in some units.
    ghost decode: { List ℕ → Text };

    /// A cursor at the start of a whole text, whose places go from 0 to the number of its units. Takes no memory.
    fn of(whole: Self::Units) -> Self
        ensures text { Self.text result ≡ decode (Self.Units.units whole) }
        ensures units { units result ≡ Self.Units.units whole }
        ensures start { start_of (decode (Self.Units.units whole)) ≡ 0 }
        ensures end { (decode (Self.Units.units whole)).end ≡ length (Self.Units.units whole) };

    /// What isn't read yet of the text. Takes no memory.
    fn rest(&self) -> Self::Units
        ensures { Self.Units.units result ≡ units self.now };

    /// Law: a text may be cut at the places of its items.
    ghost places: { (text : Self.Units) (place : ℕ) → IsPlace (decode (Self.Units.units text)) place → Self.Units.MayCut text place };

    /// Law: what stands from an item on is what the units from there on are alone, so much later.
    ghost rests: { (whole : List ℕ) (count : ℕ) → let from = start_of (rest_after count (decode whole)) in
        rest_after count (decode whole) ≡ later_text from (decode (drop from whole)) };
}

impl<'s> Source for StrCharIndices<'s> {
    type Units = &'s str;

    ghost units = { λ cursor. cursor.units };

    ghost decode = { utf8 };

    fn of(whole: &'s str) -> Self {
        StrCharIndices::new(whole)
    }

    fn rest(&self) -> &'s str {
        self.as_str()
    }

    ghost places = { λ _ _ place. place };

    ghost rests = { rests _ _ _ utf8-encoding };
}

impl<'s> Source for Utf8CharIndices<'s> {
    type Units = &'s [u8];

    ghost units = { λ cursor. cursor.units };

    ghost decode = { utf8 };

    fn of(whole: &'s [u8]) -> Self {
        Utf8CharIndices::new(whole)
    }

    fn rest(&self) -> &'s [u8] {
        self.as_slice()
    }

    ghost places = { λ _ _ _. tt };

    ghost rests = { rests _ _ _ utf8-encoding };
}

impl<'s> Source for Latin1Indices<'s> {
    type Units = &'s [u8];

    ghost units = { λ cursor. cursor.units };

    ghost decode = { latin1 };

    fn of(whole: &'s [u8]) -> Self {
        Latin1Indices::new(whole)
    }

    fn rest(&self) -> &'s [u8] {
        self.as_slice()
    }

    ghost places = { λ _ _ _. tt };

    ghost rests = { rests _ _ _ latin1-encoding };
}

impl<'s> Source for Utf16Indices<'s> {
    type Units = &'s [u16];

    ghost units = { λ cursor. cursor.units };

    ghost decode = { utf16 };

    fn of(whole: &'s [u16]) -> Self {
        Utf16Indices::new(whole)
    }

    fn rest(&self) -> &'s [u16] {
        self.as_slice()
    }

    ghost places = { λ _ _ _. tt };

    ghost rests = { rests _ _ _ utf16-encoding };
}
