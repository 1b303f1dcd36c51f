//! The encodings that segmenters take.

ghost use Rattle.std.specs.Prelude.{◌≡◌, ℕ, ◌+◌, ◌-◌, ◌<◌, Bool, true, false, Option, take, drop, length, ◌==◌};
ghost use Rattle.std.specs.List.{All};
ghost use Rattle.std.specs.Iterator.{YieldsFirstBy, IsFinite};
ghost use Rattle.seg_text.specs.Items.{IsRising, start_of, rest_after, slice_of, code_points};

use crate::cursor::Cursor;
use crate::indices::{Latin1Indices, StrCharIndices, Utf8CharIndices, Utf16Indices};
use crate::private::Sealed;

/// What holds of an encoding for any lifetime of the text. Sealed, as `RuleBreakType`.
pub trait Encoding: Sealed {
    /// Whether its texts can contain scripts that need a dictionary or a model to break: those of Southeast Asia.
    const CAN_CONTAIN_SA: bool;

    /// `CAN_CONTAIN_SA` in clauses.
    ghost CAN_CONTAIN_SA: { Bool };
}

/// An encoding of texts: which cursor reads its items.
///
/// Sealed: the encodings are those of this module. `'s` is the lifetime of the text.
pub trait RuleBreakType<'s>: Encoding {
    /// What the cursor gives for each item.
    type CharType: Copy + Into<u32>;

    /// The cursor over a text in this encoding.
    type IterAttr: Iterator<Item = (usize, Self::CharType)> + Clone + Cursor;

    /// The code point of what the cursor gives.
    ghost code_point: { Self.CharType → ℕ };

    /// Another cursor at the same place of the same text. Takes no memory and never fails.
    fn fork(iter: &Self::IterAttr) -> Self::IterAttr
        ensures { result ≡ iter.now };

    /// Whether all items are read.
    fn is_empty(iter: &Self::IterAttr) -> bool
        ensures { result ≡ (length (Self.IterAttr.text iter.now).items == 0) };

    /// The place of the next item, or of the text's end.
    fn offset(iter: &Self::IterAttr) -> usize
        ensures { result ≡ start_of (Self.IterAttr.text iter.now) };

    /// The items from one place up to another, as a separate text: its places start at 0 again. O(1), takes no memory.
    fn slice(iter: &Self::IterAttr, from: usize, to: usize) -> Self::IterAttr
        requires { (j k : ℕ) × (from ≡ start_of (rest_after j (Self.IterAttr.text iter.now)))
            × (to ≡ start_of (rest_after (j + k) (Self.IterAttr.text iter.now))) }
        ensures { (j k : ℕ) → from ≡ start_of (rest_after j (Self.IterAttr.text iter.now))
            → to ≡ start_of (rest_after (j + k) (Self.IterAttr.text iter.now))
            → Self.IterAttr.text result ≡ slice_of j k (Self.IterAttr.text iter.now) };

    /// Law: the items that are left are in order, none of them is empty, and they reach to the end of the text; where
    /// `CAN_CONTAIN_SA` is false, their code points are all below U+0100. Does nothing.
    fn facts(iter: &Self::IterAttr)
        ensures rises { IsRising (Self.IterAttr.text iter.now).items (Self.IterAttr.text iter.now).end }
        ensures narrow { Self.CAN_CONTAIN_SA ≡ false
            → All (λ code_point. code_point < 0x100) (code_points (Self.IterAttr.text iter.now).items) };

    /// `next` may always be called.
    ghost always: { (s : Self.IterAttr) → Self.IterAttr.can_next s };

    /// The cursor ends.
    ghost ends: { (s : Self.IterAttr) → IsFinite (Self.IterAttr.remaining s) };

    /// `next` gives the items, each with its place.
    ghost gives: { (s : Self.IterAttr) (r : Option (ℕ × Self.CharType)) (t : Self.IterAttr)
        → Self.IterAttr.next_gives s r t
        → YieldsFirstBy (λ (item : ℕ × Self.CharType). (item.0, code_point item.1)) (λ s. (Self.IterAttr.text s).items) s r t };

    /// A character becomes its code point.
    ghost converts: { (c : Self.CharType) (n : ℕ) → Self.CharType.converts c n → n ≡ code_point c };
}

/// Latin-1: each byte is a character. Places are bytes.
#[derive(Debug)]
pub struct Latin1;

impl Sealed for Latin1 {}

impl Encoding for Latin1 {
    const CAN_CONTAIN_SA: bool = false;

    ghost CAN_CONTAIN_SA = { false };
}

impl<'s> RuleBreakType<'s> for Latin1 {
    type CharType = u8;

    type IterAttr = Latin1Indices<'s>;

    ghost code_point = { λ c. c };

    fn fork(iter: &Latin1Indices<'s>) -> Latin1Indices<'s> {
        iter.fork()
    }

    fn is_empty(iter: &Latin1Indices<'s>) -> bool {
        iter.is_at_end()
    }

    fn offset(iter: &Latin1Indices<'s>) -> usize {
        iter.place()
    }

    fn slice(iter: &Latin1Indices<'s>, from: usize, to: usize) -> Latin1Indices<'s> {
        iter.slice(from, to)
    }

    fn facts(iter: &Latin1Indices<'s>) {
        check_bytes(iter.as_slice())
    }

    ghost always = { λ _. tt };

    ghost ends = { λ s. tt };

    ghost gives = { λ s r t h. h };

    ghost converts = { λ c n h. h };
}

/// Each byte is below 0x100. Does nothing.
fn check_bytes(bytes: &[u8])
    ensures { All (λ byte. byte < 0x100) bytes.now }
{
    let _ = bytes;
}

/// A `str`: its items are its `char`s, and their places are bytes.
#[derive(Debug)]
pub struct Utf8;

impl Sealed for Utf8 {}

impl Encoding for Utf8 {
    const CAN_CONTAIN_SA: bool = true;

    ghost CAN_CONTAIN_SA = { true };
}

impl<'s> RuleBreakType<'s> for Utf8 {
    type CharType = char;

    type IterAttr = StrCharIndices<'s>;

    ghost code_point = { λ c. c };

    fn fork(iter: &StrCharIndices<'s>) -> StrCharIndices<'s> {
        iter.fork()
    }

    fn is_empty(iter: &StrCharIndices<'s>) -> bool {
        iter.is_at_end()
    }

    fn offset(iter: &StrCharIndices<'s>) -> usize {
        iter.place()
    }

    fn slice(iter: &StrCharIndices<'s>, from: usize, to: usize) -> StrCharIndices<'s> {
        iter.slice(from, to)
    }

    fn facts(_iter: &StrCharIndices<'s>) {}

    ghost always = { λ _. tt };

    ghost ends = { λ s. tt };

    ghost gives = { λ s r t h. h };

    ghost converts = { λ c n h. h };
}

/// Possibly ill-formed UTF-8: its items are `char`s, and their places are bytes. Each ill-formed part is one U+FFFD.
#[derive(Debug)]
pub struct PotentiallyIllFormedUtf8;

impl Sealed for PotentiallyIllFormedUtf8 {}

impl Encoding for PotentiallyIllFormedUtf8 {
    const CAN_CONTAIN_SA: bool = true;

    ghost CAN_CONTAIN_SA = { true };
}

impl<'s> RuleBreakType<'s> for PotentiallyIllFormedUtf8 {
    type CharType = char;

    type IterAttr = Utf8CharIndices<'s>;

    ghost code_point = { λ c. c };

    fn fork(iter: &Utf8CharIndices<'s>) -> Utf8CharIndices<'s> {
        iter.fork()
    }

    fn is_empty(iter: &Utf8CharIndices<'s>) -> bool {
        iter.is_at_end()
    }

    fn offset(iter: &Utf8CharIndices<'s>) -> usize {
        iter.place()
    }

    fn slice(iter: &Utf8CharIndices<'s>, from: usize, to: usize) -> Utf8CharIndices<'s> {
        iter.slice(from, to)
    }

    fn facts(_iter: &Utf8CharIndices<'s>) {}

    ghost always = { λ _. tt };

    ghost ends = { λ s. tt };

    ghost gives = { λ s r t h. h };

    ghost converts = { λ c n h. h };
}

/// Possibly ill-formed UTF-16: its items are code points, and their places are 16-bit units. A lone surrogate is one.
#[derive(Debug)]
pub struct Utf16;

impl Sealed for Utf16 {}

impl Encoding for Utf16 {
    const CAN_CONTAIN_SA: bool = true;

    ghost CAN_CONTAIN_SA = { true };
}

impl<'s> RuleBreakType<'s> for Utf16 {
    type CharType = u32;

    type IterAttr = Utf16Indices<'s>;

    ghost code_point = { λ c. c };

    fn fork(iter: &Utf16Indices<'s>) -> Utf16Indices<'s> {
        iter.fork()
    }

    fn is_empty(iter: &Utf16Indices<'s>) -> bool {
        iter.is_at_end()
    }

    fn offset(iter: &Utf16Indices<'s>) -> usize {
        iter.place()
    }

    fn slice(iter: &Utf16Indices<'s>, from: usize, to: usize) -> Utf16Indices<'s> {
        iter.slice(from, to)
    }

    fn facts(_iter: &Utf16Indices<'s>) {}

    ghost always = { λ _. tt };

    ghost ends = { λ s. tt };

    ghost gives = { λ s r t h. h };

    ghost converts = { λ c n h. h };
}

/// An encoding whose texts a word segmenter takes.
pub trait WordBreakType<'s>: RuleBreakType<'s> {}

impl<'s> WordBreakType<'s> for Latin1 {}

impl<'s> WordBreakType<'s> for PotentiallyIllFormedUtf8 {}

impl<'s> WordBreakType<'s> for Utf8 {}

impl<'s> WordBreakType<'s> for Utf16 {}

/// An encoding whose texts a line segmenter takes.
pub trait LineBreakType<'s>: RuleBreakType<'s> {}

impl<'s> LineBreakType<'s> for Latin1 {}

impl<'s> LineBreakType<'s> for PotentiallyIllFormedUtf8 {}

impl<'s> LineBreakType<'s> for Utf8 {}

impl<'s> LineBreakType<'s> for Utf16 {}
