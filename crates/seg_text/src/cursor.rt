//! What engines need of a cursor over a text, whatever its encoding.

ghost use Rattle.std.specs.Prelude.{◌≡◌, ℕ, ◌+◌, ◌<◌, ◌∷◌, length, ◌==◌, MatchOption};
ghost use Rattle.std.specs.Iterator.{YieldsFirst};
ghost use Rattle.seg_text.specs.Items.{Text, BeginsWide, IsRising, start_of, rest_after, slice_of, text_before};

/// A cursor over a text, at the place of its next item.
///
/// Places are units from the text's start: bytes in Latin-1 and UTF-8, 16-bit units in UTF-16.
pub trait Cursor: Drop {
    /// What isn't read yet of the text.
    ghost text: { Self → Text };

    /// Reads the next item: its place and its code point. None at the end, and from then on.
    fn next_item(&mut self) -> Option<(usize, u32)>
        ensures gives { YieldsFirst (λ s. (text s).items) self.old result self.new }
        ensures end { (text self.new).end ≡ (text self.old).end };

    /// Reads the next item where it is ASCII: its place and its character. None where it isn't, and at the end: then nothing
    /// is read.
    fn next_ascii(&mut self) -> Option<(usize, u8)>
        ensures read { MatchOption result ((self.new ≡ self.old) × BeginsWide (text self.old).items)
            (λ item. (item.1 < 0x80) × ((text self.old).items ≡ item ∷ (text self.new).items)) }
        ensures end { (text self.new).end ≡ (text self.old).end };

    /// Another cursor at the same place of the same text. Takes no memory and never fails.
    fn fork(&self) -> Self
        ensures { result ≡ self.now };

    /// Whether all items are read.
    fn is_at_end(&self) -> bool
        ensures { result ≡ (length (text self.now).items == 0) };

    /// The place of the next item, or of the text's end.
    fn place(&self) -> usize
        ensures { result ≡ start_of (text self.now) };

    /// The place where the text ends.
    fn end(&self) -> usize
        ensures { result ≡ (text self.now).end };

    /// Goes on to the place of an item that isn't read yet, or to the text's end, in O(1).
    fn seek(&mut self, place: usize)
        requires { (k : ℕ) × (place ≡ start_of (rest_after k (text self.old))) }
        ensures { (k : ℕ) → place ≡ start_of (rest_after k (text self.old)) → text self.new ≡ rest_after k (text self.old) };

    /// The items from one place up to another, as a separate text: its places start at 0 again. O(1), takes no memory.
    fn slice(&self, from: usize, to: usize) -> Self
        requires { (j k : ℕ) × (from ≡ start_of (rest_after j (text self.now))) × (to ≡ start_of (rest_after (j + k) (text self.now))) }
        ensures { (j k : ℕ) → from ≡ start_of (rest_after j (text self.now)) → to ≡ start_of (rest_after (j + k) (text self.now))
            → text result ≡ slice_of j k (text self.now) };

    /// The items before a place, as a text that ends there: their places stay. O(1), takes no memory.
    fn up_to(&self, to: usize) -> Self
        requires { (k : ℕ) × (to ≡ start_of (rest_after k (text self.now))) }
        ensures { (k : ℕ) → to ≡ start_of (rest_after k (text self.now)) → text result ≡ text_before k (text self.now) };

    /// The items that aren't read are in order, none of them is empty, and they reach to the end.
    ghost rises: { (s : Self) → IsRising (text s).items (text s).end };
}
