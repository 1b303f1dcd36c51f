//! Words that are read code point by code point.

ghost use Rattle.std.specs.Prelude.{◌≡◌};
ghost use Rattle.seg_data.specs.WordSets.{Words, tails_after, has_empty, has_nonempty};

/// A place in the words of a set, after some code points that were read.
pub trait WordCursor: Drop {
    /// What follows the code points that were read in the words that begin with them.
    ghost tails: { Self → Words };

    /// Another cursor at the same place. Takes no memory and never fails.
    fn fork(&self) -> Self
        ensures { result ≡ self.now };

    /// Reads one code point more.
    fn step(&mut self, code_point: u32)
        ensures { tails self.new ≡ tails_after code_point (tails self.old) };

    /// Whether the code points that were read are a word.
    fn is_word(&self) -> bool
        ensures { result ≡ has_empty (tails self.now) };

    /// Whether a longer word begins with the code points that were read.
    fn goes_on(&self) -> bool
        ensures { result ≡ has_nonempty (tails self.now) };
}
