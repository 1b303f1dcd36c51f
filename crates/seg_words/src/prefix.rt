//! The longest beginning of a text whose code points pass a test, as a text whose end is seen when it is reached.

ghost use Rattle.std.specs.Prelude.{◌≡◌, ◌∷◌};
ghost use Rattle.seg_text.specs.Items.{text_before, prefix_length};

use seg_text::cursor::Cursor;
use seg_text::prefixes::CodePointTest;

/// A cursor over the longest beginning of a text whose code points pass a test. It reads no further than what it gives, and one
/// item more where it looks for the end.
#[derive(Drop)]
pub(crate) struct Prefix<I: Cursor, T: CodePointTest + Copy> {
    /// The text, from the next item on.
    pub(crate) rest: I,
    /// The test.
    pub(crate) test: T,
}

impl<I: Cursor, T: CodePointTest + Copy> Cursor for Prefix<I, T> {
    ghost use Rattle.seg_text.specs.Items.{text_before, prefix_length};
    ghost use Rattle.seg_words.specs.RisingPrefixes.{prefix-rises};

    ghost text = { λ s. text_before (prefix_length (T.passes s.test) (I.text s.rest)) (I.text s.rest) };

    ghost rises = { λ s. prefix-rises (T.passes s.test) (I.text s.rest) (I.rises s.rest) };

    #[inline(always)]
    fn next_item(&mut self) -> Option<(usize, u32)> {
        let mut after = self.rest.fork();
        let Some((place, code_point)) = after.next_item() else {
            return None;
        };
        if !self.test.accepts(code_point) {
            return None;
        }
        self.rest = after;
        Some((place, code_point))
    }

    #[inline(always)]
    fn next_ascii(&mut self) -> Option<(usize, u8)> {
        let mut after = self.rest.fork();
        let Some((place, character)) = after.next_ascii() else {
            return None;
        };
        if !self.test.accepts(character as u32) {
            return None;
        }
        self.rest = after;
        Some((place, character))
    }

    fn fork(&self) -> Self {
        Prefix {
            rest: self.rest.fork(),
            test: self.test,
        }
    }

    #[inline(always)]
    fn is_at_end(&self) -> bool {
        match self.rest.fork().next_item() {
            Some((_, code_point)) => !self.test.accepts(code_point),
            None => true,
        }
    }

    #[inline(always)]
    fn place(&self) -> usize {
        self.rest.place()
    }

    fn end(&self) -> usize {
        let mut after = self.fork();
        while let Some(_) = after.next_item() {}
        after.place()
    }

    #[inline(always)]
    fn seek(&mut self, place: usize) {
        self.rest.seek(place);
    }

    fn slice(&self, from: usize, to: usize) -> Self {
        Prefix {
            rest: self.rest.slice(from, to),
            test: self.test,
        }
    }

    fn up_to(&self, to: usize) -> Self {
        Prefix {
            rest: self.rest.up_to(to),
            test: self.test,
        }
    }
}
