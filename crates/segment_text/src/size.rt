//! How large a text is.
ghost use Rattle.std.specs.Prelude.{◌≡◌, ◌+◌, ◌≤◌, IfOk, IfSome, length};
ghost use Rattle.segment_text.specs.Size.{both_sizes, line_feeds, size_of};

use memchr::memchr_iter;
use std::alloc::AllocError;

/// How large a text is.
#[derive(Clone, Copy, PartialEq, Eq)]
pub struct Size {
    /// Its line feeds.
    pub lines: usize,
    /// Its bytes.
    pub bytes: usize,
}

/// What was found of a text, and how large it is.
#[derive(Clone, Copy, PartialEq, Eq)]
pub struct Tally {
    /// How many segments; 0 where lines are wrapped.
    pub segments: usize,
    /// How large the text is.
    pub size: Size,
}

impl Size {
    /// How large a text is.
    pub fn of(text: &[u8]) -> Self
        ensures { result ≡ size_of text.now }
    {
        Size {
            lines: line_feeds(text),
            bytes: text.len(),
        }
    }

    /// How large a text and another behind it are together. None where no `usize` counts it.
    pub fn checked_add(self, other: Size) -> Option<Self>
        ensures { IfSome result (λ both. both ≡ both_sizes self other) }
    {
        let lines = self.lines.checked_add(other.lines)?;
        let bytes = self.bytes.checked_add(other.bytes)?;
        Some(Size { lines, bytes })
    }
}

/// How many line feeds a text has.
pub fn line_feeds(text: &[u8]) -> usize
    ensures value { result ≡ line_feeds text.now }
    ensures most { result ≤ length text.now }
{
    // Line feeds are few, so each is searched for: `Memchr::count` would look at every byte.
    Iterator::count(memchr_iter(b'\n', text))
}

/// One segment more. The error is one that no `usize` counts.
#[inline(always)]
pub fn one_more(count: usize) -> Result<usize, AllocError>
    ensures { IfOk result (λ more. more ≡ count + 1) }
{
    count.checked_add(1).ok_or(AllocError)
}

/// A place so many bytes later. The error is one that no `usize` counts.
#[inline(always)]
pub fn later(before: usize, place: usize) -> Result<usize, AllocError>
    ensures { IfOk result (λ later. later ≡ before + place) }
{
    before.checked_add(place).ok_or(AllocError)
}
