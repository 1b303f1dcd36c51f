//! Wrapped lines of UTF-16.

ghost use Rattle.std.specs.Prelude.{◌≡◌, ◌≤◌, ⊤, length};
ghost use Rattle.std.specs.Iterator.{YieldsFirstBy, MakesProgress, item_count};
ghost use Rattle.seg_text.specs.Items.{start_of};
ghost use Rattle.seg_text.specs.Decoding.{utf16};
ghost use Rattle.seg_lines.specs.Between.{between};
ghost use Rattle.seg_wrap.specs.Wrapping.{rest_from};

use crate::wrap::LineWrapper;
use crate::wrap::paragraphs::{ParagraphStyle, Paragraphs};
use crate::wrap::wrapping::{Room, Wrapping};
use seg_text::indices::Utf16Indices;
use std::alloc::AllocError;
use std::fmt;

impl<'data> LineWrapper<'data> {
    ghost use Rattle.seg_wrap.specs.WrappedLines.{AreParagraphsOf, joined_units, utf16_lines_to_come, wrapped_units, wrapped_within, wrapper_measure, wrapper_rules};

    /// The lines of possibly ill-formed UTF-16, each of at most these columns unless it is one segment. A surrogate that stands
    /// alone is as wide as U+FFFD, and stays as it is in the lines. Takes no memory.
    pub fn wrap_utf16<'s>(self, units: &'s [u16], columns: usize) -> WrapUtf16Iterator<'data, 's>
        ensures lines { utf16_lines_to_come result ≡ wrapped_units utf16 (wrapper_measure self.entry) (wrapper_rules self.entry) columns units.now }
        ensures joined { joined_units (utf16_lines_to_come result) ≡ units.now }
    {
        self.wrap_utf16_within(units, Room::even(columns))
    }

    /// The lines of possibly ill-formed UTF-16 where the first line of each paragraph has other columns than the rest, for a caller that indents
    /// them. Each has at most its columns unless it is one segment. Takes no memory.
    pub fn wrap_utf16_within<'s>(self, units: &'s [u16], room: Room) -> WrapUtf16Iterator<'data, 's>
        ensures lines { utf16_lines_to_come result ≡ wrapped_within utf16 (wrapper_measure self.entry) (wrapper_rules self.entry) room units.now }
        ensures joined { joined_units (utf16_lines_to_come result) ≡ units.now }
    {
        let mut breaks = self.lines.segment_utf16(units);
        let _start = breaks.next();
        WrapUtf16Iterator {
            units,
            lines: Wrapping::new(breaks, Utf16Indices::new(units), room, self.measuring),
        }
    }

    /// The lines of possibly ill-formed UTF-16, chosen paragraph by paragraph. A surrogate that stands alone is as wide as U+FFFD. Takes no
    /// memory.
    pub fn paragraphs_utf16<'s>(
        self,
        units: &'s [u16],
        style: ParagraphStyle,
    ) -> Paragraphs<'data, Utf16Indices<'s>>
        ensures { AreParagraphsOf utf16 (wrapper_measure self.entry) (wrapper_rules self.entry) style units.now result }
    {
        let mut breaks = self.lines.segment_utf16(units);
        let _start = breaks.next();
        Paragraphs::new(breaks, Utf16Indices::new(units), self.measuring, style)
    }
}

/// A line of possibly ill-formed UTF-16 that was wrapped.
#[derive(Clone, Copy, Debug)]
pub struct WrappedUtf16Line<'s> {
    units: &'s [u16],
    columns: u128,
    is_first: bool,
    is_mandatory: bool,
}

impl<'s> WrappedUtf16Line<'s> {
    ghost use Rattle.seg_wrap.specs.WrappedLines.{utf16_line_in};

    /// Its 16-bit units, with its trailing white space.
    pub fn units(&self) -> &'s [u16]
        ensures { result.now ≡ (utf16_line_in self.now).units }
    {
        self.units
    }

    /// The columns that it takes, without its trailing white space.
    pub fn columns(&self) -> u128
        ensures { result ≡ (utf16_line_in self.now).columns }
    {
        self.columns
    }

    /// Whether it is the first line of its paragraph: of the text, or after a line that must end.
    pub fn is_first(&self) -> bool
        ensures { result ≡ (utf16_line_in self.now).is_first }
    {
        self.is_first
    }

    /// Whether a line must end there: at a mandatory break.
    pub fn is_mandatory(&self) -> bool
        ensures { result ≡ (utf16_line_in self.now).is_mandatory }
    {
        self.is_mandatory
    }
}

/// The lines of possibly ill-formed UTF-16, wrapped to columns. After None it stays None.
pub struct WrapUtf16Iterator<'data, 's> {
    units: &'s [u16],
    lines: Wrapping<'data, Utf16Indices<'s>>,
    ghost rest: { lines.text ≡ rest_from (start_of lines.text) (utf16 units.now) },
}

// Written out: a derived one, of all that it holds, is dear to prove.
impl<'data, 's> fmt::Debug for WrapUtf16Iterator<'data, 's> {
    fn fmt<W: fmt::Write>(&self, f: &mut fmt::Formatter<W>) -> fmt::Result {
        f.write_str("WrapUtf16Iterator { .. }")
    }
}

impl<'data, 's> Drop for WrapUtf16Iterator<'data, 's> {
    fn drop(self) {
        let WrapUtf16Iterator { units: _, lines: _ } = self;
    }
}

impl<'data, 's> Clone for WrapUtf16Iterator<'data, 's> {
    ghost is_clone = { λ s r. (r.units ≡ s.units) × (r.lines ≡ s.lines) };

    ghost is_infallible = { λ _. ⊤ };

    fn clone(&self) -> Result<Self, AllocError> {
        Ok(WrapUtf16Iterator {
            units: self.units,
            lines: self.lines.fork(),
        })
    }
}

impl<'data, 's> Iterator for WrapUtf16Iterator<'data, 's> {
    ghost use Rattle.seg_wrap.specs.WrappedLines.{utf16_line_in, utf16_lines_to_come};

    type Item = WrappedUtf16Line<'s>;

    ghost next_gives = { YieldsFirstBy utf16_line_in utf16_lines_to_come };

    ghost remaining = { item_count utf16_lines_to_come };

    fn next(&mut self) -> Option<WrappedUtf16Line<'s>> {
        let line = self.lines.next_span()?;
        Some(WrappedUtf16Line {
            units: part(self.units, line.start, line.end),
            columns: line.columns,
            is_first: line.is_first,
            is_mandatory: line.is_mandatory,
        })
    }

    fn size_hint(&self) -> (usize, Option<usize>) {
        self.lines.size_hint()
    }
}

/// The units from one place up to another.
fn part<'s>(units: &'s [u16], start: usize, end: usize) -> &'s [u16]
    requires order { start ≤ end }
    requires within { end ≤ length units.now }
    ensures { result.now ≡ between start end units.now }
{
    &units[start..end]
}
