//! Lines of texts, wrapped to columns by the breaks of a line segmenter.

ghost use Rattle.std.specs.Prelude.{◌≡◌, ◌≤◌, ⊤, IfOk, OnErr};
ghost use Rattle.std.specs.Iterator.{YieldsFirstBy, MakesProgress, item_count};
ghost use Rattle.seg_text.specs.Items.{start_of};
ghost use Rattle.seg_text.specs.Decoding.{utf8};
ghost use Rattle.seg_lines.specs.Lines.{line_rules};
ghost use Rattle.seg_wrap.specs.Walk.{measure_of};
ghost use Rattle.seg_lines.specs.Between.{between};
ghost use Rattle.seg_wrap.specs.Wrapping.{by_characters, by_clusters, bytes_columns, rest_from};
ghost use Rattle.seg_clusters.specs.Clusters.{cluster_rules};
ghost use Rattle.seg_lines.specs.LineBreaks.{IsByPairTable};

pub mod breaks;
mod extent;
mod measure;
pub mod paragraphs;
mod parts;
mod utf16;
mod wrapping;

use crate::wrap::extent::Extent;
use crate::wrap::measure::Measuring;
use crate::wrap::paragraphs::{ParagraphStyle, Paragraphs};
use crate::wrap::wrapping::Wrapping;
use seg_clusters::grapheme::GraphemeClusterSegmenterBorrowed;
use seg_lines::line::LineSegmenterBorrowed;
use seg_text::indices::{StrCharIndices, Utf8CharIndices};
use std::alloc::AllocError;
use std::fmt;
use thiserror::Error;
pub use utf16::{WrapUtf16Iterator, WrappedUtf16Line};
pub use wrapping::{Room, Span};

/// Why there is no wrapper. Each has a number.
#[derive(Clone, Copy, Debug, PartialEq, Eq, Error)]
pub enum WrapError {
    /// 1: a pair table finds the line breaks, which says of no break that a line must end there.
    #[error("1 NotNeo: no machine finds the line breaks")]
    NotNeo,
}

/// Wraps the lines of texts to columns, by the widths of their characters, or of their clusters (`by_cluster`).
///
/// A line takes segments of the text, each from one line break to the next, as long as they have room in its columns. It ends
/// at each break where it must, and at the end of the text. A segment that is wider than the columns stands on a line
/// of its own. Spaces, line feeds and carriage returns at a line's end stay in its text, and aren't counted among its columns.
#[derive(Clone, Copy)]
pub struct LineWrapper<'data> {
    lines: LineSegmenterBorrowed<'data>,
    measuring: Measuring<'data>,
}

impl<'data> fmt::Debug for LineWrapper<'data> {
    fn fmt<W: fmt::Write>(&self, f: &mut fmt::Formatter<W>) -> fmt::Result {
        f.write_str("LineWrapper { .. }")
    }
}

impl<'data> LineWrapper<'data> {
    ghost use Rattle.seg_wrap.specs.WrappedLines.{AreParagraphsOf, joined_units, lines_to_come, utf8_lines_to_come, wrapped_text, wrapped_within, wrapper_measure, wrapper_rules};

    /// A wrapper by the breaks that a machine finds, and by the widths of characters. `NotNeo` where a pair table finds the breaks.
    pub fn new(lines: LineSegmenterBorrowed<'data>) -> Result<Self, WrapError>
        ensures made { IfOk result (λ wrapper. (wrapper_rules wrapper ≡ line_rules lines.entry) × (IsByPairTable (line_rules lines.entry).finder → ⊥)) }
        ensures measure { IfOk result (λ wrapper. wrapper_measure wrapper ≡ by_characters) }
        ensures rejected { OnErr result (IsByPairTable (line_rules lines.entry).finder) }
    {
        if lines.is_neo() {
            Ok(LineWrapper {
                lines,
                measuring: Measuring::Characters,
            })
        } else {
            Err(WrapError::NotNeo)
        }
    }

    /// The wrapper by the same breaks that counts columns cluster by cluster: each takes the width of its str, so a family of emoji takes
    /// two columns, and a control character one. The clusters are those of a line's segments, each by itself; one that has
    /// more than 128 bytes of UTF-8 takes the sum of its characters' widths. Takes no memory.
    pub fn by_cluster(self, clusters: GraphemeClusterSegmenterBorrowed<'data>) -> Self
        ensures lines { wrapper_rules result ≡ wrapper_rules self.entry }
        ensures measure { wrapper_measure result ≡ by_clusters (cluster_rules clusters.entry) }
    {
        LineWrapper {
            measuring: Measuring::Clusters(clusters),
            ..self
        }
    }

    /// The lines of a text, each of at most these columns unless it is one segment. Takes no memory.
    pub fn wrap_str<'s>(self, text: &'s str, columns: usize) -> WrapIterator<'data, 's>
        ensures lines { lines_to_come result ≡ wrapped_text (wrapper_measure self.entry) (wrapper_rules self.entry) columns text.now }
        ensures joined { joined_units (lines_to_come result) ≡ text.now }
    {
        self.wrap_str_within(text, Room::even(columns))
    }

    /// The lines of a text where the first line of each paragraph has other columns than the rest, for a caller that indents them. Each has
    /// at most its columns unless it is one segment. Takes no memory.
    pub fn wrap_str_within<'s>(self, text: &'s str, room: Room) -> WrapIterator<'data, 's>
        ensures lines { lines_to_come result ≡ wrapped_within utf8 (wrapper_measure self.entry) (wrapper_rules self.entry) room text.now }
        ensures joined { joined_units (lines_to_come result) ≡ text.now }
    {
        let mut breaks = self.lines.segment_str(text);
        let _start = breaks.next();
        WrapIterator {
            text,
            lines: Wrapping::new(breaks, StrCharIndices::new(text), room, self.measuring),
        }
    }

    /// The lines of possibly ill-formed UTF-8. What is ill-formed is as wide as the U+FFFD that it is decoded as, and stays as
    /// it is in the lines. Takes no memory.
    pub fn wrap_utf8<'s>(self, bytes: &'s [u8], columns: usize) -> WrapUtf8Iterator<'data, 's>
        ensures lines { utf8_lines_to_come result ≡ wrapped_text (wrapper_measure self.entry) (wrapper_rules self.entry) columns bytes.now }
        ensures joined { joined_units (utf8_lines_to_come result) ≡ bytes.now }
    {
        self.wrap_utf8_within(bytes, Room::even(columns))
    }

    /// The lines of possibly ill-formed UTF-8 where the first line of each paragraph has other columns than the rest, for a caller that indents
    /// them. Each has at most its columns unless it is one segment. Takes no memory.
    pub fn wrap_utf8_within<'s>(self, bytes: &'s [u8], room: Room) -> WrapUtf8Iterator<'data, 's>
        ensures lines { utf8_lines_to_come result ≡ wrapped_within utf8 (wrapper_measure self.entry) (wrapper_rules self.entry) room bytes.now }
        ensures joined { joined_units (utf8_lines_to_come result) ≡ bytes.now }
    {
        let mut breaks = self.lines.segment_utf8(bytes);
        let _start = breaks.next();
        WrapUtf8Iterator {
            bytes,
            lines: Wrapping::new(breaks, Utf8CharIndices::new(bytes), room, self.measuring),
        }
    }

    /// The lines of a text, chosen paragraph by paragraph. Takes no memory.
    pub fn paragraphs_str<'s>(
        self,
        text: &'s str,
        style: ParagraphStyle,
    ) -> Paragraphs<'data, StrCharIndices<'s>>
        ensures { AreParagraphsOf utf8 (wrapper_measure self.entry) (wrapper_rules self.entry) style text.now result }
    {
        let mut breaks = self.lines.segment_str(text);
        let _start = breaks.next();
        Paragraphs::new(breaks, StrCharIndices::new(text), self.measuring, style)
    }

    /// The lines of possibly ill-formed UTF-8, chosen paragraph by paragraph. What is ill-formed is as wide as the U+FFFD that it is decoded
    /// as. Takes no memory.
    pub fn paragraphs_utf8<'s>(
        self,
        bytes: &'s [u8],
        style: ParagraphStyle,
    ) -> Paragraphs<'data, Utf8CharIndices<'s>>
        ensures { AreParagraphsOf utf8 (wrapper_measure self.entry) (wrapper_rules self.entry) style bytes.now result }
    {
        let mut breaks = self.lines.segment_utf8(bytes);
        let _start = breaks.next();
        Paragraphs::new(breaks, Utf8CharIndices::new(bytes), self.measuring, style)
    }
}

/// The columns that possibly ill-formed UTF-8 takes where more follows in its line: the sum of the widths of its characters, spaces at its end
/// too. Takes no memory.
pub fn utf8_columns(bytes: &[u8]) -> u128
    ensures { result ≡ bytes_columns bytes.now }
{
    Extent::of_text(Utf8CharIndices::new(bytes)).inner_columns
}

/// A line of a wrapped text.
#[derive(Clone, Copy, Debug)]
pub struct WrappedLine<'s> {
    text: &'s str,
    columns: u128,
    is_first: bool,
    is_mandatory: bool,
}

impl<'s> WrappedLine<'s> {
    ghost use Rattle.seg_wrap.specs.WrappedLines.{line_in};

    /// Its text, with its trailing white space.
    pub fn text(&self) -> &'s str
        ensures { result.now ≡ (line_in self.now).units }
    {
        self.text
    }

    /// The columns that it takes, without its trailing white space.
    pub fn columns(&self) -> u128
        ensures { result ≡ (line_in self.now).columns }
    {
        self.columns
    }

    /// Whether it is the first line of its paragraph: of the text, or after a line that must end.
    pub fn is_first(&self) -> bool
        ensures { result ≡ (line_in self.now).is_first }
    {
        self.is_first
    }

    /// Whether a line must end there: at a mandatory break.
    pub fn is_mandatory(&self) -> bool
        ensures { result ≡ (line_in self.now).is_mandatory }
    {
        self.is_mandatory
    }
}

/// The lines of a text, wrapped to columns. After None it stays None.
pub struct WrapIterator<'data, 's> {
    text: &'s str,
    lines: Wrapping<'data, StrCharIndices<'s>>,
    ghost rest: { lines.text ≡ rest_from (start_of lines.text) (utf8 text.now) },
}

// Written out: a derived one, of all that it holds, is dear to prove.
impl<'data, 's> fmt::Debug for WrapIterator<'data, 's> {
    fn fmt<W: fmt::Write>(&self, f: &mut fmt::Formatter<W>) -> fmt::Result {
        f.write_str("WrapIterator { .. }")
    }
}

impl<'data, 's> Drop for WrapIterator<'data, 's> {
    fn drop(self) {
        let WrapIterator { text: _, lines: _ } = self;
    }
}

impl<'data, 's> Clone for WrapIterator<'data, 's> {
    ghost is_clone = { λ s r. (r.text ≡ s.text) × (r.lines ≡ s.lines) };

    ghost is_infallible = { λ _. ⊤ };

    fn clone(&self) -> Result<Self, AllocError> {
        Ok(WrapIterator {
            text: self.text,
            lines: self.lines.fork(),
        })
    }
}

impl<'data, 's> Iterator for WrapIterator<'data, 's> {
    ghost use Rattle.seg_wrap.specs.WrappedLines.{line_in, lines_to_come};

    type Item = WrappedLine<'s>;

    ghost next_gives = { YieldsFirstBy line_in lines_to_come };

    ghost remaining = { item_count lines_to_come };

    fn next(&mut self) -> Option<WrappedLine<'s>> {
        let line = self.lines.next_span()?;
        Some(WrappedLine {
            text: part(self.text, line.start, line.end),
            columns: line.columns,
            is_first: line.is_first,
            is_mandatory: line.is_mandatory,
        })
    }

    fn size_hint(&self) -> (usize, Option<usize>) {
        self.lines.size_hint()
    }
}

/// The part of a text between the places of two characters.
fn part<'s>(text: &'s str, start: usize, end: usize) -> &'s str
    requires order { start ≤ end }
    requires start { start ≡ start_of (rest_from start (utf8 text.now)) }
    requires end { end ≡ start_of (rest_from end (utf8 text.now)) }
    ensures { result.now ≡ between start end text.now }
{
    &text[start..end]
}

/// A line of possibly ill-formed UTF-8 that was wrapped.
#[derive(Clone, Copy, Debug)]
pub struct WrappedUtf8Line<'s> {
    bytes: &'s [u8],
    columns: u128,
    is_first: bool,
    is_mandatory: bool,
}

impl<'s> WrappedUtf8Line<'s> {
    ghost use Rattle.seg_wrap.specs.WrappedLines.{utf8_line_in};

    /// Its bytes, with its trailing white space.
    pub fn bytes(&self) -> &'s [u8]
        ensures { result.now ≡ (utf8_line_in self.now).units }
    {
        self.bytes
    }

    /// The columns that it takes, without its trailing white space.
    pub fn columns(&self) -> u128
        ensures { result ≡ (utf8_line_in self.now).columns }
    {
        self.columns
    }

    /// Whether it is the first line of its paragraph: of the text, or after a line that must end.
    pub fn is_first(&self) -> bool
        ensures { result ≡ (utf8_line_in self.now).is_first }
    {
        self.is_first
    }

    /// Whether a line must end there: at a mandatory break.
    pub fn is_mandatory(&self) -> bool
        ensures { result ≡ (utf8_line_in self.now).is_mandatory }
    {
        self.is_mandatory
    }
}

/// The lines of possibly ill-formed UTF-8, wrapped to columns. After None it stays None.
pub struct WrapUtf8Iterator<'data, 's> {
    bytes: &'s [u8],
    lines: Wrapping<'data, Utf8CharIndices<'s>>,
    ghost rest: { lines.text ≡ rest_from (start_of lines.text) (utf8 bytes.now) },
}

// Written out: a derived one, of all that it holds, is dear to prove.
impl<'data, 's> fmt::Debug for WrapUtf8Iterator<'data, 's> {
    fn fmt<W: fmt::Write>(&self, f: &mut fmt::Formatter<W>) -> fmt::Result {
        f.write_str("WrapUtf8Iterator { .. }")
    }
}

impl<'data, 's> Drop for WrapUtf8Iterator<'data, 's> {
    fn drop(self) {
        let WrapUtf8Iterator { bytes: _, lines: _ } = self;
    }
}

impl<'data, 's> Clone for WrapUtf8Iterator<'data, 's> {
    ghost is_clone = { λ s r. (r.bytes ≡ s.bytes) × (r.lines ≡ s.lines) };

    ghost is_infallible = { λ _. ⊤ };

    fn clone(&self) -> Result<Self, AllocError> {
        Ok(WrapUtf8Iterator {
            bytes: self.bytes,
            lines: self.lines.fork(),
        })
    }
}

impl<'data, 's> Iterator for WrapUtf8Iterator<'data, 's> {
    ghost use Rattle.seg_wrap.specs.WrappedLines.{utf8_line_in, utf8_lines_to_come};

    type Item = WrappedUtf8Line<'s>;

    ghost next_gives = { YieldsFirstBy utf8_line_in utf8_lines_to_come };

    ghost remaining = { item_count utf8_lines_to_come };

    fn next(&mut self) -> Option<WrappedUtf8Line<'s>> {
        let line = self.lines.next_span()?;
        Some(WrappedUtf8Line {
            bytes: &self.bytes[line.start..line.end],
            columns: line.columns,
            is_first: line.is_first,
            is_mandatory: line.is_mandatory,
        })
    }

    fn size_hint(&self) -> (usize, Option<usize>) {
        self.lines.size_hint()
    }
}
