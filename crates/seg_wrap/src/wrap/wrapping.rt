//! Lines, wrapped to columns at any breaks.

ghost use Rattle.std.specs.Prelude.{◌≡◌, ◌-◌, ◌≤◌, ◌∷◌, List, false, length, IfSome};
ghost use Rattle.seg_lines.specs.Lines.{lines_left};
ghost use Rattle.seg_wrap.specs.Walk.{AreCuts, GivesLine, IsHeldPiece, IsFirstPiece, IsFirstSegment, line_at, lines_held, measure_of, rest_held, segment_at, segments_held};
ghost use Rattle.seg_wrap.specs.Wrapping.{Cell, bytes_columns, columns_in, even, room_beside, lines_from, rest_from, segments_from, wrapped_lines};

use crate::wrap::breaks::{fork, next_break};
use crate::wrap::extent::Extent;
use crate::wrap::measure::Measuring;
use crate::wrap::utf8_columns;
use seg_lines::line::LineBreakIterator;
use seg_text::cursor::Cursor;
use std::marker::Model;

/// A line of a wrapped text, by the places where it begins and ends.
#[derive(Clone, Copy)]
pub struct Span {
    /// Where it begins, in units.
    pub start: usize,
    /// Where it ends, in units, behind its trailing white space.
    pub end: usize,
    /// The columns that it takes, without its trailing white space.
    pub columns: u128,
    /// Whether it is the first of its paragraph.
    pub is_first: bool,
    /// Whether a hyphen is shown behind it, which its columns count.
    pub is_hyphenated: bool,
    /// Whether a line must end there.
    pub is_mandatory: bool,
}

/// How many columns lines have: fewer than a page where something else, such as an indent, stands before them. A paragraph begins at a text's
/// start, and after each line that must end.
#[derive(Clone, Copy, Debug, PartialEq, Eq)]
pub struct Room {
    /// The columns of the first line of each paragraph.
    pub first: usize,
    /// The columns of its other lines.
    pub others: usize,
}

impl Room {
    /// As many columns in each line.
    pub fn even(columns: usize) -> Self
        ensures { result ≡ even columns }
    {
        Room {
            first: columns,
            others: columns,
        }
    }

    /// What so many columns leave beside an indent before the first line of each paragraph, and another before its other lines: 0 where an indent
    /// has more. Indents are measured by character, with spaces at their ends.
    pub fn beside(columns: usize, first: &str, others: &str) -> Self
        ensures { result ≡ room_beside columns first.now others.now }
    {
        Room {
            first: columns_beside(columns, first),
            others: columns_beside(columns, others),
        }
    }

    /// The columns of a line that is the first of its paragraph, or another.
    pub fn columns(self, is_first: bool) -> usize
        ensures { result ≡ columns_in self is_first }
    {
        if is_first { self.first } else { self.others }
    }
}

// How many of so many columns are left beside an indent.
fn columns_beside(columns: usize, indent: &str) -> usize
    ensures { result ≡ columns - bytes_columns indent.now }
{
    (columns as u128).saturating_sub(utf8_columns(indent.as_bytes())) as usize
}

/// A piece of a text that ends where a line may.
#[derive(Clone, Copy)]
pub(crate) struct Piece {
    pub(crate) end: usize,
    pub(crate) extent: Extent,
    pub(crate) is_hyphenated: bool,
    pub(crate) is_mandatory: bool,
}

/// To how many columns lines are wrapped, and how these are counted.
#[derive(Clone, Copy)]
pub(crate) struct Setting<'data> {
    /// The columns.
    pub(crate) room: Room,
    /// Whether the next line begins a paragraph.
    pub(crate) is_first: bool,
    /// How the characters of a segment are measured.
    pub(crate) measuring: Measuring<'data>,
}

/// The lines of a text, wrapped to columns.
pub(crate) struct Wrapping<'data, I: Cursor> {
    breaks: LineBreakIterator<'data, I>,
    // The text from the next line on.
    rest: I,
    // The text after the first segment of that line.
    after: I,
    // That segment.
    held: Option<Piece>,
    setting: Setting<'data>,
}

// Written out, so that it is proved here and not in each program that wraps.
impl<'data, I: Cursor> Drop for Wrapping<'data, I> {
    fn drop(self) {
        let Wrapping {
            breaks: _,
            rest: _,
            after: _,
            held: _,
            setting: _,
        } = self;
    }
}

impl<'data, I: Cursor> Model for Wrapping<'data, I> {
    ghost use Rattle.std.specs.Prelude.{◌≡◌};
    ghost use Rattle.seg_lines.specs.Lines.{lines_left};
    ghost use Rattle.seg_wrap.specs.Walk.{IsHeldPiece, LinesLeft, lines_held, measure_of, rest_held};

    ghost Value = { LinesLeft };

    ghost view = { λ s. record { text = I.text s.rest; lines = lines_held (measure_of s.setting.measuring) s.setting.room s.setting.is_first (I.text s.rest) s.held (lines_left s.breaks) } };

    ghost invariant = { λ s. IsHeldPiece (measure_of s.setting.measuring) (I.text s.rest) s.held (lines_left s.breaks) × (I.text s.after ≡ rest_held (I.text s.rest) s.held) };
}

impl<'data, I: Cursor> Wrapping<'data, I> {
    /// The lines of a text that has these breaks after its start.
    pub(crate) fn new(
        mut breaks: LineBreakIterator<'data, I>,
        text: I,
        room: Room,
        measuring: Measuring<'data>,
    ) -> Self
        requires { AreCuts (I.text text) (lines_left breaks) }
        ensures text { result.text ≡ I.text text }
        ensures lines { result.lines ≡ wrapped_lines room (segments_from (measure_of measuring.entry) (I.text text) (lines_left breaks.entry)) }
    {
        let mut after = text.fork();
        let held = next_piece(&mut breaks, &mut after, measuring);
        Wrapping {
            breaks,
            rest: text,
            after,
            held,
            setting: Setting {
                room,
                is_first: true,
                measuring,
            },
        }
    }

    /// What is left of the lines, once more. Takes no memory.
    pub(crate) fn fork(&self) -> Self
        ensures { result ≡ self.now }
    {
        Wrapping {
            breaks: fork(&self.breaks),
            rest: self.rest.fork(),
            after: self.after.fork(),
            held: self.held,
            setting: self.setting,
        }
    }

    /// How many lines are left at least and at most: that of the segment that is held, and one for each unit behind it.
    pub(crate) fn size_hint(&self) -> (usize, Option<usize>)
        ensures lower { result.0 ≤ length self.now.lines }
        ensures upper { IfSome result.1 (λ most. length self.now.lines ≤ most) }
    {
        match &self.held {
            None => (0, Some(0)),
            Some(piece) => (1, Some(1 + (self.rest.end() - piece.end))),
        }
    }

    /// The next line. None at the end, and from then on.
    pub(crate) fn next_span(&mut self) -> Option<Span>
        ensures { GivesLine self.old result self.new }
    {
        let first = self.held?;
        let (line, held) = next_line(
            &mut self.breaks,
            &mut self.after,
            &self.rest,
            first,
            self.setting,
        );
        let start = self.rest.place();
        self.rest.seek(line.end);
        self.held = held;
        let is_first = self.setting.is_first;
        self.setting.is_first = line.is_mandatory;
        Some(Span {
            start,
            end: line.end,
            columns: line.extent.columns,
            is_first,
            is_hyphenated: false,
            is_mandatory: line.is_mandatory,
        })
    }
}

/// The piece up to the next break. The cursor goes over it.
pub(crate) fn next_piece<I: Cursor>(
    breaks: &mut LineBreakIterator<'_, I>,
    after: &mut I,
    measuring: Measuring<'_>,
) -> Option<Piece>
    requires { AreCuts (I.text after.old) (lines_left breaks.old) }
    ensures segments { segments_held (measure_of measuring.entry) (I.text after.old) result (lines_left breaks.new)
        ≡ segments_from (measure_of measuring.entry) (I.text after.old) (lines_left breaks.old) }
    ensures held { IsHeldPiece (measure_of measuring.entry) (I.text after.old) result (lines_left breaks.new) }
    ensures after { I.text after.new ≡ rest_held (I.text after.old) result }
    ensures whole { IfSome result (λ piece. piece.is_hyphenated ≡ false) }
{
    let found = next_break(breaks)?;
    let extent = measuring.extent_of(after.up_to(found.end));
    after.seek(found.end);
    Some(Piece {
        end: found.end,
        extent,
        is_hyphenated: false,
        is_mandatory: found.is_mandatory,
    })
}

/// The line that begins with this piece of a text, and the piece after it. The cursor goes over both. The text itself, `rest`, is
/// what the contract speaks of.
fn next_line<I: Cursor>(
    breaks: &mut LineBreakIterator<'_, I>,
    after: &mut I,
    rest: &I,
    first: Piece,
    setting: Setting<'_>,
) -> (Piece, Option<Piece>)
    requires piece { IsFirstSegment (measure_of setting.measuring) (I.text rest.now) first }
    requires cuts { AreCuts (rest_from first.end (I.text rest.now)) (lines_left breaks.old) }
    requires at { I.text after.old ≡ rest_from first.end (I.text rest.now) }
    ensures lines { let measure = measure_of setting.entry.measuring in
        let room = setting.entry.room in
        lines_from room setting.entry.is_first (segment_at measure (I.text rest.now) first) (segments_from measure (rest_from first.end (I.text rest.now)) (lines_left breaks.old))
        ≡ line_at setting.entry.is_first (I.text rest.now) result.0 ∷ lines_held measure room result.0.is_mandatory (rest_from result.0.end (I.text rest.now)) result.1 (lines_left breaks.new) }
    ensures piece { (cells : List Cell) × IsFirstPiece (I.text rest.now) cells result.0 }
    ensures held { IsHeldPiece (measure_of setting.entry.measuring) (rest_from result.0.end (I.text rest.now)) result.1 (lines_left breaks.new) }
    ensures after { I.text after.new ≡ rest_held (rest_from result.0.end (I.text rest.now)) result.1 }
{
    let mut line = first;
    let columns = setting.room.columns(setting.is_first) as u128;
    let mut held = next_piece(breaks, after, setting.measuring);
    'line: while let Some(piece) = held {
        let extent = line.extent.joined(piece.extent);
        if line.is_mandatory || columns < extent.columns {
            break 'line;
        }
        line = Piece { extent, ..piece };
        held = next_piece(breaks, after, setting.measuring);
    }
    let _text = rest;
    (line, held)
}
