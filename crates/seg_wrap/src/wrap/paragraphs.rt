//! Lines of a text, chosen paragraph by paragraph.

ghost use Rattle.std.specs.Prelude.{◌≡◌, ◌+◌, ◌<◌, ◌^◌, ℕ, List, true, IfErr, IfOk, map};
ghost use Rattle.std.specs.Option.{option_map};
ghost use Rattle.seg_balance.specs.Balanced.{lines_after, total_columns};
ghost use Rattle.seg_lines.specs.Lines.{lines_left};
ghost use Rattle.seg_wrap.specs.Paragraphs.{AreChosen, GivesParagraph, balanced_style, limits_of};
ghost use Rattle.seg_wrap.specs.Pieces.{EndWithPieces, IsParagraph, measured_piece, spans_at};
ghost use Rattle.seg_wrap.specs.Walk.{AreCuts, measure_of};
ghost use Rattle.seg_wrap.specs.Wrapping.{segments_from};

use crate::wrap::breaks::fork;
use crate::wrap::measure::Measuring;
use crate::wrap::parts::parts;
use crate::wrap::wrapping::{Piece, Room, Span, next_piece};
use seg_balance::balance::{Limits, MeasuredLine, MeasuredSegment, balanced, filled};
use seg_hyphens::patterns::HyphenationPatterns;
use seg_lines::line::LineBreakIterator;
use seg_text::cursor::Cursor;
use std::alloc::{AllocError, Global};
use std::fmt;
use std::marker::Model;

/// How the lines of a paragraph are chosen.
#[derive(Clone, Copy, Debug, PartialEq, Eq)]
pub enum Fit {
    /// Each line is filled as far as it goes.
    First,
    /// Of all lines with room in the columns these leave the least ragged right edge: they cost the least, where a line costs the square of
    /// the columns that it leaves free, but the last of a paragraph nothing. Among lines that cost the same, the first is filled as far as it
    /// goes, then the second, and so on. So there is one answer.
    Balanced,
}

/// How paragraphs are set.
#[derive(Clone, Copy, Debug, PartialEq, Eq)]
pub struct ParagraphStyle {
    /// The columns of lines: those above 4,294,967,295 are as many.
    pub room: Room,
    /// How lines are chosen.
    pub fit: Fit,
}

impl ParagraphStyle {
    /// Balanced lines of so many columns.
    pub fn balanced(columns: usize) -> Self
        ensures { result ≡ balanced_style columns }
    {
        ParagraphStyle {
            room: Room::even(columns),
            fit: Fit::Balanced,
        }
    }
}

/// The lines of a text, chosen paragraph by paragraph.
///
/// A line takes whole segments of the text; where words are hyphenated, it may end at a point of a word, behind which a hyphen is shown. A line
/// of several of these parts has at most the columns, its hyphen included. A line ends at each break where it must: there a paragraph ends.
pub struct Paragraphs<'data, I: Cursor> {
    breaks: LineBreakIterator<'data, I>,
    // The text from the next paragraph on.
    rest: I,
    measuring: Measuring<'data>,
    style: ParagraphStyle,
}

// Written out: a derived one, of all that it holds, is dear to prove.
impl<'data, I: Cursor> fmt::Debug for Paragraphs<'data, I> {
    fn fmt<W: fmt::Write>(&self, f: &mut fmt::Formatter<W>) -> fmt::Result {
        f.write_str("Paragraphs { .. }")
    }
}

// Written out, so that it is proved here and not in each program that wraps.
impl<'data, I: Cursor> Drop for Paragraphs<'data, I> {
    fn drop(self) {
        let Paragraphs {
            breaks: _,
            rest: _,
            measuring: _,
            style: _,
        } = self;
    }
}

impl<'data, I: Cursor> Model for Paragraphs<'data, I> {
    ghost use Rattle.std.proofs.Props.{props};
    ghost use Rattle.std.specs.Coded.{codes};
    ghost use Rattle.seg_lines.specs.Lines.{lines_left};
    ghost use Rattle.seg_wrap.specs.Paragraphs.{ParagraphsLeft};
    ghost use Rattle.seg_wrap.specs.Walk.{AreCuts, measure_of};
    ghost use Rattle.seg_wrap.specs.Wrapping.{segments_from};

    ghost Value = { ParagraphsLeft };

    ghost coded = { Prim.hlevel (codes, props) };

    ghost view = { λ s. record { text = I.text s.rest; segments = segments_from (measure_of s.measuring) (I.text s.rest) (lines_left s.breaks); measuring = s.measuring; style = s.style } };

    ghost invariant = { λ s. AreCuts (I.text s.rest) (lines_left s.breaks) };
}

impl<'data, I: Cursor> Paragraphs<'data, I> {
    /// The paragraphs of a text that has these breaks after its start.
    pub(crate) fn new(
        breaks: LineBreakIterator<'data, I>,
        rest: I,
        measuring: Measuring<'data>,
        style: ParagraphStyle,
    ) -> Self
        requires { AreCuts (I.text rest) (lines_left breaks) }
        ensures text { result.text ≡ I.text rest }
        ensures segments { result.segments ≡ segments_from (measure_of measuring.entry) (I.text rest) (lines_left breaks.entry) }
        ensures measuring { result.measuring ≡ measuring.entry }
        ensures style { result.style ≡ style }
    {
        Paragraphs {
            breaks,
            rest,
            measuring,
            style,
        }
    }

    /// The lines of the next paragraph, whose words are hyphenated by patterns, if there are some. None are left at the end, and from then on.
    /// Takes some 200 bytes a part of the paragraph, and gives most of it back; its time grows with the parts that have room in a line, for
    /// each part. Fails only when out of memory, and then nothing was given.
    pub fn next_paragraph(
        &mut self,
        alloc: Global,
        patterns: Option<&HyphenationPatterns>,
    ) -> Result<Vec<Span>, AllocError>
        ensures given { IfOk result (λ spans. GivesParagraph (option_map (λ patterns. patterns.now) patterns.entry) self.old spans.items self.new) }
        ensures kept { IfErr result (λ _. self.new ≡ self.old) }
    {
        // So each place in the text is a number of this type.
        let _end = self.rest.end();
        let mut breaks = fork(&self.breaks);
        let mut after = self.rest.fork();
        let pieces = paragraph(alloc, &mut breaks, &mut after, &self.rest, self.measuring)?;
        let parts = parts(alloc, patterns, self.measuring, &self.rest, pieces)?;
        let spans = lines(alloc, self.style, self.rest.place(), parts.as_slice())?;
        self.breaks = breaks;
        self.rest = after;
        Ok(spans)
    }
}

// The pieces of the first paragraph. The cursor goes over them. The text itself, `rest`, is what the contract speaks of.
fn paragraph<I: Cursor>(
    alloc: Global,
    breaks: &mut LineBreakIterator<'_, I>,
    after: &mut I,
    rest: &I,
    measuring: Measuring<'_>,
) -> Result<Vec<Piece>, AllocError>
    requires cuts { AreCuts (I.text after.old) (lines_left breaks.old) }
    requires at { I.text after.old ≡ I.text rest.now }
    ensures { IfOk result (λ pieces. IsParagraph (measure_of measuring.entry) (I.text rest.now)
        (segments_from (measure_of measuring.entry) (I.text rest.now) (lines_left breaks.old)) pieces.items (I.text after.new) (lines_left breaks.new)) }
{
    let mut pieces = Vec::new(alloc);
    'pieces: while let Some(piece) = next_piece(breaks, after, measuring) {
        pieces.push(piece)?;
        if piece.is_mandatory {
            break 'pieces;
        }
    }
    let _text = rest;
    Ok(pieces)
}

// Where the lines of a paragraph with these parts stand, which begins at a place.
fn lines(
    alloc: Global,
    style: ParagraphStyle,
    start: usize,
    parts: &[Piece],
) -> Result<Vec<Span>, AllocError>
    requires room { total_columns (map measured_piece parts.now) + 1 < 2 ^ 128 }
    ensures { IfOk result (λ spans. (counts : List ℕ) × (AreChosen style.fit (limits_of style.room) (map measured_piece parts.now) counts
        × (spans.items ≡ spans_at true start parts.now (lines_after 0 (map measured_piece parts.now) counts)))) }
{
    let segments = measured(alloc, parts)?;
    let lines = chosen(alloc, style, segments.as_slice())?;
    spans(alloc, start, parts, lines.as_slice())
}

// The columns that lines have at most.
fn limits_of(room: Room) -> Limits
    ensures { result ≡ limits_of room }
{
    Limits {
        first: room.first.min(u32::MAX as usize) as u32,
        others: room.others.min(u32::MAX as usize) as u32,
    }
}

// The lines that are chosen.
fn chosen(
    alloc: Global,
    style: ParagraphStyle,
    segments: &[MeasuredSegment],
) -> Result<Vec<MeasuredLine>, AllocError>
    requires room { total_columns segments.now + 1 < 2 ^ 128 }
    ensures { IfOk result (λ lines. (counts : List ℕ) × (AreChosen style.fit (limits_of style.room) segments.now counts
        × (lines.items ≡ lines_after 0 segments.now counts))) }
{
    let limits = limits_of(style.room);
    match style.fit {
        Fit::First => filled(alloc, limits, segments),
        Fit::Balanced => balanced(alloc, limits, segments),
    }
}

// What parts take of a line.
fn measured(alloc: Global, parts: &[Piece]) -> Result<Vec<MeasuredSegment>, AllocError>
    ensures { IfOk result (λ segments. segments.items ≡ map measured_piece parts.now) }
{
    let mut segments = Vec::new(alloc);
    'parts: for part in parts {
        segments.push(MeasuredSegment {
            columns: part.extent.columns,
            trailing_columns: part
                .extent
                .inner_columns
                .saturating_sub(part.extent.columns),
            is_blank: part.extent.is_trailing,
            is_hyphenated: part.is_hyphenated,
            is_mandatory: part.is_mandatory,
        })?;
    }
    Ok(segments)
}

// Where the lines of a paragraph stand, which begins at a place.
fn spans(
    alloc: Global,
    start: usize,
    parts: &[Piece],
    lines: &[MeasuredLine],
) -> Result<Vec<Span>, AllocError>
    requires { EndWithPieces parts.now lines.now }
    ensures { IfOk result (λ spans. spans.items ≡ spans_at true start parts.now lines.now) }
{
    let mut spans = Vec::new(alloc);
    let mut start = start;
    let mut is_first = true;
    'lines: for line in lines {
        let last = &parts[line.end - 1];
        spans.push(Span {
            start,
            end: last.end,
            columns: line.columns,
            is_first,
            is_hyphenated: last.is_hyphenated,
            is_mandatory: last.is_mandatory,
        })?;
        start = last.end;
        is_first = false;
    }
    Ok(spans)
}
