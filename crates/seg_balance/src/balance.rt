//! Which segments of a text stand in one line: lines that are filled as far as they go, and lines that are balanced.

ghost use Rattle.std.specs.Prelude.{◌≡◌, ◌+◌, ◌<◌, ◌≤◌, ◌^◌, IfOk, length, take, if◌then◌else◌};
ghost use Rattle.seg_balance.specs.Balanced.{AreBalancedLines, AreFilledLines, IsFullLine, inner_columns, limit_of, line_columns, line_cost, shown_columns, square_free, total_columns, with_hyphen};
ghost use Rattle.seg_balance.specs.Choice.{AreFirsts, AreSmall, IsLeast, begins_paragraph, goes_on};

use std::alloc::{AllocError, Global};

/// How many columns lines have at most.
#[derive(Clone, Copy, Debug, PartialEq, Eq)]
pub struct Limits {
    /// The first line of each paragraph.
    pub first: u32,
    /// Its other lines.
    pub others: u32,
}

impl Limits {
    // The columns of a line that is the first of its paragraph, or another.
    fn of(self, is_first: bool) -> u32
        ensures { result ≡ limit_of self is_first }
    {
        if is_first { self.first } else { self.others }
    }
}

/// A piece of a text after which a line may end.
#[derive(Clone, Copy, Debug)]
pub struct MeasuredSegment {
    /// Its columns without the white space at its end.
    pub columns: u128,
    /// The columns of that white space, which it takes where others follow in its line.
    pub trailing_columns: u128,
    /// Whether it is white space and nothing else.
    pub is_blank: bool,
    /// Whether a line that ends with it shows a hyphen, which takes a column.
    pub is_hyphenated: bool,
    /// Whether its line must end there.
    pub is_mandatory: bool,
}

/// A line of measured segments.
#[derive(Clone, Copy, Debug)]
pub struct MeasuredLine {
    /// After how many of all segments it ends.
    pub end: usize,
    /// Its columns without the white space at its end, but with its hyphen.
    pub columns: u128,
}

/// What is known of a line.
#[derive(Clone, Copy)]
struct Line {
    /// Its columns without the white space at its end.
    columns: u128,
    /// Its columns with that.
    inner_columns: u128,
    /// Whether it shows a hyphen.
    is_hyphenated: bool,
}

impl Line {
    // A line of one segment.
    fn of(segment: &MeasuredSegment) -> Self
        requires room { inner_columns segment.now < 2 ^ 128 }
        ensures columns { result.columns ≡ segment.now.columns }
        ensures inner { result.inner_columns ≡ inner_columns segment.now }
        ensures hyphen { result.is_hyphenated ≡ segment.now.is_hyphenated }
    {
        Line {
            columns: segment.columns,
            inner_columns: segment.columns + segment.trailing_columns,
            is_hyphenated: segment.is_hyphenated,
        }
    }

    // This line and then one segment more.
    fn followed_by(self, segment: &MeasuredSegment) -> Self
        requires room { self.inner_columns + inner_columns segment.now < 2 ^ 128 }
        ensures columns { result.columns ≡ (if segment.now.is_blank then self.columns else self.inner_columns + segment.now.columns) }
        ensures inner { result.inner_columns ≡ self.inner_columns + inner_columns segment.now }
        ensures hyphen { result.is_hyphenated ≡ segment.now.is_hyphenated }
    {
        Line {
            columns: if segment.is_blank {
                self.columns
            } else {
                self.inner_columns + segment.columns
            },
            inner_columns: self.inner_columns + segment.columns + segment.trailing_columns,
            is_hyphenated: segment.is_hyphenated,
        }
    }

    // Its columns with its hyphen.
    fn shown_columns(self) -> u128
        requires room { self.columns + 1 < 2 ^ 128 }
        ensures { result ≡ with_hyphen self.columns self.is_hyphenated }
    {
        if self.is_hyphenated {
            self.columns + 1
        } else {
            self.columns
        }
    }
}

// The square of the columns that a line of this width leaves free.
fn square_free(columns: u32, width: u128) -> u128
    ensures value { result ≡ square_free columns width }
    ensures small { result ≤ 2 ^ 64 }
{
    if width > columns as u128 {
        return 0;
    }
    let free = columns as u128 - width;
    free * free
}

// What it costs that so many segments are the first line, which has this width.
fn cost_of(columns: u32, segments: &[MeasuredSegment], count: usize, width: u128) -> u128
    requires some { 0 < count }
    requires within { count ≤ length segments.now }
    requires width { width ≡ shown_columns (take count segments.now) }
    ensures value { result ≡ line_cost columns segments.now count }
    ensures small { result ≤ 2 ^ 64 }
{
    if count == segments.len() || segments[count - 1].is_mandatory {
        return 0;
    }
    square_free(columns, width)
}

// Whether a line of so many segments, which has this width, may have one more: where there is one, where it isn't too wide already, and where it
// need not end.
fn goes_on(columns: u32, segments: &[MeasuredSegment], count: usize, width: u128) -> bool
    requires some { 0 < count }
    requires within { count ≤ length segments.now }
    ensures { result ≡ goes_on columns segments.now count width }
{
    count < segments.len() && width <= columns as u128 && !segments[count - 1].is_mandatory
}

// What the best lines of these segments cost, and how many segments the first of them has, where the costs of what is left after so many
// segments stand at their places. Looks at the segments that have room in one line, and at one more.
fn first_line(columns: u32, segments: &[MeasuredSegment], costs: &[u128]) -> (u128, usize)
    requires some { 0 < length segments.now }
    requires room { total_columns segments.now + 1 < 2 ^ 128 }
    requires long { length costs.now ≡ length segments.now + 1 }
    requires small { AreSmall segments.now costs.now }
    ensures least { IsLeast columns segments.now costs.now result.0 result.1 }
{
    let mut count = 1;
    let mut line = Line::of(&segments[0]);
    let mut first = 1;
    let mut least = cost_of(columns, segments, 1, line.shown_columns()) + costs[1];
    'longer: while goes_on(columns, segments, count, line.columns) {
        line = line.followed_by(&segments[count]);
        count += 1;
        let shown = line.shown_columns();
        if shown <= columns as u128 {
            let total = cost_of(columns, segments, count, shown) + costs[count];
            if total <= least {
                least = total;
                first = count;
            }
        }
    }
    (least, first)
}

// Of the segments from each place on, how many the first of the best lines has.
fn first_lines(
    alloc: Global,
    limits: Limits,
    segments: &[MeasuredSegment],
) -> Result<Vec<usize>, AllocError>
    requires room { total_columns segments.now + 1 < 2 ^ 128 }
    ensures long { IfOk result (λ firsts. length firsts.items ≡ length segments.now + 1) }
    ensures best { IfOk result (λ firsts. AreFirsts limits segments.now firsts.items) }
{
    let len = segments.len() + 1;
    let mut costs = Vec::new(alloc);
    costs.resize(len, 0u128)?;
    let mut firsts = Vec::new(alloc);
    firsts.resize(len, 0usize)?;
    let mut start = segments.len();
    'starts: while start > 0 {
        start -= 1;
        let columns = limits.of(begins_paragraph(segments, start));
        let (least, first) = first_line(columns, &segments[start..], &costs.as_slice()[start..]);
        costs[start] = least;
        firsts[start] = first;
    }
    Ok(firsts)
}

// Whether a line that begins after so many segments is the first of its paragraph.
fn begins_paragraph(segments: &[MeasuredSegment], start: usize) -> bool
    requires within { start ≤ length segments.now }
    ensures { result ≡ begins_paragraph segments.now start }
{
    start == 0 || segments[start - 1].is_mandatory
}

// The line of these segments.
fn line_of(segments: &[MeasuredSegment]) -> Line
    requires some { 0 < length segments.now }
    requires room { total_columns segments.now + 1 < 2 ^ 128 }
    ensures shown { with_hyphen result.columns result.is_hyphenated ≡ shown_columns segments.now }
    ensures small { result.columns + 1 < 2 ^ 128 }
{
    let mut line = Line::of(&segments[0]);
    let mut count = 1;
    'longer: while count < segments.len() {
        line = line.followed_by(&segments[count]);
        count += 1;
    }
    line
}

/// The balanced lines of these segments.
///
/// A line of several segments has at most these columns, and each line ends where it must. Of all lines of that kind these cost the least,
/// where a line costs the square of the columns that it leaves free, but nothing where a paragraph ends: at a mandatory end and with the last
/// segment. Among lines that cost the same, the first line has as many segments as it can, then the second, and so on. So there is one
/// answer. Takes 24 bytes a segment, and as long as the segments that have room in a line, for each segment. Fails only when out of memory.
pub fn balanced(
    alloc: Global,
    limits: Limits,
    segments: &[MeasuredSegment],
) -> Result<Vec<MeasuredLine>, AllocError>
    requires room { total_columns segments.now + 1 < 2 ^ 128 }
    ensures { IfOk result (λ lines. AreBalancedLines limits segments.now lines.items) }
{
    let firsts = first_lines(alloc, limits, segments)?;
    let mut lines = Vec::new(alloc);
    let mut start = 0;
    'lines: while start < segments.len() {
        let end = start + firsts[start];
        let line = line_of(&segments[start..end]);
        lines.push(MeasuredLine {
            end,
            columns: line.shown_columns(),
        })?;
        start = end;
    }
    Ok(lines)
}

// How many of these segments the first line has if it is filled as far as it goes, and its columns. Looks at the segments that have room in one
// line, and at one more.
fn full_line(columns: u32, segments: &[MeasuredSegment]) -> (usize, u128)
    requires some { 0 < length segments.now }
    requires room { total_columns segments.now + 1 < 2 ^ 128 }
    ensures full { IsFullLine columns segments.now result.0 }
    ensures shown { result.1 ≡ shown_columns (take result.0 segments.now) }
{
    let mut count = 1;
    let mut line = Line::of(&segments[0]);
    let mut full = (1, line.shown_columns());
    'longer: while goes_on(columns, segments, count, line.columns) {
        line = line.followed_by(&segments[count]);
        count += 1;
        let width = line.shown_columns();
        if width <= columns as u128 {
            full = (count, width);
        }
    }
    full
}

/// The lines of these segments, each filled as far as it goes.
///
/// A line of several segments has at most these columns, and each line ends where it must. So it takes the most segments that it may. Takes 32
/// bytes a line. Fails only when out of memory.
pub fn filled(
    alloc: Global,
    limits: Limits,
    segments: &[MeasuredSegment],
) -> Result<Vec<MeasuredLine>, AllocError>
    requires room { total_columns segments.now + 1 < 2 ^ 128 }
    ensures { IfOk result (λ lines. AreFilledLines limits segments.now lines.items) }
{
    let mut lines = Vec::new(alloc);
    let mut start = 0;
    'lines: while start < segments.len() {
        let columns = limits.of(begins_paragraph(segments, start));
        let (count, shown) = full_line(columns, &segments[start..]);
        let end = start + count;
        lines.push(MeasuredLine {
            end,
            columns: shown,
        })?;
        start = end;
    }
    Ok(lines)
}
