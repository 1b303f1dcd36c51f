//! How segments are written.
ghost use Rattle.std.specs.Prelude.{◌≡◌, ◌≢◌, ◌++◌, ◌∷◌, [], ℕ, false, List, None, length, option_map, IfOk, IsTrue, OnOk};
ghost use Rattle.std.specs.Io.KnownBytes.{Appends};
ghost use Rattle.std.specs.Iterator.{IsFinite, YieldsThen};
ghost use Rattle.std.specs.List.{slice_range};
ghost use Rattle.segment_output.specs.Gathered.{AreGathered};
ghost use Rattle.segment_output.specs.Output.{look_of, segments, line_at, lines_at};
ghost use Rattle.segment_output.specs.Stretch.{IsStretch};
ghost use Rattle.segment_output.specs.declared.marks.Mark.{Mark};
ghost use Rattle.segment_output.specs.declared.output.Style.TheVariants.{Json};

use crate::marks::Mark;
use crate::object_lines::print_objects;
use crate::objects::{Said, push_object};
use crate::stretch::{Stretch, push_short, stretch_after};
use segment_text::counts::{AskedCounts, push_name};
use segment_text::escapes::push_escaped;
use segment_text::gathered::{LINES_CAPACITY, LINES_LEN, write_lines};
use segment_text::numbers::{push_digits, push_number};
use segment_text::size::{later, one_more};
use std::alloc::{AllocError, Global};
use std::io;
use std::io::Write;

/// How segments are written.
#[derive(Clone, Copy)]
pub enum Style {
    /// As text, with control characters as escapes.
    Escaped,
    /// As text, as it is.
    Raw,
    /// As text, as it is, and a zero byte in the place of the line feed.
    ZeroEnded,
    /// As objects of JSON, a line each.
    Json,
    /// As the places where they begin and end, in bytes.
    Offsets,
    /// Not at all: they are only counted, and these numbers stand beside how many there are.
    Counted(AskedCounts),
}

impl Style {
    /// Whether what is said of segments is asked for: where it is shown, and where words are shown alone.
    pub fn asks_marks(self, alone: bool) -> bool
        ensures { result ≡ false → (alone ≡ false) × (self ≢ Json) }
    {
        match self {
            Style::Json => true,
            _ => alone,
        }
    }
}

/// A text, or a part of one, and how its segments are written.
#[derive(Clone, Copy)]
pub struct Part<'s> {
    /// Its bytes.
    pub bytes: &'s [u8],
    /// How many bytes of the text stand before it.
    pub before: usize,
    /// How its segments are written.
    pub style: Style,
    /// The name of its file, where objects and offsets say it.
    pub file: Option<&'s str>,
}

/// Writes the segments of a part between each two places that come, each with the mark of what ends there, or words alone, flushes, and says
/// how many there were. Where they are only counted, nothing is written. The errors are the writer's, and being out of memory, also where there
/// are more segments, or bytes in all, than a `usize` counts.
pub fn print_segments<N: Iterator<Item = (usize, Mark)>, O: Write>(
    alloc: Global,
    places: &mut N,
    alone: bool,
    part: Part<'_>,
    out: &mut O,
) -> io::Result<usize>
    requires can { N.can_next places.old }
    requires ends { IsFinite (N.remaining places.old) }
    ensures { IfOk result (λ count. (given : List (ℕ × Mark)) × YieldsThen N.next_gives places.old given None places.new
        × (count ≡ length (segments alone given))
        × Appends (O.contents out.old) (O.contents out.new) (lines_at (look_of part.entry) part.entry.before part.entry.bytes.now (segments alone given))) }
{
    match part.style {
        Style::Json => print_objects(alloc, places, alone, part, out),
        Style::Counted(_) => count_segments(places, alone),
        _ => print_lines(alloc, places, alone, part, out),
    }
}

// Counts the segments between each two places that come, or words alone.
fn count_segments<N: Iterator<Item = (usize, Mark)>>(
    places: &mut N,
    alone: bool,
) -> io::Result<usize>
    requires can { N.can_next places.old }
    requires ends { IsFinite (N.remaining places.old) }
    ensures { IfOk result (λ count. (given : List (ℕ × Mark)) × YieldsThen N.next_gives places.old given None places.new
        × (count ≡ length (segments alone given))) }
{
    let mut count: usize = 0;
    let mut has_begun = false;
    'places: while let Some(end) = places.next() {
        if !has_begun {
            has_begun = true;
        } else if end.1.is_shown(alone) {
            count = one_more(count)?;
        }
    }
    Ok(count)
}

// Writes the segments of a part as lines of text or of places.
fn print_lines<N: Iterator<Item = (usize, Mark)>, O: Write>(
    alloc: Global,
    places: &mut N,
    alone: bool,
    part: Part<'_>,
    out: &mut O,
) -> io::Result<usize>
    requires can { N.can_next places.old }
    requires ends { IsFinite (N.remaining places.old) }
    ensures { IfOk result (λ count. (given : List (ℕ × Mark)) × YieldsThen N.next_gives places.old given None places.new
        × (count ≡ length (segments alone given))
        × Appends (O.contents out.old) (O.contents out.new) (lines_at (look_of part.entry) part.entry.before part.entry.bytes.now (segments alone given))) }
{
    let mut lines = Vec::with_capacity(alloc, LINES_CAPACITY)?;
    let mut stretch = stretch_after(part.bytes, 0, part.style);
    let mut count: usize = 0;
    // Before the first place no segment begins, and the short way isn't taken.
    let mut start = usize::MAX;
    let mut has_begun = false;
    'places: while let Some((end, mark)) = places.next() {
        if !mark.is_shown(alone) {
            has_begun = true;
        } else if push_short(part.bytes, start, end, &stretch, &mut lines) {
            count = one_more(count)?;
        } else if has_begun {
            count = one_more(count)?;
            let segment = Segment { start, end, mark };
            push_long(part, segment, &mut stretch, &mut lines, out)?;
        } else {
            has_begun = true;
        }
        start = end;
    }
    out.write_all(lines.as_slice())?;
    out.flush()?;
    Ok(count)
}

/// A segment of a part.
#[derive(Clone, Copy)]
pub struct Segment {
    /// Where it begins.
    pub start: usize,
    /// Where it ends.
    pub end: usize,
    /// What is said of it.
    pub mark: Mark,
}

// Adds the line of a segment, and writes what was gathered before, where it is much. The errors are the writer's, and being out of memory.
// Apart, since an `io::Result` is wide.
#[inline(never)]
fn push_long<O: Write>(
    part: Part<'_>,
    segment: Segment,
    stretch: &mut Stretch,
    lines: &mut Vec<u8>,
    out: &mut O,
) -> io::Result<()>
    requires { IsStretch part.style part.bytes.now stretch.old }
    ensures stretch { OnOk result (IsStretch part.entry.style part.entry.bytes.now stretch.new) }
    ensures lines { OnOk result (AreGathered (O.contents out.old) (O.contents out.new) lines.new.items
        (lines.old.items ++ line_at (look_of part.entry) part.entry.before part.entry.bytes.now (record { from = segment.start; to = segment.end; mark = segment.mark }))) }
{
    if lines.len() >= LINES_LEN {
        write_lines(lines, out)?;
    }
    push_segment(part, segment, stretch, lines)?;
    Ok(())
}

// Adds the line of a segment, and finds the next stretch, where the segment doesn't end before this one does.
fn push_segment(
    part: Part<'_>,
    segment: Segment,
    stretch: &mut Stretch,
    lines: &mut Vec<u8>,
) -> Result<(), AllocError>
    requires { IsStretch part.style part.bytes.now stretch.old }
    ensures stretch { OnOk result (IsStretch part.entry.style part.entry.bytes.now stretch.new) }
    ensures lines { OnOk result (lines.new.items ≡ lines.old.items ++ line_at (look_of part.entry) part.entry.before part.entry.bytes.now (record { from = segment.start; to = segment.end; mark = segment.mark })) }
{
    let Segment {
        start,
        end,
        mark: _,
    } = segment;
    if stretch.from <= start && start <= end && end <= stretch.to {
        lines.extend_from_slice(&part.bytes[start..end])?;
        lines.push(stretch.last)?;
        return Ok(());
    }
    push_line(part, segment, lines)?;
    if end > stretch.to {
        *stretch = stretch_after(part.bytes, end, part.style);
    }
    Ok(())
}

/// Adds the line of a segment.
pub fn push_line(part: Part<'_>, segment: Segment, lines: &mut Vec<u8>) -> Result<(), AllocError>
    ensures { OnOk result (lines.new.items ≡ lines.old.items ++ line_at (look_of part.entry) part.entry.before part.entry.bytes.now (record { from = segment.start; to = segment.end; mark = segment.mark })) }
{
    let Segment { start, end, mark } = segment;
    let bytes = segment_of(part.bytes, start, end);
    match part.style {
        Style::Escaped => {
            push_escaped(bytes, lines)?;
            lines.extend_from_slice(b"\n")
        }
        Style::Raw => {
            lines.extend_from_slice(bytes)?;
            lines.extend_from_slice(b"\n")
        }
        Style::ZeroEnded => {
            lines.extend_from_slice(bytes)?;
            lines.extend_from_slice(b"\0")
        }
        Style::Json => {
            let (start, end) = (later(part.before, start)?, later(part.before, end)?);
            push_object(
                bytes,
                start,
                end,
                Said {
                    mark,
                    file: part.file,
                },
                lines,
            )
        }
        Style::Offsets => {
            push_number(later(part.before, start)?, b' ', lines)?;
            push_digits(later(part.before, end)?, lines)?;
            push_name(part.file, lines)
        }
        Style::Counted(_) => Ok(()),
    }
}

// What stands between two places.
#[inline(always)]
fn segment_of(text: &[u8], start: usize, end: usize) -> &[u8]
    ensures { result.now ≡ slice_range text.now start end }
{
    let rest = text.get(start..).unwrap_or(&[]);
    rest.get(..end.saturating_sub(start)).unwrap_or(rest)
}
