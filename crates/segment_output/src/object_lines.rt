//! Segments as objects of JSON, a line each.
ghost use Rattle.std.specs.Prelude.{◌≡◌, ◌+◌, ◌<◌, ◌≤◌, ◌++◌, ◌∷◌, [], ℕ, false, List, drop, length, take, true, IfOk, IfSome, IsTrue, OnOk};
ghost use Rattle.std.specs.Io.KnownBytes.{Appends};
ghost use Rattle.std.specs.Iterator.{IsFinite, YieldsThen};
ghost use Rattle.std.specs.List.{slice_range};
ghost use Rattle.segment_text.specs.Bare.{AreBare, IsBareStretch};
ghost use Rattle.segment_output.specs.Gathered.{AreGathered};
ghost use Rattle.segment_output.specs.Output.{look_of, segments, line_at, lines_at};
ghost use Rattle.segment_output.specs.declared.marks.Mark.{Mark};
ghost use Rattle.segment_output.specs.declared.output.Style.TheVariants.{Json};

use crate::marks::Mark;
use crate::output::{Part, Segment, push_line};
use crate::page::Page;
use segment_text::bare::{BareStretch, bare_stretch_after};
use segment_text::copied::{Copied, copied_from};
use segment_text::size::{later, one_more};
use std::alloc::Global;
use std::io;
use std::io::Write;

// Objects on their way: the page that they stand on, a line that is put together apart, and where nothing is escaped.
#[derive(Drop)]
struct Objects<'s> {
    page: Page,
    line: Vec<u8>,
    stretch: BareStretch<'s>,
}

/// Writes the segments of a part between each two places that come as objects, each with the mark of what ends there, or words alone, flushes, and
/// says how many there were. The errors are the writer's, and being out of memory, also where there are more segments, or bytes in all, than a
/// `usize` counts.
pub fn print_objects<N: Iterator<Item = (usize, Mark)>, O: Write>(
    alloc: Global,
    places: &mut N,
    alone: bool,
    part: Part<'_>,
    out: &mut O,
) -> io::Result<usize>
    requires json { part.style ≡ Json }
    requires can { N.can_next places.old }
    requires ends { IsFinite (N.remaining places.old) }
    ensures { IfOk result (λ count. (given : List (ℕ × Mark)) × YieldsThen N.next_gives places.old given None places.new
        × (count ≡ length (segments alone given))
        × Appends (O.contents out.old) (O.contents out.new) (lines_at (look_of part.entry) part.entry.before part.entry.bytes.now (segments alone given))) }
{
    let mut objects = Objects {
        page: Page::try_new(alloc)?,
        line: Vec::new(alloc),
        stretch: BareStretch { from: 0, text: "" },
    };
    let mut count: usize = 0;
    let mut start = 0;
    let mut has_begun = false;
    'places: while let Some((end, mark)) = places.next() {
        if !has_begun {
            has_begun = true;
        } else if mark.is_shown(alone) {
            count = one_more(count)?;
            let segment = Segment { start, end, mark };
            if !put_short(part, segment, objects.stretch, &mut objects.page) {
                put_other(part, segment, &mut objects, out)?;
            }
        }
        start = end;
    }
    objects.page.write(out)?;
    out.flush()?;
    Ok(count)
}

// Adds the object of a segment, where it stands in the stretch, no file is named, and there is room for it.
#[inline(always)]
fn put_short(part: Part<'_>, segment: Segment, stretch: BareStretch<'_>, page: &mut Page) -> bool
    requires json { part.style ≡ Json }
    requires stretch { IsBareStretch part.bytes.now stretch }
    ensures added { IsTrue result → page.new ≡ page.old ++ line_at (look_of part.entry) part.entry.before part.entry.bytes.now (record { from = segment.start; to = segment.end; mark = segment.mark }) }
    ensures not { result ≡ false → page.new ≡ page.old }
{
    if part.file.is_some() {
        return false;
    }
    let Some(text) = bare_text(part.bytes, segment.start, segment.end, stretch) else {
        return false;
    };
    let Ok(start) = later(part.before, segment.start) else {
        return false;
    };
    let Ok(end) = later(part.before, segment.end) else {
        return false;
    };
    let mark = segment.mark;
    page.put_object(text, Segment { start, end, mark })
}

// What stands between two places, where that is in the stretch.
#[inline(always)]
fn bare_text<'t>(
    text: &'t [u8],
    start: usize,
    end: usize,
    stretch: BareStretch<'_>,
) -> Option<Copied<'t>>
    requires { IsBareStretch text.now stretch }
    ensures { IfSome result (λ copied. ((copied.len ≤ length copied.bytes.now) × ((length copied.bytes.now ≤ 256) × (take copied.len copied.bytes.now ≡ slice_range text.now start end))) × AreBare (slice_range text.now start end)) }
{
    if start < stretch.from || end < stretch.from {
        return None;
    }
    let _bare = stretch.text.get(start - stretch.from..end - stretch.from)?;
    copied_from(text, start, end - start)
}

// Adds the object of a segment that doesn't stand in the stretch, or has no room on the page, and finds the next stretch.
#[inline(never)]
fn put_other<'s, O: Write>(
    part: Part<'s>,
    segment: Segment,
    objects: &mut Objects<'s>,
    out: &mut O,
) -> io::Result<()>
    requires json { part.style ≡ Json }
    ensures stretch { OnOk result (IsBareStretch part.entry.bytes.now objects.new.stretch) }
    ensures lines { OnOk result (AreGathered (O.contents out.old) (O.contents out.new) objects.new.page
        (objects.old.page ++ line_at (look_of part.entry) part.entry.before part.entry.bytes.now (record { from = segment.start; to = segment.end; mark = segment.mark }))) }
{
    objects.stretch = bare_stretch_after(part.bytes, segment.start);
    if put_short(part, segment, objects.stretch, &mut objects.page) {
        return Ok(());
    }
    objects.line.clear();
    push_line(part, segment, &mut objects.line)?;
    put_line(objects.line.as_slice(), &mut objects.page, out)
}

// Adds a line, and writes what was gathered before, where there is no room for it. The errors are the writer's.
fn put_line<O: Write>(line: &[u8], page: &mut Page, out: &mut O) -> io::Result<()>
    ensures { OnOk result (AreGathered (O.contents out.old) (O.contents out.new) page.new (page.old ++ line.now)) }
{
    if page.put(line) {
        return Ok(());
    }
    page.write(out)?;
    if page.put(line) {
        return Ok(());
    }
    out.write_all(line)
}
