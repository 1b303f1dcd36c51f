//! Texts of which is written part by part, as they come.
ghost use Rattle.std.specs.Prelude.{◌≡◌, ◌+◌, ◌++◌, ◌⊎◌, ◌<◌, ◌≤◌, drop, length, take, IfErr, IfOk, IfSome, IsTrue, OnErr, OnOk};
ghost use Rattle.std.specs.List.{list_all};
ghost use Rattle.std.specs.Io.{ReadsAtMost};
ghost use Rattle.std.specs.Io.KnownBytes.{Appends, Consumes, IsAtEnd, Keeps, ReadConsumes};
ghost use Rattle.icu_segmenter.specs.Boundaries.{IsCover};
ghost use Rattle.segment_text.specs.Fault.{IsReadFault};
ghost use Rattle.segment_output.specs.Parts.{IsAdded, IsBegun, IsPartWritten, MayBeSplit, boundaries_for, count_for, found_for, output_for, printed_behind};
ghost use Rattle.segment_text.specs.Size.{both_sizes, size_of};

use crate::marks::{UpTo, Whole};
use crate::output::{Part, Style};
use crate::segmenter::TextSegmenter;
use crate::wrapper::Wrapper;
use segment_text::blocks::{hold, read_block, whole_len};
use segment_text::fault::Fault;
use segment_text::preparation::Preparation;
use segment_text::size::{Size, Tally};
use std::alloc::Global;
use std::io::{ErrorKind, Read, Write};
use std::{io, mem};

// So many bytes are read at once, as many as a pipe holds.
pub(crate) const BLOCK_LEN: usize = 65536;

// A line, or paragraph, of so many bytes is split at a certain place: shorter ones are faster as they are.
const LONG_LEN: usize = 1 << 20;

// So many bytes that were held before are looked at again when more have come, for a certain place at their seam.
pub(crate) const OVERLAP_LEN: usize = 64;

/// What is written of a text.
#[derive(Clone, Copy)]
pub enum Printing<'p> {
    /// Its segments, in a style, and where objects and offsets name a file, with that name.
    Segments(&'p TextSegmenter, Style, Option<&'p str>),
    /// Its wrapped lines.
    Lines(&'p Wrapper),
}

/// What is done to a text that comes part by part.
#[derive(Clone, Copy)]
pub struct Splitting<'p> {
    /// What is written.
    pub printing: Printing<'p>,
    /// What is done to each part first.
    pub preparation: Preparation,
}

/// How far a text is written.
#[derive(Drop)]
pub struct Progress {
    /// What has come and isn't written: the beginning of a line, or of a paragraph.
    held: Vec<u8>,
    /// How large what is written is, as it came.
    size: Size,
    /// How many bytes the text has that was made of it.
    made: usize,
    /// How many segments that has.
    segments: usize,
}

impl<'p> Printing<'p> {
    /// Whether a text may be split behind its line feeds, so that of each part is written what is written of it in the whole. It is so by
    /// Unicode's machines. Takes no memory.
    pub fn has_parts(self) -> bool
        ensures { IsTrue result → MayBeSplit self.entry }
    {
        match self {
            Printing::Segments(segmenter, _, _) => segmenter.has_parts(),
            Printing::Lines(wrapper) => wrapper.has_parts(),
        }
    }

    /// Writes what is written of a part of a text, before which so many bytes stand, flushes, and says how many segments it has. The errors are
    /// the writer's, and being out of memory.
    pub fn print<O: Write>(
        self,
        alloc: Global,
        text: &[u8],
        before: usize,
        out: &mut O,
    ) -> io::Result<usize>
        ensures cover { IsCover 0 (length text.now) (boundaries_for self.entry text.now) }
        ensures written { IfOk result (λ count. (count ≡ count_for self.entry text.now)
            × Appends (O.contents out.old) (O.contents out.new) (printed_behind self.entry before text.now)) }
    {
        match self {
            Printing::Segments(segmenter, style, file) => {
                let part = Part {
                    bytes: text,
                    before,
                    style,
                    file,
                };
                segmenter.print_part(alloc, part, Whole, out)
            }
            Printing::Lines(wrapper) => {
                wrapper.print(alloc, text, out)?;
                Ok(0)
            }
        }
    }
}

/// Writes what is written of a text that a reader has, split behind its line feeds or, where lines are joined, behind its blank lines: each time
/// that the reader gives some bytes, the lines or paragraphs that end with them. Where they end none, a megabyte is held, and segments of the text
/// as it stands are written, those up to the last certain place. It takes memory for the longest part. The errors are those of the reader,
/// where what was split off of what it gave is written and nothing of the rest, and of the writer.
pub fn print_parts<I: Read, O: Write>(
    alloc: Global,
    splitting: Splitting<'_>,
    input: &mut I,
    out: &mut O,
) -> Result<Tally, Fault>
    requires { MayBeSplit splitting.printing }
    ensures read_all { OnOk result (IsAtEnd (I.remaining input.new)) }
    ensures written { IfOk result (λ tally. IfSome (I.remaining input.old) (λ bytes.
        (tally.segments ≡ found_for splitting.entry bytes) × (tally.size ≡ size_of bytes)
        × Appends (O.contents out.old) (O.contents out.new) (output_for splitting.entry bytes))) }
    ensures begun { IfErr result (λ fault. IsReadFault fault → (out.new ≡ out.old)
        ⊎ IsBegun splitting.entry (I.remaining input.old) (I.remaining input.new) (O.contents out.old) (O.contents out.new)) }
{
    let mut block = [0u8; BLOCK_LEN];
    let mut progress = Progress {
        held: Vec::new(alloc),
        size: Size { lines: 0, bytes: 0 },
        made: 0,
        segments: 0,
    };
    'reads: for _ in 0..u64::MAX {
        let len = read_block(input, &mut block)?;
        if len == 0 {
            return print_last(splitting, &mut progress, out);
        }
        let (bytes, _) = block.split_at(len);
        if let Err(fault) = add_block(splitting, bytes, &mut progress, out) {
            return Err(fault);
        }
    }
    Err(Fault::Read(io::Error::from(ErrorKind::Other)))
}

// Adds a block that has come: all up to the last place where it may be split is written.
fn add_block<O: Write>(
    splitting: Splitting<'_>,
    block: &[u8],
    progress: &mut Progress,
    out: &mut O,
) -> Result<(), Fault>
    ensures added { OnOk result (IsAdded splitting.entry block.now progress.old progress.new (out.new ≡ out.old) (O.contents out.old) (O.contents out.new)) }
    ensures unwritten { IfErr result (λ fault. IsReadFault fault → out.new ≡ out.old) }
{
    let Some(len) = whole_len(splitting.preparation.joins, block) else {
        return add_amid(splitting, block, progress, out);
    };
    let (whole, rest) = block.split_at(len);
    hold(whole, &mut progress.held)?;
    let mut next = Vec::new(*progress.held.allocator());
    hold(rest, &mut next)?;
    let part = mem::replace(&mut progress.held, next);
    print_part(splitting, part, progress, out)
}

// Adds a block that ends no line or paragraph: where much is held, and segments of the text as it stands are written, those up to the last
// certain place are.
fn add_amid<O: Write>(
    splitting: Splitting<'_>,
    block: &[u8],
    progress: &mut Progress,
    out: &mut O,
) -> Result<(), Fault>
    ensures added { OnOk result (IsAdded splitting.entry block.now progress.old progress.new (out.new ≡ out.old) (O.contents out.old) (O.contents out.new)) }
    ensures unwritten { IfErr result (λ fault. IsReadFault fault → out.new ≡ out.old) }
{
    let least = progress.held.len().saturating_sub(OVERLAP_LEN);
    hold(block, &mut progress.held)?;
    if progress.held.len() < LONG_LEN {
        return Ok(());
    }
    let Printing::Segments(segmenter, style, file) = splitting.printing else {
        return Ok(());
    };
    if splitting.preparation.tabs.is_some() || splitting.preparation.joins {
        return Ok(());
    }
    let Some(place) = segmenter.last_split(progress.held.as_slice(), least) else {
        return Ok(());
    };
    let alloc = *progress.held.allocator();
    let held = progress.keep_from(place)?;
    let part = Part {
        bytes: held.as_slice(),
        before: progress.made,
        style,
        file,
    };
    match segmenter.print_part(alloc, part, UpTo { place }, out) {
        Ok(segments) => progress.count(Size::of(&held[..place]), place, segments),
        Err(error) => Err(Fault::of_writing(error)),
    }
}

// Writes what is held, which is the text's last part.
fn print_last<O: Write>(
    splitting: Splitting<'_>,
    progress: &mut Progress,
    out: &mut O,
) -> Result<Tally, Fault>
    ensures written { IfOk result (λ tally. (tally.segments ≡ progress.new.segments) × (tally.size ≡ progress.new.size)
        × IsPartWritten splitting.entry progress.old.held.items progress.old progress.new (O.contents out.old) (O.contents out.new)) }
    ensures unwritten { IfErr result (λ fault. IsReadFault fault → out.new ≡ out.old) }
{
    let nothing = Vec::new(*progress.held.allocator());
    let part = mem::replace(&mut progress.held, nothing);
    print_part(splitting, part, progress, out)?;
    Ok(Tally {
        segments: progress.segments,
        size: progress.size,
    })
}

// Writes what is written of a part of the text. The errors are the writer's, and being out of memory.
fn print_part<O: Write>(
    splitting: Splitting<'_>,
    part: Vec<u8>,
    progress: &mut Progress,
    out: &mut O,
) -> Result<(), Fault>
    ensures written { OnOk result (IsPartWritten splitting.entry part.items progress.old progress.new (O.contents out.old) (O.contents out.new)) }
    ensures held { progress.new.held ≡ progress.old.held }
    ensures unwritten { IfErr result (λ fault. IsReadFault fault → out.new ≡ out.old) }
{
    let alloc = *part.allocator();
    let size = Size::of(part.as_slice());
    let Ok(text) = splitting.preparation.apply(alloc, part) else {
        return Err(Fault::MemoryBefore);
    };
    let segments = splitting
        .printing
        .print(alloc, text.as_slice(), progress.made, out)
        .map_err(Fault::of_writing)?;
    progress.count(size, text.len(), segments)
}

impl Progress {
    // Keeps of what is held what stands from a place on, and gives all that was held. The fault is being out of memory.
    fn keep_from(&mut self, place: usize) -> Result<Vec<u8>, Fault>
        requires { place ≤ length self.old.held.items }
        ensures held { OnOk result (self.new.held.items ≡ drop place self.old.held.items) }
        ensures all { IfOk result (λ held. held ≡ self.old.held) }
        ensures size { self.new.size ≡ self.old.size }
        ensures made { self.new.made ≡ self.old.made }
        ensures segments { self.new.segments ≡ self.old.segments }
    {
        let mut rest = Vec::new(*self.held.allocator());
        hold(&self.held[place..], &mut rest)?;
        Ok(mem::replace(&mut self.held, rest))
    }

    // Counts a part more. The error is that no `usize` counts all.
    fn count(&mut self, size: Size, made: usize, segments: usize) -> Result<(), Fault>
        ensures size { OnOk result (self.new.size ≡ both_sizes self.old.size size) }
        ensures made { OnOk result (self.new.made ≡ self.old.made + made) }
        ensures segments { OnOk result (self.new.segments ≡ self.old.segments + segments) }
        ensures held { self.new.held ≡ self.old.held }
        ensures only { IfErr result (λ fault. IsReadFault fault → ⊥) }
    {
        let (Some(size), Some(made), Some(segments)) = (
            self.size.checked_add(size),
            self.made.checked_add(made),
            self.segments.checked_add(segments),
        ) else {
            return Err(Fault::MemoryAmid);
        };
        self.size = size;
        self.made = made;
        self.segments = segments;
        Ok(())
    }
}
