//! Where texts may be split.
ghost use Rattle.std.specs.Prelude.{◌≡◌, ◌+◌, ◌++◌, ◌≤◌, drop, length, take, IfErr, IfOk, IfSome, OnOk};
ghost use Rattle.std.specs.Io.KnownBytes.{Appends, IsAtEnd};
ghost use Rattle.std.specs.Option.{option_map};
ghost use Rattle.segment_output.specs.Paragraphs.{AppendsSome};
ghost use Rattle.segment_output.specs.Splits.{AreParts, IsHeld, last_end, part_line, part_lines};
ghost use Rattle.segment_output.specs.TextSegmenter.{boundaries_by};
ghost use Rattle.segment_text.specs.Fault.{IsReadFault};
ghost use Rattle.segment_text.specs.Size.{both_sizes, size_of};

use crate::parts::{BLOCK_LEN, OVERLAP_LEN};
use crate::segmenter::TextSegmenter;
use segment_text::blocks::{hold, read_block};
use segment_text::counts::push_name;
use segment_text::fault::Fault;
use segment_text::numbers::{push_digits, push_number};
use segment_text::size::{Size, Tally};
use std::alloc::{AllocError, Global};
use std::io;
use std::io::{ErrorKind, Read, Write};

/// Where a text is split.
#[derive(Clone, Copy)]
pub struct TextParts<'p> {
    /// By whose boundaries.
    pub segmenter: &'p TextSegmenter,
    /// How many bytes each part has at least, but the last one.
    pub least: usize,
    /// The name of its file, where lines say it.
    pub file: Option<&'p str>,
}

/// How far a text is split.
#[derive(Drop)]
pub struct PartLines {
    /// What has come and is in no part: the beginning of the next one.
    held: Vec<u8>,
    /// How many bytes the parts have.
    before: usize,
    /// How large they are.
    size: Size,
    /// Their lines.
    lines: Vec<u8>,
}

/// Writes where the parts of a text begin and end, a line each, in bytes: a text is split at certain places or, where a segmenter knows none,
/// behind line feeds, as soon as a part has enough bytes. Nothing is written before all is read. It takes memory for a part, and for the lines.
/// The errors are the reader's and the writer's, and being out of memory.
pub fn print_splits<I: Read, O: Write>(
    alloc: Global,
    parts: TextParts<'_>,
    input: &mut I,
    out: &mut O,
) -> Result<Tally, Fault>
    ensures read_all { OnOk result (IsAtEnd (I.remaining input.new)) }
    ensures written { IfOk result (λ tally. IfSome (I.remaining input.old) (λ bytes. (tally.segments ≡ 0) × (tally.size ≡ size_of bytes)
        × AppendsSome (O.contents out.old) (O.contents out.new) (AreParts (boundaries_by parts.entry.segmenter.now) parts.entry.least (option_map (λ name. name.now) parts.entry.file) bytes))) }
    ensures unwritten { IfErr result (λ fault. IsReadFault fault → out.new ≡ out.old) }
{
    let mut block = [0u8; BLOCK_LEN];
    let mut split = PartLines {
        held: Vec::new(alloc),
        before: 0,
        size: Size { lines: 0, bytes: 0 },
        lines: Vec::new(alloc),
    };
    'reads: for _ in 0..u64::MAX {
        let len = read_block(input, &mut block)?;
        if len == 0 {
            split.end(parts.file)?;
            write_whole(split.lines.as_slice(), out).map_err(Fault::of_writing)?;
            return Ok(Tally {
                segments: 0,
                size: split.size,
            });
        }
        let (bytes, _) = block.split_at(len);
        split.add(parts, bytes)?;
    }
    Err(Fault::Read(io::Error::from(ErrorKind::Other)))
}

// Writes some bytes, and flushes.
fn write_whole<O: Write>(bytes: &[u8], out: &mut O) -> io::Result<()>
    ensures { OnOk result (Appends (O.contents out.old) (O.contents out.new) bytes.now) }
{
    out.write_all(bytes)?;
    out.flush()
}

// Adds the line of a part that begins and ends at these places.
fn push_part(
    begin: usize,
    end: usize,
    file: Option<&str>,
    lines: &mut Vec<u8>,
) -> Result<(), AllocError>
    ensures { OnOk result (lines.new.items ≡ lines.old.items ++ part_line (option_map (λ name. name.now) file.entry) begin end) }
{
    push_number(begin, b' ', lines)?;
    push_digits(end, lines)?;
    push_name(file, lines)
}

impl PartLines {
    // Adds a block that has come: a part ends at the last place of what is held where it may be split, if it has enough bytes. The fault is being
    // out of memory.
    fn add(&mut self, parts: TextParts<'_>, block: &[u8]) -> Result<(), Fault>
        ensures { OnOk result (IsHeld (boundaries_by parts.entry.segmenter.now) parts.entry.least (option_map (λ name. name.now) parts.entry.file) (self.old.held.items ++ block.now) self.old self.new) }
    {
        let least = self.held.len().saturating_sub(OVERLAP_LEN);
        hold(block, &mut self.held)?;
        match parts.segmenter.split_place(self.held.as_slice(), least) {
            Some(place) if place > 0 && place >= parts.least => {
                self.push(parts.file, place)?;
                self.keep_from(place)
            }
            _ => Ok(()),
        }
    }

    // Ends the last part, if something is held. The fault is being out of memory.
    fn end(&mut self, file: Option<&str>) -> Result<(), Fault>
        ensures size { OnOk result (self.new.size ≡ both_sizes self.old.size (size_of self.old.held.items)) }
        ensures lines { OnOk result (self.new.lines.items ≡ self.old.lines.items ++ part_lines (option_map (λ name. name.now) file.entry) self.old.before (last_end self.old.before self.old.held.items)) }
    {
        let len = self.held.len();
        if len > 0 {
            self.push(file, len)?;
        }
        Ok(())
    }

    // Adds the line of the part that ends at a place of what is held. The fault is being out of memory, or more bytes than a `usize` counts.
    fn push(&mut self, file: Option<&str>, place: usize) -> Result<(), Fault>
        requires { place ≤ length self.old.held.items }
        ensures held { self.new.held ≡ self.old.held }
        ensures before { OnOk result (self.new.before ≡ self.old.before + place) }
        ensures size { OnOk result (self.new.size ≡ both_sizes self.old.size (size_of (take place self.old.held.items))) }
        ensures lines { OnOk result (self.new.lines.items ≡ self.old.lines.items ++ part_line (option_map (λ name. name.now) file.entry) self.old.before (self.old.before + place)) }
    {
        let (Some(end), Some(size)) = (
            self.before.checked_add(place),
            self.size.checked_add(Size::of(&self.held[..place])),
        ) else {
            return Err(Fault::MemoryBefore);
        };
        push_part(self.before, end, file, &mut self.lines).map_err(|_| Fault::MemoryBefore)?;
        self.before = end;
        self.size = size;
        Ok(())
    }

    // Keeps of what is held what stands from a place on. The fault is being out of memory.
    fn keep_from(&mut self, place: usize) -> Result<(), Fault>
        requires { place ≤ length self.old.held.items }
        ensures held { OnOk result (self.new.held.items ≡ drop place self.old.held.items) }
        ensures before { self.new.before ≡ self.old.before }
        ensures size { self.new.size ≡ self.old.size }
        ensures lines { self.new.lines ≡ self.old.lines }
    {
        let mut rest = Vec::new(*self.held.allocator());
        hold(&self.held[place..], &mut rest)?;
        self.held = rest;
        Ok(())
    }
}
