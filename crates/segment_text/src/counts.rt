//! How many segments there are, and the numbers beside.
ghost use Rattle.std.specs.Prelude.{◌≡◌, ◌++◌, option_map, OnOk};
ghost use Rattle.std.specs.Io.KnownBytes.{Appends};
ghost use Rattle.segment_text.specs.Counts.{beside, count_line, counts, line_end};

use crate::numbers::push_digits;
use crate::size::Tally;
use std::alloc::{AllocError, Global};
use std::io;
use std::io::Write;

/// The numbers that stand beside that of the segments, where they are counted.
#[derive(Clone, Copy, PartialEq, Eq)]
pub struct AskedCounts {
    /// How many line feeds there are.
    pub lines: bool,
    /// How many bytes there are.
    pub bytes: bool,
}

/// Writes a line: how many segments there are, how many line feeds and bytes where these numbers are asked for, and the name of what they were
/// counted in, if it has one, each after a space; and flushes. The errors are the writer's, and being out of memory.
pub fn write_count<O: Write>(
    alloc: Global,
    asked: AskedCounts,
    tally: Tally,
    name: Option<&str>,
    out: &mut O,
) -> io::Result<()>
    ensures { OnOk result (Appends (O.contents out.old) (O.contents out.new) (count_line asked tally.segments tally.size (option_map (λ name. name.now) name.entry))) }
{
    let mut line = Vec::new(alloc);
    push_counts(asked, tally, &mut line)?;
    push_name(name, &mut line)?;
    out.write_all(line.as_slice())?;
    out.flush()
}

// Adds how many segments there are, and the numbers beside.
fn push_counts(asked: AskedCounts, tally: Tally, line: &mut Vec<u8>) -> Result<(), AllocError>
    ensures { OnOk result (line.new.items ≡ line.old.items ++ counts asked tally.segments tally.size) }
{
    push_digits(tally.segments, line)?;
    push_beside(asked.lines, tally.size.lines, line)?;
    push_beside(asked.bytes, tally.size.bytes, line)
}

// Adds a space and a number, if it is asked for.
fn push_beside(is_asked: bool, number: usize, line: &mut Vec<u8>) -> Result<(), AllocError>
    ensures { OnOk result (line.new.items ≡ line.old.items ++ beside is_asked number) }
{
    if !is_asked {
        return Ok(());
    }
    line.extend_from_slice(b" ")?;
    push_digits(number, line)
}

/// Adds a space and a name, if there is one, and a line feed.
pub fn push_name(name: Option<&str>, line: &mut Vec<u8>) -> Result<(), AllocError>
    ensures { OnOk result (line.new.items ≡ line.old.items ++ line_end (option_map (λ name. name.now) name.entry)) }
{
    if let Some(name) = name {
        line.extend_from_slice(b" ")?;
        line.extend_from_slice(name.as_bytes())?;
    }
    line.extend_from_slice(b"\n")
}
