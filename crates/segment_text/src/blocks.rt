//! Blocks of a text, as they are read, and where they are split.
ghost use Rattle.std.specs.Prelude.{◌≡◌, ◌++◌, ◌<◌, ◌≤◌, IfOk, IfSome, OnErr, OnOk, length, take};
ghost use Rattle.std.specs.List.{list_all};
ghost use Rattle.std.specs.Io.{ReadsAtMost};
ghost use Rattle.std.specs.Io.KnownBytes.{Consumes, IsAtEnd, Keeps, ReadConsumes};
ghost use Rattle.segment_text.specs.Blocks.{AreLines, AreParagraphs, AreWhole, is_blank};

use crate::fault::Fault;
use memchr::memrchr;
use std::io;
use std::io::{ErrorKind, Read};

/// Reads into a block: how many bytes it got, and 0 at the end. A read that a signal interrupts is tried again. The fault is the reader's.
pub fn read_block<I: Read>(input: &mut I, block: &mut [u8]) -> Result<usize, Fault>
    requires { 0 < length block.old }
    ensures read { IfOk result (λ len. (len ≤ length block.new) × Consumes (I.remaining input.old) (I.remaining input.new) (take len block.new)
        × (len ≡ 0 → IsAtEnd (I.remaining input.new))) }
    ensures kept { OnErr result (Keeps (I.remaining input.old) (I.remaining input.new)) }
{
    match read_uninterrupted(input, block) {
        Ok(len) => Ok(len),
        Err(error) => Err(Fault::of_reading(error)),
    }
}

// A read, again where a signal interrupts it.
fn read_uninterrupted<I: Read>(input: &mut I, block: &mut [u8]) -> io::Result<usize>
    ensures bound { ReadsAtMost result block.new }
    ensures bytes { ReadConsumes (I.remaining input.old) (I.remaining input.new) result block.new }
{
    'tries: for _ in 0..u64::MAX {
        match input.read(block) {
            Ok(len) => return Ok(len),
            Err(error) => {
                if error.kind() != ErrorKind::Interrupted {
                    return Err(error);
                }
            }
        }
    }
    Err(io::Error::from(ErrorKind::Interrupted))
}

/// How many bytes of a block come before the last place where a text may be split, if it has one: behind a line feed or, where lines are joined,
/// behind a blank line that follows a line feed of the block. Takes no memory.
pub fn whole_len(joins: bool, block: &[u8]) -> Option<usize>
    ensures { IfSome result (λ len. (len ≤ length block.now) × AreWhole joins (take len block.now)) }
{
    if joins {
        paragraphs_len(block)
    } else {
        lines_len(block)
    }
}

// How many bytes whole lines have.
fn lines_len(block: &[u8]) -> Option<usize>
    ensures { IfSome result (λ len. (len ≤ length block.now) × AreLines (take len block.now)) }
{
    match memrchr(b'\n', block) {
        Some(last) => Some(last + 1),
        None => None,
    }
}

// How many bytes whole paragraphs have: up to the last blank line whose line before has its line feed in the block.
fn paragraphs_len(block: &[u8]) -> Option<usize>
    ensures { IfSome result (λ len. (len ≤ length block.now) × AreParagraphs (take len block.now)) }
{
    let Some(mut end) = memrchr(b'\n', block) else {
        return None;
    };
    'lines: loop {
        let Some(last) = memrchr(b'\n', &block[..end]) else {
            return None;
        };
        if is_blank_line(&block[last + 1..end]) {
            return Some(end + 1);
        }
        end = last;
    }
}

// Whether a line, without its line feed, is blank.
fn is_blank_line(line: &[u8]) -> bool
    ensures { result ≡ list_all is_blank line.now }
{
    line.iter()
        .all(|byte| *byte == b' ' || *byte == b'\t' || *byte == b'\r')
}

/// Adds bytes to those that are held until a text can be split behind them. The fault is being out of memory.
pub fn hold(bytes: &[u8], held: &mut Vec<u8>) -> Result<(), Fault>
    ensures { OnOk result (held.new.items ≡ held.old.items ++ bytes.now) }
{
    held.extend_from_slice(bytes)
        .map_err(|_| Fault::MemoryBefore)
}
