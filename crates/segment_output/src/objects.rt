//! Segments as objects of JSON.
ghost use Rattle.std.specs.Prelude.{◌≡◌, ◌≤◌, ◌++◌, ◌∷◌, [], codes, decimal, length, option_map, take, true, IfSome, IsTrue, OnOk};
ghost use Rattle.std.specs.Str.Lossy.{utf8_lossy};
ghost use Rattle.json.specs.Print.{print, print_from};
ghost use Rattle.json.specs.Token.{end_object, key, number, string};
ghost use Rattle.segment_text.specs.Bare.{AreBare};
ghost use Rattle.segment_output.specs.Objects.{Adds, opening};
ghost use Rattle.segment_output.specs.Output.{file_tokens, mark_tokens, object_of, type_word};
ghost use Rattle.segment_output.specs.declared.marks.Mark.TheVariants.{Word};

use crate::marks::Mark;
use icu_segmenter::options::WordType;
use json::Writer;
use segment_text::bare::is_bare_text;
use segment_text::numbers::push_digits;
use std::alloc::{AllocError, Global};
use std::{mem, str};

/// What is said of a segment beside its text and its places.
#[derive(Clone, Copy)]
pub struct Said<'n> {
    /// What ends there.
    pub mark: Mark,
    /// The name of its file, if it is said.
    pub file: Option<&'n str>,
}

/// Adds the object of a segment and a line feed: its text, with U+FFFD for what is ill-formed, where it begins and ends, and what is said of it.
/// Fails only when out of memory.
pub fn push_object(
    text: &[u8],
    start: usize,
    end: usize,
    said: Said<'_>,
    lines: &mut Vec<u8>,
) -> Result<(), AllocError>
    ensures { OnOk result (lines.new.items ≡ lines.old.items ++ (print (object_of (option_map (λ name. name.now) said.entry.file) text.now (record { from = start; to = end; mark = said.entry.mark })) ++ 10 ∷ [])) }
{
    if is_bare_text(text) && is_bare_name(said.file) {
        push_bare(text, start, end, said, lines)
    } else {
        push_written(text, start, end, said, lines)
    }
}

// Whether nothing is escaped in a name, if there is one.
fn is_bare_name(name: Option<&str>) -> bool
    ensures { IsTrue result → IfSome name.entry (λ name. AreBare name.now) }
{
    match name {
        Some(name) => is_bare_text(name.as_bytes()),
        None => true,
    }
}

// Adds the object of a text and a name in which nothing is escaped, and a line feed.
fn push_bare(
    text: &[u8],
    start: usize,
    end: usize,
    said: Said<'_>,
    lines: &mut Vec<u8>,
) -> Result<(), AllocError>
    requires text { AreBare text.now }
    requires name { IfSome said.file (λ name. AreBare name.now) }
    ensures { OnOk result (lines.new.items ≡ lines.old.items ++ (print (object_of (option_map (λ name. name.now) said.entry.file) text.now (record { from = start; to = end; mark = said.entry.mark })) ++ 10 ∷ [])) }
{
    push_opening(said.file, lines)?;
    lines.extend_from_slice(text)?;
    lines.extend_from_slice(b"\",\"begin\":")?;
    push_digits(start, lines)?;
    lines.extend_from_slice(b",\"end\":")?;
    push_digits(end, lines)?;
    let (ending, len) = ending(said.mark);
    lines.extend_from_slice(&ending[..len])
}

// Adds how an object begins, up to its text.
fn push_opening(file: Option<&str>, lines: &mut Vec<u8>) -> Result<(), AllocError>
    ensures { OnOk result (lines.new.items ≡ lines.old.items ++ opening (option_map (λ name. name.now) file.entry)) }
{
    match file {
        Some(name) => {
            lines.extend_from_slice(b"{\"file\":\"")?;
            lines.extend_from_slice(name.as_bytes())?;
            lines.extend_from_slice(b"\",\"text\":\"")
        }
        None => lines.extend_from_slice(b"{\"text\":\""),
    }
}

/// How an object ends behind its places, and a line feed: so many bytes of a piece. All pieces are of one length, so that they are copied alike.
#[inline(always)]
pub fn ending(mark: Mark) -> (&'static [u8], usize)
    ensures short { result.1 ≤ length result.0.now }
    ensures most { length result.0.now ≡ 32 }
    ensures value { take result.1 result.0.now ≡ print_from true (mark_tokens mark ++ end_object ∷ []) ++ 10 ∷ [] }
{
    match mark {
        Mark::Unmarked => (b"}\n                              ", 2),
        Mark::Word(kind) => word_ending(kind),
        Mark::Line(true) => (b",\"mandatory\":true}\n             ", 19),
        Mark::Line(false) => (b",\"mandatory\":false}\n            ", 20),
        Mark::Rule(true) => (b",\"status\":1}\n                   ", 13),
        Mark::Rule(false) => (b",\"status\":0}\n                   ", 13),
    }
}

// How the object of a word ends.
#[inline(always)]
fn word_ending(kind: WordType) -> (&'static [u8], usize)
    ensures short { result.1 ≤ length result.0.now }
    ensures most { length result.0.now ≡ 32 }
    ensures value { take result.1 result.0.now ≡ print_from true (mark_tokens (Word kind) ++ end_object ∷ []) ++ 10 ∷ [] }
{
    match kind {
        WordType::None => (b",\"type\":\"none\"}\n                ", 16),
        WordType::Number => (b",\"type\":\"number\"}\n              ", 18),
        WordType::Letter => (b",\"type\":\"letter\"}\n              ", 18),
    }
}

// Adds an object, in whose strings each byte is escaped that must be, and a line feed.
fn push_written(
    text: &[u8],
    start: usize,
    end: usize,
    said: Said<'_>,
    lines: &mut Vec<u8>,
) -> Result<(), AllocError>
    ensures { OnOk result (lines.new.items ≡ lines.old.items ++ (print (object_of (option_map (λ name. name.now) said.entry.file) text.now (record { from = start; to = end; mark = said.entry.mark })) ++ 10 ∷ [])) }
{
    let alloc = *lines.allocator();
    let mut object = Writer::new(mem::replace(lines, Vec::new(alloc)));
    object.begin_object()?;
    push_file(said.file, &mut object)?;
    push_text(alloc, text, &mut object)?;
    push_place("begin", start, &mut object)?;
    push_place("end", end, &mut object)?;
    push_mark(said.mark, &mut object)?;
    object.end_object()?;
    *lines = object.into_inner();
    lines.extend_from_slice(b"\n")
}

fn push_file(file: Option<&str>, object: &mut Writer) -> Result<(), AllocError>
    ensures { OnOk result (Adds object.old object.new (file_tokens (option_map (λ name. name.now) file.entry))) }
{
    match file {
        Some(name) => {
            object.key("file")?;
            object.string(name)
        }
        None => Ok(()),
    }
}

fn push_text(alloc: Global, text: &[u8], object: &mut Writer) -> Result<(), AllocError>
    ensures { OnOk result (Adds object.old object.new (key (codes "text") ∷ string (utf8_lossy text.now) ∷ [])) }
{
    object.key("text")?;
    match str::from_utf8(text) {
        Ok(text) => object.string(text),
        Err(_) => object.string(String::from_utf8_lossy(alloc, text)?.as_str()),
    }
}

fn push_place(name: &str, place: usize, object: &mut Writer) -> Result<(), AllocError>
    ensures { OnOk result (Adds object.old object.new (key name.now ∷ number (decimal place) ∷ [])) }
{
    object.key(name)?;
    object.u64(place as u64)
}

fn push_mark(mark: Mark, object: &mut Writer) -> Result<(), AllocError>
    ensures { OnOk result (Adds object.old object.new (mark_tokens mark)) }
{
    match mark {
        Mark::Unmarked => Ok(()),
        Mark::Word(kind) => {
            object.key("type")?;
            object.string(type_word(kind))
        }
        Mark::Line(is_mandatory) => {
            object.key("mandatory")?;
            object.boolean(is_mandatory)
        }
        Mark::Rule(is_marked) => push_place("status", usize::from(is_marked), object),
    }
}

fn type_word(kind: WordType) -> &'static str
    ensures { result.now ≡ type_word kind }
{
    match kind {
        WordType::None => "none",
        WordType::Number => "number",
        WordType::Letter => "letter",
    }
}
