//! Lines without their trailing white space.
ghost use Rattle.std.specs.Prelude.{◌≡◌, ◌++◌, OnOk};
ghost use Rattle.icu_segmenter.specs.Wrapping.{is_trailing_space};
ghost use Rattle.segment_text.specs.Trimmed.{is_signature, printed_line, shown_part, without_trailing_space};

use std::alloc::AllocError;

/// Adds an indent, a line behind it without its trailing white space, but the space of one that parts a signature off (`-- `), and a line feed.
/// Where nothing is shown of the line, what is added of indents is the blank one, without its trailing white space. Fails only when out of
/// memory.
pub fn push_line(
    indent: &[u8],
    blank: &[u8],
    line: &[u8],
    gathered: &mut Vec<u8>,
) -> Result<(), AllocError>
    ensures { OnOk result (gathered.new.items ≡ gathered.old.items ++ printed_line indent.now blank.now line.now) }
{
    let shown = shown_part(line);
    let indent = if shown.is_empty() {
        without_trailing_space(blank)
    } else {
        indent
    };
    gathered.extend_from_slice(indent)?;
    gathered.extend_from_slice(shown)?;
    gathered.extend_from_slice(b"\n")
}

// What is shown of a line.
fn shown_part(line: &[u8]) -> &[u8]
    ensures { result.now ≡ shown_part line.now }
{
    if is_signature(line) {
        b"-- "
    } else {
        without_trailing_space(line)
    }
}

// Whether this line parts a signature off.
fn is_signature(line: &[u8]) -> bool
    ensures { result ≡ is_signature line.now }
{
    matches!(line, b"-- \n" | b"-- \r\n")
}

/// A line without its trailing white space.
pub fn without_trailing_space(line: &[u8]) -> &[u8]
    ensures { result.now ≡ without_trailing_space line.now }
{
    let mut shown = line;
    while let [start @ .., last] = shown {
        if !is_trailing_space(*last) {
            break;
        }
        shown = start;
    }
    shown
}

// Whether this byte is a character of trailing white space.
fn is_trailing_space(byte: u8) -> bool
    ensures { result ≡ is_trailing_space byte }
{
    byte == b' ' || byte == b'\n' || byte == b'\r'
}
