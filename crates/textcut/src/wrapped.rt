//! Wrapped lines as they are printed.
ghost use Rattle.std.specs.Prelude.{◌≡◌, OnOk};
ghost use Rattle.std.specs.Io.KnownBytes.{Appends};
ghost use Rattle.icu_segmenter.specs.Wrapping.{is_trailing_space};
ghost use Rattle.icu_segmenter.specs.WrappedLines.{lines_to_come};
ghost use Rattle.textcut.specs.Wrapped.{printed_line, printed_lines, without_trailing_space};

use icu_segmenter::wrap::WrapIterator;
use std::io;
use std::io::Write;

/// Writes each line that comes, without its trailing white space, and a line feed after it, and flushes.
pub fn print_wrapped<O: Write>(lines: WrapIterator<'_, '_>, out: &mut O) -> io::Result<()>
    ensures { OnOk result
        (Appends (O.contents out.old) (O.contents out.new) (printed_lines (lines_to_come lines.entry))) }
{
    for line in lines {
        write_line(out, line.text().as_bytes())?;
    }
    out.flush()
}

fn write_line<O: Write>(out: &mut O, line: &[u8]) -> io::Result<()>
    ensures { OnOk result (Appends (O.contents out.old) (O.contents out.new) (printed_line line.now)) }
{
    out.write_all(without_trailing_space(line))?;
    out.write_all(b"\n")
}

// A line without its trailing white space.
fn without_trailing_space(line: &[u8]) -> &[u8]
    ensures { result.now ≡ without_trailing_space line.now }
{
    let mut shown = line;
    while let [start @ .., last] = shown {
        if !is_trailing_space(*last) {
            break;
        }
        shown = start;
    }
    shown
}

// Whether this byte is a character of trailing white space.
fn is_trailing_space(byte: u8) -> bool
    ensures { result ≡ is_trailing_space byte }
{
    byte == b' ' || byte == b'\n' || byte == b'\r'
}
