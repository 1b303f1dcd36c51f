//! Numbers as lines of text.
ghost use Rattle.std.specs.Prelude.{◌≡◌, ℕ, List, OnOk};
ghost use Rattle.std.specs.Iterator.{IsFinite, Drains};
ghost use Rattle.std.specs.Io.KnownBytes.{Appends};
ghost use Rattle.textcut.specs.Lines.{line_of, lines_of};

use std::io;
use std::io::Write;

// The longest number has 20 digits, and a line feed stands after them.
const LINE_LEN: usize = 21;

/// Writes each number that comes, in decimal and on a line of its own, and flushes.
pub fn print_lines<N: Iterator<Item = usize> + Drop, O: Write>(
    numbers: N,
    out: &mut O,
) -> io::Result<()>
    requires can { N.can_next numbers }
    requires ends { IsFinite (N.remaining numbers) }
    ensures { OnOk result ((given : List ℕ) × Drains N.next_gives numbers given
        × Appends (O.contents out.old) (O.contents out.new) (lines_of given)) }
{
    for number in numbers {
        write_line(out, number)?;
    }
    out.flush()
}

#[inline(always)]
fn write_line<O: Write>(out: &mut O, number: usize) -> io::Result<()>
    ensures { OnOk result (Appends (O.contents out.old) (O.contents out.new) (line_of number)) }
{
    let mut line = [b'\n'; LINE_LEN];
    let start = itoa::write_digits(number as u64, &mut line, LINE_LEN - 1);
    out.write_all(&line[start..])
}
