//! Lines are gathered, and then written.
ghost use Rattle.std.specs.Prelude.{◌≡◌, [], OnOk};
ghost use Rattle.std.specs.Io.KnownBytes.{Appends};

use std::io;
use std::io::Write;

/// Lines are gathered until they have so many bytes, and then written, so that few writes reach the system.
pub const LINES_LEN: usize = 65536;

/// Room for such lines and one more, unless that is a long one.
pub const LINES_CAPACITY: usize = 69632;

/// Writes the lines that were gathered, and empties their vector. The errors are the writer's.
// Apart, since an `io::Result` is wide.
#[cold]
#[inline(never)]
pub fn write_lines<O: Write>(lines: &mut Vec<u8>, out: &mut O) -> io::Result<()>
    ensures { OnOk result ((lines.new.items ≡ []) × Appends (O.contents out.old) (O.contents out.new) lines.old.items) }
{
    out.write_all(lines.as_slice())?;
    lines.clear();
    Ok(())
}
