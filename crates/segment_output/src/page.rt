//! Lines that are gathered on a page.
ghost use Rattle.std.specs.Prelude.{◌≡◌, ◌≤◌, ◌++◌, ◌∷◌, [], false, None, length, take, IfOk, IsTrue, OnOk};
ghost use Rattle.std.specs.Io.KnownBytes.{Appends};
ghost use Rattle.json.specs.Print.{print};
ghost use Rattle.segment_text.specs.Bare.{AreBare};
ghost use Rattle.segment_output.specs.Output.{object_of};

use crate::object_pieces::{OBJECT_LEN, put_pieces};
use crate::output::Segment;
use segment_text::copied::Copied;
use segment_text::digits::Digits;
use std::alloc::{AllocError, Global};
use std::io;
use std::io::Write;
use std::marker::Model;

// How many bytes a page has.
const PAGE_LEN: usize = 65536;

/// Lines that are written together, in a vector that is always full, so that each is put where it belongs and no length changes.
#[derive(Drop)]
pub struct Page {
    bytes: Vec<u8>,
    used: usize,
    digits: Digits,
}

impl Model for Page {
    ghost use Rattle.std.specs.Prelude.{ℕ, ◌≤◌, List, length, take};

    ghost Value = { List ℕ };

    ghost view = { λ s. take s.used s.bytes.items };

    ghost invariant = { λ s. s.used ≤ length s.bytes.items };
}

impl Page {
    /// An empty page. Fails only when out of memory.
    pub fn try_new(alloc: Global) -> Result<Self, AllocError>
        ensures { IfOk result (λ page. page ≡ []) }
    {
        let mut bytes = Vec::new(alloc);
        bytes.resize(PAGE_LEN, 0)?;
        Ok(Page {
            bytes,
            used: 0,
            digits: Digits::new(),
        })
    }

    /// Adds the object of a segment, in which no file is named, and a line feed, where there is room for it.
    #[inline(always)]
    pub fn put_object(&mut self, text: Copied<'_>, segment: Segment) -> bool
        requires short { (text.len ≤ length text.bytes.now) × (length text.bytes.now ≤ 256) }
        requires bare { AreBare (take text.len text.bytes.now) }
        ensures added { IsTrue result → self.new ≡ self.old ++ (print (object_of None (take text.entry.len text.entry.bytes.now) (record { from = segment.start; to = segment.end; mark = segment.mark })) ++ 10 ∷ []) }
        ensures full { result ≡ false → self.new ≡ self.old }
    {
        let used = self.used;
        if self.bytes.len() - used < OBJECT_LEN {
            return false;
        }
        let len = put_pieces(
            text,
            segment,
            &mut self.digits,
            &mut self.bytes[used..used + OBJECT_LEN],
        );
        self.used = used + len;
        true
    }

    /// Adds a line, where there is room for it.
    pub fn put(&mut self, line: &[u8]) -> bool
        ensures added { IsTrue result → self.new ≡ self.old ++ line.now }
        ensures full { result ≡ false → self.new ≡ self.old }
    {
        let used = self.used;
        if self.bytes.len() - used < line.len() {
            return false;
        }
        self.bytes[used..used + line.len()].copy_from_slice(line);
        self.used = used + line.len();
        true
    }

    /// Writes the lines, and empties the page. The errors are the writer's.
    pub fn write<O: Write>(&mut self, out: &mut O) -> io::Result<()>
        ensures { OnOk result ((self.new ≡ []) × Appends (O.contents out.old) (O.contents out.new) self.old) }
    {
        out.write_all(&self.bytes[..self.used])?;
        self.used = 0;
        Ok(())
    }
}
