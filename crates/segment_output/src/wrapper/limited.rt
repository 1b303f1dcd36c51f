//! Lines up to a limit.
ghost use Rattle.std.specs.Prelude.{◌≡◌, OnOk};
ghost use Rattle.std.specs.Io.KnownBytes.{Appends};
ghost use Rattle.std.specs.Option.{option_map};
ghost use Rattle.icu_segmenter.specs.Decoding.{utf8};
ghost use Rattle.icu_segmenter.specs.WrappedLines.{wrapped_within};
ghost use Rattle.segment_output.specs.Limited.{IsSetOutput, bound_of, first_within, limited_output};
ghost use Rattle.segment_output.specs.Paragraphs.{AppendsSome, chosen_by};
ghost use Rattle.segment_output.specs.Wrapper.{wrapping_of};

use crate::wrapper::Wrapper;
use icu_segmenter::wrap::{Fit, Room};
use segment_text::limit::Limit;
use segment_text::trimmed::without_trailing_space;
use std::alloc::Global;
use std::io;
use std::io::Write;

/// How paragraphs are set.
#[derive(Clone, Copy)]
pub struct Setting<'a> {
    /// How their lines are chosen.
    pub fit: Fit,
    /// How many lines there may be, if that is limited.
    pub limit: Option<Limit<'a>>,
}

impl Wrapper {
    /// Writes the lines of a text, chosen paragraph by paragraph (`print_paragraphs`), as many as there may be (`print_limited`), and flushes.
    /// The errors are the writer's, and being out of memory.
    pub fn print_set<O: Write>(
        &self,
        alloc: Global,
        setting: Setting<'_>,
        text: &[u8],
        out: &mut O,
    ) -> io::Result<()>
        ensures { OnOk result (AppendsSome (O.contents out.old) (O.contents out.new) (IsSetOutput (chosen_by self.now setting.entry.fit) (option_map bound_of setting.entry.limit) text.now)) }
    {
        let Some(limit) = setting.limit else {
            return self.print_paragraphs(alloc, setting.fit, text, out);
        };
        let mut whole = Vec::new(alloc);
        self.print_paragraphs(alloc, setting.fit, text, &mut whole)?;
        self.print_limited(alloc, limit, whole.as_slice(), out)
    }

    /// Writes as many lines of `whole` as there may be, and flushes. `whole` is what this wrapper writes of a text without a limit. Where it
    /// has more lines, the last of these is shortened: it keeps as many of its first segments, between which a line may end, as have room in
    /// the columns beside the placeholder. They lose the white space at their end, and the placeholder stands behind them. Where none has room,
    /// and where the line is blank, it stands alone, without the white space at its start. Its columns are counted by character. The errors are
    /// the writer's, and being out of memory.
    pub fn print_limited<O: Write>(
        &self,
        alloc: Global,
        limit: Limit<'_>,
        whole: &[u8],
        out: &mut O,
    ) -> io::Result<()>
        ensures { OnOk result (Appends (O.contents out.old) (O.contents out.new) (limited_output (wrapping_of self.now) (bound_of limit.entry) whole.now)) }
    {
        let Some((lines, last)) = limit.split(whole) else {
            out.write_all(whole)?;
            return out.flush();
        };
        let room = Room::beside(self.columns, limit.placeholder, limit.placeholder);
        let shortened = limit.placed_behind(alloc, self.kept(last, room))?;
        out.write_all(lines)?;
        out.write_all(shortened.as_slice())?;
        out.flush()
    }

    // The segments that a line begins with, as many as have room, without white space at their end.
    fn kept<'t>(&self, line: &'t [u8], room: Room) -> &'t [u8]
        ensures { result.now ≡ first_within room.first (wrapped_within utf8 (wrapping_of self.now).measure (wrapping_of self.now).lines room line.now) }
    {
        let wrapper = self.lines.wrapper(self.counted_clusters());
        match wrapper.wrap_utf8_within(line, room).next() {
            Some(first) if first.columns() <= room.first as u128 => {
                without_trailing_space(first.bytes())
            }
            _ => &[],
        }
    }
}
