//! Where lines may end.

ghost use Rattle.std.specs.Prelude.{◌≡◌};
ghost use Rattle.seg_lines.specs.Lines.{lines_left};
ghost use Rattle.seg_wrap.specs.Walk.{ReadsBreak};

use seg_lines::line::LineBreakIterator;
use seg_text::cursor::Cursor;

/// A place where a line may end.
#[derive(Clone, Copy)]
pub(crate) struct Break {
    /// The place, in units.
    pub(crate) end: usize,
    /// Whether the line must end there.
    pub(crate) is_mandatory: bool,
}

/// The next break. None at the end, and from then on.
pub(crate) fn next_break<I: Cursor>(breaks: &mut LineBreakIterator<'_, I>) -> Option<Break>
    ensures { ReadsBreak (lines_left breaks.old) result (lines_left breaks.new) }
{
    let end = breaks.next()?;
    let is_mandatory = breaks.is_mandatory();
    Some(Break { end, is_mandatory })
}

/// What is left of the breaks, once more. Takes no memory and never fails.
pub(crate) fn fork<'data, I: Cursor>(
    breaks: &LineBreakIterator<'data, I>,
) -> LineBreakIterator<'data, I>
    ensures { lines_left result ≡ lines_left breaks.now }
{
    let Ok(copy) = breaks.clone() else {
        unreachable!()
    };
    copy
}
