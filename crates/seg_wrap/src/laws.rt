//! Laws of wrapped lines.

ghost use Rattle.std.specs.Prelude.{◌≡◌, ℕ, List, map};
ghost use Rattle.seg_balance.specs.Balanced.{line_columns};
ghost use Rattle.seg_wrap.specs.declared.wrap.wrapping.Room.{Room};
ghost use Rattle.seg_wrap.specs.Paragraphs.{Part, joined, measured};
ghost use Rattle.seg_wrap.specs.Wrapping.{Segment, HasOneWrapping, columns_of};

/// Law: the wrapped lines are the one list of lines that keeps four rules. Each line is one or more whole segments, and together they are
/// all. A line ends at each segment that is mandatory. A line of more than one segment has at most its columns: those of first lines at the
/// start and after a line that must end, and else those of other lines. A line that ends anywhere else than there and at the end of the text would
/// have more with the next segment.
pub fn wrapped_lines_are_one()
    ensures { (room : Room) (segments : List Segment) → HasOneWrapping room segments }
{}

/// Law: the lines of paragraphs are chosen by the columns that wrapped lines have: a line of measured parts has those of all its cells,
/// without trailing white space.
pub fn lines_are_measured()
    ensures { (parts : List Part) → line_columns (map measured parts) ≡ columns_of (joined parts).cells }
{}
