//! The left unit of a turn, and what a turn finds.
ghost use Rattle.std.specs.Prelude.{◌≡◌};
ghost use Rattle.seg_line_turns.specs.TurnPlaces.{outcome_unless};

/// An item with the marks that are glued to it.
#[derive(Clone, Copy)]
pub struct Left {
    /// The class of the first item, or what the table reads it as at the start of a text.
    pub class: u8,
    /// The class of the last item.
    pub last_class: u8,
    /// The code point of the last item.
    pub last_code_point: u32,
    /// The place of the last item.
    pub last_place: usize,
}

/// What a turn finds.
#[derive(Clone, Copy, PartialEq, Eq)]
pub enum TurnOutcome {
    /// A boundary at a place, and the place of the item that the next turn begins with, or the end of the text.
    Break(usize, usize),
    /// No boundary: the place of the item that the next turn begins with, and whether a space after an opening was met since the last
    /// boundary.
    Go(usize, bool),
    /// A run of complex items begins at this place; and whether a space after an opening was met since the last boundary.
    Run(usize, bool),
}

/// A boundary, unless ZWJ takes it away.
pub(crate) fn unless(joined: bool, opened: bool, place: usize) -> TurnOutcome
    ensures { result ≡ outcome_unless joined opened place }
{
    if joined {
        TurnOutcome::Go(place, opened)
    } else {
        TurnOutcome::Break(place, place)
    }
}
