//! The boundaries of a machine joined with the cuts strictly inside runs.

ghost use Rattle.std.specs.Prelude.{◌≡◌};
ghost use Rattle.std.specs.Iterator.{YieldsFirst};
ghost use Rattle.seg_lines.specs.LineBreaks.{ComesFirst};

use seg_text::boundary::Boundary;

/// What comes first of boundaries and cuts.
#[derive(Clone, Copy)]
pub(crate) enum First {
    /// Nothing is left.
    Nothing,
    /// A cut, where no boundary stands.
    Cut(usize),
    /// A boundary, where no cut stands.
    Boundary(Boundary),
    /// A boundary, and a cut at the same place.
    Both(Boundary),
}

/// What comes first of the next boundary and the next cut.
pub(crate) fn first_of(boundary: Option<Boundary>, cut: Option<usize>) -> First
    ensures { ComesFirst boundary cut result }
{
    match (boundary, cut) {
        (None, None) => First::Nothing,
        (None, Some(cut)) => First::Cut(cut),
        (Some(boundary), None) => First::Boundary(boundary),
        (Some(boundary), Some(cut)) => {
            if cut < boundary.offset {
                First::Cut(cut)
            } else if cut == boundary.offset {
                First::Both(boundary)
            } else {
                First::Boundary(boundary)
            }
        }
    }
}
