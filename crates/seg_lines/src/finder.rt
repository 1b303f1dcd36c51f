//! What the breaks of lines are found by.

ghost use Rattle.std.specs.Prelude.{◌≡◌};
ghost use Rattle.seg_line_pairs.specs.LineBoundaries.{owned_rules_by, rules_by};
ghost use Rattle.seg_lines.specs.LineBreaks.LineFinder.{ByTable, ByTurns};
ghost use Rattle.seg_lines.specs.LineBreaks.{unless_anywhere};
ghost use Rattle.seg_lines.specs.Lines.{finder_of, owned_finder};

use seg_line_pairs::classic::ClassicEngine;
use seg_line_pairs::line_pairs::{LinePairs, OwnedLinePairs};
use seg_line_pairs::options::LineBreakStrictness;
use seg_line_turns::engine_17::Engine17;
use seg_machine::tailored_machine::{TailoredMachine, TailoredMachineBorrowed};

/// What the breaks of lines are found by.
pub(crate) enum OwnedFinder {
    /// The clusters: a line may be broken at each of their boundaries.
    Clusters,
    /// The places of clusters alone, none of them mandatory.
    Places,
    /// A pair table of lines, with what options say.
    Table(OwnedLinePairs<ClassicEngine>),
    /// A pair table of lines of the engine 17, with what options say.
    Turns(OwnedLinePairs<Engine17>),
    /// A machine of lines, with its tailoring.
    Machine(TailoredMachine),
}

// Written out, so that it is proved here and not in each function that drops one.
impl Drop for OwnedFinder {
    fn drop(self) {
        match self {
            OwnedFinder::Clusters => {}
            OwnedFinder::Places => {}
            OwnedFinder::Table(_) => {}
            OwnedFinder::Turns(_) => {}
            OwnedFinder::Machine(_) => {}
        }
    }
}

impl OwnedFinder {
    /// What finds breaks by a pair table under this strictness.
    pub(crate) fn of_table(
        strictness: LineBreakStrictness,
        pairs: OwnedLinePairs<ClassicEngine>,
    ) -> Self
        ensures { owned_finder result ≡ unless_anywhere strictness (ByTable (owned_rules_by pairs)) }
    {
        match strictness {
            LineBreakStrictness::Anywhere => OwnedFinder::Places,
            _ => OwnedFinder::Table(pairs),
        }
    }

    /// What finds breaks by a pair table of the engine 17 under this strictness.
    pub(crate) fn of_turns(strictness: LineBreakStrictness, pairs: OwnedLinePairs<Engine17>) -> Self
        ensures { owned_finder result ≡ unless_anywhere strictness (ByTurns (owned_rules_by pairs)) }
    {
        match strictness {
            LineBreakStrictness::Anywhere => OwnedFinder::Places,
            _ => OwnedFinder::Turns(pairs),
        }
    }

    /// This finder, borrowed.
    pub(crate) fn as_borrowed(&self) -> Finder<'_>
        ensures { finder_of result ≡ owned_finder self.now }
    {
        match self {
            OwnedFinder::Clusters => Finder::Clusters,
            OwnedFinder::Places => Finder::Places,
            OwnedFinder::Table(pairs) => Finder::Table(pairs.as_borrowed()),
            OwnedFinder::Turns(pairs) => Finder::Turns(pairs.as_borrowed()),
            OwnedFinder::Machine(machine) => Finder::Machine(machine.as_borrowed()),
        }
    }
}

/// What the breaks of lines are found by, borrowed.
#[derive(Clone, Copy)]
pub(crate) enum Finder<'data> {
    /// The clusters: a line may be broken at each of their boundaries.
    Clusters,
    /// The places of clusters alone, none of them mandatory.
    Places,
    /// A pair table of lines, with what options say.
    Table(LinePairs<'data, ClassicEngine>),
    /// A pair table of lines of the engine 17, with what options say.
    Turns(LinePairs<'data, Engine17>),
    /// A machine of lines, with its tailoring.
    Machine(TailoredMachineBorrowed<'data>),
}

impl<'data> Finder<'data> {
    /// What finds breaks by a pair table under this strictness.
    pub(crate) fn of_table(
        strictness: LineBreakStrictness,
        pairs: LinePairs<'data, ClassicEngine>,
    ) -> Self
        ensures { finder_of result ≡ unless_anywhere strictness (ByTable (rules_by pairs.entry)) }
    {
        match strictness {
            LineBreakStrictness::Anywhere => Finder::Places,
            _ => Finder::Table(pairs),
        }
    }

    /// What finds breaks by a pair table of the engine 17 under this strictness.
    pub(crate) fn of_turns(
        strictness: LineBreakStrictness,
        pairs: LinePairs<'data, Engine17>,
    ) -> Self
        ensures { finder_of result ≡ unless_anywhere strictness (ByTurns (rules_by pairs.entry)) }
    {
        match strictness {
            LineBreakStrictness::Anywhere => Finder::Places,
            _ => Finder::Turns(pairs),
        }
    }
}
