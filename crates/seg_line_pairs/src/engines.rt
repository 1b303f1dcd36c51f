//! The two engines of lines by a pair table. What tells them apart is asked of a value, which is a constant wherever text is read.
ghost use Rattle.std.specs.Prelude.{◌≡◌, ◌<◌, ℕ};
ghost use Rattle.seg_pairs.specs.PairTable.{PairTable};
ghost use Rattle.seg_line_pairs.specs.declared.engines.LineEngine.{LineEngine};
ghost use Rattle.seg_line_pairs.specs.declared.engines.PlainPair.{PlainPair};

use seg_pairs::provider::RuleBreakData;

/// The two engines of lines by a pair table.
#[derive(Clone, Copy, PartialEq, Eq)]
pub enum LineEngine {
    /// By verdicts on units, over ICU4X's first pair tables.
    Classic,
    /// The engine 17: by turns, over its third.
    Seventeen,
}

/// What the classes and the table alone say between two items.
#[derive(Clone, Copy)]
pub enum PlainPair {
    /// A boundary.
    Break,
    /// No boundary.
    Go,
    /// Others decide.
    Other,
}

/// An engine as a type, so that loops over characters don't ask which it is.
pub trait PairEngine: Copy {
    /// Which it is.
    const ENGINE: LineEngine;

    /// Which engine it is, in clauses.
    ghost ENGINE: { LineEngine };

    /// What the classes and the table alone say between an item with no marks and the next.
    ghost plain: { PairTable → ℕ → ℕ → PlainPair };

    /// Looks up what the classes and the table alone say between such items.
    fn plain_pair(table: &RuleBreakData, left: u8, right: u8) -> PlainPair
        requires left { left < table.now.property_count }
        requires right { right < table.now.property_count }
        ensures { result ≡ plain table.now left right };
}
