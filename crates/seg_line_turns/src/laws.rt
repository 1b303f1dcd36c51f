//! Laws of the boundaries of lines by the engine 17, in lists of code points: however runs are cut, or where their cuts rise strictly to
//! their ends. No law says that what is left of a text after a boundary has the boundaries of the whole. The start of a text and a space
//! after an opening are seen from afar, as by the sample data in a space, a hyphen and a letter.
ghost use Rattle.std.specs.Prelude.{◌≡◌, ℕ, List, length};
ghost use Rattle.seg_text.specs.Boundaries.{IsCover, Cuts};
ghost use Rattle.seg_line_pairs.specs.LineBoundaries.{CutsCover, KeepsMarks, inside, line_boundaries, rules_by};
ghost use Rattle.seg_line_pairs.specs.LineUnits.{counted_units, units_of};
ghost use Rattle.seg_line_pairs.specs.declared.engines.LineEngine.TheVariants.{Seventeen};
ghost use Rattle.seg_line_pairs.specs.LineRules.{TableRules};
ghost use Rattle.seg_line_turns.specs.PlainTexts.{ArePlain, HasNoOpening};
ghost use Rattle.seg_line_turns.specs.TurnBoundaries.{HasOneTurnList, turn_boundaries, StartsBear};

use crate::engine_17::Engine17;
use seg_line_pairs::line_pairs::LinePairs;

/// Law: a list of code points has exactly one list of boundaries: the first is at its start, and the others come from the first turn of what
/// is left, again and again.
pub fn boundaries_are_one()
    ensures { (cuts : Cuts) (rules : TableRules Seventeen) → HasOneTurnList cuts rules }
{}

/// Law: the boundaries rise strictly from 0 to the number of the code points.
pub fn strict_cover()
    ensures { (cuts : Cuts) (rules : TableRules Seventeen) → CutsCover cuts → (code_points : List ℕ)
        → IsCover 0 (length code_points) (turn_boundaries (inside cuts) rules code_points) }
{}

/// Law: no boundary but that at 0 stands before a code point of class CM, CM_EASTASIAN or ZWJ, except after one of class BK, CR, LF, NL, SP
/// or ZW. The table must read no class at the start of a text as one of these six.
pub fn mark_law(pairs: LinePairs<'_, Engine17>)
    ensures { (cuts : Cuts) → CutsCover cuts → StartsBear (rules_by pairs.entry).table → (code_points : List ℕ)
        → KeepsMarks (rules_by pairs.entry) code_points (turn_boundaries (inside cuts) (rules_by pairs.entry) code_points) }
{
    pairs.table().facts();
}

/// Law: on plain texts the boundaries are those of the verdicts on units by which lines by a pair table are found, with the classes,
/// readings, KeepAll set and lists of the engine 17. There CM_EASTASIAN is glued as CM is, and the loose list looks at the last code point
/// of the left unit. A text is plain where no code point has class IS, HY, HH, QU, QU_PI, QU_PF, SA or SA_MC_MN and no opening unit stands
/// directly before a space.
pub fn plain_texts()
    ensures { (cuts : Cuts) (rules : TableRules Seventeen) (code_points : List ℕ) → ArePlain rules code_points → HasNoOpening (units_of (counted_units rules code_points))
        → turn_boundaries cuts rules code_points ≡ line_boundaries cuts rules code_points }
{}
