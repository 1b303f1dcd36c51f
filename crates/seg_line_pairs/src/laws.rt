//! Laws of the boundaries of lines by a pair table, in lists of code points: however runs are cut, or where their cuts rise strictly to their ends.

ghost use Rattle.std.specs.Prelude.{◌≡◌, ℕ, List, length, drop};
ghost use Rattle.seg_text.specs.Boundaries.{IsCover, RestartsIn, Cuts, HasOneAnswer};
ghost use Rattle.seg_line_pairs.specs.LineBoundaries.{CutsCover, HasComplexCodePoint, inside, line_boundaries, line_stretch, rules_by, KeepsMarks};
ghost use Rattle.seg_line_pairs.specs.LineUnits.{counted_units, extent_of};

use crate::classic::ClassicEngine;
use crate::line_pairs::LinePairs;

/// Law: what is left after some units has the other units. So the verdict on the first unit of what is left is one on the units of the whole.
pub fn units_of_the_rest(pairs: LinePairs<'_, ClassicEngine>)
    ensures { (n : ℕ) (code_points : List ℕ) → let units = counted_units (rules_by pairs.entry) code_points in
        counted_units (rules_by pairs.entry) (drop (extent_of n units) code_points) ≡ drop n units }
{
    let _ = pairs;
}

/// Law: a list of code points has exactly one list of boundaries: the first is at its start, and the others come from the first stretch
/// of what is left, again and again. Such a stretch is what the verdict on its first unit takes, or a run of complex code points but its last.
pub fn boundaries_are_one(pairs: LinePairs<'_, ClassicEngine>)
    ensures { (cuts : Cuts) → HasOneAnswer (line_stretch cuts (rules_by pairs.entry)) }
{
    let _ = pairs;
}

/// Law: the boundaries rise strictly from 0 to the number of the code points.
pub fn strict_cover(pairs: LinePairs<'_, ClassicEngine>)
    ensures { (cuts : Cuts) → CutsCover cuts → (code_points : List ℕ)
        → IsCover 0 (length code_points) (line_boundaries (inside cuts) (rules_by pairs.entry) code_points) }
{
    let _ = pairs;
}

/// Law: a list without complex code points, as the options read their classes, may be segmented anew from any of its boundaries: those
/// after it are those of the rest taken alone, shifted. Under `BreakAll` none is complex.
pub fn restart(pairs: LinePairs<'_, ClassicEngine>)
    ensures { (cuts : Cuts) (code_points : List ℕ) → (HasComplexCodePoint (rules_by pairs.entry) code_points → ⊥)
        → RestartsIn (line_boundaries cuts (rules_by pairs.entry)) code_points }
{
    let _ = pairs;
}

/// Law: no boundary but that at 0 stands before a code point of class CM or ZWJ, except after one of class BK, CR, LF, NL, SP or ZW.
pub fn mark_law(pairs: LinePairs<'_, ClassicEngine>)
    ensures { (cuts : Cuts) → CutsCover cuts → (code_points : List ℕ)
        → KeepsMarks (rules_by pairs.entry) code_points (line_boundaries (inside cuts) (rules_by pairs.entry) code_points) }
{
    let _ = pairs;
}
