//! Laws of the boundaries of lines. A break is mandatory where its status is 1, so what is said of statuses is said of marks.

ghost use Rattle.std.specs.Prelude.{◌≡◌, ℕ, List};
ghost use Rattle.seg_text.specs.Boundaries.{AreSameCounted, RestartsIn};
ghost use Rattle.seg_text.specs.Decoding.{utf8, utf16};
ghost use Rattle.seg_text.specs.Items.{code_points};
ghost use Rattle.seg_data.specs.ScriptWords.{ScriptWords, AreSameWords};
ghost use Rattle.seg_clusters.specs.Certain.{AlwaysBreaks, BeginsBetween, SplitsBetween};
ghost use Rattle.seg_clusters.specs.Rules.{PartsTexts};
ghost use Rattle.seg_clusters.specs.Payloads.{run_cuts_by};
ghost use Rattle.seg_line_pairs.specs.LineBoundaries.{inside, line_boundaries, KeepsMarks};
ghost use Rattle.seg_line_pairs.specs.declared.engines.LineEngine.TheVariants.{Classic, Seventeen};
ghost use Rattle.seg_line_pairs.specs.LineRules.{TableRules};
ghost use Rattle.seg_line_pairs.specs.LineUnits.{counted_units, units_of};
ghost use Rattle.seg_line_turns.specs.PlainTexts.{ArePlain, HasNoOpening};
ghost use Rattle.seg_line_turns.specs.TurnBoundaries.{StartsBear};
ghost use Rattle.seg_lines.specs.LineBreaks.LineFinder.{ByTable, ByTurns};
ghost use Rattle.seg_lines.specs.LineBreaks.{HasOneList, LineRules, MayRestart, line_boundaries_by, line_boundaries_of, lines_with_words, LinesAreCertain, LinesResetAfter, HasNoMandatoryBreak, IsByPairTable};
ghost use Rattle.seg_lines.specs.Lines.{line_rules, lines_left};

use crate::finder::Finder;
use crate::line::{LineBreakIterator, LineSegmenterBorrowed};
use seg_clusters::laws::grapheme;
use seg_line_pairs::laws;
use seg_line_turns::laws as turn_laws;
use seg_text::indices::{Utf8CharIndices, Utf16Indices};

/// Law: a list of code points has exactly one list of boundaries, in code points. Where clusters are found, the first is at its start, and
/// each other one comes from the first stretch of what is left. So it is by a pair table of lines, and by the engine 17 from the first turn
/// of what is left. By a machine of lines it is the list that rises strictly and holds the machine's boundaries, the cuts strictly inside
/// runs where the machine has none, with status 0, and nothing else.
pub fn boundaries_are_one(segmenter: LineSegmenterBorrowed<'_>)
    ensures { HasOneList (line_rules segmenter.entry) }
{
    segmenter.payloads.facts();
    if let Finder::Machine(machine) = segmenter.finder {
        machine.facts();
    }
}

/// Law: a text in possibly ill-formed UTF-8 and one in possibly ill-formed UTF-16 that have equal code points have the same
/// boundaries, counted in code points, with the same statuses. The lines of both are returned, none of them read.
pub fn equal_code_points<'data, 's>(
    segmenter: LineSegmenterBorrowed<'data>,
    one: &'s [u8],
    other: &'s [u16],
) -> (
    LineBreakIterator<'data, Utf8CharIndices<'s>>,
    LineBreakIterator<'data, Utf16Indices<'s>>,
)
    ensures one { lines_left result.0 ≡ line_boundaries_of (line_rules segmenter.entry) (utf8 one.now) }
    ensures other { lines_left result.1 ≡ line_boundaries_of (line_rules segmenter.entry) (utf16 other.now) }
    ensures equal { code_points (utf8 one.now).items ≡ code_points (utf16 other.now).items
        → AreSameCounted (utf8 one.now) (lines_left result.0) (utf16 other.now) (lines_left result.1) }
{
    (segmenter.segment_utf8(one), segmenter.segment_utf16(other))
}

/// Law: the words of each script are a set: in what order they come, and how often, changes no boundary.
pub fn equal_words()
    ensures { (rules : LineRules) (others : ScriptWords) → AreSameWords rules.payloads.words others
        → line_boundaries_by (lines_with_words rules others) ≡ line_boundaries_by rules }
{}

/// Law: a text may be segmented anew from any of its boundaries, where clusters are found, where no code point of it is complex by the pair
/// table (under `BreakAll` none is), or by a machine with no dictionary in any place. The boundaries after one of them are those of the
/// rest taken alone, shifted, with the same statuses. By the engine 17 there is no such law: with the sample data a space, a hyphen and a
/// letter have the boundaries 0, 1 and 3, and the rest from 1 on, taken alone, 0, 1 and 2.
pub fn restart(segmenter: LineSegmenterBorrowed<'_>)
    ensures { (code_points : List ℕ) → MayRestart (line_rules segmenter.entry).finder (line_rules segmenter.entry).payloads.words code_points
        → RestartsIn (line_boundaries_by (line_rules segmenter.entry)) code_points }
{
    let _ = segmenter;
}

/// Law: a text may be split after each code point that `resets_after` names. Where the first of two texts ends with it, the boundaries of
/// both, joined, are those of the first, and then those of the second but for its start, so much later, with the same statuses, whatever
/// runs stand in either. So it is counted in code points, and as places in possibly ill-formed UTF-8, a `str` too, in Latin-1 and in
/// possibly ill-formed UTF-16.
pub fn parts_behind_resets(segmenter: LineSegmenterBorrowed<'_>, code_point: char)
    ensures { LinesResetAfter (line_rules segmenter.entry) code_point → PartsTexts (line_boundaries_by (line_rules segmenter.entry)) code_point }
{
    grapheme::cover(segmenter.payloads.clusters);
    grapheme::parts_behind_resets(segmenter.payloads.clusters, code_point);
    segmenter.payloads.facts();
    if let Finder::Machine(machine) = segmenter.finder {
        machine.facts();
    }
}

/// Law: each list that has three code points one after another, of which `always_breaks` says so, has a boundary between the last two,
/// whatever stands before and behind them. The list may be split there: it has the boundaries and statuses of what reaches up to the last of the
/// three, without its end, and then those of what begins with it. So above the place it has those of what begins there.
pub fn certain_places(segmenter: LineSegmenterBorrowed<'_>, before: u32, one: u32, other: u32)
    ensures breaks { LinesAreCertain (line_rules segmenter.entry) before one other
        → AlwaysBreaks (line_boundaries_by (line_rules segmenter.entry)) before one other }
    ensures parts { LinesAreCertain (line_rules segmenter.entry) before one other
        → SplitsBetween (line_boundaries_by (line_rules segmenter.entry)) before one other }
    ensures begins { LinesAreCertain (line_rules segmenter.entry) before one other
        → BeginsBetween (line_boundaries_by (line_rules segmenter.entry)) before one other }
{
    grapheme::cover(segmenter.payloads.clusters);
    grapheme::certain_places(segmenter.payloads.clusters, before, one, other);
    segmenter.payloads.facts();
    if let Finder::Machine(machine) = segmenter.finder {
        machine.facts();
    }
}

/// Law: by a pair table, by the engine 17 too, no break is mandatory: the status of each boundary of every list of code points is 0.
pub fn no_mandatory_break(segmenter: LineSegmenterBorrowed<'_>)
    ensures { IsByPairTable (line_rules segmenter.entry).finder → (code_points : List ℕ)
        → HasNoMandatoryBreak (line_boundaries_by (line_rules segmenter.entry) code_points) }
{
    let _ = segmenter;
}

/// Law: by a pair table, under every strictness but `Anywhere`, no boundary but that at 0 stands before a code point of class CM
/// or ZWJ, except after one of class BK, CR, LF, NL, SP or ZW.
pub fn mark_law(segmenter: LineSegmenterBorrowed<'_>)
    ensures { (rules : TableRules Classic) → (line_rules segmenter.entry).finder ≡ ByTable rules → (code_points : List ℕ)
        → KeepsMarks rules code_points (line_boundaries_by (line_rules segmenter.entry) code_points) }
{
    segmenter.payloads.facts();
    if let Finder::Table(pairs) = segmenter.finder {
        laws::mark_law(pairs);
    }
}

/// Law: by the engine 17, under every strictness but `Anywhere`, no boundary but that at 0 stands before a code point of class CM,
/// CM_EASTASIAN or ZWJ, except after one of class BK, CR, LF, NL, SP or ZW. The table must read no class at the start of a text as one of
/// these six.
pub fn mark_law_17(segmenter: LineSegmenterBorrowed<'_>)
    ensures { (rules : TableRules Seventeen) → (line_rules segmenter.entry).finder ≡ ByTurns rules → StartsBear rules.table → (code_points : List ℕ)
        → KeepsMarks rules code_points (line_boundaries_by (line_rules segmenter.entry) code_points) }
{
    segmenter.payloads.facts();
    if let Finder::Turns(pairs) = segmenter.finder {
        turn_laws::mark_law(pairs);
    }
}

/// Law: by the engine 17, under every strictness but `Anywhere`, the boundaries of a plain text are those of the verdicts on units by which lines by
/// a pair table are found, with the classes, readings, KeepAll set and lists of the engine 17. A text is plain where no code point has class IS, HY,
/// HH, QU, QU_PI, QU_PF, SA or SA_MC_MN and no opening unit stands directly before a space.
pub fn plain_texts(segmenter: LineSegmenterBorrowed<'_>)
    ensures { (rules : TableRules Seventeen) → (line_rules segmenter.entry).finder ≡ ByTurns rules → (code_points : List ℕ)
        → ArePlain rules code_points → HasNoOpening (units_of (counted_units rules code_points))
        → line_boundaries_by (line_rules segmenter.entry) code_points ≡ line_boundaries (inside (run_cuts_by (line_rules segmenter.entry).payloads)) rules code_points }
{
    let _ = segmenter;
    turn_laws::plain_texts();
}
