//! Laws of the boundaries of texts, whatever rules they are found by.

ghost use Rattle.std.specs.Prelude.{ℕ, List, length};
ghost use Rattle.seg_text.specs.Boundaries.{HasRestart, IsCover, HasOneAnswer};
ghost use Rattle.seg_clusters.specs.Certain.{AlwaysBreaks, AreCertain, BeginsBetween, SplitsBetween};
ghost use Rattle.seg_clusters.specs.Rules.{rules_of, PartsTexts, ResetsAfter, boundaries_by, first_stretch};

use crate::engine::Engine;

/// Law: a list of code points has exactly one list of boundaries, in code points: the first is at its start, and each
/// other one comes from the first stretch of what is left. Such a stretch is the machine's pick, or what the verdict of the
/// table takes.
pub fn boundaries_are_one(engine: Engine<'_>)
    ensures { HasOneAnswer (first_stretch (rules_of engine.entry)) }
{
    let _ = engine;
}

/// Law: a text may be segmented anew from any of its boundaries: for every list of code points, the boundaries after one of
/// them are those of the rest taken alone, shifted, with the same statuses.
pub fn restart(engine: Engine<'_>)
    ensures { HasRestart (boundaries_by (rules_of engine.entry)) }
{
    let _ = engine;
}

/// Law: the boundaries of a list of code points rise strictly from 0, where the first is, to its length, where the last is.
pub fn cover(engine: Engine<'_>)
    ensures { (code_points : List ℕ) → IsCover 0 (length code_points) (boundaries_by (rules_of engine.entry) code_points) }
{
    if let Engine::Neo(machine) = engine {
        machine.facts();
    }
}

/// Law: a text may be split after each code point that `resets_after` names. Where the first of two texts ends with it, the boundaries of
/// both, joined, are those of the first, and then those of the second but for its start, so much later, with the same statuses. So it is
/// counted in code points, and as places in possibly ill-formed UTF-8, a `str` too, in Latin-1 and in possibly ill-formed UTF-16.
pub fn parts_behind_resets(engine: Engine<'_>, code_point: char)
    ensures { ResetsAfter (rules_of engine.entry) code_point → PartsTexts (boundaries_by (rules_of engine.entry)) code_point }
{
    let _ = code_point;
    if let Engine::Neo(machine) = engine {
        machine.facts();
    }
}

/// Law: each list that has three code points one after another, of which `always_breaks` says so, has a boundary between the last two,
/// whatever stands before and behind them. The list may be split there: it has the boundaries and statuses of what reaches up to the last of the
/// three, without its end, and then those of what begins with it. So above the place it has those of what begins there.
pub fn certain_places(engine: Engine<'_>, before: u32, one: u32, other: u32)
    ensures breaks { AreCertain (rules_of engine.entry) before one other → AlwaysBreaks (boundaries_by (rules_of engine.entry)) before one other }
    ensures parts { AreCertain (rules_of engine.entry) before one other → SplitsBetween (boundaries_by (rules_of engine.entry)) before one other }
    ensures begins { AreCertain (rules_of engine.entry) before one other → BeginsBetween (boundaries_by (rules_of engine.entry)) before one other }
{
    let _ = (before, one, other);
    cover(engine);
    if let Engine::Neo(machine) = engine {
        machine.facts();
    }
}
