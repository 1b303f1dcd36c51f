//! What comes after a unit of lines: a boundary, none, or a run of complex code points.

ghost use Rattle.std.specs.Prelude.{◌≡◌, ◌<◌, List, ◌∷◌};
ghost use Rattle.seg_pairs.specs.PairTable.{entry_of};
ghost use Rattle.seg_pairs.specs.Verdict.{Lands, LandsOrWalks, IsStepBelow};
ghost use Rattle.seg_line_pairs.specs.LineBoundaries.{rules_by};
ghost use Rattle.seg_line_pairs.specs.LineVerdict.{step_unless, begins_run, case_of, unit_first_verdict, unit_named_verdict, unit_verdict};
ghost use Rattle.seg_line_pairs.specs.LineUnits.{UnitElement, unit_seen, units_seen};

use crate::classic::ClassicEngine;
use crate::engines::LineEngine;
use crate::line_pairs::LinePairs;
use crate::lists::{Neighbours, keeps, listed};
use crate::units::{Unit, UnitDetail};
use seg_pairs::elements::Elements;
use seg_pairs::provider::{BreakState, RuleBreakData};
use seg_pairs::verdicts::{Step, Verdicts};
use seg_pairs::walk::{Stop, entry_between, is_class, state_named, walk};

/// What decides between two units.
#[derive(Clone, Copy, PartialEq, Eq)]
pub enum Case {
    /// A run of complex code points begins with the left one.
    Run,
    /// No boundary stands between them, whatever the table says.
    Together,
    /// A boundary stands between them, whatever the table says.
    Apart,
    /// The table says it.
    Table,
}

/// What decides between two units: the first case that applies.
pub fn case_of(pairs: LinePairs<'_, ClassicEngine>, left: Unit, right: Unit) -> Case
    ensures { result ≡ case_of (rules_by pairs.entry) (unit_seen left) (unit_seen right) }
{
    if begins_run(pairs, left, right) {
        return Case::Run;
    }
    let engine = LineEngine::Classic;
    if keeps(engine, pairs.style(), left.class, right.class) {
        return Case::Together;
    }
    let pair = Neighbours {
        left: left.class,
        left_code_point: left.detail.code_point,
        right: right.class,
        right_code_point: right.detail.code_point,
    };
    match listed(engine, pairs.style(), left.detail.is_joined, pair) {
        Some(true) => Case::Apart,
        Some(false) => Case::Together,
        None => Case::Table,
    }
}

/// Whether a run of complex code points begins with the left unit.
fn begins_run(pairs: LinePairs<'_, ClassicEngine>, left: Unit, right: Unit) -> bool
    ensures { result ≡ begins_run (rules_by pairs.entry) (unit_seen left) (unit_seen right) }
{
    let complex = pairs.table().complex_property();
    left.class == complex && left.detail.is_single && right.class == complex
}

/// The rules of lines, over units.
#[derive(Clone, Copy)]
pub struct LineVerdicts<'data> {
    /// The pair table, and what options say.
    pub pairs: LinePairs<'data, ClassicEngine>,
}

impl<'data> Verdicts for LineVerdicts<'data> {
    type Detail = UnitDetail;

    ghost verdict = { λ s elements. unit_verdict (rules_by s.pairs) (units_seen elements) };

    ghost walk_verdict = { λ s state left elements. unit_named_verdict (rules_by s.pairs).table state (unit_seen left) (units_seen elements) };

    ghost table = { λ s. (rules_by s.pairs).table };

    #[inline(always)]
    fn step<E: Elements<Detail = UnitDetail>>(&self, left: Unit, rest: &mut E) -> Step<UnitDetail>
        requires left { left.class < (rules_by self.now.pairs).table.property_count }
        requires table { E.table rest.old ≡ (rules_by self.now.pairs).table }
        ensures lands { LandsOrWalks (λ state. unit_named_verdict (rules_by self.now.pairs).table state (unit_seen left) (units_seen (left ∷ E.left rest.old)))
            (unit_verdict (rules_by self.now.pairs) (units_seen (left ∷ E.left rest.old))) (left ∷ E.left rest.old) result (E.left rest.new) }
        ensures class { IsStepBelow (rules_by self.now.pairs).table.property_count result }
        ensures end { E.end rest.new ≡ E.end rest.old }
        ensures table { E.table rest.new ≡ E.table rest.old }
    {
        let Some(right) = rest.next_element() else {
            return Step::End(0);
        };
        match case_of(self.pairs, left, right) {
            Case::Run => Step::Run(right),
            Case::Together => Step::Go(right),
            Case::Apart => Step::Break(right, 0),
            Case::Table => table_step(self.pairs.table(), left, right),
        }
    }

    #[inline(always)]
    fn walk_step<E: Elements<Detail = UnitDetail>>(
        &self,
        state: u8,
        left: Unit,
        right: Unit,
        rest: &mut E,
    ) -> Step<UnitDetail>
        requires state { state < (rules_by self.now.pairs).table.property_count }
        requires right { right.class < (rules_by self.now.pairs).table.property_count }
        requires table { E.table rest.old ≡ (rules_by self.now.pairs).table }
        ensures lands { Lands (unit_named_verdict (rules_by self.now.pairs).table state (unit_seen left) (units_seen (left ∷ right ∷ E.left rest.old))) (left ∷ right ∷ E.left rest.old) result (E.left rest.new) }
        ensures class { IsStepBelow (rules_by self.now.pairs).table.property_count result }
        ensures end { E.end rest.new ≡ E.end rest.old }
        ensures table { E.table rest.new ≡ E.table rest.old }
    {
        walk_step(self.pairs.table(), state, left, right, rest)
    }

    fn facts(&self) {}
}

/// The step of a pair table from `left`, which `right` follows.
#[inline(always)]
fn table_step(table: &RuleBreakData, left: Unit, right: Unit) -> Step<UnitDetail>
    requires left { left.class < table.now.property_count }
    requires right { right.class < table.now.property_count }
    ensures lands { (after : List UnitElement) → LandsOrWalks (λ state. unit_named_verdict table.now state (unit_seen left) (units_seen (left ∷ right ∷ after)))
        (unit_first_verdict table.now (unit_seen left) (units_seen (left ∷ right ∷ after)) (entry_of table.now left.class right.class))
        (left ∷ right ∷ after) result after }
    ensures class { IsStepBelow table.now.property_count result }
{
    let entry = entry_between(table, left, right);
    if let BreakState::Keep = entry {
        return Step::Go(right);
    }
    match state_named(entry) {
        Some(state) => Step::Walk(right, state),
        None => unless(left.detail.is_joined, right),
    }
}

/// The step where the entry of the two names a state.
fn walk_step<E: Elements<Detail = UnitDetail>>(
    table: &RuleBreakData,
    start: u8,
    left: Unit,
    right: Unit,
    rest: &mut E,
) -> Step<UnitDetail>
    requires start { start < table.now.property_count }
    requires right { right.class < table.now.property_count }
    requires table { E.table rest.old ≡ table.now }
    ensures lands { Lands (unit_named_verdict table.now start (unit_seen left) (units_seen (left ∷ right ∷ E.left rest.old))) (left ∷ right ∷ E.left rest.old) result (E.left rest.new) }
    ensures class { IsStepBelow table.now.property_count result }
    ensures end { E.end rest.new ≡ E.end rest.old }
    ensures table { E.table rest.new ≡ E.table rest.old }
{
    let stop = walk(table, start, left, right, rest);
    let Stop {
        state: _,
        entry,
        before,
        next,
        saved_before,
        saved,
        saved_rest,
        saved_class: _,
    } = stop;
    match next {
        Some(next) => match entry {
            BreakState::Keep => Step::Go(next),
            BreakState::Break => unless(before.detail.is_joined, next),
            _ => {
                let from_class = is_class(table, start);
                let taken_away = saved_before.detail.is_joined
                    | (before.detail.is_joined & from_class);
                go_back(rest, saved_rest, saved, taken_away)
            }
        },
        None => match entry {
            BreakState::NoMatch => go_back(rest, saved_rest, saved, saved_before.detail.is_joined),
            _ => Step::End(0),
        },
    }
}

/// A boundary before an element, unless it is taken away.
fn unless(taken_away: bool, next: Unit) -> Step<UnitDetail>
    ensures { result ≡ step_unless taken_away next }
{
    if taken_away {
        Step::Go(next)
    } else {
        Step::Break(next, 0)
    }
}

/// A boundary at the place that was saved, unless it is taken away: the units are read again from there on.
fn go_back<E: Elements<Detail = UnitDetail>>(
    rest: &mut E,
    saved_rest: E,
    saved: Unit,
    taken_away: bool,
) -> Step<UnitDetail>
    ensures rest { rest.new ≡ saved_rest }
    ensures step { result ≡ step_unless taken_away saved }
{
    *rest = saved_rest;
    unless(taken_away, saved)
}
