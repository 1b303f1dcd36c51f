//! Walks through the states of the table by the rules of the engine 17.
ghost use Rattle.std.specs.Prelude.{◌≡◌, ◌<◌, ℕ, suc};
ghost use Rattle.seg_text.specs.Items.{Text, code_points};
ghost use Rattle.seg_pairs.specs.PairTable.{entry_of};
ghost use Rattle.seg_line_pairs.specs.LineBoundaries.{rules_by};
ghost use Rattle.seg_line_turns.specs.TurnPlaces.{IsWalkAt, item_place, placed, step_at, walker_seen, IsBelowState};
ghost use Rattle.seg_line_turns.specs.Turns.{space_step, sticks, walk_back_turn, walk_end_turn, walk_entry_step, walk_step, walk_stop_turn, walk_turn};

use crate::bases::{go_to_base, letter_comes};
use crate::classes::{is_glue, is_hyphen};
use crate::engine_17::Engine17;
use crate::turn_units::{TurnOutcome, unless};
use seg_line_pairs::classes::{bears_none, is_joiner};
use seg_line_pairs::engines::LineEngine;
use seg_line_pairs::line_pairs::LinePairs;
use seg_pairs::provider::{BreakState, RuleBreakData};
use seg_pairs::walk::{entry_after, entry_at_end, is_class, saves, state_named};
use seg_text::cursor::Cursor;
use std::ops::ControlFlow;

/// What a walk carries.
#[derive(Clone, Copy)]
pub struct Walker {
    /// Its state.
    pub state: u8,
    /// The place before which it saved a boundary.
    pub saved: usize,
    /// Whether ZWJ stands before that place.
    pub is_saved_joined: bool,
    /// The class of the item before.
    pub before: u8,
    /// Whether the walk began in a composite.
    pub is_composite_first: bool,
    /// Whether a space after an opening was met since the last boundary.
    pub opened: bool,
}

/// The turn that a walk finds, before these items.
pub(crate) fn walk<I: Cursor>(pairs: LinePairs<'_, Engine17>, begin: Walker, rest: I) -> TurnOutcome
    requires { begin.state < (rules_by pairs).table.property_count }
    ensures { (whole : Text) (number saved : ℕ) → IsWalkAt whole number saved begin (I.text rest)
        → result ≡ placed whole (walk_turn (rules_by pairs.entry) (walker_seen saved begin) number (code_points (I.text rest).items)) }
{
    let mut walker = begin;
    let mut rest = rest;
    loop {
        let Some((place, code_point)) = rest.next_item() else {
            return walk_end(pairs.table(), walker, rest.place());
        };
        match walk_step(pairs, walker, place, pairs.class(code_point), &rest) {
            ControlFlow::Break(outcome) => return outcome,
            ControlFlow::Continue(next) => walker = next,
        }
    }
}

/// The turn that a walk finds at the end of the text.
fn walk_end(table: &RuleBreakData, walker: Walker, end: usize) -> TurnOutcome
    requires { walker.state < table.now.property_count }
    ensures { (whole : Text) (number saved : ℕ) → walker.saved ≡ item_place saved whole → end ≡ item_place number whole
        → result ≡ placed whole (walk_end_turn (walker_seen saved walker) number (entry_of table.now walker.state table.now.eot_property)) }
{
    match entry_at_end(table, walker.state) {
        BreakState::NoMatch => unless(walker.is_saved_joined, walker.opened, walker.saved),
        _ => TurnOutcome::Break(end, end),
    }
}

/// What the item at a place does to a walk: it breaks with the turn, or goes on. `rest` has the items after it.
fn walk_step<I: Cursor>(
    pairs: LinePairs<'_, Engine17>,
    walker: Walker,
    place: usize,
    class: u8,
    rest: &I,
) -> ControlFlow<TurnOutcome, Walker>
    requires state { walker.state < (rules_by pairs).table.property_count }
    requires class { class < (rules_by pairs).table.property_count }
    ensures value { (whole : Text) (number saved : ℕ) → place ≡ item_place number whole → IsWalkAt whole (suc number) saved walker (I.text rest.now)
        → result ≡ step_at whole (walk_step (rules_by pairs.entry) (walker_seen saved walker) number class (code_points (I.text rest.now).items)) }
    ensures state { IsBelowState (rules_by pairs.entry).table.property_count result }
{
    if is_glue(class) && !bears_none(LineEngine::Seventeen, walker.before) {
        return ControlFlow::Continue(Walker {
            before: class,
            ..walker
        });
    }
    let is_space = class == RuleBreakData::LINE_V3_PROPERTY_SP;
    if walker.opened && !is_space && !is_hyphen(class) {
        return ControlFlow::Break(TurnOutcome::Go(place, false));
    }
    let opened = walker.opened && is_space;
    space_step(pairs, Walker { opened, ..walker }, place, class, rest)
}

/// What an item that isn't glued does to a walk: after a space some classes decide, and else the table.
fn space_step<I: Cursor>(
    pairs: LinePairs<'_, Engine17>,
    walker: Walker,
    place: usize,
    class: u8,
    rest: &I,
) -> ControlFlow<TurnOutcome, Walker>
    requires state { walker.state < (rules_by pairs).table.property_count }
    requires class { class < (rules_by pairs).table.property_count }
    ensures value { (whole : Text) (number saved : ℕ) → place ≡ item_place number whole → IsWalkAt whole (suc number) saved walker (I.text rest.now)
        → result ≡ step_at whole (space_step (rules_by pairs.entry) (walker_seen saved walker) number class (code_points (I.text rest.now).items)) }
    ensures state { IsBelowState (rules_by pairs.entry).table.property_count result }
{
    let after_space = walker.before == RuleBreakData::LINE_V3_PROPERTY_SP;
    let table = pairs.table();
    if after_space
        && walker.state != RuleBreakData::LINE_V3_PROPERTY_ZW
        && class == RuleBreakData::LINE_V3_PROPERTY_IS
        && !sticks(table, walker.state)
    {
        return ControlFlow::Break(TurnOutcome::Go(walker.saved, walker.opened));
    }
    if class == RuleBreakData::LINE_V3_PROPERTY_QU_PF
        && after_space
        && !is_class(table, walker.state)
    {
        let to = if sticks(table, walker.state) {
            place
        } else {
            walker.saved
        };
        return ControlFlow::Break(TurnOutcome::Go(to, walker.opened));
    }
    if after_space && is_hyphen(class) && letter_comes(pairs, rest) {
        if sticks(table, walker.state) {
            return ControlFlow::Break(go_to_base(pairs, walker.opened, rest));
        }
        return ControlFlow::Break(TurnOutcome::Break(place, rest.place()));
    }
    entry_step(pairs, walker, place, class)
}

/// What the entry of the state and the class of an item says of a walk.
fn entry_step(
    pairs: LinePairs<'_, Engine17>,
    walker: Walker,
    place: usize,
    class: u8,
) -> ControlFlow<TurnOutcome, Walker>
    requires state { walker.state < (rules_by pairs).table.property_count }
    requires class { class < (rules_by pairs).table.property_count }
    ensures value { (whole : Text) (number saved : ℕ) → place ≡ item_place number whole → walker.saved ≡ item_place saved whole
        → result ≡ step_at whole (walk_entry_step (rules_by pairs.entry) (walker_seen saved walker) number class (entry_of (rules_by pairs.entry).table walker.state class)) }
    ensures state { IsBelowState (rules_by pairs.entry).table.property_count result }
{
    let table = pairs.table();
    let entry = entry_after(table, walker.state, class);
    let joined = is_joiner(LineEngine::Seventeen, walker.before);
    let Some(next) = state_named(entry) else {
        return ControlFlow::Break(walk_stop(walker, joined, place, entry));
    };
    let saves = saves(entry, is_class(table, walker.state));
    ControlFlow::Continue(Walker {
        state: next,
        saved: if saves { place } else { walker.saved },
        is_saved_joined: if saves {
            joined
        } else {
            walker.is_saved_joined
        },
        before: class,
        ..walker
    })
}

/// The turn that a walk finds before an item, where the entry names no state.
fn walk_stop(walker: Walker, joined: bool, place: usize, entry: BreakState) -> TurnOutcome
    ensures { (whole : Text) (number saved : ℕ) → place ≡ item_place number whole → walker.saved ≡ item_place saved whole
        → result ≡ placed whole (walk_stop_turn (walker_seen saved walker) joined number entry) }
{
    match entry {
        BreakState::Keep => TurnOutcome::Go(place, walker.opened),
        BreakState::Break => unless(joined, walker.opened, place),
        _ => walk_back(walker, joined),
    }
}

/// The turn of a walk that finds no entry that fits.
fn walk_back(walker: Walker, joined: bool) -> TurnOutcome
    ensures { (whole : Text) (saved : ℕ) → walker.saved ≡ item_place saved whole → result ≡ placed whole (walk_back_turn (walker_seen saved walker) joined) }
{
    let is_kept = if joined {
        !walker.is_composite_first || walker.is_saved_joined
    } else {
        walker.is_saved_joined
    };
    unless(is_kept, walker.opened, walker.saved)
}

/// Whether a state stays with a letter.
fn sticks(table: &RuleBreakData, state: u8) -> bool
    requires has_letters { 4 < table.now.property_count }
    requires state { state < table.now.property_count }
    ensures { result ≡ sticks table.now state }
{
    match entry_after(table, state, RuleBreakData::LINE_V3_PROPERTY_AL) {
        BreakState::Keep => true,
        _ => false,
    }
}
