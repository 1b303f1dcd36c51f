//! Turns by the rules of the engine 17.
ghost use Rattle.std.specs.Prelude.{◌≡◌, ◌<◌, ℕ, suc};
ghost use Rattle.seg_text.specs.Items.{Text, code_points, rest_after};
ghost use Rattle.seg_pairs.specs.PairTable.{entry_of};
ghost use Rattle.seg_line_pairs.specs.LineEvents.{HasClass};
ghost use Rattle.seg_line_pairs.specs.LineRules.{line_class};
ghost use Rattle.seg_line_pairs.specs.LineBoundaries.{rules_by};
ghost use Rattle.seg_line_turns.specs.TurnPlaces.{FindsBetween, FindsFrom, class_at_start, hyphen_outcome, item_place, left_seen, placed};
ghost use Rattle.seg_line_turns.specs.Turns.{class_turn, first_unit, is_taken, opens, quote_turn, right_turn, table_turn, turn};

use crate::bases::{
    begins_marked, break_to_base, digit_comes, hyphen_comes, letter_comes, quoted_comes,
};
use crate::classes::{is_before_hyphen, is_before_quote, is_glue, is_hyphen, is_opening, is_start};
use crate::engine_17::Engine17;
use crate::turn_units::{Left, TurnOutcome, unless};
use crate::turn_walk::{Walker, walk};
use seg_line_pairs::classes::{bears_none, is_complex_context, is_joiner};
use seg_line_pairs::engines::LineEngine;
use seg_line_pairs::line_pairs::LinePairs;
use seg_line_pairs::lists::{Neighbours, keeps, listed};
use seg_line_pairs::plain_pairs::ClassedItem;
use seg_pairs::provider::{BreakState, RuleBreakData};
use seg_pairs::walk::{entry_after, entry_at_start, is_class, state_named};
use seg_text::cursor::Cursor;

/// The turn from a left unit, of which `rest` has the items after it.
pub(crate) fn turn<I: Cursor>(
    pairs: LinePairs<'_, Engine17>,
    opened: bool,
    first: Left,
    rest: I,
) -> TurnOutcome
    requires { first.class < (rules_by pairs).table.property_count }
    ensures { FindsFrom first (I.text rest) result (λ unit. turn (rules_by pairs.entry) opened unit (code_points (I.text rest).items)) }
{
    let mut left = first;
    let mut rest = rest;
    loop {
        let Some((place, code_point)) = rest.next_item() else {
            let end = rest.place();
            return TurnOutcome::Break(end, end);
        };
        let right = ClassedItem {
            class: pairs.class(code_point),
            code_point,
            place,
        };
        if !is_taken(left, right.class) {
            let opened = opened || opens(left, right.class);
            return right_turn(pairs, opened, left, right, rest);
        }
        left = Left {
            class: left.class,
            last_class: right.class,
            last_code_point: code_point,
            last_place: place,
        };
    }
}

/// The left unit that a turn begins with, which is this item, the first of the text or not.
pub(crate) fn first_unit(pairs: LinePairs<'_, Engine17>, starts: bool, item: ClassedItem) -> Left
    requires { HasClass (rules_by pairs) item }
    ensures unit { left_seen 0 result ≡ first_unit (rules_by pairs.entry) starts item.code_point }
    ensures place { result.last_place ≡ item.place }
    ensures class { result.class < (rules_by pairs.entry).table.property_count }
{
    Left {
        class: if starts && is_start(item.class) {
            start_class(pairs.table(), item.class)
        } else {
            item.class
        },
        last_class: item.class,
        last_code_point: item.code_point,
        last_place: item.place,
    }
}

/// What the table reads a class as at the start of a text.
fn start_class(table: &RuleBreakData, class: u8) -> u8
    requires { class < table.now.property_count }
    ensures value { result ≡ class_at_start class (entry_of table.now table.now.sot_property class) }
    ensures below { result < table.now.property_count }
{
    match entry_at_start(table, class) {
        BreakState::Index(state) => state,
        _ => class,
    }
}

/// Whether an item of this class is glued to a left unit.
fn is_taken(left: Left, class: u8) -> bool
    ensures { (last : ℕ) → result ≡ is_taken (left_seen last left) class }
{
    is_glue(class)
        && !bears_none(LineEngine::Seventeen, left.class)
        && !(is_complex_context(left.class) && class == RuleBreakData::LINE_V3_PROPERTY_SA_MC_MN)
}

/// Whether a space comes after an opening.
fn opens(left: Left, class: u8) -> bool
    ensures { (last : ℕ) → result ≡ opens (left_seen last left) class }
{
    is_opening(left.class) && class == RuleBreakData::LINE_V3_PROPERTY_SP
}

/// The turn where the right item isn't glued.
fn right_turn<I: Cursor>(
    pairs: LinePairs<'_, Engine17>,
    opened: bool,
    left: Left,
    right: ClassedItem,
    rest: I,
) -> TurnOutcome
    requires left { left.class < (rules_by pairs).table.property_count }
    requires right { right.class < (rules_by pairs).table.property_count }
    requires class { right.class ≡ line_class (rules_by pairs) right.code_point }
    ensures { FindsBetween left right.place (I.text rest) result (λ unit. right_turn (rules_by pairs.entry) opened unit right.code_point (code_points (I.text rest).items)) }
{
    let engine = LineEngine::Seventeen;
    let style = pairs.style();
    if keeps(engine, style, left.class, right.class) {
        return TurnOutcome::Go(right.place, opened);
    }
    let pair = Neighbours {
        left: left.class,
        left_code_point: left.last_code_point,
        right: right.class,
        right_code_point: right.code_point,
    };
    match listed(engine, style, is_joiner(engine, left.last_class), pair) {
        Some(true) => TurnOutcome::Break(right.place, right.place),
        Some(false) => TurnOutcome::Go(right.place, opened),
        None => class_turn(pairs, opened, left, right, rest),
    }
}

/// The turn where no list decides: by the classes, and else by the table.
fn class_turn<I: Cursor>(
    pairs: LinePairs<'_, Engine17>,
    opened: bool,
    left: Left,
    right: ClassedItem,
    rest: I,
) -> TurnOutcome
    requires left { left.class < (rules_by pairs).table.property_count }
    requires right { right.class < (rules_by pairs).table.property_count }
    ensures { FindsBetween left right.place (I.text rest) result (λ unit. class_turn (rules_by pairs.entry) opened unit right.class (code_points (I.text rest).items)) }
{
    let place = right.place;
    if is_complex_context(left.last_class) && is_complex_context(right.class) {
        return TurnOutcome::Run(left.last_place, opened);
    }
    let after_space = left.class == RuleBreakData::LINE_V3_PROPERTY_SP;
    if after_space
        && right.class == RuleBreakData::LINE_V3_PROPERTY_IS
        && digit_comes(pairs, &rest)
    {
        return TurnOutcome::Break(place, place);
    }
    let is_quote = right.class == RuleBreakData::LINE_V3_PROPERTY_QU_PF;
    if is_quote && is_before_quote(left.class) {
        return quote_turn(pairs, place, &rest);
    }
    if is_quote && after_space && opened {
        return TurnOutcome::Go(place, opened);
    }
    if is_quote && after_space && hyphen_comes(pairs, &rest) {
        return TurnOutcome::Break(place, place);
    }
    if is_quote && after_space && quoted_comes(pairs, &rest) {
        return break_to_base(pairs, place, &rest);
    }
    if is_before_hyphen(left.class) && is_hyphen(right.class) && letter_comes(pairs, &rest) {
        return hyphen_turn(left, opened, place, rest.place());
    }
    table_turn(pairs, opened, left, right, rest)
}

/// The turn at a hyphen that begins a word; `next` is the place of the item after it.
fn hyphen_turn(left: Left, opened: bool, place: usize, next: usize) -> TurnOutcome
    ensures { result ≡ hyphen_outcome left opened place next }
{
    if left.class == RuleBreakData::LINE_V3_PROPERTY_CB
        && is_joiner(LineEngine::Seventeen, left.last_class)
    {
        TurnOutcome::Go(next, opened)
    } else {
        TurnOutcome::Break(place, next)
    }
}

/// The turn at a closing quote after the end of a line, or after ZW.
fn quote_turn<I: Cursor>(pairs: LinePairs<'_, Engine17>, place: usize, rest: &I) -> TurnOutcome
    ensures { (whole : Text) (number : ℕ) → place ≡ item_place number whole → I.text rest.now ≡ rest_after (suc number) whole
        → result ≡ placed whole (quote_turn (rules_by pairs.entry) number (code_points (I.text rest.now).items)) }
{
    if hyphen_comes(pairs, rest) {
        return TurnOutcome::Break(place, place);
    }
    if begins_marked(pairs, rest) {
        return break_to_base(pairs, place, rest);
    }
    TurnOutcome::Break(place, place)
}

/// The turn by the table.
fn table_turn<I: Cursor>(
    pairs: LinePairs<'_, Engine17>,
    opened: bool,
    left: Left,
    right: ClassedItem,
    rest: I,
) -> TurnOutcome
    requires left { left.class < (rules_by pairs).table.property_count }
    requires right { right.class < (rules_by pairs).table.property_count }
    ensures { FindsBetween left right.place (I.text rest) result (λ unit. table_turn (rules_by pairs.entry) opened unit right.class (code_points (I.text rest).items)
        (entry_of (rules_by pairs.entry).table left.class right.class)) }
{
    let table = pairs.table();
    let entry = entry_after(table, left.class, right.class);
    let joined = is_joiner(LineEngine::Seventeen, left.last_class);
    if let BreakState::Keep = entry {
        return TurnOutcome::Go(right.place, opened);
    }
    match state_named(entry) {
        None => unless(joined, opened, right.place),
        Some(state) => {
            let begin = Walker {
                state,
                saved: right.place,
                is_saved_joined: joined,
                before: right.class,
                is_composite_first: !is_class(table, state),
                opened,
            };
            walk(pairs, begin, rest)
        }
    }
}
