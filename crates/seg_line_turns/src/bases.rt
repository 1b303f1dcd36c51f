//! The first item ahead that is no mark.
ghost use Rattle.std.specs.Prelude.{◌≡◌, ℕ, suc, ◌+◌, not};
ghost use Rattle.seg_text.specs.Items.{Text, code_points, rest_after};
ghost use Rattle.seg_line_pairs.specs.LineBoundaries.{rules_by};
ghost use Rattle.seg_line_turns.specs.TurnPlaces.{IsBaseOf, item_place, placed};
ghost use Rattle.seg_line_turns.specs.TurnClasses.{is_after_quote, is_digit, is_hyphen, is_letter};
ghost use Rattle.seg_line_turns.specs.Turns.{begins_marked, comes, to_base};
ghost use Rattle.seg_line_turns.specs.Turns.Turn.{BreakAt, GoTo};

use crate::classes::{is_after_quote, is_hyphen, is_letter};
use crate::engine_17::Engine17;
use crate::turn_units::TurnOutcome;
use seg_line_pairs::classes::is_mark;
use seg_line_pairs::engines::LineEngine;
use seg_line_pairs::line_pairs::LinePairs;
use seg_pairs::provider::RuleBreakData;
use seg_text::cursor::Cursor;

/// The base that comes after some marks.
#[derive(Clone, Copy)]
pub(crate) struct BaseAhead {
    /// Its class, if there is one.
    pub(crate) class: Option<u8>,
    /// Its place, or else that of the last item before the end.
    pub(crate) place: usize,
}

/// The first item that is no mark. It reads the marks before it: only a quote, a hyphen or an infix separator asks, once or twice, and
/// these marks belong to the unit that begins there.
#[inline(never)]
pub(crate) fn base_ahead<I: Cursor>(pairs: LinePairs<'_, Engine17>, rest: &I) -> BaseAhead
    ensures { IsBaseOf (rules_by pairs.entry) (I.text rest.now) result }
{
    let mut ahead = rest.fork();
    let mut last = rest.place();
    loop {
        let Some((place, code_point)) = ahead.next_item() else {
            return BaseAhead {
                class: None,
                place: last,
            };
        };
        let class = pairs.class(code_point);
        if !is_mark(LineEngine::Seventeen, class) {
            return BaseAhead {
                class: Some(class),
                place,
            };
        }
        last = place;
    }
}

/// Whether a digit comes.
pub(crate) fn digit_comes<I: Cursor>(pairs: LinePairs<'_, Engine17>, rest: &I) -> bool
    ensures { result ≡ comes (rules_by pairs.entry) is_digit (code_points (I.text rest.now).items) }
{
    match base_ahead(pairs, rest).class {
        Some(class) => class == RuleBreakData::LINE_V3_PROPERTY_NU,
        None => false,
    }
}

/// Whether a hyphen comes.
pub(crate) fn hyphen_comes<I: Cursor>(pairs: LinePairs<'_, Engine17>, rest: &I) -> bool
    ensures { result ≡ comes (rules_by pairs.entry) is_hyphen (code_points (I.text rest.now).items) }
{
    match base_ahead(pairs, rest).class {
        Some(class) => is_hyphen(class),
        None => false,
    }
}

/// Whether a letter comes.
pub(crate) fn letter_comes<I: Cursor>(pairs: LinePairs<'_, Engine17>, rest: &I) -> bool
    ensures { result ≡ comes (rules_by pairs.entry) is_letter (code_points (I.text rest.now).items) }
{
    match base_ahead(pairs, rest).class {
        Some(class) => is_letter(class),
        None => false,
    }
}

/// Whether a class comes that a closing quote after a space doesn't stay with.
pub(crate) fn quoted_comes<I: Cursor>(pairs: LinePairs<'_, Engine17>, rest: &I) -> bool
    ensures { result ≡ comes (rules_by pairs.entry) (λ class. not (is_after_quote class)) (code_points (I.text rest.now).items) }
{
    match base_ahead(pairs, rest).class {
        Some(class) => !is_after_quote(class),
        None => false,
    }
}

/// Whether a mark stands first.
pub(crate) fn begins_marked<I: Cursor>(pairs: LinePairs<'_, Engine17>, rest: &I) -> bool
    ensures { result ≡ begins_marked (rules_by pairs.entry) (code_points (I.text rest.now).items) }
{
    let mut ahead = rest.fork();
    match ahead.next_item() {
        Some((_, code_point)) => is_mark(LineEngine::Seventeen, pairs.class(code_point)),
        None => false,
    }
}

/// A boundary at a place, after which the next turn begins with the base.
pub(crate) fn break_to_base<I: Cursor>(
    pairs: LinePairs<'_, Engine17>,
    place: usize,
    rest: &I,
) -> TurnOutcome
    ensures { (whole : Text) (number : ℕ) → place ≡ item_place number whole → I.text rest.now ≡ rest_after (suc number) whole
        → result ≡ placed whole (BreakAt number (number + suc (to_base (rules_by pairs.entry) (code_points (I.text rest.now).items)))) }
{
    TurnOutcome::Break(place, base_ahead(pairs, rest).place)
}

/// No boundary: the next turn begins with the base.
pub(crate) fn go_to_base<I: Cursor>(
    pairs: LinePairs<'_, Engine17>,
    opened: bool,
    rest: &I,
) -> TurnOutcome
    ensures { (whole : Text) (number : ℕ) → I.text rest.now ≡ rest_after (suc number) whole
        → result ≡ placed whole (GoTo (number + suc (to_base (rules_by pairs.entry) (code_points (I.text rest.now).items))) opened) }
{
    TurnOutcome::Go(base_ahead(pairs, rest).place, opened)
}
