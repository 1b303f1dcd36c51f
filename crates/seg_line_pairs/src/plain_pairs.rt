//! Units and turns of one item each, between which the classes and the table alone decide: most of them.
ghost use Rattle.std.specs.Prelude.{◌≡◌, false};
ghost use Rattle.seg_line_pairs.specs.LineEvents.{HasClass, IsPassed, asks_more};
ghost use Rattle.seg_line_pairs.specs.LineBoundaries.{rules_by};

use crate::engines::{PairEngine, PlainPair};
use crate::line_pairs::LinePairs;
use crate::options::LineStyle;
use seg_text::cursor::Cursor;

/// An item with its class.
#[derive(Clone, Copy)]
pub struct ClassedItem {
    /// Its class.
    pub class: u8,
    /// Its code point.
    pub code_point: u32,
    /// Where it begins.
    pub place: usize,
}

/// Where plain pairs end.
#[derive(Drop)]
pub struct Passed<I: Cursor> {
    /// The item that the next unit or turn begins with.
    pub next: ClassedItem,
    /// The items after it.
    pub rest: I,
    /// Whether a boundary stands before it.
    pub is_break: bool,
}

/// Whether the options ask for more than the classes and the table.
pub fn asks_more(style: LineStyle) -> bool
    ensures { result ≡ asks_more style }
{
    style.keeps_all() || style.is_loose_or_normal()
}

/// The plain pairs that come first, from an item on: up to the first boundary, or else to the first pair that isn't plain. `rest` has the
/// items after the one.
#[inline(always)]
pub fn plain_pairs<E: PairEngine, I: Cursor>(
    pairs: LinePairs<'_, E>,
    first: ClassedItem,
    rest: I,
) -> Passed<I>
    requires class { HasClass (rules_by pairs) first }
    requires plain { asks_more (rules_by pairs).style ≡ false }
    ensures { IsPassed (rules_by pairs.entry) (E.plain (rules_by pairs.entry).table) first (I.text rest) result.next (I.text result.rest) result.is_break }
{
    // Field by field, so that no gap between them is carried along.
    let mut next = ClassedItem {
        class: first.class,
        code_point: first.code_point,
        place: first.place,
    };
    let mut rest = rest;
    loop {
        let mut after = rest.fork();
        let Some((place, code_point)) = after.next_item() else {
            return pairs_passed(next, rest, false);
        };
        let right = ClassedItem {
            class: pairs.strict_class(code_point),
            code_point,
            place,
        };
        match E::plain_pair(pairs.table(), next.class, right.class) {
            PlainPair::Break => return pairs_passed(right, after, true),
            PlainPair::Other => return pairs_passed(next, rest, false),
            PlainPair::Go => {
                next = right;
                rest = after;
            }
        }
    }
}

/// Where pairs end.
#[inline(always)]
fn pairs_passed<I: Cursor>(next: ClassedItem, rest: I, is_break: bool) -> Passed<I>
    ensures { result ≡ record { next = next; rest = rest; is_break = is_break } }
{
    Passed {
        next,
        rest,
        is_break,
    }
}
