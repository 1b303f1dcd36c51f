//! The units of a text of lines, each read once.

ghost use Rattle.std.specs.Prelude.{◌≡◌, ◌<◌, ◌∷◌, [], None, IfSome};
ghost use Rattle.seg_line_pairs.specs.LineEvents.{HasClass, text_from};
ghost use Rattle.seg_line_pairs.specs.LineBoundaries.{rules_by};
ghost use Rattle.seg_line_pairs.specs.LineUnits.{base_element, base_of, elements_after, elements_from, line_elements, marked_element};

use crate::classes::{is_glued, is_joiner};
use crate::classic::ClassicEngine;
use crate::engines::LineEngine;
use crate::line_pairs::LinePairs;
use crate::plain_pairs::ClassedItem;
use seg_pairs::elements::{Element, Elements};
use seg_text::cursor::Cursor;
use std::marker::Model;

/// What the rules of lines ask of a unit besides its class and its place.
#[derive(Clone, Copy)]
pub struct UnitDetail {
    /// The code point of its base.
    pub code_point: u32,
    /// Whether it ends with the mark that joins it to what follows it.
    pub is_joined: bool,
    /// Whether it is one item.
    pub is_single: bool,
}

/// A code point that isn't glued, with the marks after it, as an element.
pub type Unit = Element<UnitDetail>;

/// The units of a text as elements.
#[derive(Drop)]
pub struct Units<'data, I: Cursor> {
    pairs: LinePairs<'data, ClassicEngine>,
    // The first item of the next unit, which is read already.
    first: Option<Unit>,
    // The items after it.
    rest: I,
}

impl<'data, I: Cursor> Model for Units<'data, I> {
    ghost use Rattle.seg_line_pairs.specs.LineBoundaries.{rules_by};
    ghost use Rattle.seg_line_pairs.specs.LineUnits.{UnitsLeft, IsFirst, elements_after};

    ghost Value = { UnitsLeft };

    ghost view = { λ s. record { rules = rules_by s.pairs; left = elements_after (rules_by s.pairs) s.first (I.text s.rest).items; end = (I.text s.rest).end } };

    ghost invariant = { λ s. IsFirst (rules_by s.pairs) s.first (I.text s.rest).items };
}

impl<'data, I: Cursor> Units<'data, I> {
    /// The units of what is left of a text. Takes no memory.
    pub fn new(pairs: LinePairs<'data, ClassicEngine>, text: I) -> Self
        ensures { result ≡ record { rules = rules_by pairs.entry; left = line_elements (rules_by pairs.entry) (I.text text).items; end = (I.text text).end } }
    {
        let mut rest = text;
        let first = match rest.next_item() {
            Some((place, code_point)) => Some(base(pairs, place, code_point)),
            None => None,
        };
        Units { pairs, first, rest }
    }

    /// The units of a text whose first item is read already. `rest` has the items after it. Takes no memory.
    pub(crate) fn from_item(
        pairs: LinePairs<'data, ClassicEngine>,
        first: ClassedItem,
        rest: I,
    ) -> Self
        requires { HasClass (rules_by pairs) first }
        ensures { result ≡ record { rules = rules_by pairs.entry; left = line_elements (rules_by pairs.entry) (text_from first (I.text rest)).items; end = (I.text rest).end } }
    {
        let base = base_element(first.place, first.code_point, first.class);
        Units {
            pairs,
            first: Some(base),
            rest,
        }
    }
}

impl<'data, I: Cursor> Elements for Units<'data, I> {
    type Detail = UnitDetail;

    ghost left = { λ s. s.left };

    ghost end = { λ s. s.end };

    ghost table = { λ s. s.rules.table };

    #[inline(always)]
    fn next_element(&mut self) -> Option<Unit> {
        let Some(base) = self.first else {
            return None;
        };
        let Some((place, code_point)) = self.rest.next_item() else {
            self.first = None;
            return Some(base);
        };
        let class = self.pairs.class(code_point);
        if !is_glued(LineEngine::Classic, base.class, class) {
            self.first = Some(base_element(place, code_point, class));
            return Some(base);
        }
        let (unit, first) = read_unit(self.pairs, marked_element(base, class), &mut self.rest);
        self.first = first;
        Some(unit)
    }

    fn fork(&self) -> Self {
        Units {
            pairs: self.pairs,
            first: self.first,
            rest: self.rest.fork(),
        }
    }

    fn catch_up(&mut self, other: Self) {
        *self = other;
    }

    fn place(&self) -> usize {
        match self.first {
            Some(first) => first.place,
            None => self.rest.place(),
        }
    }
}

/// The unit that begins with this base, and the base after it. `rest` has the items after the one, and then those after the other.
#[inline(never)]
fn read_unit<I: Cursor>(
    pairs: LinePairs<'_, ClassicEngine>,
    base: Unit,
    rest: &mut I,
) -> (Unit, Option<Unit>)
    ensures unit { elements_from (rules_by pairs.entry) base (I.text rest.old).items ≡ result.0 ∷ elements_after (rules_by pairs.entry) result.1 (I.text rest.new).items }
    ensures end { (I.text rest.new).end ≡ (I.text rest.old).end }
    ensures class { result.0.class ≡ base.class }
    ensures none { result.1 ≡ None → (I.text rest.new).items ≡ [] }
    ensures below { IfSome result.1 (λ first. first.class < (rules_by pairs.entry).table.property_count) }
{
    let mut unit = base;
    loop {
        let Some((place, code_point)) = rest.next_item() else {
            return (unit, None);
        };
        let class = pairs.class(code_point);
        if !is_glued(LineEngine::Classic, unit.class, class) {
            return (unit, Some(base_element(place, code_point, class)));
        }
        unit = marked_element(unit, class);
    }
}

/// An item as a unit of its own.
fn base(pairs: LinePairs<'_, ClassicEngine>, place: usize, code_point: u32) -> Unit
    ensures element { result ≡ base_of (rules_by pairs.entry) (place, code_point) }
    ensures below { result.class < (rules_by pairs.entry).table.property_count }
{
    base_element(place, code_point, pairs.class(code_point))
}

/// An item of this class as a unit of its own.
fn base_element(place: usize, code_point: u32, class: u8) -> Unit
    ensures { result ≡ base_element place code_point class }
{
    Element {
        class,
        place,
        detail: UnitDetail {
            code_point,
            is_joined: is_joiner(LineEngine::Classic, class),
            is_single: true,
        },
    }
}

/// A unit with one mark more, of this class.
fn marked_element(unit: Unit, class: u8) -> Unit
    ensures { result ≡ marked_element unit class }
{
    Element {
        class: unit.class,
        place: unit.place,
        detail: UnitDetail {
            code_point: unit.detail.code_point,
            is_joined: is_joiner(LineEngine::Classic, class),
            is_single: false,
        },
    }
}
