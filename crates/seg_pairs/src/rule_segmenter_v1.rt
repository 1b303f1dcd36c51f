//! Boundaries by a pair table.

ghost use Rattle.std.specs.Prelude.{◌≡◌, ◌<◌, ⊤, ℕ, None, List, IfSome};
ghost use Rattle.std.specs.Iterator.{YieldsFirst, MakesProgress, item_count};
ghost use Rattle.seg_text.specs.Items.{start_of};
ghost use Rattle.seg_text.specs.Boundaries.{GivesNext, IsCover, boundaries_in, offsets_left};
ghost use Rattle.seg_pairs.specs.PairData.{pair_table_of, override_of};
ghost use Rattle.seg_pairs.specs.Breaks.{status_of, table_boundaries};
ghost use Rattle.seg_pairs.specs.Elements.{class_text, onto, place_at};

use crate::elements::{Element, Elements, Items};
use crate::pair_data::PairDataBorrowed;
use crate::provider::RuleBreakData;
use crate::verdicts::{Outcome, TableVerdicts, next_break};
use seg_text::cursor::Cursor;
use seg_text::reach::Reach;
use std::fmt;
use std::marker::Model;

/// The boundaries of a text by a pair table: its start, and then each that the verdicts of the table
/// lead to from the one before. For tables by which no run begins.
#[derive(Drop)]
pub struct RuleBreakIterator<'data, I: Cursor> {
    // The first element after the boundary that was given last.
    next: Option<Element<()>>,
    // The elements after that one.
    rest: Items<'data, I>,
    started: bool,
    class: u8,
}

impl<'data, I: Cursor> fmt::Debug for RuleBreakIterator<'data, I> {
    fn fmt<W: fmt::Write>(&self, f: &mut fmt::Formatter<W>) -> fmt::Result {
        f.write_str("RuleBreakIterator { .. }")
    }
}

impl<'data, I: Cursor> Model for RuleBreakIterator<'data, I> {
    ghost use Rattle.std.specs.Prelude.{◌≡◌, ◌<◌, false, None, [], IfSome};
    ghost use Rattle.seg_pairs.specs.PairData.{pair_table_of};
    ghost use Rattle.seg_text.specs.Boundaries.{Remainder, remainder};
    ghost use Rattle.seg_text.specs.Items.{IsRising};
    ghost use Rattle.seg_pairs.specs.Breaks.{class_stretch, status_of};
    ghost use Rattle.seg_pairs.specs.Elements.{onto, class_text, elements_of};

    ghost Value = { Remainder };

    ghost view = { λ s. remainder s.started (class_stretch (pair_table_of s.rest.pairs))
        (class_text (onto s.next (elements_of s.rest.pairs (I.text s.rest.cursor).items)) (I.text s.rest.cursor).end)
        (status_of (pair_table_of s.rest.pairs).rule_status_table s.class) };

    ghost invariant = { λ s. (s.started ≡ false → s.class ≡ 0)
        × (s.next ≡ None → (I.text s.rest.cursor).items ≡ [])
        × IfSome s.next (λ next. next.class < (pair_table_of s.rest.pairs).property_count)
        × IsRising (class_text (onto s.next (elements_of s.rest.pairs (I.text s.rest.cursor).items)) (I.text s.rest.cursor).end).items (I.text s.rest.cursor).end };
}

impl<'data, I: Cursor> RuleBreakIterator<'data, I> {
    /// The boundaries of what is left of `text`. Takes no memory.
    pub fn new(pairs: PairDataBorrowed<'data>, text: I) -> Self
        ensures left { result.left ≡ boundaries_in (table_boundaries (pair_table_of pairs.entry) (override_of pairs.entry)) (I.text text) }
        ensures cover { IsCover (start_of (I.text text)) (I.text text).end result.left }
        ensures status { result.status ≡ 0 }
    {
        let mut rest = Items {
            pairs,
            cursor: text,
        };
        let next = rest.next_element();
        RuleBreakIterator {
            next,
            rest,
            started: false,
            class: 0,
        }
    }

    /// The rule status of the boundary that was given last: that of its class, which is 0 for the
    /// first, before it and after the end. Class 0 has status 0.
    pub fn rule_status(&self) -> u8
        ensures { result ≡ self.now.status }
    {
        rule_status(self.rest.pairs.table(), self.class)
    }

    /// A second iterator over the boundaries that are left. Takes no memory.
    pub fn fork(&self) -> Self
        ensures { result ≡ self.now }
    {
        RuleBreakIterator {
            next: self.next,
            rest: self.rest.fork(),
            started: self.started,
            class: self.class,
        }
    }
}

impl<'data, I: Cursor> Iterator for RuleBreakIterator<'data, I> {
    type Item = usize;

    ghost next_gives = { YieldsFirst offsets_left };

    ghost remaining = { item_count offsets_left };

    #[inline(always)]
    fn next(&mut self) -> Option<usize>
        ensures steps { YieldsFirst offsets_left self.old result self.new × GivesNext self.old result self.new }
        ensures goes { MakesProgress (λ _. ⊤) (item_count offsets_left) self.old result self.new }
    {
        if !self.started {
            self.started = true;
            return Some(place_before(self.next, &self.rest));
        }
        let Some(left) = self.next else {
            self.class = 0;
            return None;
        };
        let rules = TableVerdicts {
            table: self.rest.pairs.table(),
        };
        match next_break(&rules, left, &mut self.rest) {
            Outcome::Break(class, next) => {
                self.class = class;
                self.next = next;
                Some(place_before(next, &self.rest))
            }
            Outcome::Run(_first, _second) => unreachable!(),
        }
    }

    fn size_hint(&self) -> (usize, Option<usize>) {
        let reach = Reach {
            started: self.started,
            place: place_before(self.next, &self.rest),
            end: self.rest.cursor.end(),
        };
        reach.size_hint()
    }
}

/// The place of this element, or else of the first of the others, or of the text's end.
pub(crate) fn place_before<E: Elements>(next: Option<Element<E::Detail>>, rest: &E) -> usize
    ensures { result ≡ place_at (onto next (E.left rest.now)) (E.end rest.now) }
{
    match next {
        Some(element) => element.place,
        None => rest.place(),
    }
}

/// The rule status of a class: 0 for class 0, and for each that the table of statuses lacks.
pub fn rule_status(table: &RuleBreakData, class: u8) -> u8
    ensures { result ≡ status_of table.now.rule_status_table class }
{
    match class.checked_sub(1) {
        Some(index) => table
            .rule_status_table()
            .get(index as usize)
            .copied()
            .unwrap_or(0),
        None => 0,
    }
}
