//! A text whose first item is read already, with its class: both engines of lines read by it.

ghost use Rattle.std.specs.Prelude.{◌≡◌, ◌≤◌, ◌-◌, ℕ, List, [], length, false};
ghost use Rattle.seg_text.specs.declared.boundary.Boundary.{Boundary};
ghost use Rattle.seg_text.specs.Items.{Text, prefix_length, rest_after, start_of, text_before};
ghost use Rattle.seg_line_pairs.specs.LineEvents.{FollowsPairs, IsItemAhead, asks_more};
ghost use Rattle.seg_line_pairs.specs.LineBoundaries.{rules_by};
ghost use Rattle.seg_line_pairs.specs.LineRules.{is_complex_point};
ghost use Rattle.seg_line_pairs.specs.ReadAhead.{AreItemsAhead, LeadsByPairs, TakesRun, items_after, rules_of, unread_by};

use crate::classes::is_complex;
use crate::engines::PairEngine;
use crate::line_pairs::LinePairs;
use crate::plain_pairs::{ClassedItem, asks_more, plain_pairs};
use seg_text::cursor::Cursor;
use seg_text::prefixes::CodePointTest;
use std::marker::Model;

/// A text whose first item is read already, with its class. Both engines of lines read by it.
#[derive(Drop)]
pub struct ReadAhead<'data, E: PairEngine, I: Cursor> {
    pairs: LinePairs<'data, E>,
    // What isn't read yet: as items, ..
    here: I,
    // .. and as the first of them, whose class is read already, ..
    next: Option<ClassedItem>,
    // .. with those after it.
    rest: I,
}

impl<'data, E: PairEngine, I: Cursor> Model for ReadAhead<'data, E, I> {
    ghost use Rattle.seg_line_pairs.specs.LineEvents.{IsItemAhead};
    ghost use Rattle.seg_line_pairs.specs.LineBoundaries.{rules_by};
    ghost use Rattle.seg_line_pairs.specs.ReadAhead.{UnreadItems, unread_by};

    ghost Value = { UnreadItems };

    ghost view = { λ s. unread_by (rules_by s.pairs) (I.text s.here) };

    ghost invariant = { λ s. IsItemAhead (rules_by s.pairs) (I.text s.here) s.next (I.text s.rest) };
}

impl<'data, E: PairEngine, I: Cursor> ReadAhead<'data, E, I> {
    /// What is left of a text. Takes no memory.
    pub fn new(pairs: LinePairs<'data, E>, text: I) -> Self
        ensures { result ≡ unread_by (rules_by pairs.entry) (I.text text) }
    {
        let mut rest = text.fork();
        let next = next_classed(pairs, &mut rest);
        ReadAhead {
            pairs,
            here: text,
            next,
            rest,
        }
    }

    /// What classes are read by.
    pub fn pairs(&self) -> LinePairs<'data, E>
        ensures { rules_by result ≡ rules_of E.ENGINE self.now }
    {
        self.pairs
    }

    /// Where the text that is left begins.
    pub fn place(&self) -> usize
        ensures { result ≡ start_of self.now.text }
    {
        self.here.place()
    }

    /// A separate text in which nothing is left, at the place where the text that is left begins.
    pub fn nothing(&self) -> I
        ensures { I.text result ≡ record { items = []; end = start_of self.now.text } }
    {
        self.here.up_to(self.here.place())
    }

    /// The first item, and those after it. None at the end.
    pub fn first(&self) -> Option<(ClassedItem, I)>
        ensures { AreItemsAhead I.text (rules_of E.ENGINE self.now) self.now.text result }
    {
        let Some(next) = self.next else {
            return None;
        };
        Some((next, self.rest.fork()))
    }

    /// Goes on to the place of an item that isn't read yet, or to the text's end.
    pub fn go_to(&mut self, place: usize)
        requires { (k : ℕ) × (place ≡ start_of (rest_after k self.old.text)) }
        ensures { (k : ℕ) → place ≡ start_of (rest_after k self.old.text) → self.new ≡ items_after k self.old }
    {
        self.here.seek(place);
        self.rest = self.here.fork();
        self.next = next_classed(self.pairs, &mut self.rest);
    }

    /// The run of complex items at such a place, as a text of its own, and the place of its end. Goes on to the last of them.
    pub fn run_at(&mut self, place: usize) -> (I, usize)
        requires { (k : ℕ) × (place ≡ start_of (rest_after k self.old.text)) }
        ensures takes { (k : ℕ) → place ≡ start_of (rest_after k self.old.text)
            → TakesRun (rules_of E.ENGINE self.old) (items_after k self.old) (I.text result.0) self.new }
        ensures end { result.1 ≡ (I.text result.0).end }
    {
        self.here.seek(place);
        let run = complex_run(self.pairs, &mut self.here);
        self.rest = self.here.fork();
        self.next = next_classed(self.pairs, &mut self.rest);
        run
    }

    /// The next boundary, where plain pairs alone reach it. Where they don't, they are passed.
    #[inline(always)]
    pub fn plain_break(&mut self) -> Option<usize>
        ensures rules { rules_of E.ENGINE self.new ≡ rules_of E.ENGINE self.old }
        ensures most { length self.new.text.items ≤ length self.old.text.items }
        ensures leads { (found later : Text → List Boundary)
            → (asks_more self.old.style ≡ false → FollowsPairs (rules_of E.ENGINE self.old) (E.plain self.old.table) found later)
            → LeadsByPairs found later self.old.text result self.new.text }
    {
        let Some(next) = self.next else {
            return None;
        };
        if asks_more(self.pairs.style()) {
            return None;
        }
        let passed = plain_pairs(self.pairs, next, self.rest.fork());
        self.here.seek(passed.next.place);
        self.next = Some(passed.next);
        self.rest = passed.rest;
        if !passed.is_break {
            return None;
        }
        Some(passed.next.place)
    }

    /// What is left of the text, once more. Takes no memory.
    pub fn fork(&self) -> Self
        ensures { result ≡ self.now }
    {
        ReadAhead {
            pairs: self.pairs,
            here: self.here.fork(),
            next: self.next,
            rest: self.rest.fork(),
        }
    }
}

/// The next item, with its class.
fn next_classed<E: PairEngine, I: Cursor>(
    pairs: LinePairs<'_, E>,
    rest: &mut I,
) -> Option<ClassedItem>
    ensures { IsItemAhead (rules_by pairs.entry) (I.text rest.old) result (I.text rest.new) }
{
    let Some((place, code_point)) = rest.next_item() else {
        return None;
    };
    Some(ClassedItem {
        class: pairs.class(code_point),
        code_point,
        place,
    })
}

/// Which code points are complex, as the options read their classes.
#[derive(Drop)]
struct ComplexPoints<'data, E: PairEngine> {
    pairs: LinePairs<'data, E>,
}

impl<'data, E: PairEngine> CodePointTest for ComplexPoints<'data, E> {
    ghost use Rattle.seg_line_pairs.specs.LineBoundaries.{rules_by};
    ghost use Rattle.seg_line_pairs.specs.LineRules.{is_complex_point};

    ghost passes = { λ test code_point. is_complex_point (rules_by test.pairs) code_point };

    fn accepts(&self, code_point: u32) -> bool {
        is_complex(E::ENGINE, self.pairs.table(), self.pairs.class(code_point))
    }
}

/// The run of complex items that a text begins with. `rest` goes on at the last of them. Apart, so that its loop has the registers.
#[inline(never)]
fn complex_run<E: PairEngine, I: Cursor>(pairs: LinePairs<'_, E>, rest: &mut I) -> (I, usize)
    ensures run { I.text result.0 ≡ text_before (prefix_length (is_complex_point (rules_by pairs.entry)) (I.text rest.old)) (I.text rest.old) }
    ensures end { result.1 ≡ (I.text result.0).end }
    ensures rest { I.text rest.new ≡ rest_after (prefix_length (is_complex_point (rules_by pairs.entry)) (I.text rest.old) - 1) (I.text rest.old) }
{
    take_run(rest, &ComplexPoints { pairs })
}

/// The longest beginning of a text whose code points pass a test, as a text that ends there, and the place of its end: its places stay.
/// `rest` goes on at the last of them. Takes no memory.
fn take_run<I: Cursor, T: CodePointTest>(rest: &mut I, test: &T) -> (I, usize)
    ensures run { I.text result.0 ≡ text_before (prefix_length (T.passes test.now) (I.text rest.old)) (I.text rest.old) }
    ensures end { result.1 ≡ (I.text result.0).end }
    ensures rest { I.text rest.new ≡ rest_after (prefix_length (T.passes test.now) (I.text rest.old) - 1) (I.text rest.old) }
{
    let (last, end) = run_ends(rest, test);
    let run = rest.up_to(end);
    rest.seek(last);
    (run, end)
}

/// The place of the last of the code points that a text begins with and that pass a test, and the place after it.
fn run_ends<I: Cursor, T: CodePointTest>(rest: &I, test: &T) -> (usize, usize)
    ensures last { result.0 ≡ start_of (rest_after (prefix_length (T.passes test.now) (I.text rest.now) - 1) (I.text rest.now)) }
    ensures end { result.1 ≡ start_of (rest_after (prefix_length (T.passes test.now) (I.text rest.now)) (I.text rest.now)) }
{
    let mut ahead = rest.fork();
    let mut last = rest.place();
    loop {
        let place = ahead.place();
        match ahead.next_item() {
            Some((_, code_point)) => {
                if !test.accepts(code_point) {
                    return (last, place);
                }
                last = place;
            }
            None => return (last, place),
        }
    }
}
