//! Boundaries by a pair table of a text with complex elements, as far as the table finds them: runs of complex elements are
//! given as texts of their own, to be cut in some other way.

ghost use Rattle.std.specs.Prelude.{◌≡◌, []};
ghost use Rattle.seg_text.specs.Items.{start_of};
ghost use Rattle.seg_pairs.specs.Breaks.{LeadsTo, GoesOnUnread, unread_by};

use crate::elements::{Element, Elements, Items};
use crate::pair_data::PairDataBorrowed;
use crate::provider::RuleBreakData;
use crate::rule_segmenter_v1::place_before;
use crate::verdicts::{ComplexVerdicts, Outcome, next_break};
use seg_text::cursor::Cursor;
use seg_text::prefixes::{CodePointTest, take_prefix};
use std::marker::Model;

/// What comes next of a text.
#[derive(Drop)]
pub enum Event<I: Cursor> {
    /// Its end.
    End,
    /// A boundary at this place, with this class.
    Break(usize, u8),
    /// A run of complex items, as a text whose places are those of the whole.
    Run(I),
}

/// Whether code points are complex.
#[derive(Clone, Copy)]
struct ComplexTest<'data> {
    pairs: PairDataBorrowed<'data>,
}

impl<'data> CodePointTest for ComplexTest<'data> {
    ghost use Rattle.seg_pairs.specs.PairData.{pair_table_of, override_of};
    ghost use Rattle.seg_pairs.specs.Breaks.{is_complex};

    ghost passes = { λ s code_point. is_complex (pair_table_of s.pairs) (override_of s.pairs) code_point };

    #[inline(always)]
    fn accepts(&self, code_point: u32) -> bool {
        self.pairs.wide_class(code_point) == self.pairs.table().complex_property()
    }
}

/// A text that is read by a pair table, event by event.
#[derive(Drop)]
pub struct Events<'data, I: Cursor> {
    pairs: PairDataBorrowed<'data>,
    // What isn't read yet: as items, ..
    here: I,
    // .. and as elements, the first apart.
    next: Option<Element<()>>,
    rest: Items<'data, I>,
}

impl<'data, I: Cursor> Model for Events<'data, I> {
    ghost use Rattle.seg_pairs.specs.Breaks.{Unread, unread_by};
    ghost use Rattle.seg_pairs.specs.Elements.{IsElementAhead};

    ghost Value = { Unread };

    ghost view = { λ s. unread_by s.pairs (I.text s.here) };

    ghost invariant = { λ s. IsElementAhead s.pairs (I.text s.here) s.next s.rest.pairs (I.text s.rest.cursor) };
}

impl<'data, I: Cursor> Events<'data, I> {
    /// The events of what is left of a text. Takes no memory.
    pub fn new(pairs: PairDataBorrowed<'data>, text: I) -> Self
        ensures { result ≡ unread_by pairs.entry (I.text text) }
    {
        let mut rest = Items {
            pairs,
            cursor: text.fork(),
        };
        let next = rest.next_element();
        Events {
            pairs,
            here: text,
            next,
            rest,
        }
    }

    /// The pair table.
    pub fn table(&self) -> &'data RuleBreakData
        ensures { result.now ≡ self.now.table }
    {
        self.pairs.table()
    }

    /// Where the text that is left begins.
    pub fn place(&self) -> usize
        ensures { result ≡ start_of self.now.text }
    {
        self.here.place()
    }

    /// A separate text in which nothing is left, at the place where the text that is left begins.
    pub fn nothing(&self) -> I
        ensures { I.text result ≡ record { items = []; end = start_of self.now.text } }
    {
        self.here.up_to(self.here.place())
    }

    /// A second iterator over the events that are left. Takes no memory.
    pub fn fork(&self) -> Self
        ensures { result ≡ self.now }
    {
        Events {
            pairs: self.pairs,
            here: self.here.fork(),
            next: self.next,
            rest: self.rest.fork(),
        }
    }

    /// What comes next. After the end it stays the end.
    #[inline(always)]
    pub fn next_event(&mut self) -> Event<I>
        ensures leads { LeadsTo I.text self.old result self.new }
        ensures goes { GoesOnUnread self.old self.new }
    {
        let Some(left) = self.next else {
            return Event::End;
        };
        let rules = ComplexVerdicts {
            table: self.pairs.table(),
        };
        match next_break(&rules, left, &mut self.rest) {
            Outcome::Break(class, next) => {
                self.next = next;
                let place = place_before(next, &self.rest);
                self.here.seek(place);
                Event::Break(place, class)
            }
            Outcome::Run(first, _second) => {
                self.here.seek(first.place);
                let run = take_prefix(&mut self.here, &ComplexTest { pairs: self.pairs });
                self.rest = Items {
                    pairs: self.pairs,
                    cursor: self.here.fork(),
                };
                self.next = self.rest.next_element();
                Event::Run(run)
            }
        }
    }
}
