//! The boundaries of lines of a text, as far as the table finds them: runs of complex code points are given as texts of their own, to be cut in
//! some other way.

ghost use Rattle.std.specs.Prelude.{◌≡◌, ℕ, List, Some, [], ◌∷◌};
ghost use Rattle.seg_text.specs.Items.{start_of};
ghost use Rattle.seg_text.specs.Boundaries.{Cuts};
ghost use Rattle.seg_pairs.specs.Elements.{onto, place_at};
ghost use Rattle.seg_line_pairs.specs.declared.engines.LineEngine.TheVariants.{Classic};
ghost use Rattle.seg_line_pairs.specs.LineEvents.{AreFirstUnits, LeadsToEvent, LeadsToBreak, LeavesLess};
ghost use Rattle.seg_line_pairs.specs.LineBoundaries.{rules_by};
ghost use Rattle.seg_line_pairs.specs.ReadAhead.{rules_of};

use crate::classic::ClassicEngine;
use crate::line_pairs::LinePairs;
use crate::read_ahead::ReadAhead;
use crate::units::{Unit, UnitDetail, Units};
use crate::verdicts::LineVerdicts;
use seg_pairs::elements::Elements;
use seg_pairs::verdicts::{Outcome, next_break};
use seg_text::cursor::Cursor;
use std::marker::Model;

/// What comes next of a text.
#[derive(Drop)]
pub enum LineEvent<I: Cursor> {
    /// Its end.
    End,
    /// No boundary, but less of the text is left.
    Go,
    /// A boundary at this place.
    Break(usize),
    /// A run of complex items, as a text whose places are those of the whole, and the place where it ends.
    Run(I, usize),
}

/// A text whose lines are found one after another, by either engine.
pub trait LineSource: Drop {
    ghost use Rattle.seg_line_pairs.specs.LineEvents.{UnreadText};

    /// A text in which runs stand.
    type Text: Cursor;

    /// What isn't read yet.
    ghost unread: { Self → UnreadText };

    /// Where the text that is left begins.
    fn place(&self) -> usize
        ensures { result ≡ start_of (unread self.now).text };

    /// A separate text in which nothing is left, at the place where the text that is left begins.
    fn nothing(&self) -> Self::Text
        ensures { Self.Text.text result ≡ record { items = []; end = start_of (unread self.now).text } };

    /// Notes a cut before the text that is left.
    fn note_cut(&mut self)
        ensures text { (unread self.new).text ≡ (unread self.old).text }
        ensures cut { (cuts : Cuts) (place : ℕ) (places : List ℕ) → (unread self.old).later cuts (place ∷ places) ≡ (unread self.new).later cuts places };

    /// The next boundary, where plain pairs alone reach it. Where they don't, they are passed: what comes then is an event.
    fn plain_break(&mut self) -> Option<usize>
        ensures leads { LeadsToBreak (unread self.old) result (unread self.new) };

    /// What comes next. After the end it stays the end.
    fn next_event(&mut self) -> LineEvent<Self::Text>
        ensures leads { LeadsToEvent Self.Text.text (unread self.old) result (unread self.new) }
        ensures goes { LeavesLess (unread self.old) (unread self.new) };

    /// What is left of the text, once more. Takes no memory.
    fn fork(&self) -> Self
        ensures { result ≡ self.now };
}

/// A text whose lines are found event by event.
#[derive(Drop)]
pub struct LineEvents<'data, I: Cursor> {
    // What isn't read yet.
    ahead: ReadAhead<'data, ClassicEngine, I>,
}

impl<'data, I: Cursor> Model for LineEvents<'data, I> {
    ghost use Rattle.seg_line_pairs.specs.LineEvents.{UnreadLines};
    ghost use Rattle.seg_line_pairs.specs.ReadAhead.{lines_of};

    ghost Value = { UnreadLines };

    ghost view = { λ s. lines_of s.ahead };
}

impl<'data, I: Cursor> LineEvents<'data, I> {
    /// The events of what is left of a text. Takes no memory.
    pub fn new(pairs: LinePairs<'data, ClassicEngine>, text: I) -> Self
        ensures { result ≡ record { rules = rules_by pairs.entry; text = I.text text } }
    {
        LineEvents {
            ahead: ReadAhead::new(pairs, text),
        }
    }
}

impl<'data, I: Cursor> LineSource for LineEvents<'data, I> {
    ghost use Rattle.seg_line_pairs.specs.LineEvents.{lines_unread};

    type Text = I;

    ghost unread = { lines_unread };

    fn place(&self) -> usize {
        self.ahead.place()
    }

    fn nothing(&self) -> I {
        self.ahead.nothing()
    }

    fn note_cut(&mut self) {}

    #[inline(always)]
    fn plain_break(&mut self) -> Option<usize> {
        self.ahead.plain_break()
    }

    #[inline(never)]
    fn next_event(&mut self) -> LineEvent<I> {
        let Some((left, mut units)) = first_units(&self.ahead) else {
            return LineEvent::End;
        };
        let rules = LineVerdicts {
            pairs: self.ahead.pairs(),
        };
        match next_break(&rules, left, &mut units) {
            Outcome::Break(_class, next) => {
                let place = place_before(next, &units);
                self.ahead.go_to(place);
                LineEvent::Break(place)
            }
            Outcome::Run(first, _second) => {
                let (run, end) = self.ahead.run_at(first.place);
                LineEvent::Run(run, end)
            }
        }
    }

    fn fork(&self) -> Self {
        LineEvents {
            ahead: self.ahead.fork(),
        }
    }
}

/// The first unit of a text, and the units after it. None at the end.
fn first_units<'data, I: Cursor>(
    ahead: &ReadAhead<'data, ClassicEngine, I>,
) -> Option<(Unit, Units<'data, I>)>
    ensures { AreFirstUnits (rules_of Classic ahead.now) ahead.now.text result }
{
    let Some((first, rest)) = ahead.first() else {
        return None;
    };
    let mut units = Units::from_item(ahead.pairs(), first, rest);
    let Some(left) = units.next_element() else {
        unreachable!()
    };
    Some((left, units))
}

/// The place of this unit, or else of the first of the others, or of the text's end.
fn place_before<E: Elements<Detail = UnitDetail>>(next: Option<Unit>, rest: &E) -> usize
    ensures { result ≡ place_at (onto next (E.left rest.now)) (E.end rest.now) }
{
    match next {
        Some(element) => element.place,
        None => rest.place(),
    }
}
