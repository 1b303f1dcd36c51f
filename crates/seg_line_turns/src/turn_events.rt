//! The boundaries of lines of a text, as far as turns find them: runs of complex code points are given as texts of their own, to be cut in some
//! other way.
ghost use Rattle.std.specs.Prelude.{◌≡◌, []};
ghost use Rattle.seg_text.specs.Items.{start_of};
ghost use Rattle.seg_line_turns.specs.TurnEvents.{whole_text};
ghost use Rattle.seg_line_pairs.specs.LineBoundaries.{rules_by};

use crate::engine_17::Engine17;
use crate::turn_units::TurnOutcome;
use crate::turns::{first_unit, turn};
use seg_line_pairs::events::{LineEvent, LineSource};
use seg_line_pairs::line_pairs::LinePairs;
use seg_line_pairs::read_ahead::ReadAhead;
use seg_text::cursor::Cursor;
use std::marker::Model;

/// A text whose lines are found turn by turn.
#[derive(Drop)]
pub struct TurnEvents<'data, I: Cursor> {
    // What isn't turned yet.
    ahead: ReadAhead<'data, Engine17, I>,
    // Whether nothing was read.
    starts: bool,
    // Whether a space after an opening was met since the last boundary.
    opened: bool,
}

impl<'data, I: Cursor> Model for TurnEvents<'data, I> {
    ghost use Rattle.seg_line_turns.specs.TurnEvents.{UnreadTurns, turns_of};

    ghost Value = { UnreadTurns };

    ghost view = { λ s. turns_of s.starts s.opened s.ahead };
}

impl<'data, I: Cursor> TurnEvents<'data, I> {
    /// The events of a text. Takes no memory.
    pub fn new(pairs: LinePairs<'data, Engine17>, text: I) -> Self
        ensures { result ≡ whole_text (rules_by pairs.entry) (I.text text) }
    {
        TurnEvents {
            ahead: ReadAhead::new(pairs, text),
            starts: true,
            opened: false,
        }
    }
}

impl<'data, I: Cursor> LineSource for TurnEvents<'data, I> {
    ghost use Rattle.seg_line_turns.specs.TurnEvents.{turns_unread};

    type Text = I;

    ghost unread = { turns_unread };

    fn place(&self) -> usize {
        self.ahead.place()
    }

    fn nothing(&self) -> I {
        self.ahead.nothing()
    }

    fn note_cut(&mut self) {
        self.opened = false;
    }

    #[inline(always)]
    fn plain_break(&mut self) -> Option<usize> {
        if self.starts {
            return None;
        }
        let Some(place) = self.ahead.plain_break() else {
            return None;
        };
        self.opened = false;
        Some(place)
    }

    #[inline(never)]
    fn next_event(&mut self) -> LineEvent<I> {
        let Some((next, rest)) = self.ahead.first() else {
            return LineEvent::End;
        };
        let pairs = self.ahead.pairs();
        let first = first_unit(pairs, self.starts, next);
        self.starts = false;
        match turn(pairs, self.opened, first, rest) {
            TurnOutcome::Break(place, resume) => {
                self.opened = false;
                self.ahead.go_to(resume);
                LineEvent::Break(place)
            }
            TurnOutcome::Go(place, opened) => {
                self.opened = opened;
                self.ahead.go_to(place);
                LineEvent::Go
            }
            TurnOutcome::Run(place, opened) => {
                self.opened = opened;
                let (run, end) = self.ahead.run_at(place);
                LineEvent::Run(run, end)
            }
        }
    }

    fn fork(&self) -> Self {
        TurnEvents {
            ahead: self.ahead.fork(),
            starts: self.starts,
            opened: self.opened,
        }
    }
}
