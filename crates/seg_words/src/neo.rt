//! The boundaries of words by a machine: span by span, runs of scripts with words by these, and the pieces between by the machine.

ghost use Rattle.std.specs.Prelude.{◌≡◌};
ghost use Rattle.seg_text.specs.Items.{start_of};
ghost use Rattle.seg_text.specs.Boundaries.{IsCover};
ghost use Rattle.seg_clusters.specs.Rules.Rules.{ByMachine};
ghost use Rattle.seg_clusters.specs.Payloads.{payloads_of};
ghost use Rattle.seg_machine.specs.Tailored.{machine_of};
ghost use Rattle.seg_words.specs.WordRules.{word_boundaries_of};

use crate::span::Span;
use seg_clusters::complex::ComplexPayloadsBorrowed;
use seg_machine::tailored_machine::TailoredMachineBorrowed;
use seg_text::batches::BatchSource;
use seg_text::cursor::Cursor;
use seg_text::reach::BoundarySource;
use std::marker::Model;

/// The boundaries of words in a text, as places.
#[derive(Drop)]
pub(crate) struct NeoBoundaries<'data, I: Cursor> {
    machine: TailoredMachineBorrowed<'data>,
    payloads: ComplexPayloadsBorrowed<'data>,
    // What is left of the span that came last.
    span: Span<'data, I>,
    // Whether it is the first of `rest`, and not the text's start.
    has_begun: bool,
    // The text, from the start of that span on: where it ends is seen when its last boundary is given.
    rest: I,
    // The place of the boundary that was given last.
    place: usize,
    status: u8,
}

impl<'data, I: Cursor> Model for NeoBoundaries<'data, I> {
    ghost use Rattle.seg_text.specs.Boundaries.{Remainder};
    ghost use Rattle.seg_clusters.specs.Payloads.{payloads_of};
    ghost use Rattle.seg_machine.specs.Tailored.{machine_of};
    ghost use Rattle.std.specs.Prelude.{◌≡◌};
    ghost use Rattle.seg_text.specs.Items.{start_of};
    ghost use Rattle.seg_words.specs.WordsLeft.{after_span, last_of, span_left, spans_left};

    ghost Value = { Remainder };

    ghost view = { λ s. record { left = spans_left (machine_of s.machine) (payloads_of s.payloads) s.span s.has_begun (I.text s.rest); status = s.status } };

    ghost invariant = { λ s. last_of s.place (span_left s.span) ≡ start_of (after_span (machine_of s.machine) (payloads_of s.payloads).words s.has_begun (I.text s.rest)) };
}

impl<'data, I: Cursor> NeoBoundaries<'data, I> {
    /// The boundaries of what is left of a text. Takes no memory.
    pub(crate) fn new(
        machine: TailoredMachineBorrowed<'data>,
        payloads: ComplexPayloadsBorrowed<'data>,
        text: I,
    ) -> Self
        ensures boundaries { result.left ≡ word_boundaries_of (record { rules = ByMachine (machine_of machine.entry); payloads = payloads_of payloads.entry }) (I.text text) }
        ensures cover { IsCover (start_of (I.text text)) (I.text text).end result.left }
        ensures status { result.status ≡ 0 }
    {
        machine.facts();
        payloads.facts();
        NeoBoundaries {
            machine,
            payloads,
            span: Span::Start(Some(text.place())),
            has_begun: false,
            place: text.place(),
            rest: text,
            status: 0,
        }
    }
}

impl<'data, I: Cursor> BoundarySource for NeoBoundaries<'data, I> {
    ghost remainder = { λ left. left };

    fn next_boundary(&mut self) -> Option<usize> {
        self.machine.facts();
        self.payloads.facts();
        loop {
            if let Some(boundary) = self.span.next() {
                self.place = boundary.offset;
                self.status = boundary.status;
                return Some(boundary.offset);
            }
            self.rest.seek(self.place);
            match Span::first_of(self.machine, self.payloads, &self.rest) {
                Some(span) => {
                    self.span = span;
                    self.has_begun = true;
                }
                None => {
                    self.status = 0;
                    return None;
                }
            }
        }
    }

    fn last_status(&self) -> u8 {
        self.status
    }

    fn fork(&self) -> Self {
        NeoBoundaries {
            machine: self.machine,
            payloads: self.payloads,
            span: self.span.fork(),
            has_begun: self.has_begun,
            rest: self.rest.fork(),
            place: self.place,
            status: self.status,
        }
    }
}

impl<'data, I: Cursor> BatchSource for NeoBoundaries<'data, I> {
    // What is left of a piece between runs, by the machine's rows.
    fn batch(&mut self, places: &mut [usize], statuses: &mut [u8]) -> usize {
        let count = self.span.batch(places, statuses);
        if count > 0 {
            self.place = places[count - 1];
            self.status = statuses[count - 1];
        }
        count
    }
}
