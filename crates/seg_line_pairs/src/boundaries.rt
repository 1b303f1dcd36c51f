//! The boundaries of lines of a text by a pair table: those that an engine finds, one after another, and the cuts strictly inside runs of complex
//! code points.

ghost use Rattle.std.specs.Prelude.{◌≡◌, ⊤, [], ◌∷◌};
ghost use Rattle.std.specs.Iterator.{YieldsFirst, MakesProgress, item_count};
ghost use Rattle.seg_text.specs.Items.{start_of};
ghost use Rattle.seg_text.specs.Boundaries.{GivesNext, IsCover, boundary, offsets_left};
ghost use Rattle.seg_clusters.specs.Payloads.{payloads_of, run_cuts_by};
ghost use Rattle.seg_line_pairs.specs.LineBoundaries.{inside, table_line_boundaries_of, rules_by};

use crate::classic::ClassicEngine;
use crate::events::{LineEvent, LineEvents, LineSource};
use crate::inside_cuts::InsideCuts;
use crate::line_pairs::LinePairs;
use seg_clusters::complex::ComplexPayloadsBorrowed;
use seg_text::cursor::Cursor;
use std::marker::Model;

/// The boundaries of lines in a text, as places. No status of one is other than 0.
#[derive(Drop)]
pub struct TableLines<'data, S: LineSource> {
    // What isn't read yet.
    source: S,
    // What is left of the run that came last.
    run: InsideCuts<'data, S::Text>,
    payloads: ComplexPayloadsBorrowed<'data>,
    started: bool,
}

impl<'data, S: LineSource> Model for TableLines<'data, S> {
    ghost use Rattle.seg_text.specs.Boundaries.{Remainder};
    ghost use Rattle.seg_clusters.specs.Payloads.{payloads_of, run_cuts_by};
    ghost use Rattle.seg_line_pairs.specs.LineBoundaries.{inside};
    ghost use Rattle.seg_line_pairs.specs.LineEvents.{line_remainder};

    ghost Value = { Remainder };

    ghost view = { λ s. line_remainder (inside (run_cuts_by (payloads_of s.payloads))) s.started s.run (S.unread s.source) };
}

impl<'data, S: LineSource> TableLines<'data, S> {
    /// The boundaries of what is left of a text. Takes no memory.
    pub fn new(source: S, payloads: ComplexPayloadsBorrowed<'data>) -> Self
        ensures boundaries { result.left ≡ boundary (start_of (S.unread source).text) 0 ∷ (S.unread source).later (inside (run_cuts_by (payloads_of payloads.entry))) [] }
        ensures status { result.status ≡ 0 }
    {
        TableLines {
            run: InsideCuts::new(payloads, source.nothing(), source.place()),
            payloads,
            source,
            started: false,
        }
    }

    /// The status of the boundary that was given last: 0.
    pub fn status(&self) -> u8
        ensures { result ≡ self.now.status }
    {
        let _ = &self.started;
        0
    }

    /// What is left of the boundaries, once more. Takes no memory.
    pub fn fork(&self) -> Self
        ensures { result ≡ self.now }
    {
        TableLines {
            source: self.source.fork(),
            run: self.run.fork(),
            payloads: self.payloads,
            started: self.started,
        }
    }
}

impl<'data, S: LineSource> Iterator for TableLines<'data, S> {
    type Item = usize;

    ghost next_gives = { YieldsFirst offsets_left };

    ghost remaining = { item_count offsets_left };

    fn next(&mut self) -> Option<usize>
        ensures steps { YieldsFirst offsets_left self.old result self.new × GivesNext self.old result self.new }
        ensures goes { MakesProgress (λ _. ⊤) (item_count offsets_left) self.old result self.new }
    {
        if !self.started {
            self.started = true;
            return Some(self.source.place());
        }
        loop {
            if let Some(place) = self.run.next() {
                self.source.note_cut();
                return Some(place);
            }
            if let Some(place) = self.source.plain_break() {
                return Some(place);
            }
            match self.source.next_event() {
                LineEvent::End => return None,
                LineEvent::Go => {}
                LineEvent::Break(place) => return Some(place),
                LineEvent::Run(run, end) => self.run = InsideCuts::new(self.payloads, run, end),
            }
        }
    }
}

/// The boundaries of lines in what is left of a text by the classic engine. Takes no memory.
pub fn classic_lines<'data, I: Cursor>(
    pairs: LinePairs<'data, ClassicEngine>,
    payloads: ComplexPayloadsBorrowed<'data>,
    text: I,
) -> TableLines<'data, LineEvents<'data, I>>
    ensures boundaries { result.left ≡ table_line_boundaries_of (run_cuts_by (payloads_of payloads.entry)) (rules_by pairs.entry) (I.text text) }
    ensures cover { IsCover (start_of (I.text text)) (I.text text).end result.left }
    ensures status { result.status ≡ 0 }
{
    payloads.facts();
    TableLines::new(LineEvents::new(pairs, text), payloads)
}
