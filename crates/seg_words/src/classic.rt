//! The boundaries of words by a pair table: those that the table finds, and the cuts of runs of complex elements.

ghost use Rattle.std.specs.Prelude.{◌≡◌, ⊤};
ghost use Rattle.std.specs.Iterator.{YieldsFirst, MakesProgress, item_count};
ghost use Rattle.seg_text.specs.Items.{start_of};
ghost use Rattle.seg_text.specs.Boundaries.{cut_places, GivesNext, IsCover, offsets_left};
ghost use Rattle.seg_pairs.specs.PairData.{pair_table_of, override_of};
ghost use Rattle.seg_clusters.specs.Rules.Rules.{ByTable};
ghost use Rattle.seg_clusters.specs.Payloads.{payloads_of, run_cuts_by};
ghost use Rattle.seg_words.specs.WordRules.{word_boundaries_of};

use seg_clusters::complex::ComplexPayloadsBorrowed;
use seg_clusters::runs::RunCuts;
use seg_pairs::pair_data::PairDataBorrowed;
use seg_pairs::rule_segmenter_v1::rule_status;
use seg_pairs::runs::{Event, Events};
use seg_text::cursor::Cursor;
use std::marker::Model;

/// The cuts that are left of the run that came last. They aren't entered once they are over.
#[derive(Drop)]
struct CutsLeft<'data, I: Cursor> {
    cuts: RunCuts<'data, I>,
    // Whether some may be left.
    in_run: bool,
}

impl<'data, I: Cursor> Model for CutsLeft<'data, I> {
    ghost use Rattle.std.specs.Prelude.{◌≡◌, ℕ, List, [], false};

    ghost Value = { List ℕ };

    ghost view = { λ s. s.cuts };

    ghost invariant = { λ s. s.in_run ≡ false → s.cuts ≡ [] };
}

impl<'data, I: Cursor> CutsLeft<'data, I> {
    /// The cuts of what is left of a run. Takes no memory.
    fn new(payloads: ComplexPayloadsBorrowed<'data>, run: I) -> Self
        ensures { result ≡ cut_places (run_cuts_by (payloads_of payloads.entry)) (I.text run) }
    {
        CutsLeft {
            cuts: RunCuts::new(payloads, run),
            in_run: true,
        }
    }

    /// What is left of the cuts, once more. Takes no memory.
    fn fork(&self) -> Self
        ensures { result ≡ self.now }
    {
        CutsLeft {
            cuts: self.cuts.fork(),
            in_run: self.in_run,
        }
    }
}

impl<'data, I: Cursor> Iterator for CutsLeft<'data, I> {
    type Item = usize;

    ghost next_gives = { YieldsFirst (λ left. left) };

    ghost remaining = { item_count (λ left. left) };

    #[inline(always)]
    fn next(&mut self) -> Option<usize> {
        if !self.in_run {
            return None;
        }
        let place = self.cuts.next();
        self.in_run = place.is_some();
        place
    }
}

/// The boundaries of words in a text, as places.
#[derive(Drop)]
pub(crate) struct ClassicBoundaries<'data, I: Cursor> {
    // What the table hasn't read yet.
    events: Events<'data, I>,
    // What is left of the run that came last.
    run: CutsLeft<'data, I>,
    payloads: ComplexPayloadsBorrowed<'data>,
    started: bool,
    // The class of the boundary that was given last.
    class: u8,
}

impl<'data, I: Cursor> Model for ClassicBoundaries<'data, I> {
    ghost use Rattle.std.specs.Prelude.{◌≡◌, false, []};
    ghost use Rattle.seg_text.specs.Boundaries.{Remainder};
    ghost use Rattle.seg_clusters.specs.Payloads.{payloads_of, run_cuts_by};
    ghost use Rattle.seg_words.specs.WordsLeft.{classic_remainder};

    ghost Value = { Remainder };

    ghost view = { λ s. classic_remainder (run_cuts_by (payloads_of s.payloads)) s.started s.class s.run s.events };

    ghost invariant = { λ s. s.started ≡ false → (s.class ≡ 0) × (s.run ≡ []) };
}

impl<'data, I: Cursor> ClassicBoundaries<'data, I> {
    /// The boundaries of what is left of a text. Takes no memory.
    pub(crate) fn new(
        pairs: PairDataBorrowed<'data>,
        payloads: ComplexPayloadsBorrowed<'data>,
        text: I,
    ) -> Self
        ensures boundaries { result.left ≡ word_boundaries_of (record { rules = ByTable (pair_table_of pairs.entry) (override_of pairs.entry); payloads = payloads_of payloads.entry }) (I.text text) }
        ensures cover { IsCover (start_of (I.text text)) (I.text text).end result.left }
        ensures status { result.status ≡ 0 }
    {
        payloads.facts();
        let events = Events::new(pairs, text);
        ClassicBoundaries {
            run: CutsLeft::new(payloads, events.nothing()),
            payloads,
            events,
            started: false,
            class: 0,
        }
    }

    /// The rule status of the boundary that was given last: 0 for the first, before it and after the end.
    pub(crate) fn status(&self) -> u8
        ensures { result ≡ self.now.status }
    {
        rule_status(self.events.table(), self.class)
    }
}

impl<'data, I: Cursor> Iterator for ClassicBoundaries<'data, I> {
    type Item = usize;

    ghost next_gives = { YieldsFirst offsets_left };

    ghost remaining = { item_count offsets_left };

    fn next(&mut self) -> Option<usize>
        ensures steps { YieldsFirst offsets_left self.old result self.new × GivesNext self.old result self.new }
        ensures goes { MakesProgress (λ _. ⊤) (item_count offsets_left) self.old result self.new }
    {
        if !self.started {
            self.started = true;
            return Some(self.events.place());
        }
        self.payloads.facts();
        loop {
            if let Some(place) = self.run.next() {
                self.class = self.events.table().complex_property();
                return Some(place);
            }
            match self.events.next_event() {
                Event::End => {
                    self.class = 0;
                    return None;
                }
                Event::Break(place, class) => {
                    self.class = class;
                    return Some(place);
                }
                Event::Run(run) => self.run = CutsLeft::new(self.payloads, run),
            }
        }
    }
}

impl<'data, I: Cursor> ClassicBoundaries<'data, I> {
    /// What is left of the boundaries, once more. Takes no memory.
    pub(crate) fn fork(&self) -> Self
        ensures { result ≡ self.now }
    {
        ClassicBoundaries {
            events: self.events.fork(),
            run: self.run.fork(),
            payloads: self.payloads,
            started: self.started,
            class: self.class,
        }
    }
}
