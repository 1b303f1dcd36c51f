//! The boundaries of lines by a machine, joined with the cuts strictly inside runs.

ghost use Rattle.std.specs.Prelude.{◌≡◌, ◌++◌, [], None};
ghost use Rattle.std.specs.Option.{option_map, option_to_list};
ghost use Rattle.seg_text.specs.Items.{start_of};
ghost use Rattle.seg_text.specs.Boundaries.{IsCover, boundaries_in};
ghost use Rattle.seg_machine.specs.Tailored.{machine_of};
ghost use Rattle.seg_clusters.specs.Payloads.{payloads_of};
ghost use Rattle.seg_clusters.specs.Spans.{AreBeyond, cuts_left};
ghost use Rattle.seg_rows.specs.Underway.{IsLater, behind};
ghost use Rattle.seg_lines.specs.LineBreaks.{boundaries_with};
ghost use Rattle.seg_lines.specs.LineBreaks.LineFinder.{ByMachine};

use crate::joined::{First, first_of};
use seg_clusters::complex::ComplexPayloadsBorrowed;
use seg_clusters::inner::InnerCuts;
use seg_clusters::spans::BetweenRuns;
use seg_machine::tailored_machine::TailoredMachineBorrowed;
use seg_rows::buffers::fill_passing;
use seg_rows::rule_segmenter_v2::next_behind;
use seg_text::batches::BatchSource;
use seg_text::boundary::Boundary;
use seg_text::cursor::Cursor;
use seg_text::reach::BoundarySource;
use std::marker::Model;

/// The boundaries of lines in a text, as places.
#[derive(Drop)]
pub(crate) struct JoinedBoundaries<'data, I: Cursor> {
    machine: TailoredMachineBorrowed<'data>,
    payloads: ComplexPayloadsBorrowed<'data>,
    // What is left behind the machine's boundary that was found last.
    rest: I,
    // That boundary, until it is given.
    boundary: Option<Boundary>,
    cuts: InnerCuts<'data, I>,
    // The next cut, if it was found: it is looked for up to the next boundary, and no further.
    cut: Option<usize>,
    status: u8,
}

impl<'data, I: Cursor> Model for JoinedBoundaries<'data, I> {
    ghost use Rattle.std.specs.Prelude.{◌≡◌, ◌++◌};
    ghost use Rattle.std.specs.Option.{option_to_list};
    ghost use Rattle.seg_text.specs.Boundaries.{Remainder, offsets};
    ghost use Rattle.seg_machine.specs.Tailored.{machine_of};
    ghost use Rattle.seg_rows.specs.Underway.{behind};
    ghost use Rattle.seg_clusters.specs.Payloads.{payloads_of};
    ghost use Rattle.seg_clusters.specs.Spans.{cuts_left};
    ghost use Rattle.seg_lines.specs.LineBreaks.{AreOfOneText, AreRising, joined};

    ghost Value = { Remainder };

    ghost view = { λ s. record { left = joined (option_to_list s.boundary ++ behind (machine_of s.machine) (I.text s.rest)) (option_to_list s.cut ++ cuts_left (machine_of s.machine) (payloads_of s.payloads) s.cuts); status = s.status } };

    ghost invariant = { λ s.
        AreRising (offsets (option_to_list s.boundary ++ behind (machine_of s.machine) (I.text s.rest)))
        × AreRising (option_to_list s.cut ++ cuts_left (machine_of s.machine) (payloads_of s.payloads) s.cuts)
        × AreOfOneText (I.text s.rest) s.cuts.rest };
}

impl<'data, I: Cursor> JoinedBoundaries<'data, I> {
    /// The boundaries of what is left of a text. Takes no memory.
    pub(crate) fn new(
        machine: TailoredMachineBorrowed<'data>,
        payloads: ComplexPayloadsBorrowed<'data>,
        text: I,
    ) -> Self
        ensures boundaries { result.left ≡ boundaries_in (boundaries_with (ByMachine (machine_of machine.entry)) (payloads_of payloads.entry)) (I.text text) }
        ensures cover { IsCover (start_of (I.text text)) (I.text text).end result.left }
        ensures status { result.status ≡ 0 }
    {
        machine.facts();
        payloads.facts();
        let start = Boundary {
            offset: text.place(),
            status: 0,
        };
        JoinedBoundaries {
            machine,
            payloads,
            rest: text.fork(),
            boundary: Some(start),
            cuts: InnerCuts::new(text),
            cut: None,
            status: 0,
        }
    }
}

/// The machine's next boundary: the one that is held, or else the next one behind it.
fn next_found<I: Cursor>(
    machine: &TailoredMachineBorrowed<'_>,
    rest: &mut I,
    held: Option<Boundary>,
) -> Option<Boundary>
    ensures same { option_to_list result ++ behind (machine_of machine.now) (I.text rest.new) ≡ option_to_list held ++ behind (machine_of machine.now) (I.text rest.old) }
    ensures none { result ≡ None → behind (machine_of machine.now) (I.text rest.new) ≡ [] }
    ensures on { IsLater (I.text rest.old) (I.text rest.new) }
{
    match held {
        Some(_) => held,
        None => next_behind(machine, rest),
    }
}

/// The next cut: the one that is held, or else one that is looked for up to the next boundary.
fn next_cut<'data, I: Cursor>(
    machine: TailoredMachineBorrowed<'data>,
    payloads: ComplexPayloadsBorrowed<'data>,
    cuts: &mut InnerCuts<'data, I>,
    held: Option<usize>,
    boundary: Option<Boundary>,
) -> Option<usize>
    ensures same { let left = cuts_left (machine_of machine.entry) (payloads_of payloads.entry) in option_to_list result ++ left cuts.new ≡ option_to_list held ++ left cuts.old }
    ensures beyond { result ≡ None → AreBeyond (option_map (λ boundary. boundary.offset) boundary) (cuts_left (machine_of machine.entry) (payloads_of payloads.entry) cuts.new) }
    ensures on { IsLater cuts.old.rest cuts.new.rest }
{
    match (held, boundary) {
        (Some(_), _) => held,
        (None, Some(boundary)) => cuts.next_up_to(machine, payloads, Some(boundary.offset)),
        (None, None) => cuts.next_up_to(machine, payloads, None),
    }
}

impl<'data, I: Cursor> BoundarySource for JoinedBoundaries<'data, I> {
    ghost remainder = { λ left. left };

    fn next_boundary(&mut self) -> Option<usize> {
        self.boundary = next_found(&self.machine, &mut self.rest, self.boundary);
        self.cut = next_cut(
            self.machine,
            self.payloads,
            &mut self.cuts,
            self.cut,
            self.boundary,
        );
        match first_of(self.boundary, self.cut) {
            First::Nothing => {
                self.status = 0;
                None
            }
            First::Cut(place) => {
                self.cut = None;
                self.status = 0;
                Some(place)
            }
            First::Boundary(boundary) => {
                self.boundary = None;
                self.status = boundary.status;
                Some(boundary.offset)
            }
            First::Both(boundary) => {
                self.boundary = None;
                self.cut = None;
                self.status = boundary.status;
                Some(boundary.offset)
            }
        }
    }

    fn last_status(&self) -> u8 {
        self.status
    }

    fn fork(&self) -> Self {
        JoinedBoundaries {
            machine: self.machine,
            payloads: self.payloads,
            rest: self.rest.fork(),
            boundary: self.boundary,
            cuts: self.cuts.fork(),
            cut: self.cut,
            status: self.status,
        }
    }
}

impl<'data, I: Cursor> BatchSource for JoinedBoundaries<'data, I> {
    // By the machine's rows, as far as no run begins.
    fn batch(&mut self, places: &mut [usize], statuses: &mut [u8]) -> usize {
        self.payloads.facts();
        let (None, None) = (self.boundary, self.cut) else {
            return 0;
        };
        if !self.cuts.is_at(self.rest.place()) {
            return 0;
        }
        let test = BetweenRuns {
            machine: self.machine,
            dictionaries: self.payloads.dictionaries,
        };
        let count = fill_passing(&self.machine, &test, &mut self.rest, places, statuses);
        if count > 0 {
            self.cuts = InnerCuts::new(self.rest.fork());
            self.status = statuses[count - 1];
        }
        count
    }
}
