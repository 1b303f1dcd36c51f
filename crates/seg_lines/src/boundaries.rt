//! The boundaries of lines: those of clusters or of a machine as they are, those of a pair table, by verdicts on units or turn by turn, or
//! those of a machine joined with cuts.

ghost use Rattle.std.specs.Prelude.{◌≡◌};
ghost use Rattle.seg_text.specs.Items.{start_of};
ghost use Rattle.seg_text.specs.Boundaries.{IsCover, boundaries_in};
ghost use Rattle.seg_machine.specs.Tailored.{machine_of};
ghost use Rattle.seg_clusters.specs.Payloads.{payloads_of};
ghost use Rattle.seg_lines.specs.Lines.{line_remainder_by, finder_of};
ghost use Rattle.seg_lines.specs.LineBreaks.{boundaries_with};
ghost use Rattle.seg_lines.specs.LineBreaks.LineFinder.{ByMachine};

use crate::finder::Finder;
use crate::neo_lines::JoinedBoundaries;
use crate::unmarked::UnmarkedBoundaries;
use seg_clusters::complex::ComplexPayloadsBorrowed;
use seg_clusters::engine::{self, Engine};
use seg_line_pairs::boundaries::{TableLines, classic_lines};
use seg_line_pairs::events::LineEvents;
use seg_line_turns::boundaries::turn_lines;
use seg_line_turns::turn_events::TurnEvents;
use seg_machine::tailored_machine::TailoredMachineBorrowed;
use seg_text::batches::{write_both_by_batches, write_places_by_batches};
use seg_text::cursor::Cursor;
use seg_text::reach::{BoundarySource, BufferSource, HintedBoundaries, write_both, write_places};

/// The boundaries of lines in a text, as places.
#[derive(Drop)]
pub(crate) enum LineBoundaries<'data, I: Cursor> {
    /// The boundaries of clusters, or of a machine where no script has words.
    Plain(engine::Boundaries<'data, I>),
    /// The boundaries of clusters, without their statuses.
    Unmarked(UnmarkedBoundaries<'data, I>),
    /// By a pair table.
    Classic(TableLines<'data, LineEvents<'data, I>>),
    /// By a pair table of the engine 17.
    Turns(TableLines<'data, TurnEvents<'data, I>>),
    /// By a machine, joined with the cuts inside runs.
    Joined(JoinedBoundaries<'data, I>),
}

impl<'data, I: Cursor> LineBoundaries<'data, I> {
    /// The boundaries of what is left of a text. Takes no memory.
    fn new(finder: Finder<'data>, payloads: ComplexPayloadsBorrowed<'data>, text: I) -> Self
        ensures boundaries { (line_remainder_by result).left ≡ boundaries_in (boundaries_with (finder_of finder.entry) (payloads_of payloads.entry)) (I.text text) }
        ensures cover { IsCover (start_of (I.text text)) (I.text text).end (line_remainder_by result).left }
        ensures status { (line_remainder_by result).status ≡ 0 }
    {
        match finder {
            Finder::Clusters => LineBoundaries::Plain(payloads.clusters.boundaries(text)),
            Finder::Places => LineBoundaries::Unmarked(UnmarkedBoundaries::new(
                payloads.clusters.boundaries(text),
            )),
            Finder::Table(pairs) => LineBoundaries::Classic(classic_lines(pairs, payloads, text)),
            Finder::Turns(pairs) => LineBoundaries::Turns(turn_lines(pairs, payloads, text)),
            Finder::Machine(machine) => LineBoundaries::by_machine(machine, payloads, text),
        }
    }

    /// By a machine: without a dictionary of any script nothing is cut.
    fn by_machine(
        machine: TailoredMachineBorrowed<'data>,
        payloads: ComplexPayloadsBorrowed<'data>,
        text: I,
    ) -> Self
        ensures boundaries { (line_remainder_by result).left ≡ boundaries_in (boundaries_with (ByMachine (machine_of machine.entry)) (payloads_of payloads.entry)) (I.text text) }
        ensures cover { IsCover (start_of (I.text text)) (I.text text).end (line_remainder_by result).left }
        ensures status { (line_remainder_by result).status ≡ 0 }
    {
        if payloads.dictionaries.is_empty() {
            return LineBoundaries::Plain(Engine::Neo(machine).boundaries(text));
        }
        LineBoundaries::Joined(JoinedBoundaries::new(machine, payloads, text))
    }
}

/// The boundaries of lines in what is left of a text. Takes no memory.
pub(crate) fn boundaries<'data, I: Cursor>(
    finder: Finder<'data>,
    payloads: ComplexPayloadsBorrowed<'data>,
    text: I,
) -> HintedBoundaries<LineBoundaries<'data, I>>
    ensures boundaries { result.left ≡ boundaries_in (boundaries_with (finder_of finder.entry) (payloads_of payloads.entry)) (I.text text) }
    ensures cover { IsCover (start_of (I.text text)) (I.text text).end result.left }
    ensures status { result.status ≡ 0 }
{
    let (place, end) = (text.place(), text.end());
    HintedBoundaries::new(LineBoundaries::new(finder, payloads, text), place, end)
}

impl<'data, I: Cursor> BoundarySource for LineBoundaries<'data, I> {
    ghost remainder = { line_remainder_by };

    #[inline(always)]
    fn next_boundary(&mut self) -> Option<usize> {
        match self {
            LineBoundaries::Plain(engine) => engine.next(),
            LineBoundaries::Unmarked(places) => places.next(),
            LineBoundaries::Classic(engine) => engine.next(),
            LineBoundaries::Turns(engine) => engine.next(),
            LineBoundaries::Joined(engine) => engine.next_boundary(),
        }
    }

    fn last_status(&self) -> u8 {
        match self {
            LineBoundaries::Plain(engine) => engine.status(),
            LineBoundaries::Unmarked(places) => places.status(),
            LineBoundaries::Classic(engine) => engine.status(),
            LineBoundaries::Turns(engine) => engine.status(),
            LineBoundaries::Joined(engine) => engine.last_status(),
        }
    }

    fn fork(&self) -> Self {
        match self {
            LineBoundaries::Plain(engine) => LineBoundaries::Plain(engine.fork()),
            LineBoundaries::Unmarked(places) => LineBoundaries::Unmarked(places.fork()),
            LineBoundaries::Classic(engine) => LineBoundaries::Classic(engine.fork()),
            LineBoundaries::Turns(engine) => LineBoundaries::Turns(engine.fork()),
            LineBoundaries::Joined(engine) => LineBoundaries::Joined(engine.fork()),
        }
    }
}

impl<'data, I: Cursor> BufferSource for LineBoundaries<'data, I> {
    fn fill(&mut self, places: &mut [usize]) -> usize {
        match self {
            LineBoundaries::Plain(engine) => engine.fill(places),
            LineBoundaries::Joined(engine) => write_places_by_batches(engine, places),
            _ => write_places(self, places),
        }
    }

    fn fill_both(&mut self, places: &mut [usize], statuses: &mut [u8]) -> usize {
        match self {
            LineBoundaries::Plain(engine) => engine.fill_both(places, statuses),
            LineBoundaries::Joined(engine) => write_both_by_batches(engine, places, statuses),
            _ => write_both(self, places, statuses),
        }
    }
}
