//! Spans of a text by a machine, and their boundaries.

ghost use Rattle.std.specs.Prelude.{◌≡◌, [], MatchOption};
ghost use Rattle.std.specs.Iterator.{YieldsFirst, item_count};
ghost use Rattle.seg_text.specs.Items.{prefix_length, text_before};
ghost use Rattle.seg_text.specs.Boundaries.{boundaries_in, later_boundaries};
ghost use Rattle.seg_text.specs.Filled.{WritesSome};
ghost use Rattle.seg_data.specs.ScriptWords.{borrowed_words};
ghost use Rattle.seg_clusters.specs.Payloads.{payloads_of};
ghost use Rattle.seg_machine.specs.Pick.{machine_stretch};
ghost use Rattle.seg_machine.specs.Tailored.{machine_of};
ghost use Rattle.seg_clusters.specs.Spans.{is_between};
ghost use Rattle.seg_words.specs.WordsLeft.{span_left, IsFirstSpan};

use crate::prefix::Prefix;
use seg_clusters::complex::ComplexPayloadsBorrowed;
use seg_clusters::dictionaries::DictionaryCuts;
use seg_clusters::spans::{BetweenRuns, next_span};
use seg_data::dictionaries::DictionariesBorrowed;
use seg_data::provider::DictionaryCursor;
use seg_machine::tailored_machine::TailoredMachineBorrowed;
use seg_rows::rule_segmenter_v2::RuleBreakIterator;
use seg_text::boundary::Boundary;
use seg_text::cursor::Cursor;

/// The status of what ends with letters.
const LETTERS: u8 = 2;

/// A span, of which boundaries are left.
#[derive(Drop)]
pub(crate) enum Span<'data, I: Cursor> {
    /// Nothing but the text's start, until it is given.
    Start(Option<usize>),
    /// A piece between runs, by the machine, which ends it where a run begins.
    Piece(RuleBreakIterator<'data, Prefix<I, BetweenRuns<'data>>>),
    /// A run, by the words of its script.
    Run(DictionaryCuts<'data, DictionaryCursor<'data>, I>),
}

impl<'data, I: Cursor> Span<'data, I> {
    /// The first span of a text: a run where its script has words. None where the text has no item. Takes no memory.
    ///
    /// It reads a run up to its end, and of a piece between runs what the machine reads first.
    pub(crate) fn first_of(
        machine: TailoredMachineBorrowed<'data>,
        payloads: ComplexPayloadsBorrowed<'data>,
        text: &I,
    ) -> Option<Self>
        ensures { MatchOption result ((I.text text.now).items ≡ []) (IsFirstSpan (machine_of machine.entry) (payloads_of payloads.entry) (I.text text.now)) }
    {
        let Some((_, first)) = text.fork().next_item() else {
            return None;
        };
        match payloads.dictionaries.cursor(machine.script(first)) {
            None => Some(Span::Piece(piece_of(machine, payloads.dictionaries, text.fork()))),
            Some(words) => {
                let (run, _) = next_span(machine, payloads.dictionaries, &mut text.fork())?;
                Some(Span::Run(DictionaryCuts::new(words, payloads.clusters, run)))
            }
        }
    }
}

// The boundaries of the piece between runs that a text begins with, but that at its start.
fn piece_of<'data, I: Cursor>(
    machine: TailoredMachineBorrowed<'data>,
    dictionaries: DictionariesBorrowed<'data>,
    rest: I,
) -> RuleBreakIterator<'data, Prefix<I, BetweenRuns<'data>>>
    ensures { result.left ≡ boundaries_in (later_boundaries (machine_stretch (machine_of machine.entry)))
        (text_before (prefix_length (is_between (machine_of machine.entry) (borrowed_words dictionaries.entry)) (I.text rest)) (I.text rest)) }
{
    let test = BetweenRuns {
        machine,
        dictionaries,
    };
    let mut piece = RuleBreakIterator::new(machine, Prefix { rest, test });
    piece.next();
    piece
}

impl<'data, I: Cursor> Iterator for Span<'data, I> {
    type Item = Boundary;

    ghost next_gives = { YieldsFirst span_left };

    ghost remaining = { item_count span_left };

    fn next(&mut self) -> Option<Boundary> {
        let (place, status) = match self {
            Span::Start(place) => (place.take(), 0),
            Span::Piece(piece) => (piece.next(), piece.status()),
            Span::Run(cuts) => (cuts.next(), LETTERS),
        };
        let offset = place?;
        Some(Boundary { offset, status })
    }
}

impl<'data, I: Cursor> Span<'data, I> {
    /// Writes the places and the statuses of some of the boundaries over the first of both buffers, and returns how many: those of a piece by
    /// the machine's rows, where it has them. Takes no memory.
    pub(crate) fn batch(&mut self, places: &mut [usize], statuses: &mut [u8]) -> usize
        ensures { WritesSome (span_left self.old) (span_left self.new) places.old places.new statuses.old statuses.new result }
    {
        match self {
            Span::Piece(piece) => match piece.fill_both(places, statuses) {
                Some(count) => count,
                None => 0,
            },
            _ => 0,
        }
    }

    /// What is left of the boundaries, once more. Takes no memory.
    pub(crate) fn fork(&self) -> Self
        ensures { result ≡ self.now }
    {
        match self {
            Span::Start(place) => Span::Start(*place),
            Span::Piece(piece) => Span::Piece(piece.fork()),
            Span::Run(cuts) => Span::Run(cuts.fork()),
        }
    }
}
