//! The boundaries of words by either engine.

ghost use Rattle.std.specs.Prelude.{◌≡◌};
ghost use Rattle.seg_text.specs.Items.{start_of};
ghost use Rattle.seg_text.specs.Boundaries.{IsCover};
ghost use Rattle.seg_clusters.specs.Rules.{rules_of};
ghost use Rattle.seg_clusters.specs.Rules.Rules.{ByMachine};
ghost use Rattle.seg_machine.specs.Tailored.{machine_of};
ghost use Rattle.seg_words.specs.Words.{word_remainder_by};
ghost use Rattle.seg_clusters.specs.Payloads.{payloads_of};
ghost use Rattle.seg_words.specs.WordRules.{word_boundaries_of};

use crate::classic::ClassicBoundaries;
use crate::neo::NeoBoundaries;
use seg_clusters::complex::ComplexPayloadsBorrowed;
use seg_clusters::engine::Engine;
use seg_machine::tailored_machine::TailoredMachineBorrowed;
use seg_rows::rule_segmenter_v2::RuleBreakIterator;
use seg_text::batches::{write_both_by_batches, write_places_by_batches};
use seg_text::cursor::Cursor;
use seg_text::reach::{BoundarySource, BufferSource, HintedBoundaries, write_both, write_places};

/// The boundaries of words in a text, as places.
#[derive(Drop)]
pub(crate) enum WordBoundaries<'data, I: Cursor> {
    /// By a pair table.
    Classic(ClassicBoundaries<'data, I>),
    /// By a state machine.
    Neo(RuleBreakIterator<'data, I>),
    /// By a state machine, and dictionaries.
    NeoWithWords(NeoBoundaries<'data, I>),
}

impl<'data, I: Cursor> WordBoundaries<'data, I> {
    /// The boundaries of what is left of a text. Takes no memory.
    fn new(engine: Engine<'data>, payloads: ComplexPayloadsBorrowed<'data>, text: I) -> Self
        ensures boundaries { (word_remainder_by result).left ≡ word_boundaries_of (record { rules = rules_of engine.entry; payloads = payloads_of payloads.entry }) (I.text text) }
        ensures cover { IsCover (start_of (I.text text)) (I.text text).end (word_remainder_by result).left }
        ensures status { (word_remainder_by result).status ≡ 0 }
    {
        match engine {
            Engine::Classic(pairs) => {
                WordBoundaries::Classic(ClassicBoundaries::new(pairs, payloads, text))
            }
            Engine::Neo(machine) => WordBoundaries::by_machine(machine, payloads, text),
        }
    }

    /// By a machine: without a dictionary of any script the whole text is one piece.
    fn by_machine(
        machine: TailoredMachineBorrowed<'data>,
        payloads: ComplexPayloadsBorrowed<'data>,
        text: I,
    ) -> Self
        ensures boundaries { (word_remainder_by result).left ≡ word_boundaries_of (record { rules = ByMachine (machine_of machine.entry); payloads = payloads_of payloads.entry }) (I.text text) }
        ensures cover { IsCover (start_of (I.text text)) (I.text text).end (word_remainder_by result).left }
        ensures status { (word_remainder_by result).status ≡ 0 }
    {
        if payloads.dictionaries.is_empty() {
            return WordBoundaries::Neo(RuleBreakIterator::new(machine, text));
        }
        WordBoundaries::NeoWithWords(NeoBoundaries::new(machine, payloads, text))
    }
}

/// The boundaries of words in what is left of a text. Takes no memory.
pub(crate) fn boundaries<'data, I: Cursor>(
    engine: Engine<'data>,
    payloads: ComplexPayloadsBorrowed<'data>,
    text: I,
) -> HintedBoundaries<WordBoundaries<'data, I>>
    ensures boundaries { result.left ≡ word_boundaries_of (record { rules = rules_of engine.entry; payloads = payloads_of payloads.entry }) (I.text text) }
    ensures cover { IsCover (start_of (I.text text)) (I.text text).end result.left }
    ensures status { result.status ≡ 0 }
{
    let (place, end) = (text.place(), text.end());
    HintedBoundaries::new(WordBoundaries::new(engine, payloads, text), place, end)
}

impl<'data, I: Cursor> BoundarySource for WordBoundaries<'data, I> {
    ghost remainder = { word_remainder_by };

    #[inline(always)]
    fn next_boundary(&mut self) -> Option<usize> {
        match self {
            WordBoundaries::Classic(engine) => engine.next(),
            WordBoundaries::Neo(engine) => engine.next(),
            WordBoundaries::NeoWithWords(engine) => engine.next_boundary(),
        }
    }

    fn last_status(&self) -> u8 {
        match self {
            WordBoundaries::Classic(engine) => engine.status(),
            WordBoundaries::Neo(engine) => engine.status(),
            WordBoundaries::NeoWithWords(engine) => engine.last_status(),
        }
    }

    fn fork(&self) -> Self {
        match self {
            WordBoundaries::Classic(engine) => WordBoundaries::Classic(engine.fork()),
            WordBoundaries::Neo(engine) => WordBoundaries::Neo(engine.fork()),
            WordBoundaries::NeoWithWords(engine) => WordBoundaries::NeoWithWords(engine.fork()),
        }
    }
}

// By the rows of a machine that has them.
impl<'data, I: Cursor> BufferSource for WordBoundaries<'data, I> {
    fn fill(&mut self, places: &mut [usize]) -> usize {
        if let WordBoundaries::NeoWithWords(engine) = self {
            return write_places_by_batches(engine, places);
        }
        if let WordBoundaries::Neo(engine) = self {
            if let Some(count) = engine.fill(places) {
                return count;
            }
        }
        write_places(self, places)
    }

    fn fill_both(&mut self, places: &mut [usize], statuses: &mut [u8]) -> usize {
        if let WordBoundaries::NeoWithWords(engine) = self {
            return write_both_by_batches(engine, places, statuses);
        }
        if let WordBoundaries::Neo(engine) = self {
            if let Some(count) = engine.fill_both(places, statuses) {
                return count;
            }
        }
        write_both(self, places, statuses)
    }
}
