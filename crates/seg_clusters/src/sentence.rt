//! The segmenters of sentences (UAX #29), by a pair table or by a machine.

ghost use Rattle.std.specs.Prelude.{◌≡◌, ◌↔◌, ℕ, List, length, min, IfOk, IfErr, IsTrue};
ghost use Rattle.std.specs.Iterator.{YieldsFirst, item_count};
ghost use Rattle.std.specs.Option.{option_map};
ghost use Rattle.seg_text.specs.Items.{start_of};
ghost use Rattle.seg_text.specs.Decoding.{latin1, utf8, utf16};
ghost use Rattle.seg_text.specs.Boundaries.{IsCover};
ghost use Rattle.seg_text.specs.Filled.{WritesBoth, WritesPlaces};
ghost use Rattle.seg_data.specs.Faults.{IsFaultless, IsLowestFault};
ghost use Rattle.seg_machine.specs.MachineFaults.{HasTailoringFault};
ghost use Rattle.seg_machine.specs.Machine.{with_tailoring};
ghost use Rattle.seg_pairs.specs.PairTable.{table_in};
ghost use Rattle.seg_pairs.specs.PairData.{HasPairDataFault};
ghost use Rattle.seg_clusters.specs.Certain.{AreCertain, IsByMachine};
ghost use Rattle.seg_clusters.specs.Rules.{HasRows, rules_of, ResetsAfter, boundaries_of, machine_in};
ghost use Rattle.seg_clusters.specs.Rules.Rules.{ByTable, ByMachine};
ghost use Rattle.seg_memo.specs.Memos.{IsMemoRefusal, IsNewMemo};

use crate::engine::{Boundaries, Engine, OwnedEngine};
use seg_data::provider::{DataError, LanguageIdentifier};
use seg_machine::provider::{SegmenterStateMachine, SegmenterStateMachineOverride};
use seg_machine::tailored_machine::{TailoredMachine, TailoredMachineBorrowed};
use seg_memo::memo::{MemoBreakIterator, MemoError};
use seg_memo::reader::CountedTransitions;
use seg_pairs::pair_data::{PairData, PairDataBorrowed};
use seg_pairs::provider::{RuleBreakData, RuleBreakDataOverride};
use seg_text::cursor::Cursor;
use seg_text::indices::{Latin1Indices, StrCharIndices, Utf8CharIndices, Utf16Indices};
use std::alloc::{AllocError, Global};
use std::fmt;

/// The options of sentences that no language changes: none today.
#[derive(Clone, Copy, Debug, Default, PartialEq, Eq)]
pub struct SentenceBreakInvariantOptions {}

/// The options of sentences.
#[derive(Clone, Copy, Debug, Default, PartialEq, Eq)]
pub struct SentenceBreakOptions<'a> {
    /// The language of the text. The tailoring of a language is passed in with the data, so that
    /// this isn't looked at.
    pub content_locale: Option<&'a LanguageIdentifier>,
    /// The options that no language changes.
    pub invariant_options: SentenceBreakInvariantOptions,
}

/// The boundaries of sentences in a text, as places: bytes in str, UTF-8 and Latin-1,
/// 16-bit units in UTF-16.
///
/// First 0, then the end of each sentence; the last is the text's length. After None it stays None.
pub struct SentenceBreakIterator<'data, I: Cursor> {
    boundaries: Boundaries<'data, I>,
    engine: Engine<'data>,
    whole: I,
}

impl<'data, I: Cursor> fmt::Debug for SentenceBreakIterator<'data, I> {
    fn fmt<W: fmt::Write>(&self, f: &mut fmt::Formatter<W>) -> fmt::Result {
        f.write_str("SentenceBreakIterator { .. }")
    }
}

impl<'data, I: Cursor> Drop for SentenceBreakIterator<'data, I> {
    fn drop(self) {
        let SentenceBreakIterator {
            boundaries: _,
            engine: _,
            whole: _,
        } = self;
    }
}

impl<'data, I: Cursor> SentenceBreakIterator<'data, I> {
    ghost use Rattle.seg_clusters.specs.Clusters.{sentence_finder, sentences_source};

    /// A cursor at the start of the whole text, whatever was given of its boundaries. Takes no memory.
    pub fn source(&self) -> I
        ensures { result ≡ sentences_source self.now }
    {
        self.whole.fork()
    }

    /// The boundaries of the whole text, whatever was given of them, where no configuration of the machine is looked up
    /// twice. `NotNeo` by a pair table, and otherwise `TooLarge` where there are more configurations than the greatest
    /// `usize`: both without asking for memory. `Memory` where the one growth was refused.
    pub fn with_memo(
        &self,
        alloc: Global,
    ) -> Result<MemoBreakIterator<'data, I, CountedTransitions<'data>>, MemoError>
        ensures made { IfOk result (IsNewMemo (machine_in (sentence_finder self.now)) (I.text (sentences_source self.now))
            (boundaries_of (sentence_finder self.now) (I.text (sentences_source self.now)))) }
        ensures rejected { IfErr result (IsMemoRefusal (machine_in (sentence_finder self.now)) ⊥ (I.text (sentences_source self.now))) }
    {
        self.engine.memoised(alloc, self.whole.fork())
    }

    /// Writes the places of the next boundaries over the first of `places`, as many as there are and there is room for, and returns how
    /// many. The next call goes on behind them. Takes no memory.
    pub fn fill(&mut self, places: &mut [usize]) -> usize
        ensures written { WritesPlaces self.old.boundaries self.new.boundaries places.old places.new result }
        ensures source { (sentence_finder self.new ≡ sentence_finder self.old) × (sentences_source self.new ≡ sentences_source self.old) }
    {
        self.boundaries.fill(places)
    }

    /// Writes the places of the next boundaries and their statuses, as many as both buffers have room for, as `fill` does.
    pub fn fill_both(&mut self, places: &mut [usize], statuses: &mut [u8]) -> usize
        ensures written { WritesBoth (min (length places.old) (length statuses.old)) self.old.boundaries self.new.boundaries
            places.old places.new statuses.old statuses.new result }
        ensures source { (sentence_finder self.new ≡ sentence_finder self.old) × (sentences_source self.new ≡ sentences_source self.old) }
    {
        self.boundaries.fill_both(places, statuses)
    }
}

impl<'data, I: Cursor> Clone for SentenceBreakIterator<'data, I> {
    ghost use Rattle.std.specs.Prelude.{⊤};

    ghost is_clone = { λ s r. r ≡ s };

    ghost is_infallible = { λ _. ⊤ };

    fn clone(&self) -> Result<Self, AllocError> {
        Ok(SentenceBreakIterator {
            boundaries: self.boundaries.fork(),
            engine: self.engine,
            whole: self.whole.fork(),
        })
    }
}

impl<'data, I: Cursor> Iterator for SentenceBreakIterator<'data, I> {
    ghost use Rattle.std.specs.Prelude.{⊤};
    ghost use Rattle.std.specs.Iterator.{MakesProgress};
    ghost use Rattle.seg_clusters.specs.Clusters.{sentence_finder, sentences_places, sentences_source};

    type Item = usize;

    ghost next_gives = { YieldsFirst sentences_places };

    ghost remaining = { item_count sentences_places };

    #[inline(always)]
    fn next(&mut self) -> Option<usize>
        ensures steps { YieldsFirst sentences_places self.old result self.new
            × (sentence_finder self.new ≡ sentence_finder self.old) × (sentences_source self.new ≡ sentences_source self.old) }
        ensures goes { MakesProgress (λ _. ⊤) (item_count sentences_places) self.old result self.new }
    {
        self.boundaries.next()
    }

    #[inline(always)]
    fn size_hint(&self) -> (usize, Option<usize>) {
        self.boundaries.size_hint()
    }
}

/// Finds sentences with data that it owns.
pub struct SentenceSegmenter {
    engine: OwnedEngine,
}

impl fmt::Debug for SentenceSegmenter {
    fn fmt<W: fmt::Write>(&self, f: &mut fmt::Formatter<W>) -> fmt::Result {
        f.write_str("SentenceSegmenter { .. }")
    }
}

// Written out, so that it is proved here and not in each function that drops one.
impl Drop for SentenceSegmenter {
    fn drop(self) {
        let SentenceSegmenter { engine: _ } = self;
    }
}

impl SentenceSegmenter {
    ghost use Rattle.seg_clusters.specs.Clusters.{sentence_rules, owned_sentence_rules};

    /// A segmenter by a pair table and its override, if there is one. Of several faults that with
    /// the lowest number: `ClassOutOfRange` where the override names a class that the table lacks,
    /// `StartRowKeeps` where no boundary stands between the start of the text and some class of
    /// code points, `ComplexItems` where some code points are complex. The options change nothing. Takes no memory.
    pub fn try_new(
        table: RuleBreakData,
        overriding: Option<RuleBreakDataOverride>,
        options: SentenceBreakOptions<'_>,
    ) -> Result<Self, DataError>
        ensures accepted { IfOk result (λ segmenter. (owned_sentence_rules segmenter ≡ ByTable table overriding)
            × IsFaultless (HasPairDataFault table overriding)) }
        ensures rejected { IfErr result (IsLowestFault (HasPairDataFault table overriding)) }
    {
        let _ = options;
        Ok(SentenceSegmenter {
            engine: OwnedEngine::Classic(PairData::try_plain(table, overriding)?),
        })
    }

    /// A segmenter by a state machine and its tailoring, if there is one. `SymbolOutOfRange` where
    /// the tailoring doesn't fit the machine. The options change nothing. Takes no memory.
    pub fn try_new_neo(
        machine: SegmenterStateMachine,
        tailoring: Option<SegmenterStateMachineOverride>,
        options: SentenceBreakOptions<'_>,
    ) -> Result<Self, DataError>
        ensures accepted { IfOk result (λ segmenter. (owned_sentence_rules segmenter ≡ ByMachine (with_tailoring machine tailoring))
            × IsFaultless (HasTailoringFault machine tailoring)) }
        ensures rejected { IfErr result (IsLowestFault (HasTailoringFault machine tailoring)) }
    {
        let _ = options;
        Ok(SentenceSegmenter {
            engine: OwnedEngine::Neo(TailoredMachine::try_new(machine, tailoring)?),
        })
    }

    /// Makes the dense rows of its machine, by which `fill` and what stands on it find boundaries faster; by a pair table there is nothing to
    /// make. Fails only when out of memory: then it stays as it was.
    pub fn make_rows(&mut self, alloc: Global) -> Result<(), AllocError>
        ensures rules { owned_sentence_rules self.new ≡ owned_sentence_rules self.old }
        ensures made { IfOk result (λ _. HasRows self.new.engine) }
        ensures kept { IfErr result (λ _. self.new ≡ self.old) }
    {
        self.engine.make_rows(alloc)
    }

    /// This segmenter over borrowed data, which segments texts.
    pub fn as_borrowed(&self) -> SentenceSegmenterBorrowed<'_>
        ensures { sentence_rules result ≡ owned_sentence_rules self.now }
    {
        SentenceSegmenterBorrowed {
            engine: self.engine.as_borrowed(),
        }
    }
}

/// Finds sentences with data that it borrows.
///
/// With the sample data (`bench::sentences`), where a full stop and the spaces after it end a sentence:
///
/// ```text
/// segmenter.segment_str("Hi. Bye.")                     0 4 8      in bytes
/// segmenter.segment_str("")                             0
/// ```
#[derive(Clone, Copy)]
pub struct SentenceSegmenterBorrowed<'data> {
    pub(crate) engine: Engine<'data>,
}

impl<'data> fmt::Debug for SentenceSegmenterBorrowed<'data> {
    fn fmt<W: fmt::Write>(&self, f: &mut fmt::Formatter<W>) -> fmt::Result {
        f.write_str("SentenceSegmenterBorrowed { .. }")
    }
}

impl<'data> SentenceSegmenterBorrowed<'data> {
    ghost use Rattle.seg_clusters.specs.Clusters.{sentence_rules, sentence_finder, sentences_left, sentences_source};

    /// A segmenter by a pair table and its override, if there is one. Of several faults that with
    /// the lowest number: `ClassOutOfRange` where the override names a class that the table lacks,
    /// `StartRowKeeps` where no boundary stands between the start of the text and some class of
    /// code points, `ComplexItems` where some code points are complex. Takes no memory.
    pub fn new(
        table: &'data RuleBreakData,
        overriding: Option<&'data RuleBreakDataOverride>,
        options: SentenceBreakInvariantOptions,
    ) -> Result<Self, DataError>
        ensures accepted { IfOk result (λ segmenter. (sentence_rules segmenter ≡ ByTable table.now (table_in overriding.entry))
            × IsFaultless (HasPairDataFault table.now (table_in overriding.entry))) }
        ensures rejected { IfErr result (IsLowestFault (HasPairDataFault table.now (table_in overriding.entry))) }
    {
        let _ = options;
        Ok(SentenceSegmenterBorrowed {
            engine: Engine::Classic(PairDataBorrowed::try_plain(table, overriding)?),
        })
    }

    /// A segmenter by a state machine and its tailoring, if there is one. `SymbolOutOfRange` where
    /// the tailoring doesn't fit the machine. Takes no memory.
    pub fn new_neo(
        machine: &'data SegmenterStateMachine,
        tailoring: Option<&'data SegmenterStateMachineOverride>,
        options: SentenceBreakInvariantOptions,
    ) -> Result<Self, DataError>
        ensures accepted { IfOk result (λ segmenter. (sentence_rules segmenter ≡ ByMachine (with_tailoring machine.now (option_map (λ t. t.now) tailoring.entry)))
            × IsFaultless (HasTailoringFault machine.now (option_map (λ t. t.now) tailoring.entry))) }
        ensures rejected { IfErr result (IsLowestFault (HasTailoringFault machine.now (option_map (λ t. t.now) tailoring.entry))) }
    {
        let _ = options;
        Ok(SentenceSegmenterBorrowed {
            engine: Engine::Neo(TailoredMachineBorrowed::try_new(machine, tailoring)?),
        })
    }

    /// Whether a text may be split after the code point, so that each part has the boundaries that it has alone
    /// (`laws::sentence::parts_behind_resets`): a scan of the machine that reads the code point's symbol is over there, from
    /// whatever state. By a pair table it is `false`. Takes no memory; asks the machine for at most as many steps as it has
    /// transitions.
    pub fn resets_after(self, code_point: char) -> bool
        ensures { IsTrue result ↔ ResetsAfter (sentence_rules self.entry) code_point }
    {
        self.engine.resets_after(code_point)
    }

    /// Whether places may be certain (`always_breaks`), as by a machine.
    pub fn has_certain_places(self) -> bool
        ensures { IsTrue result ↔ IsByMachine (sentence_rules self.entry) }
    {
        self.engine.has_certain_places()
    }

    /// Whether each text that has these three code points one after another has a boundary between the last two
    /// (`laws::sentence::certain_places`), since no scan of the machine passes there. It is one look-up where the machine has rows, else it asks for
    /// at most three steps a state and three more. By a pair table it is `false`. Takes no memory.
    pub fn always_breaks(self, before: u32, one: u32, other: u32) -> bool
        ensures { IsTrue result ↔ AreCertain (sentence_rules self.entry) before one other }
    {
        self.engine.always_breaks(before, one, other)
    }

    /// The boundaries of the sentences of what a cursor has still to read, as places in the text's units. Takes no memory.
    pub fn segment<I: Cursor>(self, text: I) -> SentenceBreakIterator<'data, I>
        ensures boundaries { sentences_left result ≡ boundaries_of (sentence_rules self.entry) (I.text text) }
        ensures source { (sentence_finder result ≡ sentence_rules self.entry) × (sentences_source result ≡ text) }
        ensures cover { IsCover (start_of (I.text text)) (I.text text).end (sentences_left result) }
    {
        SentenceBreakIterator {
            boundaries: self.engine.boundaries(text.fork()),
            engine: self.engine,
            whole: text,
        }
    }

    /// The boundaries of the sentences of a `str`, in bytes: those of its bytes as UTF-8. Takes no memory.
    pub fn segment_str<'s>(self, input: &'s str) -> SentenceBreakIterator<'data, StrCharIndices<'s>>
        ensures boundaries { sentences_left result ≡ boundaries_of (sentence_rules self.entry) (utf8 input.now) }
        ensures source { (sentence_finder result ≡ sentence_rules self.entry) × (sentences_source result ≡ record { place = 0; units = input.now }) }
        ensures cover { IsCover 0 (length input.now) (sentences_left result) }
    {
        self.segment(StrCharIndices::new(input))
    }

    /// The boundaries of the sentences of possibly ill-formed UTF-8, in bytes. Each longest beginning of a
    /// well-formed sequence that isn't one counts as U+FFFD (Unicode Table 3-7). Takes no memory.
    pub fn segment_utf8<'s>(
        self,
        input: &'s [u8],
    ) -> SentenceBreakIterator<'data, Utf8CharIndices<'s>>
        ensures boundaries { sentences_left result ≡ boundaries_of (sentence_rules self.entry) (utf8 input.now) }
        ensures source { (sentence_finder result ≡ sentence_rules self.entry) × (sentences_source result ≡ record { place = 0; units = input.now }) }
        ensures cover { IsCover 0 (length input.now) (sentences_left result) }
    {
        self.segment(Utf8CharIndices::new(input))
    }

    /// The boundaries of the sentences of Latin-1, in bytes. Takes no memory.
    pub fn segment_latin1<'s>(
        self,
        input: &'s [u8],
    ) -> SentenceBreakIterator<'data, Latin1Indices<'s>>
        ensures boundaries { sentences_left result ≡ boundaries_of (sentence_rules self.entry) (latin1 input.now) }
        ensures source { (sentence_finder result ≡ sentence_rules self.entry) × (sentences_source result ≡ record { place = 0; units = input.now }) }
        ensures cover { IsCover 0 (length input.now) (sentences_left result) }
    {
        self.segment(Latin1Indices::new(input))
    }

    /// The boundaries of the sentences of possibly ill-formed UTF-16, in 16-bit units. A surrogate that stands alone
    /// counts as itself. Takes no memory.
    pub fn segment_utf16<'s>(
        self,
        input: &'s [u16],
    ) -> SentenceBreakIterator<'data, Utf16Indices<'s>>
        ensures boundaries { sentences_left result ≡ boundaries_of (sentence_rules self.entry) (utf16 input.now) }
        ensures source { (sentence_finder result ≡ sentence_rules self.entry) × (sentences_source result ≡ record { place = 0; units = input.now }) }
        ensures cover { IsCover 0 (length input.now) (sentences_left result) }
    {
        self.segment(Utf16Indices::new(input))
    }
}
