//! Words: the places between which a text's words stand, and which of what stands between two is a word (UAX #29).

ghost use Rattle.std.specs.Prelude.{◌≡◌, ◌≢◌, ◌↔◌, length, min, None, IfOk, IfErr, IsTrue};
ghost use Rattle.std.specs.Iterator.{YieldsFirst, item_count};
ghost use Rattle.seg_text.specs.Items.{start_of};
ghost use Rattle.seg_text.specs.Decoding.{latin1, utf8, utf16};
ghost use Rattle.seg_text.specs.Boundaries.{IsCover};
ghost use Rattle.seg_text.specs.Filled.{WritesBoth, WritesPlaces};
ghost use Rattle.seg_data.specs.Faults.{IsFaultless, IsLowestFault};
ghost use Rattle.seg_pairs.specs.PairTable.{table_in};
ghost use Rattle.seg_clusters.specs.Rules.{HasRows, machine_in};
ghost use Rattle.seg_memo.specs.Memos.{IsMemoRefusal, IsNewMemo};
ghost use Rattle.seg_data.specs.ScriptWords.{filled, borrowed_words, no_words, script_words};
ghost use Rattle.seg_words.specs.WordRules.{HasCertainWords, WordsAreCertain, WordsResetAfter, is_word_like, machine_words, table_words, type_of, with_words, word_boundaries_of};
ghost use Rattle.seg_words.specs.Words.{word_rules};
ghost use Rattle.seg_words.specs.declared.word.WordType.TheVariants.{None as NoWord};

use crate::boundaries::{WordBoundaries, boundaries};
use crate::data::{check_machine, word_pairs};
use seg_clusters::complex::ComplexPayloadsBorrowed;
use seg_clusters::engine::{Engine, OwnedEngine};
use seg_clusters::grapheme::{GraphemeClusterSegmenter, GraphemeClusterSegmenterBorrowed};
use seg_clusters::spans::{begins_span, is_outside_runs};
use seg_data::dictionaries::{Dictionaries, DictionariesBorrowed};
use seg_data::provider::{DataError, LanguageIdentifier};
use seg_machine::provider::SegmenterStateMachine;
use seg_machine::tailored_machine::{TailoredMachine, TailoredMachineBorrowed};
use seg_memo::memo::{MemoBreakIterator, MemoError};
use seg_memo::reader::CountedTransitions;
use seg_pairs::pair_data::{PairData, PairDataBorrowed};
use seg_pairs::provider::{RuleBreakData, RuleBreakDataOverride};
use seg_text::cursor::Cursor;
use seg_text::indices::{Latin1Indices, StrCharIndices, Utf8CharIndices, Utf16Indices};
use seg_text::reach::HintedBoundaries;
use std::alloc::{AllocError, Global};
use std::fmt;

/// The options of words that no language changes: none today.
#[derive(Clone, Copy, Debug, Default, PartialEq, Eq)]
pub struct WordBreakInvariantOptions {}

/// The options of words.
#[derive(Clone, Copy, Debug, Default, PartialEq, Eq)]
pub struct WordBreakOptions<'a> {
    /// The language of the text. What a language changes is passed in with the data, so that
    /// this isn't looked at.
    pub content_locale: Option<&'a LanguageIdentifier>,
    /// The options that no language changes.
    pub invariant_options: WordBreakInvariantOptions,
}

/// What ends at a boundary.
#[derive(Clone, Copy, Debug, PartialEq, Eq)]
pub enum WordType {
    /// No word: spaces, punctuation and the like.
    None = 0,
    /// A number.
    Number = 1,
    /// A word of letters, or of characters that are words.
    Letter = 2,
}

impl WordType {
    /// Whether it is a word: a number or one of letters.
    pub fn is_word_like(&self) -> bool
        ensures { result ≡ is_word_like self.now }
    {
        match self {
            WordType::None => false,
            WordType::Number | WordType::Letter => true,
        }
    }
}

/// The type of what ends at a boundary with this status: `None` of 0, `Number` of 1 and `Letter` of any other.
pub fn type_of(status: u8) -> WordType
    ensures { result ≡ type_of status }
{
    match status {
        0 => WordType::None,
        1 => WordType::Number,
        _ => WordType::Letter,
    }
}

/// The boundaries of words in a text, as places: bytes in str, UTF-8 and Latin-1,
/// 16-bit units in UTF-16.
///
/// First 0, then each place where a word, or what stands between words, ends; the last is the text's length. After None
/// it stays None.
pub struct WordBreakIterator<'data, I: Cursor> {
    boundaries: HintedBoundaries<WordBoundaries<'data, I>>,
    segmenter: WordSegmenterBorrowed<'data>,
    whole: I,
}

impl<'data, I: Cursor> fmt::Debug for WordBreakIterator<'data, I> {
    fn fmt<W: fmt::Write>(&self, f: &mut fmt::Formatter<W>) -> fmt::Result {
        f.write_str("WordBreakIterator { .. }")
    }
}

impl<'data, I: Cursor> Drop for WordBreakIterator<'data, I> {
    fn drop(self) {
        let WordBreakIterator {
            boundaries: _,
            segmenter: _,
            whole: _,
        } = self;
    }
}

impl<'data, I: Cursor> WordBreakIterator<'data, I> {
    ghost use Rattle.seg_words.specs.Words.{with_types, word_finder, word_type, words_left, words_source, typed_places};

    /// The type of what ends at the boundary that was given last: that of its status. `None` before the first `next`, at
    /// the text's start and after the end.
    pub fn word_type(&self) -> WordType
        ensures { result ≡ word_type self.now }
    {
        type_of(self.boundaries.status())
    }

    /// Whether a word ends at the boundary that was given last: its type isn't `None`.
    pub fn is_word_like(&self) -> bool
        ensures { result ≡ is_word_like (word_type self.now) }
    {
        self.word_type().is_word_like()
    }

    /// The boundaries that are left, each with the type of what ends there.
    pub fn iter_with_word_type(self) -> WordBreakIteratorWithWordType<'data, I>
        ensures { typed_places result ≡ with_types (words_left self.entry) }
    {
        WordBreakIteratorWithWordType { words: self }
    }

    /// A cursor at the start of the whole text, whatever was given of its boundaries. Takes no memory.
    pub fn source(&self) -> I
        ensures { result ≡ words_source self.now }
    {
        self.whole.fork()
    }

    /// The boundaries of the whole text, whatever was given of them, where no configuration of the machine is looked up
    /// twice. Of several refusals that with the lowest number: `NotNeo` by a pair table, `HasDictionary` where some script has
    /// one, `TooLarge` where there are more configurations than the greatest `usize`, all without asking for memory. `Memory`
    /// where there is no other, but the one growth was refused.
    pub fn with_memo(
        &self,
        alloc: Global,
    ) -> Result<MemoBreakIterator<'data, I, CountedTransitions<'data>>, MemoError>
        ensures words { IfOk result (λ _. (word_finder self.now).payloads.words ≡ no_words) }
        ensures made { IfOk result (IsNewMemo (machine_in (word_finder self.now).rules) (I.text (words_source self.now))
            (word_boundaries_of (word_finder self.now) (I.text (words_source self.now)))) }
        ensures rejected { IfErr result (IsMemoRefusal (machine_in (word_finder self.now).rules) ((word_finder self.now).payloads.words ≢ no_words) (I.text (words_source self.now))) }
    {
        let text = self.whole.fork();
        self.segmenter
            .payloads
            .memoised(alloc, self.segmenter.engine, text)
    }

    /// Writes the places of the next boundaries over the first of `places`, as many as there are and there is room for, and returns how
    /// many. The next call goes on behind them. Takes no memory.
    pub fn fill(&mut self, places: &mut [usize]) -> usize
        ensures written { WritesPlaces self.old.boundaries self.new.boundaries places.old places.new result }
        ensures source { (word_finder self.new ≡ word_finder self.old) × (words_source self.new ≡ words_source self.old) }
    {
        self.boundaries.fill(places)
    }

    /// Writes the places of the next boundaries and their statuses, as many as both buffers have room for, as `fill` does.
    pub fn fill_both(&mut self, places: &mut [usize], statuses: &mut [u8]) -> usize
        ensures written { WritesBoth (min (length places.old) (length statuses.old)) self.old.boundaries self.new.boundaries
            places.old places.new statuses.old statuses.new result }
        ensures source { (word_finder self.new ≡ word_finder self.old) × (words_source self.new ≡ words_source self.old) }
    {
        self.boundaries.fill_both(places, statuses)
    }

    // What is left of the boundaries, once more.
    fn fork(&self) -> Self
        ensures { result ≡ self.now }
    {
        WordBreakIterator {
            boundaries: self.boundaries.fork(),
            segmenter: self.segmenter,
            whole: self.whole.fork(),
        }
    }
}

impl<'data, I: Cursor> Clone for WordBreakIterator<'data, I> {
    ghost use Rattle.std.specs.Prelude.{⊤};

    ghost is_clone = { λ s r. r ≡ s };

    ghost is_infallible = { λ _. ⊤ };

    fn clone(&self) -> Result<Self, AllocError> {
        Ok(self.fork())
    }
}

impl<'data, I: Cursor> Iterator for WordBreakIterator<'data, I> {
    ghost use Rattle.std.specs.Prelude.{⊤};
    ghost use Rattle.std.specs.Iterator.{MakesProgress};
    ghost use Rattle.seg_text.specs.Boundaries.{GivesNext};
    ghost use Rattle.seg_words.specs.Words.{word_finder, word_places, words_source};

    type Item = usize;

    ghost next_gives = { YieldsFirst word_places };

    ghost remaining = { item_count word_places };

    #[inline(always)]
    fn next(&mut self) -> Option<usize>
        ensures steps { YieldsFirst word_places self.old result self.new × GivesNext self.old.boundaries result self.new.boundaries
            × (word_finder self.new ≡ word_finder self.old) × (words_source self.new ≡ words_source self.old) }
        ensures goes { MakesProgress (λ _. ⊤) (item_count word_places) self.old result self.new }
    {
        self.boundaries.next()
    }

    #[inline(always)]
    fn size_hint(&self) -> (usize, Option<usize>) {
        self.boundaries.size_hint()
    }
}

/// The boundaries of words in a text, each as its place and the type of what ends there.
pub struct WordBreakIteratorWithWordType<'data, I: Cursor> {
    words: WordBreakIterator<'data, I>,
}

impl<'data, I: Cursor> fmt::Debug for WordBreakIteratorWithWordType<'data, I> {
    fn fmt<W: fmt::Write>(&self, f: &mut fmt::Formatter<W>) -> fmt::Result {
        f.write_str("WordBreakIteratorWithWordType { .. }")
    }
}

impl<'data, I: Cursor> Drop for WordBreakIteratorWithWordType<'data, I> {
    fn drop(self) {
        let WordBreakIteratorWithWordType { words: _ } = self;
    }
}

impl<'data, I: Cursor> Clone for WordBreakIteratorWithWordType<'data, I> {
    ghost use Rattle.std.specs.Prelude.{⊤};

    ghost is_clone = { λ s r. r ≡ s };

    ghost is_infallible = { λ _. ⊤ };

    fn clone(&self) -> Result<Self, AllocError> {
        Ok(WordBreakIteratorWithWordType {
            words: self.words.fork(),
        })
    }
}

impl<'data, I: Cursor> Iterator for WordBreakIteratorWithWordType<'data, I> {
    ghost use Rattle.seg_words.specs.Words.{typed_places};

    type Item = (usize, WordType);

    ghost next_gives = { YieldsFirst typed_places };

    ghost remaining = { item_count typed_places };

    #[inline(always)]
    fn next(&mut self) -> Option<(usize, WordType)> {
        match self.words.next() {
            Some(place) => Some((place, self.words.word_type())),
            None => None,
        }
    }

    #[inline(always)]
    fn size_hint(&self) -> (usize, Option<usize>) {
        self.words.size_hint()
    }
}

/// Finds words with data that it owns.
pub struct WordSegmenter {
    engine: OwnedEngine,
    clusters: GraphemeClusterSegmenter,
    dictionaries: Dictionaries,
}

impl fmt::Debug for WordSegmenter {
    fn fmt<W: fmt::Write>(&self, f: &mut fmt::Formatter<W>) -> fmt::Result {
        f.write_str("WordSegmenter { .. }")
    }
}

// Written out, so that it is proved here and not in each function that drops one.
impl Drop for WordSegmenter {
    fn drop(self) {
        let WordSegmenter {
            engine: _,
            clusters: _,
            dictionaries: _,
        } = self;
    }
}

impl WordSegmenter {
    ghost use Rattle.seg_words.specs.Words.{owned_word_rules, HasWordTableFault, HasWordMachineFault};

    /// A segmenter by a pair table and its override, if there is one; a run of complex characters (those of the class `complex_property`)
    /// is cut after each of its pieces of one script, until dictionaries are loaded. The pair table of clusters says where the words of
    /// these may end. Of several faults the one with the lowest number is given. `ClassOutOfRange`: the override names a class that the
    /// table lacks. `StartRowKeeps`: no boundary stands between the start of the text and some class of code points, in words or in
    /// clusters. `ComplexItems`: some code points are complex in clusters. `ComplexBelow0100`: one below U+0100 is in words. The options
    /// change nothing. Takes no memory.
    pub fn try_new_for_non_complex_scripts(
        table: RuleBreakData,
        overriding: Option<RuleBreakDataOverride>,
        clusters: RuleBreakData,
        options: WordBreakOptions<'_>,
    ) -> Result<Self, DataError>
        ensures accepted { IfOk result (λ segmenter. (owned_word_rules segmenter ≡ table_words table overriding clusters no_words)
            × IsFaultless (HasWordTableFault table overriding clusters)) }
        ensures rejected { IfErr result (IsLowestFault (HasWordTableFault table overriding clusters)) }
    {
        let _ = options;
        let _pairs = word_pairs(&table, overriding.as_ref(), &clusters)?;
        Ok(WordSegmenter {
            engine: OwnedEngine::Classic(PairData::try_new(table, overriding)?),
            clusters: GraphemeClusterSegmenter::try_new(clusters)?,
            dictionaries: Dictionaries::none(),
        })
    }

    /// A segmenter by a pair table with dictionaries: each piece of a script that has one is cut by its words. The faults are those without dictionaries.
    pub fn try_new_dictionary(
        table: RuleBreakData,
        overriding: Option<RuleBreakDataOverride>,
        clusters: RuleBreakData,
        dictionaries: Dictionaries,
        options: WordBreakOptions<'_>,
    ) -> Result<Self, DataError>
        ensures accepted { IfOk result (λ segmenter. (owned_word_rules segmenter ≡ table_words table overriding clusters (script_words dictionaries))
            × IsFaultless (HasWordTableFault table overriding clusters)) }
        ensures rejected { IfErr result (IsLowestFault (HasWordTableFault table overriding clusters)) }
    {
        let mut segmenter = Self::try_new_for_non_complex_scripts(
            table, overriding, clusters, options,
        )?;
        segmenter.load_dictionary(dictionaries);
        Ok(segmenter)
    }

    /// Takes the dictionaries of scripts that have none yet. Those that are there stay. Takes no memory.
    pub fn load_dictionary(&mut self, dictionaries: Dictionaries)
        ensures { owned_word_rules self.new ≡ with_words (owned_word_rules self.old) (filled (owned_word_rules self.old).payloads.words (script_words dictionaries)) }
    {
        self.dictionaries.fill(dictionaries);
    }

    /// A segmenter by a state machine. Once dictionaries are loaded, a run of a script that has one (by the machine's map) is cut by its
    /// words, which end with the clusters of the pair table, and each piece between runs is segmented by the machine as a text of its own.
    /// Of several faults the one with the lowest number is given. `StartRowKeeps`: no boundary stands between the start of the text and
    /// some class of code points in clusters. `ComplexItems`: some code points are complex in clusters. `ComplexBelow0100`: one below
    /// U+0100 has a script by the machine. The options change nothing. Takes no memory.
    pub fn try_new_neo_for_non_complex_scripts(
        machine: SegmenterStateMachine,
        clusters: RuleBreakData,
        options: WordBreakOptions<'_>,
    ) -> Result<Self, DataError>
        ensures accepted { IfOk result (λ segmenter. (owned_word_rules segmenter ≡ machine_words machine clusters no_words)
            × IsFaultless (HasWordMachineFault machine clusters)) }
        ensures rejected { IfErr result (IsLowestFault (HasWordMachineFault machine clusters)) }
    {
        let _ = options;
        check_machine(&machine, &clusters)?;
        Ok(WordSegmenter {
            engine: OwnedEngine::Neo(TailoredMachine::without_tailoring(machine)),
            clusters: GraphemeClusterSegmenter::try_new(clusters)?,
            dictionaries: Dictionaries::none(),
        })
    }

    /// Makes the dense rows of its machine, by which `fill` and what stands on it find boundaries faster; by a pair table there is nothing to
    /// make. Fails only when out of memory: then it stays as it was.
    pub fn make_rows(&mut self, alloc: Global) -> Result<(), AllocError>
        ensures rules { owned_word_rules self.new ≡ owned_word_rules self.old }
        ensures made { IfOk result (λ _. HasRows self.new.engine) }
        ensures kept { IfErr result (λ _. self.new ≡ self.old) }
    {
        self.engine.make_rows(alloc)
    }

    /// This segmenter over borrowed data, which segments texts.
    pub fn as_borrowed(&self) -> WordSegmenterBorrowed<'_>
        ensures { word_rules result ≡ owned_word_rules self.now }
    {
        WordSegmenterBorrowed {
            engine: self.engine.as_borrowed(),
            payloads: ComplexPayloadsBorrowed::new(
                self.dictionaries.as_borrowed(),
                self.clusters.as_borrowed(),
            ),
        }
    }
}

/// Finds words with data that it borrows.
///
/// With the sample data (`bench::words`), where letters and digits are words:
///
/// ```text
/// segmenter.segment_str("one 42.")                  0 3 4 6 7      in bytes
///     their types, by `word_type`                   None, Letter, None, Number, None
/// segmenter.segment_str("")                         0
/// ```
#[derive(Clone, Copy)]
pub struct WordSegmenterBorrowed<'data> {
    pub(crate) engine: Engine<'data>,
    pub(crate) payloads: ComplexPayloadsBorrowed<'data>,
}

impl<'data> fmt::Debug for WordSegmenterBorrowed<'data> {
    fn fmt<W: fmt::Write>(&self, f: &mut fmt::Formatter<W>) -> fmt::Result {
        f.write_str("WordSegmenterBorrowed { .. }")
    }
}

impl<'data> WordSegmenterBorrowed<'data> {
    ghost use Rattle.seg_words.specs.Words.{word_finder, words_left, words_source, word_type, HasWordTableFault, HasWordMachineFault};

    /// What `WordSegmenter::try_new_for_non_complex_scripts` makes, over borrowed data. The faults are the same. Takes no memory.
    pub fn new_for_non_complex_scripts(
        table: &'data RuleBreakData,
        overriding: Option<&'data RuleBreakDataOverride>,
        clusters: &'data RuleBreakData,
        options: WordBreakInvariantOptions,
    ) -> Result<Self, DataError>
        ensures accepted { IfOk result (λ segmenter. (word_rules segmenter ≡ table_words table.now (table_in overriding.entry) clusters.now no_words)
            × IsFaultless (HasWordTableFault table.now (table_in overriding.entry) clusters.now)) }
        ensures rejected { IfErr result (IsLowestFault (HasWordTableFault table.now (table_in overriding.entry) clusters.now)) }
    {
        let none = DictionariesBorrowed::none();
        Self::new_dictionary(table, overriding, clusters, none, options)
    }

    /// A segmenter by a pair table with dictionaries: each piece of a script that has one is cut by its words. The faults are those without dictionaries.
    pub fn new_dictionary(
        table: &'data RuleBreakData,
        overriding: Option<&'data RuleBreakDataOverride>,
        clusters: &'data RuleBreakData,
        dictionaries: DictionariesBorrowed<'data>,
        options: WordBreakInvariantOptions,
    ) -> Result<Self, DataError>
        ensures accepted { IfOk result (λ segmenter. (word_rules segmenter ≡ table_words table.now (table_in overriding.entry) clusters.now (borrowed_words dictionaries.entry))
            × IsFaultless (HasWordTableFault table.now (table_in overriding.entry) clusters.now)) }
        ensures rejected { IfErr result (IsLowestFault (HasWordTableFault table.now (table_in overriding.entry) clusters.now)) }
    {
        let _ = options;
        let pairs = word_pairs(table, overriding, clusters)?;
        let clusters = GraphemeClusterSegmenterBorrowed::new(clusters)?;
        Ok(WordSegmenterBorrowed {
            engine: Engine::Classic(pairs),
            payloads: ComplexPayloadsBorrowed::new(dictionaries, clusters),
        })
    }

    /// Takes the dictionaries of scripts that have none yet. Those that are there stay. Takes no memory.
    pub fn load_dictionary(&mut self, dictionaries: DictionariesBorrowed<'data>)
        ensures { word_rules self.new ≡ with_words (word_rules self.old) (filled (word_rules self.old).payloads.words (borrowed_words dictionaries.entry)) }
    {
        self.payloads.load(dictionaries);
    }

    /// What `WordSegmenter::try_new_neo_for_non_complex_scripts` makes, over borrowed data. The faults are the same. Takes no memory.
    pub fn new_neo_for_non_complex_scripts(
        machine: &'data SegmenterStateMachine,
        clusters: &'data RuleBreakData,
        options: WordBreakInvariantOptions,
    ) -> Result<Self, DataError>
        ensures accepted { IfOk result (λ segmenter. (word_rules segmenter ≡ machine_words machine.now clusters.now no_words)
            × IsFaultless (HasWordMachineFault machine.now clusters.now)) }
        ensures rejected { IfErr result (IsLowestFault (HasWordMachineFault machine.now clusters.now)) }
    {
        let _ = options;
        check_machine(machine, clusters)?;
        Ok(WordSegmenterBorrowed {
            engine: Engine::Neo(TailoredMachineBorrowed::without_tailoring(machine)),
            payloads: ComplexPayloadsBorrowed::new(
                DictionariesBorrowed::none(),
                GraphemeClusterSegmenterBorrowed::new(clusters)?,
            ),
        })
    }

    /// Whether a text may be split after the code point, so that each part has the boundaries that it has alone, with their types
    /// (`laws::parts_behind_resets`). A scan of the machine that reads the code point's symbol is then over there, from whatever state. And
    /// the code point has no script that has a dictionary here, so that no run goes over it. By a pair table it is `false`. Takes no
    /// memory; asks the machine for at most as many steps as it has transitions.
    pub fn resets_after(self, code_point: char) -> bool
        ensures { IsTrue result ↔ WordsResetAfter (word_rules self.entry) code_point }
    {
        match self.engine {
            Engine::Classic(_) => false,
            Engine::Neo(machine) => {
                self.engine.resets_after(code_point)
                    && is_outside_runs(machine, self.payloads.dictionaries, code_point as u32)
            }
        }
    }

    /// Whether places may be certain (`always_breaks`), as by a machine.
    pub fn has_certain_places(self) -> bool
        ensures { IsTrue result ↔ HasCertainWords (word_rules self.entry) }
    {
        self.engine.has_certain_places()
    }

    /// Whether each text that has these three code points one after another has a boundary between the last two
    /// (`laws::certain_places`). So it is by a machine where another span begins there, as where a run begins or ends whose script has a
    /// dictionary here; or where no scan passes there and none of the three stands in such a run. By a pair table it is `false`. Takes no
    /// memory.
    pub fn always_breaks(self, before: u32, one: u32, other: u32) -> bool
        ensures { IsTrue result ↔ WordsAreCertain (word_rules self.entry) before one other }
    {
        match self.engine {
            Engine::Classic(_) => false,
            Engine::Neo(_) if self.payloads.dictionaries.is_empty() => self
                .engine
                .always_breaks(before, one, other),
            Engine::Neo(machine) => {
                let dictionaries = self.payloads.dictionaries;
                begins_span(machine, dictionaries, one, other)
                    || (self.engine.always_breaks(before, one, other)
                        && is_outside_runs(machine, dictionaries, before)
                        && is_outside_runs(machine, dictionaries, one)
                        && is_outside_runs(machine, dictionaries, other))
            }
        }
    }

    /// The boundaries of the words of what a cursor has still to read, each with its type, as places in the text's units. Takes no memory.
    pub fn segment<I: Cursor>(self, text: I) -> WordBreakIterator<'data, I>
        ensures boundaries { words_left result ≡ word_boundaries_of (word_rules self.entry) (I.text text) }
        ensures source { (word_finder result ≡ word_rules self.entry) × (words_source result ≡ text) }
        ensures cover { IsCover (start_of (I.text text)) (I.text text).end (words_left result) }
        ensures kind { word_type result ≡ NoWord }
    {
        WordBreakIterator {
            boundaries: boundaries(self.engine, self.payloads, text.fork()),
            segmenter: self,
            whole: text,
        }
    }

    /// The boundaries of the words of a `str`, in bytes: those of its bytes as UTF-8, each with its type. Takes no memory.
    pub fn segment_str<'s>(self, input: &'s str) -> WordBreakIterator<'data, StrCharIndices<'s>>
        ensures boundaries { words_left result ≡ word_boundaries_of (word_rules self.entry) (utf8 input.now) }
        ensures source { (word_finder result ≡ word_rules self.entry) × (words_source result ≡ record { place = 0; units = input.now }) }
        ensures cover { IsCover 0 (length input.now) (words_left result) }
        ensures kind { word_type result ≡ NoWord }
    {
        self.segment(StrCharIndices::new(input))
    }

    /// The boundaries of the words of possibly ill-formed UTF-8, in bytes. Each longest beginning of a
    /// well-formed sequence that isn't one counts as U+FFFD (Unicode Table 3-7). Takes no memory.
    pub fn segment_utf8<'s>(self, input: &'s [u8]) -> WordBreakIterator<'data, Utf8CharIndices<'s>>
        ensures boundaries { words_left result ≡ word_boundaries_of (word_rules self.entry) (utf8 input.now) }
        ensures source { (word_finder result ≡ word_rules self.entry) × (words_source result ≡ record { place = 0; units = input.now }) }
        ensures cover { IsCover 0 (length input.now) (words_left result) }
        ensures kind { word_type result ≡ NoWord }
    {
        self.segment(Utf8CharIndices::new(input))
    }

    /// The boundaries of the words of Latin-1, in bytes. Takes no memory.
    pub fn segment_latin1<'s>(self, input: &'s [u8]) -> WordBreakIterator<'data, Latin1Indices<'s>>
        ensures boundaries { words_left result ≡ word_boundaries_of (word_rules self.entry) (latin1 input.now) }
        ensures source { (word_finder result ≡ word_rules self.entry) × (words_source result ≡ record { place = 0; units = input.now }) }
        ensures cover { IsCover 0 (length input.now) (words_left result) }
        ensures kind { word_type result ≡ NoWord }
    {
        self.segment(Latin1Indices::new(input))
    }

    /// The boundaries of the words of possibly ill-formed UTF-16, in 16-bit units. A surrogate that stands alone
    /// counts as itself. Takes no memory.
    pub fn segment_utf16<'s>(self, input: &'s [u16]) -> WordBreakIterator<'data, Utf16Indices<'s>>
        ensures boundaries { words_left result ≡ word_boundaries_of (word_rules self.entry) (utf16 input.now) }
        ensures source { (word_finder result ≡ word_rules self.entry) × (words_source result ≡ record { place = 0; units = input.now }) }
        ensures cover { IsCover 0 (length input.now) (words_left result) }
        ensures kind { word_type result ≡ NoWord }
    {
        self.segment(Utf16Indices::new(input))
    }
}
