//! The segmenters of grapheme clusters (UAX #29), by a pair table or by a machine: what a reader takes for one character.

ghost use Rattle.std.specs.Prelude.{◌≡◌, ◌↔◌, ℕ, None, List, length, min, IfOk, IfErr, IsOkAnd, IsTrue};
ghost use Rattle.std.specs.Iterator.{YieldsFirst, item_count};
ghost use Rattle.seg_text.specs.Items.{start_of};
ghost use Rattle.seg_text.specs.Decoding.{latin1, utf8, utf16};
ghost use Rattle.seg_text.specs.Boundaries.{IsCover};
ghost use Rattle.seg_text.specs.Filled.{WritesBoth, WritesPlaces};
ghost use Rattle.seg_data.specs.Faults.{IsFaultless, IsLowestFault};
ghost use Rattle.seg_pairs.specs.PairData.{HasPairDataFault};
ghost use Rattle.seg_clusters.specs.Certain.{AreCertain, IsByMachine};
ghost use Rattle.seg_clusters.specs.Rules.{HasRows, rules_of, ResetsAfter, boundaries_of, machine_in};
ghost use Rattle.seg_clusters.specs.Rules.Rules.{ByTable, ByMachine};
ghost use Rattle.seg_memo.specs.Memos.{IsMemoRefusal, IsNewMemo};

use crate::engine::{Boundaries, Engine, OwnedEngine};
use seg_data::provider::DataError;
use seg_machine::provider::SegmenterStateMachine;
use seg_machine::tailored_machine::{TailoredMachine, TailoredMachineBorrowed};
use seg_memo::memo::{MemoBreakIterator, MemoError};
use seg_memo::reader::CountedTransitions;
use seg_pairs::pair_data::{PairData, PairDataBorrowed};
use seg_pairs::provider::RuleBreakData;
use seg_text::cursor::Cursor;
use seg_text::indices::{Latin1Indices, StrCharIndices, Utf8CharIndices, Utf16Indices};
use std::alloc::{AllocError, Global};
use std::fmt;

/// The boundaries of grapheme clusters in a text, as places: bytes in str, UTF-8 and Latin-1,
/// 16-bit units in UTF-16.
///
/// First 0, then the end of each cluster; the last is the text's length. After None it stays None.
pub struct GraphemeClusterBreakIterator<'data, I: Cursor> {
    boundaries: Boundaries<'data, I>,
    engine: Engine<'data>,
    whole: I,
}

impl<'data, I: Cursor> fmt::Debug for GraphemeClusterBreakIterator<'data, I> {
    fn fmt<W: fmt::Write>(&self, f: &mut fmt::Formatter<W>) -> fmt::Result {
        f.write_str("GraphemeClusterBreakIterator { .. }")
    }
}

impl<'data, I: Cursor> Drop for GraphemeClusterBreakIterator<'data, I> {
    fn drop(self) {
        let GraphemeClusterBreakIterator {
            boundaries: _,
            engine: _,
            whole: _,
        } = self;
    }
}

impl<'data, I: Cursor> GraphemeClusterBreakIterator<'data, I> {
    ghost use Rattle.seg_clusters.specs.Clusters.{cluster_finder, clusters_source};

    /// A cursor at the start of the whole text, whatever was given of its boundaries. Takes no memory.
    pub fn source(&self) -> I
        ensures { result ≡ clusters_source self.now }
    {
        self.whole.fork()
    }

    /// The boundaries of the whole text, whatever was given of them, where no configuration of the machine is looked up
    /// twice. `NotNeo` by a pair table, and otherwise `TooLarge` where there are more configurations than the greatest
    /// `usize`: both without asking for memory. `Memory` where the one growth was refused.
    pub fn with_memo(
        &self,
        alloc: Global,
    ) -> Result<MemoBreakIterator<'data, I, CountedTransitions<'data>>, MemoError>
        ensures made { IfOk result (IsNewMemo (machine_in (cluster_finder self.now)) (I.text (clusters_source self.now))
            (boundaries_of (cluster_finder self.now) (I.text (clusters_source self.now)))) }
        ensures rejected { IfErr result (IsMemoRefusal (machine_in (cluster_finder self.now)) ⊥ (I.text (clusters_source self.now))) }
    {
        self.engine.memoised(alloc, self.whole.fork())
    }

    /// Writes the places of the next boundaries over the first of `places`, as many as there are and there is room for, and returns how
    /// many. The next call goes on behind them. Takes no memory.
    pub fn fill(&mut self, places: &mut [usize]) -> usize
        ensures written { WritesPlaces self.old.boundaries self.new.boundaries places.old places.new result }
        ensures source { (cluster_finder self.new ≡ cluster_finder self.old) × (clusters_source self.new ≡ clusters_source self.old) }
    {
        self.boundaries.fill(places)
    }

    /// Writes the places of the next boundaries and their statuses, as many as both buffers have room for, as `fill` does.
    pub fn fill_both(&mut self, places: &mut [usize], statuses: &mut [u8]) -> usize
        ensures written { WritesBoth (min (length places.old) (length statuses.old)) self.old.boundaries self.new.boundaries
            places.old places.new statuses.old statuses.new result }
        ensures source { (cluster_finder self.new ≡ cluster_finder self.old) × (clusters_source self.new ≡ clusters_source self.old) }
    {
        self.boundaries.fill_both(places, statuses)
    }
}

impl<'data, I: Cursor> Clone for GraphemeClusterBreakIterator<'data, I> {
    ghost use Rattle.std.specs.Prelude.{⊤};

    ghost is_clone = { λ s r. r ≡ s };

    ghost is_infallible = { λ _. ⊤ };

    fn clone(&self) -> Result<Self, AllocError> {
        Ok(GraphemeClusterBreakIterator {
            boundaries: self.boundaries.fork(),
            engine: self.engine,
            whole: self.whole.fork(),
        })
    }
}

impl<'data, I: Cursor> Iterator for GraphemeClusterBreakIterator<'data, I> {
    ghost use Rattle.std.specs.Prelude.{⊤};
    ghost use Rattle.std.specs.Iterator.{MakesProgress};
    ghost use Rattle.seg_clusters.specs.Clusters.{cluster_finder, clusters_places, clusters_source};

    type Item = usize;

    ghost next_gives = { YieldsFirst clusters_places };

    ghost remaining = { item_count clusters_places };

    #[inline(always)]
    fn next(&mut self) -> Option<usize>
        ensures steps { YieldsFirst clusters_places self.old result self.new
            × (cluster_finder self.new ≡ cluster_finder self.old) × (clusters_source self.new ≡ clusters_source self.old) }
        ensures goes { MakesProgress (λ _. ⊤) (item_count clusters_places) self.old result self.new }
    {
        self.boundaries.next()
    }

    #[inline(always)]
    fn size_hint(&self) -> (usize, Option<usize>) {
        self.boundaries.size_hint()
    }
}

/// Finds grapheme clusters with data that it owns.
pub struct GraphemeClusterSegmenter {
    engine: OwnedEngine,
}

impl fmt::Debug for GraphemeClusterSegmenter {
    fn fmt<W: fmt::Write>(&self, f: &mut fmt::Formatter<W>) -> fmt::Result {
        f.write_str("GraphemeClusterSegmenter { .. }")
    }
}

// Written out, so that it is proved here and not in each function that drops one.
impl Drop for GraphemeClusterSegmenter {
    fn drop(self) {
        let GraphemeClusterSegmenter { engine: _ } = self;
    }
}

impl GraphemeClusterSegmenter {
    ghost use Rattle.seg_clusters.specs.Clusters.{cluster_rules, owned_cluster_rules};

    /// A segmenter by a pair table. `StartRowKeeps` where the table has no boundary between the
    /// start of the text and some class of code points, and otherwise `ComplexItems` where it has
    /// complex code points. Takes no memory.
    pub fn try_new(table: RuleBreakData) -> Result<Self, DataError>
        ensures accepted { IfOk result (λ segmenter. (owned_cluster_rules segmenter ≡ ByTable table None)
            × IsFaultless (HasPairDataFault table None)) }
        ensures rejected { IfErr result (IsLowestFault (HasPairDataFault table None)) }
    {
        Ok(GraphemeClusterSegmenter {
            engine: OwnedEngine::Classic(PairData::try_plain(table, None)?),
        })
    }

    /// A segmenter by a state machine. Takes no memory and rejects nothing.
    pub fn try_new_neo(machine: SegmenterStateMachine) -> Result<Self, DataError>
        ensures { IsOkAnd result (λ segmenter. owned_cluster_rules segmenter ≡ ByMachine machine) }
    {
        Ok(GraphemeClusterSegmenter {
            engine: OwnedEngine::Neo(TailoredMachine::without_tailoring(machine)),
        })
    }

    /// Makes the dense rows of its machine, by which `fill` and what stands on it find boundaries faster; by a pair table there is nothing to
    /// make. Fails only when out of memory: then it stays as it was.
    pub fn make_rows(&mut self, alloc: Global) -> Result<(), AllocError>
        ensures rules { owned_cluster_rules self.new ≡ owned_cluster_rules self.old }
        ensures made { IfOk result (λ _. HasRows self.new.engine) }
        ensures kept { IfErr result (λ _. self.new ≡ self.old) }
    {
        self.engine.make_rows(alloc)
    }

    /// This segmenter over borrowed data, which segments texts.
    pub fn as_borrowed(&self) -> GraphemeClusterSegmenterBorrowed<'_>
        ensures { cluster_rules result ≡ owned_cluster_rules self.now }
    {
        GraphemeClusterSegmenterBorrowed {
            engine: self.engine.as_borrowed(),
        }
    }
}

/// Finds grapheme clusters with data that it borrows.
///
/// With the sample data (`bench::clusters`), where U+0301 extends a cluster, `e\u{301}a` has the clusters `e\u{301}` and `a`:
///
/// ```text
/// segmenter.segment_str("e\u{301}a")                    0 3 4      in bytes
/// segmenter.segment_utf16(&[0x65, 0x301, 0x61])         0 2 3      in 16-bit units
/// segmenter.segment_str("")                             0
/// ```
#[derive(Clone, Copy)]
pub struct GraphemeClusterSegmenterBorrowed<'data> {
    pub(crate) engine: Engine<'data>,
}

impl<'data> fmt::Debug for GraphemeClusterSegmenterBorrowed<'data> {
    fn fmt<W: fmt::Write>(&self, f: &mut fmt::Formatter<W>) -> fmt::Result {
        f.write_str("GraphemeClusterSegmenterBorrowed { .. }")
    }
}

impl<'data> GraphemeClusterSegmenterBorrowed<'data> {
    ghost use Rattle.seg_clusters.specs.Clusters.{cluster_rules, cluster_finder, clusters_left, clusters_source};

    /// A segmenter by a pair table. `StartRowKeeps` where the table has no boundary between the
    /// start of the text and some class of code points, and otherwise `ComplexItems` where it has
    /// complex code points. Takes no memory.
    pub fn new(table: &'data RuleBreakData) -> Result<Self, DataError>
        ensures accepted { IfOk result (λ segmenter. (cluster_rules segmenter ≡ ByTable table.now None)
            × IsFaultless (HasPairDataFault table.now None)) }
        ensures rejected { IfErr result (IsLowestFault (HasPairDataFault table.now None)) }
    {
        Ok(GraphemeClusterSegmenterBorrowed {
            engine: Engine::Classic(PairDataBorrowed::try_plain(table, None)?),
        })
    }

    /// A segmenter by a state machine. Takes no memory and rejects nothing.
    pub fn new_neo(machine: &'data SegmenterStateMachine) -> Result<Self, DataError>
        ensures { IsOkAnd result (λ segmenter. cluster_rules segmenter ≡ ByMachine machine.now) }
    {
        Ok(GraphemeClusterSegmenterBorrowed {
            engine: Engine::Neo(TailoredMachineBorrowed::without_tailoring(machine)),
        })
    }

    /// What finds them.
    pub fn engine(self) -> Engine<'data>
        ensures { rules_of result ≡ cluster_rules self.entry }
    {
        self.engine
    }

    /// The boundaries of the clusters of what is left of a text, as places in its units. Takes no memory.
    pub fn boundaries<I: Cursor>(self, text: I) -> Boundaries<'data, I>
        ensures boundaries { result.left ≡ boundaries_of (cluster_rules self.entry) (I.text text) }
        ensures cover { IsCover (start_of (I.text text)) (I.text text).end result.left }
        ensures status { result.status ≡ 0 }
    {
        self.engine.boundaries(text)
    }

    /// Whether a text may be split after the code point, so that each part has the boundaries that it has alone
    /// (`laws::grapheme::parts_behind_resets`): a scan of the machine that reads the code point's symbol is over there, from
    /// whatever state. By a pair table it is `false`. Takes no memory; asks the machine for at most as many steps as it has
    /// transitions.
    pub fn resets_after(self, code_point: char) -> bool
        ensures { IsTrue result ↔ ResetsAfter (cluster_rules self.entry) code_point }
    {
        self.engine.resets_after(code_point)
    }

    /// Whether places may be certain (`always_breaks`), as by a machine.
    pub fn has_certain_places(self) -> bool
        ensures { IsTrue result ↔ IsByMachine (cluster_rules self.entry) }
    {
        self.engine.has_certain_places()
    }

    /// Whether each text that has these three code points one after another has a boundary between the last two
    /// (`laws::grapheme::certain_places`), since no scan of the machine passes there. It is one look-up where the machine has rows, else it asks for
    /// at most three steps a state and three more. By a pair table it is `false`. Takes no memory.
    pub fn always_breaks(self, before: u32, one: u32, other: u32) -> bool
        ensures { IsTrue result ↔ AreCertain (cluster_rules self.entry) before one other }
    {
        self.engine.always_breaks(before, one, other)
    }

    /// The boundaries of the clusters of what a cursor has still to read, as places in the text's units. Takes no memory.
    pub fn segment<I: Cursor>(self, text: I) -> GraphemeClusterBreakIterator<'data, I>
        ensures boundaries { clusters_left result ≡ boundaries_of (cluster_rules self.entry) (I.text text) }
        ensures source { (cluster_finder result ≡ cluster_rules self.entry) × (clusters_source result ≡ text) }
        ensures cover { IsCover (start_of (I.text text)) (I.text text).end (clusters_left result) }
    {
        GraphemeClusterBreakIterator {
            boundaries: self.engine.boundaries(text.fork()),
            engine: self.engine,
            whole: text,
        }
    }

    /// The boundaries of the clusters of a `str`, in bytes: those of its bytes as UTF-8. Takes no memory.
    pub fn segment_str<'s>(
        self,
        input: &'s str,
    ) -> GraphemeClusterBreakIterator<'data, StrCharIndices<'s>>
        ensures boundaries { clusters_left result ≡ boundaries_of (cluster_rules self.entry) (utf8 input.now) }
        ensures source { (cluster_finder result ≡ cluster_rules self.entry) × (clusters_source result ≡ record { place = 0; units = input.now }) }
        ensures cover { IsCover 0 (length input.now) (clusters_left result) }
    {
        self.segment(StrCharIndices::new(input))
    }

    /// The boundaries of the clusters of possibly ill-formed UTF-8, in bytes. Each longest beginning of a
    /// well-formed sequence that isn't one counts as U+FFFD (Unicode Table 3-7). Takes no memory.
    pub fn segment_utf8<'s>(
        self,
        input: &'s [u8],
    ) -> GraphemeClusterBreakIterator<'data, Utf8CharIndices<'s>>
        ensures boundaries { clusters_left result ≡ boundaries_of (cluster_rules self.entry) (utf8 input.now) }
        ensures source { (cluster_finder result ≡ cluster_rules self.entry) × (clusters_source result ≡ record { place = 0; units = input.now }) }
        ensures cover { IsCover 0 (length input.now) (clusters_left result) }
    {
        self.segment(Utf8CharIndices::new(input))
    }

    /// The boundaries of the clusters of Latin-1, in bytes. Takes no memory.
    pub fn segment_latin1<'s>(
        self,
        input: &'s [u8],
    ) -> GraphemeClusterBreakIterator<'data, Latin1Indices<'s>>
        ensures boundaries { clusters_left result ≡ boundaries_of (cluster_rules self.entry) (latin1 input.now) }
        ensures source { (cluster_finder result ≡ cluster_rules self.entry) × (clusters_source result ≡ record { place = 0; units = input.now }) }
        ensures cover { IsCover 0 (length input.now) (clusters_left result) }
    {
        self.segment(Latin1Indices::new(input))
    }

    /// The boundaries of the clusters of possibly ill-formed UTF-16, in 16-bit units. A surrogate that stands alone
    /// counts as itself. Takes no memory.
    pub fn segment_utf16<'s>(
        self,
        input: &'s [u16],
    ) -> GraphemeClusterBreakIterator<'data, Utf16Indices<'s>>
        ensures boundaries { clusters_left result ≡ boundaries_of (cluster_rules self.entry) (utf16 input.now) }
        ensures source { (cluster_finder result ≡ cluster_rules self.entry) × (clusters_source result ≡ record { place = 0; units = input.now }) }
        ensures cover { IsCover 0 (length input.now) (clusters_left result) }
    {
        self.segment(Utf16Indices::new(input))
    }
}
