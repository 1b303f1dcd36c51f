//! Lines: where a text may be broken into lines, and where it must be.
ghost use Rattle.std.specs.Prelude.{◌≡◌, ◌≢◌, ◌↔◌, false, length, min, IfOk, IfErr, IsTrue};
ghost use Rattle.std.specs.Iterator.{YieldsFirst, item_count};
ghost use Rattle.seg_text.specs.Items.{start_of};
ghost use Rattle.seg_text.specs.Boundaries.{IsCover};
ghost use Rattle.seg_text.specs.Filled.{WritesBoth, WritesPlaces};
ghost use Rattle.seg_text.specs.Decoding.{latin1, utf8, utf16};
ghost use Rattle.seg_data.specs.Faults.{IsFaultless, IsLowestFault};
ghost use Rattle.seg_memo.specs.Memos.{IsMemoRefusal, IsNewMemo};
ghost use Rattle.seg_data.specs.ScriptWords.{filled, borrowed_words, no_words, script_words};
ghost use Rattle.seg_line_pairs.specs.declared.engines.LineEngine.TheVariants.{Classic, Seventeen};
ghost use Rattle.seg_line_pairs.specs.LineRules.{HasLineTableFault, style_of};
ghost use Rattle.seg_lines.specs.LineBreaks.{IsByPairTable, line_boundaries_of, machine_of_lines, table_lines, turn_lines, lines_with_words, HasCertainLines, LinesAreCertain, LinesResetAfter};
ghost use Rattle.seg_lines.specs.Lines.{line_rules};
ghost use Rattle.seg_lines.specs.Options.{machine_choice};

mod dictionaries;
mod neo;
mod options;
mod tailorings;

use crate::boundaries::{LineBoundaries, boundaries};
use crate::finder::{Finder, OwnedFinder};
use crate::memo::memoised;
use crate::provider::{LineTailorings, LineTailoringsBorrowed};
use dictionaries::{borrowed_without_ja, without_ja};
use neo::{borrowed_line_machine, owned_line_machine};
pub use options::{LineBreakOptions, LineBreakStrictness, LineBreakWordOption};
use options::{MachineChoice, choice_of};
use seg_clusters::complex::ComplexPayloadsBorrowed;
use seg_clusters::engine::Engine;
use seg_clusters::grapheme::{GraphemeClusterSegmenter, GraphemeClusterSegmenterBorrowed};
use seg_clusters::spans::{begins_span, is_outside_runs};
use seg_data::dictionaries::{Dictionaries, DictionariesBorrowed};
use seg_data::provider::DataError;
use seg_line_pairs::classic::ClassicEngine;
use seg_line_pairs::line_pairs::{LinePairs, OwnedLinePairs};
use seg_line_pairs::options::LineStyle;
use seg_line_turns::engine_17::Engine17;
use seg_machine::provider::SegmenterStateMachine;
use seg_memo::memo::{MemoBreakIterator, MemoError};
use seg_memo::reader::CountedTransitions;
use seg_pairs::provider::RuleBreakData;
use seg_text::cursor::Cursor;
use seg_text::indices::{Latin1Indices, StrCharIndices, Utf8CharIndices, Utf16Indices};
use seg_text::reach::HintedBoundaries;
use std::alloc::{AllocError, Global};
use std::fmt;

/// The boundaries of lines in a text, as places: bytes in str, UTF-8 and Latin-1,
/// 16-bit units in UTF-16.
///
/// First 0, then each place where a line may be broken; the last is the text's length. After None it stays None.
pub struct LineBreakIterator<'data, I: Cursor> {
    boundaries: HintedBoundaries<LineBoundaries<'data, I>>,
    segmenter: LineSegmenterBorrowed<'data>,
    whole: I,
}

impl<'data, I: Cursor> fmt::Debug for LineBreakIterator<'data, I> {
    fn fmt<W: fmt::Write>(&self, f: &mut fmt::Formatter<W>) -> fmt::Result {
        f.write_str("LineBreakIterator { .. }")
    }
}

impl<'data, I: Cursor> Drop for LineBreakIterator<'data, I> {
    fn drop(self) {
        let LineBreakIterator {
            boundaries: _,
            segmenter: _,
            whole: _,
        } = self;
    }
}

impl<'data, I: Cursor> LineBreakIterator<'data, I> {
    ghost use Rattle.seg_lines.specs.Lines.{is_mandatory, line_finder, lines_source};

    /// Whether the line must be broken at the boundary that was given last: the status of that
    /// boundary is 1. False before the first `next`, at 0 and after None.
    pub fn is_mandatory(&self) -> bool
        ensures { result ≡ is_mandatory self.now }
    {
        self.boundaries.status() == 1
    }

    /// A cursor at the start of the whole text, whatever was given of its boundaries. Takes no memory.
    pub fn source(&self) -> I
        ensures { result ≡ lines_source self.now }
    {
        self.whole.fork()
    }

    /// The boundaries of the whole text, whatever was given of them, where no configuration of the machine is looked up
    /// twice: that of lines, or, by `Anywhere`, that of clusters. Of several refusals that with the lowest number: `NotNeo` by a
    /// pair table, `HasDictionary` where some script has one, by `Anywhere` too, `TooLarge` where there are more
    /// configurations than the greatest `usize`, all without asking for memory. `Memory` where there is no other, but the
    /// one growth was refused.
    pub fn with_memo(
        &self,
        alloc: Global,
    ) -> Result<MemoBreakIterator<'data, I, CountedTransitions<'data>>, MemoError>
        ensures words { IfOk result (λ _. (line_finder self.now).payloads.words ≡ no_words) }
        ensures made { IfOk result (IsNewMemo (machine_of_lines (line_finder self.now)) (I.text (lines_source self.now))
            (line_boundaries_of (line_finder self.now) (I.text (lines_source self.now)))) }
        ensures rejected { IfErr result (IsMemoRefusal (machine_of_lines (line_finder self.now)) ((line_finder self.now).payloads.words ≢ no_words) (I.text (lines_source self.now))) }
    {
        let text = self.whole.fork();
        memoised(alloc, self.segmenter.finder, self.segmenter.payloads, text)
    }

    /// Writes the places of the next boundaries over the first of `places`, as many as there are and there is room for, and returns how
    /// many. The next call goes on behind them. Takes no memory.
    pub fn fill(&mut self, places: &mut [usize]) -> usize
        ensures written { WritesPlaces self.old.boundaries self.new.boundaries places.old places.new result }
        ensures source { (line_finder self.new ≡ line_finder self.old) × (lines_source self.new ≡ lines_source self.old) }
    {
        self.boundaries.fill(places)
    }

    /// Writes the places of the next boundaries and their statuses, as many as both buffers have room for, as `fill` does.
    pub fn fill_both(&mut self, places: &mut [usize], statuses: &mut [u8]) -> usize
        ensures written { WritesBoth (min (length places.old) (length statuses.old)) self.old.boundaries self.new.boundaries
            places.old places.new statuses.old statuses.new result }
        ensures source { (line_finder self.new ≡ line_finder self.old) × (lines_source self.new ≡ lines_source self.old) }
    {
        self.boundaries.fill_both(places, statuses)
    }
}

impl<'data, I: Cursor> Clone for LineBreakIterator<'data, I> {
    ghost use Rattle.std.specs.Prelude.{⊤};

    ghost is_clone = { λ s r. r ≡ s };

    ghost is_infallible = { λ _. ⊤ };

    fn clone(&self) -> Result<Self, AllocError> {
        Ok(LineBreakIterator {
            boundaries: self.boundaries.fork(),
            segmenter: self.segmenter,
            whole: self.whole.fork(),
        })
    }
}

impl<'data, I: Cursor> Iterator for LineBreakIterator<'data, I> {
    ghost use Rattle.std.specs.Prelude.{⊤};
    ghost use Rattle.std.specs.Iterator.{MakesProgress};
    ghost use Rattle.seg_text.specs.Boundaries.{GivesNext};
    ghost use Rattle.seg_lines.specs.Lines.{line_finder, line_places, lines_source};

    type Item = usize;

    ghost next_gives = { YieldsFirst line_places };

    ghost remaining = { item_count line_places };

    #[inline(always)]
    fn next(&mut self) -> Option<usize>
        ensures steps { YieldsFirst line_places self.old result self.new × GivesNext self.old.boundaries result self.new.boundaries
            × (line_finder self.new ≡ line_finder self.old) × (lines_source self.new ≡ lines_source self.old) }
        ensures goes { MakesProgress (λ _. ⊤) (item_count line_places) self.old result self.new }
    {
        self.boundaries.next()
    }

    #[inline(always)]
    fn size_hint(&self) -> (usize, Option<usize>) {
        self.boundaries.size_hint()
    }
}

/// Finds line breaks with data that it owns.
pub struct LineSegmenter {
    finder: OwnedFinder,
    clusters: GraphemeClusterSegmenter,
    dictionaries: Dictionaries,
}

impl fmt::Debug for LineSegmenter {
    fn fmt<W: fmt::Write>(&self, f: &mut fmt::Formatter<W>) -> fmt::Result {
        f.write_str("LineSegmenter { .. }")
    }
}

// Written out, so that it is proved here and not in each function that drops one.
impl Drop for LineSegmenter {
    fn drop(self) {
        let LineSegmenter {
            finder: _,
            clusters: _,
            dictionaries: _,
        } = self;
    }
}

impl LineSegmenter {
    ghost use Rattle.seg_lines.specs.Lines.{HasLineRows, owned_line_rules, chosen_rules, without_ja, HasLineFault};

    /// A segmenter by a pair table of lines, or, where the strictness is `Anywhere`, by that of clusters alone; by neither a break is
    /// mandatory. A run of complex characters (those of the class `complex_property`, as the options read it) may also be broken strictly
    /// inside, after each of its pieces of one script, until dictionaries are loaded. Of several faults the one with the lowest number is
    /// given. `ClassOutOfRange`: the table has no class ID. `StartRowKeeps`: no boundary stands between the start of the text and some
    /// class of code points in clusters. `ComplexItems`: some code points are complex in clusters. `ComplexBelow0100`: one below U+0100 is
    /// in lines. `ComplexClassNamed`: the complex class is one that has a name. Takes no memory.
    pub fn try_new_for_non_complex_scripts(
        table: RuleBreakData,
        clusters: RuleBreakData,
        options: LineBreakOptions<'_>,
    ) -> Result<Self, DataError>
        ensures accepted { IfOk result (λ segmenter. (owned_line_rules segmenter ≡ table_lines (record { table = table; style = style_of options.entry }) clusters no_words)
            × IsFaultless (HasLineTableFault Classic table clusters)) }
        ensures rejected { IfErr result (IsLowestFault (HasLineTableFault Classic table clusters)) }
    {
        let style = LineStyle::new(options);
        let pairs = OwnedLinePairs::<ClassicEngine>::try_new(table, &clusters, style)?;
        Ok(LineSegmenter {
            finder: OwnedFinder::of_table(style.strictness, pairs),
            clusters: GraphemeClusterSegmenter::try_new(clusters)?,
            dictionaries: Dictionaries::none(),
        })
    }

    /// A segmenter by a pair table with the dictionaries of Myanmar, Khmer, Lao and Thai: each piece of a script that has one is cut by its words.
    /// The faults are those of `try_new_for_non_complex_scripts`.
    pub fn try_new_dictionary(
        table: RuleBreakData,
        clusters: RuleBreakData,
        dictionaries: Dictionaries,
        options: LineBreakOptions<'_>,
    ) -> Result<Self, DataError>
        ensures accepted { IfOk result (λ segmenter. (owned_line_rules segmenter ≡ table_lines (record { table = table; style = style_of options.entry }) clusters (without_ja (script_words dictionaries)))
            × IsFaultless (HasLineTableFault Classic table clusters)) }
        ensures rejected { IfErr result (IsLowestFault (HasLineTableFault Classic table clusters)) }
    {
        let mut segmenter = Self::try_new_for_non_complex_scripts(table, clusters, options)?;
        segmenter.load_dictionary(dictionaries);
        Ok(segmenter)
    }

    /// What `try_new_for_non_complex_scripts` makes, but by the rules of the engine 17, over a pair table whose classes are those
    /// of `RuleBreakData::LINE_V3_PROPERTY_ID` and its kin; complex are the characters of class SA or SA_MC_MN, as the options
    /// read it. The faults are the same with these classes, but for `ComplexClassNamed`, which is there where the complex class
    /// isn't SA. Takes no memory.
    pub fn try_new_17_for_non_complex_scripts(
        table: RuleBreakData,
        clusters: RuleBreakData,
        options: LineBreakOptions<'_>,
    ) -> Result<Self, DataError>
        ensures accepted { IfOk result (λ segmenter. (owned_line_rules segmenter ≡ turn_lines (record { table = table; style = style_of options.entry }) clusters no_words)
            × IsFaultless (HasLineTableFault Seventeen table clusters)) }
        ensures rejected { IfErr result (IsLowestFault (HasLineTableFault Seventeen table clusters)) }
    {
        let style = LineStyle::new(options);
        let pairs = OwnedLinePairs::<Engine17>::try_new(table, &clusters, style)?;
        Ok(LineSegmenter {
            finder: OwnedFinder::of_turns(style.strictness, pairs),
            clusters: GraphemeClusterSegmenter::try_new(clusters)?,
            dictionaries: Dictionaries::none(),
        })
    }

    /// A segmenter by the state machine of lines, or by that of clusters where the strictness is
    /// `Anywhere` and the word option `Normal`, which rejects nothing. Otherwise
    /// `ComplexBelow0100` where a code point below U+0100 has a script, with the tailoring that the
    /// options choose, `SymbolOutOfRange` where that tailoring doesn't fit the machine, and
    /// `MissingTailoring` where it isn't there. Takes no memory. Once dictionaries are loaded, a line may also be
    /// broken inside a run of a script that has one, between its words, which end with the clusters of their machine.
    pub fn try_new_neo_for_non_complex_scripts(
        machine: SegmenterStateMachine,
        tailorings: LineTailorings,
        clusters: SegmenterStateMachine,
        options: LineBreakOptions<'_>,
    ) -> Result<Self, DataError>
        ensures accepted { IfOk result (λ segmenter. (owned_line_rules segmenter ≡ chosen_rules machine tailorings clusters (machine_choice options.entry))
            × IsFaultless (HasLineFault machine tailorings (machine_choice options.entry))) }
        ensures rejected { IfErr result (IsLowestFault (HasLineFault machine tailorings (machine_choice options.entry))) }
    {
        let finder = match choice_of(options) {
            MachineChoice::Clusters => OwnedFinder::Clusters,
            MachineChoice::Lines(name) => {
                OwnedFinder::Machine(owned_line_machine(machine, tailorings, name)?)
            }
        };
        Ok(LineSegmenter {
            finder,
            clusters: GraphemeClusterSegmenter::try_new_neo(clusters)?,
            dictionaries: Dictionaries::none(),
        })
    }

    /// Takes the dictionaries of Myanmar, Khmer, Lao and Thai where there is none yet. Those that are there stay, and that of
    /// Chinese and Japanese isn't taken. By `Anywhere` they change nothing. Takes no memory.
    pub fn load_dictionary(&mut self, dictionaries: Dictionaries)
        ensures { owned_line_rules self.new ≡ lines_with_words (owned_line_rules self.old) (filled (owned_line_rules self.old).payloads.words (without_ja (script_words dictionaries))) }
    {
        self.dictionaries.fill(without_ja(dictionaries));
    }

    /// Makes the dense rows of its machine, by which `fill` and what stands on it find boundaries faster; by a pair table there is nothing to
    /// make. Fails only when out of memory: then it stays as it was.
    pub fn make_rows(&mut self, alloc: Global) -> Result<(), AllocError>
        ensures rules { owned_line_rules self.new ≡ owned_line_rules self.old }
        ensures made { IfOk result (λ _. HasLineRows self.new) }
        ensures kept { IfErr result (λ _. self.new ≡ self.old) }
    {
        match &mut self.finder {
            OwnedFinder::Machine(machine) => machine.make_rows(alloc),
            OwnedFinder::Clusters => self.clusters.make_rows(alloc),
            OwnedFinder::Places | OwnedFinder::Table(_) | OwnedFinder::Turns(_) => Ok(()),
        }
    }

    /// This segmenter over borrowed data, which segments texts.
    pub fn as_borrowed(&self) -> LineSegmenterBorrowed<'_>
        ensures { line_rules result ≡ owned_line_rules self.now }
    {
        LineSegmenterBorrowed {
            finder: self.finder.as_borrowed(),
            payloads: ComplexPayloadsBorrowed::new(
                self.dictionaries.as_borrowed(),
                self.clusters.as_borrowed(),
            ),
        }
    }
}

/// Finds line breaks with data that it borrows.
///
/// With the sample data (`bench::lines`), where a line may be broken after spaces, and must be after a line feed and at
/// the end of the text; ! means a break that is mandatory:
///
/// ```text
/// default options            segmenter.segment_str("a b\nc")      0 2 4! 5!      in bytes
/// the word option BreakAll   segmenter.segment_str("ab c")        0 1 3 4!
/// ```
#[derive(Clone, Copy)]
pub struct LineSegmenterBorrowed<'data> {
    pub(crate) finder: Finder<'data>,
    pub(crate) payloads: ComplexPayloadsBorrowed<'data>,
}

impl<'data> fmt::Debug for LineSegmenterBorrowed<'data> {
    fn fmt<W: fmt::Write>(&self, f: &mut fmt::Formatter<W>) -> fmt::Result {
        f.write_str("LineSegmenterBorrowed { .. }")
    }
}

impl<'data> LineSegmenterBorrowed<'data> {
    ghost use Rattle.seg_lines.specs.Lines.{line_finder, lines_left, lines_source, is_mandatory, chosen_rules, without_ja, HasLineFault};
    ghost use Rattle.seg_lines.specs.Options.{borrowed_tailorings};

    /// What `LineSegmenter::try_new_for_non_complex_scripts` makes, over borrowed data. The faults are the same. Takes no memory.
    pub fn new_for_non_complex_scripts(
        table: &'data RuleBreakData,
        clusters: &'data RuleBreakData,
        options: LineBreakOptions<'_>,
    ) -> Result<Self, DataError>
        ensures accepted { IfOk result (λ segmenter. (line_rules segmenter ≡ table_lines (record { table = table.now; style = style_of options.entry }) clusters.now no_words)
            × IsFaultless (HasLineTableFault Classic table.now clusters.now)) }
        ensures rejected { IfErr result (IsLowestFault (HasLineTableFault Classic table.now clusters.now)) }
    {
        Self::new_dictionary(table, clusters, DictionariesBorrowed::none(), options)
    }

    /// A segmenter by a pair table with the dictionaries of Myanmar, Khmer, Lao and Thai: each piece of a script that has one is cut by its words.
    /// The faults are those of `new_for_non_complex_scripts`.
    pub fn new_dictionary(
        table: &'data RuleBreakData,
        clusters: &'data RuleBreakData,
        dictionaries: DictionariesBorrowed<'data>,
        options: LineBreakOptions<'_>,
    ) -> Result<Self, DataError>
        ensures accepted { IfOk result (λ segmenter. (line_rules segmenter ≡ table_lines (record { table = table.now; style = style_of options.entry }) clusters.now (without_ja (borrowed_words dictionaries.entry)))
            × IsFaultless (HasLineTableFault Classic table.now clusters.now)) }
        ensures rejected { IfErr result (IsLowestFault (HasLineTableFault Classic table.now clusters.now)) }
    {
        let style = LineStyle::new(options);
        let pairs = LinePairs::<ClassicEngine>::try_new(table, clusters, style)?;
        Ok(LineSegmenterBorrowed {
            finder: Finder::of_table(style.strictness, pairs),
            payloads: ComplexPayloadsBorrowed::new(
                borrowed_without_ja(dictionaries),
                GraphemeClusterSegmenterBorrowed::new(clusters)?,
            ),
        })
    }

    /// What `LineSegmenter::try_new_17_for_non_complex_scripts` makes, over borrowed data. The faults are the same. Takes no memory.
    pub fn new_17_for_non_complex_scripts(
        table: &'data RuleBreakData,
        clusters: &'data RuleBreakData,
        options: LineBreakOptions<'_>,
    ) -> Result<Self, DataError>
        ensures accepted { IfOk result (λ segmenter. (line_rules segmenter ≡ turn_lines (record { table = table.now; style = style_of options.entry }) clusters.now no_words)
            × IsFaultless (HasLineTableFault Seventeen table.now clusters.now)) }
        ensures rejected { IfErr result (IsLowestFault (HasLineTableFault Seventeen table.now clusters.now)) }
    {
        let style = LineStyle::new(options);
        let pairs = LinePairs::<Engine17>::try_new(table, clusters, style)?;
        Ok(LineSegmenterBorrowed {
            finder: Finder::of_turns(style.strictness, pairs),
            payloads: ComplexPayloadsBorrowed::new(
                DictionariesBorrowed::none(),
                GraphemeClusterSegmenterBorrowed::new(clusters)?,
            ),
        })
    }

    /// What `LineSegmenter::try_new_neo_for_non_complex_scripts` makes, over borrowed data. The faults are the same. Takes no memory.
    pub fn new_neo_for_non_complex_scripts(
        machine: &'data SegmenterStateMachine,
        tailorings: LineTailoringsBorrowed<'data>,
        clusters: &'data SegmenterStateMachine,
        options: LineBreakOptions<'_>,
    ) -> Result<Self, DataError>
        ensures accepted { IfOk result (λ segmenter. (line_rules segmenter ≡ chosen_rules machine.now (borrowed_tailorings tailorings.entry) clusters.now (machine_choice options.entry))
            × IsFaultless (HasLineFault machine.now (borrowed_tailorings tailorings.entry) (machine_choice options.entry))) }
        ensures rejected { IfErr result (IsLowestFault (HasLineFault machine.now (borrowed_tailorings tailorings.entry) (machine_choice options.entry))) }
    {
        let finder = match choice_of(options) {
            MachineChoice::Clusters => Finder::Clusters,
            MachineChoice::Lines(name) => {
                Finder::Machine(borrowed_line_machine(machine, tailorings, name)?)
            }
        };
        Ok(LineSegmenterBorrowed {
            finder,
            payloads: ComplexPayloadsBorrowed::new(
                DictionariesBorrowed::none(),
                GraphemeClusterSegmenterBorrowed::new_neo(clusters)?,
            ),
        })
    }

    /// Takes the dictionaries of Myanmar, Khmer, Lao and Thai where there is none yet. Those that are there stay, and that of
    /// Chinese and Japanese isn't taken. By `Anywhere` they change nothing. Takes no memory.
    pub fn load_dictionary(&mut self, dictionaries: DictionariesBorrowed<'data>)
        ensures { line_rules self.new ≡ lines_with_words (line_rules self.old) (filled (line_rules self.old).payloads.words (without_ja (borrowed_words dictionaries.entry))) }
    {
        self.payloads.load(borrowed_without_ja(dictionaries));
    }

    /// Whether a machine finds the breaks, that of lines or that of clusters, and no pair table does: then a break may be mandatory.
    pub fn is_neo(self) -> bool
        ensures { IsTrue result ↔ (IsByPairTable (line_rules self.entry).finder → ⊥) }
    {
        match self.finder {
            Finder::Clusters | Finder::Machine(_) => true,
            Finder::Places | Finder::Table(_) | Finder::Turns(_) => false,
        }
    }

    /// Whether a text may be split after the code point, so that each part has the boundaries that it has alone, with whether they are
    /// mandatory (`laws::parts_behind_resets`). A scan of the machine that reads the code point's symbol is then over there, from whatever
    /// state. And the code point has no script that has a dictionary here, so that no run goes over it. Where clusters are found, it is so
    /// where it is of clusters. By a pair table of lines it is `false`. Takes no memory; asks the machine for at most as many steps as it
    /// has transitions.
    pub fn resets_after(self, code_point: char) -> bool
        ensures { IsTrue result ↔ LinesResetAfter (line_rules self.entry) code_point }
    {
        match self.finder {
            Finder::Clusters | Finder::Places => self.payloads.clusters.resets_after(code_point),
            Finder::Table(_) | Finder::Turns(_) => false,
            Finder::Machine(machine) => {
                Engine::Neo(machine).resets_after(code_point)
                    && is_outside_runs(machine, self.payloads.dictionaries, code_point as u32)
            }
        }
    }

    /// Whether places may be certain (`always_breaks`), as by a machine of lines, or of clusters where those are found.
    pub fn has_certain_places(self) -> bool
        ensures { IsTrue result ↔ HasCertainLines (line_rules self.entry) }
    {
        match self.finder {
            Finder::Clusters | Finder::Places => self.payloads.clusters.has_certain_places(),
            Finder::Table(_) | Finder::Turns(_) => false,
            Finder::Machine(_) => true,
        }
    }

    /// Whether each text that has these three code points one after another has a boundary between the last two
    /// (`laws::certain_places`), since no scan of the machine of lines passes there. And no run goes over the place: the second code point
    /// has no script that has a dictionary here, or the third has not that script. Where clusters are found, it is so where it is of
    /// clusters. By a pair table of lines it is `false`. Takes no memory.
    pub fn always_breaks(self, before: u32, one: u32, other: u32) -> bool
        ensures { IsTrue result ↔ LinesAreCertain (line_rules self.entry) before one other }
    {
        match self.finder {
            Finder::Clusters | Finder::Places => {
                self.payloads.clusters.always_breaks(before, one, other)
            }
            Finder::Table(_) | Finder::Turns(_) => false,
            Finder::Machine(machine) => {
                Engine::Neo(machine).always_breaks(before, one, other)
                    && (is_outside_runs(machine, self.payloads.dictionaries, one)
                        || begins_span(machine, self.payloads.dictionaries, one, other))
            }
        }
    }

    /// The boundaries of the lines of what a cursor has still to read, each with whether it is mandatory, as places in the text's units. Takes no memory.
    pub fn segment<I: Cursor>(self, text: I) -> LineBreakIterator<'data, I>
        ensures boundaries { lines_left result ≡ line_boundaries_of (line_rules self.entry) (I.text text) }
        ensures source { (line_finder result ≡ line_rules self.entry) × (lines_source result ≡ text) }
        ensures cover { IsCover (start_of (I.text text)) (I.text text).end (lines_left result) }
        ensures mark { is_mandatory result ≡ false }
    {
        LineBreakIterator {
            boundaries: boundaries(self.finder, self.payloads, text.fork()),
            segmenter: self,
            whole: text,
        }
    }

    /// The boundaries of the lines of a `str`, in bytes: those of its bytes as UTF-8, each with whether it is mandatory. Takes no memory.
    pub fn segment_str<'s>(self, input: &'s str) -> LineBreakIterator<'data, StrCharIndices<'s>>
        ensures boundaries { lines_left result ≡ line_boundaries_of (line_rules self.entry) (utf8 input.now) }
        ensures source { (line_finder result ≡ line_rules self.entry) × (lines_source result ≡ record { place = 0; units = input.now }) }
        ensures cover { IsCover 0 (length input.now) (lines_left result) }
        ensures mark { is_mandatory result ≡ false }
    {
        self.segment(StrCharIndices::new(input))
    }

    /// The boundaries of the lines of possibly ill-formed UTF-8, in bytes. Each longest beginning of a
    /// well-formed sequence that isn't one counts as U+FFFD (Unicode Table 3-7). Takes no memory.
    pub fn segment_utf8<'s>(self, input: &'s [u8]) -> LineBreakIterator<'data, Utf8CharIndices<'s>>
        ensures boundaries { lines_left result ≡ line_boundaries_of (line_rules self.entry) (utf8 input.now) }
        ensures source { (line_finder result ≡ line_rules self.entry) × (lines_source result ≡ record { place = 0; units = input.now }) }
        ensures cover { IsCover 0 (length input.now) (lines_left result) }
        ensures mark { is_mandatory result ≡ false }
    {
        self.segment(Utf8CharIndices::new(input))
    }

    /// The boundaries of the lines of Latin-1, in bytes. Takes no memory.
    pub fn segment_latin1<'s>(self, input: &'s [u8]) -> LineBreakIterator<'data, Latin1Indices<'s>>
        ensures boundaries { lines_left result ≡ line_boundaries_of (line_rules self.entry) (latin1 input.now) }
        ensures source { (line_finder result ≡ line_rules self.entry) × (lines_source result ≡ record { place = 0; units = input.now }) }
        ensures cover { IsCover 0 (length input.now) (lines_left result) }
        ensures mark { is_mandatory result ≡ false }
    {
        self.segment(Latin1Indices::new(input))
    }

    /// The boundaries of the lines of possibly ill-formed UTF-16, in 16-bit units. A surrogate that stands alone
    /// counts as itself. Takes no memory.
    pub fn segment_utf16<'s>(self, input: &'s [u16]) -> LineBreakIterator<'data, Utf16Indices<'s>>
        ensures boundaries { lines_left result ≡ line_boundaries_of (line_rules self.entry) (utf16 input.now) }
        ensures source { (line_finder result ≡ line_rules self.entry) × (lines_source result ≡ record { place = 0; units = input.now }) }
        ensures cover { IsCover 0 (length input.now) (lines_left result) }
        ensures mark { is_mandatory result ≡ false }
    {
        self.segment(Utf16Indices::new(input))
    }
}
