//! What pieces of complex scripts are cut by: dictionaries, and the clusters at whose ends they may cut.

ghost use Rattle.std.specs.Prelude.{◌≡◌, ◌≢◌, ◌+◌, ◌<◌, ◌^◌, ⊤, length, IfOk, IfErr};
ghost use Rattle.std.specs.Iterator.{YieldsFirst, item_count};
ghost use Rattle.seg_text.specs.Boundaries.{cut_places};
ghost use Rattle.seg_text.specs.Decoding.{utf8, utf16};
ghost use Rattle.seg_memo.specs.Memos.{IsMemoRefusal, IsNewMemo};
ghost use Rattle.seg_clusters.specs.Rules.{rules_of, boundaries_by, boundaries_of, machine_in};
ghost use Rattle.seg_data.specs.ScriptWords.{filled, borrowed_words, no_words};
ghost use Rattle.seg_clusters.specs.Clusters.{cluster_rules};
ghost use Rattle.seg_clusters.specs.DictionaryCuts.{dictionary_cuts};
ghost use Rattle.seg_clusters.specs.Scripts.{later_places, CoverPieces, CoverRuns};
ghost use Rattle.seg_clusters.specs.Payloads.{payload_words, payloads_of, piece_cuts_by};

use crate::engine::Engine;
use crate::grapheme::GraphemeClusterSegmenterBorrowed;
use crate::later::LaterCuts;
use crate::laws::complex::dictionary_cuts_cover;
use seg_data::dictionaries::DictionariesBorrowed;
use seg_data::provider::DictionaryBreakData;
use seg_memo::memo::{MemoBreakIterator, MemoError};
use seg_memo::reader::CountedTransitions;
use seg_text::cursor::Cursor;
use seg_text::indices::{StrCharIndices, Utf8CharIndices, Utf16Indices};
use seg_text::scaffold::{PotentiallyIllFormedUtf8, RuleBreakType, Utf8, Utf16};
use std::alloc::{AllocError, Global};
use std::fmt;
use std::marker::PhantomData;

/// The dictionaries of scripts, each if there is one, and the clusters that no cut of theirs divides.
#[derive(Clone, Copy)]
pub struct ComplexPayloadsBorrowed<'data> {
    /// The dictionaries.
    pub dictionaries: DictionariesBorrowed<'data>,
    /// The clusters.
    pub clusters: GraphemeClusterSegmenterBorrowed<'data>,
}

impl<'data> fmt::Debug for ComplexPayloadsBorrowed<'data> {
    fn fmt<W: fmt::Write>(&self, f: &mut fmt::Formatter<W>) -> fmt::Result {
        f.write_str("ComplexPayloadsBorrowed { .. }")
    }
}

impl<'data> ComplexPayloadsBorrowed<'data> {
    /// These dictionaries and clusters.
    pub fn new(
        dictionaries: DictionariesBorrowed<'data>,
        clusters: GraphemeClusterSegmenterBorrowed<'data>,
    ) -> Self
        ensures { payloads_of result ≡ record { words = borrowed_words dictionaries.entry; clusters = cluster_rules clusters.entry } }
    {
        ComplexPayloadsBorrowed {
            dictionaries,
            clusters,
        }
    }

    /// The cuts of each piece rise strictly from its start, where there is none, and the last is at its end; so do those of
    /// each run.
    pub fn facts(self)
        ensures pieces { CoverPieces (piece_cuts_by (payloads_of self.entry)) }
        ensures runs { CoverRuns (piece_cuts_by (payloads_of self.entry)) }
    {
        dictionary_cuts_cover(self.clusters);
    }

    /// Takes the dictionaries of scripts that have none here from others. Those that are here stay. Takes no memory.
    pub fn load(&mut self, others: DictionariesBorrowed<'data>)
        ensures { payloads_of self.new ≡ record { words = filled (payloads_of self.old).words (borrowed_words others.entry); clusters = (payloads_of self.old).clusters } }
    {
        self.dictionaries.fill(others);
    }

    /// The boundaries of what is left of a text by an engine, where no configuration of its machine is looked up twice and no
    /// run is cut. Of several refusals that with the lowest number: `NotNeo` by a pair table, `HasDictionary` where some
    /// script has one, `TooLarge` where there are more configurations than the greatest `usize`, all without asking for
    /// memory. `Memory` where there is no other, but the one growth was refused.
    pub fn memoised<I: Cursor>(
        self,
        alloc: Global,
        engine: Engine<'data>,
        text: I,
    ) -> Result<MemoBreakIterator<'data, I, CountedTransitions<'data>>, MemoError>
        ensures words { IfOk result (λ _. (payloads_of self.entry).words ≡ no_words) }
        ensures made { IfOk result (IsNewMemo (machine_in (rules_of engine.entry)) (I.text text) (boundaries_of (rules_of engine.entry) (I.text text))) }
        ensures rejected { IfErr result (IsMemoRefusal (machine_in (rules_of engine.entry)) ((payloads_of self.entry).words ≢ no_words) (I.text text)) }
    {
        let Engine::Neo(machine) = engine else {
            return Err(MemoError::NotNeo);
        };
        if !self.dictionaries.is_empty() {
            return Err(MemoError::HasDictionary);
        }
        MemoBreakIterator::try_new(alloc, machine, text)
    }
}

/// What one piece is cut by.
#[derive(Clone, Copy)]
pub enum ComplexPayloadBorrowed<'data> {
    /// A dictionary.
    Dict(&'data DictionaryBreakData),
}

impl<'data> fmt::Debug for ComplexPayloadBorrowed<'data> {
    fn fmt<W: fmt::Write>(&self, f: &mut fmt::Formatter<W>) -> fmt::Result {
        f.write_str("ComplexPayloadBorrowed { .. }")
    }
}

impl<'data> ComplexPayloadBorrowed<'data> {
    ghost use Rattle.seg_clusters.specs.Payloads.{complex_left};

    /// The cuts of a `str` as one piece, whatever its scripts: places in bytes, to each of which the offset is added. Takes
    /// no memory.
    pub fn segment_str<'s>(
        self,
        input: &'s str,
        clusters: GraphemeClusterSegmenterBorrowed<'data>,
        offset: usize,
    ) -> ComplexIterator<'data, 's, Utf8>
        requires { offset + length input.now < 2 ^ 64 }
        ensures { complex_left result ≡ later_places offset (cut_places (dictionary_cuts (payload_words self.entry) (boundaries_by (cluster_rules clusters.entry))) (utf8 input.now)) }
    {
        segment(self, StrCharIndices::new(input), clusters, offset)
    }

    /// The cuts of possibly ill-formed UTF-8 as one piece, whatever its scripts: places in bytes, to each of which the offset is
    /// added. Each longest beginning of a well-formed sequence that isn't one counts as U+FFFD (Unicode Table 3-7). Takes
    /// no memory.
    pub fn segment_utf8<'s>(
        self,
        input: &'s [u8],
        clusters: GraphemeClusterSegmenterBorrowed<'data>,
        offset: usize,
    ) -> ComplexIterator<'data, 's, PotentiallyIllFormedUtf8>
        requires { offset + length input.now < 2 ^ 64 }
        ensures { complex_left result ≡ later_places offset (cut_places (dictionary_cuts (payload_words self.entry) (boundaries_by (cluster_rules clusters.entry))) (utf8 input.now)) }
    {
        segment(self, Utf8CharIndices::new(input), clusters, offset)
    }

    /// The cuts of possibly ill-formed UTF-16 as one piece, whatever its scripts: places in 16-bit units, to each of which the
    /// offset is added. A surrogate that stands alone counts as itself. Takes no memory.
    pub fn segment_utf16<'s>(
        self,
        input: &'s [u16],
        clusters: GraphemeClusterSegmenterBorrowed<'data>,
        offset: usize,
    ) -> ComplexIterator<'data, 's, Utf16>
        requires { offset + length input.now < 2 ^ 64 }
        ensures { complex_left result ≡ later_places offset (cut_places (dictionary_cuts (payload_words self.entry) (boundaries_by (cluster_rules clusters.entry))) (utf16 input.now)) }
    {
        segment(self, Utf16Indices::new(input), clusters, offset)
    }
}

/// The cuts of what is left of a text as one piece, each so much later.
fn segment<'data, 's, Y: RuleBreakType<'s>>(
    payload: ComplexPayloadBorrowed<'data>,
    text: Y::IterAttr,
    clusters: GraphemeClusterSegmenterBorrowed<'data>,
    offset: usize,
) -> ComplexIterator<'data, 's, Y>
    requires { offset + (Y.IterAttr.text text).end < 2 ^ 64 }
    ensures { result.cuts ≡ later_places offset (cut_places (dictionary_cuts (payload_words payload.entry) (boundaries_by (cluster_rules clusters.entry))) (Y.IterAttr.text text)) }
{
    let ComplexPayloadBorrowed::Dict(dictionary) = payload;
    ComplexIterator {
        cuts: LaterCuts::new(dictionary, clusters, text, offset),
        text: PhantomData,
    }
}

/// The cuts of a piece, as places in units: bytes in UTF-8, 16-bit units in UTF-16, and so many more.
///
/// After None it stays None.
pub struct ComplexIterator<'data, 's, Y: RuleBreakType<'s>> {
    cuts: LaterCuts<'data, Y::IterAttr>,
    text: PhantomData<&'s ()>,
}

impl<'data, 's, Y: RuleBreakType<'s>> fmt::Debug for ComplexIterator<'data, 's, Y> {
    fn fmt<W: fmt::Write>(&self, f: &mut fmt::Formatter<W>) -> fmt::Result {
        f.write_str("ComplexIterator { .. }")
    }
}

impl<'data, 's, Y: RuleBreakType<'s>> Drop for ComplexIterator<'data, 's, Y> {
    fn drop(self) {
        let ComplexIterator { cuts: _, text: _ } = self;
    }
}

impl<'data, 's, Y: RuleBreakType<'s>> Clone for ComplexIterator<'data, 's, Y> {
    ghost is_clone = { λ s r. r ≡ s };

    ghost is_infallible = { λ _. ⊤ };

    fn clone(&self) -> Result<Self, AllocError> {
        Ok(ComplexIterator {
            cuts: self.cuts.fork(),
            text: PhantomData,
        })
    }
}

impl<'data, 's, Y: RuleBreakType<'s>> Iterator for ComplexIterator<'data, 's, Y> {
    ghost use Rattle.seg_clusters.specs.Payloads.{complex_left};

    type Item = usize;

    ghost next_gives = { YieldsFirst complex_left };

    ghost remaining = { item_count complex_left };

    fn next(&mut self) -> Option<usize> {
        self.cuts.next()
    }

    fn size_hint(&self) -> (usize, Option<usize>) {
        self.cuts.size_hint()
    }
}
