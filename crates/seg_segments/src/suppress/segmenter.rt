//! Segmenters of sentences that know abbreviations.

ghost use Rattle.std.specs.Prelude.{◌≡◌, length};
ghost use Rattle.seg_text.specs.Boundaries.{boundaries_in, IsCover};
ghost use Rattle.seg_text.specs.Decoding.{latin1, utf8, utf16};
ghost use Rattle.seg_clusters.specs.Clusters.{sentence_rules};
ghost use Rattle.seg_clusters.specs.Rules.{boundaries_by};
ghost use Rattle.seg_segments.specs.Abbreviations.{abbreviations_of};
ghost use Rattle.seg_segments.specs.Suppression.{without_abbreviated};

use crate::segments::Source;
use crate::suppress::{Abbreviations, SentenceBreaks, SuppressedBreaks};
use seg_clusters::sentence::{SentenceBreakIterator, SentenceSegmenterBorrowed};
use seg_text::indices::{Latin1Indices, StrCharIndices, Utf8CharIndices, Utf16Indices};
use std::fmt;

/// Finds sentences, but for the boundaries before which the text ends with an abbreviation.
#[derive(Clone, Copy)]
pub struct SuppressingSegmenter<'data> {
    /// What finds all boundaries.
    pub sentences: SentenceSegmenterBorrowed<'data>,
    /// The abbreviations.
    pub abbreviations: &'data Abbreviations,
}

impl<'data> fmt::Debug for SuppressingSegmenter<'data> {
    fn fmt<W: fmt::Write>(&self, f: &mut fmt::Formatter<W>) -> fmt::Result {
        f.write_str("SuppressingSegmenter { .. }")
    }
}

impl<'data> SuppressingSegmenter<'data> {
    ghost use Rattle.seg_segments.specs.Suppressing.{suppressing_finder};
    ghost use Rattle.seg_clusters.specs.Clusters.{sentence_finder, sentences_source};
    ghost use Rattle.seg_segments.specs.SuppressedLeft.{suppressed_left, suppressed_source, suppressed_words};

    /// The boundaries of sentences that stay of a text in the encoding of a cursor, as places in its units. Takes no memory.
    pub fn segment<I: Source>(
        self,
        input: I::Units,
    ) -> SuppressedBreaks<'data, SentenceBreakIterator<'data, I>, I>
        ensures boundaries { suppressed_left result ≡ boundaries_in (suppressing_finder self.entry) (I.decode (I.Units.units input)) }
        ensures cover { IsCover 0 (length (I.Units.units input)) (suppressed_left result) }
        ensures whole { I.units (sentences_source (suppressed_source result)) ≡ I.Units.units input }
        ensures found { without_abbreviated (suppressed_words result) (boundaries_by (sentence_finder (suppressed_source result))) ≡ suppressing_finder self.entry }
    {
        self.sentences
            .segment(I::of(input))
            .suppressed_by(self.abbreviations)
    }

    /// The boundaries of sentences of a `str` that stay, in bytes. Takes no memory.
    pub fn segment_str<'s>(
        self,
        input: &'s str,
    ) -> SuppressedBreaks<
        'data,
        SentenceBreakIterator<'data, StrCharIndices<'s>>,
        StrCharIndices<'s>,
    >
        ensures boundaries { suppressed_left result ≡ boundaries_in (suppressing_finder self.entry) (utf8 input.now) }
        ensures cover { IsCover 0 (length input.now) (suppressed_left result) }
        ensures whole { (sentences_source (suppressed_source result)).units ≡ input.now }
        ensures found { without_abbreviated (suppressed_words result) (boundaries_by (sentence_finder (suppressed_source result))) ≡ suppressing_finder self.entry }
    {
        self.segment::<StrCharIndices<'s>>(input)
    }

    /// The boundaries that stay of possibly ill-formed UTF-8, in bytes, as `SentenceSegmenterBorrowed::segment_utf8` reads it. Takes no memory.
    pub fn segment_utf8<'s>(
        self,
        input: &'s [u8],
    ) -> SuppressedBreaks<
        'data,
        SentenceBreakIterator<'data, Utf8CharIndices<'s>>,
        Utf8CharIndices<'s>,
    >
        ensures boundaries { suppressed_left result ≡ boundaries_in (suppressing_finder self.entry) (utf8 input.now) }
        ensures cover { IsCover 0 (length input.now) (suppressed_left result) }
        ensures whole { (sentences_source (suppressed_source result)).units ≡ input.now }
        ensures found { without_abbreviated (suppressed_words result) (boundaries_by (sentence_finder (suppressed_source result))) ≡ suppressing_finder self.entry }
    {
        self.segment::<Utf8CharIndices<'s>>(input)
    }

    /// The boundaries that stay of Latin-1, in bytes. Takes no memory.
    pub fn segment_latin1<'s>(
        self,
        input: &'s [u8],
    ) -> SuppressedBreaks<'data, SentenceBreakIterator<'data, Latin1Indices<'s>>, Latin1Indices<'s>>
        ensures boundaries { suppressed_left result ≡ boundaries_in (suppressing_finder self.entry) (latin1 input.now) }
        ensures cover { IsCover 0 (length input.now) (suppressed_left result) }
        ensures whole { (sentences_source (suppressed_source result)).units ≡ input.now }
        ensures found { without_abbreviated (suppressed_words result) (boundaries_by (sentence_finder (suppressed_source result))) ≡ suppressing_finder self.entry }
    {
        self.segment::<Latin1Indices<'s>>(input)
    }

    /// The boundaries that stay of possibly ill-formed UTF-16, in 16-bit units, as `SentenceSegmenterBorrowed::segment_utf16` reads it. Takes no memory.
    pub fn segment_utf16<'s>(
        self,
        input: &'s [u16],
    ) -> SuppressedBreaks<'data, SentenceBreakIterator<'data, Utf16Indices<'s>>, Utf16Indices<'s>>
        ensures boundaries { suppressed_left result ≡ boundaries_in (suppressing_finder self.entry) (utf16 input.now) }
        ensures cover { IsCover 0 (length input.now) (suppressed_left result) }
        ensures whole { (sentences_source (suppressed_source result)).units ≡ input.now }
        ensures found { without_abbreviated (suppressed_words result) (boundaries_by (sentence_finder (suppressed_source result))) ≡ suppressing_finder self.entry }
    {
        self.segment::<Utf16Indices<'s>>(input)
    }
}
