//! Segmenters of any kind, for programs that ask all kinds the same.

use crate::found::{Found, found, found_words};
use icu_segmenter::indices::{Latin1Indices, StrCharIndices, Utf8CharIndices, Utf16Indices};
use icu_segmenter::segments::Source;
use icu_segmenter::{
    GraphemeClusterSegmenter, GraphemeClusterSegmenterBorrowed, LineSegmenter,
    LineSegmenterBorrowed, SentenceSegmenter, SentenceSegmenterBorrowed, WordSegmenter,
    WordSegmenterBorrowed,
};
use std::alloc::{AllocError, Global};

/// A segmenter with data that it owns.
pub enum AnySegmenter {
    /// Of grapheme clusters.
    Clusters(GraphemeClusterSegmenter),
    /// Of sentences.
    Sentences(SentenceSegmenter),
    /// Of words.
    Words(WordSegmenter),
    /// Of lines.
    Lines(LineSegmenter),
}

// Written out, so that it is proved here and not in each function that drops one.
impl Drop for AnySegmenter {
    fn drop(self) {
        match self {
            AnySegmenter::Clusters(_) => {}
            AnySegmenter::Sentences(_) => {}
            AnySegmenter::Words(_) => {}
            AnySegmenter::Lines(_) => {}
        }
    }
}

impl AnySegmenter {
    /// This segmenter over borrowed data.
    pub fn as_borrowed(&self) -> AnySegmenterBorrowed<'_> {
        match self {
            AnySegmenter::Clusters(clusters) => AnySegmenterBorrowed::Clusters(
                clusters.as_borrowed(),
            ),
            AnySegmenter::Sentences(sentences) => {
                AnySegmenterBorrowed::Sentences(sentences.as_borrowed())
            }
            AnySegmenter::Words(words) => AnySegmenterBorrowed::Words(words.as_borrowed()),
            AnySegmenter::Lines(lines) => AnySegmenterBorrowed::Lines(lines.as_borrowed()),
        }
    }
}

/// A segmenter over borrowed data.
#[derive(Clone, Copy)]
pub enum AnySegmenterBorrowed<'data> {
    /// Of grapheme clusters.
    Clusters(GraphemeClusterSegmenterBorrowed<'data>),
    /// Of sentences.
    Sentences(SentenceSegmenterBorrowed<'data>),
    /// Of words.
    Words(WordSegmenterBorrowed<'data>),
    /// Of lines.
    Lines(LineSegmenterBorrowed<'data>),
}

/// A text in an encoding.
#[derive(Clone, Copy)]
pub enum Text<'s> {
    /// A `str`.
    Str(&'s str),
    /// Bytes in UTF-8, possibly ill-formed.
    Utf8(&'s [u8]),
    /// Bytes in Latin-1.
    Latin1(&'s [u8]),
    /// Units in UTF-16, possibly ill-formed.
    Utf16(&'s [u16]),
}

impl<'data> AnySegmenterBorrowed<'data> {
    /// The boundaries of a text: of words in UTF-8 and UTF-16 by the iterator that gives their types. Fails only when out of memory.
    pub fn boundaries(self, alloc: Global, text: Text<'_>) -> Result<Found, AllocError> {
        match text {
            Text::Str(text) => self.boundaries_by(alloc, StrCharIndices::new(text), false),
            Text::Utf8(text) => self.boundaries_by(alloc, Utf8CharIndices::new(text), true),
            Text::Latin1(text) => self.boundaries_by(alloc, Latin1Indices::new(text), false),
            Text::Utf16(text) => self.boundaries_by(alloc, Utf16Indices::new(text), true),
        }
    }

    // The boundaries of what a cursor reads, those of words by the iterator that gives their types or not.
    fn boundaries_by<I: Source>(
        self,
        alloc: Global,
        text: I,
        is_typed: bool,
    ) -> Result<Found, AllocError> {
        match self {
            AnySegmenterBorrowed::Clusters(clusters) => found(alloc, clusters.segment(text)),
            AnySegmenterBorrowed::Sentences(sentences) => found(alloc, sentences.segment(text)),
            AnySegmenterBorrowed::Words(words) if is_typed => {
                found_words(alloc, words.segment(text).iter_with_word_type())
            }
            AnySegmenterBorrowed::Words(words) => found(alloc, words.segment(text)),
            AnySegmenterBorrowed::Lines(lines) => found(alloc, lines.segment(text)),
        }
    }
}
