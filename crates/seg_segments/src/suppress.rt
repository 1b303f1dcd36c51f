//! Sentences that know abbreviations: boundaries before which a text ends with one are left out, as by CLDR's sentence break
//! suppressions.
//!
//! With Unicode's sentences and the abbreviation `Mr.`:
//!
//! ```text
//! sentences.segment_str("Mr. Smith went. He left.")                                   0 4 16 24
//! sentences.segment_str("Mr. Smith went. He left.").suppressed_by(&abbreviations)     0 16 24
//! sentences.segment_str("Ask sMr. Bond").suppressed_by(&abbreviations)                0 9 13
//! ```
//!
//! A boundary before the end of the text is left out where the text before it ends with an abbreviation and perhaps spaces. Before
//! the abbreviation stands nothing, or neither a letter nor a digit. Spaces are what UAX #29 calls Sp: white space that separates
//! neither lines nor paragraphs. Letters and digits are those of `char::is_alphanumeric`; accents that stand alone are neither.

ghost use Rattle.std.specs.Prelude.{◌≡◌, ⊤, length};
ghost use Rattle.seg_text.specs.Boundaries.{boundaries_in, IsCover};
ghost use Rattle.seg_segments.specs.Abbreviations.{abbreviations_of};
ghost use Rattle.seg_segments.specs.Suppression.{without_abbreviated};

mod abbreviations;
pub(crate) mod characters;
mod kept;
pub mod laws;
mod segmenter;
mod sentence_breaks;
mod starts;

use crate::segments::{BreakIterator, ForkBreaks, Units};
pub use abbreviations::{AbbreviationError, Abbreviations};
use kept::{HintedKept, Kept};
use seg_data::provider::DictionaryCursor;
use seg_text::cursor::Cursor;
pub use segmenter::SuppressingSegmenter;
use std::alloc::AllocError;
use std::fmt;

/// An iterator over the boundaries of sentences.
pub trait SentenceBreaks: ForkBreaks {
    ghost use Rattle.seg_segments.specs.SuppressedLeft.{suppressed_left, suppressed_source, suppressed_words};

    /// A cursor over the text.
    type CodePoints: Cursor;

    /// The cursor at the text's start.
    ghost start: { Self → Self.CodePoints };

    /// A cursor at the start of the whole text, whatever was given of its boundaries. Takes no memory.
    fn code_points(&self) -> Self::CodePoints
        ensures { result ≡ start self.now };

    /// These boundaries, but for those before which the text ends with one of these abbreviations. May be asked as long as no
    /// boundary was given. Takes no memory.
    final fn suppressed_by<'data>(
        self,
        abbreviations: &'data Abbreviations,
    ) -> SuppressedBreaks<'data, Self, Self::CodePoints>
        requires found { Self.left self ≡ boundaries_in (Self.find self) (Self.decode (Self.whole self)) }
        requires cover { IsCover 0 (length (Self.whole self)) (Self.left self) }
        requires start { Self.CodePoints.text (Self.start self) ≡ Self.decode (Self.whole self) }
        requires end { (Self.decode (Self.whole self)).end ≡ length (Self.whole self) }
        ensures boundaries { suppressed_left result ≡ boundaries_in (without_abbreviated (abbreviations_of abbreviations.now) (Self.find self)) (Self.decode (Self.whole self)) }
        ensures cover { IsCover 0 (length (Self.whole self)) (suppressed_left result) }
        ensures source { (suppressed_words result ≡ abbreviations_of abbreviations.now) × (suppressed_source result ≡ self) }
    {
        let source = self.fork();
        let text = self.code_points();
        let end = self.text().len();
        let words = abbreviations.cursor();
        SuppressedBreaks {
            kept: HintedKept::new(Kept::new(self, words, text), end),
            words,
            source,
        }
    }
}

/// The boundaries of sentences in a text but those that abbreviations suppress, as places: bytes in str, UTF-8 and Latin-1, 16-bit
/// units in UTF-16. The first is 0, the last the text's length. After None it stays None.
///
/// It reads the text once more than the sentences do, and from each place where an abbreviation may begin as far as one goes on there,
/// with the spaces after it. Takes no memory.
#[derive(Drop)]
pub struct SuppressedBreaks<'data, B: BreakIterator, I: Cursor> {
    kept: HintedKept<'data, B, I>,
    words: DictionaryCursor<'data>,
    source: B,
}

impl<'data, B: BreakIterator, I: Cursor> fmt::Debug for SuppressedBreaks<'data, B, I> {
    fn fmt<W: fmt::Write>(&self, f: &mut fmt::Formatter<W>) -> fmt::Result {
        f.write_str("SuppressedBreaks { .. }")
    }
}

impl<'data, B: ForkBreaks, I: Cursor> Clone for SuppressedBreaks<'data, B, I> {
    ghost is_clone = { λ s r. r ≡ s };

    ghost is_infallible = { λ _. ⊤ };

    fn clone(&self) -> Result<Self, AllocError> {
        Ok(self.fork())
    }
}

impl<'data, B: BreakIterator, I: Cursor> Iterator for SuppressedBreaks<'data, B, I> {
    ghost use Rattle.std.specs.Iterator.{YieldsFirst, item_count};
    ghost use Rattle.seg_segments.specs.SuppressedLeft.{suppressed_places};

    type Item = usize;

    ghost next_gives = { YieldsFirst suppressed_places };

    ghost remaining = { item_count suppressed_places };

    fn next(&mut self) -> Option<usize> {
        let found = self.kept.next_boundary()?;
        Some(found.offset)
    }

    fn size_hint(&self) -> (usize, Option<usize>) {
        self.kept.size_hint()
    }
}

impl<'data, B: BreakIterator, I: Cursor> BreakIterator for SuppressedBreaks<'data, B, I> {
    ghost use Rattle.seg_segments.specs.SuppressedLeft.{suppressed_left, suppressed_source, suppressed_words};

    type Units = B::Units;

    type Mark = B::Mark;

    ghost mark = { B.mark };

    ghost left = { λ s. suppressed_left s };

    ghost find = { λ s. without_abbreviated (suppressed_words s) (B.find (suppressed_source s)) };

    ghost whole = { λ s. B.whole (suppressed_source s) };

    ghost decode = { B.decode };

    ghost places = { B.places };

    fn text(&self) -> B::Units {
        self.source.text()
    }

    fn next_break(&mut self) -> Option<(usize, B::Mark)> {
        let found = self.kept.next_boundary()?;
        Some((found.offset, B::mark_of(found.status)))
    }

    fn mark_of(status: u8) -> B::Mark
        ensures { result ≡ B.mark status }
    {
        B::mark_of(status)
    }

    fn fill_both(&mut self, places: &mut [usize], statuses: &mut [u8]) -> usize {
        let room = places.len().min(statuses.len());
        for index in 0..room {
            let Some(found) = self.kept.next_boundary() else {
                return index;
            };
            places[index] = found.offset;
            statuses[index] = found.status;
        }
        room
    }
}

impl<'data, B: ForkBreaks, I: Cursor> ForkBreaks for SuppressedBreaks<'data, B, I> {
    fn fork(&self) -> Self {
        SuppressedBreaks {
            kept: self.kept.fork(),
            words: self.words,
            source: self.source.fork(),
        }
    }
}
