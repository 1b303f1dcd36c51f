//! Segmenters of any kind.
ghost use Rattle.std.specs.Prelude.{◌≡◌, IfOk};
ghost use Rattle.icu_segmenter.specs.Lines.{line_rules};
ghost use Rattle.icu_segmenter.specs.Decoding.{utf8};
ghost use Rattle.break_tests.specs.TestedSegmenter.{mandatory_by};

use icu_segmenter::{
    GraphemeClusterSegmenter, LineSegmenter, LineSegmenterBorrowed, SentenceSegmenter,
    WordSegmenter,
};
use std::alloc::{AllocError, Global};

/// A segmenter with data of its own.
pub enum TestedSegmenter {
    /// Of grapheme clusters.
    Clusters(GraphemeClusterSegmenter),
    /// Of words.
    Words(WordSegmenter),
    /// Of sentences.
    Sentences(SentenceSegmenter),
    /// Of lines by a machine, which says what is mandatory.
    Lines(LineSegmenter),
    /// Of lines by a pair table, which doesn't.
    LinesByTable(LineSegmenter),
}

// Written out, so that it is proved here and not in each function that drops one.
impl Drop for TestedSegmenter {
    fn drop(self) {
        match self {
            TestedSegmenter::Clusters(_) => {}
            TestedSegmenter::Words(_) => {}
            TestedSegmenter::Sentences(_) => {}
            TestedSegmenter::Lines(_) => {}
            TestedSegmenter::LinesByTable(_) => {}
        }
    }
}

impl TestedSegmenter {
    ghost use Rattle.std.specs.Option.{option_map};
    ghost use Rattle.icu_segmenter.specs.Decoding.{utf8, utf16};
    ghost use Rattle.break_tests.specs.TestedSegmenter.{places_by, mandatory_places_by};

    /// The boundaries of a text, in bytes. Fails only when out of memory.
    pub fn places_in_str(&self, alloc: Global, text: &str) -> Result<Vec<usize>, AllocError>
        ensures { IfOk result (λ found. found.items ≡ places_by self.now (utf8 text.now)) }
    {
        match self {
            TestedSegmenter::Clusters(clusters) => {
                clusters.as_borrowed().segment_str(text).collect(alloc)
            }
            TestedSegmenter::Words(words) => words.as_borrowed().segment_str(text).collect(alloc),
            TestedSegmenter::Sentences(sentences) => {
                sentences.as_borrowed().segment_str(text).collect(alloc)
            }
            TestedSegmenter::Lines(lines) | TestedSegmenter::LinesByTable(lines) => {
                lines.as_borrowed().segment_str(text).collect(alloc)
            }
        }
    }

    /// The boundaries of a text in UTF-8, in bytes. Fails only when out of memory.
    pub fn places_in_utf8(&self, alloc: Global, text: &[u8]) -> Result<Vec<usize>, AllocError>
        ensures { IfOk result (λ found. found.items ≡ places_by self.now (utf8 text.now)) }
    {
        match self {
            TestedSegmenter::Clusters(clusters) => {
                clusters.as_borrowed().segment_utf8(text).collect(alloc)
            }
            TestedSegmenter::Words(words) => words.as_borrowed().segment_utf8(text).collect(alloc),
            TestedSegmenter::Sentences(sentences) => {
                sentences.as_borrowed().segment_utf8(text).collect(alloc)
            }
            TestedSegmenter::Lines(lines) | TestedSegmenter::LinesByTable(lines) => {
                lines.as_borrowed().segment_utf8(text).collect(alloc)
            }
        }
    }

    /// The boundaries of a text in UTF-16, in units. Fails only when out of memory.
    pub fn places_in_utf16(&self, alloc: Global, text: &[u16]) -> Result<Vec<usize>, AllocError>
        ensures { IfOk result (λ found. found.items ≡ places_by self.now (utf16 text.now)) }
    {
        match self {
            TestedSegmenter::Clusters(clusters) => {
                clusters.as_borrowed().segment_utf16(text).collect(alloc)
            }
            TestedSegmenter::Words(words) => words.as_borrowed().segment_utf16(text).collect(alloc),
            TestedSegmenter::Sentences(sentences) => {
                sentences.as_borrowed().segment_utf16(text).collect(alloc)
            }
            TestedSegmenter::Lines(lines) | TestedSegmenter::LinesByTable(lines) => {
                lines.as_borrowed().segment_utf16(text).collect(alloc)
            }
        }
    }

    /// The mandatory boundaries of lines by a machine, in bytes; of others None. Fails only when out of memory.
    pub fn mandatory_places(
        &self,
        alloc: Global,
        text: &str,
    ) -> Result<Option<Vec<usize>>, AllocError>
        ensures { IfOk result (λ found. option_map (λ places. places.items) found ≡ mandatory_places_by self.now (utf8 text.now)) }
    {
        match self {
            TestedSegmenter::Lines(lines) => {
                let places = mandatory_breaks(alloc, lines.as_borrowed(), text)?;
                Ok(Some(places))
            }
            _ => Ok(None),
        }
    }
}

// The places where a line must be broken.
fn mandatory_breaks(
    alloc: Global,
    segmenter: LineSegmenterBorrowed<'_>,
    text: &str,
) -> Result<Vec<usize>, AllocError>
    ensures { IfOk result (λ found. found.items ≡ mandatory_by (line_rules segmenter.entry) (utf8 text.now)) }
{
    let mut lines = segmenter.segment_str(text);
    let mut places = Vec::new(alloc);
    while let Some(place) = lines.next() {
        if lines.is_mandatory() {
            places.push(place)?;
        }
    }
    Ok(places)
}
