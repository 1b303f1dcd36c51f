//! Callers that ask for words: counts, indexes, highlights.
ghost use Rattle.std.specs.Prelude.{◌≡◌, ◌++◌, IfOk, OnOk, length, map, string_bytes};
ghost use Rattle.std.specs.List.{flat_map};
ghost use Rattle.callers.specs.Highlights.{shown};
ghost use Rattle.icu_segmenter.specs.TextSegments.{segments_of, units_of, words_of};
ghost use Rattle.icu_segmenter.specs.Decoding.{utf8};
ghost use Rattle.icu_segmenter.specs.WordRules.{type_of, word_boundaries_of};
ghost use Rattle.icu_segmenter.specs.Words.{word_rules};

use icu_segmenter::WordSegmenterBorrowed;
use icu_segmenter::options::WordType;
use icu_segmenter::segments::{BreakIterator, WordBreaks};
use std::alloc::{AllocError, Global};

/// How many words a text has, of letters or numbers.
pub fn word_count(segmenter: WordSegmenterBorrowed<'_>, text: &str) -> usize
    ensures { result ≡ length (words_of (segments_of type_of text.now (word_boundaries_of (word_rules segmenter.entry) (utf8 text.now)))) }
{
    segmenter.segment_str(text).words().count()
}

/// The words of a text, of letters or numbers, each with the place where it begins, in bytes, and its type. Fails only when out of memory.
pub fn words<'s>(
    alloc: Global,
    segmenter: WordSegmenterBorrowed<'_>,
    text: &'s str,
) -> Result<Vec<(usize, &'s str, WordType)>, AllocError>
    ensures { IfOk result (λ found. map (λ word. record { offset = word.0; units = word.1.now; mark = word.2 }) found.items ≡ words_of (segments_of type_of text.now (word_boundaries_of (word_rules segmenter.entry) (utf8 text.now)))) }
{
    segmenter.segment_str(text).words().collect(alloc)
}

/// A text as it is shown to one who looked for `query`: with each segment that equals it in brackets. Fails only when out of memory.
pub fn highlighted(
    alloc: Global,
    segmenter: WordSegmenterBorrowed<'_>,
    text: &str,
    query: &str,
) -> Result<String, AllocError>
    ensures { IfOk result (λ found. string_bytes found ≡ flat_map (shown query.now) (units_of (segments_of type_of text.now (word_boundaries_of (word_rules segmenter.entry) (utf8 text.now))))) }
{
    let mut found = String::new(alloc);
    for segment in segmenter.segment_str(text).segments() {
        push_shown(&mut found, query, segment)?;
    }
    Ok(found)
}

// Adds a segment as it is shown.
fn push_shown(found: &mut String, query: &str, segment: &str) -> Result<(), AllocError>
    ensures { OnOk result (string_bytes found.new ≡ string_bytes found.old ++ shown query.now segment.now) }
{
    if segment != query {
        return found.push_str(segment);
    }
    found.push('[')?;
    found.push_str(segment)?;
    found.push(']')
}
