//! Callers that ask for sentences, of a whole text or block by block.
ghost use Rattle.std.specs.Prelude.{◌≡◌, ◌%◌, ◌^◌, None, IfOk, IfSome, length, map};
ghost use Rattle.std.specs.List.{last_or};
ghost use Rattle.std.specs.Option.{option_map};
ghost use Rattle.callers.specs.Blocks.{IsBlock};
ghost use Rattle.icu_segmenter.specs.Clusters.{sentence_rules};
ghost use Rattle.icu_segmenter.specs.Rules.{boundaries_of};
ghost use Rattle.icu_segmenter.specs.TextSegments.{nothing, segments_of, units_of};
ghost use Rattle.icu_segmenter.specs.Decoding.{utf8};

use icu_segmenter::SentenceSegmenterBorrowed;
use icu_segmenter::laws::sentence;
use icu_segmenter::segments::BreakIterator;
use std::alloc::{AllocError, Global};

/// The sentences of a text. Fails only when out of memory.
pub fn sentence_texts<'s>(
    alloc: Global,
    segmenter: SentenceSegmenterBorrowed<'_>,
    text: &'s str,
) -> Result<Vec<&'s str>, AllocError>
    ensures { IfOk result (λ found. map (λ sentence. sentence.now) found.items ≡ units_of (segments_of nothing text.now (boundaries_of (sentence_rules segmenter.entry) (utf8 text.now)))) }
{
    segmenter.segment_str(text).segments().collect(alloc)
}

/// How many sentences possibly ill-formed UTF-8 has.
pub fn sentence_count(segmenter: SentenceSegmenterBorrowed<'_>, text: &[u8]) -> usize
    ensures { result ≡ length (units_of (segments_of nothing text.now (boundaries_of (sentence_rules segmenter.entry) (utf8 text.now)))) }
{
    segmenter.segment_utf8(text).segments().count()
}

/// The last sentence of a text, and none of the empty one.
pub fn last_sentence<'s>(segmenter: SentenceSegmenterBorrowed<'_>, text: &'s str) -> Option<&'s str>
    ensures { option_map (λ sentence. sentence.now) result ≡ last_or None (units_of (segments_of nothing text.now (boundaries_of (sentence_rules segmenter.entry) (utf8 text.now)))) }
{
    segmenter.segment_str(text).segments().last()
}

/// How many sentences possibly ill-formed UTF-8 has, modulo 2^64, block by block up to each line feed, as where a text is read
/// bit by bit: each block is segmented alone. `None` where line feeds don't reset the segmenter.
pub fn sentence_count_by_blocks(
    segmenter: SentenceSegmenterBorrowed<'_>,
    text: &[u8],
) -> Option<usize>
    ensures { IfSome result (λ count. count ≡ length (units_of (segments_of nothing text.now (boundaries_of (sentence_rules segmenter.entry) (utf8 text.now)))) % 2 ^ 64) }
{
    if !segmenter.resets_after('\n') {
        return None;
    }
    sentence::parts_behind_resets(segmenter, '\n');
    let mut count = 0usize;
    let mut rest = text;
    while !rest.is_empty() {
        let (block, after) = rest.split_at(block_length(rest));
        count = count.wrapping_add(sentence_count(segmenter, block));
        rest = after;
    }
    Some(count)
}

/// How many bytes the first block has: up to its line feed, or all.
fn block_length(bytes: &[u8]) -> usize
    ensures { IsBlock bytes.now result }
{
    for index in 0..bytes.len() {
        if bytes[index] == b'\n' {
            return index + 1;
        }
    }
    bytes.len()
}
