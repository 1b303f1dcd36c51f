//! Cursors over the words of a text.

ghost use Rattle.seg_words.specs.Words.{word_rules};
ghost use Rattle.seg_words.specs.WordRules.{word_boundaries_by};

use crate::cursor::{BoundaryFinder, SegmenterOf};
use crate::segments::Source;
use seg_words::laws::{certain_places, parts_behind_resets};
use seg_words::word::{WordBreakIterator, WordSegmenterBorrowed};

impl<'data> BoundaryFinder for WordSegmenterBorrowed<'data> {
    ghost find = { λ segmenter. word_boundaries_by (word_rules segmenter) };

    fn parts_behind_line_feeds(&self) -> bool {
        parts_behind_resets(*self, '\n');
        self.resets_after('\n')
    }

    fn has_certain_places(&self) -> bool {
        (*self).has_certain_places()
    }

    fn always_breaks(&self, before: u32, one: u32, other: u32) -> bool {
        certain_places(*self, before, one, other);
        (*self).always_breaks(before, one, other)
    }
}

impl<'data, I: Source> SegmenterOf<I> for WordSegmenterBorrowed<'data> {
    type Breaks = WordBreakIterator<'data, I>;

    fn breaks(&self, text: I::Units) -> WordBreakIterator<'data, I> {
        self.segment(I::of(text))
    }
}
