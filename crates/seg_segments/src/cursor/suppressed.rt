//! Cursors over the sentences of a text that abbreviations leave.

ghost use Rattle.seg_segments.specs.Suppressing.{suppressing_finder};

use crate::cursor::{BoundaryFinder, SegmenterOf};
use crate::segments::Source;
use crate::suppress::characters::{is_letter_or_digit, is_space};
use crate::suppress::laws::{begins_at_certain_places, parts_behind_line_feeds};
use crate::suppress::{SuppressedBreaks, SuppressingSegmenter};
use seg_clusters::sentence::SentenceBreakIterator;

impl<'data> BoundaryFinder for SuppressingSegmenter<'data> {
    ghost find = { λ segmenter. suppressing_finder segmenter };

    fn parts_behind_line_feeds(&self) -> bool {
        parts_behind_line_feeds(self.abbreviations, self.sentences);
        self.sentences.resets_after('\n')
    }

    // Whether a boundary is left out depends on what stands before it.
    fn has_certain_places(&self) -> bool {
        false
    }

    fn always_breaks(&self, _before: u32, _one: u32, _other: u32) -> bool {
        false
    }

    fn has_beginnings(&self) -> bool {
        self.sentences.has_certain_places() && self.abbreviations.are_spaceless()
    }

    // No abbreviation goes on past a space: it ends before it, and only spaces stand behind it.
    fn always_begins(&self, before: u32, one: u32, other: u32) -> bool {
        begins_at_certain_places(self.abbreviations, self.sentences, before, one, other);
        let spaceless = self.abbreviations.are_spaceless();
        spaceless
            && is_space(one)
            && !is_space(other)
            && !is_letter_or_digit(one)
            && self.sentences.always_breaks(before, one, other)
    }
}

impl<'data, I: Source> SegmenterOf<I> for SuppressingSegmenter<'data> {
    type Breaks = SuppressedBreaks<'data, SentenceBreakIterator<'data, I>, I>;

    fn breaks(&self, text: I::Units) -> Self::Breaks {
        self.segment::<I>(text)
    }
}
