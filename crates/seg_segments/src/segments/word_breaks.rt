//! The boundaries of words, each with the type of what ends there.

ghost use Rattle.std.specs.Prelude.{◌≡◌};
ghost use Rattle.seg_words.specs.WordRules.{type_of, word_boundaries_by};
ghost use Rattle.seg_words.specs.Words.{word_finder, words_left, words_source};

use crate::segments::{BreakIterator, ForkBreaks, Source, WordBreaks, copy_of};
use seg_words::word::{WordBreakIterator, WordType, type_of};

impl<'data, I: Source> BreakIterator for WordBreakIterator<'data, I> {
    type Units = I::Units;

    type Mark = WordType;

    ghost mark = { type_of };

    ghost left = { λ words. words_left words };

    ghost find = { λ words. word_boundaries_by (word_finder words) };

    ghost whole = { λ words. I.units (words_source words) };

    ghost decode = { I.decode };

    ghost places = { I.places };

    fn text(&self) -> I::Units {
        self.source().rest()
    }

    #[inline(always)]
    fn next_break(&mut self) -> Option<(usize, WordType)> {
        let place = self.next()?;
        Some((place, self.word_type()))
    }

    fn mark_of(status: u8) -> WordType
        ensures { result ≡ type_of status }
    {
        type_of(status)
    }

    fn fill_both(&mut self, places: &mut [usize], statuses: &mut [u8]) -> usize {
        self.fill_both(places, statuses)
    }

    fn fill(&mut self, places: &mut [usize]) -> usize {
        self.fill(places)
    }
}

impl<'data, I: Source> ForkBreaks for WordBreakIterator<'data, I> {
    fn fork(&self) -> Self {
        copy_of(self)
    }
}

impl<'data, I: Source> WordBreaks for WordBreakIterator<'data, I> {}
