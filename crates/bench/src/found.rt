//! What segmenters find, as programs compare it: boundaries, each with a mark: `N` and `L` where a number and where a word of letters
//! ends, and `!` where a line must be broken.
//!
//! Each iterator is asked twice more after its end. What comes then, which is to be nothing, stands among the boundaries.

use icu_segmenter::options::WordType;
use icu_segmenter::segments::{BreakIterator, Source};
use seg_words::word::WordBreakIteratorWithWordType;
use std::alloc::{AllocError, Global};

/// Boundaries: the place and the mark of each.
pub type Found = Vec<(usize, char)>;

// The mark of a boundary that has none.
const PLAIN: char = ' ';

// The mark of what is wrong.
const WRONG: char = '?';

/// What is shown as a character.
pub trait Marked {
    /// The character.
    fn mark(self) -> char;
}

impl Marked for () {
    fn mark(self) -> char {
        PLAIN
    }
}

impl Marked for bool {
    fn mark(self) -> char {
        if self { '!' } else { PLAIN }
    }
}

impl Marked for WordType {
    fn mark(self) -> char {
        match self {
            WordType::None => PLAIN,
            WordType::Number => 'N',
            WordType::Letter => 'L',
        }
    }
}

/// The boundaries that an iterator gives. Fails only when out of memory.
pub fn found<B: BreakIterator>(alloc: Global, mut breaks: B) -> Result<Found, AllocError>
where
    B::Mark: Marked,
{
    let mut found = Vec::new(alloc);
    for _turn in 0..u64::MAX {
        let Some((place, mark)) = breaks.next_break() else {
            break;
        };
        found.push((place, mark.mark()))?;
    }
    let goes_on = breaks.next_break().is_some() || breaks.next_break().is_some();
    push_wrong_if(&mut found, goes_on)?;
    Ok(found)
}

// Marks that something is wrong.
fn push_wrong_if(found: &mut Found, is_wrong: bool) -> Result<(), AllocError> {
    if is_wrong {
        found.push((0, WRONG))?;
    }
    Ok(())
}

/// The boundaries of words that come with their types. Fails only when out of memory.
pub fn found_words<I: Source>(
    alloc: Global,
    mut words: WordBreakIteratorWithWordType<'_, I>,
) -> Result<Found, AllocError> {
    let mut found = Vec::new(alloc);
    while let Some((place, word_type)) = words.next() {
        found.push((place, word_type.mark()))?;
    }
    let goes_on = words.next().is_some() || words.next().is_some();
    push_wrong_if(&mut found, goes_on)?;
    Ok(found)
}

/// Boundaries as rows have them: each place with its mark, and a space between two. Fails only when out of memory.
pub fn shown(alloc: Global, found: &[(usize, char)]) -> Result<String, AllocError> {
    let mut out = String::new(alloc);
    for (place, mark) in found {
        let word = format!(in alloc; "{place}{mark}")?;
        push_word(&mut out, word.as_str().trim())?;
    }
    Ok(out)
}

/// Adds a word, after a space if there are some. Fails only when out of memory.
pub fn push_word(out: &mut String, word: &str) -> Result<(), AllocError> {
    if !out.is_empty() {
        out.push(' ')?;
    }
    out.push_str(word)
}
