//! Where abbreviations may begin.

ghost use Rattle.std.specs.Prelude.{◌≡◌, ◌&&◌, ◌||◌, false, IsTrue, not};
ghost use Rattle.seg_data.specs.ScriptWords.{words_after};
ghost use Rattle.seg_data.specs.WordSets.{has_empty, has_nonempty};
ghost use Rattle.seg_segments.specs.Suppression.{is_abbreviated_after, is_space, is_word_and_spaces};
ghost use Rattle.seg_segments.specs.Kept.{codes_before, stays, IsReading, IsLater, IsOver};

use crate::suppress::characters::{is_letter_or_digit, is_space};
use seg_data::provider::DictionaryCursor;
use seg_data::words::WordCursor;
use seg_text::cursor::Cursor;

/// What stands between a place and a boundary.
#[derive(Clone, Copy)]
enum Reading {
    /// A word, and after it spaces alone.
    Word,
    /// None, but one may end at a later boundary.
    Open,
    /// None, and none ends at a later boundary.
    Over,
}

/// The first place from which a word may still end at a boundary.
#[derive(Drop)]
pub struct Starts<'data, I: Cursor> {
    /// The words, of which nothing was read.
    pub words: DictionaryCursor<'data>,
    /// The text from the place on.
    pub rest: I,
    /// Whether a letter or a digit stands before the place.
    pub joined: bool,
}

impl<'data, I: Cursor> Starts<'data, I> {
    /// This place of the text, once more.
    pub fn fork(&self) -> Self
        ensures { result ≡ self.now }
    {
        Starts {
            words: self.words,
            rest: self.rest.fork(),
            joined: self.joined,
        }
    }

    /// Whether a boundary at a place stays. Later ones are asked after it.
    pub fn keeps(&mut self, place: usize) -> bool
        ensures stays { result ≡ stays (words_after self.old.words) self.old.joined (I.text self.old.rest) place }
        ensures words { self.new.words ≡ self.old.words }
        ensures later { IsLater (words_after self.old.words) place self.old.joined (I.text self.old.rest) self.new.joined (I.text self.new.rest) }
    {
        if place >= self.rest.end() {
            return true;
        }
        self.leave_over(place);
        !any_word(self.words, self.rest.fork(), self.joined, place)
    }

    /// Goes on to the first place from which a word may end at a boundary from this one on.
    fn leave_over(&mut self, place: usize)
        ensures words { self.new.words ≡ self.old.words }
        ensures later { IsLater (words_after self.old.words) place self.old.joined (I.text self.old.rest) self.new.joined (I.text self.new.rest) }
    {
        while self.is_over(place) {
            let Some((_, code_point)) = self.rest.next_item() else {
                return;
            };
            self.joined = is_letter_or_digit(code_point);
        }
    }

    /// Whether a place is ahead, and no word begins here that ends at a boundary from that one on.
    fn is_over(&self, place: usize) -> bool
        ensures { IsTrue result → IsOver (words_after self.now.words) place self.now.joined (I.text self.now.rest) }
    {
        if self.rest.place() >= place {
            return false;
        }
        if self.joined {
            return true;
        }
        matches!(
            read_word(self.words, self.rest.fork(), place),
            Reading::Over
        )
    }
}

/// Whether a word and spaces stand from some place of a text up to a boundary.
fn any_word<D: WordCursor, I: Cursor>(words: D, text: I, joined: bool, place: usize) -> bool
    ensures { result ≡ is_abbreviated_after joined (D.tails words) (codes_before place (I.text text).items) }
{
    let mut rest = text;
    let mut joined = joined;
    while rest.place() < place {
        if ends_word(&words, &rest, joined, place) {
            return true;
        }
        let Some((_, code_point)) = rest.next_item() else {
            return false;
        };
        joined = is_letter_or_digit(code_point);
    }
    false
}

/// Whether a word and spaces stand from the beginning of a text up to a boundary, and no letter or digit before them.
fn ends_word<D: WordCursor, I: Cursor>(words: &D, text: &I, joined: bool, place: usize) -> bool
    ensures { result ≡ (not joined && is_word_and_spaces (D.tails words.now) (codes_before place (I.text text.now).items)) }
{
    if joined {
        return false;
    }
    matches!(read_word(words.fork(), text.fork(), place), Reading::Word)
}

/// What stands from the beginning of a text up to a boundary.
fn read_word<D: WordCursor, I: Cursor>(words: D, text: I, place: usize) -> Reading
    ensures { IsReading (D.tails words) place (I.text text).items result }
{
    let mut words = words;
    let mut rest = text;
    let mut ended = false;
    while rest.place() < place {
        let Some((_, code_point)) = rest.next_item() else {
            break;
        };
        words.step(code_point);
        ended = ends_after(&words, ended, code_point);
        if is_spent(&words, ended) {
            return Reading::Over;
        }
    }
    if ended { Reading::Word } else { Reading::Open }
}

/// Whether what was read is a word and spaces, where the cursor has read one code point more, and `ended` says the same of those
/// before it.
fn ends_after<D: WordCursor>(words: &D, ended: bool, code_point: u32) -> bool
    ensures { result ≡ (has_empty (D.tails words.now) || (ended && is_space code_point)) }
{
    words.is_word() || (ended && is_space(code_point))
}

/// Whether what was read is no word and spaces, and no longer word begins with it.
fn is_spent<D: WordCursor>(words: &D, ended: bool) -> bool
    ensures { IsTrue result → (ended ≡ false) × (has_nonempty (D.tails words.now) ≡ false) }
{
    !ended && !words.goes_on()
}
