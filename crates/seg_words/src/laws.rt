//! Laws of the boundaries of words. The type of what ends at a boundary is that of its status, so what is said of statuses is
//! said of types.

ghost use Rattle.std.specs.Prelude.{◌≡◌, ℕ, List, [], ◌∷◌};
ghost use Rattle.seg_text.specs.Boundaries.{AreSameCounted, RestartsIn, HasOneAnswer};
ghost use Rattle.seg_text.specs.Decoding.{utf8, utf16};
ghost use Rattle.seg_text.specs.Items.{code_points};
ghost use Rattle.seg_data.specs.ScriptWords.{ScriptWords, AreSameWords};
ghost use Rattle.seg_clusters.specs.Certain.{AlwaysBreaks, BeginsBetween, SplitsBetween};
ghost use Rattle.seg_clusters.specs.Rules.{PartsTexts};
ghost use Rattle.seg_words.specs.WordRules.{WordsAreCertain, WordsResetAfter, HasNoRunOfWords, WordRules, first_word_stretch, with_words, word_boundaries_by, word_boundaries_of};
ghost use Rattle.seg_words.specs.Words.{word_rules, words_left};

use crate::word::{WordBreakIterator, WordSegmenterBorrowed, WordType};
use seg_clusters::engine::Engine;
use seg_text::indices::{Utf8CharIndices, Utf16Indices};

/// Law: a list of code points has exactly one list of boundaries, in code points: the first is at its start, and the
/// others come from the first stretch of what is left, again and again. Such a stretch is the machine's pick, what the verdict
/// of the table takes, or a run of complex code points.
pub fn boundaries_are_one(segmenter: WordSegmenterBorrowed<'_>)
    ensures { HasOneAnswer (first_word_stretch (word_rules segmenter.entry)) }
{
    let _ = segmenter;
}

/// Law: a text in possibly ill-formed UTF-8 and one in possibly ill-formed UTF-16 that have equal code points have the same
/// boundaries, counted in code points, with the same statuses. The words of both are returned, none of them read.
pub fn equal_code_points<'data, 's>(
    segmenter: WordSegmenterBorrowed<'data>,
    one: &'s [u8],
    other: &'s [u16],
) -> (
    WordBreakIterator<'data, Utf8CharIndices<'s>>,
    WordBreakIterator<'data, Utf16Indices<'s>>,
)
    ensures one { words_left result.0 ≡ word_boundaries_of (word_rules segmenter.entry) (utf8 one.now) }
    ensures other { words_left result.1 ≡ word_boundaries_of (word_rules segmenter.entry) (utf16 other.now) }
    ensures equal { code_points (utf8 one.now).items ≡ code_points (utf16 other.now).items
        → AreSameCounted (utf8 one.now) (words_left result.0) (utf16 other.now) (words_left result.1) }
{
    (segmenter.segment_utf8(one), segmenter.segment_utf16(other))
}

/// Law: the words of each script are a set: in what order they come, and how often, changes no boundary.
pub fn equal_words()
    ensures { (words : WordRules) (others : ScriptWords) → AreSameWords words.payloads.words others
        → word_boundaries_by (with_words words others) ≡ word_boundaries_by words }
{}

/// Law: a text without complex code points may be segmented anew from any of its boundaries: the boundaries after one of
/// them are those of the rest taken alone, shifted, with the same statuses. By a machine so may every text, with no dictionary
/// in any place.
pub fn restart(segmenter: WordSegmenterBorrowed<'_>)
    ensures { (code_points : List ℕ) → HasNoRunOfWords (word_rules segmenter.entry).rules (word_rules segmenter.entry).payloads.words code_points
        → RestartsIn (word_boundaries_by (word_rules segmenter.entry)) code_points }
{
    let _ = segmenter;
}

/// Law: a text may be split after each code point that `resets_after` names. Where the first of two texts ends with it, the boundaries of
/// both, joined, are those of the first, and then those of the second but for its start, so much later, with the same statuses, whatever
/// runs stand in either. So it is counted in code points, and as places in possibly ill-formed UTF-8, a `str` too, in Latin-1 and in
/// possibly ill-formed UTF-16.
pub fn parts_behind_resets(segmenter: WordSegmenterBorrowed<'_>, code_point: char)
    ensures { WordsResetAfter (word_rules segmenter.entry) code_point → PartsTexts (word_boundaries_by (word_rules segmenter.entry)) code_point }
{
    let _ = code_point;
    segmenter.payloads.facts();
    if let Engine::Neo(machine) = segmenter.engine {
        machine.facts();
    }
}

/// Law: each list that has three code points one after another, of which `always_breaks` says so, has a boundary between the last two,
/// whatever stands before and behind them. The list may be split there: it has the boundaries and statuses of what reaches up to the last of the
/// three, without its end, and then those of what begins with it. So above the place it has those of what begins there.
pub fn certain_places(segmenter: WordSegmenterBorrowed<'_>, before: u32, one: u32, other: u32)
    ensures breaks { WordsAreCertain (word_rules segmenter.entry) before one other
        → AlwaysBreaks (word_boundaries_by (word_rules segmenter.entry)) before one other }
    ensures parts { WordsAreCertain (word_rules segmenter.entry) before one other
        → SplitsBetween (word_boundaries_by (word_rules segmenter.entry)) before one other }
    ensures begins { WordsAreCertain (word_rules segmenter.entry) before one other
        → BeginsBetween (word_boundaries_by (word_rules segmenter.entry)) before one other }
{
    let _ = (before, one, other);
    segmenter.payloads.facts();
    if let Engine::Neo(machine) = segmenter.engine {
        machine.facts();
    }
}

/// The numbers of the types of words: of none, a number and letters.
pub fn word_type_numbers() -> [u8; 3]
    ensures { result ≡ 0 ∷ 1 ∷ 2 ∷ [] }
{
    [
        WordType::None as u8,
        WordType::Number as u8,
        WordType::Letter as u8,
    ]
}
