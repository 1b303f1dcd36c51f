//! Laws of abbreviations. They do nothing.

ghost use Rattle.std.specs.Prelude.{◌≡◌, ℕ, ◌↔◌, false, IsTrue, List};
ghost use Rattle.seg_data.specs.WordSets.{Words};
ghost use Rattle.seg_clusters.specs.Certain.{AreCertain, BeginsBetween};
ghost use Rattle.seg_clusters.specs.Clusters.{sentence_rules};
ghost use Rattle.seg_clusters.specs.Rules.{PartsTexts, ResetsAfter, boundaries_by};
ghost use Rattle.seg_segments.specs.Abbreviations.{abbreviations_of};
ghost use Rattle.seg_segments.specs.InLines.{AreSpaceless};
ghost use Rattle.seg_segments.specs.Suppression.{is_abbreviated, is_letter_or_digit, is_space, without_abbreviated, EndsWithAbbreviation};

use crate::suppress::abbreviations::Abbreviations;
use seg_clusters::laws::sentence;
use seg_clusters::sentence::SentenceSegmenterBorrowed;

/// Law: the test says whether some code points end with an abbreviation and perhaps spaces.
pub fn abbreviated_is_exact()
    ensures { (words : Words) (before : List ℕ) → IsTrue (is_abbreviated words before) ↔ EndsWithAbbreviation words before }
{}

/// Law: abbreviations change nothing at line feeds. Where a text may be split after line feeds, so that each part has the boundaries that
/// it has alone, it may also by the boundaries that abbreviations leave. So it is of boundaries counted in code points, and of places in
/// possibly ill-formed UTF-8, a `str` too, in Latin-1 and in possibly ill-formed UTF-16.
pub fn parts_behind_line_feeds(
    abbreviations: &Abbreviations,
    segmenter: SentenceSegmenterBorrowed<'_>,
)
    ensures { ResetsAfter (sentence_rules segmenter.entry) 0x0A
        → PartsTexts (without_abbreviated (abbreviations_of abbreviations.now) (boundaries_by (sentence_rules segmenter.entry))) 0x0A }
{
    let _ = abbreviations.cursor();
    sentence::cover(segmenter);
    sentence::parts_behind_resets(segmenter, '\n');
}

/// Law: where no abbreviation has a space, a text may be searched from a certain place of sentences on that has a space before it and none
/// behind it. In each list that has such three code points one after another, above the place between the last two stand the boundaries that
/// abbreviations leave of what begins there, taken alone, so much later. Whether one stands at the place depends on what stands before it.
pub fn begins_at_certain_places(
    abbreviations: &Abbreviations,
    segmenter: SentenceSegmenterBorrowed<'_>,
    before: u32,
    one: u32,
    other: u32,
)
    ensures { AreSpaceless (abbreviations_of abbreviations.now) → IsTrue (is_space one) → is_letter_or_digit one ≡ false → is_space other ≡ false
        → AreCertain (sentence_rules segmenter.entry) before one other
        → BeginsBetween (without_abbreviated (abbreviations_of abbreviations.now) (boundaries_by (sentence_rules segmenter.entry))) before one other }
{
    sentence::cover(segmenter);
    sentence::certain_places(segmenter, before, one, other);
}
