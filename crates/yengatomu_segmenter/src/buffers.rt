//! Boundaries into a caller's buffers.

ghost use Rattle.std.specs.Prelude.{◌≡◌, ◌+◌, ◌≤◌, ◌<◌, ◌^◌, ◌++◌, ℕ, ◌==◌, if◌then◌else◌, drop, length, map, min, slice_index, take};
ghost use Rattle.icu_segmenter.specs.Boundaries.{IsCover, boundaries_in, offsets};
ghost use Rattle.icu_segmenter.specs.TextSegments.{segments_of, words_of};
ghost use Rattle.icu_segmenter.specs.Filled.{IsFilled, TakesFirst};
ghost use Rattle.yengatomu_segmenter.specs.Marks.{number_of_type};

use icu_segmenter::options::WordType;
use icu_segmenter::segments::{BreakIterator, WordBreaks};

/// What is said of a segment, as a number.
pub trait Mark: Copy {
    ghost number: { Self → ℕ };

    fn number(self) -> u8
        ensures { result ≡ number self };
}

impl Mark for () {
    ghost number = { λ _. 0 };

    fn number(self) -> u8 {
        0
    }
}

impl Mark for bool {
    ghost number = { λ must_end. if must_end then 1 else 0 };

    fn number(self) -> u8 {
        if self { 1 } else { 0 }
    }
}

impl Mark for WordType {
    ghost number = { number_of_type };

    fn number(self) -> u8 {
        match self {
            WordType::None => 0,
            WordType::Number => 1,
            WordType::Letter => 2,
        }
    }
}

// How many places are found at a time, where they are counted.
const ROOM: usize = 64;

/// Writes the first boundaries behind the start, so much later, and returns how many.
pub fn fill<B: BreakIterator>(breaks: B, from: usize, places: &mut [usize]) -> usize
    requires cover { IsCover 0 (length (B.whole breaks)) (B.left breaks) }
    requires fits { from + length (B.whole breaks) < 2 ^ 64 }
    ensures { IsFilled (map (λ place. from + place) (offsets (drop 1 (B.left breaks)))) places.old places.new result }
{
    let mut breaks = breaks;
    let _start = breaks.next_break();
    let count = breaks.fill(places);
    put_later(places, count, from);
    count
}

// So many places, each so much later.
fn put_later(places: &mut [usize], count: usize, from: usize)
    requires count { count ≤ length places.old }
    requires fits { (k : ℕ) → k < count → from + slice_index places.old k < 2 ^ 64 }
    ensures { places.new ≡ map (λ place. from + place) (take count places.old) ++ drop count places.old }
{
    for index in 0..count {
        places[index] = from + places[index];
    }
}

/// Writes the first boundaries as `fill` does, with their marks, as many as both buffers have room for, many at a time.
pub fn fill_both<M: Mark, B: BreakIterator<Mark = M>>(
    breaks: B,
    from: usize,
    places: &mut [usize],
    marks: &mut [u8],
) -> usize
    requires cover { IsCover 0 (length (B.whole breaks)) (B.left breaks) }
    requires fits { from + length (B.whole breaks) < 2 ^ 64 }
    ensures places { TakesFirst (min (length places.old) (length marks.old)) (map (λ place. from + place) (offsets (drop 1 (B.left breaks)))) places.old places.new result }
    ensures marks { TakesFirst (min (length places.old) (length marks.old)) (map (λ boundary. M.number (B.mark boundary.status)) (drop 1 (B.left breaks))) marks.old marks.new result }
{
    let mut breaks = breaks;
    let _start = breaks.next_break();
    let count = breaks.fill_both(places, marks);
    put_later(places, count, from);
    put_marks::<M, B>(marks, count);
    count
}

// So many statuses, each as the number of what it says.
fn put_marks<M: Mark, B: BreakIterator<Mark = M>>(marks: &mut [u8], count: usize)
    requires { count ≤ length marks.old }
    ensures { marks.new ≡ map (λ status. M.number (B.mark status)) (take count marks.old) ++ drop count marks.old }
{
    for index in 0..count {
        marks[index] = B::mark_of(marks[index]).number();
    }
}

/// How many segments there are.
pub fn count<B: BreakIterator>(breaks: B) -> usize
    requires fits { length (B.whole breaks) < 2 ^ 64 }
    requires found { B.left breaks ≡ boundaries_in (B.find breaks) (B.decode (B.whole breaks)) }
    requires cover { IsCover 0 (length (B.whole breaks)) (B.left breaks) }
    ensures { result + 1 ≡ length (B.left breaks) }
{
    let mut breaks = breaks;
    let _start = breaks.next_break();
    let mut places = [0; ROOM];
    let mut total = 0;
    loop {
        let count = breaks.fill(&mut places);
        total += count;
        if count < ROOM {
            return total;
        }
    }
}

/// How many words there are.
pub fn count_words<B: WordBreaks>(breaks: B) -> usize
    requires fits { length (B.whole breaks) < 2 ^ 64 }
    requires found { B.left breaks ≡ boundaries_in (B.find breaks) (B.decode (B.whole breaks)) }
    requires cover { IsCover 0 (length (B.whole breaks)) (B.left breaks) }
    ensures { result ≡ length (words_of (segments_of B.mark (B.whole breaks) (B.left breaks))) }
{
    breaks.words().count()
}
