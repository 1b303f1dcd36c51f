//! Text boundaries for C: clusters, words, sentences and lines over Unicode's data, of possibly ill-formed UTF-8 and, in `utf16` and `latin1`, of
//! UTF-16 and Latin-1.
//!
//! bindings/include/yengatomu.h declares these calls, and says what a caller in C owes: no prover looks at it. `alloc` and `loan` are passed
//! by nobody there, since they have no bytes.
//!
//! A call that reads takes a shared slot and a loan of what it holds, and gives the loan back, so any number of them may run at once. A call
//! that changes a slot takes it alone, while nothing of it is lent.
#![tactic(auto)]

ghost use Rattle.std.specs.Prelude.{◌≡◌, ◌+◌, ◌-◌, ◌^◌, ℕ, [], Contains, IfSome, None, Option, false, length, min, unwrap_or};
ghost use Rattle.icu_segmenter.specs.Boundaries.{HasRestart};
ghost use Rattle.icu_segmenter.specs.Decoding.{utf8};
ghost use Rattle.icu_segmenter.specs.NearBoundaries.{IsNearestAbove, IsNearestBelow};
ghost use Rattle.icu_segmenter.specs.Filled.{IsFilled, TakesFirst};
ghost use Rattle.yengatomu_segmenter.specs.ByRules.{IsOpenedByRules};
ghost use Rattle.yengatomu_c.specs.Held.{finder_in};
ghost use Rattle.yengatomu_segmenter.specs.Finders.{GoesOnAt, LineFeedsReset, find_by, marks_behind, places_behind, places_in};
ghost use Rattle.yengatomu_c.specs.Lent.{IsLentBy};
ghost use Rattle.yengatomu_segmenter.specs.Loaded.{IsLoaded, numbered_script};
ghost use Rattle.yengatomu_segmenter.specs.Options.{IsOpened, numbered_finder};
ghost use Rattle.yengatomu_segmenter.specs.Words.{word_count};
ghost use Rattle.yengatomu_segmenter.specs.Wrapped.{ends_from, widths_of, wrapped_behind};

mod abbreviations;
mod balanced;
mod columns;
mod handle;
mod latin1;
pub mod laws;
mod loan;
mod parts;
mod slot;
mod utf16;
mod versions;

use icu_segmenter::indices::Utf8CharIndices;
use icu_segmenter::provider::DataError;
use loan::Loan;
use slot::Slot;
use std::alloc::Global;
use yengatomu_segmenter::dictionary::Refusal;
use yengatomu_segmenter::request::{LineNumbers, requested};
use yengatomu_segmenter::rules::Complaint;
use yengatomu_segmenter::segmenter::Segmenter;
use yengatomu_segmenter::{dictionary, rules, texts, wrapped};

/// What a call that reads gives: a number, which is all that C sees, and the loan.
#[repr(C)]
#[derive(Drop)]
pub struct Found {
    /// How many there are, or a place.
    pub count: usize,
    /// The loan that the call was given.
    pub loan: Loan,
}

/// No boundary.
const NONE: usize = usize::MAX;

/// Makes a segmenter in the place of what the slot held. Kinds are 0 clusters, 1 words, 2 sentences, 3 lines. Strictness is 0 strict, 1
/// normal, 2 loose, 3 anywhere; the word option is 0 normal, 1 break all, 2 keep all. Only lines have options. Returns 0 where it is made,
/// 1 when out of memory, 2 where there is no such number.
#[unsafe(no_mangle)]
pub extern "C" fn yengatomu_open(
    alloc: Global,
    slot: &mut Slot,
    kind: u32,
    strictness: u32,
    word_break: u32,
    is_chinese_or_japanese: bool,
) -> u32
    requires own { slot.old.handle.holds.lent ≡ false }
    ensures opened { IsOpened (numbered_finder kind strictness word_break is_chinese_or_japanese) (finder_in slot.new) result }
    ensures restart { IfSome (finder_in slot.new) (λ finder. HasRestart (find_by finder)) }
    ensures feeds { IfSome (finder_in slot.new) LineFeedsReset }
{
    let _ = slot.take(alloc);
    let lines = LineNumbers {
        strictness,
        word_break,
        is_chinese_or_japanese,
    };
    let Some(request) = requested(kind, lines) else {
        return 2;
    };
    match Segmenter::boxed(alloc, request) {
        Ok(segmenter) => {
            slot.put(segmenter);
            0
        }
        Err(DataError::Memory) => 1,
        Err(_) => unreachable!(),
    }
}

/// Makes a segmenter by the rules in a text, in the notation of `seg_notation`, in the place of what the slot held. Its boundaries are
/// those of clusters, where the rules break. Returns 0 where it is made, 1 when out of memory, 2 where the text isn't UTF-8 or its rules
/// are wrong, 3 where the rules have no machine. Of 2 `error` is the line, from 1 on, and 0 where the text isn't UTF-8; of 3 that of a row
/// that shows it, 0 if none does; of others 0.
#[unsafe(no_mangle)]
pub extern "C" fn yengatomu_open_rules(
    alloc: Global,
    slot: &mut Slot,
    text: &[u8],
    error: &mut usize,
) -> u32
    requires own { slot.old.handle.holds.lent ≡ false }
    ensures opened { IsOpenedByRules text.now (finder_in slot.new) error.new result }
    ensures restart { IfSome (finder_in slot.new) (λ finder. HasRestart (find_by finder)) }
{
    let _ = slot.take(alloc);
    *error = 0;
    match rules::boxed(alloc, text) {
        Ok(segmenter) => {
            slot.put(segmenter);
            0
        }
        Err(Complaint::Memory) => 1,
        Err(Complaint::Wrong(line)) => {
            *error = line;
            2
        }
        Err(Complaint::NoMachine(line)) => {
            *error = line;
            3
        }
    }
}

/// Frees what the slot holds, which is then empty.
#[unsafe(no_mangle)]
pub extern "C" fn yengatomu_close(alloc: Global, slot: &mut Slot)
    requires own { slot.old.handle.holds.lent ≡ false }
    ensures empty { finder_in slot.new ≡ None }
    ensures still_own { slot.new.handle.holds.lent ≡ false }
{
    let _ = slot.take(alloc);
}

/// Writes the first boundaries behind `from`, as many as there is room for, and returns how many: those of the text from there on, taken
/// alone. They are those of the whole text where `from` is one of its boundaries and the slot has neither a dictionary nor abbreviations; with
/// these, where a line begins (`laws::lines_go_on`). 0 where the slot is empty.
#[unsafe(no_mangle)]
pub extern "C" fn yengatomu_boundaries(
    slot: &Slot,
    loan: Loan,
    text: &[u8],
    from: usize,
    places: &mut [usize],
) -> Found
    requires lent { IsLentBy slot.now loan }
    ensures back { result.loan ≡ loan }
    ensures empty { finder_in slot.now ≡ None → IsFilled [] places.old places.new result.count }
    ensures given { IfSome (finder_in slot.now) (λ finder. IsFilled (places_behind finder utf8 text.now from) places.old places.new result.count) }
    ensures whole { IfSome (finder_in slot.now) (λ finder. HasRestart (find_by finder) → Contains (places_in finder utf8 text.now) from → GoesOnAt finder utf8 text.now from) }
{
    match slot.lend(loan) {
        Ok(lease) => {
            let written = texts::boundaries::<Utf8CharIndices<'_>>(lease.get(), text, from, places);
            Found {
                count: written,
                loan: lease.back(),
            }
        }
        Err(loan) => Found { count: 0, loan },
    }
}

/// Writes boundaries as `yengatomu_boundaries` does, with a mark beside each: of words 0 no word, 1 a number, 2 letters; of lines 1 where the line must
/// end there; of others 0. As many as both buffers have room for.
#[unsafe(no_mangle)]
pub extern "C" fn yengatomu_marked_boundaries(
    slot: &Slot,
    loan: Loan,
    text: &[u8],
    from: usize,
    places: &mut [usize],
    marks: &mut [u8],
) -> Found
    requires lent { IsLentBy slot.now loan }
    ensures back { result.loan ≡ loan }
    ensures empty { finder_in slot.now ≡ None → (result.count ≡ 0) × (places.new ≡ places.old) × (marks.new ≡ marks.old) }
    ensures places { IfSome (finder_in slot.now) (λ finder. TakesFirst (min (length places.old) (length marks.old)) (places_behind finder utf8 text.now from) places.old places.new result.count) }
    ensures marks { IfSome (finder_in slot.now) (λ finder. TakesFirst (min (length places.old) (length marks.old)) (marks_behind finder utf8 text.now from) marks.old marks.new result.count) }
{
    match slot.lend(loan) {
        Ok(lease) => {
            let written = texts::marked_boundaries::<Utf8CharIndices<'_>>(
                lease.get(),
                text,
                from,
                places,
                marks,
            );
            Found {
                count: written,
                loan: lease.back(),
            }
        }
        Err(loan) => Found { count: 0, loan },
    }
}

/// The nearest boundary above a place, which may be inside a character. SIZE_MAX where there is none, and where the slot is empty.
#[unsafe(no_mangle)]
pub extern "C" fn yengatomu_next(slot: &Slot, loan: Loan, text: &[u8], place: usize) -> Found
    requires lent { IsLentBy slot.now loan }
    ensures back { result.loan ≡ loan }
    ensures empty { finder_in slot.now ≡ None → result.count ≡ 2 ^ 64 - 1 }
    ensures nearest { IfSome (finder_in slot.now) (λ finder. (found : Option ℕ) × IsNearestAbove (places_in finder utf8 text.now) place found × (result.count ≡ unwrap_or found (2 ^ 64 - 1))) }
{
    match slot.lend(loan) {
        Ok(lease) => {
            let found = texts::next(lease.get(), text, place);
            Found {
                count: found.unwrap_or(NONE),
                loan: lease.back(),
            }
        }
        Err(loan) => Found { count: NONE, loan },
    }
}

/// The nearest boundary below a place, which may be inside a character, or past the end. SIZE_MAX where there is none, and where the slot is
/// empty.
#[unsafe(no_mangle)]
pub extern "C" fn yengatomu_previous(slot: &Slot, loan: Loan, text: &[u8], place: usize) -> Found
    requires lent { IsLentBy slot.now loan }
    ensures back { result.loan ≡ loan }
    ensures empty { finder_in slot.now ≡ None → result.count ≡ 2 ^ 64 - 1 }
    ensures nearest { IfSome (finder_in slot.now) (λ finder. (found : Option ℕ) × IsNearestBelow (places_in finder utf8 text.now) place found × (result.count ≡ unwrap_or found (2 ^ 64 - 1))) }
{
    match slot.lend(loan) {
        Ok(lease) => {
            let found = texts::previous(lease.get(), text, place);
            Found {
                count: found.unwrap_or(NONE),
                loan: lease.back(),
            }
        }
        Err(loan) => Found { count: NONE, loan },
    }
}

/// Writes where the first lines end that the text from a place on is wrapped to, as many as there is room for, and returns how many. 0 of
/// other kinds, and where the slot is empty.
#[unsafe(no_mangle)]
pub extern "C" fn yengatomu_wrap(
    slot: &Slot,
    loan: Loan,
    text: &[u8],
    from: usize,
    columns: usize,
    ends: &mut [usize],
) -> Found
    requires lent { IsLentBy slot.now loan }
    ensures back { result.loan ≡ loan }
    ensures empty { finder_in slot.now ≡ None → IsFilled [] ends.old ends.new result.count }
    ensures lines { IfSome (finder_in slot.now) (λ finder. IsFilled (ends_from from (wrapped_behind finder utf8 columns text.now from)) ends.old ends.new result.count) }
{
    match slot.lend(loan) {
        Ok(lease) => {
            let written = wrapped::ends(lease.get(), text, from, columns, ends);
            Found {
                count: written,
                loan: lease.back(),
            }
        }
        Err(loan) => Found { count: 0, loan },
    }
}

/// Writes the ends of lines as `yengatomu_wrap` does, with how many columns each takes. As many as both buffers have room for.
#[unsafe(no_mangle)]
pub extern "C" fn yengatomu_wrap_columns(
    slot: &Slot,
    loan: Loan,
    text: &[u8],
    from: usize,
    columns: usize,
    ends: &mut [usize],
    widths: &mut [usize],
) -> Found
    requires lent { IsLentBy slot.now loan }
    ensures back { result.loan ≡ loan }
    ensures empty { finder_in slot.now ≡ None → (result.count ≡ 0) × (ends.new ≡ ends.old) × (widths.new ≡ widths.old) }
    ensures lines { IfSome (finder_in slot.now) (λ finder. TakesFirst (min (length ends.old) (length widths.old)) (ends_from from (wrapped_behind finder utf8 columns text.now from)) ends.old ends.new result.count) }
    ensures widths { IfSome (finder_in slot.now) (λ finder. TakesFirst (min (length ends.old) (length widths.old)) (widths_of (wrapped_behind finder utf8 columns text.now from)) widths.old widths.new result.count) }
{
    match slot.lend(loan) {
        Ok(lease) => {
            let written = wrapped::ends_and_widths(lease.get(), text, from, columns, ends, widths);
            Found {
                count: written,
                loan: lease.back(),
            }
        }
        Err(loan) => Found { count: 0, loan },
    }
}

/// How many segments the text has. 0 where the slot is empty.
#[unsafe(no_mangle)]
pub extern "C" fn yengatomu_count(slot: &Slot, loan: Loan, text: &[u8]) -> Found
    requires lent { IsLentBy slot.now loan }
    ensures back { result.loan ≡ loan }
    ensures empty { finder_in slot.now ≡ None → result.count ≡ 0 }
    ensures count { IfSome (finder_in slot.now) (λ finder. result.count + 1 ≡ length (places_in finder utf8 text.now)) }
{
    match slot.lend(loan) {
        Ok(lease) => {
            let count = texts::count::<Utf8CharIndices<'_>>(lease.get(), text);
            Found {
                count,
                loan: lease.back(),
            }
        }
        Err(loan) => Found { count: 0, loan },
    }
}

/// How many words the text has, of letters or numbers. 0 of other kinds, and where the slot is empty.
#[unsafe(no_mangle)]
pub extern "C" fn yengatomu_count_words(slot: &Slot, loan: Loan, text: &[u8]) -> Found
    requires lent { IsLentBy slot.now loan }
    ensures back { result.loan ≡ loan }
    ensures empty { finder_in slot.now ≡ None → result.count ≡ 0 }
    ensures count { IfSome (finder_in slot.now) (λ finder. result.count ≡ word_count finder utf8 text.now) }
{
    match slot.lend(loan) {
        Ok(lease) => {
            let count = texts::count_words::<Utf8CharIndices<'_>>(lease.get(), text);
            Found {
                count,
                loan: lease.back(),
            }
        }
        Err(loan) => Found { count: 0, loan },
    }
}

/// Gives a segmenter of words or lines the words of a script, if it has none of that script yet. Scripts are 1 Myanmar, 2 Chinese or
/// Japanese, 3 Khmer, 4 Lao, 5 Thai. Returns 0 where they are loaded. Otherwise the slot is as it was: 1 when out of memory, 2 where there
/// is no such script or the slot holds neither words nor lines, 3 where a word isn't UTF-8.
#[unsafe(no_mangle)]
pub extern "C" fn yengatomu_load_dictionary(
    alloc: Global,
    slot: &mut Slot,
    words: &[&[u8]],
    script: u32,
) -> u32
    requires own { slot.old.handle.holds.lent ≡ false }
    ensures loaded { IsLoaded words.now (numbered_script script) (finder_in slot.old) (finder_in slot.new) result }
    ensures feeds { IfSome (finder_in slot.old) LineFeedsReset → IfSome (finder_in slot.new) LineFeedsReset }
{
    let Some(mut segmenter) = slot.take(alloc) else {
        return 2;
    };
    let loaded = dictionary::load(alloc, &mut segmenter, words, script);
    slot.put(segmenter);
    match loaded {
        Ok(()) => 0,
        Err(Refusal::Memory) => 1,
        Err(Refusal::NoSuch) => 2,
        Err(Refusal::NotUtf8) => 3,
    }
}
