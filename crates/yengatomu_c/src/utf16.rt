//! What a segmenter says of possibly ill-formed UTF-16, for C. Places are 16-bit units.

ghost use Rattle.std.specs.Prelude.{◌≡◌, ◌+◌, [], Contains, IfSome, None, length, min};
ghost use Rattle.icu_segmenter.specs.Boundaries.{HasRestart};
ghost use Rattle.icu_segmenter.specs.Decoding.{utf16};
ghost use Rattle.icu_segmenter.specs.Filled.{IsFilled, TakesFirst};
ghost use Rattle.yengatomu_c.specs.Held.{finder_in};
ghost use Rattle.yengatomu_c.specs.Lent.{IsLentBy};
ghost use Rattle.yengatomu_segmenter.specs.Finders.{GoesOnAt, find_by, marks_behind, places_behind, places_in};
ghost use Rattle.yengatomu_segmenter.specs.Words.{word_count};

mod near;
mod wrapped;

use crate::Found;
use crate::loan::Loan;
use crate::slot::Slot;
use icu_segmenter::indices::Utf16Indices;
use yengatomu_segmenter::texts::{boundaries, count, count_words, marked_boundaries};

/// `yengatomu_boundaries` of UTF-16.
#[unsafe(no_mangle)]
pub extern "C" fn yengatomu_boundaries_utf16(
    slot: &Slot,
    loan: Loan,
    text: &[u16],
    from: usize,
    places: &mut [usize],
) -> Found
    requires lent { IsLentBy slot.now loan }
    ensures back { result.loan ≡ loan }
    ensures empty { finder_in slot.now ≡ None → IsFilled [] places.old places.new result.count }
    ensures given { IfSome (finder_in slot.now) (λ finder. IsFilled (places_behind finder utf16 text.now from) places.old places.new result.count) }
    ensures whole { IfSome (finder_in slot.now) (λ finder. HasRestart (find_by finder) → Contains (places_in finder utf16 text.now) from → GoesOnAt finder utf16 text.now from) }
{
    match slot.lend(loan) {
        Ok(lease) => {
            let written = boundaries::<Utf16Indices<'_>>(lease.get(), text, from, places);
            Found {
                count: written,
                loan: lease.back(),
            }
        }
        Err(loan) => Found { count: 0, loan },
    }
}

/// `yengatomu_marked_boundaries` of UTF-16.
#[unsafe(no_mangle)]
pub extern "C" fn yengatomu_marked_boundaries_utf16(
    slot: &Slot,
    loan: Loan,
    text: &[u16],
    from: usize,
    places: &mut [usize],
    marks: &mut [u8],
) -> Found
    requires lent { IsLentBy slot.now loan }
    ensures back { result.loan ≡ loan }
    ensures empty { finder_in slot.now ≡ None → (result.count ≡ 0) × (places.new ≡ places.old) × (marks.new ≡ marks.old) }
    ensures places { IfSome (finder_in slot.now) (λ finder. TakesFirst (min (length places.old) (length marks.old)) (places_behind finder utf16 text.now from) places.old places.new result.count) }
    ensures marks { IfSome (finder_in slot.now) (λ finder. TakesFirst (min (length places.old) (length marks.old)) (marks_behind finder utf16 text.now from) marks.old marks.new result.count) }
{
    match slot.lend(loan) {
        Ok(lease) => {
            let written = marked_boundaries::<Utf16Indices<'_>>(
                lease.get(),
                text,
                from,
                places,
                marks,
            );
            Found {
                count: written,
                loan: lease.back(),
            }
        }
        Err(loan) => Found { count: 0, loan },
    }
}

/// `yengatomu_count` of UTF-16.
#[unsafe(no_mangle)]
pub extern "C" fn yengatomu_count_utf16(slot: &Slot, loan: Loan, text: &[u16]) -> Found
    requires lent { IsLentBy slot.now loan }
    ensures back { result.loan ≡ loan }
    ensures empty { finder_in slot.now ≡ None → result.count ≡ 0 }
    ensures count { IfSome (finder_in slot.now) (λ finder. result.count + 1 ≡ length (places_in finder utf16 text.now)) }
{
    match slot.lend(loan) {
        Ok(lease) => {
            let count = count::<Utf16Indices<'_>>(lease.get(), text);
            Found {
                count,
                loan: lease.back(),
            }
        }
        Err(loan) => Found { count: 0, loan },
    }
}

/// `yengatomu_count_words` of UTF-16.
#[unsafe(no_mangle)]
pub extern "C" fn yengatomu_count_words_utf16(slot: &Slot, loan: Loan, text: &[u16]) -> Found
    requires lent { IsLentBy slot.now loan }
    ensures back { result.loan ≡ loan }
    ensures empty { finder_in slot.now ≡ None → result.count ≡ 0 }
    ensures count { IfSome (finder_in slot.now) (λ finder. result.count ≡ word_count finder utf16 text.now) }
{
    match slot.lend(loan) {
        Ok(lease) => {
            let count = count_words::<Utf16Indices<'_>>(lease.get(), text);
            Found {
                count,
                loan: lease.back(),
            }
        }
        Err(loan) => Found { count: 0, loan },
    }
}
