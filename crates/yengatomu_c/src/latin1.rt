//! What a segmenter says of Latin-1, for C: each byte is a code point. Places are bytes.

ghost use Rattle.std.specs.Prelude.{◌≡◌, [], Contains, IfSome, None, length, min};
ghost use Rattle.icu_segmenter.specs.Boundaries.{HasRestart};
ghost use Rattle.icu_segmenter.specs.Decoding.{latin1};
ghost use Rattle.icu_segmenter.specs.Filled.{IsFilled, TakesFirst};
ghost use Rattle.yengatomu_c.specs.Held.{finder_in};
ghost use Rattle.yengatomu_c.specs.Lent.{IsLentBy};
ghost use Rattle.yengatomu_segmenter.specs.Finders.{GoesOnAt, find_by, marks_behind, places_behind, places_in};

use crate::Found;
use crate::loan::Loan;
use crate::slot::Slot;
use icu_segmenter::indices::Latin1Indices;
use yengatomu_segmenter::texts::{boundaries, marked_boundaries};

/// `yengatomu_boundaries` of Latin-1.
#[unsafe(no_mangle)]
pub extern "C" fn yengatomu_boundaries_latin1(
    slot: &Slot,
    loan: Loan,
    text: &[u8],
    from: usize,
    places: &mut [usize],
) -> Found
    requires lent { IsLentBy slot.now loan }
    ensures back { result.loan ≡ loan }
    ensures empty { finder_in slot.now ≡ None → IsFilled [] places.old places.new result.count }
    ensures given { IfSome (finder_in slot.now) (λ finder. IsFilled (places_behind finder latin1 text.now from) places.old places.new result.count) }
    ensures whole { IfSome (finder_in slot.now) (λ finder. HasRestart (find_by finder) → Contains (places_in finder latin1 text.now) from → GoesOnAt finder latin1 text.now from) }
{
    match slot.lend(loan) {
        Ok(lease) => {
            let written = boundaries::<Latin1Indices<'_>>(lease.get(), text, from, places);
            Found {
                count: written,
                loan: lease.back(),
            }
        }
        Err(loan) => Found { count: 0, loan },
    }
}

/// `yengatomu_marked_boundaries` of Latin-1.
#[unsafe(no_mangle)]
pub extern "C" fn yengatomu_marked_boundaries_latin1(
    slot: &Slot,
    loan: Loan,
    text: &[u8],
    from: usize,
    places: &mut [usize],
    marks: &mut [u8],
) -> Found
    requires lent { IsLentBy slot.now loan }
    ensures back { result.loan ≡ loan }
    ensures empty { finder_in slot.now ≡ None → (result.count ≡ 0) × (places.new ≡ places.old) × (marks.new ≡ marks.old) }
    ensures places { IfSome (finder_in slot.now) (λ finder. TakesFirst (min (length places.old) (length marks.old)) (places_behind finder latin1 text.now from) places.old places.new result.count) }
    ensures marks { IfSome (finder_in slot.now) (λ finder. TakesFirst (min (length places.old) (length marks.old)) (marks_behind finder latin1 text.now from) marks.old marks.new result.count) }
{
    match slot.lend(loan) {
        Ok(lease) => {
            let written = marked_boundaries::<Latin1Indices<'_>>(
                lease.get(),
                text,
                from,
                places,
                marks,
            );
            Found {
                count: written,
                loan: lease.back(),
            }
        }
        Err(loan) => Found { count: 0, loan },
    }
}
