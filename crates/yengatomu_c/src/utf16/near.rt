//! The boundaries near a place of UTF-16.

ghost use Rattle.std.specs.Prelude.{◌≡◌, ◌-◌, ◌^◌, ℕ, IfSome, None, Option, unwrap_or};
ghost use Rattle.icu_segmenter.specs.Decoding.{utf16};
ghost use Rattle.icu_segmenter.specs.NearBoundaries.{IsNearestAbove, IsNearestBelow};
ghost use Rattle.yengatomu_c.specs.Held.{finder_in};
ghost use Rattle.yengatomu_c.specs.Lent.{IsLentBy};
ghost use Rattle.yengatomu_segmenter.specs.Finders.{places_in};

use crate::loan::Loan;
use crate::slot::Slot;
use crate::{Found, NONE};
use yengatomu_segmenter::texts::{next, previous};

/// `yengatomu_next` of UTF-16.
#[unsafe(no_mangle)]
pub extern "C" fn yengatomu_next_utf16(slot: &Slot, loan: Loan, text: &[u16], place: usize) -> Found
    requires lent { IsLentBy slot.now loan }
    ensures back { result.loan ≡ loan }
    ensures empty { finder_in slot.now ≡ None → result.count ≡ 2 ^ 64 - 1 }
    ensures nearest { IfSome (finder_in slot.now) (λ finder. (found : Option ℕ) × IsNearestAbove (places_in finder utf16 text.now) place found × (result.count ≡ unwrap_or found (2 ^ 64 - 1))) }
{
    match slot.lend(loan) {
        Ok(lease) => {
            let found = next(lease.get(), text, place);
            Found {
                count: found.unwrap_or(NONE),
                loan: lease.back(),
            }
        }
        Err(loan) => Found { count: NONE, loan },
    }
}

/// `yengatomu_previous` of UTF-16.
#[unsafe(no_mangle)]
pub extern "C" fn yengatomu_previous_utf16(
    slot: &Slot,
    loan: Loan,
    text: &[u16],
    place: usize,
) -> Found
    requires lent { IsLentBy slot.now loan }
    ensures back { result.loan ≡ loan }
    ensures empty { finder_in slot.now ≡ None → result.count ≡ 2 ^ 64 - 1 }
    ensures nearest { IfSome (finder_in slot.now) (λ finder. (found : Option ℕ) × IsNearestBelow (places_in finder utf16 text.now) place found × (result.count ≡ unwrap_or found (2 ^ 64 - 1))) }
{
    match slot.lend(loan) {
        Ok(lease) => {
            let found = previous(lease.get(), text, place);
            Found {
                count: found.unwrap_or(NONE),
                loan: lease.back(),
            }
        }
        Err(loan) => Found { count: NONE, loan },
    }
}
