//! Where wrapped lines of UTF-16 end, and how wide they are.

ghost use Rattle.std.specs.Prelude.{◌≡◌, [], IfSome, None, length, min};
ghost use Rattle.icu_segmenter.specs.Decoding.{utf16};
ghost use Rattle.icu_segmenter.specs.Filled.{IsFilled, TakesFirst};
ghost use Rattle.yengatomu_c.specs.Held.{finder_in};
ghost use Rattle.yengatomu_c.specs.Lent.{IsLentBy};
ghost use Rattle.yengatomu_segmenter.specs.Wrapped.{ends_from, widths_of, wrapped_behind};

use crate::Found;
use crate::loan::Loan;
use crate::slot::Slot;
use yengatomu_segmenter::wrapped::{ends_and_widths_utf16, ends_utf16};

/// `yengatomu_wrap` of UTF-16.
#[unsafe(no_mangle)]
pub extern "C" fn yengatomu_wrap_utf16(
    slot: &Slot,
    loan: Loan,
    text: &[u16],
    from: usize,
    columns: usize,
    ends: &mut [usize],
) -> Found
    requires lent { IsLentBy slot.now loan }
    ensures back { result.loan ≡ loan }
    ensures empty { finder_in slot.now ≡ None → IsFilled [] ends.old ends.new result.count }
    ensures lines { IfSome (finder_in slot.now) (λ finder. IsFilled (ends_from from (wrapped_behind finder utf16 columns text.now from)) ends.old ends.new result.count) }
{
    match slot.lend(loan) {
        Ok(lease) => {
            let written = ends_utf16(lease.get(), text, from, columns, ends);
            Found {
                count: written,
                loan: lease.back(),
            }
        }
        Err(loan) => Found { count: 0, loan },
    }
}

/// `yengatomu_wrap_columns` of UTF-16.
#[unsafe(no_mangle)]
pub extern "C" fn yengatomu_wrap_columns_utf16(
    slot: &Slot,
    loan: Loan,
    text: &[u16],
    from: usize,
    columns: usize,
    ends: &mut [usize],
    widths: &mut [usize],
) -> Found
    requires lent { IsLentBy slot.now loan }
    ensures back { result.loan ≡ loan }
    ensures empty { finder_in slot.now ≡ None → (result.count ≡ 0) × (ends.new ≡ ends.old) × (widths.new ≡ widths.old) }
    ensures lines { IfSome (finder_in slot.now) (λ finder. TakesFirst (min (length ends.old) (length widths.old)) (ends_from from (wrapped_behind finder utf16 columns text.now from)) ends.old ends.new result.count) }
    ensures widths { IfSome (finder_in slot.now) (λ finder. TakesFirst (min (length ends.old) (length widths.old)) (widths_of (wrapped_behind finder utf16 columns text.now from)) widths.old widths.new result.count) }
{
    match slot.lend(loan) {
        Ok(lease) => {
            let written = ends_and_widths_utf16(lease.get(), text, from, columns, ends, widths);
            Found {
                count: written,
                loan: lease.back(),
            }
        }
        Err(loan) => Found { count: 0, loan },
    }
}
