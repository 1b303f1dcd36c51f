//! Balanced lines, paragraph by paragraph.

ghost use Rattle.std.specs.Prelude.{◌≡◌, IfSome, None};
ghost use Rattle.icu_segmenter.specs.Decoding.{utf8, utf16};
ghost use Rattle.yengatomu_c.specs.Held.{finder_in};
ghost use Rattle.yengatomu_c.specs.Lent.{IsLentBy};
ghost use Rattle.yengatomu_segmenter.specs.Balanced.{GivesLines, IsParagraphBehind};

use crate::loan::Loan;
use crate::slot::Slot;
use crate::{Found, NONE};
use icu_segmenter::wrap::Span;
use std::alloc::{AllocError, Global};
use yengatomu_segmenter::balanced::{lines, lines_utf16, put};

/// Writes where the balanced lines of the first paragraph behind `from` end and how many columns they take, as many as both buffers have
/// room for, and returns how many lines it has. Of all lines with whole segments and room in the columns, they are those whose right edge
/// is the least ragged. A paragraph ends where a line must, or with the text. 0 at the end of the text, of other kinds, and where the slot
/// is empty; SIZE_MAX when out of memory.
#[unsafe(no_mangle)]
pub extern "C" fn yengatomu_wrap_balanced(
    alloc: Global,
    slot: &Slot,
    loan: Loan,
    text: &[u8],
    from: usize,
    columns: u32,
    ends: &mut [usize],
    widths: &mut [usize],
) -> Found
    requires lent { IsLentBy slot.now loan }
    ensures back { result.loan ≡ loan }
    ensures empty { finder_in slot.now ≡ None → (result.count ≡ 0) × ((ends.new ≡ ends.old) × (widths.new ≡ widths.old)) }
    ensures lines { IfSome (finder_in slot.now) (λ finder. GivesLines (IsParagraphBehind finder utf8 columns text.now from) from (record { ends_before = ends.old; ends = ends.new; widths_before = widths.old; widths = widths.new }) result.count) }
{
    match slot.lend(loan) {
        Ok(lease) => {
            let count = match lines(alloc, lease.get(), text, from, columns) {
                Ok(spans) => {
                    let _put = put(spans.as_slice(), from, ends, widths);
                    spans.len()
                }
                Err(_) => NONE,
            };
            Found {
                count,
                loan: lease.back(),
            }
        }
        Err(loan) => Found { count: 0, loan },
    }
}

/// `yengatomu_wrap_balanced` of UTF-16.
#[unsafe(no_mangle)]
pub extern "C" fn yengatomu_wrap_balanced_utf16(
    alloc: Global,
    slot: &Slot,
    loan: Loan,
    text: &[u16],
    from: usize,
    columns: u32,
    ends: &mut [usize],
    widths: &mut [usize],
) -> Found
    requires lent { IsLentBy slot.now loan }
    ensures back { result.loan ≡ loan }
    ensures empty { finder_in slot.now ≡ None → (result.count ≡ 0) × ((ends.new ≡ ends.old) × (widths.new ≡ widths.old)) }
    ensures lines { IfSome (finder_in slot.now) (λ finder. GivesLines (IsParagraphBehind finder utf16 columns text.now from) from (record { ends_before = ends.old; ends = ends.new; widths_before = widths.old; widths = widths.new }) result.count) }
{
    match slot.lend(loan) {
        Ok(lease) => {
            let count = match lines_utf16(alloc, lease.get(), text, from, columns) {
                Ok(spans) => {
                    let _put = put(spans.as_slice(), from, ends, widths);
                    spans.len()
                }
                Err(_) => NONE,
            };
            Found {
                count,
                loan: lease.back(),
            }
        }
        Err(loan) => Found { count: 0, loan },
    }
}
