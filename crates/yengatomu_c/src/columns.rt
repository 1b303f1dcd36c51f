//! Columns that are counted by cluster.

ghost use Rattle.std.specs.Prelude.{◌≡◌, IfSome, false};
ghost use Rattle.icu_segmenter.specs.Boundaries.{HasRestart};
ghost use Rattle.yengatomu_c.specs.Held.{finder_in};
ghost use Rattle.yengatomu_segmenter.specs.Columns.{IsCounted};
ghost use Rattle.yengatomu_segmenter.specs.Finders.{LineFeedsReset, find_by};

use crate::slot::Slot;
use std::alloc::Global;
use yengatomu_segmenter::columns::{Refusal, count_by_cluster};

/// Has a segmenter of lines count the columns of wrapped lines by Unicode's clusters from now on, each by the width of its str, and no
/// longer by character. Returns 0 where it does. Otherwise the slot is as it was: 1 when out of memory, 2 where the slot holds no lines.
#[unsafe(no_mangle)]
pub extern "C" fn yengatomu_count_by_cluster(alloc: Global, slot: &mut Slot) -> u32
    requires own { slot.old.handle.holds.lent ≡ false }
    ensures counted { IsCounted (finder_in slot.old) (finder_in slot.new) result }
    ensures restart { IfSome (finder_in slot.old) (λ finder. HasRestart (find_by finder)) → IfSome (finder_in slot.new) (λ finder. HasRestart (find_by finder)) }
    ensures feeds { IfSome (finder_in slot.old) LineFeedsReset → IfSome (finder_in slot.new) LineFeedsReset }
{
    let Some(mut segmenter) = slot.take(alloc) else {
        return 2;
    };
    let counted = count_by_cluster(alloc, &mut segmenter);
    slot.put(segmenter);
    match counted {
        Ok(()) => 0,
        Err(Refusal::Memory) => 1,
        Err(Refusal::NoLines) => 2,
    }
}
