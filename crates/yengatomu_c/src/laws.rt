//! Laws of the boundaries that slots give. They do nothing, and no call of C makes them.

ghost use Rattle.std.specs.Prelude.{◌≡◌, IfSome, false};
ghost use Rattle.icu_segmenter.specs.Decoding.{latin1, utf8, utf16};
ghost use Rattle.icu_segmenter.specs.NearBoundaries.{BeginsLine};
ghost use Rattle.yengatomu_c.specs.Held.{finder_in};
ghost use Rattle.yengatomu_segmenter.specs.Finders.{GoesOnAt, LineFeedsReset};

use crate::slot::Slot;
use std::alloc::Global;
use yengatomu_segmenter::laws::{goes_on, goes_on_latin1, goes_on_utf16};

/// Law: where line feeds reset, a caller may go on wherever a line of the text begins, also with dictionaries and abbreviations: all boundaries of the text are
/// some, the place, and those of the rest.
pub fn lines_go_on(alloc: Global, slot: &mut Slot, text: &[u8], from: usize)
    requires own { slot.old.handle.holds.lent ≡ false }
    ensures kept { finder_in slot.new ≡ finder_in slot.old }
    ensures goes_on { IfSome (finder_in slot.old) (λ finder. LineFeedsReset finder → BeginsLine text.now from → GoesOnAt finder utf8 text.now from) }
{
    let Some(segmenter) = slot.take(alloc) else {
        return;
    };
    goes_on(&segmenter, text, from);
    slot.put(segmenter);
}

/// Law: a caller may so go on in UTF-16.
pub fn lines_go_on_utf16(alloc: Global, slot: &mut Slot, text: &[u16], from: usize)
    requires own { slot.old.handle.holds.lent ≡ false }
    ensures kept { finder_in slot.new ≡ finder_in slot.old }
    ensures goes_on { IfSome (finder_in slot.old) (λ finder. LineFeedsReset finder → BeginsLine text.now from → GoesOnAt finder utf16 text.now from) }
{
    let Some(segmenter) = slot.take(alloc) else {
        return;
    };
    goes_on_utf16(&segmenter, text, from);
    slot.put(segmenter);
}

/// Law: a caller may so go on in Latin-1.
pub fn lines_go_on_latin1(alloc: Global, slot: &mut Slot, text: &[u8], from: usize)
    requires own { slot.old.handle.holds.lent ≡ false }
    ensures kept { finder_in slot.new ≡ finder_in slot.old }
    ensures goes_on { IfSome (finder_in slot.old) (λ finder. LineFeedsReset finder → BeginsLine text.now from → GoesOnAt finder latin1 text.now from) }
{
    let Some(segmenter) = slot.take(alloc) else {
        return;
    };
    goes_on_latin1(&segmenter, text, from);
    slot.put(segmenter);
}
