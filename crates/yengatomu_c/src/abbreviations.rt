//! Abbreviations that a caller loads.

ghost use Rattle.std.specs.Prelude.{◌≡◌, IfSome, false};
ghost use Rattle.yengatomu_c.specs.Held.{finder_in};
ghost use Rattle.yengatomu_segmenter.specs.Abbreviated.{AreLoaded};
ghost use Rattle.yengatomu_segmenter.specs.Finders.{LineFeedsReset};

use crate::slot::Slot;
use std::alloc::Global;
use yengatomu_segmenter::abbreviations::{Refusal, load};

/// Gives a segmenter of sentences the abbreviations after which sentences go on, as whole words with their full stops, if it has none yet.
/// Returns 0 where they are loaded. Otherwise the slot is as it was: 1 when out of memory, 2 where the slot holds no sentences, or has
/// abbreviations, 3 where a word isn't UTF-8 or has a line feed.
///
/// The boundaries of a text from one of its boundaries on, taken alone, needn't be those of the whole text any more: an abbreviation may begin
/// before it. They are where a line begins (`laws::lines_go_on`).
#[unsafe(no_mangle)]
pub extern "C" fn yengatomu_load_abbreviations(
    alloc: Global,
    slot: &mut Slot,
    words: &[&[u8]],
) -> u32
    requires own { slot.old.handle.holds.lent ≡ false }
    ensures loaded { AreLoaded words.now (finder_in slot.old) (finder_in slot.new) result }
    ensures feeds { IfSome (finder_in slot.old) LineFeedsReset → IfSome (finder_in slot.new) LineFeedsReset }
{
    let Some(mut segmenter) = slot.take(alloc) else {
        return 2;
    };
    let loaded = load(alloc, &mut segmenter, words);
    slot.put(segmenter);
    match loaded {
        Ok(()) => 0,
        Err(Refusal::Memory) => 1,
        Err(Refusal::NoSuch) => 2,
        Err(Refusal::WrongWord) => 3,
    }
}
