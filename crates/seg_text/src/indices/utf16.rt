//! A cursor over possibly ill-formed UTF-16.

ghost use Rattle.std.specs.Prelude.{◌≡◌, ◌≤◌, ◌<◌, ℕ, ⊤, drop, length, ◌+◌, ◌==◌, slice_index};
ghost use Rattle.seg_text.specs.Decoding.{utf16_items, utf16_from, read_utf16, IsHighSurrogate};
ghost use Rattle.seg_text.specs.Lemmas.Encoded.{utf16-encoding};

use crate::indices::units::{Indices, ReadsUnits};
use crate::scaffold::Utf16;

/// The code points of possibly ill-formed UTF-16, with the place of each in 16-bit units.
///
/// A high surrogate and the low one right after it are one code point. Every other unit is one of its own, a
/// surrogate that stands alone too.
pub type Utf16Indices<'a> = Indices<'a, u16, Utf16>;

impl ReadsUnits<u16> for Utf16 {
    type Character = u32;

    ghost read = { read_utf16 };

    ghost code_point = { λ c. c };

    ghost characters = { utf16_items };

    ghost text = { utf16_from };

    #[inline(always)]
    fn read_single(units: &[u16]) -> Option<u32> {
        let first = units[0];
        if first & 0xFC00 != 0xD800 {
            Some(first as u32)
        } else {
            None
        }
    }

    #[inline(always)]
    fn read_ascii(units: &[u16]) -> Option<u8> {
        let first = units[0];
        if first < 0x80 {
            Some(first as u8)
        } else {
            None
        }
    }

    #[inline(always)]
    fn read_first(units: &[u16]) -> (usize, u32) {
        let first = units[0];
        if first & 0xFC00 != 0xD800 {
            (1, first as u32)
        } else {
            read_high(units)
        }
    }

    #[inline(always)]
    fn code_point(character: u32) -> u32 {
        character
    }

    ghost is_encoding = { utf16-encoding };
}

/// Reads the first item where a high surrogate stands: how many units it takes, and its code point.
#[inline(never)]
fn read_high(units: &[u16]) -> (usize, u32)
    requires { IsHighSurrogate (slice_index units.now 0) }
    ensures { result ≡ read_utf16 units.now }
{
    let high = units[0];
    if units.len() < 2 || units[1] & 0xFC00 != 0xDC00 {
        return (1, high as u32);
    }
    (
        2,
        (high & 0x3FF) as u32 * 0x400 + (units[1] & 0x3FF) as u32 + 0x10000,
    )
}
