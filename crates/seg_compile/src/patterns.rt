//! Which rests of a pattern may come next, as the bits of a number: the whole pattern in the lowest. Of a rest that begins with pairs
//! there are two bits: for no half of a pair, and for one.

use seg_rules::rules::{Class, Count};

/// Whether a symbol is in a class.
pub(crate) fn has(class: Class, symbol: u8) -> bool {
    symbol < 128 && (class >> symbol) & 1 == 1
}

/// What is live after a symbol, where the whole pattern may begin there or not.
pub(crate) fn flow(begins: bool, pattern: &[(Class, Count)], live: u32, symbol: u8) -> u32 {
    let Some(((class, count), rest)) = pattern.split_first() else {
        return u32::from(begins);
    };
    let fits = has(*class, symbol);
    let goes = fits && live % 2 == 1;
    let begins_or_goes = begins || goes;
    match count {
        Count::One => joined(begins, flow(goes, rest, live / 2, symbol)),
        Count::Optional => joined(begins, flow(begins_or_goes, rest, live / 2, symbol)),
        Count::Star => joined(begins_or_goes, flow(begins_or_goes, rest, live / 2, symbol)),
        Count::Pairs => {
            let here = begins || (fits && live / 2 % 2 == 1);
            joined(here, joined(goes, flow(here, rest, live / 4, symbol)))
        }
    }
}

// The bits of a rest, before those of later ones.
fn joined(is_live: bool, later: u32) -> u32 {
    later.wrapping_mul(2) | u32::from(is_live)
}

/// Whether the whole pattern fits what was read: its last rest, the empty one, is live.
pub(crate) fn is_full(pattern: &[(Class, Count)], live: u32) -> bool {
    let mut rest = live;
    for (_, count) in pattern {
        rest /= if *count == Count::Pairs { 4 } else { 2 };
    }
    rest % 2 == 1
}
