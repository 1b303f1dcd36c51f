//! A cursor over Latin-1.

ghost use Rattle.seg_text.specs.Decoding.{read_latin1, latin1_items, latin1_from};
ghost use Rattle.seg_text.specs.Lemmas.Encoded.{latin1-encoding};

use crate::indices::units::{Indices, ReadsUnits};
use crate::scaffold::Latin1;

/// The characters of Latin-1, each byte one, with the place of each in bytes.
pub type Latin1Indices<'a> = Indices<'a, u8, Latin1>;

impl ReadsUnits<u8> for Latin1 {
    type Character = u8;

    ghost read = { read_latin1 };

    ghost code_point = { λ c. c };

    ghost characters = { latin1_items };

    ghost text = { latin1_from };

    #[inline(always)]
    fn read_single(units: &[u8]) -> Option<u8> {
        Some(units[0])
    }

    #[inline(always)]
    fn read_ascii(units: &[u8]) -> Option<u8> {
        let first = units[0];
        if first < 0x80 { Some(first) } else { None }
    }

    #[inline(always)]
    fn read_first(units: &[u8]) -> (usize, u8) {
        (1, units[0])
    }

    #[inline(always)]
    fn code_point(character: u8) -> u32 {
        character as u32
    }

    ghost is_encoding = { latin1-encoding };
}
