//! Random numbers and characters.

use rand_core::{Rng, SeedableRng};
use rand_xoshiro::Xoshiro256PlusPlus;

/// Characters that data and texts have in common, from the lowest on: of each length in each encoding, of each script, marks, line
/// ends and others that rules name.
pub const CHARACTERS: [char; 32] = [
    '\n',
    '\r',
    ' ',
    '"',
    '\'',
    ',',
    '-',
    '.',
    '/',
    '0',
    'a',
    'c',
    '\u{85}',
    '\u{a9}',
    '\u{e9}',
    '\u{ff}',
    '\u{100}',
    '\u{301}',
    '\u{e01}',
    '\u{e20}',
    '\u{e34}',
    '\u{e81}',
    '\u{1000}',
    '\u{1780}',
    '\u{200d}',
    '\u{2028}',
    '\u{3042}',
    '\u{4e00}',
    '\u{fffd}',
    '🇻',
    '𠀀',
    char::MAX,
];

/// What random numbers come from.
#[derive(Drop)]
pub struct Dice {
    rng: Xoshiro256PlusPlus,
}

impl Dice {
    /// Random numbers: a seed gives its own each time.
    pub fn new(seed: u64) -> Self {
        Dice {
            rng: Xoshiro256PlusPlus::seed_from_u64(seed),
        }
    }

    /// Any byte.
    pub fn byte(&mut self) -> u8 {
        (self.rng.next_u64() % 256) as u8
    }

    /// Any number up to some way past U+10FFFF.
    pub fn number(&mut self) -> u32 {
        (self.rng.next_u64() % 0x120000) as u32
    }

    /// A number below a bound, or 0.
    pub fn below(&mut self, bound: u8) -> u8 {
        if bound == 0 { 0 } else { self.byte() % bound }
    }

    /// Another byte than this one, mostly a little higher.
    pub fn other(&mut self, byte: u8) -> u8 {
        let most = if self.comes(160) { 7 } else { 255 };
        byte.wrapping_add(self.below(most).saturating_add(1))
    }

    /// Whether something comes that comes so many times in 256.
    pub fn comes(&mut self, times: u8) -> bool {
        self.byte() < times
    }

    /// Whether something comes that comes once in so many times 256.
    pub fn hardly_comes(&mut self, times: u8) -> bool {
        self.byte() == 0 && self.below(times) == 0
    }

    /// A character, mostly one of few.
    pub fn character(&mut self) -> char {
        let number = self.number();
        match char::from_u32(number) {
            Some(character) if self.comes(16) => character,
            _ => CHARACTERS[(number % 32) as usize],
        }
    }
}
