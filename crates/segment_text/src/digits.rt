//! Numbers in decimal, of which those near one another begin alike.
ghost use Rattle.std.specs.Prelude.{◌≡◌, ◌+◌, ◌*◌, ◌/◌, ◌%◌, ◌^◌, ◌<◌, ◌≤◌, ◌++◌, ◌∷◌, [], length, take, decimal, IfSome};

use crate::pieces::put;
use std::marker::Model;

// So many numbers have the same digits before their last four, and are near one another.
const NEAR: usize = 10_000;

// So many digits come before the last four at most.
const KEPT_LEN: usize = 16;

// The longest number has 20 digits.
const DIGITS_LEN: usize = 20;

// So many bytes are put at once, the digits of any number among them.
const PIECE_LEN: usize = 32;

// All pairs of digits.
static PAIRS: [u8; 200] =
    *b"00010203040506070809101112131415161718192021222324252627282930313233343536373839404142434445464748495051525354555657585960616263646566676869707172737475767778798081828384858687888990919293949596979899";

/// The digits of a number but the last four, kept for the numbers near it, of which they are also the digits but the last four.
#[derive(Drop)]
pub struct Digits {
    // The least number with these digits before its last four.
    from: usize,
    digits: [u8; KEPT_LEN],
    len: usize,
}

impl Model for Digits {
    ghost use Rattle.std.specs.Prelude.{◌≡◌, ◌≤◌, ◌/◌, ◌%◌, ℕ, decimal, take};

    ghost Value = { ℕ };

    ghost view = { λ s. s.from };

    ghost invariant = { λ s. (10000 ≤ s.from) × (s.from % 10000 ≡ 0) × (s.len ≤ 16) × (take s.len s.digits ≡ decimal (s.from / 10000)) };
}

impl Digits {
    /// Keeps the digit that the numbers from 10,000 to 19,999 have before their last four.
    pub fn new() -> Self {
        Digits {
            from: NEAR,
            digits: *b"1               ",
            len: 1,
        }
    }

    /// Puts a number in decimal at a place of a buffer, and returns where it ends. What stands there behind it may change. Of a number that has
    /// other digits before its last four than those that are kept, these are kept then.
    #[inline(always)]
    pub fn put_number(&mut self, number: usize, at: usize, object: &mut [u8]) -> usize
        requires { at + 32 ≤ length object.old }
        ensures most { result ≤ at + 20 }
        ensures len { length object.new ≡ length object.old }
        ensures pieces { take result object.new ≡ take at object.old ++ decimal number }
    {
        match self.rest_of(number) {
            Some(rest) => self.put_near(rest, at, object),
            None => self.put_far(number, at, object),
        }
    }

    // What the last four digits of a number say, if it begins with those that are kept.
    #[inline(always)]
    fn rest_of(&self, number: usize) -> Option<usize>
        ensures { IfSome result (λ rest. (rest < 10000) × (number ≡ self.now + rest)) }
    {
        let rest = number.checked_sub(self.from)?;
        (rest < NEAR).then_some(rest)
    }

    // Puts a number that begins with the digits that are kept.
    #[inline(always)]
    fn put_near(&self, rest: usize, at: usize, object: &mut [u8]) -> usize
        requires near { (rest < 10000) × (self.now + rest < 2 ^ 64) }
        requires room { at + 20 ≤ length object.old }
        ensures most { result ≤ at + 20 }
        ensures len { length object.new ≡ length object.old }
        ensures pieces { take result object.new ≡ take at object.old ++ decimal (self.now + rest) }
    {
        let at = put::<KEPT_LEN>(&self.digits, self.len, at, object);
        let at = put_pair(rest / 100, at, object);
        put_pair(rest % 100, at, object)
    }

    // Puts any number, and keeps its digits but the last four, if it has more.
    #[cold]
    #[inline(never)]
    fn put_far(&mut self, number: usize, at: usize, object: &mut [u8]) -> usize
        requires { at + 32 ≤ length object.old }
        ensures most { result ≤ at + 20 }
        ensures len { length object.new ≡ length object.old }
        ensures pieces { take result object.new ≡ take at object.old ++ decimal number }
    {
        let mut digits = [0; DIGITS_LEN + PIECE_LEN];
        let start = itoa::write_digits(number as u64, &mut digits, DIGITS_LEN);
        let len = DIGITS_LEN - start;
        if number >= NEAR {
            self.from = number - number % NEAR;
            self.len = len - 4;
            self.digits
                .copy_from_slice(&digits[start..start + KEPT_LEN]);
        }
        put::<PIECE_LEN>(&digits[start..start + PIECE_LEN], len, at, object)
    }
}

// Puts two digits at a place of a buffer, and returns where they end.
#[inline(always)]
fn put_pair(pair: usize, at: usize, object: &mut [u8]) -> usize
    requires { (pair < 100) × (at + 2 ≤ length object.old) }
    ensures end { result ≡ at + 2 }
    ensures len { length object.new ≡ length object.old }
    ensures pieces { take result object.new ≡ take at object.old ++ (48 + pair / 10) ∷ (48 + pair % 10) ∷ [] }
{
    let from = pair * 2;
    let (tens, ones) = (PAIRS[from], PAIRS[from + 1]);
    object[at] = tens;
    object[at + 1] = ones;
    at + 2
}
