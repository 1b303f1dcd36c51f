//! Numbers in decimal.
ghost use Rattle.std.specs.Prelude.{◌≡◌, ◌++◌, ◌∷◌, [], decimal, OnOk};

use std::alloc::AllocError;

// The longest number has 20 digits, and one byte stands after them.
const NUMBER_LEN: usize = 21;

/// Adds a number in decimal. Fails only when out of memory.
pub fn push_digits(number: usize, line: &mut Vec<u8>) -> Result<(), AllocError>
    ensures { OnOk result (line.new.items ≡ line.old.items ++ decimal number) }
{
    let mut digits = [0; NUMBER_LEN];
    let start = itoa::write_digits(number as u64, &mut digits, NUMBER_LEN);
    line.extend_from_slice(&digits[start..])
}

/// Adds a number in decimal, and a byte after it. Fails only when out of memory.
pub fn push_number(number: usize, after: u8, lines: &mut Vec<u8>) -> Result<(), AllocError>
    ensures { OnOk result (lines.new.items ≡ lines.old.items ++ decimal number ++ after ∷ []) }
{
    let mut digits = [after; NUMBER_LEN];
    let start = itoa::write_digits(number as u64, &mut digits, NUMBER_LEN - 1);
    lines.extend_from_slice(&digits[start..])
}
