//! The boundaries of a text, counted and added up.
ghost use Rattle.std.specs.Iterator.{IsFinite};

/// How many numbers there are, and their sum, both modulo 2^64.
#[derive(Clone, Copy, Default)]
pub struct Tally {
    /// How many numbers there are.
    pub count: u64,
    /// Their sum.
    pub sum: u64,
}

/// How many numbers come, and their sum, both modulo 2^64. Not inlined, so that each iterator's loop has registers of its own.
#[inline(never)]
pub fn tally_of<N: Iterator<Item = usize> + Drop>(numbers: N) -> Tally
    requires can { N.can_next numbers }
    requires ends { IsFinite (N.remaining numbers) }
{
    let mut tally = Tally::default();
    for number in numbers {
        tally.count = tally.count.wrapping_add(1);
        tally.sum = tally.sum.wrapping_add(number as u64);
    }
    tally
}
