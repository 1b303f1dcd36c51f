//! Pieces that are copied to where they belong.
ghost use Rattle.std.specs.Prelude.{◌≡◌, ◌+◌, ◌≤◌, ◌++◌, length, take};

use std::simd::Simd;

/// Puts the first bytes of a piece at a place of a buffer, and returns where they end. So many are copied as a piece of a kind has, at once, and
/// what stands behind those that count may change.
#[inline(always)]
pub fn put<const N: usize>(piece: &[u8], len: usize, at: usize, object: &mut [u8]) -> usize
    requires short { (len ≤ N) × (N ≤ length piece.now) }
    requires room { at + N ≤ length object.old }
    ensures end { result ≡ at + len }
    ensures len { length object.new ≡ length object.old }
    ensures pieces { take result object.new ≡ take at object.old ++ take len piece.now }
{
    Simd::<u8, N>::from_slice(piece).copy_to_slice(&mut object[at..]);
    at + len
}
