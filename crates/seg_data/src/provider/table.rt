//! Tables of values by ranges of code points.
ghost use Rattle.std.specs.Prelude.{◌≡◌, ℕ, ◌+◌, ◌*◌, ◌==◌, ◌<◌, ◌≤◌, ◌↔◌, IsTrue, IfOk, IfErr, OnOk, Any, length};
ghost use Rattle.seg_data.specs.Faults.{HasOverlap, HasRangeFault, IsFaultless, IsLowestFault};
ghost use Rattle.seg_data.specs.declared.provider.DataError.TheVariants.{Memory};
ghost use Rattle.seg_data.specs.Lemmas.Same.{same_table, same_table-laws};
ghost use Rattle.seg_data.specs.Table.{AreAscii, table, value_of};

mod pages;
mod runs;

use crate::provider::DataError;
use pages::Pages;
pub use runs::value_by_halving;
use std::alloc::Global;
use std::fmt::{self, Debug, Formatter};
use std::marker::Model;

// How many code points ASCII has.
const ASCII_LEN: usize = 128;

/// A table that gives each code point a value: that of the range that holds it, or a default.
pub struct ClassTable {
    ranges: Vec<(u32, u32, u8)>,
    default: u8,
    // A copy of the values, of ASCII, and of all code points by pages where the table is indexed: no part of the
    // Model's value, nor of what `==` compares.
    ascii: [u8; ASCII_LEN],
    pages: Pages,
}

// Written out, so that it is proved here and not in each function that drops one.
impl Drop for ClassTable {
    fn drop(self) {
        let ClassTable {
            ranges: _,
            default: _,
            ascii: _,
            pages: _,
        } = self;
    }
}

impl Model for ClassTable {
    ghost use Rattle.seg_data.specs.Table.{Table};

    ghost Value = { Table };

    ghost use Rattle.seg_data.specs.Faults.{HasRangeFault, IsFaultless};

    ghost view = { λ t. record { ranges = t.ranges.items; default = t.default } };

    ghost use Rattle.seg_data.specs.Table.{AreAscii, ArePages, table};

    ghost invariant = { λ t. IsFaultless (HasRangeFault t.ranges.items)
        × AreAscii (table t.ranges.items t.default) t.ascii
        × ArePages (table t.ranges.items t.default) t.pages.numbers.items t.pages.values.items };
}

impl ClassTable {
    /// The table of these ranges, each (first, last, value) with both ends in it, and of this
    /// default. `RangeOrder` where a first is above its last or isn't above the last of the range
    /// before, and otherwise `RangePast10FFFF` where a last is above U+10FFFF.
    ///
    /// Takes no memory. A look-up takes one read in ASCII, and otherwise a binary search of the ranges; `indexed` makes
    /// that two reads.
    pub fn try_from_ranges(ranges: Vec<(u32, u32, u8)>, default: u8) -> Result<Self, DataError>
        ensures accepted { IfOk result (λ t. (t ≡ table ranges.items default) × IsFaultless (HasRangeFault ranges.items)) }
        ensures rejected { IfErr result (IsLowestFault (HasRangeFault ranges.items)) }
    {
        check_ranges(ranges.as_slice())?;
        let ascii = ascii_values(ranges.as_slice(), default);
        let pages = Pages::none(*ranges.allocator());
        Ok(ClassTable {
            ranges,
            default,
            ascii,
            pages,
        })
    }

    /// This table with an index, by which each look-up takes two reads. `Memory`, and the table is gone, where a growth is refused.
    ///
    /// It takes some 17 KB for the 8,704 pages of 128 code points, and 128 bytes for each block of values; pages of one
    /// value share theirs (1.1 MB if none does).
    pub fn indexed(self, alloc: Global) -> Result<Self, DataError>
        ensures same { IfOk result (λ t. t ≡ self) }
        ensures rejected { IfErr result (λ fault. fault ≡ Memory) }
    {
        let ClassTable {
            ranges,
            default,
            ascii,
            pages: _,
        } = self;
        let pages = Pages::try_new(alloc, ranges.as_slice(), default)?;
        Ok(ClassTable {
            ranges,
            default,
            ascii,
            pages,
        })
    }

    /// The value of the range that holds the code point, or else the default. Any number is
    /// looked up, also one that is no code point.
    #[inline(always)]
    pub fn get32(&self, code_point: u32) -> u8
        ensures { result ≡ value_of self.now code_point }
    {
        if code_point < ASCII_LEN as u32 {
            return self.get_ascii(code_point as u8);
        }
        self.get_wide(code_point)
    }

    /// The value of an ASCII character: the same as `get32`.
    #[inline(always)]
    pub fn get_ascii(&self, character: u8) -> u8
        requires { character < 0x80 }
        ensures { result ≡ value_of self.now character }
    {
        self.ascii[character as usize]
    }

    /// Gives what `get32` does, but asks nothing of ASCII first: for code points that are mostly above it.
    #[inline(always)]
    pub fn get_wide(&self, code_point: u32) -> u8
        ensures { result ≡ value_of self.now code_point }
    {
        match self.pages.get(code_point) {
            Some(value) => value,
            None => self.search(code_point),
        }
    }

    // The value of a code point, by halving the ranges.
    #[inline(never)]
    fn search(&self, code_point: u32) -> u8
        ensures { result ≡ value_of self.now code_point }
    {
        value_by_halving(self.ranges.as_slice(), self.default, code_point)
    }

    /// The ranges, each (first, last, value) with both ends in it, from the lowest code points on.
    pub fn ranges(&self) -> &[(u32, u32, u8)]
        ensures { result.now ≡ self.now.ranges }
    {
        self.ranges.as_slice()
    }

    /// The value of the code points that no range holds.
    pub fn default(&self) -> u8
        ensures { result ≡ self.now.default }
    {
        self.default
    }
}

/// How many bytes a table's pages take: two for each page, and 128 for each block of values; 0 where it isn't indexed. It isn't
/// part of the library's surface.
pub fn page_byte_count(table: &ClassTable) -> usize {
    table.pages.byte_count()
}

impl Debug for ClassTable {
    // The ranges and the default: the pages only say the same again.
    fn fmt<W: fmt::Write>(&self, f: &mut Formatter<W>) -> fmt::Result {
        f.debug_struct("ClassTable")
            .field("ranges", &self.ranges)
            .field("default", &self.default)
            .finish()
    }
}

impl PartialEq for ClassTable {
    ghost eq = { same_table };

    ghost laws = { same_table-laws };

    // Whether the ranges and the default are the same.
    fn eq(&self, other: &ClassTable) -> bool
        ensures value { result ≡ same_table self.now other.now }
        ensures same { IsTrue result ↔ (self.now ≡ other.now) }
    {
        self.ranges == other.ranges && self.default == other.default
    }
}

// The values of ASCII.
fn ascii_values(ranges: &[(u32, u32, u8)], default: u8) -> [u8; ASCII_LEN]
    requires sorted { IsFaultless (HasRangeFault ranges.now) }
    ensures { AreAscii (table ranges.now default) result }
{
    let mut values = [default; ASCII_LEN];
    for code_point in 0..ASCII_LEN {
        values[code_point] = value_by_halving(ranges, default, code_point as u32);
    }
    values
}

// Whether the ranges are in order, and end by U+10FFFF.
fn check_ranges(ranges: &[(u32, u32, u8)]) -> Result<(), DataError>
    ensures accepted { OnOk result (IsFaultless (HasRangeFault ranges.now)) }
    ensures rejected { IfErr result (IsLowestFault (HasRangeFault ranges.now)) }
{
    if has_backward(ranges) || has_overlap(ranges) {
        return Err(DataError::RangeOrder);
    }
    if has_past_10ffff(ranges) {
        return Err(DataError::RangePast10FFFF);
    }
    Ok(())
}

// Whether a range's first code point is above its last.
fn has_backward(ranges: &[(u32, u32, u8)]) -> bool
    ensures { IsTrue result ↔ Any (λ range. range.1 < range.0) ranges.now }
{
    ranges.iter().any(|range| range.1 < range.0)
}

// Whether a range's first code point isn't above the last of the range before.
fn has_overlap(ranges: &[(u32, u32, u8)]) -> bool
    ensures { IsTrue result ↔ HasOverlap ranges.now }
{
    for k in 1..ranges.len() {
        if ranges[k].0 <= ranges[k - 1].1 {
            return true;
        }
    }
    false
}

// Whether a range ends above U+10FFFF.
fn has_past_10ffff(ranges: &[(u32, u32, u8)]) -> bool
    ensures { IsTrue result ↔ Any (λ range. 0x10FFFF < range.1) ranges.now }
{
    ranges.iter().any(|range| 0x10FFFF < range.1)
}
