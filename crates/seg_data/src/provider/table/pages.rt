//! The values of a table's code points, page by page, so that a look-up takes two reads.
ghost use Rattle.std.specs.Prelude.{◌≡◌, ◌+◌, ◌/◌, ◌<◌, IfOk, IfSome, IsSome, OnOk, length};
ghost use Rattle.seg_data.specs.Faults.{HasRangeFault, IsFaultless};
ghost use Rattle.seg_data.specs.Table.{AreBlocks, ArePages, HasGrown, IsFilled, IsPageAt, IsPlain, Table, table, value_of};

use crate::provider::table::runs::run_from;
use std::alloc::{AllocError, Global};

// How many code points a page has.
const PAGE_LEN: u32 = 128;

// How many pages the code points make.
const PAGE_COUNT: u16 = 0x2200;

/// The values of a table's code points, in pages from U+0000 on: all, or none. The values of a page are a block, which pages
/// of one value share.
pub(super) struct Pages {
    // The number of each page's block.
    numbers: Vec<u16>,
    // The values of the blocks, one block after another.
    values: Vec<u8>,
}

// Written out, so that it is proved here and not in each function that drops one.
impl Drop for Pages {
    fn drop(self) {
        let Pages {
            numbers: _,
            values: _,
        } = self;
    }
}

impl Pages {
    /// No pages.
    pub(super) fn none(alloc: Global) -> Self
        ensures numbers { length result.numbers.items ≡ 0 }
        ensures values { length result.values.items ≡ 0 }
    {
        Pages {
            numbers: Vec::new(alloc),
            values: Vec::new(alloc),
        }
    }

    /// All pages of the table of these ranges and this default.
    pub(super) fn try_new(
        alloc: Global,
        ranges: &[(u32, u32, u8)],
        default: u8,
    ) -> Result<Self, AllocError>
        requires sorted { IsFaultless (HasRangeFault ranges.now) }
        ensures stand { IfOk result (λ made. ArePages (table ranges.now default) made.numbers.items made.values.items) }
        ensures all { IfOk result (λ made. length made.numbers.items ≡ 0x2200) }
    {
        let mut pages = Pages::none(alloc);
        pages.add_all(ranges, default)?;
        pages.numbers.shrink_to_fit();
        pages.values.shrink_to_fit();
        Ok(pages)
    }

    /// The value of a code point, if its page is there.
    #[inline(always)]
    pub(super) fn get(&self, code_point: u32) -> Option<u8>
        requires { (t : Table) × ArePages t self.now.numbers.items self.now.values.items }
        ensures value { (t : Table) → ArePages t self.now.numbers.items self.now.values.items
            → IfSome result (λ value. value ≡ value_of t code_point) }
        ensures there { code_point / 128 < length self.now.numbers.items → IsSome result }
    {
        let page = (code_point / PAGE_LEN) as usize;
        if page < self.numbers.len() {
            let start = self.numbers[page] as usize * PAGE_LEN as usize;
            Some(self.values[start + (code_point % PAGE_LEN) as usize])
        } else {
            None
        }
    }

    /// How many bytes the pages take, or `usize::MAX` where these are more.
    pub(super) fn byte_count(&self) -> usize {
        let numbers = self.numbers.capacity().saturating_mul(2);
        numbers.saturating_add(self.values.capacity())
    }

    // Adds all pages, in memory that may be more than they need.
    fn add_all(&mut self, ranges: &[(u32, u32, u8)], default: u8) -> Result<(), AllocError>
        requires sorted { IsFaultless (HasRangeFault ranges.now) }
        requires no_pages { length self.old.numbers.items ≡ 0 }
        requires no_values { length self.old.values.items ≡ 0 }
        ensures stand { OnOk result (ArePages (table ranges.now default) self.new.numbers.items self.new.values.items) }
        ensures all { OnOk result (length self.new.numbers.items ≡ 0x2200) }
    {
        self.numbers.reserve_exact(PAGE_COUNT as usize)?;
        let mut plain = None;
        for page in 0..PAGE_COUNT {
            let block = block_of(ranges, default, page, &mut self.values, &mut plain)?;
            self.numbers.push(block)?;
        }
        Ok(())
    }
}

// The number of a page's block: that of the last page of one value, where this page has that value
// alone too, or else of a new block.
fn block_of(
    ranges: &[(u32, u32, u8)],
    default: u8,
    page: u16,
    values: &mut Vec<u8>,
    plain: &mut Option<(u8, u16)>,
) -> Result<u16, AllocError>
    requires sorted { IsFaultless (HasRangeFault ranges.now) }
    requires page { page < 0x2200 }
    requires blocks { AreBlocks page values.old.items }
    requires plain { IsPlain values.old.items plain.old }
    ensures stands { IfOk result (IsPageAt (table ranges.now default) values.new.items page) }
    ensures blocks { OnOk result (AreBlocks (page + 1) values.new.items) }
    ensures plain { OnOk result (IsPlain values.new.items plain.new) }
    ensures grows { HasGrown values.old.items values.new.items }
{
    let start = page as u32 * PAGE_LEN;
    let (value, last) = run_from(ranges, default, start);
    let whole = PAGE_LEN - 1 <= last - start;
    if let Some((plain_value, block)) = *plain {
        if whole && plain_value == value {
            return Ok(block);
        }
    }
    let block = (values.len() / PAGE_LEN as usize) as u16;
    push_values(ranges, default, start, values)?;
    if whole {
        *plain = Some((value, block));
    }
    Ok(block)
}

// Adds the values of the page that starts at a code point.
fn push_values(
    ranges: &[(u32, u32, u8)],
    default: u8,
    start: u32,
    values: &mut Vec<u8>,
) -> Result<(), AllocError>
    requires sorted { IsFaultless (HasRangeFault ranges.now) }
    requires start { start < 0x110000 }
    ensures filled { OnOk result (IsFilled (table ranges.now default) start values.old.items values.new.items 128) }
    ensures grows { HasGrown values.old.items values.new.items }
{
    let (mut value, mut last) = run_from(ranges, default, start);
    for offset in 0..PAGE_LEN {
        if last < start + offset {
            (value, last) = run_from(ranges, default, start + offset);
        }
        values.push(value)?;
    }
    Ok(())
}
