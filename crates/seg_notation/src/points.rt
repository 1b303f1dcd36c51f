//! Sets of code points. For the readers of sets, and for `Symbols`.
ghost use Rattle.std.specs.Prelude.{◌≡◌, ◌≤◌, ◌&&◌, ℕ, true, nat_le, [], IfOk};
ghost use Rattle.ucd_table.specs.Rows.{in_ranges};
ghost use Rattle.seg_notation.specs.Sets.{has, join_of, rises};

use crate::merge::{Join, Merge};
use std::alloc::{AllocError, Global};

/// A set of code points.
#[derive(Drop)]
pub(crate) struct CodePoints {
    // Where it changes, in order: a code point is in it if an odd number of these are no higher.
    changes: Vec<u32>,
    ghost rising: { rises 0 changes.items ≡ true },
}

impl CodePoints {
    /// No code point.
    pub(crate) fn none(alloc: Global) -> CodePoints
        ensures { result.changes.items ≡ [] }
    {
        CodePoints {
            changes: Vec::new(alloc),
        }
    }

    /// A copy of the set.
    pub(crate) fn copied(&self, alloc: Global) -> Result<CodePoints, AllocError>
        ensures { IfOk result (λ set. set.changes.items ≡ self.now.changes.items) }
    {
        let changes = Vec::from_slice(alloc, self.changes.as_slice())?;
        Ok(CodePoints { changes })
    }

    /// A range, with both its ends in it; none if they are not in order.
    pub(crate) fn of_range(alloc: Global, first: u32, last: u32) -> Result<CodePoints, AllocError>
        ensures { IfOk result (λ set. (c : ℕ) → c ≤ 0x10FFFF → has set.changes.items c ≡ (nat_le first c && nat_le c last)) }
    {
        if last < first {
            return Ok(CodePoints::none(alloc));
        }
        let changes = Vec::from_slice(alloc, &[first, last.saturating_add(1)])?;
        Ok(CodePoints { changes })
    }

    /// What is in any of some ranges, each with both its ends in it.
    pub(crate) fn of_ranges(alloc: Global, ranges: &[(u32, u32)]) -> Result<CodePoints, AllocError>
        ensures { IfOk result (λ set. (c : ℕ) → c ≤ 0x10FFFF → has set.changes.items c ≡ in_ranges ranges.now c) }
    {
        match ranges {
            [] => Ok(CodePoints::none(alloc)),
            [(first, last)] => {
                let set = CodePoints::of_range(alloc, *first, *last)?;
                Ok(set)
            }
            _ => {
                let (some, others) = ranges.split_at(ranges.len() / 2);
                let some = CodePoints::of_ranges(alloc, some)?;
                let others = CodePoints::of_ranges(alloc, others)?;
                let set = some.joined(alloc, &others, Join::Either)?;
                Ok(set)
            }
        }
    }

    /// The set that this one and another make.
    pub(crate) fn joined(
        &self,
        alloc: Global,
        other: &CodePoints,
        join: Join,
    ) -> Result<CodePoints, AllocError>
        ensures { IfOk result (λ set. (c : ℕ) → has set.changes.items c
            ≡ join_of join (has self.now.changes.items c) (has other.now.changes.items c)) }
    {
        let mut changes = Vec::new(alloc);
        let mut is_in = false;
        let mut merge = Merge {
            one: self.changes.as_slice(),
            other: other.changes.as_slice(),
            in_one: false,
            in_other: false,
        };
        while let Some(change) = merge.next() {
            let is_now = merge.is_in(join);
            if is_now != is_in {
                changes.push(change)?;
                is_in = is_now;
            }
        }
        Ok(CodePoints { changes })
    }

    /// Whether a code point is in the set.
    pub(crate) fn contains(&self, code_point: u32) -> bool
        ensures { result ≡ has self.now.changes.items code_point }
    {
        let mut is_in = false;
        for change in self.changes.as_slice() {
            if *change <= code_point {
                is_in = !is_in;
            }
        }
        is_in
    }

    /// The lowest code point of the set.
    pub(crate) fn lowest(&self) -> Option<u32> {
        for pair in self.changes.chunks(2) {
            if let [first, after] = pair
                && first < after
            {
                return Some(*first);
            }
        }
        None
    }

    /// Adds the ranges of the set, each with a value and both its ends in it.
    pub(crate) fn add_to(
        &self,
        ranges: &mut Vec<(u32, u32, u8)>,
        value: u8,
    ) -> Result<(), AllocError> {
        for pair in self.changes.chunks(2) {
            if let [first, after] = pair
                && first < after
            {
                ranges.push((*first, after.saturating_sub(1), value))?;
            }
        }
        Ok(())
    }
}
