//! The values that a class table names: its default, also where no code point has it, and those of its ranges.
ghost use Rattle.std.specs.Prelude.{◌≡◌, ◌≤◌, ◌↔◌, IsTrue, Any, Contains};
ghost use Rattle.seg_data.specs.Table.{named_values};

use crate::provider::ClassTable;

/// Whether a table names the value.
pub fn names(table: &ClassTable, value: u8) -> bool
    ensures { IsTrue result ↔ Contains (named_values table.now) value }
{
    table.default() == value || has_value(table.ranges(), value)
}

/// Whether a table names the value or one above it.
pub fn names_from(table: &ClassTable, value: u8) -> bool
    ensures { IsTrue result ↔ Any (λ named. value ≤ named) (named_values table.now) }
{
    value <= table.default() || has_value_from(table.ranges(), value)
}

// Whether a range has the value.
fn has_value(ranges: &[(u32, u32, u8)], value: u8) -> bool
    ensures { IsTrue result ↔ Any (λ range. range.2 ≡ value) ranges.now }
{
    ranges.iter().any(|range| range.2 == value)
}

// Whether a range has the value, or one above it.
fn has_value_from(ranges: &[(u32, u32, u8)], value: u8) -> bool
    ensures { IsTrue result ↔ Any (λ range. value ≤ range.2) ranges.now }
{
    ranges.iter().any(|range| value <= range.2)
}
