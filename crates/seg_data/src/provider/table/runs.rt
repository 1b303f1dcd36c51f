//! Runs of code points that have the same value.
ghost use Rattle.std.specs.Prelude.{◌≡◌, ◌≤◌};
ghost use Rattle.seg_data.specs.Faults.{HasRangeFault, IsFaultless};
ghost use Rattle.seg_data.specs.Table.{IsFirstReaching, IsRun, table, value_of};

/// The value of the range that holds a code point, or else the default, by halving ranges that are in order, each (first,
/// last, value) with both ends in it. Any number is looked up, also one that is no code point. Takes no memory.
pub fn value_by_halving(ranges: &[(u32, u32, u8)], default: u8, code_point: u32) -> u8
    requires { IsFaultless (HasRangeFault ranges.now) }
    ensures { result ≡ value_of (table ranges.now default) code_point }
{
    run_from(ranges, default, code_point).0
}

/// The value of a code point, and a code point from there on up to which all have that value.
pub(super) fn run_from(ranges: &[(u32, u32, u8)], default: u8, code_point: u32) -> (u8, u32)
    requires { IsFaultless (HasRangeFault ranges.now) }
    ensures run { IsRun (table ranges.now default) code_point result.0 result.1 }
    ensures reaches { code_point ≤ result.1 }
{
    let place = first_reaching(ranges, code_point);
    if place < ranges.len() {
        let (first, last, value) = ranges[place];
        if first <= code_point {
            (value, last)
        } else {
            (default, first - 1)
        }
    } else {
        (default, u32::MAX)
    }
}

// The place of the first range that doesn't end before a code point, or how many ranges there are.
fn first_reaching(ranges: &[(u32, u32, u8)], code_point: u32) -> usize
    requires { IsFaultless (HasRangeFault ranges.now) }
    ensures { IsFirstReaching ranges.now code_point result }
{
    let mut low = 0;
    let mut high = ranges.len();
    while low < high {
        let middle = low + (high - low) / 2;
        if ranges[middle].1 < code_point {
            low = middle + 1;
        } else {
            high = middle;
        }
    }
    low
}
