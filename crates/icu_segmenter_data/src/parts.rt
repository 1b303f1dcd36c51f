//! Checked values of parts that stand in the code.
ghost use Rattle.std.specs.Prelude.{◌≡◌, ◌⊎◌, IfOk, IfErr};
ghost use Rattle.seg_data.specs.declared.provider.DataError.TheVariants.{Memory};
ghost use Rattle.icu_segmenter.specs.Faults.{HasRangeFault};
ghost use Rattle.icu_segmenter.specs.PairData.{HasPairFault};
ghost use Rattle.icu_segmenter.specs.PairTable.{pair_table};
ghost use Rattle.icu_segmenter.specs.Table.{table};

use icu_segmenter::provider::{BreakState, ClassTable, DataError, RuleBreakData};
use std::alloc::Global;

pub(crate) const BREAK: BreakState = BreakState::Break;

pub(crate) const KEEP: BreakState = BreakState::Keep;

pub(crate) const NO_MATCH: BreakState = BreakState::NoMatch;

/// The numbers of a pair table.
#[derive(Clone, Copy)]
pub(crate) struct TableNumbers {
    /// How many classes and composites there are.
    pub count: u8,
    /// The last class; composites have higher numbers.
    pub last: u8,
    /// The row of the start of the text.
    pub start_of_text: u8,
    /// The row of the end of the text.
    pub end_of_text: u8,
    /// The class of complex characters.
    pub complex: u8,
}

/// The pair table of these parts. The errors are out of memory, and what is wrong with the parts.
pub(crate) fn table_of(
    alloc: Global,
    ranges: &[(u32, u32, u8)],
    other: u8,
    entries: &[BreakState],
    statuses: &[u8],
    numbers: TableNumbers,
) -> Result<RuleBreakData, DataError>
    ensures made { IfOk result (λ t. t ≡ pair_table (table ranges.now other) entries.now statuses.now numbers.count numbers.last numbers.start_of_text numbers.end_of_text numbers.complex) }
    ensures rejected { IfErr result (λ fault. (fault ≡ Memory) ⊎ HasRangeFault ranges.now fault
        ⊎ HasPairFault (pair_table (table ranges.now other) entries.now statuses.now numbers.count numbers.last numbers.start_of_text numbers.end_of_text numbers.complex) fault) }
{
    let classes = ClassTable::try_from_ranges(Vec::from_slice(alloc, ranges)?, other)?;
    let classes = classes.indexed(alloc)?;
    let entries = Vec::from_slice(alloc, entries)?;
    let statuses = Vec::from_slice(alloc, statuses)?;
    RuleBreakData::try_from_parts(
        classes,
        entries,
        statuses,
        numbers.count,
        numbers.last,
        numbers.start_of_text,
        numbers.end_of_text,
        numbers.complex,
    )
}
