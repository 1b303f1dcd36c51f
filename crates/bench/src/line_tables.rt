//! The bench pair table of lines.

ghost use Rattle.std.specs.Prelude.{◌≡◌, if◌then◌else◌, [], ◌∷◌, ◌++◌, IfOk, OnOk};
ghost use Rattle.seg_pairs.specs.declared.provider.pairs.BreakState.TheVariants.{Break, Keep};
ghost use Rattle.icu_segmenter.specs.Faults.{IsFaultless};
ghost use Rattle.icu_segmenter.specs.LineEngine.TheVariants.{Classic};
ghost use Rattle.icu_segmenter.specs.LineClasses.LineClass.{BA, BK, CJ, CR, EX, HY, IN, LF, NL, NS, SP, ZW};
ghost use Rattle.icu_segmenter.specs.LineRules.{HasLineTableFault, is_one_of};
ghost use Rattle.bench.specs.LineTables.{line_entry, line_table};
ghost use Rattle.bench.specs.PairTables.{cluster_table};
ghost use Rattle.bench.specs.Rows.{row, rows};

use icu_segmenter::provider::{BreakState, ClassTable, RuleBreakData};
use std::alloc::{AllocError, Global};

/// How many classes there are, with those of the text's start and end.
const COUNT: u8 = 57;

/// The class of any character that has no other, `LINE_PROPERTY_XX`.
const OTHER: u8 = 52;

/// The classes by their numbers, `RuleBreakData::LINE_PROPERTY_..`; 46 is that of Thai and Myanmar, which are complex.
const CLASSES: [(u32, u32, u8); 20] = [
    (0x0A, 0x0A, 32),
    (0x0D, 0x0D, 16),
    (0x20, 0x20, 47),
    (0x21, 0x21, 19),
    (0x2D, 0x2D, 24),
    (0x2E, 0x2E, 28),
    (0x30, 0x39, 35),
    (0x41, 0x5A, 3),
    (0x61, 0x7A, 3),
    (0xC0, 0x24F, 3),
    (0x300, 0x36F, 14),
    (0xE01, 0xE3A, 46),
    (0xE40, 0xE4E, 46),
    (0x1000, 0x103F, 46),
    (0x1E00, 0x1EFF, 3),
    (0x200D, 0x200D, 54),
    (0x3005, 0x3005, 34),
    (0x3041, 0x3041, 12),
    (0x4E00, 0x9FFF, 25),
    (0xFFFD, 0xFFFD, 1),
];

/// The bench pair table of lines: a line may be broken after spaces, hyphens and line ends, and beside ideographs, but not before an
/// exclamation mark, and beside an ideograph not before a hyphen, small kana or what begins no line. Thai and Myanmar are complex.
/// Fails only when out of memory.
pub fn line_table(alloc: Global) -> Result<RuleBreakData, AllocError>
    ensures value { IfOk result (λ table. table ≡ line_table) }
    ensures sound { IfOk result (λ table. IsFaultless (HasLineTableFault Classic table cluster_table)) }
{
    let Ok(classes) = ClassTable::try_from_ranges(Vec::from_slice(alloc, &CLASSES)?, OTHER) else {
        unreachable!()
    };
    let entries = line_rows(alloc)?;
    let statuses = Vec::new(alloc);
    let Ok(table) = RuleBreakData::try_from_parts(classes, entries, statuses, COUNT, 54, 55, 56, 46)
    else {
        unreachable!()
    };
    Ok(table)
}

/// The rows of all classes.
fn line_rows(alloc: Global) -> Result<Vec<BreakState>, AllocError>
    ensures { IfOk result (λ entries. entries.items ≡ rows line_entry 57 57) }
{
    let mut entries = Vec::new(alloc);
    for left in 0..COUNT {
        push_row(&mut entries, left)?;
    }
    Ok(entries)
}

/// Adds the row of a class.
fn push_row(entries: &mut Vec<BreakState>, left: u8) -> Result<(), AllocError>
    ensures { OnOk result (entries.new.items ≡ entries.old.items ++ row line_entry left 57) }
{
    for right in 0..COUNT {
        entries.push(line_entry(left, right))?;
    }
    Ok(())
}

/// What stands between two classes.
fn line_entry(left: u8, right: u8) -> BreakState
    ensures { result ≡ line_entry left right }
{
    if ends_a_line(left) {
        BreakState::Break
    } else if left == RuleBreakData::LINE_PROPERTY_CR {
        keep_if(right == RuleBreakData::LINE_PROPERTY_LF)
    } else if never_begins_a_line(right) {
        BreakState::Keep
    } else if allows_a_break(left) {
        BreakState::Break
    } else if left == RuleBreakData::LINE_PROPERTY_ID || right == RuleBreakData::LINE_PROPERTY_ID {
        keep_if(clings_to_ideographs(right))
    } else {
        BreakState::Keep
    }
}

/// `Keep`, or else `Break`.
pub(crate) fn keep_if(keeps: bool) -> BreakState
    ensures { result ≡ (if keeps then Keep else Break) }
{
    if keeps {
        BreakState::Keep
    } else {
        BreakState::Break
    }
}

/// Whether a line ends after the class, whatever follows.
fn ends_a_line(class: u8) -> bool
    ensures { result ≡ is_one_of Classic (BK ∷ LF ∷ NL ∷ []) class }
{
    class == RuleBreakData::LINE_PROPERTY_BK
        || class == RuleBreakData::LINE_PROPERTY_LF
        || class == RuleBreakData::LINE_PROPERTY_NL
}

/// Whether no line begins with the class: line ends, spaces and the exclamation mark.
fn never_begins_a_line(class: u8) -> bool
    ensures { result ≡ is_one_of Classic (BK ∷ CR ∷ LF ∷ NL ∷ SP ∷ ZW ∷ EX ∷ []) class }
{
    class == RuleBreakData::LINE_PROPERTY_BK
        || class == RuleBreakData::LINE_PROPERTY_CR
        || class == RuleBreakData::LINE_PROPERTY_LF
        || class == RuleBreakData::LINE_PROPERTY_NL
        || class == RuleBreakData::LINE_PROPERTY_SP
        || class == RuleBreakData::LINE_PROPERTY_ZW
        || class == RuleBreakData::LINE_PROPERTY_EX
}

/// Whether a line may be broken after the class: spaces and the hyphen.
fn allows_a_break(class: u8) -> bool
    ensures { result ≡ is_one_of Classic (SP ∷ ZW ∷ HY ∷ []) class }
{
    class == RuleBreakData::LINE_PROPERTY_SP
        || class == RuleBreakData::LINE_PROPERTY_ZW
        || class == RuleBreakData::LINE_PROPERTY_HY
}

/// Whether the class stays with an ideograph before it.
fn clings_to_ideographs(class: u8) -> bool
    ensures { result ≡ is_one_of Classic (NS ∷ IN ∷ BA ∷ CJ ∷ HY ∷ []) class }
{
    class == RuleBreakData::LINE_PROPERTY_NS
        || class == RuleBreakData::LINE_PROPERTY_IN
        || class == RuleBreakData::LINE_PROPERTY_BA
        || class == RuleBreakData::LINE_PROPERTY_CJ
        || class == RuleBreakData::LINE_PROPERTY_HY
}
