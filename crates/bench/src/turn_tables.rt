//! The bench pair table of lines of the engine 17.

ghost use Rattle.std.specs.Prelude.{◌≡◌, [], ◌∷◌, ◌++◌, IfOk, OnOk};
ghost use Rattle.icu_segmenter.specs.Faults.{IsFaultless};
ghost use Rattle.icu_segmenter.specs.LineRules.{HasLineTableFault, is_one_of};
ghost use Rattle.icu_segmenter.specs.LineEngine.TheVariants.{Seventeen};
ghost use Rattle.icu_segmenter.specs.LineClasses.LineClass.{BA, BA_EASTASIAN, BK, CJ, CR, EX, EX_EASTASIAN, HY, ID, ID_EASTASIAN, IN, IN_EASTASIAN, LF, NL, NS, NS_EASTASIAN, SP, ZW};
ghost use Rattle.bench.specs.PairTables.{cluster_table};
ghost use Rattle.bench.specs.Rows.{row, rows};
ghost use Rattle.bench.specs.TurnTables.{turn_entry, turn_table};

use crate::line_tables::keep_if;
use icu_segmenter::provider::{BreakState, ClassTable, RuleBreakData};
use std::alloc::{AllocError, Global};

/// How many classes there are, with those of the text's start and end.
const COUNT: u8 = 71;

/// The class of any character that has no other, `LINE_V3_PROPERTY_XX`.
const OTHER: u8 = 65;

/// The classes by their numbers, `RuleBreakData::LINE_V3_PROPERTY_..`; 58 is that of Thai and Myanmar, which are complex.
const CLASSES: [(u32, u32, u8); 20] = [
    (0x0A, 0x0A, 43),
    (0x0D, 0x0D, 21),
    (0x20, 0x20, 60),
    (0x21, 0x21, 25),
    (0x2D, 0x2D, 33),
    (0x2E, 0x2E, 39),
    (0x30, 0x39, 47),
    (0x41, 0x5A, 4),
    (0x61, 0x7A, 4),
    (0xC0, 0x24F, 4),
    (0x300, 0x36F, 18),
    (0xE01, 0xE3A, 58),
    (0xE40, 0xE4E, 58),
    (0x1000, 0x103F, 58),
    (0x1E00, 0x1EFF, 4),
    (0x200D, 0x200D, 68),
    (0x3005, 0x3005, 46),
    (0x3041, 0x3041, 15),
    (0x4E00, 0x9FFF, 36),
    (0xFFFD, 0xFFFD, 1),
];

/// The bench pair table of lines of the engine 17: its entries are those of `line_table`, where an East Asian class is as the one that it
/// is a part of, and the rules of the engine come before them. Fails only when out of memory.
pub fn turn_table(alloc: Global) -> Result<RuleBreakData, AllocError>
    ensures value { IfOk result (λ table. table ≡ turn_table) }
    ensures sound { IfOk result (λ table. IsFaultless (HasLineTableFault Seventeen table cluster_table)) }
{
    let Ok(classes) = ClassTable::try_from_ranges(Vec::from_slice(alloc, &CLASSES)?, OTHER) else {
        unreachable!()
    };
    let entries = turn_rows(alloc)?;
    let statuses = Vec::new(alloc);
    let Ok(table) = RuleBreakData::try_from_parts(classes, entries, statuses, COUNT, 68, 69, 70, 58)
    else {
        unreachable!()
    };
    Ok(table)
}

/// The rows of all classes.
fn turn_rows(alloc: Global) -> Result<Vec<BreakState>, AllocError>
    ensures { IfOk result (λ entries. entries.items ≡ rows turn_entry 71 71) }
{
    let mut entries = Vec::new(alloc);
    for left in 0..COUNT {
        push_row(&mut entries, left)?;
    }
    Ok(entries)
}

/// Adds the row of a class.
fn push_row(entries: &mut Vec<BreakState>, left: u8) -> Result<(), AllocError>
    ensures { OnOk result (entries.new.items ≡ entries.old.items ++ row turn_entry left 71) }
{
    for right in 0..COUNT {
        entries.push(turn_entry(left, right))?;
    }
    Ok(())
}

/// What stands between two classes.
fn turn_entry(left: u8, right: u8) -> BreakState
    ensures { result ≡ turn_entry left right }
{
    if ends_a_line(left) {
        BreakState::Break
    } else if left == RuleBreakData::LINE_V3_PROPERTY_CR {
        keep_if(right == RuleBreakData::LINE_V3_PROPERTY_LF)
    } else if never_begins_a_line(right) {
        BreakState::Keep
    } else if allows_a_break(left) {
        BreakState::Break
    } else if is_ideographic(left) || is_ideographic(right) {
        keep_if(clings_to_ideographs(right))
    } else {
        BreakState::Keep
    }
}

/// Whether a line ends after the class, whatever follows.
fn ends_a_line(class: u8) -> bool
    ensures { result ≡ is_one_of Seventeen (BK ∷ LF ∷ NL ∷ []) class }
{
    class == RuleBreakData::LINE_V3_PROPERTY_BK
        || class == RuleBreakData::LINE_V3_PROPERTY_LF
        || class == RuleBreakData::LINE_V3_PROPERTY_NL
}

/// Whether no line begins with the class: line ends, spaces and the exclamation mark.
fn never_begins_a_line(class: u8) -> bool
    ensures { result ≡ is_one_of Seventeen (BK ∷ CR ∷ LF ∷ NL ∷ SP ∷ ZW ∷ EX ∷ EX_EASTASIAN ∷ []) class }
{
    class == RuleBreakData::LINE_V3_PROPERTY_BK
        || class == RuleBreakData::LINE_V3_PROPERTY_CR
        || class == RuleBreakData::LINE_V3_PROPERTY_LF
        || class == RuleBreakData::LINE_V3_PROPERTY_NL
        || class == RuleBreakData::LINE_V3_PROPERTY_SP
        || class == RuleBreakData::LINE_V3_PROPERTY_ZW
        || class == RuleBreakData::LINE_V3_PROPERTY_EX
        || class == RuleBreakData::LINE_V3_PROPERTY_EX_EASTASIAN
}

/// Whether a line may be broken after the class: spaces and the hyphen.
fn allows_a_break(class: u8) -> bool
    ensures { result ≡ is_one_of Seventeen (SP ∷ ZW ∷ HY ∷ []) class }
{
    class == RuleBreakData::LINE_V3_PROPERTY_SP
        || class == RuleBreakData::LINE_V3_PROPERTY_ZW
        || class == RuleBreakData::LINE_V3_PROPERTY_HY
}

/// Whether the class is that of ideographs.
fn is_ideographic(class: u8) -> bool
    ensures { result ≡ is_one_of Seventeen (ID ∷ ID_EASTASIAN ∷ []) class }
{
    class == RuleBreakData::LINE_V3_PROPERTY_ID
        || class == RuleBreakData::LINE_V3_PROPERTY_ID_EASTASIAN
}

/// Whether the class stays with an ideograph before it.
fn clings_to_ideographs(class: u8) -> bool
    ensures { result ≡ is_one_of Seventeen (NS ∷ NS_EASTASIAN ∷ IN ∷ IN_EASTASIAN ∷ BA ∷ BA_EASTASIAN ∷ CJ ∷ HY ∷ []) class }
{
    class == RuleBreakData::LINE_V3_PROPERTY_NS
        || class == RuleBreakData::LINE_V3_PROPERTY_NS_EASTASIAN
        || class == RuleBreakData::LINE_V3_PROPERTY_IN
        || class == RuleBreakData::LINE_V3_PROPERTY_IN_EASTASIAN
        || class == RuleBreakData::LINE_V3_PROPERTY_BA
        || class == RuleBreakData::LINE_V3_PROPERTY_BA_EASTASIAN
        || class == RuleBreakData::LINE_V3_PROPERTY_CJ
        || class == RuleBreakData::LINE_V3_PROPERTY_HY
}
