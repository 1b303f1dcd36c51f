//! Tables of classes, as they are made and indexed.
ghost use Rattle.seg_data.specs.Faults.{HasRangeFault, IsFaultless};

use crate::data::{classes_of, copy_of};
use crate::row::Row;
use anyhow::{Result, bail};
use seg_data::provider::{ClassTable, page_byte_count, value_by_halving};
use std::alloc::Global;

/// How many bytes the pages of the indexed table take where a row asks for them. Or else the value of the code point that it names, or
/// the table's default and ranges: the same by the table as it is made, and indexed.
pub fn table(alloc: Global, row: Row<'_>) -> Result<String> {
    let table = classes_of(alloc, row.words("classes")?)?;
    let indexed = copy_of(alloc, &table)?.indexed(alloc)?;
    if row.part("pages").is_some() {
        let bytes = page_byte_count(&indexed);
        return Ok(format!(in alloc; "{bytes}")?);
    }
    let answer = answer_of(alloc, row, &table)?;
    if indexed != table || answer_of(alloc, row, &indexed)? != answer {
        bail!("another answer by the indexed table");
    }
    Ok(answer)
}

// The value of the code point of a row, or the table.
fn answer_of(alloc: Global, row: Row<'_>, table: &ClassTable) -> Result<String>
    requires { IsFaultless (HasRangeFault table.now.ranges) }
{
    match row.part("at") {
        Some(_) => value(alloc, table, row.code_point("at")?),
        None => shown(alloc, table),
    }
}

// The value of a code point, which is the same by halving.
fn value(alloc: Global, table: &ClassTable, code_point: u32) -> Result<String>
    requires { IsFaultless (HasRangeFault table.now.ranges) }
{
    let value = table.get32(code_point);
    if value_by_halving(table.ranges(), table.default(), code_point) != value {
        bail!("another value by halving");
    }
    Ok(format!(in alloc; "{value}")?)
}

// The default of a table and its ranges, as rows write them.
fn shown(alloc: Global, table: &ClassTable) -> Result<String> {
    let default = table.default();
    let mut shown = format!(in alloc; "{default}")?;
    for (first, last, value) in table.ranges() {
        write!(shown, " {first:X}-{last:X}={value}")?;
    }
    Ok(shown)
}
