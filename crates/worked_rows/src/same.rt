//! Whether two data are the same: those of the lines of settings alone, and those of the row with its own parts.

use crate::data::{classes_of, machine_of, table_of, tailoring_of};
use crate::row::Row;
use anyhow::{Result, bail};
use bench::pair_tables::cluster_table;
use icu_segmenter::provider::LanguageIdentifier;
use std::alloc::Global;

/// Whether two data of this name are the same.
pub fn sameness(alloc: Global, row: Row<'_>, name: &str) -> Result<String> {
    let is_same = match name {
        "tables" => same_tables(alloc, row),
        "machines" => same_machines(alloc, row),
        "tailorings" => same_tailorings(alloc, row),
        "languages" => same_languages(row),
        "samples" => is_sample(alloc, row),
        _ => bail!("no data of this name"),
    };
    let word = if is_same? { "same" } else { "other" };
    Ok(word.to_owned(alloc)?)
}

fn same_tables(alloc: Global, row: Row<'_>) -> Result<bool> {
    let one = classes_of(alloc, row.parts_of("").words("classes")?)?;
    let other = classes_of(alloc, row.words("classes")?)?;
    Ok(one == other)
}

fn same_machines(alloc: Global, row: Row<'_>) -> Result<bool> {
    let one = machine_of(alloc, row.parts_of(""))?;
    let other = machine_of(alloc, row)?;
    Ok(one == other)
}

fn same_tailorings(alloc: Global, row: Row<'_>) -> Result<bool> {
    let one = tailoring_of(alloc, row.parts_of(""))?;
    let other = tailoring_of(alloc, row)?;
    Ok(one == other)
}

// Whether a pair table is the sample one of clusters.
fn is_sample(alloc: Global, row: Row<'_>) -> Result<bool> {
    let table = table_of(alloc, row)?;
    let sample = cluster_table(alloc)?;
    Ok(table == sample)
}

// Whether a copy of one language is the same as another.
fn same_languages(row: Row<'_>) -> Result<bool> {
    let one = LanguageIdentifier::try_from_language(row.words("language")?);
    let other = LanguageIdentifier::try_from_language(row.words("other")?);
    Ok(one.clone()? == other)
}
