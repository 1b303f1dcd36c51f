//! The rules of lines, UAX #14, as text, from the files of their sets and of their rows.

use anyhow::{Context, Result};
use std::fs;

/// The text of the rules.
pub(crate) fn text(rt: &HostRuntime) -> Result<String> {
    let mut text = read(rt, "line_sets.rules")?;
    text.push_str(read(rt, "line_rows.rules")?.as_str())?;
    Ok(text)
}

/// The text of the rules with the rows of a file above those of LB23.
pub(crate) fn tailored(rt: &HostRuntime, path: &str) -> Result<String> {
    let text = text(rt)?;
    let (above, below) = text.split_once(LB23).context("no row of LB23")?;
    let rows = read(rt, path)?;
    Ok(format!(in rt.alloc(); "{above}{rows}{LB23}{below}")?)
}

const LB23: &str = "# LB23\n";

fn read(rt: &HostRuntime, path: &str) -> Result<String> {
    Ok(fs::read_to_string(rt, path).context("reading rules")?)
}
