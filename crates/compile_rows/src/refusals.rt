//! Why rules as rows have no machine.

use crate::refused;
use anyhow::{Result, bail};
use seg_compile::compile::{Characters, CompileError, Witness, compile};
use seg_data::provider::ClassTable;
use seg_rules::rules::Rules;
use std::alloc::Global;

/// Prints why rows have no machine.
pub(crate) fn print_refusals(rt: &HostRuntime) -> Result<()> {
    print_refusal(rt, &refused::NEEDS_PAST, 3)?;
    print_refusal(rt, &refused::TWO_UNDECIDED, 3)?;
    print_refusal(rt, &refused::TWO_LOOKAHEADS, 5)?;
    print_refusal(rt, &refused::TWO_LOOKAHEADS, 256)
}

// Prints why rules have no machine.
fn print_refusal(rt: &HostRuntime, rules: &Rules<'_>, symbols: usize) -> Result<()> {
    let error = refusal(rt.alloc(), rules, symbols)?;
    println!(rt; "{error}")?;
    match witness_of(&error) {
        Some(witness) => print_witness(rt, witness),
        None => Ok(()),
    }
}

// Why rules have no machine.
fn refusal(alloc: Global, rules: &Rules<'_>, symbols: usize) -> Result<CompileError> {
    let characters = Characters {
        symbols: ClassTable::try_from_ranges(Vec::new(alloc), 1)?,
        pseudo_symbol_shift: u8::MAX,
        pseudo_symbol_map: Vec::new(alloc),
    };
    match compile(alloc, rules, symbols, characters) {
        Ok(_) => bail!("rules that have a machine"),
        Err(CompileError::Memory) => bail!("out of memory"),
        Err(error) => Ok(error),
    }
}

fn print_witness(rt: &HostRuntime, witness: &Witness) -> Result<()> {
    let Witness {
        row,
        symbols,
        begin,
    } = witness;
    println!(rt; "    row {row:?}, symbols {symbols:?}, from {begin}")?;
    Ok(())
}

fn witness_of(error: &CompileError) -> Option<&Witness> {
    match error {
        CompileError::TwoUndecided(witness)
        | CompileError::TwoLookaheads(witness)
        | CompileError::NeedsPast(witness) => Some(witness),
        _ => None,
    }
}
