//! How many cases there were of a kind.

use crate::cases::Kind;
use crate::dice::Dice;
use crate::failure::Failure;
use crate::trial::Seen;
use anyhow::{Result, bail};
use icu_segmenter::provider::DataError;
use std::alloc::Global;
use std::fmt;

// Why data are rejected.
const FAULTS: [DataError; 18] = [
    DataError::RangeOrder,
    DataError::RangePast10FFFF,
    DataError::TableSize,
    DataError::ClassOutOfRange,
    DataError::StateOutOfRange,
    DataError::StartRowKeeps,
    DataError::ComplexItems,
    DataError::ComplexBelow0100,
    DataError::ComplexClassNamed,
    DataError::StateCount,
    DataError::TransitionSize,
    DataError::TransitionOutOfRange,
    DataError::SymbolOutOfRange,
    DataError::TooManyLookaheads,
    DataError::LookaheadOutOfRange,
    DataError::EndCycle,
    DataError::Stalls,
    DataError::MissingTailoring,
];

/// How many cases there were.
#[derive(Clone, Copy)]
pub struct Tally {
    made: u64,
    memos: u64,
    certain: u64,
    refused: [u64; 20],
}

impl Tally {
    // Counts a case. The error is one that has neither an answer nor a refusal.
    fn add(&mut self, outcome: Result<Seen, Failure>) -> Result<(), Failure> {
        match outcome {
            Ok(seen) => {
                self.made = self.made.saturating_add(1);
                self.memos = self.memos.saturating_add(u64::from(seen.has_memo));
                self.certain = self.certain.saturating_add(seen.certain);
            }
            Err(Failure::Refused(fault)) => {
                if let Some(count) = self.refused.get_mut(usize::from(fault.number())) {
                    *count = count.saturating_add(1);
                }
            }
            Err(failure) => return Err(failure),
        }
        Ok(())
    }
}

impl fmt::Display for Tally {
    fn fmt<W: fmt::Write>(&self, f: &mut fmt::Formatter<W>) -> fmt::Result {
        let Tally {
            made,
            memos,
            certain,
            ..
        } = self;
        write!(
            f,
            "{made} agreed, {memos} of them with a memo, {certain} certain places; refused"
        )?;
        for fault in FAULTS {
            match self.refused.get(usize::from(fault.number())) {
                None | Some(0) => {}
                Some(count) => write!(f, " {fault:?} {count}")?,
            }
        }
        Ok(())
    }
}

/// Tries so many cases of a kind, from a seed on. The errors are out of memory, and a case that has neither an answer nor a
/// refusal, with its seed.
pub fn tally_of(alloc: Global, kind: Kind, cases: u64, seed: u64) -> Result<Tally> {
    let mut tally = Tally {
        made: 0,
        memos: 0,
        certain: 0,
        refused: [0; 20],
    };
    for case in 0..cases {
        let seed = seed.wrapping_add(case);
        let outcome = kind.run(alloc, &mut Dice::new(seed));
        if let Err(failure) = tally.add(outcome) {
            bail!("{kind:?}, seed {seed}: {failure}");
        }
    }
    Ok(tally)
}
