//! A machine of rules, as text.

use crate::rules::{OwnRules, name_of};
use icu_segmenter::provider::{Acceptance, Lookahead, State, Symbol};
use std::fmt;

// Where a symbol leads to no state.
const NO_STATE: State = 255;

/// A line for each state: its number, what it ends and marks, and by its symbols the next state.
impl fmt::Display for OwnRules {
    fn fmt<W: fmt::Write>(&self, f: &mut fmt::Formatter<W>) -> fmt::Result {
        for (state, entry) in self.machine().states().iter().enumerate() {
            let (acceptance, named) = *entry;
            write!(f, "{state}")?;
            write_acceptance(acceptance, f)?;
            write_mark(named, f)?;
            write_steps(self, state, f)?;
            writeln!(f)?;
        }
        Ok(())
    }
}

fn write_acceptance<W: fmt::Write>(
    acceptance: Acceptance,
    f: &mut fmt::Formatter<W>,
) -> fmt::Result {
    match acceptance {
        Acceptance::Continue => Ok(()),
        Acceptance::Accept(status) => write!(f, " ends {status}"),
        Acceptance::Conditional(mark, status) => write!(f, " ends {status} at mark {mark}"),
    }
}

fn write_mark<W: fmt::Write>(named: Option<Lookahead>, f: &mut fmt::Formatter<W>) -> fmt::Result {
    match named {
        Some(mark) => write!(f, " marks {mark}"),
        None => Ok(()),
    }
}

// Writes where symbols lead from a state.
fn write_steps<W: fmt::Write>(
    own: &OwnRules,
    state: usize,
    f: &mut fmt::Formatter<W>,
) -> fmt::Result {
    let states = own.machine().states().len();
    let mut sign = ':';
    for symbol in 0..=own.rules().symbols() {
        let place = state.saturating_add(symbol.saturating_mul(states));
        let next = own.machine().transitions().get(place).copied();
        let next = next.unwrap_or(NO_STATE);
        if next != NO_STATE {
            let name = name_of(own.rules(), symbol as Symbol);
            write!(f, "{sign} {name} {next}")?;
            sign = ',';
        }
    }
    Ok(())
}
