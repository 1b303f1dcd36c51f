//! What may be true within the scans of a machine, by the tables of rules.

use crate::fault::{Fault, Why};
use crate::lists::at;
use crate::records::{Records, Way};
use crate::scans::{END, LOST, NEWEST, NONE, OLDER, moved_place};
use crate::smallest::Parts;
use crate::tables::{Tables, is_open, is_sure};
use seg_machine::provider::{Acceptance, Lookahead, SegmenterStateMachine, State};
use seg_rules::certificate::Configuration;
use std::alloc::Global;

/// What may be true of a state.
#[derive(Clone, Copy)]
pub(crate) struct Truth {
    pub(crate) state: State,
    pub(crate) is: Configuration,
}

// How many words that is.
const WORDS: usize = 8;

impl Truth {
    /// This truth as words, in the order in which a certificate has it.
    pub(crate) fn words(self) -> [u32; WORDS] {
        [
            u32::from(self.state),
            u32::from(self.is.before),
            u32::from(self.is.doubt),
            u32::from(self.is.older),
            u32::from(self.is.newest),
            u32::from(self.is.last),
            u32::from(self.is.status),
            u32::from(self.is.named),
        ]
    }
}

// What is owed after a symbol: to the boundary where the scan began, to the older place, and to the newest.
#[derive(Clone, Copy)]
struct Owed {
    doubt: u8,
    older: u8,
    newest: u8,
    // That to the place that is older then: the newest one, if there is no older.
    kept: u8,
}

// What becomes of a scan: it is right, something else is true then, or the machine errs.
#[derive(Clone, Copy)]
enum Step {
    Ends,
    Goes(Truth),
    Errs(Why),
}

/// All that may be true within the scans of a machine.
#[derive(Drop)]
pub(crate) struct Relation<'a> {
    parts: &'a Parts,
    tables: &'a Tables,
    // The status of the end of the text.
    at_end: u8,
    pub(crate) records: Records,
    pub(crate) truths: Vec<Truth>,
}

impl<'a> Relation<'a> {
    /// Nothing yet, of a machine and the tables of rules, by which the end has this status.
    pub(crate) fn new(
        alloc: Global,
        parts: &'a Parts,
        tables: &'a Tables,
        at_end: u8,
    ) -> Result<Relation<'a>, Fault> {
        Ok(Relation {
            parts,
            tables,
            at_end,
            records: Records::new(alloc, WORDS, u16::MAX)?,
            truths: Vec::new(alloc),
        })
    }

    /// Finds all that may be true.
    pub(crate) fn run(&mut self) -> Result<(), Fault> {
        self.begin()?;
        for from in 0..u16::MAX {
            let Some(truth) = self.truths.get(usize::from(from)).copied() else {
                break;
            };
            self.follow(from, truth)?;
        }
        Ok(())
    }

    /// All that may be true, in order.
    pub(crate) fn sorted(mut self) -> Vec<Truth> {
        self.truths.sort_unstable_by_key(|truth| truth.words());
        self.truths
    }

    // Scans begin at the start of a text, and wherever there may be a boundary.
    fn begin(&mut self) -> Result<(), Fault> {
        self.add(start(0, 1), None)?;
        for before in 0..u16::MAX {
            if usize::from(before) >= self.tables.befores.len() {
                break;
            }
            let owes = self.tables.owes(before);
            if owes != 0 {
                self.add(start(before, owes), None)?;
            }
        }
        Ok(())
    }

    // Finds what is true after each symbol.
    fn follow(&mut self, from: u16, truth: Truth) -> Result<(), Fault> {
        let symbols = self.tables.symbols;
        for symbol in 0..=symbols {
            match self.step(truth, symbol) {
                Step::Ends => {}
                Step::Goes(next) => self.add(next, Some(Way { from, symbol }))?,
                Step::Errs(why) => return Err(Fault::Stuck(from, symbol, why)),
            }
        }
        Ok(())
    }

    fn add(&mut self, truth: Truth, way: Option<Way>) -> Result<(), Fault> {
        let number = self.records.number(&truth.words(), way)?;
        if usize::from(number) >= self.truths.len() {
            self.truths.push(truth)?;
        }
        Ok(())
    }

    // What becomes of a scan when a symbol is read, or the end, 0.
    fn step(&self, truth: Truth, symbol: u8) -> Step {
        let owed = self.owed(truth.is, symbol);
        if owed.doubt == 0 {
            return Step::Ends;
        }
        if symbol == 0 {
            return self.end(truth, owed.older);
        }
        match self.next(truth.state, symbol) {
            Some(state) => self.go(truth.is, owed, state, symbol),
            None => stop(truth.is, owed),
        }
    }

    // What is owed after a symbol.
    fn owed(&self, is: Configuration, symbol: u8) -> Owed {
        let owes = self.tables.owes(is.before);
        let newest = if is.newest { owes } else { 0 };
        let newest = self.tables.after(newest, is.before, symbol);
        let older = self.tables.after(is.older, is.before, symbol);
        Owed {
            doubt: self.tables.after(is.doubt, is.before, symbol),
            older,
            newest,
            kept: if older == 0 { newest } else { older },
        }
    }

    // The state that a symbol leads to.
    fn next(&self, state: State, symbol: u8) -> Option<State> {
        let row = usize::from(symbol).saturating_mul(self.parts.states.len());
        let place = row.saturating_add(usize::from(state));
        let none = SegmenterStateMachine::TRASH_STATE;
        Some(at(self.parts.transitions.as_slice(), place, none)).filter(|next| *next != none)
    }

    // What a state accepts, and the lookahead that it names.
    fn entry(&self, state: State) -> (Acceptance, Option<Lookahead>) {
        let states = self.parts.states.as_slice();
        at(states, usize::from(state), (Acceptance::Continue, None))
    }

    // What becomes of a scan that goes on to a state.
    fn go(&self, is: Configuration, owed: Owed, state: State, symbol: u8) -> Step {
        if is_open(owed.older) && owed.newest != 0 {
            return Step::Errs(Why::Undecided(owed.older));
        }
        let before = self.tables.befores.moved(is.before, symbol);
        let is = Configuration {
            before,
            doubt: owed.doubt,
            older: owed.kept,
            newest: !is_sure(owed.kept) && self.tables.owes(before) != 0,
            last: moved_place(owed.older, owed.newest, is.last),
            status: is.status,
            named: moved_place(owed.older, owed.newest, is.named),
        };
        entered(Truth { state, is }, self.entry(state))
    }

    // What becomes of a scan at the end of the text; where nothing was read there is no end.
    fn end(&self, truth: Truth, older: u8) -> Step {
        let is = truth.is;
        let is_start = truth.state == SegmenterStateMachine::START_STATE && is.last == NONE;
        let sure = older.checked_sub(1);
        let wanted = sure.map_or((END, self.at_end), |status| (OLDER, status));
        let found = (place_at_end(older, is.last), is.status);
        let named = place_at_end(older, is.named);
        if is_start || self.pick(truth.state, found, named) == wanted {
            Step::Ends
        } else {
            Step::Errs(Why::Past)
        }
    }

    // The place that a scan picks at the end, with its status, where this was accepted last and that was named.
    fn pick(&self, state: State, found: (u8, u8), named: u8) -> (u8, u8) {
        let Some(next) = self.next(state, 0) else {
            return found;
        };
        match self.entry(next).0 {
            Acceptance::Accept(status) => (END, status),
            Acceptance::Conditional(_, status) if named != NONE => (named, status),
            _ => found,
        }
    }
}

// What is true where a scan begins.
fn start(before: u16, doubt: u8) -> Truth {
    Truth {
        state: SegmenterStateMachine::START_STATE,
        is: Configuration {
            before,
            doubt,
            older: 0,
            newest: false,
            last: NONE,
            status: 0,
            named: NONE,
        },
    }
}

// Where a place is at the end, by what is owed then to the older one.
fn place_at_end(older: u8, place: u8) -> u8 {
    match place {
        NEWEST => END,
        OLDER if older == 0 => LOST,
        _ => place,
    }
}

// What becomes of a scan that enters a state which accepts this.
fn entered(truth: Truth, entry: (Acceptance, Option<Lookahead>)) -> Step {
    let is = truth.is;
    match entry.0 {
        Acceptance::Accept(status) => {
            let named = if entry.1.is_some() { NEWEST } else { is.named };
            let is = Configuration {
                last: NEWEST,
                status,
                named,
                ..is
            };
            Step::Goes(Truth { is, ..truth })
        }
        Acceptance::Conditional(_, status) if is.named != NONE => picked(
            is.older, is.named, status,
        ),
        _ => Step::Goes(truth),
    }
}

// What becomes of a scan that picks a place with a status, where this is owed to the older one.
fn picked(owed: u8, place: u8, status: u8) -> Step {
    if place == OLDER && is_sure(owed) && owed.saturating_sub(1) == status {
        Step::Ends
    } else {
        Step::Errs(Why::Past)
    }
}

// What becomes of a scan that stops.
fn stop(is: Configuration, owed: Owed) -> Step {
    let last = moved_place(owed.older, owed.newest, is.last);
    picked(owed.kept, last, is.status)
}
