//! The states of a machine for rules: what a scan has to know, from the start of a text on, with as few lookaheads as it needs.

use crate::fault::{Fault, Why};
use crate::given::Given;
use crate::lists::row;
use crate::records::{Records, Way};
use crate::scans::{Kind, NEWEST, NO_PLACE, OLDER, Origin, Place, START, Scan, WORDS, moved_place};
use crate::tables::{Tables, is_open, is_sure};

/// Nothing follows a state.
pub(crate) const NOWHERE: u16 = u16::MAX;

/// The states that one attempt found, and where symbols lead.
#[derive(Drop)]
pub(crate) struct Search<'a> {
    given: Given<'a>,
    tables: &'a Tables,
    pub(crate) records: Records,
    pub(crate) states: Vec<Scan>,
    // Of each state, by each symbol from the end, 0, on, the state that follows.
    transitions: Vec<u16>,
    // The states that name what they accept, and how many of them did in this attempt.
    pub(crate) names: Vec<Origin>,
    named: usize,
}

// At most so many states are found, of which equal ones are made one later.
const MOST: u16 = 1024;

// Each attempt but the last finds more states that have to name what they accept.
const MAX_ATTEMPTS: u16 = 16;

impl<'a> Search<'a> {
    /// Nothing is found yet.
    pub(crate) fn new(given: Given<'a>, tables: &'a Tables) -> Result<Search<'a>, Fault> {
        Ok(Search {
            given,
            tables,
            records: Records::new(given.alloc, WORDS, MOST)?,
            states: Vec::new(given.alloc),
            transitions: Vec::new(given.alloc),
            names: Vec::new(given.alloc),
            named: 0,
        })
    }

    /// Finds all states.
    pub(crate) fn run(&mut self) -> Result<(), Fault> {
        for _ in 0..MAX_ATTEMPTS {
            self.attempt()?;
            if self.names.len() == self.named {
                return Ok(());
            }
        }
        Err(Fault::TooLarge)
    }

    // Finds all states, where those name what they accept that had to before.
    fn attempt(&mut self) -> Result<(), Fault> {
        self.records = Records::new(self.given.alloc, WORDS, MOST)?;
        self.states.clear();
        self.transitions.clear();
        self.named = self.names.len();
        self.number(START, None)?;
        for from in 0..MOST {
            let Some(scan) = self.states.get(usize::from(from)).copied() else {
                break;
            };
            self.follow(from, scan)?;
        }
        Ok(())
    }

    // Finds where the symbols lead from a state.
    fn follow(&mut self, from: u16, scan: Scan) -> Result<(), Fault> {
        for symbol in 0..=self.given.symbols {
            let to = self.next(scan, Way { from, symbol })?;
            self.transitions.push(to)?;
        }
        Ok(())
    }

    // The state that follows a state.
    fn next(&mut self, scan: Scan, way: Way) -> Result<u16, Fault> {
        match scan.kind {
            Kind::Start if way.symbol != 0 => self.go(scan, 0, way),
            Kind::Goes if way.symbol != 0 => self.go(scan, self.tables.owes(scan.before), way),
            Kind::Goes => self.end(scan, way),
            _ => Ok(NOWHERE),
        }
    }

    // The state after a symbol, where this is owed to the newest place.
    fn go(&mut self, scan: Scan, newest: u8, way: Way) -> Result<u16, Fault> {
        let tables = self.tables;
        let older = tables.after(scan.older.owed, scan.before, way.symbol);
        let newest = tables.after(newest, scan.before, way.symbol);
        if is_open(older) && newest != 0 {
            return Err(Fault::Stuck(way.from, way.symbol, Why::Undecided(older)));
        }
        let next = Scan {
            kind: Kind::Goes,
            before: tables.befores.moved(scan.before, way.symbol),
            older: kept(scan, older, newest),
            last: moved_place(older, newest, scan.last),
            status: scan.status,
            names: false,
        };
        if is_sure(next.older.owed) {
            self.decided(next, way)
        } else {
            self.enter(next, way)
        }
    }

    // The state after a symbol where no boundary is sure: it accepts the newest place if that may be the first boundary.
    fn enter(&mut self, scan: Scan, way: Way) -> Result<u16, Fault> {
        let older = scan.older.owed;
        let newest = self.tables.owes(scan.before);
        if newest == 0 || (older != 0 && !self.tables.may_follow(scan.before, older, newest)) {
            let status = if scan.last == OLDER { scan.status } else { 0 };
            return self.number(Scan { status, ..scan }, Some(way));
        }
        let names = self.names.contains(&(scan.before, older));
        if older != 0 && names {
            return Err(Fault::Stuck(way.from, way.symbol, Why::Lookaheads));
        }
        if older != 0 {
            self.need(scan.older)?;
        }
        let accepting = Scan {
            last: NEWEST,
            status: self.tables.status(self.given, newest),
            names,
            ..scan
        };
        self.number(accepting, Some(way))
    }

    // The state at the end of the text.
    fn end(&mut self, scan: Scan, way: Way) -> Result<u16, Fault> {
        let older = self.tables.after(scan.older.owed, scan.before, 0);
        let at_end = self.given.rules.at_end;
        if older != 0 {
            let next = Scan {
                older: kept(scan, older, 0),
                last: moved_place(older, 0, scan.last),
                ..scan
            };
            self.decided(next, way)
        } else if scan.last == NEWEST && scan.status == at_end {
            Ok(NOWHERE)
        } else {
            self.number(Scan::bare(Kind::End, at_end), Some(way))
        }
    }

    // Where a scan goes whose older place is the boundary: nowhere, if it was accepted last, or to a condition on its lookahead.
    fn decided(&mut self, scan: Scan, way: Way) -> Result<u16, Fault> {
        let status = scan.older.owed.saturating_sub(1);
        if scan.last == OLDER && scan.status == status {
            return Ok(NOWHERE);
        }
        self.need(scan.older)?;
        self.number(Scan::bare(Kind::Condition, status), Some(way))
    }

    // A place has to be named.
    fn need(&mut self, place: Place) -> Result<(), Fault> {
        if !place.named && !self.names.contains(&place.origin) {
            self.names.push(place.origin)?;
        }
        Ok(())
    }

    // The number of a state.
    fn number(&mut self, scan: Scan, way: Option<Way>) -> Result<u16, Fault> {
        let number = self.records.number(&scan.words(), way)?;
        if usize::from(number) >= self.states.len() {
            self.states.push(scan)?;
        }
        Ok(number)
    }

    /// Of a state, by each symbol from the end, 0, on, the state that follows.
    pub(crate) fn transitions(&self, state: u16) -> &[u16] {
        let symbols = usize::from(self.given.symbols).saturating_add(1);
        row(self.transitions.as_slice(), usize::from(state), symbols)
    }
}

// The older place after a symbol, by what is owed then to it and to the newest.
fn kept(scan: Scan, older: u8, newest: u8) -> Place {
    if older != 0 {
        Place {
            owed: older,
            ..scan.older
        }
    } else if newest != 0 {
        Place {
            owed: newest,
            named: scan.names,
            origin: (scan.before, scan.older.owed),
        }
    } else {
        NO_PLACE
    }
}
