//! What a scan of a machine has to know, as a state.

use seg_machine::provider::{Acceptance, Lookahead};

/// No place was accepted, or named.
pub(crate) const NONE: u8 = 0;

/// A place that turned out to be no boundary.
pub(crate) const LOST: u8 = 1;

/// The place after the last symbol.
pub(crate) const NEWEST: u8 = 2;

/// An older place, which may be a boundary.
pub(crate) const OLDER: u8 = 3;

/// The end of the text.
pub(crate) const END: u8 = 4;

/// What a state is.
#[derive(Clone, Copy, PartialEq)]
pub(crate) enum Kind {
    /// A scan begins there.
    Start,
    /// A scan goes on.
    Goes,
    /// The older place that is named is the boundary.
    Condition,
    /// The end of the text is.
    End,
}

/// An older place: what is owed to it, 0 if there is none, whether the lookahead names it, and the state that accepted it.
#[derive(Clone, Copy)]
pub(crate) struct Place {
    pub(crate) owed: u8,
    pub(crate) named: bool,
    pub(crate) origin: Origin,
}

/// What stands before the place that a state accepts, and what is owed to a place older still.
pub(crate) type Origin = (u16, u8);

/// A state: what a scan has to know.
#[derive(Clone, Copy)]
pub(crate) struct Scan {
    pub(crate) kind: Kind,
    pub(crate) before: u16,
    pub(crate) older: Place,
    /// The place that was accepted last, and its status.
    pub(crate) last: u8,
    pub(crate) status: u8,
    /// Whether the lookahead names the place after the last symbol.
    pub(crate) names: bool,
}

/// No older place.
pub(crate) const NO_PLACE: Place = Place {
    owed: 0,
    named: false,
    origin: (0, 0),
};

/// What a scan knows where it begins.
pub(crate) const START: Scan = Scan {
    kind: Kind::Start,
    before: 0,
    older: NO_PLACE,
    last: NONE,
    status: 0,
    names: false,
};

/// How many words a state is.
pub(crate) const WORDS: usize = 9;

impl Scan {
    /// A state of a kind and with a status that knows nothing else.
    pub(crate) fn bare(kind: Kind, status: u8) -> Scan {
        Scan {
            kind,
            status,
            ..START
        }
    }

    /// The state as words.
    pub(crate) fn words(self) -> [u32; WORDS] {
        [
            self.kind as u32,
            u32::from(self.before),
            u32::from(self.older.owed),
            u32::from(self.older.named),
            u32::from(self.older.origin.0),
            u32::from(self.older.origin.1),
            u32::from(self.last),
            u32::from(self.status),
            u32::from(self.names),
        ]
    }

    /// What the state accepts, and the lookahead that it names.
    pub(crate) fn entry(self) -> (Acceptance, Option<Lookahead>) {
        match self.kind {
            Kind::Goes if self.last == NEWEST => {
                let name = if self.names { Some(0) } else { None };
                (Acceptance::Accept(self.status), name)
            }
            Kind::Condition => (Acceptance::Conditional(0, self.status), None),
            Kind::End => (Acceptance::Accept(self.status), None),
            _ => (Acceptance::Continue, None),
        }
    }
}

/// Where a place is after a symbol, by what is owed then to the older place and to the newest.
pub(crate) fn moved_place(older: u8, newest: u8, place: u8) -> u8 {
    match place {
        OLDER if older == 0 => LOST,
        NEWEST if older == 0 && newest != 0 => OLDER,
        NEWEST => LOST,
        _ => place,
    }
}
