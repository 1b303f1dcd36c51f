//! Tables that somebody made for rules and a machine, to be checked.

/// What may stand before a place, and where each symbol leads from there.
#[derive(Clone, Copy)]
pub struct Before<'a> {
    /// Of the left pattern of each row above that of marks, which of its rests may come next: a bit for each, the whole in the
    /// lowest.
    pub above: &'a [u32],
    /// Of the left pattern of each row below that of marks, which of its rests may come next, as bits.
    pub below: &'a [u32],
    /// Whether a mark would be read with what stands there.
    pub glues: bool,
    /// By each symbol, from 1 on, the number of what stands before the next place.
    pub moves: &'a [u16],
    /// The number of what is owed to the place.
    pub owes: u8,
}

/// The right pattern of a row whose left one fits, as far as it is read.
#[derive(Clone, Copy)]
pub enum Entry {
    /// Marks are glued.
    Marks,
    /// The row above that of marks with this number, and which of its rests may come next.
    Above(u8, u32),
    /// The row below it with this number, and which of its rests may come next.
    Below(u8, u32),
}

/// What is owed to a place, and what is owed then by each symbol.
#[derive(Clone, Copy)]
pub struct Due<'a> {
    /// The entries, in the order of the rows.
    pub entries: &'a [Entry],
    /// The verdict where none of them fits.
    pub otherwise: u8,
    /// By each symbol, from the end, 0, on, the numbers of what is owed then, where a mark isn't glued and where it is.
    pub reads: &'a [(u8, u8)],
}

/// What may be true within a scan. Places: 0 none, 1 one that is no boundary, 2 that after the last symbol, 3 an older one.
#[derive(Clone, Copy)]
pub struct Configuration {
    /// The number of what stands before the place after the last symbol.
    pub before: u16,
    /// The number of what is owed to the boundary where the scan began.
    pub doubt: u8,
    /// The number of what is owed to a place within the scan, 0 if there is none.
    pub older: u8,
    /// Whether the place after the last symbol may be a boundary.
    pub newest: bool,
    /// The place that was accepted last.
    pub last: u8,
    /// Its status.
    pub status: u8,
    /// The place that was named last.
    pub named: u8,
}

/// Tables for rules, and a relation: of each state of a machine what may be true there, in order.
#[derive(Clone, Copy)]
pub struct Certificate<'a> {
    /// What may stand before a place: the first stands at the start.
    pub befores: &'a [Before<'a>],
    /// What may be owed to a place, from number 3 on: 0, 1 and 2 are the verdicts.
    pub dues: &'a [Due<'a>],
    /// Of each state, what may be true there.
    pub relation: &'a [&'a [Configuration]],
}
