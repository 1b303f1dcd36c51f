//! Configurations of a scan, what scans find from them on, and the cells that keep that.

ghost use Rattle.std.specs.Prelude.{◌≡◌, ℕ, ◌<◌, false, IfSome, None};
ghost use Rattle.seg_machine.specs.MachineFaults.{NamesPast};
ghost use Rattle.seg_machine.specs.Search.{keep};
ghost use Rattle.seg_memo.specs.Configurations.{condition_held, configuration, arrival, entered, floor, picked};
ghost use Rattle.seg_memo.specs.Grids.{known, holding, way_from, came_from};

use seg_machine::provider::{Acceptance, Lookahead, State};
use seg_text::boundary::Boundary;

/// Where a scan is.
#[derive(Clone, Copy)]
pub struct Configuration {
    /// The state that it is in.
    pub state: State,
    /// Its place in the whole text: so many items.
    pub place: usize,
    /// The lookaheads that the states entered so far name: bit k is lookahead k.
    pub kept: u8,
}

/// What a scan finds from a configuration on.
#[derive(Clone, Copy)]
pub enum Outcome {
    /// No state accepts, and no condition holds.
    Nothing,
    /// The segment ends here, counted in items: a state accepts there last, or its place was kept for the condition that
    /// holds.
    Picked(Boundary),
    /// The first condition that holds is on this lookahead, named before the configuration alone, with this status.
    Kept(Lookahead, u8),
}

/// What one look-up gives.
#[derive(Clone, Copy)]
pub enum LookUp {
    /// The scan's end, with the outcome of the configuration.
    Ends(Outcome),
    /// The next configuration.
    Leads(Configuration),
}

/// What is known of a configuration.
#[derive(Clone, Copy)]
pub enum Cell {
    /// It was not looked up.
    Unknown,
    /// A scan began in it.
    First,
    /// A scan reached it from the configuration of this state and set of lookaheads: at the same place, or at that before.
    Way(State, u8, bool),
    /// Its outcome is nothing.
    KnownNothing,
    /// Its outcome is a condition that holds on a lookahead named before, with a status.
    KnownKept(Lookahead, u8),
}

/// The lookahead and the status of a state's condition, where it holds: the lookahead is in the set.
#[inline(always)]
fn condition_held(entry: (Acceptance, Option<Lookahead>), kept: u8) -> Option<(Lookahead, u8)>
    requires { NamesPast 8 entry → ⊥ }
    ensures { result ≡ condition_held kept entry }
{
    match entry.0 {
        Acceptance::Conditional(lookahead, status) => {
            if (kept >> lookahead) & 1 == 1 {
                return Some((lookahead, status));
            }
            None
        }
        _ => None,
    }
}

/// The set with the lookahead that a state names.
#[inline(always)]
fn keep(name: Option<Lookahead>, kept: u8) -> u8
    requires { IfSome name (λ lookahead. lookahead < 8) }
    ensures { result ≡ keep kept name }
{
    match name {
        Some(lookahead) => kept | (1 << lookahead),
        None => kept,
    }
}

/// What comes of it that a scan enters a state at a place, where the lookaheads of a set were named before.
#[inline(always)]
pub(crate) fn arrive(
    entry: (Acceptance, Option<Lookahead>),
    state: State,
    place: usize,
    kept: u8,
) -> LookUp
    requires { NamesPast 8 entry → ⊥ }
    ensures { result ≡ arrival entry state place kept }
{
    if let Some((lookahead, status)) = condition_held(entry, kept) {
        return LookUp::Ends(Outcome::Kept(lookahead, status));
    }
    let kept = keep(entry.1, kept);
    LookUp::Leads(Configuration { state, place, kept })
}

/// The lookahead that a state names, which is asked only where the machine has some.
#[inline(always)]
pub(crate) fn name_of<const NAMES: bool>(
    entry: (Acceptance, Option<Lookahead>),
) -> Option<Lookahead>
    requires { NAMES ≡ false → entry.1 ≡ None }
    ensures { result ≡ entry.1 }
{
    if NAMES { entry.1 } else { None }
}

/// The configuration of a state that is entered at a place, where no lookahead was named before.
#[inline(always)]
pub(crate) fn naming(
    entry: (Acceptance, Option<Lookahead>),
    state: State,
    place: usize,
) -> Configuration
    requires { NamesPast 8 entry → ⊥ }
    ensures { result ≡ configuration state place (keep 0 entry.1) }
{
    let kept = keep(entry.1, 0);
    Configuration { state, place, kept }
}

/// The configuration of a state at a place, where no lookahead is named.
#[inline(always)]
pub(crate) fn plain(state: State, place: usize) -> Configuration
    ensures { result ≡ configuration state place 0 }
{
    Configuration {
        state,
        place,
        kept: 0,
    }
}

/// The place up to which a segment's end is known: that of the last acceptance, or else this one.
#[inline(always)]
pub(crate) fn floor(place: usize, last: Option<Boundary>) -> usize
    ensures { result ≡ floor place last }
{
    match last {
        Some(found) => found.offset,
        None => place,
    }
}

/// The outcome before a state that is entered at a place, from that after it.
#[inline(always)]
pub(crate) fn entered(
    place: usize,
    entry: (Acceptance, Option<Lookahead>),
    outcome: Outcome,
) -> Outcome
    ensures { result ≡ entered place entry outcome }
{
    match outcome {
        Outcome::Nothing => match entry.0 {
            Acceptance::Accept(status) => Outcome::Picked(Boundary {
                offset: place,
                status,
            }),
            _ => Outcome::Nothing,
        },
        Outcome::Kept(lookahead, status) => {
            if entry.1 == Some(lookahead) {
                return Outcome::Picked(Boundary {
                    offset: place,
                    status,
                });
            }
            Outcome::Kept(lookahead, status)
        }
        Outcome::Picked(_) => outcome,
    }
}

/// The pick that an outcome means, where no lookahead was named before.
#[inline(always)]
pub(crate) fn picked(outcome: Outcome) -> Option<Boundary>
    ensures { result ≡ picked outcome }
{
    match outcome {
        Outcome::Picked(found) => Some(found),
        _ => None,
    }
}

/// The outcome that a cell holds.
#[inline(always)]
pub(crate) fn known(cell: Cell) -> Option<Outcome>
    ensures { result ≡ known cell }
{
    match cell {
        Cell::KnownNothing => Some(Outcome::Nothing),
        Cell::KnownKept(lookahead, status) => Some(Outcome::Kept(lookahead, status)),
        _ => None,
    }
}

/// The cell that holds an outcome. None holds a segment's end: no later scan reaches such a configuration.
#[inline(always)]
pub(crate) fn holding(outcome: Outcome) -> Option<Cell>
    ensures { result ≡ holding outcome }
{
    match outcome {
        Outcome::Nothing => Some(Cell::KnownNothing),
        Outcome::Picked(_) => None,
        Outcome::Kept(lookahead, status) => Some(Cell::KnownKept(lookahead, status)),
    }
}

/// The cell of a configuration that a scan reaches from another.
#[inline(always)]
pub(crate) fn way(before: Configuration, here: Configuration) -> Cell
    ensures { result ≡ way_from before here }
{
    Cell::Way(before.state, before.kept, here.place == before.place)
}

/// The configuration of a state and a set of lookaheads that a scan came from: at the same place, or at that before.
#[inline(always)]
pub(crate) fn before(here: Configuration, state: State, kept: u8, stays: bool) -> Configuration
    requires { stays ≡ false → 0 < here.place }
    ensures { result ≡ came_from here state kept stays }
{
    let place = if stays { here.place } else { here.place - 1 };
    Configuration { state, place, kept }
}
