//! Whether the scans of a machine find the places of the rules, by the relation of a certificate.
ghost use Rattle.std.specs.Prelude.{◌≡◌, ◌<◌, ◌&&◌, ◌||◌, ◌+◌, ◌-◌, List, if◌then◌else◌, ℕ, suc, true, false, not, ◌==◌, nat_lt, All, IfSome, IsTrue, [], length, map};
ghost use Rattle.seg_machine.specs.Machine.{symbol_count};
ghost use Rattle.seg_machine.specs.Tailored.{machine_of};
ghost use Rattle.seg_rules.specs.RowRules.{RowRules};
ghost use Rattle.seg_rules.specs.Check.{Plan, Tables, among, end_place as place_at_end, ends as ends_by, ends_well as ends_rightly, entered, get, goes_on as goes, moved_place as place_after, same_configuration};
ghost use Rattle.seg_rules.specs.Given.{tables_of};
ghost use Rattle.seg_rules.specs.Places.{stands_for};
ghost use Rattle.seg_rules.specs.Planned.{Begins, ConfigurationHolds, accept_by, begins_in, ends_at, enters_plain, glues_at, goes_at, is_named, is_verdict, kept_of, newest_at, next_number, plan_of, read_at, relation_of, stops_plain};

use crate::certificate::{Before, Certificate, Configuration};
use seg_machine::provider::{Acceptance, Lookahead, State};
use seg_machine::tailored_machine::TailoredMachineBorrowed;

// The first numbers of what is owed are verdicts.
const VERDICTS: u8 = 3;

// What stands before places has numbers of sixteen bits.
const MAX_BEFORES: usize = 65535;

// Whether two configurations are the same.
fn is_same(this: Configuration, that: Configuration) -> bool
    ensures { result ≡ same_configuration this that }
{
    this.before == that.before
        && this.doubt == that.doubt
        && this.older == that.older
        && this.newest == that.newest
        && this.last == that.last
        && this.status == that.status
        && this.named == that.named
}

// The number by which the configurations of a state stand in order.
fn key(c: Configuration) -> u64 {
    let owed = (c.before as u64 * 256 + c.doubt as u64) * 256 + c.older as u64;
    let found = (c.last as u64 * 256 + c.status as u64) * 256 + c.named as u64;
    (owed * 2 + c.newest as u64) * 16_777_216 + found
}

// Whether a configuration is one of these, which stand in order.
fn is_among(c: Configuration, group: &[Configuration]) -> bool
    ensures { IsTrue result → among c group.now ≡ true }
{
    let mut low = 0;
    let mut high = group.len();
    while low < high {
        let middle = low + (high - low) / 2;
        let other = group[middle];
        if is_same(c, other) {
            return true;
        }
        if key(other) < key(c) {
            low = middle + 1;
        } else {
            high = middle;
        }
    }
    false
}

// Whether a configuration is one of a state's.
fn is_known(relation: &[&[Configuration]], state: u8, c: Configuration) -> bool
    ensures { IsTrue result → among c (get [] (map (λ group. group.now) relation.now) state) ≡ true }
{
    (state as usize) < relation.len() && is_among(c, relation[state as usize])
}

// Where a place is after a symbol that isn't the end.
fn moved_place(older: u8, newest: u8, place: u8) -> u8
    ensures { result ≡ place_after older newest place }
{
    if place == 3 {
        if older == 0 { 1 } else { 3 }
    } else if place == 2 {
        if older == 0 && newest != 0 { 3 } else { 1 }
    } else {
        place
    }
}

/// The numbers of what is owed after a symbol: to the boundary where the scan began, to an older place, and to the newest.
#[derive(Clone, Copy)]
struct Owed {
    doubt: u8,
    older: u8,
    newest: u8,
}

/// What scans are checked by.
#[derive(Clone, Copy)]
pub(crate) struct Scans<'a> {
    pub(crate) machine: TailoredMachineBorrowed<'a>,
    pub(crate) certificate: Certificate<'a>,
    /// How many symbols there are beside the end.
    pub(crate) symbols: usize,
    /// The status of the end of the text.
    pub(crate) at_end: u8,
}

// A configuration where the place after the last symbol was accepted, and named if there is a name.
fn accepted(c: Configuration, status: u8, name: Option<Lookahead>) -> Configuration
    ensures { result ≡ record c { last = 2; status = status; named = if is_named name then 2 else c.named } }
{
    let named = match name {
        Some(_) => 2,
        None => c.named,
    };
    Configuration {
        last: 2,
        status,
        named,
        ..c
    }
}

// Whether a condition, with its status, picks the first boundary, where a place was named.
fn picks_named(c: Configuration, status: u8, kept: u8) -> bool
    ensures { result ≡ (c.named == 3 && (nat_lt kept 3 && kept == suc status)) }
{
    c.named == 3 && kept < VERDICTS && kept as u16 == status as u16 + 1
}

#[tactic(auto, unfolding(crate::specs::Check::entered))]
// Whether a state may be entered: what it accepts then is known, or is the first boundary.
fn may_enter(
    relation: &[&[Configuration]],
    state: u8,
    entry: (Acceptance, Option<Lookahead>),
    kept: u8,
    c: Configuration,
) -> bool
    ensures { (rules : RowRules) (t : Tables) (plan : Plan) → IsTrue result
        → entered rules t plan (map (λ group. group.now) relation.now) state (accept_by entry) kept c ≡ true }
{
    match entry.0 {
        Acceptance::Continue => is_known(relation, state, c),
        Acceptance::Accept(status) => is_known(relation, state, accepted(c, status, entry.1)),
        Acceptance::Conditional(_, status) => {
            if c.named == 0 {
                is_known(relation, state, c)
            } else {
                picks_named(c, status, kept)
            }
        }
    }
}

// What is owed to the older place that is kept: the newest one, if there is no older.
fn kept(owed: Owed) -> u8
    ensures { result ≡ kept_of owed.older owed.newest }
{
    if owed.older == 0 {
        owed.newest
    } else {
        owed.older
    }
}

// Whether this is the verdict of a boundary.
fn is_sure(kept: u8) -> bool
    ensures { result ≡ is_verdict kept }
{
    kept < VERDICTS && kept != 0
}

// Whether a scan that stops has accepted the first boundary last.
fn stops(c: Configuration, owed: Owed) -> bool
    ensures { result ≡ stops_plain c owed.older owed.newest }
{
    is_sure(kept(owed))
        && moved_place(owed.older, owed.newest, c.last) == 3
        && kept(owed) as u16 == c.status as u16 + 1
}

// What is owed to a place before which this stands.
fn owes(befores: &[Before<'_>], before: u16) -> u8
    ensures { result ≡ get 0 (map (λ b. b.owes) befores.now) before }
{
    if before as usize >= befores.len() {
        return 0;
    }
    befores[before as usize].owes
}

// What may be true after a symbol that isn't the end, where a scan goes on.
fn stepped(befores: &[Before<'_>], c: Configuration, before: u16, owed: Owed) -> Configuration
    ensures { let kept = kept_of owed.older owed.newest in
        result ≡ record {
          before = before;
          doubt = owed.doubt;
          older = kept;
          newest = not (is_verdict kept) && not (get 0 (map (λ b. b.owes) befores.now) before == 0);
          last = place_after owed.older owed.newest c.last;
          status = c.status;
          named = place_after owed.older owed.newest c.named;
        } }
{
    let kept = kept(owed);
    Configuration {
        before,
        doubt: owed.doubt,
        older: kept,
        newest: !is_sure(kept) && owes(befores, before) != 0,
        last: moved_place(owed.older, owed.newest, c.last),
        status: c.status,
        named: moved_place(owed.older, owed.newest, c.named),
    }
}

// Whether a scan that goes on to a state keeps to the relation: it doesn't enter the start again, and at most one older place is
// undecided.
fn enters(scans: &Scans<'_>, c: Configuration, before: u16, state: u8, owed: Owed) -> bool
    requires { state < length (machine_of scans.now.machine).states }
    ensures { (rules : RowRules) (n : ℕ) → IsTrue result
        → enters_plain rules (tables_of rules n scans.now.certificate) (plan_of (machine_of scans.now.machine) n) (relation_of scans.now.certificate)
        c before state owed.doubt owed.older owed.newest ≡ true }
{
    if !is_followed(state, owed) {
        return false;
    }
    let next = stepped(scans.certificate.befores, c, before, owed);
    let entry = scans.machine.entry(state);
    may_enter(scans.certificate.relation, state, entry, kept(owed), next)
}

// Whether a state isn't the start, and at most one older place is undecided.
fn is_followed(state: u8, owed: Owed) -> bool
    ensures { result ≡ (not (state == 0) && (nat_lt owed.older 3 || owed.newest == 0)) }
{
    state != 0 && (owed.older < VERDICTS || owed.newest == 0)
}

// Whether a step from a configuration is right: where nothing is left to check, where the scan stops, and where it goes on.
fn goes_on(
    scans: &Scans<'_>,
    c: Configuration,
    before: u16,
    next: Option<State>,
    owed: Owed,
) -> bool
    requires { IfSome next (λ state. (state < length (machine_of scans.now.machine).states) × (state < 255)) }
    ensures { (rules : RowRules) (n : ℕ) → IsTrue result
        → goes rules (tables_of rules n scans.now.certificate) (plan_of (machine_of scans.now.machine) n) (relation_of scans.now.certificate)
        c before (next_number next) owed.doubt owed.older owed.newest ≡ true }
{
    if owed.doubt == 0 {
        return true;
    }
    match next {
        Some(state) => enters(scans, c, before, state, owed),
        None => stops(c, owed),
    }
}

/// The place that a scan has accepted last, its status, and the place that it has named.
#[derive(Clone, Copy)]
struct Found {
    last: u8,
    status: u8,
    named: u8,
}

/// The place that a scan has to pick, and its status.
#[derive(Clone, Copy)]
struct Wanted {
    place: u8,
    status: u8,
}

// What is found where a state accepts the end.
fn found_at_end(found: Found, status: u8, name: Option<Lookahead>) -> Found
    ensures { result ≡ record { last = 4; status = status; named = if is_named name then 4 else found.named } }
{
    let named = match name {
        Some(_) => 4,
        None => found.named,
    };
    Found {
        last: 4,
        status,
        named,
    }
}

// Whether the states that the end leads to, again and again, pick what is wanted.
fn ends(
    machine: TailoredMachineBorrowed<'_>,
    fuel: u8,
    state: State,
    found: Found,
    wanted: Wanted,
) -> bool
    requires state { state < length (machine_of machine).states }
    requires symbol { 0 < symbol_count (machine_of machine) }
    ensures { (n : ℕ) → IsTrue result → ends_by (plan_of (machine_of machine.entry) n) fuel state found.last found.status found.named wanted.place wanted.status ≡ true }
{
    if fuel == 0 {
        return false;
    }
    let Some(next) = machine.next_state(state, 0) else {
        return found.last == wanted.place && found.status == wanted.status;
    };
    let (acceptance, name) = machine.entry(next);
    match acceptance {
        Acceptance::Continue => ends(machine, fuel - 1, next, found, wanted),
        Acceptance::Accept(status) => {
            ends(
                machine,
                fuel - 1,
                next,
                found_at_end(found, status, name),
                wanted,
            )
        }
        Acceptance::Conditional(_, status) => {
            if found.named == 0 {
                ends(machine, fuel - 1, next, found, wanted)
            } else {
                found.named == wanted.place && status == wanted.status
            }
        }
    }
}

// The number of what is owed after a symbol.
fn read_number(certificate: &Certificate<'_>, number: u8, glues: bool, symbol: u8) -> u8
    ensures { (rules : RowRules) (n : ℕ) → symbol < suc n → result ≡ read_at (tables_of rules n certificate.now) number glues symbol }
{
    if number < VERDICTS {
        return number;
    }
    let index = (number - VERDICTS) as usize;
    if index >= certificate.dues.len() {
        return 0;
    }
    read_pair(certificate.dues[index].reads, glues, symbol)
}

// The number at a symbol, where a mark isn't glued or where it is.
fn read_pair(reads: &[(u8, u8)], glues: bool, symbol: u8) -> u8
    ensures { result ≡ (if glues then (get (0, 0) reads.now symbol).1 else (get (0, 0) reads.now symbol).0) }
{
    if symbol as usize >= reads.len() {
        return 0;
    }
    let pair = reads[symbol as usize];
    if glues { pair.1 } else { pair.0 }
}

// A place at the end: that after the last symbol is the end.
fn end_place(older: u8, place: u8) -> u8
    ensures { result ≡ place_at_end older place }
{
    if place == 2 {
        4
    } else if place == 3 {
        if older == 0 { 1 } else { 3 }
    } else {
        place
    }
}

// Whether the end is read rightly, where this is owed then to the boundary where the scan began and to the older place.
fn ends_well(scans: &Scans<'_>, at_end: u8, state: State, c: Configuration, owed: Owed) -> bool
    requires state { state < length (machine_of scans.now.machine).states }
    requires symbol { 0 < symbol_count (machine_of scans.now.machine) }
    ensures { (rules : RowRules) (n : ℕ) (t : Tables) (relation : List (List Configuration)) → rules.at_end ≡ at_end → IsTrue result
        → ends_rightly rules t (plan_of (machine_of scans.now.machine) n) relation state c owed.doubt owed.older ≡ true }
{
    if owed.doubt == 0 {
        return true;
    }
    if owed.older >= VERDICTS {
        return false;
    }
    let found = Found {
        last: end_place(owed.older, c.last),
        status: c.status,
        named: end_place(owed.older, c.named),
    };
    ends(
        scans.machine,
        2,
        state,
        found,
        wanted_at_end(owed.older, at_end),
    )
}

// The place that a scan has to pick at the end: the older one, if that is a boundary, or else the end.
fn wanted_at_end(older: u8, at_end: u8) -> Wanted
    ensures { result ≡ record { place = if older == 0 then 4 else 3; status = if older == 0 then at_end else older - 1 } }
{
    if older == 0 {
        Wanted {
            place: 4,
            status: at_end,
        }
    } else {
        Wanted {
            place: 3,
            status: older - 1,
        }
    }
}

// Whether a mark is glued after what stands before the place after the last symbol.
fn glues(certificate: &Certificate<'_>, c: Configuration) -> bool
    ensures { (rules : RowRules) (n : ℕ) → result ≡ glues_at (tables_of rules n certificate.now) c }
{
    if c.before as usize >= certificate.befores.len() {
        return false;
    }
    certificate.befores[c.before as usize].glues
}

// The number of what is owed to the place after the last symbol, where it may be a boundary.
fn newest(certificate: &Certificate<'_>, c: Configuration) -> u8
    ensures { (rules : RowRules) (n : ℕ) → result ≡ newest_at (tables_of rules n certificate.now) c }
{
    if c.newest {
        owes(certificate.befores, c.before)
    } else {
        0
    }
}

// The number of what stands before the place after the symbol j + 1.
fn move_at(certificate: &Certificate<'_>, c: Configuration, j: u8) -> u16
    ensures { (rules : RowRules) (n : ℕ) → result ≡ get 0 (get [] (tables_of rules n certificate.now).moves c.before) j }
{
    if c.before as usize >= certificate.befores.len() {
        return 0;
    }
    move_of(certificate.befores[c.before as usize].moves, j)
}

// The number at a symbol.
fn move_of(moves: &[u16], j: u8) -> u16
    ensures { result ≡ get 0 moves.now j }
{
    if j as usize >= moves.len() {
        return 0;
    }
    moves[j as usize]
}

// The numbers of what is owed after a symbol.
fn owed_after(certificate: &Certificate<'_>, c: Configuration, glues: bool, symbol: u8) -> Owed
    ensures { (rules : RowRules) (n : ℕ) → symbol < suc n → let t = tables_of rules n certificate.now in
        result ≡ record { doubt = read_at t c.doubt glues symbol; older = read_at t c.older glues symbol; newest = read_at t (newest_at t c) glues symbol } }
{
    Owed {
        doubt: read_number(certificate, c.doubt, glues, symbol),
        older: read_number(certificate, c.older, glues, symbol),
        newest: read_number(certificate, newest(certificate, c), glues, symbol),
    }
}

// Whether a configuration of a state is right at the symbol j + 1.
fn goes_right(scans: &Scans<'_>, state: State, c: Configuration, j: u8) -> bool
    requires state { state < length (machine_of scans.now.machine).states }
    requires symbol { j + 1 < symbol_count (machine_of scans.now.machine) }
    requires byte { j < 255 }
    ensures { (rules : RowRules) (n : ℕ) → j < n → IsTrue result
        → goes_at rules (tables_of rules n scans.now.certificate) (plan_of (machine_of scans.now.machine) n) (relation_of scans.now.certificate) state c j ≡ true }
{
    scans.machine.facts();
    let next = scans.machine.next_state(state, j + 1);
    let owed = owed_after(&scans.certificate, c, glues(&scans.certificate, c), j + 1);
    goes_on(scans, c, move_at(&scans.certificate, c, j), next, owed)
}

// Whether a configuration of a state is right at each symbol.
fn each_goes(scans: &Scans<'_>, state: State, c: Configuration) -> bool
    requires state { state < length (machine_of scans.now.machine).states }
    requires symbol { scans.now.symbols + 1 ≡ symbol_count (machine_of scans.now.machine) }
    requires byte { scans.now.symbols < 256 }
    ensures { (rules : RowRules) → let n = scans.now.symbols in IsTrue result → (j : ℕ) → j < n
        → goes_at rules (tables_of rules n scans.now.certificate) (plan_of (machine_of scans.now.machine) n) (relation_of scans.now.certificate) state c j ≡ true }
{
    for j in 0..scans.symbols {
        if !goes_right(scans, state, c, j as u8) {
            return false;
        }
    }
    true
}

// Whether a number means something that is owed.
fn is_number(certificate: &Certificate<'_>, number: u8) -> bool
    ensures { (rules : RowRules) (n : ℕ) → IsTrue result → number < length (tables_of rules n certificate.now).reads }
{
    number < VERDICTS || ((number - VERDICTS) as usize) < certificate.dues.len()
}

// Whether a configuration of a state is right at the end; the end isn't read at the start.
fn ends_right(scans: &Scans<'_>, state: State, c: Configuration) -> bool
    requires state { state < length (machine_of scans.now.machine).states }
    requires symbol { 0 < symbol_count (machine_of scans.now.machine) }
    ensures { (rules : RowRules) (n : ℕ) → rules.at_end ≡ scans.now.at_end → IsTrue result
        → ((state == 0 && c.last == 0)
        || ends_at rules (tables_of rules n scans.now.certificate) (plan_of (machine_of scans.now.machine) n) (relation_of scans.now.certificate) state c) ≡ true }
{
    if state == 0 && c.last == 0 {
        return true;
    }
    let owed = owed_after(&scans.certificate, c, false, 0);
    ends_well(scans, scans.at_end, state, c, owed)
}

// Whether a configuration of a state is right.
fn is_right(scans: &Scans<'_>, state: State, c: Configuration) -> bool
    requires state { state < length (machine_of scans.now.machine).states }
    requires symbol { scans.now.symbols + 1 ≡ symbol_count (machine_of scans.now.machine) }
    requires byte { scans.now.symbols < 256 }
    ensures { (rules : RowRules) → let n = scans.now.symbols in rules.at_end ≡ scans.now.at_end → IsTrue result
        → ConfigurationHolds rules n (tables_of rules n scans.now.certificate) (plan_of (machine_of scans.now.machine) n) (relation_of scans.now.certificate) state c }
{
    if !has_numbers(&scans.certificate, c) || !ends_right(scans, state, c) {
        return false;
    }
    each_goes(scans, state, c)
}

// Whether what is owed, by a configuration, has numbers of the tables.
fn has_numbers(certificate: &Certificate<'_>, c: Configuration) -> bool
    ensures { (rules : RowRules) (n : ℕ) → IsTrue result → let t = tables_of rules n certificate.now in
        (c.doubt < length t.reads) × ((c.older < length t.reads) × (newest_at t c < length t.reads)) }
{
    if !is_number(certificate, c.doubt) || !is_number(certificate, c.older) {
        return false;
    }
    is_newest_number(certificate, c)
}

// Whether the number of what is owed to the newest place is one of them.
fn is_newest_number(certificate: &Certificate<'_>, c: Configuration) -> bool
    ensures { (rules : RowRules) (n : ℕ) → IsTrue result → newest_at (tables_of rules n certificate.now) c < length (tables_of rules n certificate.now).reads }
{
    is_number(certificate, newest(certificate, c))
}

// Whether each configuration of a state is right.
fn group_holds(scans: &Scans<'_>, state: State, group: &[Configuration]) -> bool
    requires state { state < length (machine_of scans.now.machine).states }
    requires symbol { scans.now.symbols + 1 ≡ symbol_count (machine_of scans.now.machine) }
    requires byte { scans.now.symbols < 256 }
    ensures { (rules : RowRules) → let n = scans.now.symbols in rules.at_end ≡ scans.now.at_end → IsTrue result
        → All (ConfigurationHolds rules n (tables_of rules n scans.now.certificate) (plan_of (machine_of scans.now.machine) n) (relation_of scans.now.certificate) state) group.now }
{
    for c in group {
        if !is_right(scans, state, *c) {
            return false;
        }
    }
    true
}

// Whether the configurations of each state are right.
pub(crate) fn groups_hold(scans: &Scans<'_>) -> bool
    requires symbol { scans.now.symbols + 1 ≡ symbol_count (machine_of scans.now.machine) }
    requires byte { scans.now.symbols < 256 }
    ensures { (rules : RowRules) → let n = scans.now.symbols in rules.at_end ≡ scans.now.at_end → IsTrue result
        → (q : ℕ) → q < length scans.now.certificate.relation.now
        → All (ConfigurationHolds rules n (tables_of rules n scans.now.certificate) (plan_of (machine_of scans.now.machine) n) (relation_of scans.now.certificate) q)
        (get [] (relation_of scans.now.certificate) q) }
{
    scans.machine.facts();
    let relation = scans.certificate.relation;
    if relation.len() > scans.machine.machine().states().len() {
        return false;
    }
    for state in 0..relation.len() {
        if !group_holds(scans, state as u8, relation[state]) {
            return false;
        }
    }
    true
}

// Whether a scan may begin, by the relation, where this stands before a place to which that is owed, or there is no boundary.
pub(crate) fn may_begin(relation: &[&[Configuration]], before: u16, owes: u8) -> bool
    ensures { IsTrue result → begins_in (map (λ group. group.now) relation.now) before owes ≡ true }
{
    let start = Configuration {
        before,
        doubt: owes,
        older: 0,
        newest: false,
        last: 0,
        status: 0,
        named: 0,
    };
    owes == 0 || is_known(relation, 0, start)
}

// Whether a scan may begin wherever there may be a boundary.
pub(crate) fn each_begins(certificate: &Certificate<'_>) -> bool
    ensures { IsTrue result → (i : ℕ) → i < length certificate.now.befores.now → Begins certificate.now i }
{
    let befores = certificate.befores;
    if befores.len() > MAX_BEFORES {
        return false;
    }
    for i in 0..befores.len() {
        if !may_begin(certificate.relation, i as u16, befores[i].owes) {
            return false;
        }
    }
    true
}

// Whether what a state accepts is read as it is: there is one lookahead, 0, and a state that names it accepts.
fn fits(state: (Acceptance, Option<Lookahead>)) -> bool
    ensures { IsTrue result → stands_for state (accept_by state) ≡ true }
{
    match state {
        (Acceptance::Continue, None) => true,
        (Acceptance::Accept(_), None) => true,
        (Acceptance::Accept(_), Some(name)) => name == 0,
        (Acceptance::Conditional(lookahead, _), None) => lookahead == 0,
        _ => false,
    }
}

// Whether it is so of each state.
pub(crate) fn states_fit(states: &[(Acceptance, Option<Lookahead>)]) -> bool
    ensures { IsTrue result → All (λ state. stands_for state (accept_by state) ≡ true) states.now }
{
    states.iter().all(|state| fits(*state))
}
