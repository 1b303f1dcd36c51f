//! Whether the tables of a certificate are those of the rules.
ghost use Rattle.std.specs.Prelude.{◌≡◌, ◌<◌, ℕ, true, false, IsTrue, IfSome, All, length, map};
ghost use Rattle.seg_rules.specs.RowRules.{DueOf, RowRules, at_start, due_after, owed};
ghost use Rattle.seg_rules.specs.Given.{before_of, due_by, entry_of, rules_of};
ghost use Rattle.seg_rules.specs.Certified.{BeforeHolds, DueHolds, MoveHolds, ReadHolds, TablesHold, before_at, due_at};

use crate::befores::{before_moves, is_start};
use crate::certificate::{Before, Certificate, Due, Entry};
use crate::dues::{Read, is_whole, owe, read_entries};
use crate::rules::Rules;

/// What is claimed to be owed.
#[derive(Clone, Copy)]
struct Claim<'a> {
    entries: &'a [Entry],
    otherwise: u8,
}

// The first numbers of what is owed are verdicts.
const VERDICTS: u8 = 3;

// Symbols are bytes, and 0 is the end.
const MAX_SYMBOLS: usize = 255;

// What a number means, if there is one.
fn claim_at<'a>(dues: &'a [Due<'a>], number: u8) -> Option<Claim<'a>>
    ensures { (rules : RowRules) → IfSome result (λ claim. DueOf (map (entry_of rules) claim.entries.now) claim.otherwise ≡ due_at rules dues.now number) }
{
    if number < VERDICTS {
        return Some(Claim {
            entries: &[],
            otherwise: number,
        });
    }
    let index = (number - VERDICTS) as usize;
    if index >= dues.len() {
        return None;
    }
    Some(Claim {
        entries: dues[index].entries,
        otherwise: dues[index].otherwise,
    })
}

// Whether this is owed to a place before which that stands.
fn is_owed(rules: &Rules<'_>, dues: &[Due<'_>], from: &Before<'_>) -> bool
    ensures { IsTrue result → owed (rules_of rules.now) (before_of (rules_of rules.now) from.now) ≡ due_at (rules_of rules.now) dues.now from.now.owes }
{
    match claim_at(dues, from.owes) {
        Some(claim) => is_whole(
            owe(rules, from, claim.entries),
            claim.entries,
            claim.otherwise,
        ),
        None => false,
    }
}

// Whether a number means what is owed after this is read.
#[tactic(auto, unfolding(crate::specs::RowRules::read))]
fn is_read(rules: &Rules<'_>, dues: &[Due<'_>], due: &Due<'_>, read: Read, number: u8) -> bool
    ensures { IsTrue result → due_after (rules_of rules.now) read.glues read.symbol (due_by (rules_of rules.now) due.now) ≡ due_at (rules_of rules.now) dues.now number }
{
    match claim_at(dues, number) {
        Some(claim) => {
            let part = read_entries(rules, due.entries, due.otherwise, read, claim.entries);
            is_whole(part, claim.entries, claim.otherwise)
        }
        None => false,
    }
}

// Whether each symbol leads from what stands before a place to what the table says.
fn moves_hold(rules: &Rules<'_>, befores: &[Before<'_>], from: &Before<'_>) -> bool
    ensures { IsTrue result → (j : ℕ) → j < length from.now.moves.now → MoveHolds (rules_of rules.now) befores.now from.now j }
{
    if from.moves.len() > MAX_SYMBOLS {
        return false;
    }
    for j in 0..from.moves.len() {
        let to = from.moves[j] as usize;
        if to >= befores.len() || !before_moves(rules, from, j as u8 + 1, &befores[to]) {
            return false;
        }
    }
    true
}

// Whether the tables say what may follow what stands before a place, and what is owed to it.
fn before_holds(
    rules: &Rules<'_>,
    symbols: usize,
    certificate: &Certificate<'_>,
    from: &Before<'_>,
) -> bool
    ensures { IsTrue result → BeforeHolds (rules_of rules.now) symbols certificate.now.befores.now certificate.now.dues.now from.now }
{
    from.moves.len() == symbols
        && moves_hold(rules, certificate.befores, from)
        && is_owed(rules, certificate.dues, from)
}

// Whether a table says what is owed after each symbol.
fn reads_hold(rules: &Rules<'_>, dues: &[Due<'_>], due: &Due<'_>) -> bool
    ensures { IsTrue result → (x : ℕ) → x < length due.now.reads.now → ReadHolds (rules_of rules.now) dues.now due.now x }
{
    if due.reads.len() > MAX_SYMBOLS + 1 {
        return false;
    }
    for x in 0..due.reads.len() {
        if !read_holds(rules, dues, due, x as u8, due.reads[x]) {
            return false;
        }
    }
    true
}

// Whether these numbers mean what is owed after a symbol, where a mark isn't glued and where it is.
fn read_holds(
    rules: &Rules<'_>,
    dues: &[Due<'_>],
    due: &Due<'_>,
    symbol: u8,
    numbers: (u8, u8),
) -> bool
    ensures { IsTrue result → (due_after (rules_of rules.now) false symbol (due_by (rules_of rules.now) due.now) ≡ due_at (rules_of rules.now) dues.now numbers.0)
        × (due_after (rules_of rules.now) true symbol (due_by (rules_of rules.now) due.now) ≡ due_at (rules_of rules.now) dues.now numbers.1) }
{
    let plain = Read {
        symbol,
        glues: false,
    };
    let glued = Read {
        symbol,
        glues: true,
    };
    is_read(rules, dues, due, plain, numbers.0) && is_read(rules, dues, due, glued, numbers.1)
}

// Whether the table says what is owed after each symbol and the end.
fn due_holds(rules: &Rules<'_>, symbols: usize, dues: &[Due<'_>], due: &Due<'_>) -> bool
    requires { symbols < 256 }
    ensures { IsTrue result → DueHolds (rules_of rules.now) symbols dues.now due.now }
{
    due.reads.len() == symbols + 1 && reads_hold(rules, dues, due)
}

// Whether the tables say so of all that may stand before a place.
fn befores_hold(rules: &Rules<'_>, symbols: usize, certificate: &Certificate<'_>) -> bool
    ensures { IsTrue result → All (BeforeHolds (rules_of rules.now) symbols certificate.now.befores.now certificate.now.dues.now) certificate.now.befores.now }
{
    certificate
        .befores
        .iter()
        .all(|from| before_holds(rules, symbols, certificate, from))
}

// Whether they say so of all that may be owed to one.
fn dues_hold(rules: &Rules<'_>, symbols: usize, dues: &[Due<'_>]) -> bool
    requires { symbols < 256 }
    ensures { IsTrue result → All (DueHolds (rules_of rules.now) symbols dues.now) dues.now }
{
    dues.iter().all(|due| due_holds(rules, symbols, dues, due))
}

// Whether something stands before the first place, and it is the first of these.
fn starts(rules: &Rules<'_>, befores: &[Before<'_>]) -> bool
    ensures { IsTrue result → (0 < length befores.now) × (at_start (rules_of rules.now) ≡ before_at (rules_of rules.now) befores.now 0) }
{
    if befores.is_empty() {
        return false;
    }
    is_start(rules, &befores[0])
}

/// Whether the tables of a certificate are those of the rules, over so many symbols beside the end.
pub(crate) fn tables_hold(rules: &Rules<'_>, symbols: usize, certificate: &Certificate<'_>) -> bool
    requires { symbols < 256 }
    ensures { IsTrue result → TablesHold (rules_of rules.now) symbols certificate.now }
{
    starts(rules, certificate.befores)
        && befores_hold(rules, symbols, certificate)
        && dues_hold(rules, symbols, certificate.dues)
}
