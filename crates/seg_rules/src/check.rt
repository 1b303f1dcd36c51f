//! Whether a machine finds the places of rules.
ghost use Rattle.std.specs.Prelude.{◌≡◌, ◌+◌, ◌<◌, IsTrue, length};
ghost use Rattle.seg_machine.specs.Machine.{symbol_count};
ghost use Rattle.seg_machine.specs.Tailored.{machine_of};
ghost use Rattle.seg_rules.specs.Given.{rules_of};
ghost use Rattle.seg_rules.specs.Passed.{FindsPlaces, IsPassed};

use crate::certificate::Certificate;
use crate::relation::{Scans, each_begins, groups_hold, may_begin, states_fit};
use crate::rules::Rules;
use crate::tables::tables_hold;
use seg_machine::tailored_machine::TailoredMachineBorrowed;

// Symbols are bytes.
const MAX_SYMBOLS: usize = 256;

/// Whether a machine finds the places of rules, by a certificate: tables that somebody made for both. Where the answer is
/// `true`, the machine's boundaries of every list of code points are, with their statuses, the places where the rules break.
/// It takes no memory.
///
/// It knows one lookahead, 0, at most one older place that is undecided within a scan, verdicts up to 2, classes of symbols
/// below 128, patterns of up to 7 items and up to 255 rows above, and below, that of marks. Of others it answers `false`.
pub fn check(
    rules: &Rules<'_>,
    machine: TailoredMachineBorrowed<'_>,
    certificate: &Certificate<'_>,
) -> bool
    ensures { IsTrue result → FindsPlaces (rules_of rules.now) (machine_of machine.entry) }
{
    machine.facts();
    let states = machine.machine().states().len();
    let symbols = machine.machine().transitions().len() / states;
    if states < 2 || symbols == 0 || symbols > MAX_SYMBOLS {
        return false;
    }
    let scans = Scans {
        machine,
        certificate: *certificate,
        symbols: symbols - 1,
        at_end: rules.at_end,
    };
    passes(rules, &scans)
}

// Whether rules, a certificate and a machine pass each test.
fn passes(rules: &Rules<'_>, scans: &Scans<'_>) -> bool
    requires some { 1 < length (machine_of scans.now.machine).states }
    requires symbol { scans.now.symbols + 1 ≡ symbol_count (machine_of scans.now.machine) }
    requires byte { scans.now.symbols < 256 }
    requires at_end { rules.now.at_end ≡ scans.now.at_end }
    ensures { IsTrue result → IsPassed (rules_of rules.now) scans.now.symbols scans.now.certificate (machine_of scans.now.machine) }
{
    let certificate = &scans.certificate;
    if !states_fit(scans.machine.machine().states()) {
        return false;
    }
    if !tables_hold(rules, scans.symbols, certificate) {
        return false;
    }
    if !may_begin(certificate.relation, 0, 1) || !each_begins(certificate) {
        return false;
    }
    groups_hold(scans)
}
