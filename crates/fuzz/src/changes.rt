//! Certificates and machines of which one entry is changed, and what the check says of them.

use crate::certificate::{CertificateNumbers, NUMBERS};
use crate::dice::Dice;
use crate::failure::{Failure, check};
use crate::small::{Accepted, CHARACTERS, STATES, TRANSITIONS, machine};
use icu_segmenter::indices::Latin1Indices;
use icu_segmenter::provider::{Acceptance, SegmenterStateMachine, State};
use seg_machine::tailored_machine::TailoredMachineBorrowed;
use seg_rows::rule_segmenter_v2::RuleBreakIterator;
use seg_rules::certificate::{Configuration, Entry};
use std::alloc::{AllocError, Global};
use std::io::{self, Write};

// What may be changed: the lists of a certificate, and those of the machine.
const PARTS: [&str; 11] = [
    "lengths",
    "rests",
    "moves",
    "befores",
    "entries",
    "dues",
    "reads",
    "configurations",
    "groups",
    "states",
    "transitions",
];

/// Changes so many certificates and machines, and prints of how many the check says that the machine finds the places of the rules.
/// The errors are `Memory`, `Write`, and `Wrong` where such a machine has other boundaries than the one that is unchanged.
pub fn try_changes<O: Write>(
    alloc: Global,
    cases: u64,
    seed: u64,
    out: &mut O,
) -> Result<(), Failure> {
    let accepted = accepted_counts(alloc, cases, seed)?;
    Ok(print_accepted(cases, &accepted, out)?)
}

// Of how many certificates and machines the check accepts the change, part by part.
type Counts = [u64; PARTS.len()];

fn print_accepted<O: Write>(cases: u64, accepted: &Counts, out: &mut O) -> io::Result<()> {
    write!(out, "Certificates: {cases} changed; accepted")?;
    for (name, count) in PARTS.iter().zip(accepted) {
        write!(out, " {name} {count}")?;
    }
    writeln!(out)
}

fn accepted_counts(alloc: Global, cases: u64, seed: u64) -> Result<Counts, Failure> {
    let small = machine(alloc, &STATES, &TRANSITIONS)?;
    counts_by(alloc, cases, seed, &small)
}

fn counts_by(
    alloc: Global,
    cases: u64,
    seed: u64,
    small: &SegmenterStateMachine,
) -> Result<Counts, Failure> {
    check(NUMBERS.passes(small), "the certificate")?;
    let mut dice = Dice::new(seed);
    let mut accepted = [0_u64; PARTS.len()];
    for case in 0..cases {
        let part = (case % PARTS.len() as u64) as usize;
        if is_accepted(alloc, &mut dice, small, part)? {
            accepted[part] = accepted[part].saturating_add(1);
        }
    }
    Ok(accepted)
}

// Changes one entry of the part of this number, and says whether the check accepts it. It may accept only what needn't be as it is.
fn is_accepted(
    alloc: Global,
    dice: &mut Dice,
    small: &SegmenterStateMachine,
    part: usize,
) -> Result<bool, Failure> {
    let place = dice.byte();
    let is_accepted = if part < 9 {
        changed_numbers(dice, place, part).passes(small)
    } else {
        let changed = changed_machine(alloc, dice, place, part);
        accepts(alloc, dice, small, changed)?
    };
    check(
        !is_accepted || !is_asked(place, part),
        "a wrong certificate is accepted",
    )?;
    Ok(is_accepted)
}

// Whether an entry of a part has to be as it is. These haven't: how many states have configurations, of which the last has none; the
// configuration that no state has, and whether one of the last two has it, which owes nothing; what the start accepts, where no
// scan comes again, and the state to which nothing leads; to which state the end leads, where that accepts the end too; and where
// those two states lead in which no scan goes on.
fn is_asked(place: u8, part: usize) -> bool {
    match part {
        0 => place % 7 != 2,
        7 => place % 20 != 19,
        8 => place % 8 < 6,
        9 => place % 9 != 0 && place % 9 != 8,
        10 => place % 54 >= 9 && place % 9 < 7,
        _ => true,
    }
}

fn changed_machine(
    alloc: Global,
    dice: &mut Dice,
    place: u8,
    part: usize,
) -> Result<SegmenterStateMachine, Failure> {
    match part {
        9 => machine(alloc, &changed_states(dice, place), &TRANSITIONS),
        _ => machine(alloc, &STATES, &changed_transitions(dice, place)),
    }
}

// Whether the check accepts another machine, if that is one. It has to have the same boundaries then.
fn accepts(
    alloc: Global,
    dice: &mut Dice,
    small: &SegmenterStateMachine,
    made: Result<SegmenterStateMachine, Failure>,
) -> Result<bool, Failure> {
    let Ok(changed) = made else {
        return Ok(false);
    };
    if !NUMBERS.passes(&changed) {
        return Ok(false);
    }
    for _ in 0..TEXTS {
        let text = random_text(alloc, dice)?;
        check(
            has_same(small, &changed, text.as_slice()),
            "a machine with other boundaries",
        )?;
    }
    Ok(true)
}

// How many texts are tried by a machine that is accepted.
const TEXTS: u8 = 8;

fn random_text(alloc: Global, dice: &mut Dice) -> Result<Vec<u8>, AllocError> {
    let mut text = Vec::new(alloc);
    for _ in 0..dice.below(24) {
        text.push(CHARACTERS[(dice.byte() % 5) as usize])?;
    }
    Ok(text)
}

// Whether two machines find the same boundaries of a text in Latin-1, with the same statuses.
fn has_same(one: &SegmenterStateMachine, other: &SegmenterStateMachine, text: &[u8]) -> bool {
    are_same(&mut boundaries(one, text), &mut boundaries(other, text))
}

fn are_same(ones: &mut Boundaries<'_, '_>, others: &mut Boundaries<'_, '_>) -> bool {
    for _ in 0..u64::MAX {
        let place = ones.next();
        if others.next() != place || others.status() != ones.status() {
            return false;
        }
        if place.is_none() {
            break;
        }
    }
    true
}

// The boundaries of a text in Latin-1 by a machine.
type Boundaries<'data, 's> = RuleBreakIterator<'data, Latin1Indices<'s>>;

fn boundaries<'data, 's>(
    machine: &'data SegmenterStateMachine,
    text: &'s [u8],
) -> Boundaries<'data, 's> {
    let machine = TailoredMachineBorrowed::without_tailoring(machine);
    RuleBreakIterator::new(machine, Latin1Indices::new(text))
}

fn changed_states(dice: &mut Dice, place: u8) -> [Accepted; 9] {
    let mut states = STATES;
    let state = &mut states[(place % 9) as usize];
    if dice.comes(128) {
        state.0 = other_acceptance(dice, state.0);
    } else {
        state.1 = match state.1 {
            None => Some(dice.below(2)),
            Some(name) if dice.comes(128) => Some(dice.other(name)),
            Some(_) => None,
        };
    }
    states
}

fn other_acceptance(dice: &mut Dice, acceptance: Acceptance) -> Acceptance {
    match (acceptance, dice.below(3)) {
        (Acceptance::Continue, _) => Acceptance::Accept(dice.below(3)),
        (Acceptance::Accept(_), 0) => Acceptance::Continue,
        (Acceptance::Accept(status), 1) => Acceptance::Conditional(0, status),
        (Acceptance::Accept(status), _) => Acceptance::Accept(dice.other(status)),
        (Acceptance::Conditional(_, status), 0) => Acceptance::Accept(status),
        (Acceptance::Conditional(name, status), 1) => {
            Acceptance::Conditional(dice.other(name), status)
        }
        (Acceptance::Conditional(name, status), _) => {
            Acceptance::Conditional(name, dice.other(status))
        }
    }
}

fn changed_transitions(dice: &mut Dice, place: u8) -> [State; 54] {
    let mut transitions = TRANSITIONS;
    let to = &mut transitions[(place % 54) as usize];
    *to = dice.other(*to);
    transitions
}

fn changed_numbers(dice: &mut Dice, place: u8, part: usize) -> CertificateNumbers {
    let mut numbers = NUMBERS;
    match part {
        0 => change_length(dice, place, &mut numbers.lengths),
        1 => change_rests(dice, place, &mut numbers.rests),
        2 => change_moves(dice, place, &mut numbers.moves),
        3 => change_before(dice, place, &mut numbers.befores),
        4 => change_entry(dice, place, &mut numbers.entries),
        5 => change_due(dice, place, &mut numbers.dues),
        6 => change_reads(dice, place, &mut numbers.reads),
        7 => change_configuration(dice, place, &mut numbers.configurations),
        _ => change_group(dice, place, &mut numbers.groups),
    }
    numbers
}

fn change_length(dice: &mut Dice, place: u8, lengths: &mut [u8; 7]) {
    let length = &mut lengths[(place % 7) as usize];
    *length = dice.below(*length);
}

fn change_rests(dice: &mut Dice, place: u8, rests: &mut [u32; 25]) {
    rests[(place % 25) as usize] ^= 1 << (dice.byte() % 32);
}

fn change_moves(dice: &mut Dice, place: u8, moves: &mut [u16; 25]) {
    let to = &mut moves[(place % 25) as usize];
    *to = to.wrapping_add(u16::from(dice.other(0)));
}

fn change_before(dice: &mut Dice, place: u8, befores: &mut [(bool, u8); 5]) {
    let before = &mut befores[(place % 5) as usize];
    if dice.comes(96) {
        before.0 = !before.0;
    } else {
        before.1 = dice.other(before.1);
    }
}

fn change_entry(dice: &mut Dice, place: u8, entries: &mut [Entry; 7]) {
    let entry = &mut entries[(place % 7) as usize];
    *entry = match (*entry, dice.below(3)) {
        (Entry::Marks, _) => Entry::Below(dice.below(5), 1),
        (Entry::Above(row, rests), _) => Entry::Below(row, rests),
        (Entry::Below(row, rests), 0) => Entry::Above(row, rests),
        (Entry::Below(row, rests), 1) => Entry::Below(dice.other(row), rests),
        (Entry::Below(row, rests), _) => Entry::Below(row, rests ^ 1 << (dice.byte() % 32)),
    };
}

fn change_due(dice: &mut Dice, place: u8, dues: &mut [(u8, u8, u8); 4]) {
    let due = &mut dues[(place % 4) as usize];
    match dice.below(3) {
        0 => due.0 = dice.other(due.0),
        1 => due.1 = dice.other(due.1),
        _ => due.2 = dice.other(due.2),
    }
}

fn change_reads(dice: &mut Dice, place: u8, reads: &mut [(u8, u8); 24]) {
    let read = &mut reads[(place % 24) as usize];
    if dice.comes(128) {
        read.0 = dice.other(read.0);
    } else {
        read.1 = dice.other(read.1);
    }
}

fn change_configuration(dice: &mut Dice, place: u8, configurations: &mut [Configuration; 20]) {
    let c = &mut configurations[(place % 20) as usize];
    match dice.below(7) {
        0 => c.before = c.before.wrapping_add(u16::from(dice.other(0))),
        1 => c.doubt = dice.other(c.doubt),
        2 => c.older = dice.other(c.older),
        3 => c.newest = !c.newest,
        4 => c.last = dice.other(c.last),
        5 => c.status = dice.other(c.status),
        _ => c.named = dice.other(c.named),
    }
}

fn change_group(dice: &mut Dice, place: u8, groups: &mut [(u8, u8); 8]) {
    let group = &mut groups[(place % 8) as usize];
    if dice.comes(128) {
        group.0 = dice.other(group.0);
    } else {
        group.1 = dice.other(group.1);
    }
}
