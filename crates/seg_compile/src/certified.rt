//! A machine with the certificate by which it passes the check.
ghost use Rattle.std.specs.Prelude.{◌≡◌, IfOk, IsTrue};
ghost use Rattle.seg_rules.specs.Given.{rules_of};
ghost use Rattle.seg_rules.specs.Passed.{FindsPlaces};

use crate::fault::Fault;
use crate::given::Given;
use crate::relation::Truth;
use crate::tables::Tables;
use seg_machine::provider::SegmenterStateMachine;
use seg_machine::tailored_machine::TailoredMachineBorrowed;
use seg_rules::certificate::{Before, Certificate, Configuration, Due, Entry};
use seg_rules::check::check;
use std::alloc::{AllocError, Global};

/// A machine, and the certificate by which `check` of seg_rules tells that it finds the places of rules.
#[derive(Drop)]
pub struct Certified {
    machine: SegmenterStateMachine,
    tables: Tables,
    // How many rows stand above that of marks.
    above: usize,
    entries: Vec<Entry>,
    configurations: Vec<Configuration>,
    // Of each state, where its configurations end.
    ends: Vec<usize>,
}

impl Certified {
    /// A machine with the tables of the rules and all that may be true within its scans, in order.
    pub(crate) fn new(
        given: Given<'_>,
        machine: SegmenterStateMachine,
        tables: Tables,
        truths: &[Truth],
    ) -> Result<Certified, Fault>
        ensures { IfOk result (λ made. made.machine ≡ machine) }
    {
        let entries = tables.dues.entries(given)?;
        let configurations = truths.iter().map(|truth| truth.is).collect(given.alloc)?;
        let ends = ends_of(given.alloc, machine.states().len(), truths)?;
        Ok(Certified {
            machine,
            tables,
            above: given.rules.above.len(),
            entries,
            configurations,
            ends,
        })
    }

    /// Whether the machine passes the check.
    pub(crate) fn passes(&self, given: Given<'_>) -> Result<bool, Fault>
        ensures { IfOk result (λ passes. IsTrue passes → FindsPlaces (rules_of given.entry.rules.now) self.now.machine) }
    {
        let befores = self.befores(given.alloc)?;
        let dues = self.dues(given.alloc)?;
        let relation = self.relation(given.alloc)?;
        let certificate = Certificate {
            befores: befores.as_slice(),
            dues: dues.as_slice(),
            relation: relation.as_slice(),
        };
        let machine = TailoredMachineBorrowed::without_tailoring(&self.machine);
        Ok(check(given.rules, machine, &certificate))
    }

    /// The machine.
    pub fn machine(&self) -> &SegmenterStateMachine
        ensures { result.now ≡ self.now.machine }
    {
        &self.machine
    }

    /// The machine without the certificate.
    pub fn into_machine(self) -> SegmenterStateMachine
        ensures { result ≡ self.machine }
    {
        self.machine
    }

    /// What may stand before places.
    pub fn befores(&self, alloc: Global) -> Result<Vec<Before<'_>>, AllocError> {
        let mut befores = Vec::new(alloc);
        for before in 0..u16::MAX {
            if usize::from(before) >= self.tables.befores.len() {
                break;
            }
            let lives = self.tables.befores.records.get(before);
            befores.push(Before {
                above: lives.get(..self.above).unwrap_or(&[]),
                below: lives
                    .get(self.above..lives.len().saturating_sub(1))
                    .unwrap_or(&[]),
                glues: self.tables.befores.glues(before),
                moves: self.tables.befores.moves(before),
                owes: self.tables.owes(before),
            })?;
        }
        Ok(befores)
    }

    /// What may be owed to places, from number 3 on.
    pub fn dues(&self, alloc: Global) -> Result<Vec<Due<'_>>, AllocError> {
        let mut dues = Vec::new(alloc);
        for (index, part) in self.tables.dues.parts.iter().enumerate() {
            dues.push(Due {
                entries: self.entries.get(part.from..part.to).unwrap_or(&[]),
                otherwise: part.otherwise,
                reads: self.tables.dues.reads(index),
            })?;
        }
        Ok(dues)
    }

    /// Of each state of the machine, what may be true there, in order.
    pub fn relation(&self, alloc: Global) -> Result<Vec<&[Configuration]>, AllocError> {
        let mut relation = Vec::new(alloc);
        let mut from = 0_usize;
        for to in self.ends.as_slice() {
            relation.push(self.configurations.get(from..*to).unwrap_or(&[]))?;
            from = *to;
        }
        Ok(relation)
    }
}

// Of each state, where that ends which may be true there, of all that may be true, in order.
fn ends_of(alloc: Global, states: usize, truths: &[Truth]) -> Result<Vec<usize>, AllocError> {
    let mut ends = Vec::new(alloc);
    let mut end = 0_usize;
    for state in 0..states {
        let rest = truths.get(end..).unwrap_or(&[]);
        let count = rest
            .iter()
            .take_while(|truth| usize::from(truth.state) == state)
            .count();
        end = end.saturating_add(count);
        ends.push(end)?;
    }
    Ok(ends)
}
