//! The certificate of the small machine, as numbers, each of which may be changed.
ghost use Rattle.std.specs.Prelude.{◌<◌};

use crate::small::RULES;
use icu_segmenter::provider::SegmenterStateMachine;
use seg_machine::tailored_machine::TailoredMachineBorrowed;
use seg_rules::certificate::{Before, Certificate, Configuration, Due, Entry};
use seg_rules::check::check;

/// The numbers of a certificate.
#[derive(Clone, Copy)]
pub struct CertificateNumbers {
    /// How many there are of what stands before places, of what is owed, of states, of rows above and below that of marks, of symbols,
    /// and of symbols with the end.
    pub lengths: [u8; 7],
    /// Of each that stands before places, which rests of the left patterns may come next: of one row above, and four below.
    pub rests: [u32; 25],
    /// Of each, where the symbols lead.
    pub moves: [u16; 25],
    /// Of each, whether a mark is glued to it, and what it owes.
    pub befores: [(bool, u8); 5],
    /// The entries of all that is owed.
    pub entries: [Entry; 7],
    /// Of each that is owed, from where to where its entries stand, and the verdict otherwise.
    pub dues: [(u8, u8, u8); 4],
    /// Of each, what is owed after the end and each symbol.
    pub reads: [(u8, u8); 24],
    /// The configurations of all states, and one that no state has.
    pub configurations: [Configuration; 20],
    /// Of each state, from where to where its configurations stand.
    pub groups: [(u8, u8); 8],
}

// Configurations of these numbers.
macro_rules! configurations {
    ($(($before:expr, $doubt:expr, $older:expr, $newest:expr, $last:expr, $status:expr, $named:expr),)*) => {
        [$(Configuration {
            before: $before,
            doubt: $doubt,
            older: $older,
            newest: $newest,
            last: $last,
            status: $status,
            named: $named,
        }),*]
    };
}

/// The numbers of the small machine's certificate.
pub const NUMBERS: CertificateNumbers = CertificateNumbers {
    lengths: [5, 4, 8, 1, 4, 5, 6],
    rests: [
        1, 1, 1, 11, 1, //
        1, 3, 3, 11, 1, //
        1, 1, 1, 21, 1, //
        3, 1, 1, 11, 1, //
        1, 1, 1, 11, 1,
    ],
    moves: [
        1, 0, 1, 2, 3, //
        1, 0, 1, 2, 3, //
        1, 0, 2, 4, 3, //
        1, 0, 1, 2, 3, //
        1, 0, 4, 2, 3,
    ],
    befores: [(false, 3), (true, 4), (true, 5), (false, 2), (true, 3)],
    entries: [
        Entry::Marks,
        Entry::Marks,
        Entry::Below(0, 1),
        Entry::Below(1, 1),
        Entry::Marks,
        Entry::Below(2, 1),
        Entry::Below(1, 2),
    ],
    dues: [(0, 1, 1), (1, 4, 1), (4, 6, 1), (6, 7, 1)],
    reads: [
        (1, 1),
        (1, 1),
        (1, 1),
        (1, 0),
        (1, 1),
        (1, 1), //
        (1, 1),
        (0, 0),
        (6, 6),
        (0, 0),
        (1, 1),
        (1, 1), //
        (1, 1),
        (1, 1),
        (1, 1),
        (1, 0),
        (0, 0),
        (1, 1), //
        (1, 1),
        (1, 1),
        (1, 1),
        (1, 6),
        (0, 0),
        (1, 1),
    ],
    configurations: configurations! {
        (0, 1, 0, false, 0, 0, 0),
        (0, 3, 0, false, 0, 0, 0),
        (1, 4, 0, false, 0, 0, 0),
        (2, 5, 0, false, 0, 0, 0),
        (3, 2, 0, false, 0, 0, 0),
        (4, 3, 0, false, 0, 0, 0),
        (1, 1, 0, true, 2, 0, 2),
        (1, 2, 0, true, 2, 0, 2),
        (0, 1, 0, true, 2, 0, 0),
        (0, 2, 0, true, 2, 0, 0),
        (0, 6, 0, true, 2, 0, 0),
        (2, 1, 0, true, 2, 0, 0),
        (2, 2, 0, true, 2, 0, 0),
        (3, 1, 0, true, 2, 1, 0),
        (3, 2, 0, true, 2, 1, 0),
        (0, 1, 6, true, 2, 0, 3),
        (0, 2, 6, true, 2, 0, 3),
        (4, 1, 0, true, 2, 0, 0),
        (4, 2, 0, true, 2, 0, 0),
        (0, 0, 0, false, 0, 0, 0),
    },
    groups: [
        (0, 6),
        (6, 8),
        (8, 11),
        (11, 13),
        (13, 15),
        (15, 17),
        (17, 19),
        (19, 19),
    ],
};

// What stands in a list from one place up to another, if it has both.
fn part<T>(list: &[T], from: u8, to: u8) -> &[T] {
    list.get(usize::from(from)..usize::from(to)).unwrap_or(&[])
}

impl CertificateNumbers {
    /// Whether the machine finds the places of the small rules, by the certificate of these numbers.
    pub fn passes(&self, machine: &SegmenterStateMachine) -> bool {
        let befores = [
            self.before(0),
            self.before(1),
            self.before(2),
            self.before(3),
            self.before(4),
        ];
        let dues = [self.due(0), self.due(1), self.due(2), self.due(3)];
        let relation = self
            .groups
            .map(|(from, to)| part(&self.configurations, from, to));
        let certificate = Certificate {
            befores: part(&befores, 0, self.lengths[0]),
            dues: part(&dues, 0, self.lengths[1]),
            relation: part(&relation, 0, self.lengths[2]),
        };
        let machine = TailoredMachineBorrowed::without_tailoring(machine);
        check(&RULES, machine, &certificate)
    }

    fn before(&self, number: u8) -> Before<'_>
        requires { number < 5 }
    {
        let (glues, owes) = self.befores[number as usize];
        let from = number * 5;
        let [_, _, _, above, below, moves, _] = self.lengths;
        Before {
            above: part(&self.rests, from, from + above.min(1)),
            below: part(&self.rests, from + 1, from + 1 + below.min(4)),
            glues,
            moves: part(&self.moves, from, from + moves.min(5)),
            owes,
        }
    }

    fn due(&self, number: u8) -> Due<'_>
        requires { number < 4 }
    {
        let (from, to, otherwise) = self.dues[number as usize];
        let reads = number * 6;
        Due {
            entries: part(&self.entries, from, to),
            otherwise,
            reads: part(&self.reads, reads, reads + self.lengths[6].min(6)),
        }
    }
}
