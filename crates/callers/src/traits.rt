//! Traits that a caller implements: a reader of other transitions than the machine's, and a cursor over one word.
ghost use Rattle.std.specs.Prelude.{◌≡◌, IfOk};
ghost use Rattle.seg_machine.specs.Tailored.{machine_of};
ghost use Rattle.seg_memo.specs.Configurations.{reading};

use crate::data::Failure;
use crate::memo::ListedTransitions;
use icu_segmenter::GraphemeClusterSegmenterBorrowed;
use icu_segmenter::indices::{StrCharIndices, Utf8CharIndices};
use icu_segmenter::provider::{
    Acceptance, ClassTable, Lookahead, SegmenterStateMachine, State, Symbol,
};
use seg_clusters::dictionaries::DictionaryCuts;
use seg_data::words::WordCursor;
use seg_machine::tailored_machine::{TailoredMachine, TailoredMachineBorrowed};
use seg_memo::memo::MemoBreakIterator;
use std::alloc::{AllocError, Global};

type Entry = (Acceptance, Option<Lookahead>);

const GOES_ON: Entry = (Acceptance::Continue, None);

const ENDS: Entry = (Acceptance::Accept(0), None);

const A_AND_C: [(u32, u32, Symbol); 2] = [(0x61, 0x61, 1), (0x63, 0x63, 2)];

const RUNS: [Entry; 5] = [GOES_ON, ENDS, GOES_ON, ENDS, ENDS];

const MOVES: [State; 20] = [
    255, 255, 255, 255, 255, 1, 2, 2, 255, 255, 4, 3, 3, 255, 255, 4, 255, 255, 255, 255,
];

const FEWER_MOVES: [State; 20] = [
    255, 255, 255, 255, 255, 1, 2, 2, 255, 255, 4, 3, 255, 255, 255, 4, 255, 255, 255, 255,
];

// The machine whose segments are one character or some `a` and then `c`, and it without the last of its transitions.
fn with_and_without(
    alloc: Global,
) -> Result<(SegmenterStateMachine, SegmenterStateMachine), Failure>
    ensures { IfOk result (λ machines. machines.1 ≡ reading machines.0 machines.1.transitions) }
{
    let symbols = ClassTable::try_from_ranges(Vec::from_slice(alloc, &A_AND_C)?, 3)?;
    let states = Vec::from_slice(alloc, &RUNS)?;
    let moves = Vec::from_slice(alloc, &MOVES)?;
    let map = Vec::new(alloc);
    let machine = SegmenterStateMachine::try_from_parts(symbols, states, moves, 0, 5, map)?;
    let symbols = ClassTable::try_from_ranges(Vec::from_slice(alloc, &A_AND_C)?, 3)?;
    let states = Vec::from_slice(alloc, &RUNS)?;
    let moves = Vec::from_slice(alloc, &FEWER_MOVES)?;
    let map = Vec::new(alloc);
    let without = SegmenterStateMachine::try_from_parts(symbols, states, moves, 0, 5, map)?;
    Ok((machine, without))
}

/// The boundaries of a text, each with its status and how many transitions were read when it came, where a reader of the caller's own
/// gives fewer transitions than the machine has.
pub fn boundaries_by_fewer(alloc: Global, text: &[u8]) -> Result<Vec<(usize, u8, usize)>, Failure> {
    let (machine, other) = with_and_without(alloc)?;
    let machine = TailoredMachine::without_tailoring(machine);
    boundaries_by(alloc, machine.as_borrowed(), &other, text)
}

// The boundaries of a text, where the machine is read with the transitions of another.
fn boundaries_by(
    alloc: Global,
    machine: TailoredMachineBorrowed<'_>,
    other: &SegmenterStateMachine,
    text: &[u8],
) -> Result<Vec<(usize, u8, usize)>, Failure>
    requires { other.now ≡ reading (machine_of machine) other.now.transitions }
{
    TailoredMachineBorrowed::without_tailoring(other).facts();
    let memo = MemoBreakIterator::try_new(alloc, machine, Utf8CharIndices::new(text))?;
    let reader = ListedTransitions {
        states: other.states().len(),
        transitions: other.transitions(),
        count: 0,
    };
    let mut memo = memo.with_reader(reader);
    let mut found = Vec::new(alloc);
    for _turn in 0..u64::MAX {
        let Some(place) = memo.next() else {
            break;
        };
        let boundary = (place, memo.status(), memo.lookups());
        found.push(boundary).map_err(AllocError::from)?;
    }
    Ok(found)
}

/// A cursor over one word.
#[derive(Drop)]
struct OneWord<'w> {
    rest: &'w [u32],
    is_lost: bool,
}

impl<'w> WordCursor for OneWord<'w> {
    ghost use Rattle.std.specs.Prelude.{if◌then◌else◌, [], ◌∷◌};

    ghost tails = { λ s. if s.is_lost then [] else s.rest.now ∷ [] };

    fn fork(&self) -> Self {
        OneWord {
            rest: self.rest,
            is_lost: self.is_lost,
        }
    }

    fn step(&mut self, code_point: u32) {
        match self.rest {
            [first, rest @ ..] if *first == code_point => self.rest = rest,
            _ => self.is_lost = true,
        }
    }

    fn is_word(&self) -> bool {
        !self.is_lost && self.rest.is_empty()
    }

    fn goes_on(&self) -> bool {
        !self.is_lost && !self.rest.is_empty()
    }
}

/// Where a text is cut by one word of the caller's own, in bytes: no word ends within a cluster. Fails only when out of memory.
pub fn cuts_by_word(
    alloc: Global,
    clusters: GraphemeClusterSegmenterBorrowed<'_>,
    word: &[u32],
    text: &str,
) -> Result<Vec<usize>, AllocError> {
    let word = OneWord {
        rest: word,
        is_lost: false,
    };
    DictionaryCuts::new(word, clusters, StrCharIndices::new(text)).collect(alloc)
}
