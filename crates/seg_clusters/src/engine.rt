//! The engine of a segmenter: that of a pair table, or that of a state machine.

ghost use Rattle.std.specs.Prelude.{◌≡◌, ◌↔◌, ⊤, IsTrue, IfOk, IfErr, length, min};
ghost use Rattle.std.specs.Iterator.{YieldsFirst, MakesProgress, item_count};
ghost use Rattle.seg_text.specs.Items.{start_of};
ghost use Rattle.seg_text.specs.Filled.{WritesBoth, WritesPlaces};
ghost use Rattle.seg_text.specs.Boundaries.{GivesNext, IsCover, offsets_left};
ghost use Rattle.seg_clusters.specs.Certain.{AreCertain, IsByMachine};
ghost use Rattle.seg_clusters.specs.Rules.{HasRows, rules_of, owned_rules, ResetsAfter, boundaries_of, machine_in};
ghost use Rattle.seg_memo.specs.Memos.{IsMemoRefusal, IsNewMemo};

use crate::resets::is_reset;
use seg_machine::certain::is_certain;
use seg_machine::tailored_machine::{TailoredMachine, TailoredMachineBorrowed};
use seg_memo::memo::{MemoBreakIterator, MemoError};
use seg_memo::reader::CountedTransitions;
use seg_pairs::pair_data::{PairData, PairDataBorrowed};
use seg_pairs::rule_segmenter_v1;
use seg_rows::rule_segmenter_v2;
use seg_text::cursor::Cursor;
use seg_text::reach::{BoundarySource, write_both, write_places};
use std::alloc::{AllocError, Global};
use std::marker::Model;

/// What the boundaries of a text are found by.
pub enum OwnedEngine {
    /// A pair table, with its override.
    Classic(PairData),
    /// A state machine, with its tailoring.
    Neo(TailoredMachine),
}

// Written out, so that it is proved here and not in each function that drops one.
impl Drop for OwnedEngine {
    fn drop(self) {
        match self {
            OwnedEngine::Classic(_) => {}
            OwnedEngine::Neo(_) => {}
        }
    }
}

impl OwnedEngine {
    /// Makes the dense rows of its machine, by which many boundaries are found at a time; a pair table needs none. Fails only when out of
    /// memory: then it stays as it was.
    pub fn make_rows(&mut self, alloc: Global) -> Result<(), AllocError>
        ensures rules { owned_rules self.new ≡ owned_rules self.old }
        ensures made { IfOk result (λ _. HasRows self.new) }
        ensures kept { IfErr result (λ _. self.new ≡ self.old) }
    {
        match self {
            OwnedEngine::Classic(_) => Ok(()),
            OwnedEngine::Neo(machine) => machine.make_rows(alloc),
        }
    }

    /// This engine, borrowed.
    pub fn as_borrowed(&self) -> Engine<'_>
        ensures { rules_of result ≡ owned_rules self.now }
    {
        match self {
            OwnedEngine::Classic(pairs) => Engine::Classic(pairs.as_borrowed()),
            OwnedEngine::Neo(machine) => Engine::Neo(machine.as_borrowed()),
        }
    }
}

/// What the boundaries of a text are found by, borrowed.
#[derive(Clone, Copy)]
pub enum Engine<'data> {
    /// A pair table, with its override.
    Classic(PairDataBorrowed<'data>),
    /// A state machine, with its tailoring.
    Neo(TailoredMachineBorrowed<'data>),
}

impl<'data> Engine<'data> {
    /// The boundaries of what is left of a text. Takes no memory.
    pub fn boundaries<I: Cursor>(self, text: I) -> Boundaries<'data, I>
        ensures boundaries { result.left ≡ boundaries_of (rules_of self.entry) (I.text text) }
        ensures cover { IsCover (start_of (I.text text)) (I.text text).end result.left }
        ensures status { result.status ≡ 0 }
    {
        match self {
            Engine::Classic(pairs) => Boundaries {
                by: BoundariesBy::Classic(rule_segmenter_v1::RuleBreakIterator::new(pairs, text)),
            },
            Engine::Neo(machine) => Boundaries {
                by: BoundariesBy::Neo(rule_segmenter_v2::RuleBreakIterator::new(machine, text)),
            },
        }
    }

    /// Whether a text may be split after the code point, so that each part has the boundaries that it has alone
    /// (`laws::parts_behind_resets`): a scan of the machine that reads the code point's symbol is over there, from whatever state.
    /// By a pair table it is `false`. Takes no memory; asks the machine for at most as many steps as it has transitions.
    pub fn resets_after(self, code_point: char) -> bool
        ensures { IsTrue result ↔ ResetsAfter (rules_of self.entry) code_point }
    {
        match self {
            Engine::Classic(_) => false,
            Engine::Neo(machine) => is_reset(machine, machine.symbol(code_point as u32)),
        }
    }

    /// Whether it is a machine, of which places may be certain (`always_breaks`).
    pub fn has_certain_places(self) -> bool
        ensures { IsTrue result ↔ IsByMachine (rules_of self.entry) }
    {
        matches!(self, Engine::Neo(_))
    }

    /// Whether each text that has these three code points one after another has a boundary between the last two
    /// (`laws::engine::certain_places`), since no scan of the machine passes there. By a pair table it is `false`.
    pub fn always_breaks(self, before: u32, one: u32, other: u32) -> bool
        ensures { IsTrue result ↔ AreCertain (rules_of self.entry) before one other }
    {
        let Engine::Neo(machine) = self else {
            return false;
        };
        is_certain(
            machine,
            machine.symbol(before),
            machine.symbol(one),
            machine.symbol(other),
        )
    }

    /// The boundaries of a text, where no configuration of the machine is looked up twice. `NotNeo` by a pair table, and otherwise
    /// `TooLarge` where there are more configurations than the greatest `usize`: both without asking for memory. `Memory`
    /// where the one growth was refused.
    pub fn memoised<I: Cursor>(
        self,
        alloc: Global,
        text: I,
    ) -> Result<MemoBreakIterator<'data, I, CountedTransitions<'data>>, MemoError>
        ensures made { IfOk result (IsNewMemo (machine_in (rules_of self.entry)) (I.text text) (boundaries_of (rules_of self.entry) (I.text text))) }
        ensures rejected { IfErr result (IsMemoRefusal (machine_in (rules_of self.entry)) ⊥ (I.text text)) }
    {
        match self {
            Engine::Classic(_) => Err(MemoError::NotNeo),
            Engine::Neo(machine) => MemoBreakIterator::try_new(alloc, machine, text),
        }
    }
}

/// The boundaries of a text, as places, by either engine.
#[derive(Drop)]
pub struct Boundaries<'data, I: Cursor> {
    by: BoundariesBy<'data, I>,
}

/// Which engine gives them. The fields of both are in such an order that words of one stand over words of the other, and bytes over bytes: so
/// either stays in registers.
#[derive(Drop)]
enum BoundariesBy<'data, I: Cursor> {
    /// By a pair table.
    Classic(rule_segmenter_v1::RuleBreakIterator<'data, I>),
    /// By a state machine.
    Neo(rule_segmenter_v2::RuleBreakIterator<'data, I>),
}

impl<'data, I: Cursor> Model for Boundaries<'data, I> {
    ghost use Rattle.seg_text.specs.Boundaries.{Remainder};
    ghost use Rattle.seg_clusters.specs.Rules.{remainder_by};

    ghost Value = { Remainder };

    ghost view = { λ s. remainder_by s.by };
}

impl<'data, I: Cursor> Boundaries<'data, I> {
    /// The status of the boundary that was given last: 0 for the first, before it and after the end.
    pub fn status(&self) -> u8
        ensures { result ≡ self.now.status }
    {
        match &self.by {
            BoundariesBy::Classic(engine) => engine.rule_status(),
            BoundariesBy::Neo(engine) => engine.status(),
        }
    }

    /// What is left of the boundaries, once more. Takes no memory.
    pub fn fork(&self) -> Self
        ensures { result ≡ self.now }
    {
        match &self.by {
            BoundariesBy::Classic(engine) => Boundaries {
                by: BoundariesBy::Classic(engine.fork()),
            },
            BoundariesBy::Neo(engine) => Boundaries {
                by: BoundariesBy::Neo(engine.fork()),
            },
        }
    }
}

impl<'data, I: Cursor> BoundarySource for Boundaries<'data, I> {
    ghost remainder = { λ s. s };

    #[inline(always)]
    fn next_boundary(&mut self) -> Option<usize> {
        self.next()
    }

    fn last_status(&self) -> u8 {
        self.status()
    }

    fn fork(&self) -> Self {
        self.fork()
    }
}

impl<'data, I: Cursor> Boundaries<'data, I> {
    /// Writes the places of the next boundaries over the first of `places`, as many as there are and there is room for, and returns
    /// how many: by the rows of a machine that has them. Takes no memory.
    pub fn fill(&mut self, places: &mut [usize]) -> usize
        ensures { WritesPlaces self.old self.new places.old places.new result }
    {
        if let BoundariesBy::Neo(engine) = &mut self.by {
            if let Some(count) = engine.fill(places) {
                return count;
            }
        }
        write_places(self, places)
    }

    /// Writes the places of the next boundaries and their statuses, as many as both buffers have room for. Takes no memory.
    pub fn fill_both(&mut self, places: &mut [usize], statuses: &mut [u8]) -> usize
        ensures { WritesBoth (min (length places.old) (length statuses.old)) self.old self.new places.old places.new statuses.old statuses.new result }
    {
        if let BoundariesBy::Neo(engine) = &mut self.by {
            if let Some(count) = engine.fill_both(places, statuses) {
                return count;
            }
        }
        write_both(self, places, statuses)
    }
}

impl<'data, I: Cursor> Clone for Boundaries<'data, I> {
    ghost is_clone = { λ s r. r ≡ s };

    ghost is_infallible = { λ _. ⊤ };

    fn clone(&self) -> Result<Self, AllocError> {
        Ok(self.fork())
    }
}

impl<'data, I: Cursor> Iterator for Boundaries<'data, I> {
    type Item = usize;

    ghost next_gives = { YieldsFirst offsets_left };

    ghost remaining = { item_count offsets_left };

    #[inline(always)]
    fn next(&mut self) -> Option<usize>
        ensures steps { YieldsFirst offsets_left self.old result self.new × GivesNext self.old result self.new }
        ensures goes { MakesProgress (λ _. ⊤) (item_count offsets_left) self.old result self.new }
    {
        match &mut self.by {
            BoundariesBy::Classic(engine) => engine.next(),
            BoundariesBy::Neo(engine) => engine.next(),
        }
    }

    fn size_hint(&self) -> (usize, Option<usize>) {
        match &self.by {
            BoundariesBy::Classic(engine) => engine.size_hint(),
            BoundariesBy::Neo(engine) => engine.size_hint(),
        }
    }
}
