//! Callers of the memoised engine.
ghost use Rattle.std.specs.Prelude.{◌≡◌, ◌≤◌, Some, IfOk, length};
ghost use Rattle.icu_segmenter.specs.Clusters.{cluster_rules};
ghost use Rattle.icu_segmenter.specs.Configurations.{configurations};
ghost use Rattle.icu_segmenter.specs.Machine.{Machine};
ghost use Rattle.icu_segmenter.specs.Rules.{machine_in};
ghost use Rattle.icu_segmenter.specs.Decoding.{utf8};
ghost use Rattle.callers.specs.LookUps.{AreAllLookedUp};
ghost use Rattle.callers.specs.Spaces.{spaces_machine};

use crate::data::{Failure, TRANSITIONS, runs_machine};
use icu_segmenter::GraphemeClusterSegmenterBorrowed;
use icu_segmenter::memo::MemoError;
use icu_segmenter::provider::{State, Symbol};
use icu_segmenter::rule_segmenter_v2::ReadTransitions;
use std::alloc::Global;

/// How many transitions of its machine a segmenter looks up until all clusters of a text are found: at most as many as
/// there are configurations, however hostile the text is. The errors are those of `with_memo`.
pub fn cluster_look_ups(
    alloc: Global,
    segmenter: GraphemeClusterSegmenterBorrowed<'_>,
    text: &str,
) -> Result<usize, MemoError>
    ensures { IfOk result (λ count. (m : Machine) × (machine_in (cluster_rules segmenter.entry) ≡ Some m)
        × (count ≤ configurations m (length (utf8 text.now).items))) }
{
    let mut memo = segmenter.segment_str(text).with_memo(alloc)?;
    'clusters: while memo.next().is_some() {}
    Ok(memo.lookups())
}

/// A reader of transitions that a caller keeps in a list of its own.
#[derive(Drop)]
pub struct ListedTransitions<'data> {
    /// How many states the machine has.
    pub states: usize,
    /// What states lead to, symbol by symbol.
    pub transitions: &'data [State],
    /// How many were read.
    pub count: usize,
}

impl<'data> ReadTransitions for ListedTransitions<'data> {
    ghost states = { λ r. r.states };

    ghost transitions = { λ r. r.transitions.now };

    ghost counted = { λ r. r.count };

    fn read(&mut self, state: State, symbol: Symbol) -> State {
        self.count += 1;
        self.transitions[state as usize + symbol as usize * self.states]
    }

    fn count(&self) -> usize {
        self.count
    }
}

/// How many transitions a reader of the caller's own reads until all runs of spaces and of other characters of a text are found: as
/// many as there are different configurations that their scans look up.
pub fn read_count(alloc: Global, text: &str) -> Result<usize, Failure>
    ensures { IfOk result (λ count. AreAllLookedUp spaces_machine (utf8 text.now) count) }
{
    let machine = runs_machine(alloc)?;
    let runs = GraphemeClusterSegmenterBorrowed::new_neo(&machine)?;
    let reader = ListedTransitions {
        states: 3,
        transitions: &TRANSITIONS,
        count: 0,
    };
    let mut memo = runs.segment_str(text).with_memo(alloc)?.with_reader(reader);
    'runs: while memo.next().is_some() {}
    Ok(memo.lookups())
}
