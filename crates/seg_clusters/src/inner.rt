//! The cuts strictly inside the runs of a text, where a machine tells the runs.

ghost use Rattle.std.specs.Prelude.{◌≡◌, ◌≤◌, ℕ, [], Some, IsTrue};
ghost use Rattle.seg_text.specs.Items.{start_of};
ghost use Rattle.seg_machine.specs.Tailored.{machine_of};
ghost use Rattle.seg_clusters.specs.Spans.{cuts_left, GivesRun, GivesUpTo};
ghost use Rattle.seg_rows.specs.Underway.{IsLater};
ghost use Rattle.seg_clusters.specs.Payloads.{payloads_of};

use crate::complex::ComplexPayloadsBorrowed;
use crate::dictionaries::DictionaryCuts;
use crate::runs::PieceIterator;
use crate::spans::next_span;
use seg_data::provider::DictionaryCursor;
use seg_machine::tailored_machine::TailoredMachineBorrowed;
use seg_text::cursor::Cursor;
use std::marker::Model;

/// The cuts strictly inside the runs of a text, as places in units: runs are of one script that has words, by a machine, and
/// each is cut by these. Takes no memory.
#[derive(Drop)]
pub struct InnerCuts<'data, I: Cursor> {
    // The cut of the run that came last and wasn't given, since it may be the run's end.
    held: Option<usize>,
    // The cuts of the run after it.
    run: PieceIterator<'data, I>,
    // The text behind that run.
    rest: I,
}

impl<'data, I: Cursor> Model for InnerCuts<'data, I> {
    ghost use Rattle.std.specs.Prelude.{◌≡◌, ◌++◌, None, []};
    ghost use Rattle.std.specs.Option.{option_to_list};
    ghost use Rattle.seg_clusters.specs.Spans.{CutsLeft, but_the_last};
    ghost use Rattle.seg_clusters.specs.Payloads.{piece_left};

    ghost Value = { CutsLeft };

    ghost view = { λ s. record { run = but_the_last (option_to_list s.held ++ piece_left s.run); rest = I.text s.rest } };

    ghost invariant = { λ s. s.held ≡ None → piece_left s.run ≡ [] };
}

impl<'data, I: Cursor> InnerCuts<'data, I> {
    /// The cuts of what is left of a text. Takes no memory.
    pub fn new(text: I) -> Self
        ensures { result ≡ record { run = []; rest = I.text text } }
    {
        InnerCuts {
            held: None,
            run: PieceIterator::End(None),
            rest: text,
        }
    }

    /// Whether runs are looked for from this place on: no cut is left of a run before it.
    pub fn is_at(&self, place: usize) -> bool
        ensures { IsTrue result → (self.now.run ≡ []) × (start_of self.now.rest ≡ place) }
    {
        self.held.is_none() && self.rest.place() == place
    }
}

/// Whether a place is a limit, if there is one, or stands behind it.
fn is_behind(place: usize, last: Option<usize>) -> bool
    ensures { IsTrue result → (limit : ℕ) × (last ≡ Some limit) × (limit ≤ place) }
{
    match last {
        Some(last) => last <= place,
        None => false,
    }
}

/// The next run of a text, with the words of its script. None at the end, and where the search for it, between runs, comes to `last`. Takes no memory.
fn next_run<'data, I: Cursor>(
    machine: TailoredMachineBorrowed<'data>,
    payloads: ComplexPayloadsBorrowed<'data>,
    rest: &mut I,
    last: Option<usize>,
) -> Option<(I, DictionaryCursor<'data>)>
    ensures run { GivesRun (machine_of machine.entry) (payloads_of payloads.entry) I.text last (I.text rest.old) result (I.text rest.new) }
    ensures on { IsLater (I.text rest.old) (I.text rest.new) }
{
    payloads.facts();
    'items: loop {
        if is_behind(rest.place(), last) {
            return None;
        }
        let mut after = rest.fork();
        let Some((_, first)) = after.next_item() else {
            return None;
        };
        if let Some(words) = payloads.dictionaries.cursor(machine.script(first)) {
            let (run, _) = next_span(machine, payloads.dictionaries, rest)?;
            return Some((run, words));
        }
        *rest = after;
    }
}

impl<'data, I: Cursor> InnerCuts<'data, I> {
    /// The next cut, which may stand behind `last`. None where no cut is left, or each stands behind it: of what stands between runs nothing
    /// is read from there on. Takes no memory.
    pub fn next_up_to(
        &mut self,
        machine: TailoredMachineBorrowed<'data>,
        payloads: ComplexPayloadsBorrowed<'data>,
        last: Option<usize>,
    ) -> Option<usize>
        ensures cut { let left = cuts_left (machine_of machine.entry) (payloads_of payloads.entry) in GivesUpTo last (left self.old) result (left self.new) }
        ensures on { IsLater self.old.rest self.new.rest }
    {
        payloads.facts();
        loop {
            if let Some(place) = self.run.next() {
                let before = self.held;
                self.held = Some(place);
                return before;
            }
            self.held = None;
            let (run, words) = next_run(machine, payloads, &mut self.rest, last)?;
            self.run = PieceIterator::Words(DictionaryCuts::new(words, payloads.clusters, run));
            self.held = self.run.next();
        }
    }
}

impl<'data, I: Cursor> InnerCuts<'data, I> {
    /// What is left of the cuts, once more. Takes no memory.
    pub fn fork(&self) -> Self
        ensures { result ≡ self.now }
    {
        InnerCuts {
            held: self.held,
            run: self.run.fork(),
            rest: self.rest.fork(),
        }
    }
}
