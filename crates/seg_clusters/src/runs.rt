//! Cuts of runs of code points of scripts without spaces between words.

ghost use Rattle.std.specs.Prelude.{◌≡◌};
ghost use Rattle.std.specs.Iterator.{YieldsFirst, item_count};
ghost use Rattle.seg_text.specs.Boundaries.{cut_places};
ghost use Rattle.seg_clusters.specs.Payloads.{payloads_of, piece_cuts_by, piece_left, run_cuts_by};

use crate::complex::ComplexPayloadsBorrowed;
use crate::dictionaries::DictionaryCuts;
use crate::script_iter::ScriptIterator;
use seg_data::provider::{ComplexScript, DictionaryCursor};
use seg_text::cursor::Cursor;
use std::marker::Model;

/// The cuts of a piece, as places in units.
#[derive(Drop)]
pub(crate) enum PieceIterator<'data, I: Cursor> {
    /// Its end alone, until it is given.
    End(Option<usize>),
    /// Those by the words of its script.
    Words(DictionaryCuts<'data, DictionaryCursor<'data>, I>),
}

impl<'data, I: Cursor> PieceIterator<'data, I> {
    /// The cuts of a piece of a script. It ends at this place.
    fn new(
        payloads: ComplexPayloadsBorrowed<'data>,
        script: ComplexScript,
        piece: I,
        end: usize,
    ) -> Self
        requires { end ≡ (I.text piece).end }
        ensures { piece_left result ≡ cut_places (piece_cuts_by (payloads_of payloads.entry) script) (I.text piece) }
    {
        match payloads.dictionaries.cursor(script) {
            Some(dictionary) => {
                PieceIterator::Words(DictionaryCuts::new(dictionary, payloads.clusters, piece))
            }
            None => PieceIterator::End(Some(end)),
        }
    }
}

impl<'data, I: Cursor> Iterator for PieceIterator<'data, I> {
    type Item = usize;

    ghost next_gives = { YieldsFirst piece_left };

    ghost remaining = { item_count piece_left };

    fn next(&mut self) -> Option<usize> {
        match self {
            PieceIterator::End(place) => place.take(),
            PieceIterator::Words(cuts) => cuts.next(),
        }
    }
}

/// The cuts of a run, as places in units: those of its pieces of one script, each by the words of its script, or at its end
/// where there is no dictionary.
#[derive(Drop)]
pub struct RunCuts<'data, I: Cursor> {
    payloads: ComplexPayloadsBorrowed<'data>,
    // What is left of the piece that came last.
    piece: PieceIterator<'data, I>,
    pieces: ScriptIterator<I>,
}

impl<'data, I: Cursor> Model for RunCuts<'data, I> {
    ghost use Rattle.std.specs.Prelude.{◌++◌, ℕ, List};
    ghost use Rattle.seg_text.specs.Boundaries.{cut_places};
    ghost use Rattle.seg_clusters.specs.Payloads.{payloads_of, piece_left, run_cuts_by};

    ghost Value = { List ℕ };

    ghost view = { λ s. piece_left s.piece ++ cut_places (run_cuts_by (payloads_of s.payloads)) s.pieces };
}

impl<'data, I: Cursor> RunCuts<'data, I> {
    /// The cuts of what is left of a run. Takes no memory.
    pub fn new(payloads: ComplexPayloadsBorrowed<'data>, run: I) -> Self
        ensures { result ≡ cut_places (run_cuts_by (payloads_of payloads.entry)) (I.text run) }
    {
        RunCuts {
            payloads,
            piece: PieceIterator::End(None),
            pieces: ScriptIterator::new(run),
        }
    }
}

impl<'data, I: Cursor> Iterator for RunCuts<'data, I> {
    type Item = usize;

    ghost next_gives = { YieldsFirst (λ left. left) };

    ghost remaining = { item_count (λ left. left) };

    fn next(&mut self) -> Option<usize> {
        self.payloads.facts();
        loop {
            if let Some(place) = self.piece.next() {
                return Some(place);
            }
            let (piece, script) = self.pieces.next_piece()?;
            self.piece = PieceIterator::new(self.payloads, script, piece, self.pieces.place());
        }
    }
}

impl<'data, I: Cursor> PieceIterator<'data, I> {
    /// What is left of the cuts, once more. Takes no memory.
    pub(crate) fn fork(&self) -> Self
        ensures { result ≡ self.now }
    {
        match self {
            PieceIterator::End(place) => PieceIterator::End(*place),
            PieceIterator::Words(cuts) => PieceIterator::Words(cuts.fork()),
        }
    }
}

impl<'data, I: Cursor> RunCuts<'data, I> {
    /// What is left of the cuts, once more. Takes no memory.
    pub fn fork(&self) -> Self
        ensures { result ≡ self.now }
    {
        RunCuts {
            payloads: self.payloads,
            piece: self.piece.fork(),
            pieces: self.pieces.fork(),
        }
    }
}
