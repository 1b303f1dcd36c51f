//! The places that a scan keeps for a machine's lookaheads.
ghost use Rattle.std.specs.Prelude.{◌≡◌, ℕ, ◌<◌, Option, List, Some, None, [], ◌∷◌, length, slice_set};
ghost use Rattle.seg_machine.specs.Scan.{place_for};

use seg_machine::provider::Lookahead;

/// For each lookahead the place of the last state that named it.
pub(crate) trait KeptPlaces: Drop {
    ghost kept: { Self → List (Option ℕ) };

    /// The place for a lookahead, if one is kept.
    fn place_for(&self, lookahead: Lookahead) -> Option<usize>
        ensures { lookahead < length (kept self.now) → result ≡ place_for (kept self.now) lookahead };

    /// Keeps a place for a lookahead.
    fn keep(&mut self, lookahead: Lookahead, place: usize)
        ensures { lookahead < length (kept self.old) → kept self.new ≡ slice_set (kept self.old) lookahead (Some place) };
}

/// None, for a machine without lookaheads.
#[derive(Clone, Copy)]
pub(crate) struct NoPlaces;

impl KeptPlaces for NoPlaces {
    ghost kept = { λ _. [] };

    #[inline(always)]
    fn place_for(&self, lookahead: Lookahead) -> Option<usize> {
        None
    }

    #[inline(always)]
    fn keep(&mut self, lookahead: Lookahead, place: usize) {}
}

/// One, for a machine with one lookahead.
#[derive(Clone, Copy)]
pub(crate) struct OnePlace(pub(crate) Option<usize>);

impl KeptPlaces for OnePlace {
    ghost kept = { λ s. s.0 ∷ [] };

    #[inline(always)]
    fn place_for(&self, lookahead: Lookahead) -> Option<usize> {
        self.0
    }

    #[inline(always)]
    fn keep(&mut self, lookahead: Lookahead, place: usize) {
        self.0 = Some(place);
    }
}

/// Eight, as many as a checked machine may have.
#[derive(Clone, Copy)]
pub(crate) struct EightPlaces(pub(crate) [Option<usize>; 8]);

impl KeptPlaces for EightPlaces {
    ghost kept = { λ s. s.0 };

    fn place_for(&self, lookahead: Lookahead) -> Option<usize> {
        *self.0.get(lookahead as usize)?
    }

    fn keep(&mut self, lookahead: Lookahead, place: usize) {
        let index = lookahead as usize;
        if index < self.0.len() {
            self.0[index] = Some(place);
        }
    }
}
