//! How many boundaries are left of a text, whatever gives them.

ghost use Rattle.std.specs.Prelude.{◌≡◌, ◌≤◌, ⊤, ℕ, true, List, ◌∷◌, length, min, IfSome};
ghost use Rattle.std.specs.Iterator.{YieldsFirst, MakesProgress, item_count};
ghost use Rattle.seg_text.specs.declared.boundary.Boundary.{Boundary as AnyBoundary};
ghost use Rattle.seg_text.specs.Boundaries.{GivesNext, IsCover, Remainder, boundary, offsets_left, AreAhead};
ghost use Rattle.seg_text.specs.Filled.{WritesBoth, WritesPlaces};

use std::marker::Model;

/// How far the boundaries of a text were given.
#[derive(Clone, Copy)]
pub struct Reach {
    /// Whether one was given.
    pub started: bool,
    /// The place of the one that was given last, or where the text begins, if none was.
    pub place: usize,
    /// Where the text ends.
    pub end: usize,
}

impl Reach {
    /// Goes on to the next boundary.
    #[inline(always)]
    pub fn go_to(&mut self, place: usize)
        ensures next { (status : ℕ) (left : List AnyBoundary) → AreAhead self.old (boundary place status ∷ left) → AreAhead self.new left }
        ensures end { (self.new.started ≡ true) × (self.new.place ≡ place) × (self.new.end ≡ self.old.end) }
    {
        self.started = true;
        self.place = place;
    }

    /// How many boundaries are left at least and at most: each is a unit or more after the one before, and the last is at the
    /// text's end.
    pub fn size_hint(self) -> (usize, Option<usize>)
        ensures lower { (left : List AnyBoundary) → AreAhead self left → result.0 ≤ length left }
        ensures upper { (left : List AnyBoundary) → AreAhead self left → IfSome result.1 (λ most. length left ≤ most) }
    {
        let units = self.end.saturating_sub(self.place);
        if self.started {
            (units.min(1), Some(units))
        } else {
            (1 + units.min(1), units.checked_add(1))
        }
    }
}

/// What gives the boundaries of a text, one after another.
pub trait BoundarySource: Drop {
    /// What it has still to give.
    ghost remainder: { Self → Remainder };

    /// The next boundary. None at the end, and from then on.
    fn next_boundary(&mut self) -> Option<usize>
        ensures { GivesNext (remainder self.old) result (remainder self.new) };

    /// The status of the boundary that was given last: 0 for the first, before it and after the end.
    fn last_status(&self) -> u8
        ensures { result ≡ (remainder self.now).status };

    /// A second iterator over the boundaries that are left. Takes no memory.
    fn fork(&self) -> Self
        ensures { result ≡ self.now };
}

/// What gives the boundaries of a text many at a time, too.
pub trait BufferSource: BoundarySource {
    /// Writes the places of the next boundaries over the first of `places`, as many as there are and there is room for, and returns
    /// how many. Takes no memory.
    fn fill(&mut self, places: &mut [usize]) -> usize
        ensures { WritesPlaces (Self.remainder self.old) (Self.remainder self.new) places.old places.new result };

    /// Writes the places of the next boundaries and their statuses, as many as both buffers have room for. Takes no memory.
    fn fill_both(&mut self, places: &mut [usize], statuses: &mut [u8]) -> usize
        ensures { WritesBoth (min (length places.old) (length statuses.old)) (Self.remainder self.old) (Self.remainder self.new)
            places.old places.new statuses.old statuses.new result };
}

/// Writes what `BufferSource::fill` does, boundary by boundary.
pub fn write_places<B: BoundarySource>(source: &mut B, places: &mut [usize]) -> usize
    ensures { WritesPlaces (B.remainder source.old) (B.remainder source.new) places.old places.new result }
{
    for index in 0..places.len() {
        match source.next_boundary() {
            Some(place) => places[index] = place,
            None => return index,
        }
    }
    places.len()
}

/// Writes what `BufferSource::fill_both` does, boundary by boundary.
pub fn write_both<B: BoundarySource>(
    source: &mut B,
    places: &mut [usize],
    statuses: &mut [u8],
) -> usize
    ensures { WritesBoth (min (length places.old) (length statuses.old)) (B.remainder source.old) (B.remainder source.new)
        places.old places.new statuses.old statuses.new result }
{
    let room = places.len().min(statuses.len());
    for index in 0..room {
        match source.next_boundary() {
            Some(place) => {
                places[index] = place;
                statuses[index] = source.last_status();
            }
            None => return index,
        }
    }
    room
}

/// The boundaries of a text as an iterator over their places, which knows how many are left at least and at most.
#[derive(Drop)]
pub struct HintedBoundaries<B: BoundarySource> {
    source: B,
    // How far they were given.
    reach: Reach,
}

impl<B: BoundarySource> Model for HintedBoundaries<B> {
    ghost use Rattle.seg_text.specs.Boundaries.{Remainder, AreAhead};

    ghost Value = { Remainder };

    ghost view = { λ s. B.remainder s.source };

    ghost invariant = { λ s. AreAhead s.reach (B.remainder s.source).left };
}

impl<B: BoundarySource> HintedBoundaries<B> {
    /// All boundaries of a text that begins at one place and ends at another.
    pub fn new(source: B, place: usize, end: usize) -> Self
        requires { IsCover place end (B.remainder source).left }
        ensures { result ≡ B.remainder source }
    {
        HintedBoundaries {
            source,
            reach: Reach {
                started: false,
                place,
                end,
            },
        }
    }

    /// A second iterator over the boundaries that are left. Takes no memory.
    pub fn fork(&self) -> Self
        ensures { result ≡ self.now }
    {
        HintedBoundaries {
            source: self.source.fork(),
            reach: self.reach,
        }
    }

    /// The status of the boundary that was given last: 0 for the first, before it and after the end.
    pub fn status(&self) -> u8
        ensures { result ≡ self.now.status }
    {
        self.source.last_status()
    }
}

impl<B: BufferSource> HintedBoundaries<B> {
    /// Writes the places of the next boundaries over the first of `places`, as many as there are and there is room for, and returns
    /// how many. Takes no memory.
    pub fn fill(&mut self, places: &mut [usize]) -> usize
        ensures { WritesPlaces self.old self.new places.old places.new result }
    {
        let count = self.source.fill(places);
        if count > 0 {
            self.reach.go_to(places[count - 1]);
        }
        count
    }

    /// Writes the places of the next boundaries and their statuses, as many as both buffers have room for. Takes no memory.
    pub fn fill_both(&mut self, places: &mut [usize], statuses: &mut [u8]) -> usize
        ensures { WritesBoth (min (length places.old) (length statuses.old)) self.old self.new places.old places.new statuses.old statuses.new result }
    {
        let count = self.source.fill_both(places, statuses);
        if count > 0 {
            self.reach.go_to(places[count - 1]);
        }
        count
    }
}

impl<B: BoundarySource> Iterator for HintedBoundaries<B> {
    type Item = usize;

    ghost next_gives = { YieldsFirst offsets_left };

    ghost remaining = { item_count offsets_left };

    #[inline(always)]
    fn next(&mut self) -> Option<usize>
        ensures steps { YieldsFirst offsets_left self.old result self.new × GivesNext self.old result self.new }
        ensures goes { MakesProgress (λ _. ⊤) (item_count offsets_left) self.old result self.new }
    {
        let place = self.source.next_boundary()?;
        self.reach.go_to(place);
        Some(place)
    }

    fn size_hint(&self) -> (usize, Option<usize>) {
        self.reach.size_hint()
    }
}
