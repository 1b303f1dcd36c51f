//! Boundaries that are given some at once where they can be, and else one after another.

ghost use Rattle.std.specs.Prelude.{◌≡◌, length, min, take};
ghost use Rattle.seg_text.specs.Filled.{WritesBoth, WritesPlaces, WritesSome, last_status};

use crate::reach::BoundarySource;

/// How many statuses a batch has room for where only places are asked for.
const ROOM: usize = 64;

/// What gives the boundaries of a text, some of them at once.
pub trait BatchSource: BoundarySource {
    /// Writes the places of some of the next boundaries over the first of `places` and their statuses over those of `statuses`, and
    /// returns how many. There may be none, where the next one can only be given alone. Takes no memory.
    fn batch(&mut self, places: &mut [usize], statuses: &mut [u8]) -> usize
        ensures some { WritesSome (Self.remainder self.old).left (Self.remainder self.new).left places.old places.new statuses.old statuses.new result }
        ensures status { (Self.remainder self.new).status ≡ last_status (Self.remainder self.old).status (take result (Self.remainder self.old).left) };
}

/// Writes what `BufferSource::fill` does, batch by batch.
pub fn write_places_by_batches<B: BatchSource>(source: &mut B, places: &mut [usize]) -> usize
    ensures { WritesPlaces (B.remainder source.old) (B.remainder source.new) places.old places.new result }
{
    let mut statuses = [0u8; ROOM];
    let mut done = 0;
    while done < places.len() {
        match source.next_boundary() {
            Some(place) => places[done] = place,
            None => return done,
        }
        done += 1;
        done += source.batch(&mut places[done..], &mut statuses);
    }
    done
}

/// Writes what `BufferSource::fill_both` does, batch by batch.
pub fn write_both_by_batches<B: BatchSource>(
    source: &mut B,
    places: &mut [usize],
    statuses: &mut [u8],
) -> usize
    ensures { WritesBoth (min (length places.old) (length statuses.old)) (B.remainder source.old) (B.remainder source.new)
        places.old places.new statuses.old statuses.new result }
{
    let room = places.len().min(statuses.len());
    let mut done = 0;
    while done < room {
        match source.next_boundary() {
            Some(place) => {
                places[done] = place;
                statuses[done] = source.last_status();
            }
            None => return done,
        }
        done += 1;
        done += source.batch(&mut places[done..], &mut statuses[done..]);
    }
    room
}
