//! Places of a word that values choose.

ghost use Rattle.std.specs.Prelude.{◌≡◌, ℕ, ◌+◌, ◌%◌, ◌<◌, ◌≤◌, ◌↔◌, IsTrue, length, Contains};
ghost use Rattle.std.specs.List.Sorted.{IsStrictlyIncreasing};
ghost use Rattle.seg_hyphens.specs.Liang.{characters, is_first};
ghost use Rattle.seg_hyphens.specs.Values.{IsChosen};

/// How many characters of a word stand at least before and behind a point.
#[derive(Clone, Copy, Debug)]
pub struct Minima {
    pub left: usize,
    pub right: usize,
}

impl Minima {
    // Whether there is a point where so many characters stand before and behind.
    fn allow(self, value: usize, before: usize, behind: usize) -> bool
        ensures { IsTrue result ↔ ((value % 2 ≡ 1) × (self.left ≤ before) × (self.right ≤ behind)) }
    {
        value % 2 == 1 && self.left <= before && self.right <= behind
    }
}

// Whether a byte begins a character.
fn is_first(byte: u8) -> bool
    ensures { result ≡ is_first byte }
{
    byte < 0x80 || 0xC0 <= byte
}

// How many characters begin in these bytes.
fn count_characters(bytes: &[u8]) -> usize
    ensures { result ≡ characters bytes.now }
{
    bytes.iter().filter(|byte| is_first(**byte)).count()
}

/// Puts in the place of the values of a word with its edges the places that they choose, in order.
pub fn keep_places(minima: Minima, word: &[u8], values: &mut Vec<usize>)
    requires { length values.old.items ≡ length word.now + 3 }
    ensures are { (place : ℕ) → Contains values.new.items place ↔ IsChosen minima.left minima.right values.old.items word.now place }
    ensures ordered { IsStrictlyIncreasing values.new.items }
{
    let all = count_characters(word);
    let mut before = 0;
    let mut count = 0;
    'places: for place in 0..word.len() {
        let first = is_first(word[place]);
        let is_point = first && minima.allow(values[place + 1], before, all - before);
        if is_point {
            values[count] = place;
            count += 1;
        }
        if first {
            before += 1;
        }
    }
    values.truncate(count);
}
