//! The units of texts, which segments are slices of.

ghost use Rattle.std.specs.Prelude.{◌≡◌, ℕ, ◌≤◌, ⊤, List, length};
ghost use Rattle.seg_text.specs.Decoding.{utf8};
ghost use Rattle.seg_lines.specs.Between.{between};
ghost use Rattle.seg_segments.specs.TextSegments.{IsPlace};

/// What a text stands in: a `str`, bytes, or 16-bit units.
pub trait Units: Copy {
    /// Its units, as numbers.
    ghost units: { Self → List ℕ };

    /// It may be cut at this place, if it is as long.
    ghost MayCut: { Self → ℕ → Type 0 };

    /// How many units it has.
    fn len(self) -> usize
        ensures { result ≡ length (units self) };

    /// What stands from one place up to another. O(1), takes no memory.
    fn part(self, from: usize, to: usize) -> Self
        requires order { from ≤ to }
        requires within { to ≤ length (units self) }
        requires from { MayCut self from }
        requires to { MayCut self to }
        ensures { units result ≡ between from to (units self) };
}

impl<'s> Units for &'s str {
    ghost units = { λ text. text.now };

    ghost MayCut = { λ text place. IsPlace (utf8 text.now) place };

    fn len(self) -> usize {
        self.len()
    }

    fn part(self, from: usize, to: usize) -> &'s str {
        part_of_str(self, from, to)
    }
}

// What stands from the place of one character up to that of another.
fn part_of_str<'s>(text: &'s str, from: usize, to: usize) -> &'s str
    requires order { from ≤ to }
    requires from { IsPlace (utf8 text.now) from }
    requires to { IsPlace (utf8 text.now) to }
    ensures { result.now ≡ between from to text.now }
{
    &text[from..to]
}

impl<'s> Units for &'s [u8] {
    ghost units = { λ bytes. bytes.now };

    ghost MayCut = { λ _ _. ⊤ };

    fn len(self) -> usize {
        self.len()
    }

    fn part(self, from: usize, to: usize) -> &'s [u8] {
        &self[from..to]
    }
}

impl<'s> Units for &'s [u16] {
    ghost units = { λ units. units.now };

    ghost MayCut = { λ _ _. ⊤ };

    fn len(self) -> usize {
        self.len()
    }

    fn part(self, from: usize, to: usize) -> &'s [u16] {
        &self[from..to]
    }
}
