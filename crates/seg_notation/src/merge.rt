//! Two sets of code points read side by side, from change to change. For `CodePoints`.
ghost use Rattle.std.specs.Prelude.{◌≡◌, ◌⊎◌, [], ◌∷◌, not, IfSome, IsNone};
ghost use Rattle.seg_notation.specs.Sets.{Takes, join_of, one_leads};

/// How two sets make a third.
#[derive(Clone, Copy, PartialEq)]
pub(crate) enum Join {
    /// What is in either.
    Either,
    /// What is in both.
    Both,
    /// What is in the first alone.
    First,
}

/// The changes of two sets from some code point on, and whether what lies before it is in each.
#[derive(Clone, Copy)]
pub(crate) struct Merge<'a> {
    pub(crate) one: &'a [u32],
    pub(crate) other: &'a [u32],
    pub(crate) in_one: bool,
    pub(crate) in_other: bool,
}

impl<'a> Merge<'a> {
    /// Whether what lies before is in the set that both make.
    pub(crate) fn is_in(&self, join: Join) -> bool
        ensures { result ≡ join_of join self.now.in_one self.now.in_other }
    {
        match join {
            Join::Either => self.in_one || self.in_other,
            Join::Both => self.in_one && self.in_other,
            Join::First => self.in_one && !self.in_other,
        }
    }

    /// Goes on to the next change of either. Returns where it is.
    pub(crate) fn next(&mut self) -> Option<u32>
        ensures some { let was = self.old in let is = self.new in IfSome result (λ change.
            Takes change was.one.now was.other.now is.one.now is.other.now was.in_one was.in_other is.in_one is.in_other
            ⊎ Takes change was.other.now was.one.now is.other.now is.one.now was.in_other was.in_one is.in_other is.in_one) }
        ensures none { IsNone result → (self.old.one.now ≡ []) × (self.old.other.now ≡ []) }
    {
        if self.is_one_first() {
            self.next_of_one()
        } else {
            self.next_of_other()
        }
    }

    // Whether the first changes no later than the other.
    fn is_one_first(&self) -> bool
        ensures { result ≡ one_leads self.now.one.now self.now.other.now }
    {
        match (self.one.split_first(), self.other.split_first()) {
            (Some((one, _)), Some((other, _))) => *one <= *other,
            (None, Some(_)) => false,
            _ => true,
        }
    }

    // Goes on to the next change of the first.
    fn next_of_one(&mut self) -> Option<u32>
        ensures some { let was = self.old in let is = self.new in IfSome result (λ change. (was.one.now ≡ change ∷ is.one.now)
            × (is.other.now ≡ was.other.now) × (is.in_one ≡ not was.in_one) × (is.in_other ≡ was.in_other)) }
        ensures none { IsNone result → self.old.one.now ≡ [] }
    {
        let (change, rest) = self.one.split_first()?;
        self.one = rest;
        self.in_one = !self.in_one;
        Some(*change)
    }

    // Goes on to the next change of the other.
    fn next_of_other(&mut self) -> Option<u32>
        ensures some { let was = self.old in let is = self.new in IfSome result (λ change. (was.other.now ≡ change ∷ is.other.now)
            × (is.one.now ≡ was.one.now) × (is.in_other ≡ not was.in_other) × (is.in_one ≡ was.in_one)) }
        ensures none { IsNone result → self.old.other.now ≡ [] }
    {
        let (change, rest) = self.other.split_first()?;
        self.other = rest;
        self.in_other = !self.in_other;
        Some(*change)
    }
}
