//! What comes after an element of a text: a boundary, none, or a run of complex elements.

ghost use Rattle.std.specs.Prelude.{◌≡◌, ◌<◌, ℕ, List, ◌∷◌, drop};
ghost use Rattle.seg_pairs.specs.PairTable.{PairTable};
ghost use Rattle.seg_pairs.specs.Elements.{classes_of};
ghost use Rattle.seg_pairs.specs.Verdict.{Lands, LandsOrWalks, EndsIn, IsStepBelow, IsOutcomeBelow, verdict, named_verdict, complex_verdict, chain, IsForward};

use crate::elements::{Element, Elements};
use crate::provider::{BreakState, RuleBreakData};
use crate::walk::{Stop, walk};

/// What a verdict on an element leads to.
#[derive(Clone, Copy)]
pub enum Step<D: Copy> {
    /// A boundary before this element, with this class.
    Break(Element<D>, u8),
    /// A boundary at the end of the text, with this class.
    End(u8),
    /// No boundary before this element, of which the next verdict is asked.
    Go(Element<D>),
    /// A run of complex elements begins with the element in question. This is its second.
    Run(Element<D>),
    /// A walk decides: the element in question and this one, its second, name this state.
    Walk(Element<D>, u8),
}

/// What the verdicts from an element on lead to.
#[derive(Clone, Copy)]
pub enum Outcome<D: Copy> {
    /// A boundary, with this class, before this element or at the end of the text.
    Break(u8, Option<Element<D>>),
    /// A run of complex elements that begins with these two.
    Run(Element<D>, Element<D>),
}

/// What comes after an element, by some rules.
pub trait Verdicts {
    ghost use Rattle.seg_pairs.specs.declared.elements.Element.{Element};
    ghost use Rattle.seg_pairs.specs.Verdict.{Verdict};

    /// What elements have besides their class and their place.
    type Detail: Copy;

    /// The verdict on the first of these elements.
    ghost verdict: { Self → List (Element Self.Detail) → Verdict };

    /// The verdict on the first of these elements where a walk decides, from the state that it and
    /// the second name.
    ghost walk_verdict: { Self → ℕ → Element Self.Detail → List (Element Self.Detail) → Verdict };

    /// The pair table whose classes the elements have.
    ghost table: { Self → PairTable };

    /// What the verdict on `left` leads to, or the walk that decides it. `rest` has the elements
    /// after `left`, and then those after the one that the step has read.
    fn step<E: Elements<Detail = Self::Detail>>(
        &self,
        left: Element<Self::Detail>,
        rest: &mut E,
    ) -> Step<Self::Detail>
        requires left { left.class < (table self.now).property_count }
        requires table { E.table rest.old ≡ table self.now }
        ensures lands { LandsOrWalks (λ state. walk_verdict self.now state left (left ∷ E.left rest.old)) (verdict self.now (left ∷ E.left rest.old)) (left ∷ E.left rest.old) result (E.left rest.new) }
        ensures class { IsStepBelow (table self.now).property_count result }
        ensures end { E.end rest.new ≡ E.end rest.old }
        ensures table { E.table rest.new ≡ E.table rest.old };

    /// What the walk leads to that decides the verdict on `left`, which `right` follows. `rest` has the
    /// elements after `right`, and then those after the one that the step has read.
    fn walk_step<E: Elements<Detail = Self::Detail>>(
        &self,
        state: u8,
        left: Element<Self::Detail>,
        right: Element<Self::Detail>,
        rest: &mut E,
    ) -> Step<Self::Detail>
        requires state { state < (table self.now).property_count }
        requires right { right.class < (table self.now).property_count }
        requires table { E.table rest.old ≡ table self.now }
        ensures lands { Lands (walk_verdict self.now state left (left ∷ right ∷ E.left rest.old)) (left ∷ right ∷ E.left rest.old) result (E.left rest.new) }
        ensures class { IsStepBelow (table self.now).property_count result }
        ensures end { E.end rest.new ≡ E.end rest.old }
        ensures table { E.table rest.new ≡ E.table rest.old };

    /// Law: a verdict takes some of the elements that there are.
    fn facts(&self)
        ensures { IsForward (verdict self.now) };
}

/// The rules of a pair table alone. No run begins by them.
#[derive(Clone, Copy)]
pub struct TableVerdicts<'data> {
    /// The table.
    pub table: &'data RuleBreakData,
}

impl<'data> Verdicts for TableVerdicts<'data> {
    type Detail = ();

    ghost verdict = { λ s elements. verdict s.table.now (classes_of elements) };

    ghost walk_verdict = { λ s state left elements. named_verdict s.table.now state left.class (classes_of elements) };

    ghost table = { λ s. s.table.now };

    #[inline(always)]
    fn step<E: Elements<Detail = ()>>(&self, left: Element<()>, rest: &mut E) -> Step<()>
        requires left { left.class < self.now.table.now.property_count }
        requires table { E.table rest.old ≡ self.now.table.now }
        ensures lands { LandsOrWalks (λ state. named_verdict self.now.table.now state left.class (classes_of (left ∷ E.left rest.old))) (verdict self.now.table.now (classes_of (left ∷ E.left rest.old))) (left ∷ E.left rest.old) result (E.left rest.new) }
        ensures class { IsStepBelow self.now.table.now.property_count result }
        ensures end { E.end rest.new ≡ E.end rest.old }
        ensures table { E.table rest.new ≡ E.table rest.old }
    {
        match rest.next_element() {
            Some(right) => pair_step(self.table, left, right),
            None => Step::End(left.class),
        }
    }

    #[inline(always)]
    fn walk_step<E: Elements<Detail = ()>>(
        &self,
        state: u8,
        left: Element<()>,
        right: Element<()>,
        rest: &mut E,
    ) -> Step<()>
        requires state { state < self.now.table.now.property_count }
        requires right { right.class < self.now.table.now.property_count }
        requires table { E.table rest.old ≡ self.now.table.now }
        ensures lands { Lands (named_verdict self.now.table.now state left.class (classes_of (left ∷ right ∷ E.left rest.old))) (left ∷ right ∷ E.left rest.old) result (E.left rest.new) }
        ensures class { IsStepBelow self.now.table.now.property_count result }
        ensures end { E.end rest.new ≡ E.end rest.old }
        ensures table { E.table rest.new ≡ E.table rest.old }
    {
        walk_to(self.table, state, left, right, rest)
    }

    fn facts(&self) {}
}

/// The rules of a pair table where elements may be complex: a boundary stands before a complex one
/// after another, and two begin a run.
#[derive(Clone, Copy)]
pub struct ComplexVerdicts<'data> {
    /// The table.
    pub table: &'data RuleBreakData,
}

impl<'data> Verdicts for ComplexVerdicts<'data> {
    type Detail = ();

    ghost verdict = { λ s elements. complex_verdict s.table.now (classes_of elements) };

    ghost walk_verdict = { λ s state left elements. named_verdict s.table.now state left.class (classes_of elements) };

    ghost table = { λ s. s.table.now };

    #[inline(always)]
    fn step<E: Elements<Detail = ()>>(&self, left: Element<()>, rest: &mut E) -> Step<()>
        requires left { left.class < self.now.table.now.property_count }
        requires table { E.table rest.old ≡ self.now.table.now }
        ensures lands { LandsOrWalks (λ state. named_verdict self.now.table.now state left.class (classes_of (left ∷ E.left rest.old))) (complex_verdict self.now.table.now (classes_of (left ∷ E.left rest.old))) (left ∷ E.left rest.old) result (E.left rest.new) }
        ensures class { IsStepBelow self.now.table.now.property_count result }
        ensures end { E.end rest.new ≡ E.end rest.old }
        ensures table { E.table rest.new ≡ E.table rest.old }
    {
        let complex = self.table.complex_property();
        let Some(right) = rest.next_element() else {
            return Step::End(left.class);
        };
        if right.class != complex {
            return pair_step(self.table, left, right);
        }
        if left.class != complex {
            return Step::Break(right, left.class);
        }
        Step::Run(right)
    }

    #[inline(always)]
    fn walk_step<E: Elements<Detail = ()>>(
        &self,
        state: u8,
        left: Element<()>,
        right: Element<()>,
        rest: &mut E,
    ) -> Step<()>
        requires state { state < self.now.table.now.property_count }
        requires right { right.class < self.now.table.now.property_count }
        requires table { E.table rest.old ≡ self.now.table.now }
        ensures lands { Lands (named_verdict self.now.table.now state left.class (classes_of (left ∷ right ∷ E.left rest.old))) (left ∷ right ∷ E.left rest.old) result (E.left rest.new) }
        ensures class { IsStepBelow self.now.table.now.property_count result }
        ensures end { E.end rest.new ≡ E.end rest.old }
        ensures table { E.table rest.new ≡ E.table rest.old }
    {
        walk_to(self.table, state, left, right, rest)
    }

    fn facts(&self) {}
}

/// The next boundary after `left`, or the run that begins before it: where the rules' verdicts to go
/// on lead. `rest` has the elements after `left`, and then those after the one that was read last.
#[inline(always)]
pub fn next_break<R: Verdicts, E: Elements<Detail = R::Detail>>(
    rules: &R,
    left: Element<R::Detail>,
    rest: &mut E,
) -> Outcome<R::Detail>
    requires left { left.class < (R.table rules.now).property_count }
    requires table { E.table rest.old ≡ R.table rules.now }
    ensures ends { EndsIn (chain (R.verdict rules.now) (left ∷ E.left rest.old)) (left ∷ E.left rest.old) result (E.left rest.new) }
    ensures class { IsOutcomeBelow (R.table rules.now).property_count result }
    ensures end { E.end rest.new ≡ E.end rest.old }
    ensures table { E.table rest.new ≡ E.table rest.old }
{
    rules.facts();
    let mut left = rebuilt(left);
    loop {
        match rules.step(left, rest) {
            Step::Go(next) => left = next,
            Step::Break(next, class) => return Outcome::Break(class, Some(next)),
            Step::End(class) => return Outcome::Break(class, None),
            Step::Run(second) => return Outcome::Run(left, second),
            Step::Walk(right, state) => match rules.walk_step(state, left, right, rest) {
                Step::Go(next) => left = rebuilt(next),
                Step::Break(next, class) => return Outcome::Break(class, Some(rebuilt(next))),
                Step::End(class) => return Outcome::Break(class, None),
                Step::Run(other) => return Outcome::Run(left, other),
                Step::Walk(_other, _state) => unreachable!(),
            },
        }
    }
}

/// A copy of an element, field by field, so that no gap between them is carried along.
#[inline(always)]
fn rebuilt<D: Copy>(element: Element<D>) -> Element<D>
    ensures { result ≡ element }
{
    Element {
        class: element.class,
        place: element.place,
        detail: element.detail,
    }
}

/// The step of a pair table from `left`, which `right` follows.
#[inline(always)]
pub fn pair_step<D: Copy>(table: &RuleBreakData, left: Element<D>, right: Element<D>) -> Step<D>
    requires left { left.class < table.now.property_count }
    requires right { right.class < table.now.property_count }
    ensures lands { (after : List (Element D)) → LandsOrWalks (λ state. named_verdict table.now state left.class (classes_of (left ∷ right ∷ after)))
        (verdict table.now (classes_of (left ∷ right ∷ after))) (left ∷ right ∷ after) result after }
    ensures class { IsStepBelow table.now.property_count result }
{
    let entry = table.entry(left.class, right.class);
    if let BreakState::Keep = entry {
        return Step::Go(right);
    }
    match entry.named() {
        Some(state) => Step::Walk(right, state),
        None => Step::Break(right, left.class),
    }
}

/// The step that a walk leads to. It goes on a copy of `rest`, so that what the caller has can stay in registers.
#[inline(always)]
fn walk_to<E: Elements>(
    table: &RuleBreakData,
    start: u8,
    left: Element<E::Detail>,
    right: Element<E::Detail>,
    rest: &mut E,
) -> Step<E::Detail>
    requires start { start < table.now.property_count }
    requires right { right.class < table.now.property_count }
    requires table { E.table rest.old ≡ table.now }
    ensures lands { Lands (named_verdict table.now start left.class (classes_of (left ∷ right ∷ E.left rest.old))) (left ∷ right ∷ E.left rest.old) result (E.left rest.new) }
    ensures class { IsStepBelow table.now.property_count result }
    ensures end { E.end rest.new ≡ E.end rest.old }
    ensures table { E.table rest.new ≡ E.table rest.old }
{
    let (step, after) = walk_apart(table, start, left, right, rest.fork());
    rest.catch_up(after);
    step
}

/// A walk over the elements after the one that the step has read, which are some of `rest`.
#[inline(never)]
fn walk_apart<E: Elements>(
    table: &RuleBreakData,
    start: u8,
    left: Element<E::Detail>,
    right: Element<E::Detail>,
    rest: E,
) -> (Step<E::Detail>, E)
    requires start { start < table.now.property_count }
    requires right { right.class < table.now.property_count }
    requires table { E.table rest ≡ table.now }
    ensures lands { Lands (named_verdict table.now start left.class (classes_of (left ∷ right ∷ E.left rest))) (left ∷ right ∷ E.left rest) result.0 (E.left result.1) }
    ensures class { IsStepBelow table.now.property_count result.0 }
    ensures later { (k : ℕ) × (E.left result.1 ≡ drop k (E.left rest)) }
    ensures end { E.end result.1 ≡ E.end rest }
    ensures table { E.table result.1 ≡ E.table rest }
{
    let mut ahead = rest;
    let Stop {
        state,
        entry,
        before: _,
        next,
        saved_before: _,
        saved,
        saved_rest,
        saved_class,
    } = walk(table, start, left, right, &mut ahead);
    match next {
        Some(next) => match entry {
            BreakState::Keep => (Step::Go(next), ahead),
            BreakState::Break => (Step::Break(next, state), ahead),
            _ => (Step::Break(saved, saved_class), saved_rest),
        },
        None => match entry {
            BreakState::NoMatch => (Step::Break(saved, saved_class), saved_rest),
            _ => (Step::End(state), ahead),
        },
    }
}
