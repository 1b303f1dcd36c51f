//! Walks through the states of a pair table.

ghost use Rattle.std.specs.Prelude.{◌≡◌, ℕ, ◌<◌, ◌||◌, ◌⊎◌, Some, None, ◌∷◌, IfSome, MatchOption, if◌then◌else◌};
ghost use Rattle.seg_pairs.specs.PairTable.{is_intermediate, named_state, entry_of};
ghost use Rattle.seg_pairs.specs.Verdict.{IsStop, class_at};
ghost use Rattle.seg_pairs.specs.Walk.{is_class};

use crate::elements::{Element, Elements};
use crate::provider::{BreakState, RuleBreakData};

/// Where a walk stops, and what it saved.
#[derive(Drop)]
pub struct Stop<E: Elements> {
    /// The state that it is in.
    pub state: u8,
    /// The entry of this state and the element, or the end of the text, before which it stops.
    pub entry: BreakState,
    /// The element before that.
    pub before: Element<E::Detail>,
    /// The element before which it stops, if it isn't the end.
    pub next: Option<Element<E::Detail>>,
    /// The element before the place that was saved.
    pub saved_before: Element<E::Detail>,
    /// The element that begins at that place.
    pub saved: Element<E::Detail>,
    /// The elements after this one.
    pub saved_rest: E,
    /// The class that was saved.
    pub saved_class: u8,
}

/// Walks on from a state that the entry of two elements names, as far as entries name states.
///
/// `rest` has the elements after `right`, and then those after the one before which the walk stops.
#[inline(never)]
pub fn walk<E: Elements>(
    table: &RuleBreakData,
    start: u8,
    left: Element<E::Detail>,
    right: Element<E::Detail>,
    rest: &mut E,
) -> Stop<E>
    requires start { start < table.now.property_count }
    requires right { right.class < table.now.property_count }
    requires table { E.table rest.old ≡ table.now }
    ensures stop { IsStop E.left table.now start (left ∷ right ∷ E.left rest.old) result (E.left rest.new) }
    ensures next { IfSome result.next (λ next. next.class < table.now.property_count) }
    ensures saved { result.saved.class < table.now.property_count }
    ensures end { E.end rest.new ≡ E.end rest.old }
    ensures table { E.table rest.new ≡ E.table rest.old }
    ensures saved_end { E.end result.saved_rest ≡ E.end rest.old }
    ensures saved_table { E.table result.saved_rest ≡ E.table rest.old }
{
    table.facts();
    let (mut state, mut before) = (start, right);
    let (mut saved_before, mut saved, mut saved_rest) = (left, right, rest.fork());
    let mut saved_class = left.class;
    loop {
        let next = rest.next_element();
        let entry = table.entry(state, class_before(table, next));
        let Some((element, to)) = going_on(next, entry) else {
            return Stop {
                state,
                entry,
                before,
                next,
                saved_before,
                saved,
                saved_rest,
                saved_class,
            };
        };
        let leaves_class = is_class(table, state);
        if saves(entry, leaves_class) {
            saved_before = before;
            saved = element;
            saved_rest = rest.fork();
        }
        saved_class = class_after(leaves_class, to, saved_class);
        before = element;
        state = to;
    }
}

/// The entry of two elements.
pub fn entry_between<D: Copy>(
    table: &RuleBreakData,
    left: Element<D>,
    right: Element<D>,
) -> BreakState
    requires left { left.class < table.now.property_count }
    requires right { right.class < table.now.property_count }
    ensures value { result ≡ entry_of table.now left.class right.class }
    ensures state { (state : ℕ) → named_state result ≡ Some state → state < table.now.property_count }
{
    table.entry(left.class, right.class)
}

/// The entry of a state and a class.
pub fn entry_after(table: &RuleBreakData, state: u8, class: u8) -> BreakState
    requires state { state < table.now.property_count }
    requires class { class < table.now.property_count }
    ensures value { result ≡ entry_of table.now state class }
    ensures state { (next : ℕ) → named_state result ≡ Some next → next < table.now.property_count }
{
    table.entry(state, class)
}

/// The entry of a state and the end of the text.
pub fn entry_at_end(table: &RuleBreakData, state: u8) -> BreakState
    requires { state < table.now.property_count }
    ensures { result ≡ entry_of table.now state table.now.eot_property }
{
    table.facts();
    table.entry(state, table.eot_property())
}

/// The entry of the start of the text and a class.
pub fn entry_at_start(table: &RuleBreakData, class: u8) -> BreakState
    requires { class < table.now.property_count }
    ensures value { result ≡ entry_of table.now table.now.sot_property class }
    ensures state { (next : ℕ) → named_state result ≡ Some next → next < table.now.property_count }
{
    table.facts();
    table.entry(table.sot_property(), class)
}

/// The state that an entry names, if it names one.
pub fn state_named(entry: BreakState) -> Option<u8>
    ensures { result ≡ named_state entry }
{
    entry.named()
}

/// The class of the next element, or that of the text's end.
fn class_before<D: Copy>(table: &RuleBreakData, next: Option<Element<D>>) -> u8
    requires { IfSome next (λ next. next.class < table.now.property_count) }
    ensures value { result ≡ class_at table.now next }
    ensures below { result < table.now.property_count }
{
    table.facts();
    match next {
        Some(element) => element.class,
        None => table.eot_property(),
    }
}

/// The next element and the state that the entry names, where there are both.
fn going_on<D: Copy>(next: Option<Element<D>>, entry: BreakState) -> Option<(Element<D>, u8)>
    ensures { MatchOption result ((next ≡ None) ⊎ (named_state entry ≡ None))
        (λ both. (next ≡ Some both.0) × (named_state entry ≡ Some both.1)) }
{
    match (next, entry.named()) {
        (Some(element), Some(to)) => Some((element, to)),
        _ => None,
    }
}

/// Whether a state is a class of code points, and no composite.
pub fn is_class(table: &RuleBreakData, state: u8) -> bool
    ensures { result ≡ is_class table.now state }
{
    state <= table.last_codepoint_property()
}

/// Whether the place before an entry that names a state is saved: before each `Intermediate`, and
/// where the walk leaves a class.
pub fn saves(entry: BreakState, leaves_class: bool) -> bool
    ensures { result ≡ (is_intermediate entry || leaves_class) }
{
    entry.is_intermediate() || leaves_class
}

/// The class that is saved once an entry names a state: this state where the walk leaves a class.
fn class_after(leaves_class: bool, next: u8, saved: u8) -> u8
    ensures { result ≡ (if leaves_class then next else saved) }
{
    if leaves_class { next } else { saved }
}
