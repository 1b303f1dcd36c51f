//! A text of all that three symbols may be, and whether two machines find the same boundaries of it, and have code points as one.

use seg_machine::provider::{SegmenterStateMachine, Symbol};
use seg_machine::tailored_machine::TailoredMachineBorrowed;
use seg_rows::rule_segmenter_v2::RuleBreakIterator;
use seg_text::indices::StrCharIndices;
use std::alloc::{AllocError, Global};

// How many code points there are.
const CODE_POINTS: u32 = 0x11_0000;

/// A text that has each three of the symbols that characters have in a machine, one after another.
pub(crate) fn text_of(
    alloc: Global,
    machine: &SegmenterStateMachine,
) -> Result<String, AllocError> {
    let characters = characters_of(alloc, machine)?;
    let mut text = String::new(alloc);
    for first in characters.as_slice() {
        add_pairs(&mut text, *first, characters.as_slice())?;
    }
    Ok(text)
}

// A character of each symbol.
fn characters_of(alloc: Global, machine: &SegmenterStateMachine) -> Result<Vec<char>, AllocError> {
    let borrowed = TailoredMachineBorrowed::without_tailoring(machine);
    let mut characters = Vec::new(alloc);
    let mut found: Vec<Symbol> = Vec::new(alloc);
    for range in machine.symbols().ranges() {
        let symbol = borrowed.symbol(range.0);
        if let Some(character) = char::from_u32(range.0)
            && !found.contains(&symbol)
        {
            found.push(symbol)?;
            characters.push(character)?;
        }
    }
    Ok(characters)
}

// Adds each two characters after a first one.
fn add_pairs(text: &mut String, first: char, characters: &[char]) -> Result<(), AllocError> {
    for second in characters {
        add_thirds(text, first, *second, characters)?;
    }
    Ok(())
}

// Adds each character after a first and a second one.
fn add_thirds(
    text: &mut String,
    first: char,
    second: char,
    characters: &[char],
) -> Result<(), AllocError> {
    for third in characters {
        text.push(first)?;
        text.push(second)?;
        text.push(*third)?;
    }
    Ok(())
}

/// Whether code points that have one symbol in a machine have one in another.
pub(crate) fn keeps_symbols(one: &SegmenterStateMachine, other: &SegmenterStateMachine) -> bool {
    let one = TailoredMachineBorrowed::without_tailoring(one);
    let other = TailoredMachineBorrowed::without_tailoring(other);
    let mut found: [Option<Symbol>; 256] = [None; 256];
    for code_point in 0..CODE_POINTS {
        let symbol = other.symbol(code_point);
        match found.get_mut(usize::from(one.symbol(code_point))) {
            Some(Some(known)) if *known != symbol => return false,
            Some(known) => *known = Some(symbol),
            None => return false,
        }
    }
    true
}

/// Whether two machines find the same boundaries of a text, with the same statuses.
pub(crate) fn have_same(
    one: &SegmenterStateMachine,
    other: &SegmenterStateMachine,
    text: &str,
) -> bool {
    are_same(&mut boundaries(one, text), &mut boundaries(other, text))
}

fn are_same(ones: &mut Boundaries<'_, '_>, others: &mut Boundaries<'_, '_>) -> bool {
    for _ in 0..u64::MAX {
        let place = ones.next();
        if others.next() != place || others.status() != ones.status() {
            return false;
        }
        if place.is_none() {
            break;
        }
    }
    true
}

/// The boundaries of a text by a machine.
pub(crate) type Boundaries<'data, 's> = RuleBreakIterator<'data, StrCharIndices<'s>>;

/// The boundaries of a text by a machine.
pub(crate) fn boundaries<'data, 's>(
    machine: &'data SegmenterStateMachine,
    text: &'s str,
) -> Boundaries<'data, 's> {
    let machine = TailoredMachineBorrowed::without_tailoring(machine);
    RuleBreakIterator::new(machine, StrCharIndices::new(text))
}
