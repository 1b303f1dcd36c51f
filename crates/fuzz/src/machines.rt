//! Random machines, tailorings and dictionaries.

use crate::dice::Dice;
use crate::failure::{Failure, both};
use crate::samples::random_text;
use crate::tables::Classes;
use icu_segmenter::provider::{
    Acceptance, ComplexScript, Dictionaries, DictionaryBreakData, LineTailorings, Lookahead,
    SegmenterStateMachine, SegmenterStateMachineOverride, State, Symbol,
};
use std::alloc::{AllocError, Global};

/// A machine, mostly of few states, whose states mostly accept. The errors are those of its parts, and out of memory.
pub fn machine(alloc: Global, dice: &mut Dice) -> Result<SegmenterStateMachine, Failure> {
    let count = if dice.comes(1) {
        dice.byte()
    } else {
        dice.below(6).saturating_add(2)
    };
    let symbol_count = dice.below(4).saturating_add(2);
    let most = if dice.comes(4) { 10 } else { 3 };
    let lookaheads = dice.below(most);
    let pseudo = dice.below(4);
    let classes = Classes {
        lowest: 1,
        low: symbol_count,
        high: symbol_count.saturating_add(pseudo),
    };
    let symbols = classes.table(alloc, dice)?;
    let states = states(alloc, dice, count, lookaheads);
    let steps = both(states, transitions(alloc, dice, count, symbol_count));
    let parts = both(steps, map(alloc, dice, pseudo, symbol_count));
    let ((states, transitions), map) = parts?;
    let lookaheads = usize::from(lookaheads);
    Ok(SegmenterStateMachine::try_from_parts(
        symbols,
        states,
        transitions,
        lookaheads,
        symbol_count,
        map,
    )?)
}

type Entry = (Acceptance, Option<Lookahead>);

fn states(
    alloc: Global,
    dice: &mut Dice,
    count: u8,
    lookaheads: u8,
) -> Result<Vec<Entry>, AllocError> {
    let mut states = Vec::new(alloc);
    for state in 0..count {
        let acceptance = acceptance(dice, state, lookaheads);
        let is_named = lookaheads > 0 && dice.comes(96);
        let named = is_named.then_some(dice.below(lookaheads));
        states.push((acceptance, named))?;
    }
    Ok(states)
}

fn acceptance(dice: &mut Dice, state: State, lookaheads: u8) -> Acceptance {
    if dice.comes(1) {
        return Acceptance::from_unaligned(dice.byte());
    }
    if state == 0 || dice.comes(24) {
        return Acceptance::Continue;
    }
    if lookaheads > 0 && dice.comes(96) {
        return Acceptance::Conditional(dice.below(lookaheads), dice.below(4));
    }
    Acceptance::Accept(dice.below(4))
}

// What states lead to, and seldom not all of it. Each symbol but that of the end mostly leads from the start on.
fn transitions(
    alloc: Global,
    dice: &mut Dice,
    count: u8,
    symbol_count: u8,
) -> Result<Vec<State>, AllocError> {
    let mut transitions = Vec::new(alloc);
    for place in 0..u16::from(count).saturating_mul(u16::from(symbol_count)) {
        let is_start = place >= u16::from(count) && place % u16::from(count.max(1)) == 0;
        let leads = dice.comes(if is_start { 255 } else { 96 });
        transitions.push(if leads {
            dice.below(count).max(1)
        } else {
            SegmenterStateMachine::TRASH_STATE
        })?;
    }
    if dice.comes(2) {
        transitions.truncate(3);
    }
    Ok(transitions)
}

// What so many pseudo symbols mean, each mostly a symbol below a bound.
fn map(
    alloc: Global,
    dice: &mut Dice,
    count: u8,
    bound: u8,
) -> Result<Vec<(Symbol, ComplexScript)>, AllocError> {
    let mut map = Vec::new(alloc);
    for _ in 0..count {
        map.push((symbol(dice, bound), script(dice)))?;
    }
    Ok(map)
}

// A symbol, mostly one below a bound but that of the end.
fn symbol(dice: &mut Dice, bound: u8) -> Symbol {
    if dice.hardly_comes(2) {
        return dice.byte();
    }
    dice.below(bound).max(1)
}

fn script(dice: &mut Dice) -> ComplexScript {
    match dice.below(6) {
        1 => ComplexScript::Myanmar,
        2 => ComplexScript::ChineseOrJapanese,
        3 => ComplexScript::Khmer,
        4 => ComplexScript::Lao,
        5 => ComplexScript::Thai,
        _ => ComplexScript::None,
    }
}

/// A tailoring, if there is one. The errors are those of its parts, and out of memory.
pub fn tailoring(
    alloc: Global,
    dice: &mut Dice,
) -> Result<Option<SegmenterStateMachineOverride>, Failure> {
    if dice.comes(64) {
        return Ok(None);
    }
    let replacement = (1, symbol(dice, 2), script(dice));
    let replacements = vec![in alloc; replacement; usize::from(dice.comes(96))];
    let pseudo = dice.below(4);
    let (map, replacements) = both(map(alloc, dice, pseudo, 2), replacements)?;
    Ok(Some(SegmenterStateMachineOverride::try_from_parts(map, replacements)?))
}

/// The tailorings of lines, of which each may be there. The errors are those of their parts, and out of memory.
pub fn tailorings(alloc: Global, dice: &mut Dice) -> Result<LineTailorings, Failure> {
    let breakall = tailoring(alloc, dice);
    let words = both(breakall, tailoring(alloc, dice));
    let loose = tailoring(alloc, dice);
    let loose = both(loose, tailoring(alloc, dice));
    let ((breakall, keepall), (ja_loose, loose)) = both(words, loose)?;
    let mut tailorings = LineTailorings::default();
    tailorings.breakall = breakall;
    tailorings.keepall = keepall;
    tailorings.ja_loose = ja_loose;
    tailorings.loose = loose;
    Ok(tailorings)
}

/// The dictionary of some words. Fails only when out of memory.
pub fn dictionary(alloc: Global, dice: &mut Dice) -> Result<DictionaryBreakData, Failure> {
    let text = random_text(alloc, dice)?;
    let words: Vec<&str> = text.as_str().split(' ').collect(alloc)?;
    Ok(DictionaryBreakData::try_from_words(alloc, words.as_slice())?)
}

/// The dictionaries of some scripts. Fails only when out of memory.
pub fn dictionaries(alloc: Global, dice: &mut Dice) -> Result<Dictionaries, Failure> {
    let mut dictionaries = Dictionaries::none();
    if dice.comes(96) {
        dictionaries.th = Some(dictionary(alloc, dice)?);
    }
    if dice.comes(64) {
        dictionaries.ja = Some(dictionary(alloc, dice)?);
    }
    Ok(dictionaries)
}
