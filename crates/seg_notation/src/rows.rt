//! The reader of rules: sides of symbols and groups around a sign. For the reader of lines.

ghost use Rattle.std.specs.Prelude.{◌≡◌, ◌≤◌, length, IfOk, IfSome};
ghost use Rattle.seg_notation.specs.Scanning.{past_blanks, count_at, verdict_at};

use crate::fault::Fault;
use crate::line::{Line, spells};
use crate::symbols::Symbols;
use seg_machine::provider::Symbol;
use seg_rules::rules::{Class, Count};
use std::alloc::Global;

/// A rule that was read.
#[derive(Drop)]
pub(crate) struct OwnRow {
    pub(crate) left: Vec<(Class, Count)>,
    pub(crate) right: Vec<(Class, Count)>,
    /// 0 for ×, or one more than a boundary's status.
    pub(crate) verdict: u8,
    pub(crate) line: usize,
    ghost few_left: { length left.items ≤ 7 },
    ghost few_right: { length right.items ≤ 7 },
    ghost known: { verdict ≤ 2 },
}

/// The rule of marks.
#[derive(Clone, Copy)]
pub(crate) struct Marks {
    pub(crate) marks: Class,
    pub(crate) bare: Class,
    pub(crate) alone: Symbol,
}

impl Marks {
    /// What rules have that name no marks.
    pub(crate) const NONE: Marks = Marks {
        marks: 0,
        bare: 0,
        alone: 0,
    };
}

/// The side of a place.
#[derive(Clone, Copy, PartialEq)]
enum Side {
    Left,
    Right,
}

/// The class of the start and the end of the text.
pub(crate) const EDGE: Class = 1;

const MAX_ITEMS: usize = 7;

/// Reads a rule up to the end of its line, whose number is given.
pub(crate) fn row_of(
    alloc: Global,
    line: &mut Line<'_>,
    symbols: &Symbols,
    number: usize,
) -> Result<OwnRow, Fault> {
    let start = line.len();
    let left = items_of(alloc, line, symbols, Side::Left)?;
    if may_be_left_out(left.first()) {
        line.go_back_to(start);
        return Err(Fault::NothingBeyond);
    }
    let Some(verdict) = verdict(line) else {
        return Err(Fault::NoVerdict);
    };
    let right = items_of(alloc, line, symbols, Side::Right)?;
    if !line.is_done() {
        return Err(Fault::SecondVerdict);
    }
    if may_be_left_out(right.last()) {
        return Err(Fault::NothingBeyond);
    }
    Ok(OwnRow {
        left,
        right,
        verdict,
        line: number,
    })
}

// Whether an item may stand for nothing.
fn may_be_left_out(item: Option<&(Class, Count)>) -> bool {
    match item {
        Some((_, count)) => *count != Count::One,
        None => false,
    }
}

// Reads a sign, if one comes next.
fn verdict(line: &mut Line<'_>) -> Option<u8>
    ensures value { result ≡ verdict_at (past_blanks line.old.rest.now) }
    ensures known { IfSome result (λ verdict. verdict ≤ 2) }
{
    if line.takes('×') {
        Some(0)
    } else if line.takes('÷') {
        Some(1)
    } else if line.takes('!') {
        Some(2)
    } else {
        None
    }
}

// Whether a side ends here.
fn is_at_end(line: &mut Line<'_>) -> bool {
    line.is_done() || matches!(line.next(), Some('×' | '÷' | '!'))
}

// Reads a side.
fn items_of(
    alloc: Global,
    line: &mut Line<'_>,
    symbols: &Symbols,
    side: Side,
) -> Result<Vec<(Class, Count)>, Fault>
    ensures { IfOk result (λ items. length items.items ≤ 7) }
{
    let mut items = Vec::new(alloc);
    for count in 0..MAX_ITEMS {
        if is_at_end(line) {
            return Ok(items);
        }
        items.push(item(line, symbols, side)?)?;
    }
    if is_at_end(line) {
        Ok(items)
    } else {
        Err(Fault::TooManyItems)
    }
}

// Reads a symbol, a group or a class, with how often it stands.
fn item(line: &mut Line<'_>, symbols: &Symbols, side: Side) -> Result<(Class, Count), Fault> {
    if line.takes('(') {
        return group(line, symbols, side);
    }
    let class = member(line, symbols, side)?;
    Ok((class, count(line)))
}

// Reads how often.
fn count(line: &mut Line<'_>) -> Count
    ensures { result ≡ count_at (past_blanks line.old.rest.now) }
{
    if line.takes('*') {
        Count::Star
    } else if line.takes('?') {
        Count::Optional
    } else {
        Count::One
    }
}

// Reads a group behind its parenthesis, with how often it stands.
fn group(line: &mut Line<'_>, symbols: &Symbols, side: Side) -> Result<(Class, Count), Fault> {
    let mut class = member(line, symbols, side)?;
    for _ in 0..line.len() {
        if !line.takes('|') {
            break;
        }
        class |= member(line, symbols, side)?;
    }
    if line.takes(')') {
        Ok((class, count(line)))
    } else {
        pairs(line, symbols, side, class)
    }
}

// Reads a group of two symbols behind the first, which are the same one.
fn pairs(
    line: &mut Line<'_>,
    symbols: &Symbols,
    side: Side,
    class: Class,
) -> Result<(Class, Count), Fault> {
    if line.is_done() || matches!(line.next(), Some('×' | '÷' | '!' | '(' | '*' | '?')) {
        return Err(Fault::NoParenthesis);
    }
    let second = member(line, symbols, side)?;
    if second == class && line.takes(')') && line.takes('*') {
        Ok((class, Count::Pairs))
    } else {
        Err(Fault::NoPairs)
    }
}

// Reads a symbol, or all symbols but some.
fn member(line: &mut Line<'_>, symbols: &Symbols, side: Side) -> Result<Class, Fault> {
    if line.takes('[') {
        return if line.takes_at_once('^') {
            all_but(line, symbols)
        } else {
            Err(Fault::NoSymbol)
        };
    }
    let word = line.word();
    if word.is_empty() {
        return Err(nothing(line));
    }
    let is_start = spells("sot", word);
    if is_start || spells("eot", word) {
        return if is_start == (side == Side::Left) {
            Ok(EDGE)
        } else {
            Err(Fault::OtherEdge)
        };
    }
    Ok(class_of(symbols.number_of(word)?))
}

// What is wrong where no symbol comes next.
fn nothing(line: &Line<'_>) -> Fault {
    match line.next() {
        Some('*' | '?') => Fault::NothingToRepeat,
        _ => Fault::NoSymbol,
    }
}

// Reads the names in brackets, behind `[^`. Returns all other symbols.
fn all_but(line: &mut Line<'_>, symbols: &Symbols) -> Result<Class, Fault> {
    let mut class = symbols.all();
    for _ in 0..line.len() {
        if line.takes(']') {
            return Ok(class);
        }
        class &= !named(line, symbols)?;
    }
    Err(Fault::NoBracket)
}

// Reads the name of a symbol that isn't the start or the end of the text.
fn named(line: &mut Line<'_>, symbols: &Symbols) -> Result<Class, Fault> {
    let word = line.word();
    if word.is_empty() {
        return Err(Fault::NoBracket);
    }
    Ok(class_of(symbols.number_of(word)?))
}

// The class of one symbol.
fn class_of(symbol: Symbol) -> Class {
    1 << symbol.min(127)
}

/// Reads the rule of marks behind its `X`, up to the end of its line.
pub(crate) fn marks_of(line: &mut Line<'_>, symbols: &Symbols) -> Result<Marks, Fault> {
    line.skip_blanks();
    let start = line.len();
    let (marks, count) = item(line, symbols, Side::Left)?;
    if marks & EDGE != 0 {
        line.go_back_to(start);
        return Err(Fault::OtherEdge);
    }
    if count != Count::Star || !is_treated(line) {
        return Err(Fault::NoMarks);
    }
    let bare = bare_of(line, symbols)?;
    if !line.takes(';') || !line.takes_word("alone") || !line.takes_word("as") {
        return Err(Fault::NoMarks);
    }
    let alone = symbols.number_of(line.word())?;
    if line.is_done() {
        Ok(Marks { marks, bare, alone })
    } else {
        Err(Fault::NoMarks)
    }
}

fn is_treated(line: &mut Line<'_>) -> bool {
    line.takes_word("treated") && line.takes_word("as") && line.takes_word("X")
}

// Reads after which symbols marks aren't read as one with them, if that stands here.
fn bare_of(line: &mut Line<'_>, symbols: &Symbols) -> Result<Class, Fault> {
    let mut bare = 0;
    if !line.takes(',') {
        return Ok(bare);
    }
    if !line.takes_word("but") || !line.takes_word("after") {
        return Err(Fault::NoMarks);
    }
    for _ in 0..line.len() {
        let word = line.word();
        if word.is_empty() {
            break;
        }
        bare |= class_of(symbols.number_of(word)?);
    }
    Ok(bare)
}
