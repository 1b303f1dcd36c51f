//! Texts in each encoding, item by item.
ghost use Rattle.std.specs.Prelude.{◌≡◌, ◌≤◌, ◌<◌, true};
ghost use Rattle.std.specs.Iterator.{IsFinite};
ghost use Rattle.std.specs.List.{All};
ghost use Rattle.seg_text.specs.Items.{start_of, rest_after, code_points};

use crate::row::Row;
use crate::samples::Sample;
use anyhow::{Result, bail};
use bench::segmenter::Text;
use seg_text::cursor::Cursor;
use seg_text::indices::{
    Indices, Latin1Indices, ReadsUnits, StrCharIndices, Utf8CharIndices, Utf16Indices,
};
use seg_text::laws::str_is_well_formed;
use seg_text::scaffold::{
    Latin1, LineBreakType, PotentiallyIllFormedUtf8, RuleBreakType, Utf8, Utf16, WordBreakType,
};
use std::alloc::Global;

/// The items of a text, each as its place and its code point, and then the text's end.
pub fn items(alloc: Global, row: Row<'_>) -> Result<String> {
    let sample = Sample::of(alloc, row)?;
    items_of(alloc, sample.text())
}

fn items_of(alloc: Global, text: Text<'_>) -> Result<String> {
    match text {
        Text::Latin1(bytes) => both(
            items_in::<Latin1>(alloc, Latin1Indices::new(bytes), bytes.len()),
            characters_in(alloc, Latin1Indices::new(bytes), bytes.len()),
        ),
        Text::Utf8(bytes) => both(
            items_in::<PotentiallyIllFormedUtf8>(alloc, Utf8CharIndices::new(bytes), bytes.len()),
            characters_in(alloc, Utf8CharIndices::new(bytes), bytes.len()),
        ),
        Text::Utf16(units) => both(
            items_in::<Utf16>(alloc, Utf16Indices::new(units), units.len()),
            characters_in(alloc, Utf16Indices::new(units), units.len()),
        ),
        Text::Str(text) => items_of_str(alloc, text),
    }
}

// The items of a str, which is well-formed.
fn items_of_str(alloc: Global, text: &str) -> Result<String> {
    str_is_well_formed(text);
    both(
        items_in::<Utf8>(alloc, StrCharIndices::new(text), text.len()),
        characters_in(alloc, StrCharIndices::new(text), text.len()),
    )
}

// The items, where the characters are the same.
fn both(items: Result<String>, characters: Result<String>) -> Result<String> {
    let items = items?;
    if items != characters? {
        bail!("the iterator gives others");
    }
    Ok(items)
}

// The items of a text of so many units at most, through the bound of encodings alone.
fn items_in<'s, Y: RuleBreakType<'s>>(
    alloc: Global,
    mut text: Y::IterAttr,
    units: usize,
) -> Result<String> {
    let mut shown = String::new(alloc);
    // One turn more than a text can have items, and one for what comes after the end.
    for _turn in 0..units.saturating_add(2) {
        let (is_empty, place, mut fork) = (Y::is_empty(&text), Y::offset(&text), Y::fork(&text));
        let item = text.next_item();
        if fork.next_item() != item {
            bail!("a fork reads another item");
        }
        show_item(&mut shown, is_empty, place, item)?;
    }
    let end = Y::offset(&text);
    write!(shown, "{end}")?;
    Ok(shown)
}

// Writes an item, and nothing after the last one.
fn show_item(
    shown: &mut String,
    is_empty: bool,
    place: usize,
    item: Option<(usize, u32)>,
) -> Result<()> {
    match item {
        Some((start, code_point)) if !is_empty && start == place => {
            write!(shown, "{start}:{code_point:X} ")?;
        }
        None if is_empty => {}
        _ => bail!("an item elsewhere"),
    }
    Ok(())
}

// The characters that an iterator gives, and then the text's end.
fn characters_in<C: Copy + Into<u32>, I: Iterator<Item = (usize, C)> + Drop>(
    alloc: Global,
    text: I,
    end: usize,
) -> Result<String>
    requires can { I.can_next text }
    requires ends { IsFinite (I.remaining text) }
{
    let mut shown = String::new(alloc);
    for (place, character) in text {
        let code_point: u32 = character.into();
        write!(shown, "{place}:{code_point:X} ")?;
    }
    write!(shown, "{end}")?;
    Ok(shown)
}

/// The items of the part of a text after the first `from` and up to the first `to`, and where the part begins and ends.
pub fn slice(alloc: Global, row: Row<'_>) -> Result<String> {
    let (from, to) = (row.number("from")?, row.number("to")?);
    if to < from {
        bail!("a slice that ends before it begins");
    }
    let sample = Sample::of(alloc, row)?;
    slice_of(alloc, sample.text(), from, to)
}

fn slice_of(alloc: Global, text: Text<'_>, from: usize, to: usize) -> Result<String>
    requires { from ≤ to }
{
    match text {
        Text::Latin1(bytes) => slice_in::<Latin1>(alloc, Latin1Indices::new(bytes), from, to),
        Text::Utf8(bytes) => slice_in::<PotentiallyIllFormedUtf8>(
            alloc,
            Utf8CharIndices::new(bytes),
            from,
            to,
        ),
        Text::Utf16(units) => slice_in::<Utf16>(alloc, Utf16Indices::new(units), from, to),
        Text::Str(text) => slice_in::<Utf8>(alloc, StrCharIndices::new(text), from, to),
    }
}

// The items of the part of a text after the first `from` and up to the first `to`, and where the part begins and ends.
fn slice_in<'s, Y: RuleBreakType<'s>>(
    alloc: Global,
    text: Y::IterAttr,
    from: usize,
    to: usize,
) -> Result<String>
    requires { from ≤ to }
{
    let start = place_after(&text, from);
    let stop = place_after(&text, to);
    let items = items_in::<Y>(
        alloc,
        Y::slice(&text, start, stop),
        stop.saturating_sub(start),
    )?;
    Ok(format!(in alloc; "from {start} to {stop}, {items}")?)
}

// The place after so many items, or the end.
fn place_after<I: Cursor>(text: &I, taken: usize) -> usize
    ensures { result ≡ start_of (rest_after taken (I.text text.now)) }
{
    let mut rest = text.fork();
    for _i in 0..taken {
        let _item = rest.next_item();
    }
    rest.place()
}

/// The place after some items, the units that are left there, and what a copy reads next.
pub fn rest(alloc: Global, row: Row<'_>) -> Result<String> {
    let taken = row.number("taken")?;
    let sample = Sample::of(alloc, row)?;
    rest_of(alloc, sample.text(), taken)
}

fn rest_of(alloc: Global, text: Text<'_>, taken: usize) -> Result<String> {
    match text {
        Text::Latin1(bytes) => rest_in(alloc, Latin1Indices::new(bytes), taken),
        Text::Utf8(bytes) => rest_in(alloc, Utf8CharIndices::new(bytes), taken),
        Text::Utf16(units) => rest_in(alloc, Utf16Indices::new(units), taken),
        Text::Str(text) => rest_in_str(alloc, StrCharIndices::new(text), taken),
    }
}

// What `rest` gives, of a text in units.
fn rest_in<U: Copy + Into<u32>, E: ReadsUnits<U>>(
    alloc: Global,
    mut text: Indices<'_, U, E>,
    taken: usize,
) -> Result<String> {
    for _taken in 0..taken {
        let _item = text.next();
    }
    let mut copy = text.clone()?;
    let next = copy.next().map(|item| (item.0, E::code_point(item.1)));
    rest_shown(alloc, text.offset(), text.as_slice(), next)
}

// What `rest` gives, of a str.
fn rest_in_str(alloc: Global, mut text: StrCharIndices<'_>, taken: usize) -> Result<String> {
    for _taken in 0..taken {
        let _item = text.next();
    }
    let mut copy = text.clone()?;
    let next = copy.next().map(|item| (item.0, u32::from(item.1)));
    rest_shown(alloc, text.offset(), text.as_str().as_bytes(), next)
}

// A place, the units after it, and the next item.
fn rest_shown<U: Copy + Into<u32>>(
    alloc: Global,
    place: usize,
    units: &[U],
    next: Option<(usize, u32)>,
) -> Result<String> {
    let mut shown = String::new(alloc);
    write!(shown, "at {place} stands")?;
    for unit in units {
        let unit: u32 = (*unit).into();
        write!(shown, " {unit:02X}")?;
    }
    if let Some((start, code_point)) = next {
        write!(shown, ", next {start}:{code_point:X}")?;
    }
    Ok(shown)
}

/// Whether a text can need a dictionary, by its encoding and by the facts of it.
pub fn encoding(alloc: Global, row: Row<'_>) -> Result<String> {
    let sample = Sample::of(alloc, row)?;
    let is_narrow = match sample.text() {
        Text::Latin1(bytes) => is_narrow::<Latin1>(&Latin1Indices::new(bytes)),
        Text::Utf8(bytes) => is_narrow::<PotentiallyIllFormedUtf8>(&Utf8CharIndices::new(bytes)),
        Text::Utf16(units) => is_narrow::<Utf16>(&Utf16Indices::new(units)),
        Text::Str(text) => is_narrow::<Utf8>(&StrCharIndices::new(text)),
    };
    let word = if is_narrow { "narrow" } else { "wide" };
    Ok(word.to_owned(alloc)?)
}

// Whether no text of an encoding that word and line segmenters take can need a dictionary, by the bound alone.
fn is_narrow<'s, Y: WordBreakType<'s> + LineBreakType<'s>>(text: &Y::IterAttr) -> bool
    ensures { result ≡ true → All (λ code_point. code_point < 0x100) (code_points (Y.IterAttr.text text.now).items) }
{
    Y::facts(text);
    !Y::CAN_CONTAIN_SA
}
