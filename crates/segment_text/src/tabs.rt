//! Tabs as spaces.
ghost use Rattle.std.specs.Prelude.{◌≡◌, ◌==◌, ◌||◌, ◌≤◌, ◌++◌, ◌∷◌, [], length, not, IfOk, OnOk, if◌then◌else◌, replicate};
ghost use Rattle.std.specs.List.{prefix_len};
ghost use Rattle.segment_text.specs.Tabs.{expanded, tab_spaces};

use icu_segmenter::wrap::utf8_columns;
use std::alloc::{AllocError, Global};

/// The text in which each tab is as many spaces as there are to the next multiple of so many columns;
/// none at multiples of 0. A line ends with a line feed, and a field of it has the columns of `utf8_columns`. Fails only when out of memory.
pub fn expand_tabs(alloc: Global, text: &[u8], columns: usize) -> Result<Vec<u8>, AllocError>
    ensures { IfOk result (λ spaced. spaced.items ≡ expanded columns text.now) }
{
    let mut spaced = Vec::new(alloc);
    let mut rest = text;
    'fields: loop {
        let (field, after) = rest.split_at(field_len(rest));
        spaced.extend_from_slice(field)?;
        let Some((stop, next)) = after.split_first() else {
            return Ok(spaced);
        };
        push_stop(field, *stop, columns, &mut spaced)?;
        rest = next;
    }
}

// How many bytes a text has before its first tab or line feed.
fn field_len(text: &[u8]) -> usize
    ensures value { result ≡ prefix_len (λ byte. not (byte == 0x09 || byte == 0x0A)) text.now }
    ensures within { result ≤ length text.now }
{
    text.iter()
        .take_while(|byte| !(**byte == b'\t' || **byte == b'\n'))
        .count()
}

// How many spaces there are for a tab behind a field.
fn spaces_behind(field: &[u8], columns: usize) -> usize
    ensures { replicate result 32 ≡ tab_spaces columns field.now }
{
    if columns == 0 {
        return 0;
    }
    columns - (utf8_columns(field) % columns as u128) as usize
}

// Adds what is written for a tab or a line feed behind a field.
fn push_stop(field: &[u8], stop: u8, columns: usize, spaced: &mut Vec<u8>) -> Result<(), AllocError>
    ensures { OnOk result (spaced.new.items ≡ spaced.old.items ++ (if stop == 0x09 then tab_spaces columns field.now else stop ∷ [])) }
{
    if stop == b'\t' {
        push_spaces(spaces_behind(field, columns), spaced)
    } else {
        spaced.push(stop)?;
        Ok(())
    }
}

fn push_spaces(count: usize, spaced: &mut Vec<u8>) -> Result<(), AllocError>
    ensures { OnOk result (spaced.new.items ≡ spaced.old.items ++ replicate count 32) }
{
    for space in 0..count {
        spaced.push(b' ')?;
    }
    Ok(())
}
