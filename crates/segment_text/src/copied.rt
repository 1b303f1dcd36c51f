//! Texts that aren't long, which are copied to where they belong.
ghost use Rattle.std.specs.Prelude.{◌≡◌, ◌+◌, ◌≤◌, ◌++◌, length, take, IfSome};
ghost use Rattle.std.specs.List.{slice_range};

use crate::pieces::put;

// So many bytes of a text are copied at once, where it is a short one.
const SHORT_LEN: usize = 16;

// So many bytes a text has at most, to be copied.
const TEXT_LEN: usize = 256;

/// A text, and what is copied with it.
#[derive(Clone, Copy)]
pub struct Copied<'s> {
    /// The bytes from its beginning on.
    pub bytes: &'s [u8],
    /// How many are its own.
    pub len: usize,
}

/// So many bytes of a text from a place on, where they are few enough: at most 16 with as many behind them as make 16, if they are there.
#[inline(always)]
pub fn copied_from(text: &[u8], start: usize, len: usize) -> Option<Copied<'_>>
    ensures { IfSome result (λ copied. (copied.len ≤ length copied.bytes.now) × ((length copied.bytes.now ≤ 256) × (take copied.len copied.bytes.now ≡ slice_range text.now start (start + len)))) }
{
    if len <= SHORT_LEN && text.len() >= SHORT_LEN && start <= text.len() - SHORT_LEN {
        let bytes = &text[start..start + SHORT_LEN];
        return Some(Copied { bytes, len });
    }
    let bytes = text.get(start..start.checked_add(len)?)?;
    (len <= TEXT_LEN).then_some(Copied { bytes, len })
}

/// Puts a text at a place of a buffer, and returns where it ends. Apart where as many bytes are copied as mostly are, so that no length is looked
/// at while that is done.
#[inline(always)]
pub fn put_text(text: Copied<'_>, at: usize, object: &mut [u8]) -> usize
    requires short { text.len ≤ length text.bytes.now }
    requires room { at + length text.bytes.now ≤ length object.old }
    ensures end { result ≡ at + text.entry.len }
    ensures len { length object.new ≡ length object.old }
    ensures pieces { take result object.new ≡ take at object.old ++ take text.entry.len text.entry.bytes.now }
{
    if text.bytes.len() == SHORT_LEN {
        put::<16>(text.bytes, text.len, at, object)
    } else {
        object[at..at + text.bytes.len()].copy_from_slice(text.bytes);
        at + text.len
    }
}
