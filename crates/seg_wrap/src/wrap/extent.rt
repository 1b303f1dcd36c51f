//! How many columns cells take, at a line's end and before it.

ghost use Rattle.std.specs.Prelude.{◌≡◌, ◌+◌, ◌*◌, ◌≤◌, ◌<◌, ◌^◌, ◌∷◌, [], length};
ghost use Rattle.seg_text.specs.Items.{code_points, start_of};
ghost use Rattle.seg_wrap.specs.Walk.{line_extent, joined_extents};
ghost use Rattle.seg_wrap.specs.Wrapping.{by_characters, cell_of, is_trailing_space, width_of};

use seg_text::character::character_of;
use seg_text::cursor::Cursor;
use unicode_width::UnicodeWidthChar;

// The columns of a code point.
fn width_of(code_point: u32) -> u128
    ensures value { result ≡ width_of code_point }
    ensures bound { result ≤ 3 }
{
    match character_of(code_point).width() {
        Some(width) => width as u128,
        None => 0,
    }
}

// Whether a character is white space that isn't counted at a line's end.
fn is_trailing_space(code_point: u32) -> bool
    ensures { result ≡ is_trailing_space code_point }
{
    code_point == 0x20 || code_point == 0xA || code_point == 0xD
}

/// The columns of some cells.
#[derive(Clone, Copy)]
pub(crate) struct Extent {
    /// Where they end a line: trailing white space isn't counted.
    pub(crate) columns: u128,
    /// Where others follow them on the line.
    pub(crate) inner_columns: u128,
    /// Whether all of them are trailing white space.
    pub(crate) is_trailing: bool,
}

impl Extent {
    /// The columns of no cell.
    pub(crate) fn none() -> Self
        ensures { result ≡ line_extent [] }
    {
        Extent {
            columns: 0,
            inner_columns: 0,
            is_trailing: true,
        }
    }

    /// The columns of one cell.
    pub(crate) fn of_cell(width: u128, is_trailing: bool) -> Self
        ensures { result ≡ line_extent (record { width = width; is_trailing = is_trailing } ∷ []) }
    {
        Extent {
            columns: if is_trailing { 0 } else { width },
            inner_columns: width,
            is_trailing,
        }
    }

    /// The columns of these cells and then the character's.
    fn followed_by(self, code_point: u32) -> Self
        requires room { self.inner_columns + 3 < 2 ^ 128 }
        ensures { result ≡ joined_extents self (line_extent (cell_of code_point ∷ [])) }
    {
        let inner_columns = self.inner_columns + width_of(code_point);
        if is_trailing_space(code_point) {
            return Extent {
                inner_columns,
                ..self
            };
        }
        Extent {
            columns: inner_columns,
            inner_columns,
            is_trailing: false,
        }
    }

    /// The columns of these cells and then others.
    pub(crate) fn joined(self, after: Extent) -> Self
        requires room { self.inner_columns + after.inner_columns < 2 ^ 128 }
        requires within { after.columns ≤ after.inner_columns }
        ensures { result ≡ joined_extents self after }
    {
        Extent {
            columns: if after.is_trailing {
                self.columns
            } else {
                self.inner_columns + after.columns
            },
            inner_columns: self.inner_columns + after.inner_columns,
            is_trailing: self.is_trailing && after.is_trailing,
        }
    }

    /// The columns of the characters that are left of a text.
    pub(crate) fn of_text<I: Cursor>(mut text: I) -> Self
        requires { (I.text text).end < 2 ^ 64 }
        ensures measured { result ≡ line_extent (by_characters (code_points (I.text text).items)) }
        ensures small { result.inner_columns + 3 * start_of (I.text text) ≤ 3 * (I.text text).end }
    {
        let mut extent = Extent::none();
        'items: while let Some((_, code_point)) = text.next_item() {
            extent = extent.followed_by(code_point);
        }
        extent
    }
}
