//! Stretches of a text in which each segment is written as it stands.
ghost use Rattle.std.specs.Prelude.{◌≡◌, ◌+◌, ◌^◌, ◌<◌, ◌≤◌, ◌++◌, ◌∷◌, [], ℕ, true, false, length, slice_range, vec_capacity, vec_len, IsTrue};
ghost use Rattle.segment_output.specs.Output.{Look, line_at};
ghost use Rattle.segment_output.specs.Stretch.{IsStretch};
ghost use Rattle.segment_output.specs.declared.marks.Mark.{Mark};

use crate::output::Style;
use segment_text::escapes::plain_end;

// So many bytes are copied at once.
const SHORT_LEN: usize = 16;

/// A stretch of a text in which each segment is written as it stands, and a byte behind it.
#[derive(Clone, Copy)]
pub struct Stretch {
    /// Where it begins.
    pub from: usize,
    /// Where it ends; before its beginning where there is none.
    pub to: usize,
    /// The byte behind each segment.
    pub last: u8,
}

/// None. Since no segment ends behind it, the next isn't looked for.
#[inline(always)]
pub fn no_stretch() -> Stretch
    ensures { result.to < result.from }
{
    Stretch {
        from: usize::MAX,
        to: usize::MAX - 1,
        last: b'\n',
    }
}

/// The stretch that begins at a place, if there is one.
pub fn stretch_after(text: &[u8], from: usize, style: Style) -> Stretch
    ensures { IsStretch style text.now result }
{
    match style {
        Style::Escaped => stretch_to(text, from, plain_end(text, from), b'\n'),
        Style::Raw => stretch_to(text, from, text.len(), b'\n'),
        Style::ZeroEnded => stretch_to(text, from, text.len(), b'\0'),
        Style::Json | Style::Offsets | Style::Counted(_) => no_stretch(),
    }
}

// The stretch between two places, as far as enough bytes stand behind it.
fn stretch_to(text: &[u8], from: usize, to: usize, last: u8) -> Stretch
    ensures room { result.from ≤ result.to → result.to + 16 ≤ length text.now }
    ensures part { result.from ≤ result.to → (result.from ≡ from) × (result.to ≤ to) × (result.last ≡ last) }
{
    match text.len().checked_sub(SHORT_LEN) {
        Some(end) => Stretch {
            from,
            to: to.min(end),
            last,
        },
        None => no_stretch(),
    }
}

/// Adds the line of a segment, where it is a short one in the stretch and there is room for it. No such segment begins at the last place that
/// a `usize` counts.
#[inline(always)]
pub fn push_short(
    text: &[u8],
    start: usize,
    end: usize,
    stretch: &Stretch,
    lines: &mut Vec<u8>,
) -> bool
    requires { stretch.now.from ≤ stretch.now.to → stretch.now.to + 16 ≤ length text.now }
    ensures short { (look : Look) (before : ℕ) (mark : Mark) → IsStretch look.style text.now stretch.now → IsTrue result
        → lines.new.items ≡ lines.old.items ++ line_at look before text.now (record { from = start; to = end; mark = mark }) }
    ensures begun { IsTrue result → start + 1 < 2 ^ 64 }
    ensures long { result ≡ false → lines.new.items ≡ lines.old.items }
{
    if start < stretch.from || end > stretch.to || end < start {
        return false;
    }
    let len = end - start;
    if len > SHORT_LEN || lines.capacity() - lines.len() <= SHORT_LEN {
        return false;
    }
    put_short(text, start, len, stretch.last, lines);
    true
}

// Adds so many bytes from a place on, and one more. So many are copied as fit at most, which takes no loop and no call.
#[inline(always)]
fn put_short(text: &[u8], start: usize, len: usize, last: u8, lines: &mut Vec<u8>)
    requires behind { start + 16 ≤ length text.now }
    requires short { len ≤ 16 }
    requires room { vec_len lines.old + 16 < vec_capacity lines.old }
    ensures { lines.new.items ≡ lines.old.items ++ slice_range text.now start (start + len) ++ last ∷ [] }
{
    let before = lines.len();
    let mut short = [0; SHORT_LEN];
    short.copy_from_slice(&text[start..start + SHORT_LEN]);
    let Ok(()) = lines.extend_from_slice(&short) else {
        unreachable!()
    };
    lines.truncate(before + len);
    lines.push_reserved(last);
}
