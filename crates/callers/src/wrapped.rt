//! Callers that wrap lines.
ghost use Rattle.std.specs.Prelude.{◌≡◌, ◌-◌, ◌^◌, length, min};
ghost use Rattle.icu_segmenter.specs.WrappedLines.{wrapped_text, wrapper_measure, wrapper_rules};

use icu_segmenter::wrap::LineWrapper;

/// How many lines a paragraph takes at a width of so many columns, at most `usize::MAX`. Takes no memory.
pub fn paragraph_height(wrapper: LineWrapper<'_>, text: &str, columns: usize) -> usize
    ensures { result ≡ min (length (wrapped_text (wrapper_measure wrapper.entry) (wrapper_rules wrapper.entry) columns text.now)) (2 ^ 64 - 1) }
{
    let mut height = 0usize;
    for _line in wrapper.wrap_str(text, columns) {
        height = height.saturating_add(1);
    }
    height
}
