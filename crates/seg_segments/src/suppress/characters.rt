//! Letters, digits and spaces.

ghost use Rattle.std.specs.Prelude.{◌≡◌};
ghost use Rattle.seg_segments.specs.Suppression.{is_letter_or_digit, is_separator, is_space};

use seg_text::character::character_of;

/// Whether a code point is a letter or a digit.
pub(crate) fn is_letter_or_digit(code_point: u32) -> bool
    ensures { result ≡ is_letter_or_digit code_point }
{
    character_of(code_point).is_alphanumeric()
}

/// Whether a code point separates lines or paragraphs.
fn is_separator(code_point: u32) -> bool
    ensures { result ≡ is_separator code_point }
{
    code_point == 0x0A
        || code_point == 0x0D
        || code_point == 0x85
        || code_point == 0x2028
        || code_point == 0x2029
}

/// Whether a code point is white space that separates neither lines nor paragraphs.
pub(crate) fn is_space(code_point: u32) -> bool
    ensures { result ≡ is_space code_point }
{
    character_of(code_point).is_whitespace() && !is_separator(code_point)
}
