//! Code points as characters.

ghost use Rattle.std.specs.Prelude.{◌≡◌};
ghost use Rattle.seg_text.specs.Decoding.{character_of};

/// The character of a code point: U+FFFD where it is a surrogate or none at all.
pub fn character_of(code_point: u32) -> char
    ensures { result ≡ character_of code_point }
{
    char::from_u32(code_point).unwrap_or(char::REPLACEMENT_CHARACTER)
}
