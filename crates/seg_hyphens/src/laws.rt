//! Laws of hyphenation. They do nothing.

ghost use Rattle.std.specs.Prelude.{◌≡◌, ◌↔◌, ℕ, List, All, false, length, take, encode_utf8_all};
ghost use Rattle.std.specs.Char.{is_ascii_digit};
ghost use Rattle.std.specs.List.{list_all};
ghost use Rattle.seg_hyphens.specs.Liang.{Hyphenation, IsPoint};
ghost use Rattle.seg_hyphens.specs.Characters.{all_in_bytes, in_bytes, IsCharacterPoint, IsWhole};
ghost use Rattle.seg_hyphens.specs.Texts.{pattern_of};

/// Law: points that are found on bytes are those of characters. Where patterns of characters are taken in UTF-8, the points of a word in
/// UTF-8 are the places behind as many of its characters as Liang's definition on characters says.
pub fn points_are_of_characters()
    ensures { (hyphenation : Hyphenation) (word : List ℕ) → All IsWhole hyphenation.patterns
        → (place : ℕ) → IsPoint (all_in_bytes hyphenation) (encode_utf8_all word) place
        ↔ ((count : ℕ) × ((place ≡ length (encode_utf8_all (take count word))) × IsCharacterPoint hyphenation word count)) }
{}

/// Law: a pattern in UTF-8 has the letters and the digits of its characters, in bytes; and one that isn't digits alone has letters, and one
/// digit more. So what a text says is said of characters.
pub fn patterns_are_of_characters()
    ensures in_bytes { (line : List ℕ) → pattern_of 0 (encode_utf8_all line) ≡ in_bytes (pattern_of 0 line) }
    ensures whole { (line : List ℕ) → list_all is_ascii_digit line ≡ false → IsWhole (pattern_of 0 line) }
{}
