//! What is proved of the definitions themselves: that the items of a text are what the standards say, and no others.

ghost use Rattle.std.specs.Prelude.{◌≡◌, ℕ, true, false, List, [], ◌∷◌};
ghost use Rattle.std.specs.Str.{IsUtf8, chars};
ghost use Rattle.seg_text.specs.Items.{Item, IsTiling, code_points};
ghost use Rattle.seg_text.specs.Decoding.{ReadsLatin1, latin1_items, ReadsUtf8, ReadsWellFormed, utf8_items, ReadsUtf16, utf16_items};

use crate::scaffold::{Encoding, Latin1, PotentiallyIllFormedUtf8, Utf8, Utf16};

/// The items of Latin-1 tile the bytes, and no other items do.
///
/// Each byte is an item, and its number is the code point. This holds from any place on.
pub fn latin1_items_are_one()
    ensures tiles { (place : ℕ) (bytes : List ℕ) → IsTiling ReadsLatin1 (latin1_items place bytes) place bytes }
    ensures only { (place : ℕ) (bytes : List ℕ) (items : List Item)
        → IsTiling ReadsLatin1 items place bytes → items ≡ latin1_items place bytes }
{}

/// The items of possibly ill-formed UTF-8 tile the bytes, and no other items do.
///
/// An item is a well-formed sequence of Table 3-7 of the Unicode Standard, or else, as U+FFFD, the longest
/// beginning of any of them that stands there, at least one byte. This holds from any place on.
pub fn utf8_items_are_one()
    ensures tiles { (place : ℕ) (bytes : List ℕ) → IsTiling ReadsUtf8 (utf8_items place bytes) place bytes }
    ensures only { (place : ℕ) (bytes : List ℕ) (items : List Item)
        → IsTiling ReadsUtf8 items place bytes → items ≡ utf8_items place bytes }
{}

/// The items of possibly ill-formed UTF-16 tile the units, and no other items do.
///
/// An item is a high surrogate with the low one right after it, or else one unit, which keeps its own number.
/// This holds from any place on.
pub fn utf16_items_are_one()
    ensures tiles { (place : ℕ) (units : List ℕ) → IsTiling ReadsUtf16 (utf16_items place units) place units }
    ensures only { (place : ℕ) (units : List ℕ) (items : List Item)
        → IsTiling ReadsUtf16 items place units → items ≡ utf16_items place units }
{}

/// The items of a `str` are its characters, and none is ill-formed: well-formed sequences tile its bytes.
pub fn str_is_well_formed(text: &str)
    ensures well_formed { IsTiling ReadsWellFormed (utf8_items 0 text.now) 0 text.now }
    ensures characters { code_points (utf8_items 0 text.now) ≡ chars text.now }
{}

/// And bytes that well-formed sequences tile are those of a `str`. This holds from any place on.
pub fn well_formed_is_str()
    ensures utf8 { (place : ℕ) (bytes : List ℕ) (items : List Item)
        → IsTiling ReadsWellFormed items place bytes → IsUtf8 bytes }
{}

/// Whether Latin-1, `str`, possibly ill-formed UTF-8 and possibly ill-formed UTF-16 can contain scripts of Southeast
/// Asia: all but Latin-1.
pub fn encodings_with_southeast_asia() -> [bool; 4]
    ensures { result ≡ false ∷ true ∷ true ∷ true ∷ [] }
{
    [
        Latin1::CAN_CONTAIN_SA,
        Utf8::CAN_CONTAIN_SA,
        PotentiallyIllFormedUtf8::CAN_CONTAIN_SA,
        Utf16::CAN_CONTAIN_SA,
    ]
}
