//! The symbols of the machine: the combinations of Grapheme_Cluster_Break, Indic_Conjunct_Break and Extended_Pictographic
//! that code points have. Symbol 0 is the end of the text.

use seg_machine::provider::Symbol;

/// None of the three says anything.
pub(crate) const OTHER: Symbol = 1;

/// The carriage return.
pub(crate) const CR: Symbol = 2;

/// The line feed.
pub(crate) const LF: Symbol = 3;

/// Other controls.
pub(crate) const CONTROL: Symbol = 4;

/// Extend, also within a conjunct.
pub(crate) const EXTEND: Symbol = 5;

/// Extend that links the consonants of a conjunct.
pub(crate) const LINKER: Symbol = 6;

/// Extend that ends what may become a conjunct.
pub(crate) const EXTEND_ALONE: Symbol = 7;

/// The zero width joiner, also within a conjunct.
pub(crate) const ZWJ: Symbol = 8;

/// A regional indicator: half a flag.
pub(crate) const REGIONAL_INDICATOR: Symbol = 9;

/// What stands before the base that it belongs to.
pub(crate) const PREPEND: Symbol = 10;

/// A mark that takes room of its own.
pub(crate) const SPACING_MARK: Symbol = 11;

/// A leading consonant of Hangul.
pub(crate) const L: Symbol = 12;

/// A vowel of Hangul.
pub(crate) const V: Symbol = 13;

/// A trailing consonant of Hangul.
pub(crate) const T: Symbol = 14;

/// A syllable of Hangul that ends in a vowel.
pub(crate) const LV: Symbol = 15;

/// A syllable of Hangul that ends in a consonant.
pub(crate) const LVT: Symbol = 16;

/// A consonant that a conjunct may have.
pub(crate) const CONSONANT: Symbol = 17;

/// A linker of conjuncts that extends nothing.
pub(crate) const BARE_LINKER: Symbol = 18;

/// An Extended_Pictographic.
pub(crate) const PICTOGRAPH: Symbol = 19;
