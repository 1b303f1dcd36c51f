//! The transitions of the machine of clusters, for `machine`.
// Written by generate/generate.py from the rules of UAX #29. Do not edit.

#[rattlefmt::skip]
use crate::states::{CONTROL, CR, EMOJI, EMOJI_LINKER, HALF_FLAG, JOINER, JOINER_LINKER, LEADING,
    LINKER, NONE, PLAIN, PREPEND, TRAILING, VOWEL};
use seg_machine::provider::State;

/// A row for each symbol, in it where each state leads to, in the order of the states.
#[rattlefmt::skip]
pub(crate) static TRANSITIONS: [State; 280] = [
    // the end of the text
    NONE,      NONE,   NONE,    NONE, NONE,   NONE,   NONE,      NONE,     NONE,     NONE,     NONE,         NONE,          NONE,   NONE,
    // OTHER
    PLAIN,     NONE,   NONE,    NONE, NONE,   NONE,   PLAIN,     NONE,     NONE,     NONE,     NONE,         NONE,          NONE,   NONE,
    // CR
    CR,        NONE,   NONE,    NONE, NONE,   NONE,   NONE,      NONE,     NONE,     NONE,     NONE,         NONE,          NONE,   NONE,
    // LF
    CONTROL,   NONE,   CONTROL, NONE, NONE,   NONE,   NONE,      NONE,     NONE,     NONE,     NONE,         NONE,          NONE,   NONE,
    // CONTROL
    CONTROL,   NONE,   NONE,    NONE, NONE,   NONE,   NONE,      NONE,     NONE,     NONE,     NONE,         NONE,          NONE,   NONE,
    // EXTEND
    PLAIN,     PLAIN,  NONE,    NONE, LINKER, PLAIN,  PLAIN,     PLAIN,    PLAIN,    PLAIN,    EMOJI,        EMOJI_LINKER,  PLAIN,  LINKER,
    // LINKER
    LINKER,    LINKER, NONE,    NONE, LINKER, LINKER, LINKER,    LINKER,   LINKER,   LINKER,   EMOJI_LINKER, EMOJI_LINKER,  LINKER, LINKER,
    // EXTEND_ALONE
    PLAIN,     PLAIN,  NONE,    NONE, PLAIN,  PLAIN,  PLAIN,     PLAIN,    PLAIN,    PLAIN,    EMOJI,        EMOJI,         PLAIN,  PLAIN,
    // ZWJ
    PLAIN,     PLAIN,  NONE,    NONE, LINKER, PLAIN,  PLAIN,     PLAIN,    PLAIN,    PLAIN,    JOINER,       JOINER_LINKER, PLAIN,  LINKER,
    // REGIONAL_INDICATOR
    HALF_FLAG, NONE,   NONE,    NONE, NONE,   PLAIN,  HALF_FLAG, NONE,     NONE,     NONE,     NONE,         NONE,          NONE,   NONE,
    // PREPEND
    PREPEND,   NONE,   NONE,    NONE, NONE,   NONE,   PREPEND,   NONE,     NONE,     NONE,     NONE,         NONE,          NONE,   NONE,
    // SPACING_MARK
    PLAIN,     PLAIN,  NONE,    NONE, PLAIN,  PLAIN,  PLAIN,     PLAIN,    PLAIN,    PLAIN,    PLAIN,        PLAIN,         PLAIN,  PLAIN,
    // L
    LEADING,   NONE,   NONE,    NONE, NONE,   NONE,   LEADING,   LEADING,  NONE,     NONE,     NONE,         NONE,          NONE,   NONE,
    // V
    VOWEL,     NONE,   NONE,    NONE, NONE,   NONE,   VOWEL,     VOWEL,    VOWEL,    NONE,     NONE,         NONE,          NONE,   NONE,
    // T
    TRAILING,  NONE,   NONE,    NONE, NONE,   NONE,   TRAILING,  NONE,     TRAILING, TRAILING, NONE,         NONE,          NONE,   NONE,
    // LV
    VOWEL,     NONE,   NONE,    NONE, NONE,   NONE,   VOWEL,     VOWEL,    NONE,     NONE,     NONE,         NONE,          NONE,   NONE,
    // LVT
    TRAILING,  NONE,   NONE,    NONE, NONE,   NONE,   TRAILING,  TRAILING, NONE,     NONE,     NONE,         NONE,          NONE,   NONE,
    // CONSONANT
    PLAIN,     NONE,   NONE,    NONE, PLAIN,  NONE,   PLAIN,     NONE,     NONE,     NONE,     NONE,         PLAIN,         NONE,   PLAIN,
    // BARE_LINKER
    LINKER,    NONE,   NONE,    NONE, NONE,   NONE,   LINKER,    NONE,     NONE,     NONE,     NONE,         NONE,          NONE,   NONE,
    // PICTOGRAPH
    EMOJI,     NONE,   NONE,    NONE, NONE,   NONE,   EMOJI,     NONE,     NONE,     NONE,     NONE,         NONE,          EMOJI,  EMOJI,
];
