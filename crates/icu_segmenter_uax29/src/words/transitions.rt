//! The transitions of the machine of words.
// Written by generate/generate.py from the rules of UAX #29. Do not edit.

#[rattlefmt::skip]
use crate::words::states::{CR, EXTEND_NUM_LET, EXTEND_NUM_LET_ZWJ, HALF_FLAG, HALF_FLAG_ZWJ,
    HEBREW, HEBREW_QUOTE, HEBREW_QUOTE_ZWJ, HEBREW_ZWJ, KATAKANA, KATAKANA_ZWJ, LETTER, LETTER_ZWJ,
    NEWLINE, NONE, NUMBER, NUMBER_ZWJ, PLAIN, SPACE, WAIT_HEBREW, WAIT_LETTER, WAIT_NUMBER, ZWJ};
use seg_machine::provider::State;

/// A row for each symbol, in it where each state leads to, in the order of the states.
#[rattlefmt::skip]
pub(crate) static TRANSITIONS: [State; 506] = [
    // the end of the text
    NONE,           NONE,  NONE,    NONE, NONE,  NONE,   NONE,           NONE,           NONE,           NONE,           NONE,           NONE,           NONE,           NONE,
    NONE,               NONE,               NONE,             NONE,             NONE,          NONE,          NONE,        NONE,        NONE,
    // OTHER
    PLAIN,          NONE,  NONE,    NONE, NONE,  NONE,   NONE,           NONE,           NONE,           NONE,           NONE,           NONE,           NONE,           NONE,
    NONE,               NONE,               NONE,             NONE,             NONE,          NONE,          NONE,        NONE,        NONE,
    // CR
    CR,             NONE,  NONE,    NONE, NONE,  NONE,   NONE,           NONE,           NONE,           NONE,           NONE,           NONE,           NONE,           NONE,
    NONE,               NONE,               NONE,             NONE,             NONE,          NONE,          NONE,        NONE,        NONE,
    // LF
    NEWLINE,        NONE,  NEWLINE, NONE, NONE,  NONE,   NONE,           NONE,           NONE,           NONE,           NONE,           NONE,           NONE,           NONE,
    NONE,               NONE,               NONE,             NONE,             NONE,          NONE,          NONE,        NONE,        NONE,
    // NEWLINE
    NEWLINE,        NONE,  NONE,    NONE, NONE,  NONE,   NONE,           NONE,           NONE,           NONE,           NONE,           NONE,           NONE,           NONE,
    NONE,               NONE,               NONE,             NONE,             NONE,          NONE,          NONE,        NONE,        NONE,
    // EXTEND
    PLAIN,          PLAIN, NONE,    NONE, PLAIN, PLAIN,  LETTER,         LETTER,         HEBREW,         HEBREW,         NUMBER,         NUMBER,         KATAKANA,       KATAKANA,
    EXTEND_NUM_LET,     EXTEND_NUM_LET,     HEBREW_QUOTE,     HEBREW_QUOTE,     HALF_FLAG,     HALF_FLAG,     WAIT_LETTER, WAIT_HEBREW, WAIT_NUMBER,
    // ZWJ
    ZWJ,            ZWJ,   NONE,    NONE, ZWJ,   ZWJ,    LETTER_ZWJ,     LETTER_ZWJ,     HEBREW_ZWJ,     HEBREW_ZWJ,     NUMBER_ZWJ,     NUMBER_ZWJ,     KATAKANA_ZWJ,   KATAKANA_ZWJ,
    EXTEND_NUM_LET_ZWJ, EXTEND_NUM_LET_ZWJ, HEBREW_QUOTE_ZWJ, HEBREW_QUOTE_ZWJ, HALF_FLAG_ZWJ, HALF_FLAG_ZWJ, WAIT_LETTER, WAIT_HEBREW, WAIT_NUMBER,
    // FORMAT
    PLAIN,          PLAIN, NONE,    NONE, PLAIN, PLAIN,  LETTER,         LETTER,         HEBREW,         HEBREW,         NUMBER,         NUMBER,         KATAKANA,       KATAKANA,
    EXTEND_NUM_LET,     EXTEND_NUM_LET,     HEBREW_QUOTE,     HEBREW_QUOTE,     HALF_FLAG,     HALF_FLAG,     WAIT_LETTER, WAIT_HEBREW, WAIT_NUMBER,
    // REGIONAL_INDICATOR
    HALF_FLAG,      NONE,  NONE,    NONE, NONE,  NONE,   NONE,           NONE,           NONE,           NONE,           NONE,           NONE,           NONE,           NONE,
    NONE,               NONE,               NONE,             NONE,             PLAIN,         PLAIN,         NONE,        NONE,        NONE,
    // KATAKANA
    KATAKANA,       NONE,  NONE,    NONE, NONE,  NONE,   NONE,           NONE,           NONE,           NONE,           NONE,           NONE,           KATAKANA,       KATAKANA,
    KATAKANA,           KATAKANA,           NONE,             NONE,             NONE,          NONE,          NONE,        NONE,        NONE,
    // HEBREW_LETTER
    HEBREW,         NONE,  NONE,    NONE, NONE,  NONE,   HEBREW,         HEBREW,         HEBREW,         HEBREW,         HEBREW,         HEBREW,         NONE,           NONE,
    HEBREW,             HEBREW,             HEBREW,           HEBREW,           NONE,          NONE,          HEBREW,      HEBREW,      NONE,
    // A_LETTER
    LETTER,         NONE,  NONE,    NONE, NONE,  NONE,   LETTER,         LETTER,         LETTER,         LETTER,         LETTER,         LETTER,         NONE,           NONE,
    LETTER,             LETTER,             LETTER,           LETTER,           NONE,          NONE,          LETTER,      NONE,        NONE,
    // SINGLE_QUOTE
    PLAIN,          NONE,  NONE,    NONE, NONE,  NONE,   WAIT_LETTER,    WAIT_LETTER,    HEBREW_QUOTE,   HEBREW_QUOTE,   WAIT_NUMBER,    WAIT_NUMBER,    NONE,           NONE,
    NONE,               NONE,               NONE,             NONE,             NONE,          NONE,          NONE,        NONE,        NONE,
    // DOUBLE_QUOTE
    PLAIN,          NONE,  NONE,    NONE, NONE,  NONE,   NONE,           NONE,           WAIT_HEBREW,    WAIT_HEBREW,    NONE,           NONE,           NONE,           NONE,
    NONE,               NONE,               NONE,             NONE,             NONE,          NONE,          NONE,        NONE,        NONE,
    // MID_NUM_LET
    PLAIN,          NONE,  NONE,    NONE, NONE,  NONE,   WAIT_LETTER,    WAIT_LETTER,    WAIT_LETTER,    WAIT_LETTER,    WAIT_NUMBER,    WAIT_NUMBER,    NONE,           NONE,
    NONE,               NONE,               NONE,             NONE,             NONE,          NONE,          NONE,        NONE,        NONE,
    // MID_LETTER
    PLAIN,          NONE,  NONE,    NONE, NONE,  NONE,   WAIT_LETTER,    WAIT_LETTER,    WAIT_LETTER,    WAIT_LETTER,    NONE,           NONE,           NONE,           NONE,
    NONE,               NONE,               NONE,             NONE,             NONE,          NONE,          NONE,        NONE,        NONE,
    // MID_NUM
    PLAIN,          NONE,  NONE,    NONE, NONE,  NONE,   NONE,           NONE,           NONE,           NONE,           WAIT_NUMBER,    WAIT_NUMBER,    NONE,           NONE,
    NONE,               NONE,               NONE,             NONE,             NONE,          NONE,          NONE,        NONE,        NONE,
    // NUMERIC
    NUMBER,         NONE,  NONE,    NONE, NONE,  NONE,   NUMBER,         NUMBER,         NUMBER,         NUMBER,         NUMBER,         NUMBER,         NONE,           NONE,
    NUMBER,             NUMBER,             NONE,             NONE,             NONE,          NONE,          NONE,        NONE,        NUMBER,
    // EXTEND_NUM_LET
    EXTEND_NUM_LET, NONE,  NONE,    NONE, NONE,  NONE,   EXTEND_NUM_LET, EXTEND_NUM_LET, EXTEND_NUM_LET, EXTEND_NUM_LET, EXTEND_NUM_LET, EXTEND_NUM_LET, EXTEND_NUM_LET, EXTEND_NUM_LET,
    EXTEND_NUM_LET,     EXTEND_NUM_LET,     NONE,             NONE,             NONE,          NONE,          NONE,        NONE,        NONE,
    // W_SEG_SPACE
    SPACE,          NONE,  NONE,    NONE, SPACE, NONE,   NONE,           NONE,           NONE,           NONE,           NONE,           NONE,           NONE,           NONE,
    NONE,               NONE,               NONE,             NONE,             NONE,          NONE,          NONE,        NONE,        NONE,
    // PICTOGRAPH
    PLAIN,          NONE,  NONE,    NONE, NONE,  PLAIN,  NONE,           PLAIN,          NONE,           PLAIN,          NONE,           PLAIN,          NONE,           PLAIN,
    NONE,               PLAIN,              NONE,             PLAIN,            NONE,          PLAIN,         NONE,        NONE,        NONE,
    // LETTER_PICTOGRAPH
    LETTER,         NONE,  NONE,    NONE, NONE,  LETTER, LETTER,         LETTER,         LETTER,         LETTER,         LETTER,         LETTER,         NONE,           LETTER,
    LETTER,             LETTER,             LETTER,           LETTER,           NONE,          LETTER,        LETTER,      NONE,        NONE,
];
