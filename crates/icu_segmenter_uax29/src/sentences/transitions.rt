//! The transitions of the machine of sentences.
// Written by generate/generate.py from the rules of UAX #29. Do not edit.

#[rattlefmt::skip]
use crate::sentences::states::{CASED, CASED_STOP, CR, NONE, PARA_SEP, PLAIN, STOP, STOP_CLOSE,
    STOP_SPACE, TERM, TERM_SPACE, WAIT};
use seg_machine::provider::State;

/// A row for each symbol, in it where each state leads to, in the order of the states.
#[rattlefmt::skip]
pub(crate) static TRANSITIONS: [State; 192] = [
    // the end of the text
    NONE,     NONE,     NONE,     NONE, NONE,       NONE,       NONE,       NONE,       NONE,       NONE,       NONE,       NONE,
    // OTHER
    PLAIN,    PLAIN,    NONE,     NONE, PLAIN,      NONE,       NONE,       WAIT,       WAIT,       WAIT,       WAIT,       WAIT,
    // CR
    CR,       CR,       NONE,     NONE, CR,         CR,         CR,         CR,         CR,         CR,         CR,         NONE,
    // LF
    PARA_SEP, PARA_SEP, PARA_SEP, NONE, PARA_SEP,   PARA_SEP,   PARA_SEP,   PARA_SEP,   PARA_SEP,   PARA_SEP,   PARA_SEP,   NONE,
    // SEP
    PARA_SEP, PARA_SEP, NONE,     NONE, PARA_SEP,   PARA_SEP,   PARA_SEP,   PARA_SEP,   PARA_SEP,   PARA_SEP,   PARA_SEP,   NONE,
    // EXTEND
    PLAIN,    PLAIN,    NONE,     NONE, CASED,      TERM,       TERM_SPACE, STOP,       CASED_STOP, STOP_CLOSE, STOP_SPACE, WAIT,
    // FORMAT
    PLAIN,    PLAIN,    NONE,     NONE, CASED,      TERM,       TERM_SPACE, STOP,       CASED_STOP, STOP_CLOSE, STOP_SPACE, WAIT,
    // SP
    PLAIN,    PLAIN,    NONE,     NONE, PLAIN,      TERM_SPACE, TERM_SPACE, STOP_SPACE, STOP_SPACE, STOP_SPACE, STOP_SPACE, WAIT,
    // LOWER
    CASED,    CASED,    NONE,     NONE, CASED,      NONE,       NONE,       CASED,      CASED,      CASED,      CASED,      CASED,
    // UPPER
    CASED,    CASED,    NONE,     NONE, CASED,      NONE,       NONE,       NONE,       CASED,      NONE,       NONE,       NONE,
    // O_LETTER
    PLAIN,    PLAIN,    NONE,     NONE, PLAIN,      NONE,       NONE,       NONE,       NONE,       NONE,       NONE,       NONE,
    // NUMERIC
    PLAIN,    PLAIN,    NONE,     NONE, PLAIN,      NONE,       NONE,       PLAIN,      PLAIN,      WAIT,       WAIT,       WAIT,
    // A_TERM
    STOP,     STOP,     NONE,     NONE, CASED_STOP, STOP,       STOP,       STOP,       STOP,       STOP,       STOP,       NONE,
    // S_TERM
    TERM,     TERM,     NONE,     NONE, TERM,       TERM,       TERM,       TERM,       TERM,       TERM,       TERM,       NONE,
    // CLOSE
    PLAIN,    PLAIN,    NONE,     NONE, PLAIN,      TERM,       NONE,       STOP_CLOSE, STOP_CLOSE, STOP_CLOSE, WAIT,       WAIT,
    // S_CONTINUE
    PLAIN,    PLAIN,    NONE,     NONE, PLAIN,      PLAIN,      PLAIN,      PLAIN,      PLAIN,      PLAIN,      PLAIN,      WAIT,
];
