//! Extended grapheme clusters, words and sentences, of which it is proved that they are those of UAX #29, as it is in Unicode 18.0.
//!
//! The rules are those of the crate `unicode_segmentation`, which states GB1 to GB999, WB1 to WB999 and SB1 to SB998 as relations
//! between what stands before a place and what stands after it. Here each kind is a state machine: arrays that
//! `generate/generate.py` writes, and that the segmenters of `icu_segmenter` read, in the time of any machine. Nothing of the
//! arrays is trusted: it is proved of every code point that its symbol means its properties, and of each machine that its
//! boundaries are those of the rules. The rules stand as rows too, one for each line of the standard (specs/ClusterRules.antt,
//! WordRules.antt and SentenceRules.antt), and the boundaries are proved to be the places of the rows.
//!
//! `typed_word_machine` has the words with their types, as statuses, and with the scripts by which dictionaries cut.
#![tactic(auto)]

pub mod laws;
mod machine;
mod ranges;
pub mod sentences;
mod states;
mod symbols;
mod transitions;
pub mod words;

pub use machine::cluster_machine;
pub use sentences::sentence_machine;
pub use words::{typed_word_machine, word_machine};
