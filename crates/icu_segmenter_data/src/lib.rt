//! The segmenters of `icu_segmenter` over Unicode's data, each in one call.
//!
//! They are by machines of Unicode 18.0, of which it is proved that they follow UAX #29 and UAX #14 revision 55 (`icu_segmenter_uax29`,
//! `icu_segmenter_uax14`). The pair tables (`classic`) are of Unicode 18.0 too: arrays that `generate/generate.py` writes out of the
//! rows of rules that the machines follow. That they have the same boundaries is tested, on every text of up to three characters out of
//! one for each symbol and class, and isn't proved. It is proved that their checks reject none of them.
#![tactic(auto)]

pub mod classic;
mod clusters;
mod lines;
mod lines_17;
mod parts;
mod segmenters;
mod sentences;
mod version;
mod words;

pub use clusters::cluster_table;
pub use icu_segmenter_uax14::{line_machine, line_tailorings};
pub use icu_segmenter_uax29::{cluster_machine, sentence_machine, typed_word_machine};
pub use lines::line_table;
pub use lines_17::line_17_table;
pub use segmenters::{grapheme_segmenter, line_segmenter, sentence_segmenter, word_segmenter};
pub use sentences::sentence_table;
pub use version::UNICODE_VERSION;
pub use words::word_table;
