//! The data of each kind, small and real.

use crate::engine::Data;
use anyhow::Result;
use bench::{clusters, line_tables, lines, pair_tables, sentences, turn_tables, words};
use icu_segmenter::provider::{LineTailorings, RuleBreakData, SegmenterStateMachine};
use icu_segmenter_data as unicode;
use std::alloc::Global;

/// The pair table of clusters.
pub fn cluster_table(alloc: Global, source: Data) -> Result<RuleBreakData> {
    match source {
        Data::Small => Ok(pair_tables::cluster_table(alloc)?),
        Data::Real => Ok(unicode::cluster_table(alloc)?),
    }
}

/// The machine of clusters.
pub fn cluster_machine(alloc: Global, source: Data) -> Result<SegmenterStateMachine> {
    match source {
        Data::Small => Ok(clusters::cluster_machine(alloc)?),
        Data::Real => Ok(unicode::cluster_machine(alloc)?),
    }
}

/// The pair table of sentences.
pub fn sentence_table(alloc: Global, source: Data) -> Result<RuleBreakData> {
    match source {
        Data::Small => Ok(pair_tables::sentence_table(alloc)?),
        Data::Real => Ok(unicode::sentence_table(alloc)?),
    }
}

/// The machine of sentences.
pub fn sentence_machine(alloc: Global, source: Data) -> Result<SegmenterStateMachine> {
    match source {
        Data::Small => Ok(sentences::sentence_machine(alloc)?),
        Data::Real => Ok(unicode::sentence_machine(alloc)?),
    }
}

/// The pair table of words.
pub fn word_table(alloc: Global, source: Data) -> Result<RuleBreakData> {
    match source {
        Data::Small => Ok(pair_tables::word_table(alloc)?),
        Data::Real => Ok(unicode::word_table(alloc)?),
    }
}

/// The machine of words.
pub fn word_machine(alloc: Global, source: Data) -> Result<SegmenterStateMachine> {
    match source {
        Data::Small => Ok(words::word_machine(alloc)?),
        Data::Real => Ok(unicode::typed_word_machine(alloc)?),
    }
}

/// The pair table of lines.
pub fn line_table(alloc: Global, source: Data) -> Result<RuleBreakData> {
    match source {
        Data::Small => Ok(line_tables::line_table(alloc)?),
        Data::Real => Ok(unicode::line_table(alloc)?),
    }
}

/// The pair table of lines for the engine 17.
pub fn line_17_table(alloc: Global, source: Data) -> Result<RuleBreakData> {
    match source {
        Data::Small => Ok(turn_tables::turn_table(alloc)?),
        Data::Real => Ok(unicode::line_17_table(alloc)?),
    }
}

/// The machine of lines.
pub fn line_machine(alloc: Global, source: Data) -> Result<SegmenterStateMachine> {
    match source {
        Data::Small => Ok(lines::line_machine(alloc)?),
        Data::Real => Ok(unicode::line_machine(alloc)?),
    }
}

/// The tailorings of lines, none of which the default options choose.
pub fn line_tailorings(alloc: Global, source: Data) -> Result<LineTailorings> {
    match source {
        Data::Small => Ok(lines::line_tailorings(alloc)?),
        Data::Real => Ok(unicode::line_tailorings(alloc)?),
    }
}
