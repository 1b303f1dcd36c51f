//! The engines that have real data.

use crate::segmenter::TestedSegmenter;
use anyhow::Result;
use icu_segmenter::WordSegmenter;
use icu_segmenter::options::{LineBreakOptions, WordBreakOptions};
use icu_segmenter::provider::DataError;
use icu_segmenter_data::{
    classic, cluster_table, grapheme_segmenter, line_segmenter, sentence_segmenter, word_segmenter,
};
use icu_segmenter_uax29::word_machine;
use std::alloc::Global;

/// What is found, and by which engine.
#[derive(Clone, Copy)]
pub enum Engine {
    /// Grapheme clusters, by the pair table.
    ClusterTable,
    /// Words, by the pair table.
    WordTable,
    /// Sentences, by the pair table.
    SentenceTable,
    /// Lines, by the pair table.
    LineTable,
    /// Lines, by the engine 17.
    LineTurns,
    /// Grapheme clusters, by the machine that is proved to follow UAX #29.
    ProvedClusters,
    /// Words without types, by the machine that is proved to follow UAX #29.
    ProvedWords,
    /// Words with types, by the machine that is proved to follow UAX #29.
    TypedWords,
    /// Sentences, by the machine that is proved to follow UAX #29.
    ProvedSentences,
    /// Lines, by the machine that is proved to follow UAX #14.
    ProvedLines,
}

/// All engines, in the order in which they are tested.
pub const ENGINES: [Engine; 10] = [
    Engine::ClusterTable,
    Engine::WordTable,
    Engine::SentenceTable,
    Engine::LineTable,
    Engine::LineTurns,
    Engine::ProvedClusters,
    Engine::ProvedWords,
    Engine::TypedWords,
    Engine::ProvedSentences,
    Engine::ProvedLines,
];

impl Engine {
    /// The file of its tests.
    pub fn file(self) -> &'static str {
        match self {
            Engine::ClusterTable | Engine::ProvedClusters => "GraphemeBreakTest.txt",
            Engine::WordTable | Engine::ProvedWords | Engine::TypedWords => "WordBreakTest.txt",
            Engine::SentenceTable | Engine::ProvedSentences => "SentenceBreakTest.txt",
            Engine::LineTable | Engine::LineTurns | Engine::ProvedLines => "LineBreakTest.txt",
        }
    }

    /// What is printed of it.
    pub fn name(self) -> &'static str {
        match self {
            Engine::ClusterTable => "clusters by pair table",
            Engine::WordTable => "words by pair table",
            Engine::SentenceTable => "sentences by pair table",
            Engine::ProvedLines => "lines of UAX #14",
            Engine::LineTable => "lines by pair table",
            Engine::LineTurns => "lines by the engine 17",
            Engine::ProvedClusters => "clusters of UAX #29",
            Engine::ProvedWords => "words of UAX #29",
            Engine::TypedWords => "words of UAX #29 with types",
            Engine::ProvedSentences => "sentences of UAX #29",
        }
    }

    /// How many tests of its file are of what has changed since 15.0. One of clusters and two of words hold U+2701, no longer
    /// Extended_Pictographic. It is 33 of lines: 13 by LB25, 10 by LB20a, 6 by LB15 (which is gone), 2 by LB15a, 1 by LB15c and 1 by LB21a.
    pub fn changed_since(self) -> u32 {
        match self {
            Engine::ClusterTable | Engine::ProvedClusters => 1,
            Engine::WordTable | Engine::ProvedWords | Engine::TypedWords => 2,
            Engine::SentenceTable | Engine::ProvedSentences => 0,
            Engine::LineTable | Engine::LineTurns | Engine::ProvedLines => 33,
        }
    }

    /// The engine by a machine that finds the same.
    pub fn machine(self) -> Engine {
        match self {
            Engine::ClusterTable | Engine::ProvedClusters => Engine::ProvedClusters,
            Engine::WordTable | Engine::TypedWords => Engine::TypedWords,
            Engine::ProvedWords => Engine::ProvedWords,
            Engine::SentenceTable | Engine::ProvedSentences => Engine::ProvedSentences,
            Engine::LineTable | Engine::LineTurns | Engine::ProvedLines => Engine::ProvedLines,
        }
    }

    /// The segmenter with its data. The errors are out of memory, and data that are rejected.
    pub fn segmenter(self, alloc: Global) -> Result<TestedSegmenter> {
        let options = LineBreakOptions::default();
        Ok(match self {
            Engine::ClusterTable => TestedSegmenter::Clusters(classic::grapheme_segmenter(alloc)?),
            Engine::WordTable => TestedSegmenter::Words(classic::word_segmenter(alloc)?),
            Engine::SentenceTable => TestedSegmenter::Sentences(classic::sentence_segmenter(
                alloc,
            )?),
            Engine::LineTable => TestedSegmenter::LinesByTable(classic::line_segmenter(
                alloc, options,
            )?),
            Engine::LineTurns => {
                TestedSegmenter::LinesByTable(classic::line_17_segmenter(alloc, options)?)
            }
            Engine::ProvedClusters => TestedSegmenter::Clusters(grapheme_segmenter(alloc)?),
            Engine::ProvedWords => TestedSegmenter::Words(plain_word_segmenter(alloc)?),
            Engine::TypedWords => TestedSegmenter::Words(word_segmenter(alloc)?),
            Engine::ProvedSentences => TestedSegmenter::Sentences(sentence_segmenter(alloc)?),
            Engine::ProvedLines => TestedSegmenter::Lines(line_segmenter(alloc, options)?),
        })
    }
}

// Words by the machine that gives them no types.
fn plain_word_segmenter(alloc: Global) -> Result<WordSegmenter, DataError> {
    let (machine, clusters) = (word_machine(alloc)?, cluster_table(alloc)?);
    let options = WordBreakOptions::default();
    WordSegmenter::try_new_neo_for_non_complex_scripts(machine, clusters, options)
}
