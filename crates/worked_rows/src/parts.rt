//! What segmenters are made of.

use crate::data::{machine_of, override_of, table_of, tailoring_of};
use crate::dictionaries::{all_words, first_words};
use crate::row::Row;
use crate::words::meaning;
use anyhow::{Context, Result, bail};
use icu_segmenter::provider::{
    Dictionaries, LineTailorings, RuleBreakData, RuleBreakDataOverride, SegmenterStateMachine,
    SegmenterStateMachineOverride,
};
use std::alloc::Global;

/// What boundaries are of, and by what they are found.
#[derive(Clone, Copy)]
pub enum Kind {
    /// Clusters by a machine.
    NeoClusters,
    /// Clusters by a pair table.
    Clusters,
    /// Sentences by a machine.
    NeoSentences,
    /// Sentences by a pair table.
    Sentences,
    /// Words by a machine.
    NeoWords,
    /// Words by a pair table.
    Words,
    /// Lines by a machine.
    NeoLines,
    /// Lines by a pair table.
    Lines,
    /// Lines by a pair table, by the rules of the engine 17.
    Lines17,
}

const KINDS: [(&str, Kind); 9] = [
    ("clusters by machine", Kind::NeoClusters),
    ("clusters by table", Kind::Clusters),
    ("sentences by machine", Kind::NeoSentences),
    ("sentences by table", Kind::Sentences),
    ("words by machine", Kind::NeoWords),
    ("words by table", Kind::Words),
    ("lines by machine", Kind::NeoLines),
    ("lines by table", Kind::Lines),
    ("lines by turns", Kind::Lines17),
];

/// The kind of this name.
pub fn kind_of(name: &str) -> Result<Kind> {
    Ok(meaning(&KINDS, name).context("no question")?)
}

/// What a segmenter is made of: what its kind has no use for is missing.
#[derive(Drop)]
pub struct Parts {
    /// The machine.
    pub machine: Option<SegmenterStateMachine>,
    /// The machine of clusters.
    pub cluster_machine: Option<SegmenterStateMachine>,
    /// What takes the place of parts of the machine.
    pub tailoring: Option<SegmenterStateMachineOverride>,
    /// What takes the place of parts of the machine of lines.
    pub tailorings: LineTailorings,
    /// The pair table.
    pub table: Option<RuleBreakData>,
    /// The pair table of clusters.
    pub cluster_table: Option<RuleBreakData>,
    /// What takes the place of classes.
    pub overriding: Option<RuleBreakDataOverride>,
    /// The words that it is made with.
    pub first: Option<Dictionaries>,
    /// The words that it loads then.
    pub later: Option<Dictionaries>,
}

impl Parts {
    /// Nothing.
    pub fn none() -> Self {
        Parts {
            machine: None,
            cluster_machine: None,
            tailoring: None,
            tailorings: LineTailorings::default(),
            table: None,
            cluster_table: None,
            overriding: None,
            first: None,
            later: None,
        }
    }

    /// Reads those of a row. The error is why one of them is rejected.
    pub fn read(&mut self, alloc: Global, row: Row<'_>, kind: Kind) -> Result<()> {
        match kind {
            Kind::NeoClusters => self.read_machine(alloc, row),
            Kind::NeoSentences => {
                self.read_machine(alloc, row)?;
                self.read_tailoring(alloc, row)
            }
            Kind::NeoWords => {
                self.read_machine(alloc, row)?;
                self.read_cluster_table(alloc, row)?;
                self.read_words(alloc, row)
            }
            Kind::NeoLines => {
                self.read_machine(alloc, row)?;
                self.read_cluster_machine(alloc, row)?;
                self.read_tailorings(alloc, row)?;
                self.read_words(alloc, row)
            }
            Kind::Clusters | Kind::Sentences => self.read_table(alloc, row),
            Kind::Words | Kind::Lines | Kind::Lines17 => {
                self.read_table(alloc, row)?;
                self.read_cluster_table(alloc, row)?;
                self.read_words(alloc, row)
            }
        }
    }

    fn read_machine(&mut self, alloc: Global, row: Row<'_>) -> Result<()> {
        self.machine = Some(machine_of(alloc, row)?);
        Ok(())
    }

    fn read_cluster_machine(&mut self, alloc: Global, row: Row<'_>) -> Result<()> {
        self.cluster_machine = Some(machine_of(alloc, row.parts_of("clusters "))?);
        Ok(())
    }

    fn read_tailoring(&mut self, alloc: Global, row: Row<'_>) -> Result<()> {
        self.tailoring = tailoring_of(alloc, row)?;
        Ok(())
    }

    fn read_tailorings(&mut self, alloc: Global, row: Row<'_>) -> Result<()> {
        let tailoring = tailoring_of(alloc, row)?;
        match row.part("place").unwrap_or("breakall") {
            "breakall" => self.tailorings.breakall = tailoring,
            "keepall" => self.tailorings.keepall = tailoring,
            "ja_loose" => self.tailorings.ja_loose = tailoring,
            "loose" => self.tailorings.loose = tailoring,
            "ja_normal" => self.tailorings.ja_normal = tailoring,
            "normal" => self.tailorings.normal = tailoring,
            "ja" => self.tailorings.ja = tailoring,
            _ => bail!("no place of a tailoring"),
        }
        Ok(())
    }

    // The pair table, and what takes the place of its classes.
    fn read_table(&mut self, alloc: Global, row: Row<'_>) -> Result<()> {
        self.table = Some(table_of(alloc, row)?);
        self.overriding = override_of(alloc, row)?;
        Ok(())
    }

    fn read_cluster_table(&mut self, alloc: Global, row: Row<'_>) -> Result<()> {
        self.cluster_table = Some(table_of(alloc, row.parts_of("clusters "))?);
        Ok(())
    }

    fn read_words(&mut self, alloc: Global, row: Row<'_>) -> Result<()> {
        self.first = first_words(alloc, row)?;
        self.later = Some(all_words(alloc, row.parts_of("later "))?);
        Ok(())
    }
}

/// A part that is borrowed.
pub fn borrowed<T: Drop>(part: &Option<T>) -> Result<&T> {
    Ok(part.as_ref().context("a part of a segmenter")?)
}

/// A part that is given away.
pub fn given<T: Drop>(part: &mut Option<T>) -> Result<T> {
    Ok(part.take().context("a part of a segmenter")?)
}
