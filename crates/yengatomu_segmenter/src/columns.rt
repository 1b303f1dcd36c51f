//! Columns that are counted by cluster.

ghost use Rattle.std.specs.Prelude.{◌≡◌, IfErr, IfOk, IsTrue};
ghost use Rattle.icu_segmenter.specs.Rules.Rules.{ByMachine};
ghost use Rattle.icu_segmenter_uax29.specs.Clusters.{cluster_machine};
ghost use Rattle.yengatomu_segmenter.specs.Columns.{counted_by, has_columns, IsNotCounted};
ghost use Rattle.yengatomu_segmenter.specs.Finders.{finder_of};

use crate::segmenter::Segmenter;
use icu_segmenter_data::grapheme_segmenter;
use std::alloc::Global;

/// Why columns aren't counted by cluster.
#[derive(Clone, Copy, PartialEq, Eq)]
pub enum Refusal {
    /// Out of memory.
    Memory,
    /// What is held isn't a segmenter of lines.
    NoLines,
}

/// Has a segmenter of lines count columns by Unicode's clusters. A segmenter that is refused is as it was.
pub fn count_by_cluster(alloc: Global, segmenter: &mut Segmenter) -> Result<(), Refusal>
    ensures counted { IfOk result (λ _. IsTrue (has_columns (finder_of segmenter.old)) × (finder_of segmenter.new ≡ counted_by (ByMachine cluster_machine) (finder_of segmenter.old))) }
    ensures rejected { IfErr result (λ why. (finder_of segmenter.new ≡ finder_of segmenter.old) × IsNotCounted (finder_of segmenter.old) why) }
{
    if !segmenter.has_columns() {
        return Err(Refusal::NoLines);
    }
    match grapheme_segmenter(alloc) {
        Ok(clusters) => {
            segmenter.count_by(clusters);
            Ok(())
        }
        Err(_) => Err(Refusal::Memory),
    }
}
