//! The checks of the data of words.

ghost use Rattle.std.specs.Prelude.{◌≡◌, None, IfOk, IfErr};
ghost use Rattle.seg_data.specs.Faults.{IsFaultless, IsLowestFault};
ghost use Rattle.seg_pairs.specs.PairTable.{table_in};
ghost use Rattle.seg_pairs.specs.PairData.{pair_table_of, override_of, HasPairDataFault};
ghost use Rattle.seg_words.specs.Words.{HasWordTableFault, HasWordMachineFault};

use seg_data::provider::DataError;
use seg_machine::provider::SegmenterStateMachine;
use seg_machine::tailored_machine::has_complex_below_0100;
use seg_pairs::pair_data::PairDataBorrowed;
use seg_pairs::provider::{RuleBreakData, RuleBreakDataOverride};

/// A pair table of words with its override, if there is one, checked with the pair table of clusters.
pub(crate) fn word_pairs<'data>(
    table: &'data RuleBreakData,
    overriding: Option<&'data RuleBreakDataOverride>,
    clusters: &RuleBreakData,
) -> Result<PairDataBorrowed<'data>, DataError>
    ensures accepted { IfOk result (λ p. (pair_table_of p ≡ table.now) × (override_of p ≡ table_in overriding.entry)
        × IsFaultless (HasWordTableFault table.now (table_in overriding.entry) clusters.now)) }
    ensures rejected { IfErr result (IsLowestFault (HasWordTableFault table.now (table_in overriding.entry) clusters.now)) }
{
    let pairs = PairDataBorrowed::try_new(table, overriding)?;
    if pairs.keeps_start() {
        return Err(DataError::StartRowKeeps);
    }
    check_clusters(clusters)?;
    if pairs.has_complex_below_0100() {
        return Err(DataError::ComplexBelow0100);
    }
    Ok(pairs)
}

/// What is wrong with the pair table of clusters, if anything is.
fn check_clusters(clusters: &RuleBreakData) -> Result<(), DataError>
    ensures accepted { IfOk result (λ _. IsFaultless (HasPairDataFault clusters.now None)) }
    ensures rejected { IfErr result (IsLowestFault (HasPairDataFault clusters.now None)) }
{
    let _pairs = PairDataBorrowed::try_plain(clusters, None)?;
    Ok(())
}

/// What is wrong with a machine of words and the pair table of clusters, if anything is.
pub(crate) fn check_machine(
    machine: &SegmenterStateMachine,
    clusters: &RuleBreakData,
) -> Result<(), DataError>
    ensures accepted { IfOk result (λ _. IsFaultless (HasWordMachineFault machine.now clusters.now)) }
    ensures rejected { IfErr result (IsLowestFault (HasWordMachineFault machine.now clusters.now)) }
{
    check_clusters(clusters)?;
    if has_complex_below_0100(machine, None) {
        return Err(DataError::ComplexBelow0100);
    }
    Ok(())
}
