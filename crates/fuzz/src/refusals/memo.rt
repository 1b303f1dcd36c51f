//! Memoised engines, made while growths are refused.

use crate::failure::Failure;
use icu_segmenter::GraphemeClusterSegmenterBorrowed;
use icu_segmenter::iterators::GraphemeClusterBreakIterator;
use icu_segmenter::memo::{MemoBreakIterator, MemoError};
use icu_segmenter::provider::SegmenterStateMachine;
use icu_segmenter::rule_segmenter_v2::CountedTransitions;
use icu_segmenter::scaffold::Utf8;
use std::alloc::Global;
use std::io::{self, Write};

type Memo<'data, 's> = MemoBreakIterator<'data, 's, Utf8, CountedTransitions<'data>>;

/// Asks for the memo of a text's clusters twice, after the first boundary, and prints each time what it gives, or why there is none,
/// and then what the clusters have left. The error is `Write`.
pub fn try_memo<O: Write>(
    alloc: Global,
    machine: &SegmenterStateMachine,
    text: &str,
    out: &mut O,
) -> Result<(), Failure> {
    let segmenter = GraphemeClusterSegmenterBorrowed::new_neo(machine)?;
    let mut clusters = segmenter.segment_str(text);
    let _first = clusters.next();
    for _attempt in 0..2 {
        print_memo(alloc, clusters.with_memo(alloc), out)?;
    }
    print_clusters(clusters, out)?;
    Ok(())
}

fn print_clusters<'data, 's, O: Write>(
    mut clusters: GraphemeClusterBreakIterator<'data, 's, Utf8>,
    out: &mut O,
) -> io::Result<()> {
    write!(out, "left:")?;
    for _turn in 0..u64::MAX {
        let Some(place) = clusters.next() else {
            break;
        };
        write!(out, " {place}")?;
    }
    writeln!(out)
}

fn print_memo<O: Write>(
    alloc: Global,
    made: Result<Memo<'_, '_>, MemoError>,
    out: &mut O,
) -> io::Result<()> {
    match made {
        Ok(memo) => print_boundaries(alloc, memo, out),
        Err(fault) => writeln!(out, "{fault:?}"),
    }
}

// Prints each boundary with how many look-ups there were when it came, and whether memory is there before the first is asked for.
fn print_boundaries<O: Write>(
    alloc: Global,
    mut memo: Memo<'_, '_>,
    out: &mut O,
) -> io::Result<()> {
    let is_granted = Vec::from_slice(alloc, &[0u64]).is_ok();
    write!(out, "{}:", if is_granted { "memory" } else { "no memory" })?;
    for _turn in 0..u64::MAX {
        let Some(place) = memo.next() else {
            break;
        };
        let lookups = memo.lookups();
        write!(out, " {place}:{lookups}")?;
    }
    writeln!(out)
}
