//! How many samples are passed.
ghost use Rattle.std.specs.Prelude.{◌↔◌, IfOk, IsTrue};
ghost use Rattle.break_tests.specs.TestedSegmenter.{HasMandatory, IsPassed};

use crate::options::segmenter_with;
use crate::sample::{Sample, sample_of};
use crate::segmenter::TestedSegmenter;
use anyhow::Result;
use std::alloc::{AllocError, Global};

/// How many samples were passed, and how many were not.
#[derive(Clone, Copy, Default)]
pub struct Counts {
    /// How many were passed.
    pub passed: u32,
    /// How many were not.
    pub failed: u32,
}

impl Counts {
    /// Counts one more.
    fn add(&mut self, is_passed: bool) {
        if is_passed {
            self.passed = self.passed.saturating_add(1);
        } else {
            self.failed = self.failed.saturating_add(1);
        }
    }

    /// Takes others with them.
    fn join(&mut self, others: Counts) {
        self.passed = self.passed.saturating_add(others.passed);
        self.failed = self.failed.saturating_add(others.failed);
    }
}

/// Counts the samples of a test file, and prints the lines of those that aren't passed. The errors are out of memory, a line that has
/// neither marks nor code points, and output that fails.
pub fn counts_of(rt: &HostRuntime, segmenter: &TestedSegmenter, text: &str) -> Result<Counts> {
    let mut counts = Counts::default();
    for line in text.lines() {
        if let Some(is_passed) = is_line_passed(rt.alloc(), segmenter, line)? {
            count(rt, &mut counts, line, is_passed)?;
        }
    }
    Ok(counts)
}

// Counts a line, and prints it if it isn't passed.
fn count(rt: &HostRuntime, counts: &mut Counts, line: &str, is_passed: bool) -> Result<()> {
    counts.add(is_passed);
    if !is_passed {
        println!(rt; "not passed: {line}")?;
    }
    Ok(())
}

// Whether the sample of a line is passed; none where it has no sample.
fn is_line_passed(alloc: Global, segmenter: &TestedSegmenter, line: &str) -> Result<Option<bool>> {
    match sample_of(alloc, line)? {
        Some(sample) => Ok(Some(is_passed(alloc, segmenter, &sample)?)),
        None => Ok(None),
    }
}

/// Counts the rows of lines with options: each has its options, a semicolon, and a sample. The errors are those of `counts_of`, and
/// a row that can't be read.
pub fn option_counts_of(rt: &HostRuntime, text: &str) -> Result<Counts> {
    let mut counts = Counts::default();
    for row in text.lines() {
        counts.join(row_counts(rt, row)?);
    }
    Ok(counts)
}

// Counts a row; a line without a semicolon is none.
fn row_counts(rt: &HostRuntime, row: &str) -> Result<Counts> {
    match row.split_once(';') {
        Some((options, sample)) => counts_with(rt, options, sample),
        None => Ok(Counts::default()),
    }
}

// Counts samples by lines with these options.
fn counts_with(rt: &HostRuntime, options: &str, samples: &str) -> Result<Counts> {
    let segmenter = segmenter_with(rt.alloc(), options)?;
    counts_of(rt, &segmenter, samples)
}

// Whether the text has just the sample's boundaries, in each encoding, and of lines the mandatory ones.
fn is_passed(
    alloc: Global,
    segmenter: &TestedSegmenter,
    sample: &Sample,
) -> Result<bool, AllocError>
    ensures { IfOk result (λ passed. IsTrue passed ↔ IsPassed segmenter.now sample.now) }
{
    let text = sample.text.as_str();
    let in_str = segmenter.places_in_str(alloc, text)?;
    let in_utf8 = segmenter.places_in_utf8(alloc, text.as_bytes())?;
    let in_utf16 = segmenter.places_in_utf16(alloc, sample.units.as_slice())?;
    let has_mandatory = has_mandatory(alloc, segmenter, sample)?;
    Ok(
        in_str == sample.places
            && in_utf8 == sample.places
            && in_utf16 == sample.unit_places
            && has_mandatory,
    )
}

// Whether the lines of the text have just the sample's mandatory boundaries; true of what isn't lines.
fn has_mandatory(
    alloc: Global,
    segmenter: &TestedSegmenter,
    sample: &Sample,
) -> Result<bool, AllocError>
    ensures { IfOk result (λ has. IsTrue has ↔ HasMandatory segmenter.now sample.now) }
{
    match segmenter.mandatory_places(alloc, sample.text.as_str())? {
        Some(places) => Ok(places == sample.mandatory),
        None => Ok(true),
    }
}
