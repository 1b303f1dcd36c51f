//! Callers that ask for line breaks.
ghost use Rattle.std.specs.Prelude.{◌≡◌, ◌==◌, Some, IfOk, IfErr, filter};
ghost use Rattle.callers.specs.LineEnds.{ends_there, line_ends};
ghost use Rattle.icu_segmenter.specs.Boundaries.{offsets};
ghost use Rattle.icu_segmenter.specs.Faults.{IsLowestFault};
ghost use Rattle.icu_segmenter.specs.LineBreaks.{line_boundaries_of, machine_lines};
ghost use Rattle.icu_segmenter.specs.Lines.{HasFaultWith, line_rules, owned_line_rules};
ghost use Rattle.icu_segmenter.specs.Machine.{with_tailoring};
ghost use Rattle.icu_segmenter.specs.ScriptWords.{no_words};
ghost use Rattle.icu_segmenter.specs.Decoding.{utf8};

use icu_segmenter::options::{LineBreakOptions, LineBreakWordOption};
use icu_segmenter::provider::{
    DataError, LineTailorings, SegmenterStateMachine, SegmenterStateMachineOverride,
};
use icu_segmenter::{LineSegmenter, LineSegmenterBorrowed};
use std::alloc::{AllocError, Global};

/// The places where a line of the text must be broken, in bytes. Fails only when out of memory.
pub fn mandatory_breaks(
    alloc: Global,
    segmenter: LineSegmenterBorrowed<'_>,
    text: &str,
) -> Result<Vec<usize>, AllocError>
    ensures { IfOk result (λ places. places.items ≡ offsets (filter (λ boundary. boundary.status == 1) (line_boundaries_of (line_rules segmenter.entry) (utf8 text.now)))) }
{
    let mut lines = segmenter.segment_str(text);
    let mut places = Vec::new(alloc);
    while let Some(place) = lines.next() {
        if lines.is_mandatory() {
            places.push(place)?;
        }
    }
    Ok(places)
}

/// Where the lines of a text end, in bytes, if each takes what fits in a width of so many bytes, and ends where it must. What no
/// break divides stays whole, even if it is wider. Fails only when out of memory.
pub fn filled_lines(
    alloc: Global,
    segmenter: LineSegmenterBorrowed<'_>,
    text: &str,
    width: usize,
) -> Result<Vec<usize>, AllocError>
    ensures { IfOk result (λ ends. ends.items ≡ line_ends width (line_boundaries_of (line_rules segmenter.entry) (utf8 text.now))) }
{
    let mut breaks = segmenter.segment_str(text);
    let mut ends = Vec::new(alloc);
    let (mut begin, mut reached, mut must) = (0, 0, false);
    while let Some(place) = breaks.next() {
        if ends_there(width, begin, reached, must, place) {
            ends.push(reached)?;
            begin = reached;
        }
        reached = place;
        must = breaks.is_mandatory();
    }
    if begin < reached {
        ends.push(reached)?;
    }
    Ok(ends)
}

// Whether a line ends at the last boundary that it has reached.
fn ends_there(width: usize, begin: usize, reached: usize, must: bool, next: usize) -> bool
    ensures { result ≡ ends_there width begin reached must next }
{
    begin < reached && (must || next.saturating_sub(begin) > width)
}

/// A segmenter by the line machine with its tailoring for the word option `BreakAll`.
///
/// `ComplexBelow0100` where, with the tailoring, a code point below U+0100 has a script, and otherwise `SymbolOutOfRange`
/// where the tailoring doesn't fit the machine.
pub fn breakall_segmenter(
    machine: SegmenterStateMachine,
    breakall: SegmenterStateMachineOverride,
    clusters: SegmenterStateMachine,
) -> Result<LineSegmenter, DataError>
    ensures accepted { IfOk result (λ segmenter. owned_line_rules segmenter ≡ machine_lines (with_tailoring machine (Some breakall)) clusters no_words) }
    ensures rejected { IfErr result (IsLowestFault (HasFaultWith machine (Some (Some breakall)))) }
{
    let tailorings = LineTailorings {
        breakall: Some(breakall),
        ..LineTailorings::default()
    };
    let options = LineBreakOptions {
        word_option: Some(LineBreakWordOption::BreakAll),
        ..LineBreakOptions::default()
    };
    LineSegmenter::try_new_neo_for_non_complex_scripts(machine, tailorings, clusters, options)
}
