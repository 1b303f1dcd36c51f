//! The program, over any reader and writer.
ghost use Rattle.std.specs.Prelude.{◌≡◌, ◌⊎◌, option_map, IfErr, IfOk, IfSome, OnOk};
ghost use Rattle.std.specs.Io.KnownBytes.{Appends, IsAtEnd};
ghost use Rattle.segment_output.specs.Limited.{IsSetOutput};
ghost use Rattle.segment_output.specs.Paragraphs.{AppendsSome, chosen_by};
ghost use Rattle.segment_text.specs.Fault.{IsReadFault};
ghost use Rattle.segment_output.specs.Parts.{found_for, output_for};
ghost use Rattle.segment_text.specs.Size.{size_of};
ghost use Rattle.segment_text.specs.Preparation.{prepared};
ghost use Rattle.segment.specs.Job.{said_by, IsBegunBy, IsOutputOf, IsPrintedBy, IsTally, bound_in};

use crate::job::{Action, Job, ParagraphAction};
use segment_output::parts::{Printing, Splitting, print_parts};
use segment_output::splits::{TextParts, print_splits};
use segment_text::counts::write_count;
use segment_text::fault::Fault;
use segment_text::preparation::Preparation;
use segment_text::size::{Size, Tally};
use std::alloc::Global;
use std::io::{Read, Write};

/// Does to what a reader has what a job says, and writes it: each segment on a line of its own, how many there are, with the numbers beside
/// and the reader's name if it has one, where the text may be split, or the wrapped lines. What is written doesn't depend on the engine. Where texts may be split behind their
/// line feeds, lines are written as they come, and paragraphs where their lines are joined. The errors are those of the reader, which is met
/// before anything is written or after the lines or paragraphs that it gave, and of the writer.
pub fn run<I: Read, O: Write>(
    alloc: Global,
    job: &Job,
    name: Option<&str>,
    input: &mut I,
    out: &mut O,
) -> Result<Tally, Fault>
    ensures read_all { OnOk result (IsAtEnd (I.remaining input.new)) }
    ensures written { IfOk result (λ tally. IfSome (I.remaining input.old) (λ bytes. IsTally job.now bytes tally
        × AppendsSome (O.contents out.old) (O.contents out.new) (IsOutputOf job.now (option_map (λ name. name.now) name.entry) bytes))) }
    ensures begun { IfErr result (λ fault. IsReadFault fault → (out.new ≡ out.old)
        ⊎ IsBegunBy job.now (said_by job.now (option_map (λ name. name.now) name.entry)) (I.remaining input.old) (I.remaining input.new) (O.contents out.old) (O.contents out.new)) }
{
    let tally = match print_job(alloc, job, job.said(name), input, out) {
        Ok(tally) => tally,
        Err(fault) => return Err(fault),
    };
    let Some(numbers) = job.asked_counts() else {
        return Ok(tally);
    };
    match write_count(alloc, numbers, tally, name, out) {
        Ok(()) => Ok(tally),
        Err(error) => Err(Fault::of_writing(error)),
    }
}

// All that the reader has.
fn read_text<I: Read>(alloc: Global, input: &mut I) -> Result<Vec<u8>, Fault>
    ensures bytes { IfOk result (λ text. IfSome (I.remaining input.old) (λ bytes. text.items ≡ bytes)) }
    ensures end { OnOk result (IsAtEnd (I.remaining input.new)) }
{
    let mut text = Vec::new(alloc);
    input.read_to_end(&mut text).map_err(Fault::of_reading)?;
    Ok(text)
}

// The text that is made of all that the reader has, and how large that was.
fn read_prepared<I: Read>(
    alloc: Global,
    preparation: Preparation,
    input: &mut I,
) -> Result<(Vec<u8>, Size), Fault>
    ensures made { IfOk result (λ made. IfSome (I.remaining input.old) (λ bytes. (made.0.items ≡ prepared preparation bytes) × (made.1 ≡ size_of bytes))) }
    ensures end { OnOk result (IsAtEnd (I.remaining input.new)) }
{
    let text = read_text(alloc, input)?;
    let size = Size::of(text.as_slice());
    match preparation.apply(alloc, text) {
        Ok(made) => Ok((made, size)),
        Err(_) => Err(Fault::MemoryBefore),
    }
}

// Writes the segments of what a reader has, each on a line of its own, unless they are only counted, or where it may be split, or its wrapped
// lines.
fn print_job<I: Read, O: Write>(
    alloc: Global,
    job: &Job,
    file: Option<&str>,
    input: &mut I,
    out: &mut O,
) -> Result<Tally, Fault>
    ensures read_all { OnOk result (IsAtEnd (I.remaining input.new)) }
    ensures written { IfOk result (λ tally. IfSome (I.remaining input.old) (λ bytes. IsTally job.now bytes tally
        × AppendsSome (O.contents out.old) (O.contents out.new) (IsPrintedBy job.now (option_map (λ name. name.now) file.entry) bytes))) }
    ensures begun { IfErr result (λ fault. IsReadFault fault → (out.new ≡ out.old)
        ⊎ IsBegunBy job.now (option_map (λ name. name.now) file.entry) (I.remaining input.old) (I.remaining input.new) (O.contents out.old) (O.contents out.new)) }
{
    let preparation = job.preparation;
    let printing = match &job.action {
        Action::Cut(segmenter, style) => Printing::Segments(segmenter, *style, file),
        Action::Split(segmenter, least) => {
            let parts = TextParts {
                segmenter,
                least: *least,
                file,
            };
            return print_splits(alloc, parts, input, out);
        }
        Action::Wrap(wrapper) => Printing::Lines(wrapper),
        Action::Paragraphs(action) => {
            return print_paragraphs(alloc, action, preparation, input, out);
        }
    };
    let splitting = Splitting {
        printing,
        preparation,
    };
    if printing.has_parts() {
        return print_parts(alloc, splitting, input, out);
    }
    print_whole(alloc, splitting, input, out)
}

// Writes what is written of a text, all of which is read first.
fn print_whole<I: Read, O: Write>(
    alloc: Global,
    splitting: Splitting<'_>,
    input: &mut I,
    out: &mut O,
) -> Result<Tally, Fault>
    ensures read_all { OnOk result (IsAtEnd (I.remaining input.new)) }
    ensures written { IfOk result (λ tally. IfSome (I.remaining input.old) (λ bytes.
        (tally.segments ≡ found_for splitting.entry bytes) × (tally.size ≡ size_of bytes)
        × Appends (O.contents out.old) (O.contents out.new) (output_for splitting.entry bytes))) }
    ensures unwritten { IfErr result (λ fault. IsReadFault fault → out.new ≡ out.old) }
{
    let (text, size) = read_prepared(alloc, splitting.preparation, input)?;
    match splitting.printing.print(alloc, text.as_slice(), 0, out) {
        Ok(segments) => Ok(Tally { segments, size }),
        Err(error) => Err(Fault::of_writing(error)),
    }
}

// Writes the lines of the paragraphs of a text, all of which is read first.
fn print_paragraphs<I: Read, O: Write>(
    alloc: Global,
    action: &ParagraphAction,
    preparation: Preparation,
    input: &mut I,
    out: &mut O,
) -> Result<Tally, Fault>
    ensures read_all { OnOk result (IsAtEnd (I.remaining input.new)) }
    ensures written { IfOk result (λ tally. IfSome (I.remaining input.old) (λ bytes. (tally.segments ≡ 0) × (tally.size ≡ size_of bytes)
        × AppendsSome (O.contents out.old) (O.contents out.new) (IsSetOutput (chosen_by action.now.wrapper action.now.fit) (option_map bound_in action.now.limit) (prepared preparation bytes)))) }
    ensures unwritten { IfErr result (λ fault. IsReadFault fault → out.new ≡ out.old) }
{
    let (text, size) = read_prepared(alloc, preparation, input)?;
    match action
        .wrapper
        .print_set(alloc, action.setting(), text.as_slice(), out)
    {
        Ok(()) => Ok(Tally { segments: 0, size }),
        Err(error) => Err(Fault::of_writing(error)),
    }
}
