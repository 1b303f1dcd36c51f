//! The program, over any reader and writers.
ghost use Rattle.std.specs.Prelude.{◌≡◌, ◌≢◌, ◌≤◌, ℕ, List, OnOk, IfOk, IfErr, IfSome, IsErrOf};
ghost use Rattle.std.specs.Iterator.{IsFinite, Drains};
ghost use Rattle.std.specs.Io.KnownBytes.{Appends, IsAtEnd};
ghost use Rattle.std.specs.Str.{IsUtf8};
ghost use Rattle.icu_segmenter.specs.Decoding.{utf8};
ghost use Rattle.icu_segmenter.specs.Items.{Text};
ghost use Rattle.icu_segmenter.specs.Boundaries.{offsets};
ghost use Rattle.icu_segmenter.specs.Rules.{boundaries_of};
ghost use Rattle.icu_segmenter.specs.Clusters.{cluster_rules, sentence_rules};
ghost use Rattle.icu_segmenter.specs.LineBreaks.{line_boundaries_of, IsByPairTable};
ghost use Rattle.icu_segmenter.specs.Lines.{line_rules, owned_line_rules};
ghost use Rattle.icu_segmenter.specs.Words.{word_rules};
ghost use Rattle.icu_segmenter.specs.WordRules.{word_boundaries_of};
ghost use Rattle.textcut.specs.Command.{places_of, sample_lines};
ghost use Rattle.textcut.specs.Failure.{status_of, message_of, AppendsBeginning};
ghost use Rattle.textcut.specs.Lines.{lines_of};
ghost use Rattle.textcut.specs.Request.{IsReadable, output_of};
ghost use Rattle.textcut.specs.Wrapped.{printed_lines};
ghost use Rattle.icu_segmenter.specs.WrappedLines.{lines_to_come};
ghost use Rattle.textcut.specs.declared.failure.Failure.{Failure as AnyFailure};

use crate::command::Command;
use crate::failure::{Failure, PrintFailure};
use crate::lines::print_lines;
use crate::request::Request;
use crate::wrapped::print_wrapped;
use bench::clusters::cluster_machine;
use bench::dictionaries::dictionaries;
use bench::line_tables::line_table;
use bench::lines::{line_machine, line_tailorings};
use bench::pair_tables::{cluster_table, sentence_table, word_table};
use bench::sentences::sentence_machine;
use bench::turn_tables::turn_table;
use bench::words::word_machine;
use icu_segmenter::options::{
    LineBreakOptions, SentenceBreakInvariantOptions, WordBreakInvariantOptions,
};
use icu_segmenter::wrap::{LineWrapper, WrapIterator};
use icu_segmenter::{
    GraphemeClusterSegmenterBorrowed, LineSegmenter, LineSegmenterBorrowed,
    SentenceSegmenterBorrowed, WordSegmenterBorrowed,
};
use std::alloc::{AllocError, Global};
use std::io::{ErrorKind, Read, Write};
use std::str;

/// Prints the boundaries of the text that a reader gives, or its lines, as a request asks. Returns the exit status: 0; 1 where memory, the
/// reader or the writer failed, or the text isn't what is asked for.
pub fn run<I: Read, O: Write, E: Write>(
    alloc: Global,
    request: Request,
    input: &mut I,
    out: &mut O,
    err: &mut E,
) -> u8
    ensures range { result ≤ 1 }
    ensures read_all { result ≡ 0 → IsAtEnd (I.remaining input.new) }
    ensures readable { result ≡ 0 → IfSome (I.remaining input.old) (IsReadable request) }
    ensures printed { result ≡ 0 → IfSome (I.remaining input.old) (λ bytes.
        Appends (O.contents out.old) (O.contents out.new) (output_of request bytes)) }
    ensures silent { result ≡ 0 → err.new ≡ err.old }
    ensures failed { result ≢ 0 → (failure : AnyFailure) × (status_of failure ≡ result)
        × AppendsBeginning (E.contents err.old) (E.contents err.new) (message_of failure)
        × (failure ≢ Failure.WriteFailed → out.new ≡ out.old)
        × (failure ≡ Failure.NotUtf8 → IfSome (I.remaining input.old) (λ bytes. IsReadable request bytes → ⊥)) }
{
    match try_run(alloc, request, input, out) {
        Ok(()) => 0,
        Err(failure) => failure.report(err),
    }
}

fn try_run<I: Read, O: Write>(
    alloc: Global,
    request: Request,
    input: &mut I,
    out: &mut O,
) -> Result<(), Failure>
    ensures cause { result ≢ Err Failure.Usage }
    ensures unwritten { IfErr result (λ failure. failure ≢ Failure.WriteFailed → out.new ≡ out.old) }
    ensures read_all { OnOk result (IsAtEnd (I.remaining input.new)) }
    ensures readable { OnOk result (IfSome (I.remaining input.old) (IsReadable request)) }
    ensures unreadable { IsErrOf result Failure.NotUtf8 → IfSome (I.remaining input.old) (λ bytes. IsReadable request bytes → ⊥) }
    ensures printed { OnOk result (IfSome (I.remaining input.old) (λ bytes.
        Appends (O.contents out.old) (O.contents out.new) (output_of request bytes))) }
{
    let text = read_text(alloc, input)?;
    print_answer(alloc, request, text.as_slice(), out)
}

// All that the reader has.
fn read_text<I: Read>(alloc: Global, input: &mut I) -> Result<Vec<u8>, Failure>
    ensures bytes { IfOk result (λ text. IfSome (I.remaining input.old) (λ bytes. text.items ≡ bytes)) }
    ensures end { OnOk result (IsAtEnd (I.remaining input.new)) }
    ensures cause { result ≢ Err Failure.Usage × result ≢ Err Failure.NotUtf8 × result ≢ Err Failure.WriteFailed }
{
    let mut text = Vec::new(alloc);
    match input.read_to_end(&mut text) {
        Ok(_) => Ok(text),
        Err(e) if e.kind() == ErrorKind::OutOfMemory => Err(Failure::NoMemory),
        Err(_) => Err(Failure::ReadFailed),
    }
}

fn print_answer<O: Write>(
    alloc: Global,
    request: Request,
    text: &[u8],
    out: &mut O,
) -> Result<(), Failure>
    ensures readable { OnOk result (IsReadable request text.now) }
    ensures unreadable { IsErrOf result Failure.NotUtf8 → IsReadable request text.now → ⊥ }
    ensures printed { OnOk result (Appends (O.contents out.old) (O.contents out.new) (output_of request text.now)) }
    ensures unwritten { IfErr result (λ failure. failure ≢ Failure.WriteFailed → out.new ≡ out.old) }
    ensures cause { result ≢ Err Failure.Usage × result ≢ Err Failure.ReadFailed }
{
    match request {
        Request::Boundaries(command) => Ok(print_boundaries(alloc, command, text, out)?),
        Request::Wrapped(columns) => print_wrapped_text(alloc, columns, text, out),
    }
}

fn print_boundaries<O: Write>(
    alloc: Global,
    command: Command,
    text: &[u8],
    out: &mut O,
) -> Result<(), PrintFailure>
    ensures printed { OnOk result
        (Appends (O.contents out.old) (O.contents out.new) (lines_of (places_of command text.now))) }
    ensures unwritten { IsErrOf result PrintFailure.NoMemory → out.new ≡ out.old }
{
    match command {
        Command::GraphemeClassic => print_clusters_by_table(alloc, text, out),
        Command::GraphemeNeo => print_clusters_by_machine(alloc, text, out),
        Command::SentenceClassic => print_sentences_by_table(alloc, text, out),
        Command::SentenceNeo => print_sentences_by_machine(alloc, text, out),
        Command::WordClassic => print_words_by_table(alloc, text, out),
        Command::WordNeo => print_words_by_machine(alloc, text, out),
        Command::LineClassic => print_line_breaks_by_table(alloc, text, out),
        Command::Line17 => print_line_breaks_by_turns(alloc, text, out),
        Command::LineNeo => print_line_breaks_by_machine(alloc, text, out),
    }
}

fn print_clusters_by_table<O: Write>(
    alloc: Global,
    text: &[u8],
    out: &mut O,
) -> Result<(), PrintFailure>
    ensures printed { OnOk result
        (Appends (O.contents out.old) (O.contents out.new) (lines_of (places_of Command.GraphemeClassic text.now))) }
    ensures unwritten { IsErrOf result PrintFailure.NoMemory → out.new ≡ out.old }
{
    let table = cluster_table(alloc)?;
    let Ok(segmenter) = GraphemeClusterSegmenterBorrowed::new(&table) else {
        unreachable!()
    };
    print_clusters(segmenter, text, out)
}

fn print_clusters_by_machine<O: Write>(
    alloc: Global,
    text: &[u8],
    out: &mut O,
) -> Result<(), PrintFailure>
    ensures printed { OnOk result
        (Appends (O.contents out.old) (O.contents out.new) (lines_of (places_of Command.GraphemeNeo text.now))) }
    ensures unwritten { IsErrOf result PrintFailure.NoMemory → out.new ≡ out.old }
{
    let machine = cluster_machine(alloc)?;
    let Ok(segmenter) = GraphemeClusterSegmenterBorrowed::new_neo(&machine) else {
        unreachable!()
    };
    print_clusters(segmenter, text, out)
}

fn print_sentences_by_table<O: Write>(
    alloc: Global,
    text: &[u8],
    out: &mut O,
) -> Result<(), PrintFailure>
    ensures printed { OnOk result
        (Appends (O.contents out.old) (O.contents out.new) (lines_of (places_of Command.SentenceClassic text.now))) }
    ensures unwritten { IsErrOf result PrintFailure.NoMemory → out.new ≡ out.old }
{
    let table = sentence_table(alloc)?;
    let options = SentenceBreakInvariantOptions::default();
    let Ok(segmenter) = SentenceSegmenterBorrowed::new(&table, None, options) else {
        unreachable!()
    };
    print_sentences(segmenter, text, out)
}

fn print_sentences_by_machine<O: Write>(
    alloc: Global,
    text: &[u8],
    out: &mut O,
) -> Result<(), PrintFailure>
    ensures printed { OnOk result
        (Appends (O.contents out.old) (O.contents out.new) (lines_of (places_of Command.SentenceNeo text.now))) }
    ensures unwritten { IsErrOf result PrintFailure.NoMemory → out.new ≡ out.old }
{
    let machine = sentence_machine(alloc)?;
    let options = SentenceBreakInvariantOptions::default();
    let Ok(segmenter) = SentenceSegmenterBorrowed::new_neo(&machine, None, options) else {
        unreachable!()
    };
    print_sentences(segmenter, text, out)
}

fn print_words_by_table<O: Write>(
    alloc: Global,
    text: &[u8],
    out: &mut O,
) -> Result<(), PrintFailure>
    ensures printed { OnOk result
        (Appends (O.contents out.old) (O.contents out.new) (lines_of (places_of Command.WordClassic text.now))) }
    ensures unwritten { IsErrOf result PrintFailure.NoMemory → out.new ≡ out.old }
{
    let table = word_table(alloc)?;
    let clusters = cluster_table(alloc)?;
    let dictionaries = dictionaries(alloc)?;
    let borrowed = dictionaries.as_borrowed();
    let options = WordBreakInvariantOptions::default();
    let Ok(segmenter) = WordSegmenterBorrowed::new_dictionary(
        &table, None, &clusters, borrowed, options,
    ) else {
        unreachable!()
    };
    print_words(segmenter, text, out)
}

fn print_words_by_machine<O: Write>(
    alloc: Global,
    text: &[u8],
    out: &mut O,
) -> Result<(), PrintFailure>
    ensures printed { OnOk result
        (Appends (O.contents out.old) (O.contents out.new) (lines_of (places_of Command.WordNeo text.now))) }
    ensures unwritten { IsErrOf result PrintFailure.NoMemory → out.new ≡ out.old }
{
    let machine = word_machine(alloc)?;
    let clusters = cluster_table(alloc)?;
    let dictionaries = dictionaries(alloc)?;
    let options = WordBreakInvariantOptions::default();
    let Ok(mut segmenter) = WordSegmenterBorrowed::new_neo_for_non_complex_scripts(
        &machine, &clusters, options,
    ) else {
        unreachable!()
    };
    segmenter.load_dictionary(dictionaries.as_borrowed());
    print_words(segmenter, text, out)
}

fn print_line_breaks_by_table<O: Write>(
    alloc: Global,
    text: &[u8],
    out: &mut O,
) -> Result<(), PrintFailure>
    ensures printed { OnOk result
        (Appends (O.contents out.old) (O.contents out.new) (lines_of (places_of Command.LineClassic text.now))) }
    ensures unwritten { IsErrOf result PrintFailure.NoMemory → out.new ≡ out.old }
{
    let table = line_table(alloc)?;
    let clusters = cluster_table(alloc)?;
    let dictionaries = dictionaries(alloc)?;
    let words = dictionaries.as_borrowed();
    let options = LineBreakOptions::default();
    let Ok(lines) = LineSegmenterBorrowed::new_dictionary(&table, &clusters, words, options) else {
        unreachable!()
    };
    print_line_breaks(lines, text, out)
}

fn print_line_breaks_by_turns<O: Write>(
    alloc: Global,
    text: &[u8],
    out: &mut O,
) -> Result<(), PrintFailure>
    ensures printed { OnOk result
        (Appends (O.contents out.old) (O.contents out.new) (lines_of (places_of Command.Line17 text.now))) }
    ensures unwritten { IsErrOf result PrintFailure.NoMemory → out.new ≡ out.old }
{
    let table = turn_table(alloc)?;
    let clusters = cluster_table(alloc)?;
    let dictionaries = dictionaries(alloc)?;
    let options = LineBreakOptions::default();
    let Ok(mut lines) = LineSegmenterBorrowed::new_17_for_non_complex_scripts(
        &table, &clusters, options,
    ) else {
        unreachable!()
    };
    lines.load_dictionary(dictionaries.as_borrowed());
    print_line_breaks(lines, text, out)
}

fn print_line_breaks_by_machine<O: Write>(
    alloc: Global,
    text: &[u8],
    out: &mut O,
) -> Result<(), PrintFailure>
    ensures printed { OnOk result
        (Appends (O.contents out.old) (O.contents out.new) (lines_of (places_of Command.LineNeo text.now))) }
    ensures unwritten { IsErrOf result PrintFailure.NoMemory → out.new ≡ out.old }
{
    let lines = lines_by_machine(alloc)?;
    print_line_breaks(lines.as_borrowed(), text, out)
}

fn print_wrapped_text<O: Write>(
    alloc: Global,
    columns: usize,
    text: &[u8],
    out: &mut O,
) -> Result<(), Failure>
    ensures readable { OnOk result (IsUtf8 text.now) }
    ensures unreadable { IsErrOf result Failure.NotUtf8 → IsUtf8 text.now → ⊥ }
    ensures printed { OnOk result
        (Appends (O.contents out.old) (O.contents out.new) (output_of (Request.Wrapped columns) text.now)) }
    ensures unwritten { IfErr result (λ failure. failure ≢ Failure.WriteFailed → out.new ≡ out.old) }
    ensures cause { result ≢ Err Failure.Usage × result ≢ Err Failure.ReadFailed }
{
    let text = str::from_utf8(text).map_err(|_| Failure::NotUtf8)?;
    print_wrapped_str(alloc, columns, text, out)?;
    Ok(())
}

fn print_wrapped_str<O: Write>(
    alloc: Global,
    columns: usize,
    text: &str,
    out: &mut O,
) -> Result<(), PrintFailure>
    ensures printed { OnOk result
        (Appends (O.contents out.old) (O.contents out.new) (output_of (Request.Wrapped columns) text.now)) }
    ensures unwritten { IsErrOf result PrintFailure.NoMemory → out.new ≡ out.old }
{
    let lines = lines_by_machine(alloc)?;
    let Ok(wrapper) = LineWrapper::new(lines.as_borrowed()) else {
        unreachable!()
    };
    print_wrapped_lines(wrapper.wrap_str(text, columns), out)
}

fn print_wrapped_lines<O: Write>(
    lines: WrapIterator<'_, '_>,
    out: &mut O,
) -> Result<(), PrintFailure>
    ensures printed { OnOk result
        (Appends (O.contents out.old) (O.contents out.new) (printed_lines (lines_to_come lines.entry))) }
    ensures cause { IfErr result (λ failure. failure ≡ PrintFailure.WriteFailed) }
{
    print_wrapped(lines, out).map_err(|_| PrintFailure::WriteFailed)
}

// The sample lines by machine, with the sample dictionaries.
fn lines_by_machine(alloc: Global) -> Result<LineSegmenter, AllocError>
    ensures breaks { IfOk result (λ lines. (text : Text)
        → line_boundaries_of (owned_line_rules lines) text ≡ line_boundaries_of sample_lines text) }
    ensures finder { IfOk result (λ lines. IsByPairTable (owned_line_rules lines).finder → ⊥) }
{
    let machine = line_machine(alloc)?;
    let clusters = cluster_machine(alloc)?;
    let tailorings = line_tailorings(alloc)?;
    let dictionaries = dictionaries(alloc)?;
    let options = LineBreakOptions::default();
    let Ok(mut lines) = LineSegmenter::try_new_neo_for_non_complex_scripts(
        machine, tailorings, clusters, options,
    ) else {
        unreachable!()
    };
    lines.load_dictionary(dictionaries);
    Ok(lines)
}

fn print_clusters<O: Write>(
    clusters: GraphemeClusterSegmenterBorrowed<'_>,
    text: &[u8],
    out: &mut O,
) -> Result<(), PrintFailure>
    ensures printed { OnOk result (Appends (O.contents out.old) (O.contents out.new)
        (lines_of (offsets (boundaries_of (cluster_rules clusters.entry) (utf8 text.now))))) }
    ensures cause { IfErr result (λ failure. failure ≡ PrintFailure.WriteFailed) }
{
    print_numbers(clusters.segment_utf8(text), out)
}

fn print_sentences<O: Write>(
    sentences: SentenceSegmenterBorrowed<'_>,
    text: &[u8],
    out: &mut O,
) -> Result<(), PrintFailure>
    ensures printed { OnOk result (Appends (O.contents out.old) (O.contents out.new)
        (lines_of (offsets (boundaries_of (sentence_rules sentences.entry) (utf8 text.now))))) }
    ensures cause { IfErr result (λ failure. failure ≡ PrintFailure.WriteFailed) }
{
    print_numbers(sentences.segment_utf8(text), out)
}

fn print_words<O: Write>(
    words: WordSegmenterBorrowed<'_>,
    text: &[u8],
    out: &mut O,
) -> Result<(), PrintFailure>
    ensures printed { OnOk result (Appends (O.contents out.old) (O.contents out.new)
        (lines_of (offsets (word_boundaries_of (word_rules words.entry) (utf8 text.now))))) }
    ensures cause { IfErr result (λ failure. failure ≡ PrintFailure.WriteFailed) }
{
    print_numbers(words.segment_utf8(text), out)
}

fn print_line_breaks<O: Write>(
    lines: LineSegmenterBorrowed<'_>,
    text: &[u8],
    out: &mut O,
) -> Result<(), PrintFailure>
    ensures printed { OnOk result (Appends (O.contents out.old) (O.contents out.new)
        (lines_of (offsets (line_boundaries_of (line_rules lines.entry) (utf8 text.now))))) }
    ensures cause { IfErr result (λ failure. failure ≡ PrintFailure.WriteFailed) }
{
    print_numbers(lines.segment_utf8(text), out)
}

fn print_numbers<N: Iterator<Item = usize> + Drop, O: Write>(
    numbers: N,
    out: &mut O,
) -> Result<(), PrintFailure>
    requires can { N.can_next numbers }
    requires ends { IsFinite (N.remaining numbers) }
    ensures printed { OnOk result ((given : List ℕ) × Drains N.next_gives numbers given
        × Appends (O.contents out.old) (O.contents out.new) (lines_of given)) }
    ensures cause { IfErr result (λ failure. failure ≡ PrintFailure.WriteFailed) }
{
    print_lines(numbers, out).map_err(|_| PrintFailure::WriteFailed)
}
