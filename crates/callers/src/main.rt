//! Callers of the segmenters, proved by the gate. docs/GUIDE.md shows them.
//!
//! The program calls each once, on the rows that the segmenters' pages show, and prints what it answers.
#![tactic(auto)]

mod changed;
mod clusters;
mod data;
mod lines;
mod memo;
mod sentences;
mod traits;
mod words;
mod wrapped;

use crate::changed::words_split_at_low_lines;
use crate::clusters::{caret_moves, cluster_places, first_clusters};
use crate::data::{runs_by_machine, runs_by_table};
use crate::lines::{breakall_segmenter, filled_lines, mandatory_breaks};
use crate::memo::{cluster_look_ups, read_count};
use crate::sentences::{last_sentence, sentence_count, sentence_count_by_blocks, sentence_texts};
use crate::traits::{boundaries_by_fewer, cuts_by_word};
use crate::words::{highlighted, word_count, words as words_of};
use crate::wrapped::paragraph_height;
use anyhow::Result;
use bench::clusters::cluster_machine;
use bench::dictionaries::dictionaries;
use bench::lines::{breakall, line_machine};
use bench::pair_tables::{cluster_table, word_table};
use bench::sentences::sentence_machine;
use icu_segmenter::options::{
    LineBreakOptions, SentenceBreakInvariantOptions, WordBreakInvariantOptions,
};
use icu_segmenter::provider::LineTailoringsBorrowed;
use icu_segmenter::wrap::LineWrapper;
use icu_segmenter::{
    GraphemeClusterSegmenterBorrowed, LineSegmenterBorrowed, SentenceSegmenterBorrowed,
    WordSegmenterBorrowed,
};
use seg_memo::configuration::Cell;
use std::alloc::AllocError;
use std::mem::size_of;

fn main(rt: HostRuntime) -> Result<()> {
    find_all(&rt)
}

fn find_all(rt: &HostRuntime) -> Result<()> {
    find_clusters(rt)?;
    find_sentences(rt)?;
    find_lines(rt)?;
    find_lines_beside_letters(rt)?;
    find_runs(rt)?;
    find_by_traits(rt)?;
    find_words(rt)?;
    find_words_by_a_changed_rule(rt)
}

// Prints places that are found.
fn print(rt: &HostRuntime, subject: &str, places: Result<Vec<usize>, AllocError>) -> Result<()> {
    let places = places?;
    println!(rt; "{subject}: {:?}", places.as_slice())?;
    Ok(())
}

// Prints a number that is found.
fn print_count(rt: &HostRuntime, subject: &str, count: u64) -> Result<()> {
    println!(rt; "{subject}: {count}")?;
    Ok(())
}

fn find_clusters(rt: &HostRuntime) -> Result<()> {
    let machine = cluster_machine(rt.alloc())?;
    print_clusters(rt, GraphemeClusterSegmenterBorrowed::new_neo(&machine)?)
}

fn print_clusters(rt: &HostRuntime, clusters: GraphemeClusterSegmenterBorrowed<'_>) -> Result<()> {
    let alloc = rt.alloc();
    let places = cluster_places(alloc, clusters, "e\u{301}a");
    print(rt, "clusters of e, an accent and a", places)?;
    let places = clusters.segment_utf16(&[0x65, 0x301, 0x61]).collect(alloc);
    print(rt, "the same in UTF-16", places)?;
    print_moves(rt, clusters)?;
    let look_ups = cluster_look_ups(alloc, clusters, "ab")?;
    print_count(rt, "look-ups in ab", look_ups as u64)
}

fn print_moves(rt: &HostRuntime, clusters: GraphemeClusterSegmenterBorrowed<'_>) -> Result<()> {
    let first = first_clusters(clusters, "ae\u{301}bc", 2);
    println!(rt; "the first two clusters of a, e, an accent and bc: {first:?}")?;
    let (left, right) = caret_moves(clusters, "ab\ne\u{301}a".as_bytes(), 6);
    println!(rt; "a caret before the last a of two lines moves to {left:?} and {right:?}")?;
    Ok(())
}

fn find_sentences(rt: &HostRuntime) -> Result<()> {
    let machine = sentence_machine(rt.alloc())?;
    let options = SentenceBreakInvariantOptions::default();
    print_sentences(
        rt,
        SentenceSegmenterBorrowed::new_neo(&machine, None, options)?,
    )
}

fn print_sentences(rt: &HostRuntime, sentences: SentenceSegmenterBorrowed<'_>) -> Result<()> {
    let places = sentences.segment_str("Hi. Bye.").collect(rt.alloc());
    print(rt, "sentences of Hi. Bye.", places)?;
    let texts = sentence_texts(rt.alloc(), sentences, "Hi. Bye.")?;
    println!(rt; "as text: {:?}", texts.as_slice())?;
    print_counts(rt, sentences)
}

fn print_counts(rt: &HostRuntime, sentences: SentenceSegmenterBorrowed<'_>) -> Result<()> {
    let last = last_sentence(sentences, "Hi. Bye.");
    println!(rt; "the last of them: {last:?}")?;
    let count = sentence_count(sentences, b"Hi. Bye.");
    print_count(rt, "sentences there", count as u64)?;
    let by_blocks = sentence_count_by_blocks(sentences, b"Hi. Bye.\nHello.");
    println!(rt; "sentences of two blocks: {by_blocks:?}")?;
    Ok(())
}

fn find_lines(rt: &HostRuntime) -> Result<()> {
    let alloc = rt.alloc();
    let machine = line_machine(alloc)?;
    let clusters = cluster_machine(alloc)?;
    let lines = LineSegmenterBorrowed::new_neo_for_non_complex_scripts(
        &machine,
        LineTailoringsBorrowed::default(),
        &clusters,
        LineBreakOptions::default(),
    )?;
    print_lines(rt, lines)
}

fn print_lines(rt: &HostRuntime, lines: LineSegmenterBorrowed<'_>) -> Result<()> {
    let alloc = rt.alloc();
    let places = lines.segment_str("a b\nc").collect(alloc);
    print(rt, "lines of a b, a line feed and c", places)?;
    let places = mandatory_breaks(alloc, lines, "a b\nc");
    print(rt, "where they must be broken", places)?;
    let ends = filled_lines(alloc, lines, "one two three\nfour abcdefgh", 8);
    print(rt, "lines of a width of 8", ends)?;
    print_height(rt, LineWrapper::new(lines)?)
}

fn print_height(rt: &HostRuntime, wrapper: LineWrapper<'_>) -> Result<()> {
    let text = "Hello World. Xin chào thế giới!";
    let height = paragraph_height(wrapper, text, 12);
    println!(rt; "height of {text} at 12 columns: {height}")?;
    Ok(())
}

fn find_lines_beside_letters(rt: &HostRuntime) -> Result<()> {
    let alloc = rt.alloc();
    let tailoring = breakall(alloc)?;
    let clusters = cluster_machine(alloc)?;
    let lines = breakall_segmenter(line_machine(alloc)?, tailoring, clusters)?;
    print_lines_beside_letters(rt, lines.as_borrowed())
}

fn print_lines_beside_letters(rt: &HostRuntime, lines: LineSegmenterBorrowed<'_>) -> Result<()> {
    let places = lines.segment_str("ab c").collect(rt.alloc());
    print(rt, "lines of ab c beside each letter", places)
}

fn find_runs(rt: &HostRuntime) -> Result<()> {
    let by_machine = runs_by_machine(rt.alloc())?;
    print_runs(rt, "runs by a machine", by_machine.as_borrowed())?;
    let by_table = runs_by_table(rt.alloc())?;
    print_runs(rt, "runs by a pair table", by_table.as_borrowed())?;
    let reads = read_count(rt.alloc(), "two  words")?;
    print_count(rt, "transitions that are read there", reads as u64)
}

fn print_runs(
    rt: &HostRuntime,
    subject: &str,
    runs: GraphemeClusterSegmenterBorrowed<'_>,
) -> Result<()> {
    print(rt, subject, cluster_places(rt.alloc(), runs, "two  words"))
}

fn find_by_traits(rt: &HostRuntime) -> Result<()> {
    let boundaries = boundaries_by_fewer(rt.alloc(), b"aaac")?;
    println!(rt;
        "boundaries of aaac by fewer transitions: {:?}",
        boundaries.as_slice()
    )?;
    print_count(rt, "bytes of a memo's cell", size_of::<Cell>() as u64)?;
    find_cuts(rt)
}

fn find_cuts(rt: &HostRuntime) -> Result<()> {
    let machine = cluster_machine(rt.alloc())?;
    let clusters = GraphemeClusterSegmenterBorrowed::new_neo(&machine)?;
    let cuts = cuts_by_word(
        rt.alloc(),
        clusters,
        &[0xE01, 0xE01],
        "\u{E01}\u{E01}\u{E34}",
    );
    print(rt, "cuts by a word that would end within a cluster", cuts)
}

fn find_words(rt: &HostRuntime) -> Result<()> {
    let alloc = rt.alloc();
    let table = word_table(alloc)?;
    let clusters = cluster_table(alloc)?;
    let dictionaries = dictionaries(alloc)?;
    let borrowed = dictionaries.as_borrowed();
    let options = WordBreakInvariantOptions::default();
    let words = WordSegmenterBorrowed::new_dictionary(&table, None, &clusters, borrowed, options)?;
    print_words(rt, words)
}

fn print_words(rt: &HostRuntime, words: WordSegmenterBorrowed<'_>) -> Result<()> {
    let alloc = rt.alloc();
    for (place, word, word_type) in words_of(alloc, words, "ภาษาไทย 42.")? {
        println!(rt; "a word of ภาษาไทย 42.: {place} {word} {word_type:?}")?;
    }
    let shown = highlighted(alloc, words, "ภาษาไทย 42.", "ไทย")?;
    println!(rt; "found there: {}", shown.as_str())?;
    print_count(rt, "words there", word_count(words, "ภาษาไทย 42.") as u64)
}

fn find_words_by_a_changed_rule(rt: &HostRuntime) -> Result<()> {
    let words = words_split_at_low_lines(rt.alloc())?;
    print_count(
        rt,
        "words of a_b, where a low line joins nothing",
        word_count(words.as_borrowed(), "a_b") as u64,
    )
}
