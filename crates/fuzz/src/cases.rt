//! Cases of each kind: random data, handed to a segmenter's constructors, borrowed or given.

use crate::dice::Dice;
use crate::failure::{Failure, both, check};
use crate::machines::{dictionaries, dictionary, machine, tailoring, tailorings};
use crate::samples::random_text;
use crate::tables::{TableNumbers, cluster_table, overriding};
use crate::trial::{Seen, examine, examine_owned};
use bench::segmenter::{AnySegmenter, AnySegmenterBorrowed};
use icu_segmenter::complex::{ComplexIterator, ComplexPayloadBorrowed};
use icu_segmenter::options::{
    LanguageIdentifier, LineBreakOptions, LineBreakStrictness, LineBreakWordOption,
    SentenceBreakInvariantOptions, SentenceBreakOptions, WordBreakInvariantOptions,
    WordBreakOptions,
};
use icu_segmenter::provider::{
    DataError, Dictionaries, DictionariesBorrowed, DictionaryBreakData, LineTailorings,
    RuleBreakData, RuleBreakDataOverride, SegmenterStateMachine,
};
use icu_segmenter::{
    GraphemeClusterSegmenter, GraphemeClusterSegmenterBorrowed, LineSegmenter,
    LineSegmenterBorrowed, SentenceSegmenter, SentenceSegmenterBorrowed, WordSegmenter,
    WordSegmenterBorrowed,
};
use seg_text::scaffold::RuleBreakType;
use std::alloc::{AllocError, Global};

/// What is tried.
#[derive(Clone, Copy, Debug)]
pub enum Kind {
    /// Clusters by a machine.
    ClustersNeo,
    /// Clusters by a pair table.
    ClustersClassic,
    /// Sentences by a machine.
    SentencesNeo,
    /// Sentences by a pair table.
    SentencesClassic,
    /// Words by a machine.
    WordsNeo,
    /// Words by a pair table.
    WordsClassic,
    /// Lines by a machine, and lines wrapped.
    LinesNeo,
    /// Lines by a pair table.
    LinesClassic,
    /// Lines by the engine 17.
    Lines17,
    /// Pieces cut by a dictionary.
    Pieces,
}

impl Kind {
    /// All of them.
    pub const ALL: [Kind; 10] = [
        Kind::ClustersNeo,
        Kind::ClustersClassic,
        Kind::SentencesNeo,
        Kind::SentencesClassic,
        Kind::WordsNeo,
        Kind::WordsClassic,
        Kind::LinesNeo,
        Kind::LinesClassic,
        Kind::Lines17,
        Kind::Pieces,
    ];

    /// Tries one case, and says whether there was a memo. The errors are why the data are rejected, out of memory, and what
    /// is wrong.
    pub fn run(self, alloc: Global, dice: &mut Dice) -> Result<Seen, Failure> {
        match self {
            Kind::ClustersNeo => clusters_by_machine(alloc, dice),
            Kind::ClustersClassic => clusters_by_table(alloc, dice),
            Kind::SentencesNeo => sentences_by_machine(alloc, dice),
            Kind::SentencesClassic => sentences_by_table(alloc, dice),
            Kind::WordsNeo => words_by_machine(alloc, dice),
            Kind::WordsClassic => words_by_table(alloc, dice),
            Kind::LinesNeo => lines_by_machine(alloc, dice),
            Kind::LinesClassic => lines_by_table(alloc, dice),
            Kind::Lines17 => lines_by_turns(alloc, dice),
            Kind::Pieces => pieces(alloc, dice),
        }
    }
}

fn clusters_by_machine(alloc: Global, dice: &mut Dice) -> Result<Seen, Failure> {
    let machine = machine(alloc, dice)?;
    if dice.comes(128) {
        let clusters = GraphemeClusterSegmenter::try_new_neo(machine);
        return examine_owned(alloc, dice, clusters.map(AnySegmenter::Clusters));
    }
    let clusters = GraphemeClusterSegmenterBorrowed::new_neo(&machine);
    examine(alloc, dice, clusters.map(AnySegmenterBorrowed::Clusters))
}

fn clusters_by_table(alloc: Global, dice: &mut Dice) -> Result<Seen, Failure> {
    let table = cluster_table(alloc, dice)?;
    if dice.comes(128) {
        let clusters = GraphemeClusterSegmenter::try_new(table);
        return examine_owned(alloc, dice, clusters.map(AnySegmenter::Clusters));
    }
    let clusters = GraphemeClusterSegmenterBorrowed::new(&table);
    examine(alloc, dice, clusters.map(AnySegmenterBorrowed::Clusters))
}

fn sentences_by_machine(alloc: Global, dice: &mut Dice) -> Result<Seen, Failure> {
    let machine = machine(alloc, dice);
    let (machine, tailoring) = both(machine, tailoring(alloc, dice))?;
    if dice.comes(128) {
        let options = SentenceBreakOptions::default();
        let sentences = SentenceSegmenter::try_new_neo(machine, tailoring, options);
        return examine_owned(alloc, dice, sentences.map(AnySegmenter::Sentences));
    }
    let options = SentenceBreakInvariantOptions::default();
    let sentences = SentenceSegmenterBorrowed::new_neo(&machine, tailoring.as_ref(), options);
    examine(alloc, dice, sentences.map(AnySegmenterBorrowed::Sentences))
}

fn sentences_by_table(alloc: Global, dice: &mut Dice) -> Result<Seen, Failure> {
    let table = cluster_table(alloc, dice);
    let (table, overriding) = both(table, overriding(alloc, dice))?;
    if dice.comes(128) {
        let options = SentenceBreakOptions::default();
        let sentences = SentenceSegmenter::try_new(table, overriding, options);
        return examine_owned(alloc, dice, sentences.map(AnySegmenter::Sentences));
    }
    let options = SentenceBreakInvariantOptions::default();
    let sentences = SentenceSegmenterBorrowed::new(&table, overriding.as_ref(), options);
    examine(alloc, dice, sentences.map(AnySegmenterBorrowed::Sentences))
}

fn words_by_machine(alloc: Global, dice: &mut Dice) -> Result<Seen, Failure> {
    let machine = machine(alloc, dice);
    let (machine, clusters) = both(machine, cluster_table(alloc, dice))?;
    if dice.comes(128) {
        let options = WordBreakOptions::default();
        let words = WordSegmenter::try_new_neo_for_non_complex_scripts(machine, clusters, options);
        return examine_given_words(alloc, dice, words);
    }
    let options = WordBreakInvariantOptions::default();
    let words = WordSegmenterBorrowed::new_neo_for_non_complex_scripts(
        &machine, &clusters, options,
    );
    examine_words(alloc, dice, words)
}

// What words by a pair table take.
#[derive(Drop)]
struct WordTables {
    table: RuleBreakData,
    overriding: Option<RuleBreakDataOverride>,
    clusters: RuleBreakData,
}

fn word_tables(alloc: Global, dice: &mut Dice) -> Result<WordTables, Failure> {
    let table = TableNumbers::few(dice, true).table(alloc, dice);
    let tables = both(table, overriding(alloc, dice));
    let ((table, overriding), clusters) = both(tables, cluster_table(alloc, dice))?;
    Ok(WordTables {
        table,
        overriding,
        clusters,
    })
}

fn words_by_table(alloc: Global, dice: &mut Dice) -> Result<Seen, Failure> {
    let (tables, words) = both(word_tables(alloc, dice), dictionaries(alloc, dice))?;
    match dice.below(4) {
        0 => examine_given_words(alloc, dice, given_words(tables)),
        1 => examine_given_words(alloc, dice, given_words_with(tables, words)),
        2 => examine_words(alloc, dice, borrowed_words(&tables)),
        _ => examine_words(
            alloc,
            dice,
            borrowed_words_with(&tables, words.as_borrowed()),
        ),
    }
}

fn given_words(tables: WordTables) -> Result<WordSegmenter, DataError> {
    let WordTables {
        table,
        overriding,
        clusters,
    } = tables;
    let options = WordBreakOptions::default();
    WordSegmenter::try_new_for_non_complex_scripts(table, overriding, clusters, options)
}

fn given_words_with(tables: WordTables, words: Dictionaries) -> Result<WordSegmenter, DataError> {
    let WordTables {
        table,
        overriding,
        clusters,
    } = tables;
    let options = WordBreakOptions::default();
    WordSegmenter::try_new_dictionary(table, overriding, clusters, words, options)
}

fn borrowed_words(tables: &WordTables) -> Result<WordSegmenterBorrowed<'_>, DataError> {
    let overriding = tables.overriding.as_ref();
    let options = WordBreakInvariantOptions::default();
    WordSegmenterBorrowed::new_for_non_complex_scripts(
        &tables.table,
        overriding,
        &tables.clusters,
        options,
    )
}

fn borrowed_words_with<'a>(
    tables: &'a WordTables,
    words: DictionariesBorrowed<'a>,
) -> Result<WordSegmenterBorrowed<'a>, DataError> {
    let overriding = tables.overriding.as_ref();
    let options = WordBreakInvariantOptions::default();
    WordSegmenterBorrowed::new_dictionary(
        &tables.table,
        overriding,
        &tables.clusters,
        words,
        options,
    )
}

// Loads dictionaries of words first.
fn examine_words(
    alloc: Global,
    dice: &mut Dice,
    made: Result<WordSegmenterBorrowed<'_>, DataError>,
) -> Result<Seen, Failure> {
    let mut segmenter = made?;
    let words = dictionaries(alloc, dice)?;
    segmenter.load_dictionary(words.as_borrowed());
    examine(alloc, dice, Ok(AnySegmenterBorrowed::Words(segmenter)))
}

fn examine_given_words(
    alloc: Global,
    dice: &mut Dice,
    made: Result<WordSegmenter, DataError>,
) -> Result<Seen, Failure> {
    let mut segmenter = made?;
    segmenter.load_dictionary(dictionaries(alloc, dice)?);
    examine_owned(alloc, dice, Ok(AnySegmenter::Words(segmenter)))
}

// Options of lines. What names no language means none.
fn line_options<'a>(
    dice: &mut Dice,
    language: &'a Option<LanguageIdentifier>,
) -> LineBreakOptions<'a> {
    let strictness = match dice.below(5) {
        0 => None,
        1 => Some(LineBreakStrictness::Loose),
        2 => Some(LineBreakStrictness::Normal),
        3 => Some(LineBreakStrictness::Strict),
        _ => Some(LineBreakStrictness::Anywhere),
    };
    let word_option = match dice.below(4) {
        0 => None,
        1 => Some(LineBreakWordOption::Normal),
        2 => Some(LineBreakWordOption::BreakAll),
        _ => Some(LineBreakWordOption::KeepAll),
    };
    LineBreakOptions {
        strictness,
        word_option,
        content_locale: language.as_ref(),
    }
}

fn language(dice: &mut Dice) -> Option<LanguageIdentifier> {
    LanguageIdentifier::try_from_language(match dice.below(5) {
        0 => "ja",
        1 => "ZH",
        2 => "en",
        3 => "a1",
        _ => "",
    })
}

// What lines by a machine take.
#[derive(Drop)]
struct LineMachines {
    machine: SegmenterStateMachine,
    clusters: SegmenterStateMachine,
    tailorings: LineTailorings,
}

fn line_machines(alloc: Global, dice: &mut Dice) -> Result<LineMachines, Failure> {
    let machines = both(machine(alloc, dice), machine(alloc, dice));
    let ((machine, clusters), tailorings) = both(machines, tailorings(alloc, dice))?;
    Ok(LineMachines {
        machine,
        clusters,
        tailorings,
    })
}

fn lines_by_machine(alloc: Global, dice: &mut Dice) -> Result<Seen, Failure> {
    let language = language(dice);
    let options = line_options(dice, &language);
    let machines = line_machines(alloc, dice)?;
    if dice.comes(128) {
        return examine_given_lines(alloc, dice, given_neo_lines(machines, options));
    }
    examine_lines(alloc, dice, borrowed_neo_lines(&machines, options))
}

fn given_neo_lines(
    machines: LineMachines,
    options: LineBreakOptions<'_>,
) -> Result<LineSegmenter, DataError> {
    let LineMachines {
        machine,
        clusters,
        tailorings,
    } = machines;
    LineSegmenter::try_new_neo_for_non_complex_scripts(machine, tailorings, clusters, options)
}

fn borrowed_neo_lines<'a>(
    machines: &'a LineMachines,
    options: LineBreakOptions<'_>,
) -> Result<LineSegmenterBorrowed<'a>, DataError> {
    LineSegmenterBorrowed::new_neo_for_non_complex_scripts(
        &machines.machine,
        machines.tailorings.as_borrowed(),
        &machines.clusters,
        options,
    )
}

// How many classes pair tables of lines have, and those of the engine 17.
const LINE_CLASSES: u8 = 57;

const TURN_CLASSES: u8 = 71;

// The class of lines that has no name, which is that of complex code points.
const UNNAMED_CLASS: u8 = 46;

// What lines by a pair table take.
#[derive(Drop)]
struct LineTables {
    table: RuleBreakData,
    clusters: RuleBreakData,
}

fn line_tables(
    alloc: Global,
    dice: &mut Dice,
    count: u8,
    complex: u8,
) -> Result<LineTables, Failure> {
    let table = TableNumbers::of_lines(dice, count, complex).table(alloc, dice);
    let (table, clusters) = both(table, cluster_table(alloc, dice))?;
    Ok(LineTables { table, clusters })
}

fn lines_by_table(alloc: Global, dice: &mut Dice) -> Result<Seen, Failure> {
    let language = language(dice);
    let options = line_options(dice, &language);
    let tables = line_tables(alloc, dice, LINE_CLASSES, UNNAMED_CLASS);
    let (tables, words) = both(tables, dictionaries(alloc, dice))?;
    match dice.below(4) {
        0 => examine_given_lines(alloc, dice, given_lines(tables, options)),
        1 => examine_given_lines(alloc, dice, given_lines_with(tables, words, options)),
        2 => examine_lines(alloc, dice, borrowed_lines(&tables, options)),
        _ => examine_lines(
            alloc,
            dice,
            borrowed_lines_with(&tables, words.as_borrowed(), options),
        ),
    }
}

fn given_lines(
    tables: LineTables,
    options: LineBreakOptions<'_>,
) -> Result<LineSegmenter, DataError> {
    let LineTables { table, clusters } = tables;
    LineSegmenter::try_new_for_non_complex_scripts(table, clusters, options)
}

fn given_lines_with(
    tables: LineTables,
    words: Dictionaries,
    options: LineBreakOptions<'_>,
) -> Result<LineSegmenter, DataError> {
    let LineTables { table, clusters } = tables;
    LineSegmenter::try_new_dictionary(table, clusters, words, options)
}

fn borrowed_lines<'a>(
    tables: &'a LineTables,
    options: LineBreakOptions<'_>,
) -> Result<LineSegmenterBorrowed<'a>, DataError> {
    let LineTables { table, clusters } = tables;
    LineSegmenterBorrowed::new_for_non_complex_scripts(table, clusters, options)
}

fn borrowed_lines_with<'a>(
    tables: &'a LineTables,
    words: DictionariesBorrowed<'a>,
    options: LineBreakOptions<'_>,
) -> Result<LineSegmenterBorrowed<'a>, DataError> {
    let LineTables { table, clusters } = tables;
    LineSegmenterBorrowed::new_dictionary(table, clusters, words, options)
}

fn lines_by_turns(alloc: Global, dice: &mut Dice) -> Result<Seen, Failure> {
    let language = language(dice);
    let options = line_options(dice, &language);
    let complex = RuleBreakData::LINE_V3_PROPERTY_SA;
    let tables = line_tables(alloc, dice, TURN_CLASSES, complex)?;
    if dice.comes(128) {
        return examine_given_lines(alloc, dice, given_lines_17(tables, options));
    }
    examine_lines(alloc, dice, borrowed_lines_17(&tables, options))
}

fn given_lines_17(
    tables: LineTables,
    options: LineBreakOptions<'_>,
) -> Result<LineSegmenter, DataError> {
    let LineTables { table, clusters } = tables;
    LineSegmenter::try_new_17_for_non_complex_scripts(table, clusters, options)
}

fn borrowed_lines_17<'a>(
    tables: &'a LineTables,
    options: LineBreakOptions<'_>,
) -> Result<LineSegmenterBorrowed<'a>, DataError> {
    let LineTables { table, clusters } = tables;
    LineSegmenterBorrowed::new_17_for_non_complex_scripts(table, clusters, options)
}

// Loads dictionaries of lines first.
fn examine_lines(
    alloc: Global,
    dice: &mut Dice,
    made: Result<LineSegmenterBorrowed<'_>, DataError>,
) -> Result<Seen, Failure> {
    let mut segmenter = made?;
    let words = dictionaries(alloc, dice)?;
    segmenter.load_dictionary(words.as_borrowed());
    examine(alloc, dice, Ok(AnySegmenterBorrowed::Lines(segmenter)))
}

fn examine_given_lines(
    alloc: Global,
    dice: &mut Dice,
    made: Result<LineSegmenter, DataError>,
) -> Result<Seen, Failure> {
    let mut segmenter = made?;
    segmenter.load_dictionary(dictionaries(alloc, dice)?);
    examine_owned(alloc, dice, Ok(AnySegmenter::Lines(segmenter)))
}

// The cuts of a text as one piece are to rise strictly to its end.
fn pieces(alloc: Global, dice: &mut Dice) -> Result<Seen, Failure> {
    let (words, table) = both(dictionary(alloc, dice), cluster_table(alloc, dice))?;
    let text = random_text(alloc, dice)?;
    check_cuts(alloc, &table, &words, text.as_str())
}

fn check_cuts(
    alloc: Global,
    table: &RuleBreakData,
    words: &DictionaryBreakData,
    text: &str,
) -> Result<Seen, Failure> {
    let clusters = GraphemeClusterSegmenterBorrowed::new(table)?;
    let cuts = ComplexPayloadBorrowed::Dict(words).segment_str(text, clusters, 0);
    check_rising(collected(alloc, cuts)?.as_slice(), text.len())?;
    Ok(Seen {
        has_memo: false,
        certain: 0,
    })
}

fn collected<'s, Y: RuleBreakType<'s>>(
    alloc: Global,
    cuts: ComplexIterator<'_, 's, Y>,
) -> Result<Vec<usize>, AllocError> {
    cuts.collect(alloc)
}

fn check_rising(cuts: &[usize], end: usize) -> Result<(), Failure> {
    let mut before = 0;
    for place in cuts {
        check(*place > before, "cuts that don't rise")?;
        before = *place;
    }
    check(before == end, "cuts that don't end at the end")
}
