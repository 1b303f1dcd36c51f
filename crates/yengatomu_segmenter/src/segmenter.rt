//! The segmenter that a slot holds.

ghost use Rattle.std.specs.Prelude.{◌≡◌, Some, IfOk, IfErr};
ghost use Rattle.icu_segmenter.specs.Boundaries.{HasRestart};
ghost use Rattle.icu_segmenter.specs.Abbreviations.{abbreviations_of};
ghost use Rattle.icu_segmenter.specs.Clusters.{owned_cluster_rules, owned_sentence_rules};
ghost use Rattle.icu_segmenter.specs.Lines.{owned_line_rules};
ghost use Rattle.icu_segmenter.specs.Rules.{boundaries_by};
ghost use Rattle.icu_segmenter.specs.Suppressing.{suppressing_finder};
ghost use Rattle.yengatomu_segmenter.specs.Abbreviated.{takes_abbreviations, with_abbreviations};
ghost use Rattle.yengatomu_segmenter.specs.Columns.{counted_by, has_columns};
ghost use Rattle.yengatomu_segmenter.specs.Finders.{find_by, finder_of, suppressed_by};
ghost use Rattle.icu_segmenter.specs.ScriptWords.{script_words};
ghost use Rattle.yengatomu_segmenter.specs.Loaded.{takes_words, with_dictionary};
ghost use Rattle.yengatomu_segmenter.specs.Options.{finder_asked, line_rules_for};

use crate::request::{LineOptions, Request};
use icu_segmenter::options::{LanguageIdentifier, LineBreakOptions};
use icu_segmenter::provider::{DataError, Dictionaries};
use icu_segmenter::suppress::{Abbreviations, SuppressingSegmenter};
use icu_segmenter::{
    GraphemeClusterSegmenter, LineSegmenter, SentenceSegmenter, WordSegmenter, laws,
};
use icu_segmenter_data::{grapheme_segmenter, line_segmenter, sentence_segmenter, word_segmenter};
use std::alloc::{AllocError, Global};

/// A segmenter of one kind.
#[derive(Drop)]
pub enum Segmenter {
    /// Of grapheme clusters.
    Clusters(GraphemeClusterSegmenter),
    /// Of words.
    Words(WordSegmenter),
    /// Of sentences, and the abbreviations after which they go on, if there are some.
    Sentences(SentenceSegmenter, Option<Abbreviations>),
    /// Of lines, and the clusters by which their columns are counted: by character where there are none.
    Lines(LineSegmenter, Option<GraphemeClusterSegmenter>),
}

impl Segmenter {
    /// What is asked for, in a box. The only error is `Memory`.
    pub fn boxed(alloc: Global, request: Request) -> Result<Box<Segmenter>, DataError>
        ensures made { IfOk result (λ segmenter. finder_of segmenter.value ≡ finder_asked request) }
        ensures restart { IfOk result (λ segmenter. HasRestart (find_by (finder_of segmenter.value))) }
        ensures rejected { IfErr result (λ fault. fault ≡ DataError.Memory) }
    {
        let segmenter = Segmenter::new(alloc, request)?;
        match Box::new(alloc, segmenter) {
            Ok(boxed) => Ok(boxed),
            Err(error) => Err(AllocError::from(error).into()),
        }
    }

    /// What is asked for. The only error is `Memory`.
    pub fn new(alloc: Global, request: Request) -> Result<Self, DataError>
        ensures made { IfOk result (λ segmenter. finder_of segmenter ≡ finder_asked request) }
        ensures restart { IfOk result (λ segmenter. HasRestart (find_by (finder_of segmenter))) }
        ensures rejected { IfErr result (λ fault. fault ≡ DataError.Memory) }
    {
        match request {
            Request::Clusters => clusters(alloc),
            Request::Words => words(alloc),
            Request::Sentences => sentences(alloc),
            Request::Lines(options) => lines(alloc, options),
        }
    }

    /// Whether it takes the words of scripts.
    pub fn takes_words(&self) -> bool
        ensures { result ≡ takes_words (finder_of self.now) }
    {
        match self {
            Segmenter::Words(_) | Segmenter::Lines(_, _) => true,
            Segmenter::Clusters(_) | Segmenter::Sentences(_, _) => false,
        }
    }

    /// Takes the words of scripts that it has none of yet, if it takes words.
    pub fn take_words(&mut self, dictionaries: Dictionaries)
        ensures { finder_of self.new ≡ with_dictionary (finder_of self.old) (script_words dictionaries) }
    {
        match self {
            Segmenter::Words(words) => words.load_dictionary(dictionaries),
            Segmenter::Lines(lines, _) => lines.load_dictionary(dictionaries),
            Segmenter::Clusters(_) | Segmenter::Sentences(_, _) => {}
        }
    }

    /// Whether it takes abbreviations: it is one of sentences that has none yet.
    pub fn takes_abbreviations(&self) -> bool
        ensures { result ≡ takes_abbreviations (finder_of self.now) }
    {
        match self {
            Segmenter::Sentences(_, None) => true,
            Segmenter::Sentences(_, Some(_)) => false,
            Segmenter::Clusters(_) | Segmenter::Words(_) | Segmenter::Lines(_, _) => false,
        }
    }

    /// Takes these abbreviations in the place of those that it has, if it is one of sentences.
    pub fn take_abbreviations(&mut self, abbreviations: Abbreviations)
        ensures { finder_of self.new ≡ with_abbreviations (finder_of self.old) (abbreviations_of abbreviations) }
    {
        match self {
            Segmenter::Sentences(_, known) => *known = Some(abbreviations),
            Segmenter::Clusters(_) | Segmenter::Words(_) | Segmenter::Lines(_, _) => {}
        }
    }

    /// Whether it counts columns: it is one of lines.
    pub fn has_columns(&self) -> bool
        ensures { result ≡ has_columns (finder_of self.now) }
    {
        match self {
            Segmenter::Lines(_, _) => true,
            Segmenter::Clusters(_) | Segmenter::Words(_) | Segmenter::Sentences(_, _) => false,
        }
    }

    /// Counts columns by these clusters from now on, if it is one of lines.
    pub fn count_by(&mut self, clusters: GraphemeClusterSegmenter)
        ensures { finder_of self.new ≡ counted_by (owned_cluster_rules clusters) (finder_of self.old) }
    {
        match self {
            Segmenter::Lines(_, counted) => *counted = Some(clusters),
            Segmenter::Clusters(_) | Segmenter::Words(_) | Segmenter::Sentences(_, _) => {}
        }
    }
}

fn clusters(alloc: Global) -> Result<Segmenter, DataError>
    ensures made { IfOk result (λ segmenter. finder_of segmenter ≡ finder_asked Request.Clusters) }
    ensures restart { IfOk result (λ segmenter. HasRestart (find_by (finder_of segmenter))) }
    ensures rejected { IfErr result (λ fault. fault ≡ DataError.Memory) }
{
    let clusters = grapheme_segmenter(alloc)?;
    laws::grapheme::restart(clusters.as_borrowed());
    Ok(Segmenter::Clusters(clusters))
}

fn words(alloc: Global) -> Result<Segmenter, DataError>
    ensures made { IfOk result (λ segmenter. finder_of segmenter ≡ finder_asked Request.Words) }
    ensures restart { IfOk result (λ segmenter. HasRestart (find_by (finder_of segmenter))) }
    ensures rejected { IfErr result (λ fault. fault ≡ DataError.Memory) }
{
    let words = word_segmenter(alloc)?;
    laws::word::restart(words.as_borrowed());
    Ok(Segmenter::Words(words))
}

fn sentences(alloc: Global) -> Result<Segmenter, DataError>
    ensures made { IfOk result (λ segmenter. finder_of segmenter ≡ finder_asked Request.Sentences) }
    ensures restart { IfOk result (λ segmenter. HasRestart (find_by (finder_of segmenter))) }
    ensures rejected { IfErr result (λ fault. fault ≡ DataError.Memory) }
{
    let sentences = sentence_segmenter(alloc)?;
    laws::sentence::restart(sentences.as_borrowed());
    Ok(Segmenter::Sentences(sentences, None))
}

fn lines(alloc: Global, options: LineOptions) -> Result<Segmenter, DataError>
    ensures made { IfOk result (λ segmenter. finder_of segmenter ≡ finder_asked (Request.Lines options)) }
    ensures restart { IfOk result (λ segmenter. HasRestart (find_by (finder_of segmenter))) }
    ensures rejected { IfErr result (λ fault. fault ≡ DataError.Memory) }
{
    let lines = line_segmenter_by(alloc, options)?;
    laws::line::restart(lines.as_borrowed());
    Ok(Segmenter::Lines(lines, None))
}

fn line_segmenter_by(alloc: Global, options: LineOptions) -> Result<LineSegmenter, DataError>
    ensures made { IfOk result (λ lines. owned_line_rules lines ≡ line_rules_for options.strictness options.word_option options.is_chinese_or_japanese) }
    ensures rejected { IfErr result (λ fault. fault ≡ DataError.Memory) }
{
    let chinese = LanguageIdentifier::try_from_language("zh");
    let content_locale = if options.is_chinese_or_japanese {
        chinese.as_ref()
    } else {
        None
    };
    let options = LineBreakOptions {
        strictness: Some(options.strictness),
        word_option: Some(options.word_option),
        content_locale,
    };
    line_segmenter(alloc, options)
}

/// What finds sentences, which go on after these abbreviations.
pub fn suppressing<'data>(
    sentences: &'data SentenceSegmenter,
    abbreviations: &'data Abbreviations,
) -> SuppressingSegmenter<'data>
    ensures { suppressing_finder result ≡ suppressed_by (Some (abbreviations_of abbreviations.now)) (boundaries_by (owned_sentence_rules sentences.now)) }
{
    SuppressingSegmenter {
        sentences: sentences.as_borrowed(),
        abbreviations,
    }
}
