//! What a request asks for, with all that it takes.
ghost use Rattle.std.specs.Prelude.{◌≡◌, IfOk};
ghost use Rattle.std.specs.Option.{option_map};
ghost use Rattle.icu_segmenter.specs.Abbreviations.{abbreviations_of};
ghost use Rattle.icu_segmenter.specs.ScriptWords.{script_words};
ghost use Rattle.segment_output.specs.Limited.{bound_of};
ghost use Rattle.segment.specs.Job.{numbers_of, said_by, AreOptions, IsActionOf, IsAsked, IsAskedAction, IsWrapperFor, bound_in};

use crate::command::{Request, RequestedAction, Written};
use anyhow::Result;
use icu_segmenter::options::LineBreakOptions;
use icu_segmenter::wrap::Fit;
use segment_output::output::Style;
use segment_output::segmenter::{TextSegmenter, segmenter_of};
use segment_output::vocabulary::Vocabulary;
use segment_output::wrapper::limited::Setting;
use segment_output::wrapper::{Width, Wrapper, wrapper_of};
use segment_text::counts::AskedCounts;
use segment_text::limit::Limit;
use segment_text::preparation::Preparation;
use std::alloc::Global;

/// What is done to a text.
#[derive(Drop)]
pub struct Job {
    /// What is done to it first.
    pub preparation: Preparation,
    /// And what then.
    pub action: Action,
    /// Whether objects and offsets say the name of their file.
    pub names_files: bool,
}

/// What is done to a text, with all that it takes.
#[derive(Drop)]
pub enum Action {
    /// It is cut into segments: by what, and how they are written.
    Cut(TextSegmenter, Style),
    /// Where it may be split is written: by whose boundaries, and how many bytes each part has at least.
    Split(TextSegmenter, usize),
    /// Its lines are wrapped.
    Wrap(Wrapper),
    /// Its lines are chosen paragraph by paragraph.
    Paragraphs(ParagraphAction),
}

impl Action {
    /// What is written of texts that a segmenter cuts.
    pub fn of(segmenter: TextSegmenter, written: Written) -> Action
        ensures { IsActionOf segmenter written result }
    {
        match written {
            Written::Segments(style) => Action::Cut(segmenter, style),
            Written::Parts(least) => Action::Split(segmenter, least),
        }
    }
}

/// How paragraphs are set, with all that it takes.
#[derive(Drop)]
pub struct ParagraphAction {
    /// What wraps their lines.
    pub wrapper: Wrapper,
    /// How lines are chosen.
    pub fit: Fit,
    /// How many lines there may be, if that is limited.
    pub limit: Option<OwnedLimit>,
}

impl ParagraphAction {
    /// How paragraphs are set.
    pub fn setting(&self) -> Setting<'_>
        ensures fit { result.fit ≡ self.now.fit }
        ensures limit { option_map bound_of result.limit ≡ option_map bound_in self.now.limit }
    {
        Setting {
            fit: self.fit,
            limit: match &self.limit {
                Some(limit) => Some(Limit {
                    lines: limit.lines,
                    placeholder: limit.placeholder.as_str(),
                }),
                None => None,
            },
        }
    }
}

/// How many lines there may be.
#[derive(Drop)]
pub struct OwnedLimit {
    /// How many lines.
    pub lines: usize,
    /// What ends the last of them where there are more.
    pub placeholder: String,
}

// How many lines there may be, as a job keeps it. Fails only when out of memory.
fn kept_limit(alloc: Global, limit: Option<Limit<'_>>) -> Result<Option<OwnedLimit>>
    ensures { IfOk result (λ kept. option_map bound_in kept ≡ option_map bound_of limit.entry) }
{
    match limit {
        Some(limit) => Ok(Some(OwnedLimit {
            lines: limit.lines,
            placeholder: String::from_str(alloc, limit.placeholder)?,
        })),
        None => Ok(None),
    }
}

impl Job {
    /// The numbers beside that of the segments, where these are only counted.
    pub fn asked_counts(&self) -> Option<AskedCounts>
        ensures { result ≡ numbers_of self.now.action }
    {
        match &self.action {
            Action::Cut(_, Style::Counted(numbers)) => Some(*numbers),
            _ => None,
        }
    }

    /// Of this name of a file what objects and offsets say.
    pub fn said<'n>(&self, name: Option<&'n str>) -> Option<&'n str>
        ensures { option_map (λ name. name.now) result ≡ said_by self.now (option_map (λ name. name.now) name.entry) }
    {
        if self.names_files { name } else { None }
    }
}

/// What a request asks for, with these words where its kind of segments has some. Fails only when out of memory.
pub fn job_of(alloc: Global, request: &Request<'_>, words: Vocabulary) -> Result<Job>
    ensures { IfOk result (λ job. IsAsked request.now (script_words words.dictionaries) (option_map abbreviations_of words.abbreviations) words.patterns job) }
{
    let action = action_of(alloc, request, words)?;
    Ok(Job {
        preparation: request.preparation,
        action,
        names_files: false,
    })
}

fn action_of(alloc: Global, request: &Request<'_>, words: Vocabulary) -> Result<Action>
    ensures { IfOk result (λ action. IsAskedAction request.now (script_words words.dictionaries) (option_map abbreviations_of words.abbreviations) words.patterns action) }
{
    match request.action {
        RequestedAction::Cut(kind, written, engine) => {
            let segmenter = segmenter_of(alloc, kind, engine, options_of(request), words)?;
            Ok(Action::of(segmenter, written))
        }
        RequestedAction::Wrap(width) => Ok(Action::Wrap(wrapper_by(alloc, width, request, words)?)),
        RequestedAction::Paragraphs(width, setting) => {
            let limit = kept_limit(alloc, setting.limit)?;
            Ok(Action::Paragraphs(ParagraphAction {
                wrapper: wrapper_by(alloc, width, request, words)?,
                fit: setting.fit,
                limit,
            }))
        }
    }
}

// The wrapper to a width that a request asks for.
fn wrapper_by(
    alloc: Global,
    width: Width<'_>,
    request: &Request<'_>,
    words: Vocabulary,
) -> Result<Wrapper>
    ensures asked { IfOk result (λ wrapper. IsWrapperFor request.now (script_words words.dictionaries) width.entry wrapper) }
    ensures patterns { IfOk result (λ wrapper. wrapper.patterns ≡ words.patterns) }
{
    let Vocabulary {
        dictionaries,
        abbreviations: _,
        patterns,
    } = words;
    Ok(wrapper_of(alloc, width, options_of(request), dictionaries, patterns)?)
}

// The options of lines that are asked for.
fn options_of<'r>(request: &'r Request<'_>) -> LineBreakOptions<'r>
    ensures { AreOptions request.now result }
{
    LineBreakOptions {
        strictness: request.strictness,
        word_option: request.word_option,
        content_locale: request.language.as_ref(),
    }
}
