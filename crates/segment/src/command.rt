//! The command line.
ghost use Rattle.std.specs.Prelude.{◌≡◌, ◌≢◌, ◌<◌, ◌==◌, false, Some, codes, length, IfOk, MatchResult, OnOk};
ghost use Rattle.std.specs.List.{before_first, list_any};
ghost use Rattle.std.specs.Option.{option_map, option_map_or};
ghost use Rattle.std.specs.Str.{str_to_ascii_lowercase};
ghost use Rattle.icu_segmenter.specs.declared.provider.ComplexScript.{ComplexScript as AnyScript};
ghost use Rattle.clap.specs.Matches.{found_of};
ghost use Rattle.segment_output.specs.declared.segmenter.Kind.{Kind as AnyKind};
ghost use Rattle.segment.specs.Command.{is_alone, is_control, kind_word, language_part, strictness_word, word_break_word, ArePaired, HasScriptWord, IsChoice, IsEngine, IsRequest, IsStyle, IsWritten, IsRequestedAction, IsIndent, IsLimit, IsWrapping, IsWidth, AreColumns, AreNumbers, AreTabs, IsPreparation};

use anyhow::{Context, Result, bail, ensure};
use clap::ArgMatches;
use icu_segmenter::options::{LanguageIdentifier, LineBreakStrictness, LineBreakWordOption};
use icu_segmenter::provider::ComplexScript;
use icu_segmenter::wrap::{Fit, utf8_columns};
use segment_output::output::Style;
use segment_output::segmenter::{Engine, Kind};
use segment_output::wrapper::Width;
use segment_output::wrapper::limited::Setting;
use segment_text::counts::AskedCounts;
use segment_text::limit::Limit;
use segment_text::preparation::Preparation;

/// What is written of a text that is cut.
#[derive(Clone, Copy)]
pub enum Written {
    /// Its segments, in a style.
    Segments(Style),
    /// Where parts of it begin and end that may be cut apart, of so many bytes at least.
    Parts(usize),
}

/// What is done to a text.
#[derive(Clone, Copy)]
pub enum RequestedAction<'a> {
    /// It is cut into segments: what is found, what is written of it, and what finds the boundaries.
    Cut(Kind, Written, Engine),
    /// Its lines are wrapped.
    Wrap(Width<'a>),
    /// Its lines are chosen paragraph by paragraph.
    Paragraphs(Width<'a>, Setting<'a>),
}

/// What the command line asks for.
#[derive(Drop)]
pub struct Request<'a> {
    /// What is done to each text first.
    pub preparation: Preparation,
    /// What is done.
    pub action: RequestedAction<'a>,
    /// Of lines, how strict they are.
    pub strictness: Option<LineBreakStrictness>,
    /// Of lines, whether they break within words.
    pub word_option: Option<LineBreakWordOption>,
    /// Of lines and sentences, the language of the text.
    pub language: Option<LanguageIdentifier>,
}

// Of lines that are wrapped, where the command line says nothing.
const DEFAULT_COLUMNS: usize = 80;

// Of tabs before lines are wrapped, where the command line says nothing.
const DEFAULT_TABS: usize = 8;

/// What the arguments of a kind of segments ask for. The errors are a word that isn't a kind, lines or tabs without columns, an indent that
/// leaves none or has control characters, parts of no bytes, no line or a placeholder like such an indent, a language that isn't one, a dictionary without a script, and a script that is named twice.
pub fn request_of<'a>(kind: &str, matches: &ArgMatches<'a>) -> Result<Request<'a>>
    ensures { IfOk result (IsRequest kind.now (found_of matches.now)) }
{
    check_dictionaries(matches)?;
    Ok(Request {
        preparation: preparation_of(kind, matches)?,
        action: action_of(kind, matches)?,
        strictness: strictness_of(matches.get_str("strictness")),
        word_option: word_option_of(matches.get_str("word-break")),
        language: language_of(matches.get_str("lang"))?,
    })
}

// The error is a dictionary without a script, or a script that is named twice.
fn check_dictionaries(matches: &ArgMatches<'_>) -> Result<()>
    ensures { OnOk result (ArePaired (found_of matches.now)) }
{
    let scripts = matches.get_strs("script");
    ensure!(
        count_of(matches.get_strs("dictionary")) == count_of(scripts),
        "each '--dictionary <FILE>' needs a '--script <script>' of its own"
    );
    match scripts {
        Some(scripts) => check_scripts(scripts),
        None => Ok(()),
    }
}

fn count_of(values: Option<&[&str]>) -> usize
    ensures { result ≡ option_map_or (λ values. length values.now) values.entry 0 }
{
    match values {
        Some(values) => values.len(),
        None => 0,
    }
}

// The error is a script that is named twice.
fn check_scripts(scripts: &[&str]) -> Result<()> {
    for index in 0..scripts.len() {
        let script = scripts[index];
        ensure!(
            !scripts[..index].contains(&script),
            "the argument '--script {script}' cannot be used twice"
        );
    }
    Ok(())
}

fn action_of<'a>(kind: &str, matches: &ArgMatches<'a>) -> Result<RequestedAction<'a>>
    ensures { IfOk result (IsRequestedAction kind.now (found_of matches.now)) }
{
    if kind == "wrap" {
        let width = width_of(matches)?;
        let limit = limit_of(matches, width.columns)?;
        return Ok(wrapped_to(width, limit, matches));
    }
    let kind = kind_of(kind, matches.get_flag("words"))?;
    let engine = engine_of(matches.get_str("engine"))?;
    Ok(RequestedAction::Cut(kind, written_of(matches)?, engine))
}

// How lines are wrapped to a width, as many as there may be.
fn wrapped_to<'a>(
    width: Width<'a>,
    limit: Option<Limit<'a>>,
    matches: &ArgMatches<'a>,
) -> RequestedAction<'a>
    ensures { IsWrapping (found_of matches.now) width.entry limit.entry result }
{
    if matches.get_flag("balanced") {
        let fit = Fit::Balanced;
        RequestedAction::Paragraphs(width, Setting { fit, limit })
    } else if matches.get_str("hyphenate").is_some() || limit.is_some() {
        let fit = Fit::First;
        RequestedAction::Paragraphs(width, Setting { fit, limit })
    } else {
        RequestedAction::Wrap(width)
    }
}

// How many lines there may be. The errors are none, a placeholder that leaves no column, and one that has control characters.
fn limit_of<'a>(matches: &ArgMatches<'a>, columns: usize) -> Result<Option<Limit<'a>>>
    ensures { IfOk result (IsLimit (found_of matches.now) columns) }
{
    let lines: Option<usize> = matches.get_one("max-lines");
    let Some(lines) = lines else {
        return Ok(None);
    };
    ensure!(lines > 0, "there is at least 1 line");
    let placeholder = matches.get_str("placeholder").unwrap_or(" [...]");
    ensure!(
        !has_control(placeholder.as_bytes()),
        "a placeholder has no tabs nor other control characters"
    );
    ensure!(
        utf8_columns(placeholder.as_bytes()) < columns as u128,
        "lines have at least 1 column beside a placeholder"
    );
    Ok(Some(Limit { lines, placeholder }))
}

// The errors are a line without columns, and an indent that leaves none or has control characters.
fn width_of<'a>(matches: &ArgMatches<'a>) -> Result<Width<'a>>
    ensures { IfOk result (IsWidth (found_of matches.now)) }
{
    let columns = columns_of(matches);
    ensure!(columns > 0, "lines have at least 1 column");
    let indent = matches.get_str("indent").unwrap_or("");
    let first_indent = matches.get_str("first-indent").unwrap_or(indent);
    check_indent(indent, columns)?;
    check_indent(first_indent, columns)?;
    Ok(Width {
        columns,
        first_indent,
        indent,
        breaks_words: matches.get_flag("break-words"),
        by_cluster: matches.get_flag("by-cluster"),
    })
}

// The errors are an indent that leaves a line no column, and one that has control characters.
fn check_indent(indent: &str, columns: usize) -> Result<()>
    ensures { OnOk result (IsIndent columns indent.now) }
{
    ensure!(
        !has_control(indent.as_bytes()),
        "an indent has no tabs nor other control characters"
    );
    ensure!(
        utf8_columns(indent.as_bytes()) < columns as u128,
        "lines have at least 1 column behind an indent"
    );
    Ok(())
}

// Whether a text has control characters of ASCII.
fn has_control(text: &[u8]) -> bool
    ensures { result ≡ list_any is_control text.now }
{
    text.iter().any(|byte| *byte < b' ' || *byte == 0x7F)
}

fn columns_of(matches: &ArgMatches<'_>) -> usize
    ensures { AreColumns (found_of matches.now) result }
{
    let option: Option<usize> = matches.get_one("width");
    match option {
        Some(columns) => columns,
        None => matches.get_one("columns").unwrap_or(DEFAULT_COLUMNS),
    }
}

// The error is a tab of no columns.
fn preparation_of(kind: &str, matches: &ArgMatches<'_>) -> Result<Preparation>
    ensures { IfOk result (IsPreparation kind.now (found_of matches.now)) }
{
    let tabs = tabs_of(kind, matches)?;
    Ok(Preparation {
        tabs,
        joins: matches.get_flag("join"),
    })
}

fn tabs_of(kind: &str, matches: &ArgMatches<'_>) -> Result<Option<usize>>
    ensures { IfOk result (AreTabs kind.now (found_of matches.now)) }
{
    let tabs: Option<usize> = matches.get_one("tabs");
    match tabs {
        Some(0) => bail!("tabs have at least 1 column"),
        None if kind == "wrap" => Ok(Some(DEFAULT_TABS)),
        _ => Ok(tabs),
    }
}

fn kind_of(word: &str, alone: bool) -> Result<Kind>
    ensures { MatchResult result
        (λ kind. (word.now ≡ kind_word kind) × (alone ≡ is_alone kind))
        (λ _. (kind : AnyKind) → word.now ≡ kind_word kind → alone ≢ is_alone kind) }
{
    match (word, alone) {
        ("word", alone) => Ok(Kind::Words { alone }),
        (_, true) => bail!("'--words' is an option of words"),
        ("grapheme", _) => Ok(Kind::Clusters),
        ("sentence", _) => Ok(Kind::Sentences),
        ("line", _) => Ok(Kind::Lines),
        _ => bail!("no such kind of segments"),
    }
}

/// What is written of a text that is cut. The error is parts of no bytes.
pub fn written_of(matches: &ArgMatches<'_>) -> Result<Written>
    ensures { IfOk result (IsWritten (found_of matches.now)) }
{
    let least: Option<usize> = matches.get_one("split");
    match least {
        Some(0) => bail!("a part has at least 1 byte"),
        Some(least) => Ok(Written::Parts(least)),
        None => Ok(Written::Segments(style_of(matches))),
    }
}

// How segments are written.
fn style_of(matches: &ArgMatches<'_>) -> Style
    ensures { IsStyle (found_of matches.now) result }
{
    if matches.get_flag("count") {
        Style::Counted(numbers_of(matches))
    } else if matches.get_flag("offsets") {
        Style::Offsets
    } else if matches.get_flag("null") {
        Style::ZeroEnded
    } else if matches.get_flag("json") {
        Style::Json
    } else if matches.get_flag("raw") {
        Style::Raw
    } else {
        Style::Escaped
    }
}

fn numbers_of(matches: &ArgMatches<'_>) -> AskedCounts
    ensures { AreNumbers (found_of matches.now) result }
{
    AskedCounts {
        lines: matches.get_flag("lines"),
        bytes: matches.get_flag("bytes"),
    }
}

fn engine_of(word: Option<&str>) -> Result<Engine>
    ensures { IfOk result (IsEngine (option_map (λ text. text.now) word.entry)) }
{
    match word {
        None | Some("neo") => Ok(Engine::Neo),
        Some("classic") => Ok(Engine::Classic),
        Some("17") => Ok(Engine::Seventeen),
        Some(_) => bail!("no such engine"),
    }
}

fn strictness_of(word: Option<&str>) -> Option<LineBreakStrictness>
    ensures { IsChoice strictness_word (option_map (λ text. text.now) word.entry) result }
{
    match word {
        Some("loose") => Some(LineBreakStrictness::Loose),
        Some("normal") => Some(LineBreakStrictness::Normal),
        Some("strict") => Some(LineBreakStrictness::Strict),
        Some("anywhere") => Some(LineBreakStrictness::Anywhere),
        _ => None,
    }
}

fn word_option_of(word: Option<&str>) -> Option<LineBreakWordOption>
    ensures { IsChoice word_break_word (option_map (λ text. text.now) word.entry) result }
{
    match word {
        Some("normal") => Some(LineBreakWordOption::Normal),
        Some("break-all") => Some(LineBreakWordOption::BreakAll),
        Some("keep-all") => Some(LineBreakWordOption::KeepAll),
        _ => None,
    }
}

fn language_of(tag: Option<&str>) -> Result<Option<LanguageIdentifier>>
    ensures { IfOk result (λ language. language ≡ option_map (λ tag. language_part tag.now) tag.entry) }
{
    let Some(tag) = tag else {
        return Ok(None);
    };
    let language = before(before(before(tag, '-'), '_'), '.');
    let identifier = identifier_of(language)?;
    Ok(Some(identifier))
}

fn identifier_of(language: &str) -> Result<LanguageIdentifier>
    ensures { IfOk result (λ identifier. identifier ≡ str_to_ascii_lowercase language.now) }
{
    let identifier = LanguageIdentifier::try_from_language(language);
    identifier.context("the language of '--lang <LANGUAGE>' has 2 to 8 letters")
}

// What stands before the first such character of a text, or all of it where there is none.
fn before(text: &str, mark: char) -> &str
    requires { mark < 128 }
    ensures { result.now ≡ before_first (λ byte. byte == mark) text.now }
{
    match text.split_once(mark) {
        Some((front, _)) => front,
        None => text,
    }
}

/// The script that a word names. The error is a word that names none.
pub fn script_of(word: &str) -> Result<ComplexScript>
    ensures { MatchResult result (λ script. HasScriptWord script word.now) (λ _. (script : AnyScript) → HasScriptWord script word.now → ⊥) }
{
    match word {
        "thai" => Ok(ComplexScript::Thai),
        "lao" => Ok(ComplexScript::Lao),
        "khmer" => Ok(ComplexScript::Khmer),
        "myanmar" => Ok(ComplexScript::Myanmar),
        "cj" => Ok(ComplexScript::ChineseOrJapanese),
        _ => bail!("no such script"),
    }
}
