//! The arguments of the command line: each kind of segments is a subcommand, and what it takes stands in lists.
#![tactic(auto)]

ghost use Rattle.std.specs.Prelude.{◌≡◌, string_bytes};
ghost use Rattle.std.specs.List.{before_first, list_any};
ghost use Rattle.segment_arguments.specs.Columns.{columns_in, ends_options, is_width};

use clap::builder::ValueParser;
use clap::{Arg, ArgAction, Command, value_parser};
use std::alloc::{AllocError, Global};

/// Where the command line says to how many columns lines are wrapped.
#[derive(Clone, Copy, PartialEq, Eq)]
pub enum Columns {
    /// Before the files, if anywhere.
    InPlace,
    /// In an option, if anywhere.
    InOption,
}

/// Where the words of a command line say it: in an option, where one of those before `--` is `--width`, or begins with `--width=`.
pub fn columns_by(words: &[String]) -> Columns
    ensures { result ≡ columns_in (list_any (λ word. is_width (string_bytes word)) (before_first (λ word. ends_options (string_bytes word)) words.now)) }
{
    if says_width(options(words)) {
        Columns::InOption
    } else {
        Columns::InPlace
    }
}

// The words before `--`, or all.
fn options(words: &[String]) -> &[String]
    ensures { result.now ≡ before_first (λ word. ends_options (string_bytes word)) words.now }
{
    match words.iter().position(|word| ends_options(word.as_bytes())) {
        Some(index) => &words[..index],
        None => words,
    }
}

// Whether one of the words says it.
fn says_width(words: &[String]) -> bool
    ensures { result ≡ list_any (λ word. is_width (string_bytes word)) words.now }
{
    words.iter().any(|word| is_width(word.as_bytes()))
}

// Whether a word is `--`.
fn ends_options(word: &[u8]) -> bool
    ensures { result ≡ ends_options word.now }
{
    word.len() == 2 && word.starts_with(b"--")
}

// Whether a word is `--width`, or begins with `--width=`.
fn is_width(word: &[u8]) -> bool
    ensures { result ≡ is_width word.now }
{
    word.starts_with(b"--width=") || word.len() == 7 && word.starts_with(b"--width")
}

// What follows the name of an argument.
#[derive(Clone, Copy)]
enum Value<'a> {
    // Nothing.
    Flag,
    // A text, and what help calls it.
    Text(&'a str),
    // A text that may begin with a hyphen.
    AnyText(&'a str),
    // A text each time that it is given.
    Texts(&'a str),
    // A number, and what help calls it.
    Number(&'a str),
    // One of these words.
    OneOf(&'a [&'a str]),
    // One of these words each time that it is given.
    EachOf(&'a [&'a str]),
}

// An argument with a name.
struct Argument<'a> {
    name: &'a str,
    value: Value<'a>,
    help: &'a str,
    // The arguments beside which it can't be given.
    conflicts: &'a [&'a str],
    // The arguments without which it can't be given.
    needs: &'a [&'a str],
}

// What stands without a name before the files.
#[derive(Clone, Copy, PartialEq, Eq)]
enum Operand {
    Nothing,
    Rules,
    Columns,
}

// A kind of segments: what it takes, list after list.
struct Kind<'a> {
    name: &'a str,
    about: &'a str,
    operand: Operand,
    arguments: &'a [&'a [Argument<'a>]],
}

// What the file VERSION says, the versions of Unicode, and the logic that `rt version` names: tools/versions compares them.
const VERSION: &str =
    "1.0.0\nUnicode 18.0; lines by the rules of 17.0\nProved in Rattle, logic dac8208d650f15bf";

const STYLES: [&str; 4] = ["offsets", "raw", "null", "json"];

const ENGINES: [&str; 2] = ["neo", "classic"];

const LINE_ENGINES: [&str; 3] = ["neo", "classic", "17"];

const STRICTNESSES: [&str; 4] = ["loose", "normal", "strict", "anywhere"];

const WORD_OPTIONS: [&str; 3] = ["normal", "break-all", "keep-all"];

const SCRIPTS: [&str; 5] = ["thai", "lao", "khmer", "myanmar", "cj"];

// A list of arguments, one a line: the name, what follows it, and what help says; then those beside which it can't be given, and without which.
macro_rules! arguments {
    ($($name:literal $value:ident $(($shown:expr))?: $help:literal $(, without $others:expr)? $(, with $needed:expr)?;)*) => {
        &[$(Argument {
            name: $name,
            value: Value::$value $(($shown))?,
            help: $help,
            conflicts: arguments!(@list $($others)?),
            needs: arguments!(@list $($needed)?),
        }),*]
    };
    (@list) => { &[] };
    (@list $list:expr) => { $list };
}

const ENGINE: &[Argument<'static>] = arguments! {
    "engine" OneOf(&ENGINES): "A state machine, or a pair table [default: neo]";
};

const LINE_ENGINE: &[Argument<'static>] = arguments! {
    "engine" OneOf(&LINE_ENGINES): "A state machine, a pair table, or a pair table by other rules [default: neo]";
};

// How segments are written.
const WRITTEN: &[Argument<'static>] = arguments! {
    "offsets" Flag: "Write where each segment begins and ends, in bytes";
    "raw" Flag: "Write control characters and backslashes as they are, and not as escapes";
    "null" Flag: "Write segments as they are, each with a zero byte after it and no line feed", without &["offsets"];
};

// Where a text may be split, in place of what stands in it.
const SPLIT: &[Argument<'static>] = arguments! {
    "split" Number("BYTES"): "Write where parts of at least so many bytes begin and end, which may be cut apart, and no segment", without &["offsets", "raw", "null", "json", "count"];
};

const JSON: &[Argument<'static>] = arguments! {
    "json" Flag: "Write a JSON object for each segment: text, begin, end", without &["offsets", "raw", "null"];
};

const WORD_JSON: &[Argument<'static>] = arguments! {
    "json" Flag: "Write a JSON object for each segment: text, begin, end, type", without &["offsets", "raw", "null"];
};

const LINE_JSON: &[Argument<'static>] = arguments! {
    "json" Flag: "Write a JSON object for each segment: text, begin, end, mandatory", without &["offsets", "raw", "null"];
};

const RULES_JSON: &[Argument<'static>] = arguments! {
    "json" Flag: "Write a JSON object for each segment: text, begin, end, status", without &["offsets", "raw", "null"];
};

// How many segments there are, in place of what they are.
const COUNTED: &[Argument<'static>] = arguments! {
    "count" Flag: "Write how many segments there are, and no segment", without &STYLES;
    "lines" Flag: "With --count, write how many line feeds there are, too", without &STYLES, with &["count"];
    "bytes" Flag: "With --count, write how many bytes there are, too", without &STYLES, with &["count"];
};

const WORDS: &[Argument<'static>] = arguments! {
    "words" Flag: "Leave out what stands between words";
};

const JOIN: &[Argument<'static>] = arguments! {
    "join" Flag: "Join the lines between blank lines first, each two by a space", without &["split"];
};

// Abbreviations go with the default engine: only its texts are split after line feeds.
const ABBREVIATIONS: &[Argument<'static>] = arguments! {
    "abbreviations" Text("FILE"): "A file of abbreviations, one a line, after which a sentence goes on", without &["lang", "engine"];
    "lang" Text("LANGUAGE"): "The language of the text, as en or en-GB: takes such a file from the folder, as abbreviations-en.txt", without &["engine"];
    "dictionaries" Text("FOLDER"): "The folder of such files [env: SEGMENT_DICTIONARIES]", with &["lang"];
};

const LINE_OPTIONS: &[Argument<'static>] = arguments! {
    "strictness" OneOf(&STRICTNESSES): "The property line-break of CSS";
    "word-break" OneOf(&WORD_OPTIONS): "The property word-break of CSS";
    "lang" Text("LANGUAGE"): "The language of the text, as ja or ja-JP";
};

const DICTIONARIES: &[Argument<'static>] = arguments! {
    "dictionary" Texts("FILE"): "A file of words, one a line, that cut its script; may be given for each script", with &["script"];
    "script" EachOf(&SCRIPTS): "The script of that dictionary", with &["dictionary"];
    "dictionaries" Text("FOLDER"): "A folder of such files: thai.txt, lao.txt, khmer.txt, myanmar.txt and cj.txt, as many as there are [env: SEGMENT_DICTIONARIES]";
};

const RULED: &[Argument<'static>] = arguments! {
    "tokens" Flag: "Leave out segments that end where a rule with ! breaks";
    "show-machine" Flag: "Write the machine of the rules, a line for each of its states, and cut nothing", without &["offsets", "raw", "null", "json", "count", "split", "tokens", "file"];
};

// How lines are wrapped.
const WRAPPED: &[Argument<'static>] = arguments! {
    "width" Number("COLUMNS"): "The columns that a line has at most, which then don't stand before files";
    "tabs" Number("COLUMNS"): "Write spaces for each tab, up to the next multiple of so many columns [default: 8]";
    "join" Flag: "Join the lines between blank lines first, each two by a space";
    "balanced" Flag: "Leave the least ragged edge, paragraph by paragraph";
    "hyphenate" Text("FILE"): "Hyphenate words by the patterns of a file, as /usr/share/hyphen/hyph_en_US.dic";
    "indent" AnyText("TEXT"): "What stands before each line, whose columns count";
    "first-indent" AnyText("TEXT"): "What stands before the first line of each paragraph in its place";
    "max-lines" Number("LINES"): "Write at most so many lines";
    "placeholder" AnyText("TEXT"): "What ends the last of these where there are more [default: ' [...]']", with &["max-lines"];
    "break-words" Flag: "Break what is wider than the columns between clusters";
    "by-cluster" Flag: "Count the columns of each cluster, and not of each character";
};

const GRAPHEME: Kind<'static> = Kind {
    name: "grapheme",
    about: "Writes extended grapheme clusters",
    operand: Operand::Nothing,
    arguments: &[ENGINE, WRITTEN, JSON, COUNTED, SPLIT],
};

const WORD: Kind<'static> = Kind {
    name: "word",
    about: "Writes words, and what stands between them",
    operand: Operand::Nothing,
    arguments: &[
        WORDS,
        WRITTEN,
        WORD_JSON,
        COUNTED,
        SPLIT,
        ENGINE,
        DICTIONARIES,
    ],
};

const SENTENCE: Kind<'static> = Kind {
    name: "sentence",
    about: "Writes sentences",
    operand: Operand::Nothing,
    arguments: &[ENGINE, JOIN, WRITTEN, JSON, COUNTED, SPLIT, ABBREVIATIONS],
};

const LINE: Kind<'static> = Kind {
    name: "line",
    about: "Writes what stands between places where a line may end",
    operand: Operand::Nothing,
    arguments: &[
        LINE_ENGINE,
        WRITTEN,
        LINE_JSON,
        COUNTED,
        SPLIT,
        LINE_OPTIONS,
        DICTIONARIES,
    ],
};

const RULES: Kind<'static> = Kind {
    name: "rules",
    about: "Writes what stands between places where rules of your own break",
    operand: Operand::Rules,
    arguments: &[RULED, WRITTEN, RULES_JSON, COUNTED, SPLIT],
};

const WRAP: Kind<'static> = Kind {
    name: "wrap",
    about: "Wraps lines to columns",
    operand: Operand::Columns,
    arguments: &[WRAPPED, LINE_OPTIONS, DICTIONARIES],
};

/// The arguments that there are: each kind of segments is a subcommand. Where columns stand in an option, all that isn't one is a file.
/// Fails only when out of memory.
pub fn command_line<'a>(alloc: Global, columns: Columns) -> Result<Command<'a>, AllocError> {
    let mut kinds = Vec::new(alloc);
    push_first_kinds(alloc, columns, &mut kinds)?;
    push_other_kinds(alloc, columns, &mut kinds)?;
    Command::new(alloc, "segment")
        .version(VERSION)
        .about(
            "Cuts text (UTF-8) into segments by Unicode's data or by rules of your own, and writes each on a line of its own, or wraps its lines",
        )
        .subcommand_required(true)
        .subcommands(kinds)
}

// In two halves: each list that a function names is written out in its proof.
fn push_first_kinds<'a>(
    alloc: Global,
    columns: Columns,
    kinds: &mut Vec<Command<'a>>,
) -> Result<(), AllocError> {
    push_kind(alloc, &GRAPHEME, columns, kinds)?;
    push_kind(alloc, &WORD, columns, kinds)?;
    push_kind(alloc, &SENTENCE, columns, kinds)
}

fn push_other_kinds<'a>(
    alloc: Global,
    columns: Columns,
    kinds: &mut Vec<Command<'a>>,
) -> Result<(), AllocError> {
    push_kind(alloc, &LINE, columns, kinds)?;
    push_kind(alloc, &RULES, columns, kinds)?;
    push_kind(alloc, &WRAP, columns, kinds)
}

fn push_kind<'a>(
    alloc: Global,
    kind: &Kind<'a>,
    columns: Columns,
    kinds: &mut Vec<Command<'a>>,
) -> Result<(), AllocError> {
    kinds.push(kind_command(alloc, kind, columns)?)?;
    Ok(())
}

fn kind_command<'a>(
    alloc: Global,
    kind: &Kind<'a>,
    columns: Columns,
) -> Result<Command<'a>, AllocError> {
    let mut arguments = Vec::new(alloc);
    push_operands(alloc, kind.operand, columns, &mut arguments)?;
    for list in kind.arguments {
        push_arguments(alloc, list, &mut arguments)?;
    }
    Command::new(alloc, kind.name)
        .about(kind.about)
        .args(arguments)
}

// What stands without a name: the files, and what comes before them.
fn push_operands<'a>(
    alloc: Global,
    operand: Operand,
    columns: Columns,
    arguments: &mut Vec<Arg<'a>>,
) -> Result<(), AllocError> {
    if operand == Operand::Rules {
        arguments.push(rules_operand(alloc))?;
    }
    if operand == Operand::Columns && columns == Columns::InPlace {
        arguments.push(columns_operand(alloc))?;
    }
    arguments.push(files_operand(alloc))?;
    Ok(())
}

fn push_arguments<'a>(
    alloc: Global,
    list: &[Argument<'a>],
    arguments: &mut Vec<Arg<'a>>,
) -> Result<(), AllocError> {
    for argument in list {
        arguments.push(argument_of(alloc, argument)?)?;
    }
    Ok(())
}

fn argument_of<'a>(alloc: Global, argument: &Argument<'a>) -> Result<Arg<'a>, AllocError> {
    Arg::new(alloc, argument.name)
        .long(argument.name)
        .action(action_of(argument.value))
        .value_name(value_name(argument))
        .value_parser(parser_of(argument.value))
        .help(argument.help)
        .allow_hyphen_values(matches!(argument.value, Value::AnyText(_)))
        .requires_all(argument.needs)?
        .conflicts_with_all(argument.conflicts)
}

fn action_of(value: Value<'_>) -> ArgAction {
    match value {
        Value::Flag => ArgAction::SetTrue,
        Value::Texts(_) | Value::EachOf(_) => ArgAction::Append,
        Value::Text(_) | Value::AnyText(_) | Value::Number(_) | Value::OneOf(_) => ArgAction::Set,
    }
}

// What help calls the value.
fn value_name<'a>(argument: &Argument<'a>) -> &'a str {
    match argument.value {
        Value::Text(name) | Value::AnyText(name) | Value::Texts(name) | Value::Number(name) => name,
        Value::Flag | Value::OneOf(_) | Value::EachOf(_) => argument.name,
    }
}

fn parser_of<'a>(value: Value<'a>) -> ValueParser<'a> {
    match value {
        Value::Flag => value_parser!(bool),
        Value::Text(_) | Value::AnyText(_) | Value::Texts(_) => value_parser!(String),
        Value::Number(_) => value_parser!(usize),
        Value::OneOf(words) | Value::EachOf(words) => words.into(),
    }
}

fn files_operand<'a>(alloc: Global) -> Arg<'a> {
    Arg::new(alloc, "file")
        .action(ArgAction::Append)
        .num_args(0..)
        .value_name("FILE")
        .help("The files, one after another; - is standard input, and so is none")
}

fn rules_operand<'a>(alloc: Global) -> Arg<'a> {
    Arg::new(alloc, "rules")
        .action(ArgAction::Set)
        .required(true)
        .value_name("RULES")
        .help(
            "The file of rules: symbols by their sets of code points, and where texts break between them",
        )
}

fn columns_operand<'a>(alloc: Global) -> Arg<'a> {
    Arg::new(alloc, "columns")
        .action(ArgAction::Set)
        .value_parser(value_parser!(usize))
        .value_name("COLUMNS")
        .help(
            "The columns that a line has at most, which stand before files [default: 80]; a word that is no number is a file",
        )
}
