//! What a caller asks for by numbers.

ghost use Rattle.std.specs.Prelude.{◌≡◌};
ghost use Rattle.std.specs.Option.{option_map};
ghost use Rattle.yengatomu_segmenter.specs.Options.{finder_asked, line_rules_for, numbered_finder, numbered_line_rules};

use icu_segmenter::options::{LineBreakStrictness, LineBreakWordOption};

/// The kind of a segmenter.
#[derive(Clone, Copy, PartialEq, Eq)]
pub enum Kind {
    Clusters,
    Words,
    Sentences,
    Lines,
}

const KINDS: [Kind; 4] = [Kind::Clusters, Kind::Words, Kind::Sentences, Kind::Lines];

const STRICTNESSES: [LineBreakStrictness; 4] = [
    LineBreakStrictness::Strict,
    LineBreakStrictness::Normal,
    LineBreakStrictness::Loose,
    LineBreakStrictness::Anywhere,
];

const WORD_OPTIONS: [LineBreakWordOption; 3] = [
    LineBreakWordOption::Normal,
    LineBreakWordOption::BreakAll,
    LineBreakWordOption::KeepAll,
];

/// The options of lines.
#[derive(Clone, Copy)]
pub struct LineOptions {
    pub strictness: LineBreakStrictness,
    pub word_option: LineBreakWordOption,
    pub is_chinese_or_japanese: bool,
}

/// The numbers of the options of lines.
#[derive(Clone, Copy)]
pub struct LineNumbers {
    pub strictness: u32,
    pub word_break: u32,
    pub is_chinese_or_japanese: bool,
}

/// A segmenter over Unicode's data.
#[derive(Clone, Copy)]
pub enum Request {
    Clusters,
    Words,
    Sentences,
    Lines(LineOptions),
}

/// What these numbers ask for. None where there is no such kind or, for lines, no such option.
pub fn requested(kind: u32, lines: LineNumbers) -> Option<Request>
    ensures { option_map finder_asked result ≡ numbered_finder kind lines.strictness lines.word_break lines.is_chinese_or_japanese }
{
    match KINDS.get(kind as usize)? {
        Kind::Clusters => Some(Request::Clusters),
        Kind::Words => Some(Request::Words),
        Kind::Sentences => Some(Request::Sentences),
        Kind::Lines => Some(Request::Lines(line_options(lines)?)),
    }
}

fn line_options(lines: LineNumbers) -> Option<LineOptions>
    ensures { option_map (λ options. line_rules_for options.strictness options.word_option options.is_chinese_or_japanese) result ≡ numbered_line_rules lines.strictness lines.word_break lines.is_chinese_or_japanese }
{
    let strictness = STRICTNESSES.get(lines.strictness as usize)?;
    let word_option = WORD_OPTIONS.get(lines.word_break as usize)?;
    Some(LineOptions {
        strictness: *strictness,
        word_option: *word_option,
        is_chinese_or_japanese: lines.is_chinese_or_japanese,
    })
}
