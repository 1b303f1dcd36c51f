//! What may be asked of the breaks of lines.
ghost use Rattle.std.specs.Prelude.{◌≡◌};
ghost use Rattle.seg_line_pairs.specs.LineRules.{is_ja_or_zh, is_break_all, is_keep_all, is_loose_or_normal, style_of};

use seg_data::provider::LanguageIdentifier;

/// How strict the rules of line breaks are, as the property `line-break` of CSS Text 3 has it.
#[derive(Clone, Copy, Debug, Default, PartialEq, Eq)]
pub enum LineBreakStrictness {
    /// The least strict rules, as for short lines in newspapers.
    Loose,
    /// The most common rules.
    Normal,
    /// The strictest rules: the default.
    #[default]
    Strict,
    /// A line may be broken at each boundary of a grapheme cluster. By a machine the word options `BreakAll` and
    /// `KeepAll` come before it; by a pair table it comes first.
    Anywhere,
}

impl LineBreakStrictness {
    /// Whether this is one of the two under which small kana are ideographs.
    pub(crate) fn is_loose_or_normal(self) -> bool
        ensures { result ≡ is_loose_or_normal self }
    {
        match self {
            LineBreakStrictness::Loose | LineBreakStrictness::Normal => true,
            LineBreakStrictness::Strict | LineBreakStrictness::Anywhere => false,
        }
    }
}

/// Where words may be broken, as the property `word-break` of CSS Text 3 has it.
#[derive(Clone, Copy, Debug, Default, PartialEq, Eq)]
pub enum LineBreakWordOption {
    /// By the customary rules: the default.
    #[default]
    Normal,
    /// Between any two letters or digits, as between ideographs, whatever the strictness (by a pair table but for `Anywhere`).
    BreakAll,
    /// Nowhere, so that ideographs too stay together, whatever the strictness (by a pair table but for `Anywhere`).
    KeepAll,
}

impl LineBreakWordOption {
    pub(crate) fn is_break_all(self) -> bool
        ensures { result ≡ is_break_all self }
    {
        match self {
            LineBreakWordOption::BreakAll => true,
            _ => false,
        }
    }

    pub(crate) fn is_keep_all(self) -> bool
        ensures { result ≡ is_keep_all self }
    {
        match self {
            LineBreakWordOption::KeepAll => true,
            _ => false,
        }
    }
}

/// The options of line breaks: by default none is given.
#[derive(Clone, Copy, Debug, Default, PartialEq, Eq)]
pub struct LineBreakOptions<'a> {
    /// How strict the rules are; `None` means `Strict`.
    pub strictness: Option<LineBreakStrictness>,
    /// Where words may be broken; `None` means `Normal`.
    pub word_option: Option<LineBreakWordOption>,
    /// The language of the text. It matters whether it is Japanese (`ja`) or Chinese (`zh`).
    pub content_locale: Option<&'a LanguageIdentifier>,
}

/// What options say, where those that aren't given have their defaults. It isn't part of the library's surface.
#[derive(Clone, Copy)]
pub struct LineStyle {
    /// How strict the rules are.
    pub strictness: LineBreakStrictness,
    /// Where words may be broken.
    pub word_option: LineBreakWordOption,
    /// Whether the language is Japanese or Chinese.
    pub is_ja_or_zh: bool,
}

impl LineStyle {
    /// What these options say.
    pub fn new(options: LineBreakOptions<'_>) -> Self
        ensures { result ≡ style_of options.entry }
    {
        LineStyle {
            strictness: options.strictness.unwrap_or_default(),
            word_option: options.word_option.unwrap_or_default(),
            is_ja_or_zh: options.content_locale.is_some_and(is_japanese_or_chinese),
        }
    }

    /// Whether words are broken everywhere.
    pub fn breaks_all(self) -> bool
        ensures { result ≡ is_break_all self.word_option }
    {
        self.word_option.is_break_all()
    }

    /// Whether words are kept together.
    pub fn keeps_all(self) -> bool
        ensures { result ≡ is_keep_all self.word_option }
    {
        self.word_option.is_keep_all()
    }

    /// Whether small kana are ideographs by the strictness alone.
    pub fn is_loose_or_normal(self) -> bool
        ensures { result ≡ is_loose_or_normal self.strictness }
    {
        self.strictness.is_loose_or_normal()
    }
}

// Whether the language is Japanese or Chinese.
fn is_japanese_or_chinese(language: &LanguageIdentifier) -> bool
    ensures { result ≡ is_ja_or_zh language.now }
{
    language.language() == "ja" || language.language() == "zh"
}
