//! Which machine the options of lines choose.
ghost use Rattle.std.specs.Prelude.{◌≡◌};
ghost use Rattle.seg_lines.specs.Options.{machine_choice, machine_for};

use seg_line_pairs::options::LineStyle;
pub use seg_line_pairs::options::{LineBreakOptions, LineBreakStrictness, LineBreakWordOption};

/// A tailoring of the line machine, by its name.
#[derive(Clone, Copy, PartialEq, Eq)]
pub(crate) enum Tailoring {
    /// Words may be broken anywhere.
    BreakAll,
    /// Words may be broken nowhere.
    KeepAll,
    /// Loose rules, in Japanese or Chinese.
    JaLoose,
    /// Loose rules, in other languages.
    Loose,
    /// Normal rules, in Japanese or Chinese.
    JaNormal,
    /// Normal rules, in other languages.
    Normal,
    /// Strict rules, in Japanese or Chinese.
    Ja,
}

/// A machine that options choose.
#[derive(Clone, Copy, PartialEq, Eq)]
pub(crate) enum MachineChoice {
    /// The machine of grapheme clusters.
    Clusters,
    /// The machine of lines, with a tailoring or as it is.
    Lines(Option<Tailoring>),
}

/// The machine that the options choose. A word option other than `Normal` chooses first, then the
/// strictness, with whether the language is Japanese or Chinese.
pub(crate) fn choice_of(options: LineBreakOptions<'_>) -> MachineChoice
    ensures { result ≡ machine_choice options.entry }
{
    let style = LineStyle::new(options);
    match style.word_option {
        LineBreakWordOption::BreakAll => MachineChoice::Lines(Some(Tailoring::BreakAll)),
        LineBreakWordOption::KeepAll => MachineChoice::Lines(Some(Tailoring::KeepAll)),
        LineBreakWordOption::Normal => choice_by_strictness(style.strictness, style.is_ja_or_zh),
    }
}

// The machine of a strictness, where words are broken by the customary rules.
fn choice_by_strictness(strictness: LineBreakStrictness, is_ja_or_zh: bool) -> MachineChoice
    ensures { result ≡ machine_for LineBreakWordOption.Normal strictness is_ja_or_zh }
{
    match (strictness, is_ja_or_zh) {
        (LineBreakStrictness::Anywhere, _) => MachineChoice::Clusters,
        (LineBreakStrictness::Loose, true) => MachineChoice::Lines(Some(Tailoring::JaLoose)),
        (LineBreakStrictness::Loose, false) => MachineChoice::Lines(Some(Tailoring::Loose)),
        (LineBreakStrictness::Normal, true) => MachineChoice::Lines(Some(Tailoring::JaNormal)),
        (LineBreakStrictness::Normal, false) => MachineChoice::Lines(Some(Tailoring::Normal)),
        (LineBreakStrictness::Strict, true) => MachineChoice::Lines(Some(Tailoring::Ja)),
        (LineBreakStrictness::Strict, false) => MachineChoice::Lines(None),
    }
}
