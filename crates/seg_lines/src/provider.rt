//! The tailorings of machines of lines.
ghost use Rattle.std.specs.Prelude.{◌≡◌};
ghost use Rattle.seg_lines.specs.Options.{borrowed_tailorings};

use seg_machine::provider::SegmenterStateMachineOverride;

/// The tailorings of a line machine, each a `T`, of which options choose one or none. Those that no
/// option chooses may be left out.
#[derive(Clone, Copy, Debug, Drop)]
#[derive_where(Default)]
pub struct TailoringsOf<T> {
    /// The tailoring of the word option `BreakAll`.
    pub breakall: Option<T>,
    /// The tailoring of the word option `KeepAll`.
    pub keepall: Option<T>,
    /// The tailoring of the strictness `Loose` in Japanese or Chinese.
    pub ja_loose: Option<T>,
    /// The tailoring of the strictness `Loose` in other languages.
    pub loose: Option<T>,
    /// The tailoring of the strictness `Normal` in Japanese or Chinese.
    pub ja_normal: Option<T>,
    /// The tailoring of the strictness `Normal` in other languages.
    pub normal: Option<T>,
    /// The tailoring of the strictness `Strict` in Japanese or Chinese; other languages have none.
    pub ja: Option<T>,
}

/// The tailorings of a line machine.
pub type LineTailorings = TailoringsOf<SegmenterStateMachineOverride>;

/// The tailorings of a line machine that are borrowed.
pub type LineTailoringsBorrowed<'data> = TailoringsOf<&'data SegmenterStateMachineOverride>;

impl LineTailorings {
    /// These tailorings, borrowed.
    pub fn as_borrowed(&self) -> LineTailoringsBorrowed<'_>
        ensures { borrowed_tailorings result ≡ self.now }
    {
        TailoringsOf {
            breakall: self.breakall.as_ref(),
            keepall: self.keepall.as_ref(),
            ja_loose: self.ja_loose.as_ref(),
            loose: self.loose.as_ref(),
            ja_normal: self.ja_normal.as_ref(),
            normal: self.normal.as_ref(),
            ja: self.ja.as_ref(),
        }
    }
}
