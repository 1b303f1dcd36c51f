//! The dictionaries that lines take.
ghost use Rattle.std.specs.Prelude.{◌≡◌};
ghost use Rattle.seg_data.specs.ScriptWords.{borrowed_words, script_words};
ghost use Rattle.seg_lines.specs.Lines.{without_ja};

use seg_data::dictionaries::{Dictionaries, DictionariesBorrowed};

// All but that of Chinese and Japanese, between any two of whose characters a line may be broken.
pub(super) fn without_ja(dictionaries: Dictionaries) -> Dictionaries
    ensures { script_words result ≡ without_ja (script_words dictionaries) }
{
    let mut kept = dictionaries;
    kept.ja = None;
    kept
}

// All but that of Chinese and Japanese, of dictionaries that are borrowed.
pub(super) fn borrowed_without_ja(
    dictionaries: DictionariesBorrowed<'_>,
) -> DictionariesBorrowed<'_>
    ensures { borrowed_words result ≡ without_ja (borrowed_words dictionaries.entry) }
{
    DictionariesBorrowed {
        ja: None,
        ..dictionaries
    }
}
