//! Dictionaries of the scripts that are written without spaces between words.

ghost use Rattle.std.specs.Prelude.{◌≡◌, ◌↔◌, IsTrue};
ghost use Rattle.std.specs.Option.{option_or, option_map};
ghost use Rattle.seg_data.specs.ScriptWords.{words_of, words_after, filled, borrowed_words, no_words, script_words, words_in};

use crate::provider::{ComplexScript, DictionaryBreakData, DictionaryCursor};

/// The dictionaries of scripts, each if there is one.
#[derive(Debug)]
pub struct Dictionaries {
    /// The dictionary of Myanmar.
    pub my: Option<DictionaryBreakData>,
    /// The dictionary of Khmer.
    pub km: Option<DictionaryBreakData>,
    /// The dictionary of Lao.
    pub lo: Option<DictionaryBreakData>,
    /// The dictionary of Thai.
    pub th: Option<DictionaryBreakData>,
    /// The dictionary of Chinese and Japanese.
    pub ja: Option<DictionaryBreakData>,
}

// Written out, so that it is proved here and not in each function that drops one.
impl Drop for Dictionaries {
    fn drop(self) {
        let Dictionaries {
            my: _,
            km: _,
            lo: _,
            th: _,
            ja: _,
        } = self;
    }
}

impl Dictionaries {
    /// No dictionary of any script.
    pub const fn none() -> Self
        ensures { script_words result ≡ no_words }
    {
        Dictionaries {
            my: None,
            km: None,
            lo: None,
            th: None,
            ja: None,
        }
    }

    /// These dictionaries, borrowed.
    pub fn as_borrowed(&self) -> DictionariesBorrowed<'_>
        ensures { borrowed_words result ≡ script_words self.now }
    {
        DictionariesBorrowed {
            my: self.my.as_ref(),
            km: self.km.as_ref(),
            lo: self.lo.as_ref(),
            th: self.th.as_ref(),
            ja: self.ja.as_ref(),
        }
    }

    /// Takes the dictionaries of scripts that have none here from others. Those that are here stay. Takes no memory.
    pub fn fill(&mut self, others: Dictionaries)
        ensures { script_words self.new ≡ filled (script_words self.old) (script_words others) }
    {
        let Dictionaries { my, km, lo, th, ja } = others;
        fill_place(&mut self.my, my);
        fill_place(&mut self.km, km);
        fill_place(&mut self.lo, lo);
        fill_place(&mut self.th, th);
        fill_place(&mut self.ja, ja);
    }
}

/// Puts a dictionary where there is none.
fn fill_place(place: &mut Option<DictionaryBreakData>, found: Option<DictionaryBreakData>)
    ensures { option_map words_of place.new ≡ option_or (option_map words_of place.old) (option_map words_of found) }
{
    if place.is_none() {
        *place = found;
    }
}

/// The dictionaries of scripts, borrowed, each if there is one.
#[derive(Clone, Copy, Debug)]
pub struct DictionariesBorrowed<'data> {
    /// The dictionary of Myanmar.
    pub my: Option<&'data DictionaryBreakData>,
    /// The dictionary of Khmer.
    pub km: Option<&'data DictionaryBreakData>,
    /// The dictionary of Lao.
    pub lo: Option<&'data DictionaryBreakData>,
    /// The dictionary of Thai.
    pub th: Option<&'data DictionaryBreakData>,
    /// The dictionary of Chinese and Japanese.
    pub ja: Option<&'data DictionaryBreakData>,
}

impl<'data> DictionariesBorrowed<'data> {
    /// No dictionary of any script.
    pub const fn none() -> Self
        ensures { borrowed_words result ≡ no_words }
    {
        DictionariesBorrowed {
            my: None,
            km: None,
            lo: None,
            th: None,
            ja: None,
        }
    }

    /// Takes the dictionaries of scripts that have none here from others. Those that are here stay. Takes no memory.
    pub fn fill(&mut self, others: DictionariesBorrowed<'data>)
        ensures { borrowed_words self.new ≡ filled (borrowed_words self.old) (borrowed_words others.entry) }
    {
        self.my = self.my.or(others.my);
        self.km = self.km.or(others.km);
        self.lo = self.lo.or(others.lo);
        self.th = self.th.or(others.th);
        self.ja = self.ja.or(others.ja);
    }

    /// Whether no script has a dictionary.
    pub fn is_empty(&self) -> bool
        ensures { IsTrue result ↔ borrowed_words self.now ≡ no_words }
    {
        self.my.is_none()
            && self.km.is_none()
            && self.lo.is_none()
            && self.th.is_none()
            && self.ja.is_none()
    }

    /// A cursor at the beginning of the words of a script, if it has a dictionary. Takes no memory.
    #[inline(always)]
    pub fn cursor(self, script: ComplexScript) -> Option<DictionaryCursor<'data>>
        ensures { option_map words_after result ≡ words_in (borrowed_words self.entry) script }
    {
        let data = match script {
            ComplexScript::None => None,
            ComplexScript::Myanmar => self.my,
            ComplexScript::ChineseOrJapanese => self.ja,
            ComplexScript::Khmer => self.km,
            ComplexScript::Lao => self.lo,
            ComplexScript::Thai => self.th,
        }?;
        Some(data.cursor())
    }
}
