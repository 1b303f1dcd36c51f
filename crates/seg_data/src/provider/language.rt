//! The language that a text is written in.
ghost use Rattle.std.specs.Prelude.{◌≡◌, ◌↔◌, nat_eq, All, IsSome, IfSome, IsTrue};
ghost use Rattle.std.specs.Char.{IsAsciiAlphabetic};
ghost use Rattle.std.specs.Cmp.{partial_equiv_from_equiv};
ghost use Rattle.std.specs.Cmp.Lexicographic.{pointwise, nat_list_eq_equiv};
ghost use Rattle.std.specs.Str.{str_to_ascii_lowercase};
ghost use Rattle.seg_data.specs.Language.{IsLanguage};

use arrayvec::ArrayString;
use std::marker::Model;

/// A language, as the primary language subtag of BCP 47: 2 to 8 ASCII letters, kept in lower case.
/// Two are equal where their letters are.
#[derive(Clone, Debug, Drop)]
pub struct LanguageIdentifier {
    language: ArrayString<8>,
}

impl Model for LanguageIdentifier {
    ghost use Rattle.std.specs.Prelude.{ℕ, List};

    ghost Value = { List ℕ };

    ghost view = { λ l. l.language.bytes };
}

impl LanguageIdentifier {
    /// The language that a text names, in capital letters or small ones, and `None` where the text
    /// isn't 2 to 8 ASCII letters. Takes no memory.
    pub fn try_from_language(text: &str) -> Option<Self>
        ensures variant { IsSome result ↔ IsLanguage text.now }
        ensures letters { IfSome result (λ language. language ≡ str_to_ascii_lowercase text.now) }
    {
        if is_language(text) {
            Some(LanguageIdentifier {
                language: lowered(text),
            })
        } else {
            None
        }
    }

    /// The language's letters, all small.
    pub fn language(&self) -> &str
        ensures { result.now ≡ self.now }
    {
        self.language.as_str()
    }
}

impl PartialEq for LanguageIdentifier {
    ghost eq = { pointwise nat_eq };

    ghost laws = { partial_equiv_from_equiv nat_list_eq_equiv };

    // Whether the letters are the same.
    fn eq(&self, other: &LanguageIdentifier) -> bool
        ensures value { result ≡ pointwise nat_eq self.now other.now }
        ensures same { IsTrue result ↔ (self.now ≡ other.now) }
    {
        self.language == other.language
    }
}

impl Eq for LanguageIdentifier {
    ghost laws = { nat_list_eq_equiv };
}

// Whether the text is 2 to 8 ASCII letters.
fn is_language(text: &str) -> bool
    ensures { IsTrue result ↔ IsLanguage text.now }
{
    2 <= text.len() && text.len() <= 8 && is_letters(text.as_bytes())
}

// Whether each byte is an ASCII letter.
fn is_letters(text: &[u8]) -> bool
    ensures { IsTrue result ↔ All IsAsciiAlphabetic text.now }
{
    text.iter().all(|byte| byte.is_ascii_alphabetic())
}

// The letters of a language, in lower case.
fn lowered(text: &str) -> ArrayString<8>
    requires { IsLanguage text.now }
    ensures { result.bytes ≡ str_to_ascii_lowercase text.now }
{
    let mut language = ArrayString::new();
    for letter in text.as_bytes() {
        language.push(char::from(letter.to_ascii_lowercase()));
    }
    language
}
