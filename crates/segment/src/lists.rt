//! Lists of words, each of which bears the name of its script.
ghost use Rattle.std.specs.Prelude.{◌≡◌, ℕ, List, Option, IfOk, IfSome};
ghost use Rattle.std.specs.Option.{option_map};
ghost use Rattle.icu_segmenter.specs.ScriptWords.{words_of, script_words};
ghost use Rattle.icu_segmenter.specs.WordSets.{Words};
ghost use Rattle.segment.specs.Lists.{choice_by, AreListed};

use crate::command::RequestedAction;
use anyhow::Result;
use icu_segmenter::provider::{Dictionaries, DictionaryBreakData};
use segment_output::segmenter::Kind;

/// Which lists are read.
#[derive(Clone, Copy, PartialEq, Eq)]
pub enum Choice {
    /// None: there are no words in what is found.
    Nothing,
    /// All but that of Chinese and Japanese, of which lines take none.
    WithoutCj,
    /// All.
    All,
}

/// What has lists of words by their names.
pub trait ReadLists {
    /// The words of each list, or that there is none, where they are known.
    ghost lists: { Self → List ℕ → Option (Option Words) };

    /// The dictionary of a list, if it is there. The errors are a list that can't be read or has no words, and being out of memory.
    fn read_list(&self, name: &str) -> Result<Option<DictionaryBreakData>>
        ensures { IfOk result (λ read. IfSome (lists self.now name.now) (λ words. option_map words_of read ≡ words)) };
}

/// The lists that an action takes.
pub fn choice_by(action: RequestedAction<'_>) -> Choice
    ensures { result ≡ choice_by action.entry }
{
    match action {
        RequestedAction::Cut(Kind::Words { .. }, _, _) => Choice::All,
        RequestedAction::Cut(Kind::Lines, _, _) => Choice::WithoutCj,
        RequestedAction::Cut(_, _, _) => Choice::Nothing,
        RequestedAction::Wrap(_) | RequestedAction::Paragraphs(_, _) => Choice::WithoutCj,
    }
}

/// The dictionaries of the lists that are chosen: each script has that of its own name. The errors are those of the lists.
pub fn listed_dictionaries<L: ReadLists>(lists: &L, choice: Choice) -> Result<Dictionaries>
    ensures { IfOk result (λ dictionaries. AreListed choice (L.lists lists.now) (script_words dictionaries)) }
{
    match choice {
        Choice::Nothing => Ok(Dictionaries::none()),
        Choice::WithoutCj => listed_without_cj(lists),
        Choice::All => {
            let ja = lists.read_list("cj")?;
            let mut dictionaries = listed_without_cj(lists)?;
            dictionaries.ja = ja;
            Ok(dictionaries)
        }
    }
}

fn listed_without_cj<L: ReadLists>(lists: &L) -> Result<Dictionaries>
    ensures { IfOk result (λ dictionaries. AreListed Choice.WithoutCj (L.lists lists.now) (script_words dictionaries)) }
{
    let my = lists.read_list("myanmar")?;
    let km = lists.read_list("khmer")?;
    let lo = lists.read_list("lao")?;
    let th = lists.read_list("thai")?;
    Ok(Dictionaries {
        my,
        km,
        lo,
        th,
        ja: None,
    })
}
