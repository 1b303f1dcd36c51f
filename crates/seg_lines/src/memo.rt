//! The boundaries of lines where no configuration of a machine is looked up twice.

ghost use Rattle.std.specs.Prelude.{◌≡◌, ◌≢◌, IfOk, IfErr};
ghost use Rattle.seg_text.specs.Boundaries.{boundaries_in};
ghost use Rattle.seg_memo.specs.Memos.{IsMemoRefusal, IsNewMemo};
ghost use Rattle.seg_data.specs.ScriptWords.{no_words};
ghost use Rattle.seg_clusters.specs.Payloads.{payloads_of};
ghost use Rattle.seg_lines.specs.LineBreaks.{boundaries_with, machine_in_finder};
ghost use Rattle.seg_lines.specs.Lines.{finder_of};

use crate::finder::Finder;
use seg_clusters::complex::ComplexPayloadsBorrowed;
use seg_clusters::engine::Engine;
use seg_memo::memo::{MemoBreakIterator, MemoError};
use seg_memo::reader::CountedTransitions;
use seg_text::cursor::Cursor;
use std::alloc::Global;

/// The boundaries of what is left of a text: those of the machine of lines or of clusters.
pub(crate) fn memoised<'data, I: Cursor>(
    alloc: Global,
    finder: Finder<'data>,
    payloads: ComplexPayloadsBorrowed<'data>,
    text: I,
) -> Result<MemoBreakIterator<'data, I, CountedTransitions<'data>>, MemoError>
    ensures words { IfOk result (λ _. (payloads_of payloads.entry).words ≡ no_words) }
    ensures made { IfOk result (IsNewMemo (machine_in_finder (finder_of finder.entry) (payloads_of payloads.entry)) (I.text text)
        (boundaries_in (boundaries_with (finder_of finder.entry) (payloads_of payloads.entry)) (I.text text))) }
    ensures rejected { IfErr result (IsMemoRefusal (machine_in_finder (finder_of finder.entry) (payloads_of payloads.entry)) ((payloads_of payloads.entry).words ≢ no_words) (I.text text)) }
{
    match finder {
        Finder::Clusters => payloads.memoised(alloc, payloads.clusters.engine(), text),
        Finder::Places | Finder::Table(_) | Finder::Turns(_) => Err(MemoError::NotNeo),
        Finder::Machine(machine) => payloads.memoised(alloc, Engine::Neo(machine), text),
    }
}
