//! Spans of a text by a machine: the runs of one script that has words, and the pieces between them.

ghost use Rattle.std.specs.Prelude.{◌≡◌, ◌↔◌, IsTrue};
ghost use Rattle.seg_data.specs.ScriptWords.{borrowed_words};
ghost use Rattle.seg_machine.specs.Tailored.{machine_of};
ghost use Rattle.seg_clusters.specs.Spans.{IsOutsideRuns, IsSpanEdge, GivesSpan, worded_script};

use seg_data::dictionaries::DictionariesBorrowed;
use seg_data::provider::{ComplexScript, DictionaryCursor};
use seg_machine::tailored_machine::TailoredMachineBorrowed;
use seg_text::cursor::Cursor;
use seg_text::prefixes::{CodePointTest, take_prefix};

/// Whether code points have, by a machine, this script, if it has words, or else none.
#[derive(Clone, Copy)]
struct SpanTest<'data> {
    machine: TailoredMachineBorrowed<'data>,
    dictionaries: DictionariesBorrowed<'data>,
    script: ComplexScript,
}

impl<'data> CodePointTest for SpanTest<'data> {
    ghost use Rattle.seg_data.specs.ScriptWords.{borrowed_words};
    ghost use Rattle.seg_machine.specs.Tailored.{machine_of};
    ghost use Rattle.seg_clusters.specs.Spans.{has_worded_script};

    ghost passes = { λ test. has_worded_script (machine_of test.machine) (borrowed_words test.dictionaries) test.script };

    #[inline(always)]
    fn accepts(&self, code_point: u32) -> bool {
        worded_script(self.machine, self.dictionaries, code_point) == self.script
    }
}

/// The script of a code point by a machine, if it has words, or else none.
#[inline(always)]
fn worded_script(
    machine: TailoredMachineBorrowed<'_>,
    dictionaries: DictionariesBorrowed<'_>,
    code_point: u32,
) -> ComplexScript
    ensures { result ≡ worded_script (machine_of machine.entry) (borrowed_words dictionaries.entry) code_point }
{
    let script = machine.script(code_point);
    match dictionaries.cursor(script) {
        Some(_) => script,
        None => ComplexScript::None,
    }
}

/// Whether a code point stands in no run: by the machine it has no script that has words.
#[inline(always)]
pub fn is_outside_runs(
    machine: TailoredMachineBorrowed<'_>,
    dictionaries: DictionariesBorrowed<'_>,
    code_point: u32,
) -> bool
    ensures { IsTrue result ↔ IsOutsideRuns (machine_of machine.entry) (borrowed_words dictionaries.entry) code_point }
{
    worded_script(machine, dictionaries, code_point) == ComplexScript::None
}

/// Whether code points stand between runs: by a machine, in no run of a script that has words.
#[derive(Clone, Copy)]
pub struct BetweenRuns<'data> {
    /// The machine.
    pub machine: TailoredMachineBorrowed<'data>,
    /// The words of scripts.
    pub dictionaries: DictionariesBorrowed<'data>,
}

impl<'data> CodePointTest for BetweenRuns<'data> {
    ghost use Rattle.seg_data.specs.ScriptWords.{borrowed_words};
    ghost use Rattle.seg_machine.specs.Tailored.{machine_of};
    ghost use Rattle.seg_clusters.specs.Spans.{is_between};

    ghost passes = { λ test. is_between (machine_of test.machine) (borrowed_words test.dictionaries) };

    #[inline(always)]
    fn accepts(&self, code_point: u32) -> bool {
        is_outside_runs(self.machine, self.dictionaries, code_point)
    }
}

/// Whether between two code points another span begins: the scripts that have words, which the machine tells of them, differ.
pub fn begins_span(
    machine: TailoredMachineBorrowed<'_>,
    dictionaries: DictionariesBorrowed<'_>,
    one: u32,
    other: u32,
) -> bool
    ensures { IsTrue result ↔ IsSpanEdge (machine_of machine.entry) (borrowed_words dictionaries.entry) one other }
{
    !dictionaries.is_empty()
        && worded_script(machine, dictionaries, one) != worded_script(machine, dictionaries, other)
}

/// The next span of a text, as a text whose places, in units, are those of the whole, and the words of its script, if it is a
/// run of a script that has words. None at the end. Takes no memory.
pub fn next_span<'data, I: Cursor>(
    machine: TailoredMachineBorrowed<'data>,
    dictionaries: DictionariesBorrowed<'data>,
    rest: &mut I,
) -> Option<(I, Option<DictionaryCursor<'data>>)>
    ensures { GivesSpan (machine_of machine.entry) (borrowed_words dictionaries.entry) I.text (I.text rest.old) result (I.text rest.new) }
{
    let mut ahead = rest.fork();
    let (_, first) = ahead.next_item()?;
    let script = worded_script(machine, dictionaries, first);
    let test = SpanTest {
        machine,
        dictionaries,
        script,
    };
    let span = take_prefix(rest, &test);
    Some((span, dictionaries.cursor(script)))
}
