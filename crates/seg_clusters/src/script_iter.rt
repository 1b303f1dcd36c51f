//! Scripts of code points, and pieces of one script of a text.

ghost use Rattle.std.specs.Prelude.{◌≡◌, [], ◌∷◌, MatchOption};
ghost use Rattle.seg_text.specs.Items.{start_of, code_points};
ghost use Rattle.seg_clusters.specs.Scripts.{GivesPiece, pieces, script_number, script_of};

mod ranges;

use ranges::RANGES;
use seg_data::provider::{ComplexScript, value_by_halving};
use seg_text::cursor::Cursor;
use seg_text::prefixes::{CodePointTest, take_prefix};
use std::marker::Model;

/// The script of a code point. Any number is looked up, also one that is no code point. Takes no memory.
pub fn script_of(code_point: u32) -> ComplexScript
    ensures { result ≡ script_of code_point }
{
    // The rows that running text has most are tried first.
    if 0x4E00 <= code_point && code_point <= 0x9FFF {
        return ComplexScript::ChineseOrJapanese;
    }
    if 0x0E01 <= code_point && code_point <= 0x0E3A {
        return ComplexScript::Thai;
    }
    if 0x0E40 <= code_point && code_point <= 0x0E4E {
        return ComplexScript::Thai;
    }
    script_by_halving(code_point)
}

// The script of a code point, by halving the ranges.
#[inline(never)]
fn script_by_halving(code_point: u32) -> ComplexScript
    ensures { result ≡ script_of code_point }
{
    script_numbered(value_by_halving(&RANGES, 0, code_point))
}

// The script that has a number.
fn script_numbered(number: u8) -> ComplexScript
    ensures { (script : ComplexScript) → number ≡ script_number script → result ≡ script }
{
    match number {
        1 => ComplexScript::Myanmar,
        2 => ComplexScript::ChineseOrJapanese,
        3 => ComplexScript::Khmer,
        4 => ComplexScript::Lao,
        5 => ComplexScript::Thai,
        _ => ComplexScript::None,
    }
}

/// Whether code points have a script.
#[derive(Clone, Copy)]
struct ScriptTest {
    script: ComplexScript,
}

impl CodePointTest for ScriptTest {
    ghost use Rattle.seg_clusters.specs.Scripts.{has_script};

    ghost passes = { λ test. has_script test.script };

    fn accepts(&self, code_point: u32) -> bool {
        script_of(code_point) == self.script
    }
}

/// The pieces of a text: the longest parts whose code points have one script.
#[derive(Drop)]
pub struct ScriptIterator<I: Cursor> {
    rest: I,
}

impl<I: Cursor> Model for ScriptIterator<I> {
    ghost use Rattle.seg_text.specs.Items.{Text};

    ghost Value = { Text };

    ghost view = { λ s. I.text s.rest };
}

impl<I: Cursor> ScriptIterator<I> {
    /// The pieces of what is left of a text. Takes no memory.
    pub fn new(text: I) -> Self
        ensures { result ≡ I.text text }
    {
        ScriptIterator { rest: text }
    }

    /// The next piece, as a text whose places, in units, are those of the whole, and its script. None at the end, and
    /// from then on. Takes no memory.
    pub fn next_piece(&mut self) -> Option<(I, ComplexScript)>
        ensures piece { GivesPiece I.text self.old result self.new }
        ensures pieces { MatchOption result (pieces (code_points self.old.items) ≡ [])
            (λ piece. pieces (code_points self.old.items) ≡ code_points (I.text piece.0).items ∷ pieces (code_points self.new.items)) }
    {
        let mut ahead = self.rest.fork();
        let (_, first) = ahead.next_item()?;
        let script = script_of(first);
        let piece = take_prefix(&mut self.rest, &ScriptTest { script });
        Some((piece, script))
    }

    /// The place in units where the next piece begins, or where the text ends.
    pub fn place(&self) -> usize
        ensures { result ≡ start_of self.now }
    {
        self.rest.place()
    }
}

impl<I: Cursor> ScriptIterator<I> {
    /// What is left of the pieces, once more. Takes no memory.
    pub fn fork(&self) -> Self
        ensures { result ≡ self.now }
    {
        ScriptIterator {
            rest: self.rest.fork(),
        }
    }
}
