//! A reader of lines of patterns.

ghost use Rattle.std.specs.Prelude.{◌≡◌, ◌++◌, ◌∷◌, [], List, IfOk, IfErr, OnOk, encode_utf8, encode_utf8_all, map};
ghost use Rattle.seg_hyphens.specs.Texts.{decoded, lines, pattern_of, trimmed};
ghost use Rattle.seg_hyphens.specs.Liang.{Pattern};
ghost use Rattle.seg_hyphens.specs.Tries.{IsTrie, Keeps};

use crate::fault::HyphenationError;
use crate::lines::{Encoding, LineKind, first_line, kind_of, trimmed};
use crate::places::Minima;
use crate::trie::Trie;
use std::alloc::{AllocError, Global};

/// What was read of a text, and memory to read a line.
pub struct Reader {
    pub trie: Trie,
    pub minima: Minima,
    line: Vec<u8>,
    letters: Vec<u8>,
    digits: Vec<u8>,
}

// Written out, so that it is proved here and not in each program.
impl Drop for Reader {
    fn drop(self) {
        let Reader {
            trie: _,
            minima: _,
            line: _,
            letters: _,
            digits: _,
        } = self;
    }
}

// Appends a character of Latin-1 in UTF-8.
fn push_latin1(buffer: &mut Vec<u8>, byte: u8) -> Result<(), AllocError>
    ensures { OnOk result (buffer.new.items ≡ buffer.old.items ++ encode_utf8 byte) }
{
    if byte < 0x80 {
        buffer.push(byte)?;
        return Ok(());
    }
    buffer.extend_from_slice(&[0xC0 + byte / 64, 0x80 + byte % 64])?;
    Ok(())
}

// Puts a line of Latin-1 into a buffer, in UTF-8.
fn decode_latin1(line: &[u8], buffer: &mut Vec<u8>) -> Result<(), AllocError>
    ensures { OnOk result (buffer.new.items ≡ encode_utf8_all line.now) }
{
    buffer.clear();
    for &byte in line {
        push_latin1(buffer, byte)?;
    }
    Ok(())
}

// Puts a line into a buffer, in UTF-8.
fn decode(encoding: Encoding, line: &[u8], buffer: &mut Vec<u8>) -> Result<(), AllocError>
    ensures { OnOk result (buffer.new.items ≡ decoded encoding line.now) }
{
    match encoding {
        Encoding::Utf8 => {
            buffer.clear();
            buffer.extend_from_slice(line)
        }
        Encoding::Latin1 => decode_latin1(line, buffer),
    }
}

// Puts the letters and the digits of a pattern into buffers.
fn read_pattern(line: &[u8], letters: &mut Vec<u8>, digits: &mut Vec<u8>) -> Result<(), AllocError>
    ensures letters { OnOk result (letters.new.items ≡ (pattern_of 0 line.now).letters) }
    ensures digits { OnOk result (digits.new.items ≡ (pattern_of 0 line.now).digits) }
{
    letters.clear();
    digits.clear();
    let mut digit = 0;
    for &byte in line {
        if byte.is_ascii_digit() {
            digit = byte - b'0';
        } else {
            letters.push(byte)?;
            digits.push(digit)?;
            digit = 0;
        }
    }
    digits.push(digit)?;
    Ok(())
}

impl Reader {
    ghost use Rattle.seg_hyphens.specs.Reading.{IsLineError, IsLinesError, Reads, ReadsAll};

    /// A reader that has read nothing.
    pub fn try_new(alloc: Global) -> Result<Self, AllocError>
        ensures is { IfOk result (λ reader. IsTrie reader.trie) }
        ensures keeps { IfOk result (λ reader. Keeps reader.trie []) }
        ensures left { IfOk result (λ reader. reader.minima.left ≡ 2) }
        ensures right { IfOk result (λ reader. reader.minima.right ≡ 2) }
    {
        Ok(Reader {
            trie: Trie::try_new(alloc)?,
            minima: Minima { left: 2, right: 2 },
            line: Vec::new(alloc),
            letters: Vec::new(alloc),
            digits: Vec::new(alloc),
        })
    }

    /// The patterns and the minima that were read.
    pub fn into_parts(self) -> (Trie, Minima)
        ensures trie { result.0 ≡ self.trie }
        ensures minima { result.1 ≡ self.minima }
    {
        let Reader {
            trie,
            minima,
            line: _,
            letters: _,
            digits: _,
        } = self;
        (trie, minima)
    }

    // Adds the pattern that the line is.
    fn add(&mut self) -> Result<(), AllocError>
        requires { IsTrie self.old.trie }
        ensures is { OnOk result (IsTrie self.new.trie) }
        ensures keeps { OnOk result ((patterns : List Pattern) → Keeps self.old.trie patterns → Keeps self.new.trie (patterns ++ pattern_of 0 self.old.line.items ∷ [])) }
        ensures minima { self.new.minima ≡ self.old.minima }
    {
        read_pattern(self.line.as_slice(), &mut self.letters, &mut self.digits)?;
        self.trie
            .add(self.letters.as_slice(), self.digits.as_slice())?;
        Ok(())
    }

    // Reads a line with this number.
    fn read(
        &mut self,
        encoding: Encoding,
        number: usize,
        line: &[u8],
    ) -> Result<(), HyphenationError>
        requires { IsTrie self.old.trie }
        ensures ok { OnOk result (Reads self.old self.new (decoded encoding (trimmed line.now))) }
        ensures err { IfErr result (IsLineError number (decoded encoding (trimmed line.now))) }
    {
        decode(encoding, trimmed(line), &mut self.line)?;
        match kind_of(self.line.as_slice()) {
            LineKind::Nothing => Ok(()),
            LineKind::Left(left) => {
                self.minima.left = left;
                Ok(())
            }
            LineKind::Right(right) => {
                self.minima.right = right;
                Ok(())
            }
            LineKind::OfPattern => Ok(self.add()?),
            LineKind::Faulty(fault) => Err(HyphenationError::Text(number, fault)),
        }
    }

    /// Reads all lines of what follows the first line of a text.
    pub fn read_all(&mut self, encoding: Encoding, text: &[u8]) -> Result<(), HyphenationError>
        requires { IsTrie self.old.trie }
        ensures ok { OnOk result (ReadsAll self.old self.new (map (λ line. decoded encoding (trimmed line)) (lines text.now))) }
        ensures err { IfErr result (IsLinesError (map (λ line. decoded encoding (trimmed line)) (lines text.now))) }
    {
        let mut rest = text;
        let mut number = 1;
        'lines: while !rest.is_empty() {
            let (line, others) = first_line(rest);
            rest = others;
            number += 1;
            self.read(encoding, number, line)?;
        }
        Ok(())
    }
}
