//! Patterns of hyphenation, and the points of words.

ghost use Rattle.std.specs.Prelude.{◌≡◌, [], None, IfErr, IfOk, OnOk, OnErr};
ghost use Rattle.seg_hyphens.specs.Tries.{IsSound};

use crate::fault::{Fault, HyphenationError};
use crate::lines::{encoding_of, first_line, trimmed};
use crate::places::{Minima, keep_places};
use crate::reading::Reader;
use crate::trie::Trie;
use crate::values::set_values;
use std::alloc::{AllocError, Global};
use std::fmt;

/// Patterns of hyphenation, as Liang has them.
pub struct HyphenationPatterns {
    trie: Trie,
    minima: Minima,
    ghost sound: { IsSound trie },
}

impl fmt::Debug for HyphenationPatterns {
    fn fmt<W: fmt::Write>(&self, f: &mut fmt::Formatter<W>) -> fmt::Result {
        f.write_str("HyphenationPatterns { .. }")
    }
}

// Written out, so that it is proved here and not in each program.
impl Drop for HyphenationPatterns {
    fn drop(self) {
        let HyphenationPatterns { trie: _, minima: _ } = self;
    }
}

impl HyphenationPatterns {
    ghost use Rattle.seg_hyphens.specs.Liang.{ArePoints, Hyphenation};
    ghost use Rattle.seg_hyphens.specs.Patterns.{Means};
    ghost use Rattle.seg_hyphens.specs.Texts.{fault_in, IsErrorOf, Says};

    /// Reads patterns from a text, as the files `hyph_*.dic` are.
    ///
    /// Its first line names the encoding: UTF-8 or ISO8859-1, also as ISO-8859-1. Each other line is a comment behind `#` or `%`, empty, a
    /// minimum, or a pattern: letters and digits from 0 to 9, and a dot for an edge of a word. The minima are LEFTHYPHENMIN and
    /// RIGHTHYPHENMIN, a space and a digit from 1 to 9: as many characters stand at least before and behind a point. The last ones count, and
    /// without them 2 do. COMPOUNDLEFTHYPHENMIN and COMPOUNDRIGHTHYPHENMIN say nothing, since there is one level. White space at the
    /// end of a line counts for nothing. Where digits stand side by side, the last one counts.
    ///
    /// Takes some 65 bytes for each beginning of a pattern, which patterns that begin alike share. `Text` has the first line that is at fault,
    /// and its fault. `Memory` comes when out of memory before that line.
    pub fn try_from_text(alloc: Global, text: &[u8]) -> Result<Self, HyphenationError>
        ensures ok { IfOk result (λ patterns. (hyphenation : Hyphenation) × (Says text.now hyphenation × Means patterns hyphenation)) }
        ensures faultless { OnOk result (fault_in text.now ≡ None) }
        ensures err { IfErr result (IsErrorOf text.now) }
    {
        let (first, rest) = first_line(text);
        let Some(encoding) = encoding_of(trimmed(first)) else {
            return Err(HyphenationError::Text(1, Fault::NotEncoding));
        };
        let mut reader = Reader::try_new(alloc)?;
        reader.read_all(encoding, rest)?;
        let (trie, minima) = reader.into_parts();
        Ok(HyphenationPatterns { trie, minima })
    }

    /// Puts into `points` the places where a word may be hyphenated, in order: each says how many of its bytes stand before it. What
    /// stood there goes.
    ///
    /// Of all patterns that fit the word with its edges, the greatest digit at a place decides. A point is where it is odd, and where as many
    /// characters as the patterns want stand before and behind. Letters are taken as they are, so a caller puts the word into lower case where
    /// the patterns are. A dot in the word counts as an edge of it.
    ///
    /// Takes 8 bytes in `points` for each byte of the word, and 24 more, unless they are there. `points` is empty after an error, which is
    /// want of memory.
    pub fn points(&self, word: &str, points: &mut Vec<usize>) -> Result<(), AllocError>
        ensures points { (hyphenation : Hyphenation) → Means self.now hyphenation → OnOk result (ArePoints hyphenation word.now points.new.items) }
        ensures err { OnErr result (points.new.items ≡ []) }
    {
        let letters = word.as_bytes();
        points.clear();
        points.resize(letters.len() + 3, 0)?;
        set_values(&self.trie, letters, points.as_mut_slice());
        keep_places(self.minima, letters, points);
        Ok(())
    }
}
