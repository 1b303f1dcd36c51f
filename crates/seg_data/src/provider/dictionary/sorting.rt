//! Words in the order of a dictionary.
ghost use Rattle.std.specs.Prelude.{◌≡◌, IfOk};
ghost use Rattle.std.specs.Str.{chars};
ghost use Rattle.seg_data.specs.WordSets.{IsInOrder, IsSameSet, code_points_of_each, held};

use std::alloc::{AllocError, Global};

/// The words in order, each once.
pub(super) fn sorted(alloc: Global, words: &[&str]) -> Result<Vec<Vec<char>>, AllocError>
    ensures order { IfOk result (λ sorted. IsInOrder (held sorted.items)) }
    ensures same { IfOk result (λ sorted. IsSameSet (held sorted.items) (code_points_of_each words.now)) }
{
    let mut sorted = characters(alloc, words)?;
    sorted.sort()?;
    sorted.dedup();
    Ok(sorted)
}

// The characters of each word.
fn characters(alloc: Global, words: &[&str]) -> Result<Vec<Vec<char>>, AllocError>
    ensures { IfOk result (λ all. held all.items ≡ code_points_of_each words.now) }
{
    let mut all = Vec::new(alloc);
    for &word in words {
        all.push(characters_of(alloc, word)?)?;
    }
    Ok(all)
}

// The characters of a word.
fn characters_of(alloc: Global, word: &str) -> Result<Vec<char>, AllocError>
    ensures { IfOk result (λ characters. characters.items ≡ chars word.now) }
{
    let mut characters = Vec::new(alloc);
    for character in word.chars() {
        characters.push(character)?;
    }
    Ok(characters)
}
