//! Words, and what each means.

/// What a word means by a table of words, if it is one of them.
pub fn meaning<T: Copy>(table: &[(&str, T)], word: &str) -> Option<T> {
    for (known, meant) in table {
        if *known == word {
            return Some(*meant);
        }
    }
    None
}
