//! Texts that are too large.

use std::alloc::{AllocError, Global};

/// So many sets of a code point each.
pub(crate) fn sets(alloc: Global, count: u32) -> Result<String, AllocError> {
    let mut text = String::new(alloc);
    for number in 0..count {
        let set = format!(in alloc; "S{number} = U+{number:04X}\n")?;
        text.push_str(set.as_str())?;
    }
    Ok(text)
}

/// So many rules.
pub(crate) fn rules(alloc: Global, count: u32) -> Result<String, AllocError> {
    let mut text = String::from_str(alloc, "A = [a]\n")?;
    for _ in 0..count {
        text.push_str("A × A\n")?;
    }
    Ok(text)
}

/// A line with so many parentheses.
pub(crate) fn line(alloc: Global, count: u32) -> Result<String, AllocError> {
    let mut text = String::from_str(alloc, "A = [a]\n")?;
    for _ in 0..count {
        text.push('(')?;
    }
    Ok(text)
}
