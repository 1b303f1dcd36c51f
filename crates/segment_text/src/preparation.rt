//! What is done to a text before its segments or its wrapped lines are found.
ghost use Rattle.std.specs.Prelude.{◌≡◌, IfOk};
ghost use Rattle.segment_text.specs.Preparation.{prepared};

use crate::joined::join_lines;
use crate::tabs::expand_tabs;
use std::alloc::{AllocError, Global};

/// What is done to a text before its segments or its wrapped lines are found.
#[derive(Clone, Copy, PartialEq, Eq)]
pub struct Preparation {
    /// First each tab becomes spaces up to the next multiple of so many columns.
    pub tabs: Option<usize>,
    /// And then the lines of each paragraph are joined.
    pub joins: bool,
}

impl Preparation {
    /// The text after it. Fails only when out of memory.
    pub fn apply(self, alloc: Global, text: Vec<u8>) -> Result<Vec<u8>, AllocError>
        ensures { IfOk result (λ made. made.items ≡ prepared self text.items) }
    {
        let spaced = match self.tabs {
            Some(columns) => expand_tabs(alloc, text.as_slice(), columns)?,
            None => text,
        };
        if self.joins {
            join_lines(alloc, spaced.as_slice())
        } else {
            Ok(spaced)
        }
    }
}
