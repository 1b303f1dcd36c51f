//! Lines up to a limit.
ghost use Rattle.std.specs.Prelude.{◌≡◌, ◌++◌, ◌<◌, ◌≤◌, [], get_or, length, take, IfOk, MatchOption};
ghost use Rattle.std.specs.List.{position_or_len};
ghost use Rattle.icu_segmenter.specs.NearBoundaries.{line_feed};
ghost use Rattle.segment_text.specs.Limit.{last_line, lines_before, most_lines, placed_behind};
ghost use Rattle.segment_text.specs.Lines.{ended_lines, is_line_feed, lines_in};
ghost use Rattle.segment_text.specs.Size.{line_feeds};

use crate::size::line_feeds;
use std::alloc::{AllocError, Global};

/// How many lines there may be.
#[derive(Clone, Copy)]
pub struct Limit<'a> {
    /// How many lines; 0 counts as 1.
    pub lines: usize,
    /// What ends the last of them where there are more, such as ` [...]`.
    pub placeholder: &'a str,
}

impl<'a> Limit<'a> {
    /// The lines of a text before the last that there may be, with their line feeds, and that line, without one. None where the text has at most
    /// as many line feeds as there may be lines. Takes no memory.
    pub fn split<'t>(self, text: &'t [u8]) -> Option<(&'t [u8], &'t [u8])>
        ensures { MatchOption result (line_feeds text.now ≤ most_lines self.entry.lines)
            (λ parts. (most_lines self.entry.lines < line_feeds text.now) × (parts.0.now ≡ lines_before self.entry.lines text.now) × (parts.1.now ≡ last_line self.entry.lines text.now)) }
    {
        let most = self.lines.max(1);
        if line_feeds(text) <= most {
            return None;
        }
        Some(first_lines(text, most - 1))
    }

    /// The placeholder behind some bytes, or where there are none without the white space at its start, and a line feed. Fails only when out of
    /// memory.
    pub fn placed_behind(self, alloc: Global, kept: &[u8]) -> Result<Vec<u8>, AllocError>
        ensures { IfOk result (λ line. line.items ≡ placed_behind kept.now self.entry.placeholder.now ++ line_feed) }
    {
        let placeholder = if kept.is_empty() {
            self.placeholder.trim_start()
        } else {
            self.placeholder
        };
        let mut line = kept.to_vec(alloc)?;
        line.extend_from_slice(placeholder.as_bytes())?;
        line.extend_from_slice(b"\n")?;
        Ok(line)
    }
}

// The first so many lines of a text, with their line feeds, and the next, without one.
fn first_lines(text: &[u8], count: usize) -> (&[u8], &[u8])
    requires { count ≤ line_feeds text.now }
    ensures lines { result.0.now ≡ ended_lines (take count (lines_in text.now)) }
    ensures next { result.1.now ≡ get_or (lines_in text.now) count [] }
{
    let mut rest = text;
    'lines: for _line in 0..count {
        let (_, behind) = rest.split_at(line_len(rest) + 1);
        rest = behind;
    }
    (&text[..text.len() - rest.len()], &rest[..line_len(rest)])
}

// How many bytes the line has that a text begins with, without its line feed.
fn line_len(text: &[u8]) -> usize
    ensures value { result ≡ position_or_len is_line_feed text.now }
    ensures within { result ≤ length text.now }
{
    text.iter().take_while(|byte| **byte != b'\n').count()
}
