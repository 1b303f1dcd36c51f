//! Texts whose lines are joined to paragraphs.
ghost use Rattle.std.specs.Prelude.{◌≡◌, ◌≤◌, ◌&&◌, ◌==◌, length, take, drop, not, IfOk};
ghost use Rattle.std.specs.List.{prefix_len, suffix_len};
ghost use Rattle.segment_text.specs.Joined.{are_joined, is_apart, is_white_space, joined, joined_space, line_behind};

use crate::size::line_feeds;
use std::alloc::{AllocError, Global};

/// The text in which the lines of each paragraph are joined: between two words a line feed, with the spaces, tabs and carriage returns around
/// it, becomes one space. It stays, with what is around it, where lines are blank, indented otherwise, quoted (`>`) or begin with `-- `, as all
/// white space does at the text's start and end. Fails only when out of memory.
pub fn join_lines(alloc: Global, text: &[u8]) -> Result<Vec<u8>, AllocError>
    ensures { IfOk result (λ paragraphs. paragraphs.items ≡ joined text.now) }
{
    let mut paragraphs = Vec::new(alloc);
    let indented = space_len(text);
    let (start, mut rest) = text.split_at(indented);
    let mut line = line_behind(text, text, indented);
    paragraphs.extend_from_slice(start)?;
    while !rest.is_empty() {
        let (word, after) = rest.split_at(word_len(rest));
        let gap = space_len(after);
        let (space, next) = after.split_at(gap);
        let following = line_behind(line, after, gap);
        paragraphs.extend_from_slice(word)?;
        paragraphs.extend_from_slice(joined_space(line, space, next, following))?;
        rest = next;
        line = following;
    }
    Ok(paragraphs)
}

// How many bytes of white space a text begins with.
fn space_len(text: &[u8]) -> usize
    ensures value { result ≡ prefix_len is_white_space text.now }
    ensures within { result ≤ length text.now }
{
    text.iter()
        .take_while(|byte| is_white_space(**byte))
        .count()
}

// How many other bytes a text begins with.
fn word_len(text: &[u8]) -> usize
    ensures value { result ≡ prefix_len (λ byte. not (is_white_space byte)) text.now }
    ensures within { result ≤ length text.now }
{
    text.iter()
        .take_while(|byte| !is_white_space(**byte))
        .count()
}

fn is_white_space(byte: u8) -> bool
    ensures { result ≡ is_white_space byte }
{
    byte == b' ' || byte == b'\t' || byte == b'\n' || byte == b'\r'
}

// The text from where the line begins that goes on behind so many bytes of white space.
fn line_behind<'t>(line: &'t [u8], after: &'t [u8], gap: usize) -> &'t [u8]
    requires within { gap ≤ length after.now }
    ensures { result.now ≡ line_behind line.now (take gap after.now) (drop gap after.now) }
{
    let space = &after[..gap];
    if line_feeds(space) == 0 {
        return line;
    }
    &after[gap - indentation_len(space)..]
}

// How many bytes of white space stand behind its last line feed.
fn indentation_len(space: &[u8]) -> usize
    ensures value { result ≡ suffix_len (λ byte. not (byte == 0x0A)) space.now }
    ensures within { result ≤ length space.now }
{
    space
        .iter()
        .rev()
        .take_while(|byte| **byte != b'\n')
        .count()
}

// What is written for the white space between a line's words and some bytes.
fn joined_space<'s>(line: &[u8], space: &'s [u8], next: &[u8], following: &[u8]) -> &'s [u8]
    requires { following.now ≡ line_behind line.now space.now next.now }
    ensures { result.now ≡ joined_space line.now space.now next.now }
{
    match next {
        [_, ..] if line_feeds(space) == 1 && are_joined(line, following) => b" ",
        _ => space,
    }
}

// Whether two lines, one behind the other, are of one paragraph.
fn are_joined(line: &[u8], following: &[u8]) -> bool
    ensures { result ≡ are_joined line.now following.now }
{
    let (indented, also_indented) = (space_len(line), space_len(following));
    line[..indented] == following[..also_indented] && !is_apart(line) && !is_apart(following)
}

// Whether a line stays as it is: a quoted one, and one that begins with the hyphens before a signature.
fn is_apart(line: &[u8]) -> bool
    ensures { result ≡ is_apart line.now }
{
    let words = &line[space_len(line)..];
    words.starts_with(b">") || words.starts_with(b"-- ")
}
