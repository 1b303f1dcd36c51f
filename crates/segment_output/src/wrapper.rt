//! Lines, wrapped to columns.
ghost use Rattle.std.specs.Prelude.{◌≡◌, ◌++◌, length, IfOk, IsTrue, OnOk};
ghost use Rattle.std.specs.Option.{option_map};
ghost use Rattle.std.specs.Io.KnownBytes.{Appends};
ghost use Rattle.icu_segmenter.specs.Boundaries.{IsCover};
ghost use Rattle.icu_segmenter.specs.Clusters.{cluster_rules, owned_cluster_rules};
ghost use Rattle.icu_segmenter.specs.Decoding.{utf8};
ghost use Rattle.icu_segmenter.specs.LineBreaks.{line_boundaries_of};
ghost use Rattle.icu_segmenter.specs.Lines.{owned_line_rules};
ghost use Rattle.icu_segmenter.specs.NearBoundaries.{line_feed};
ghost use Rattle.icu_segmenter.specs.Rules.{PartsBehind};
ghost use Rattle.icu_segmenter.specs.ScriptWords.{script_words};
ghost use Rattle.icu_segmenter.specs.WrappedLines.{utf8_lines_to_come};
ghost use Rattle.icu_segmenter.specs.Wrapping.{TextLine};
ghost use Rattle.segment_output.specs.Wrapped.{EndsLines, cluster_lines, indent_in, printed_lines, shown_line, shown_lines, wrapped_output};
ghost use Rattle.segment_output.specs.Wrapper.{wrapping_of, IsAskedWrapper};

pub mod limited;
mod paragraphs;

use crate::machine_lines::MachineLines;
use icu_segmenter::hyphens::HyphenationPatterns;
use icu_segmenter::options::{LineBreakOptions, LineBreakStrictness};
use icu_segmenter::provider::{DataError, Dictionaries};
use icu_segmenter::wrap::{Room, WrapUtf8Iterator};
use icu_segmenter::{GraphemeClusterSegmenter, GraphemeClusterSegmenterBorrowed};
use icu_segmenter_data::grapheme_segmenter;
use segment_text::gathered::{LINES_CAPACITY, LINES_LEN, write_lines};
use segment_text::trimmed::{push_line, without_trailing_space};
use std::alloc::{AllocError, Global};
use std::io;
use std::io::Write;

/// How lines are wrapped.
#[derive(Clone, Copy)]
pub struct Width<'a> {
    /// The columns that a line has at most, with its indent, unless no line may end in it.
    pub columns: usize,
    /// What stands before the first line of each paragraph.
    pub first_indent: &'a str,
    /// What stands before the other lines.
    pub indent: &'a str,
    /// Whether what is wider, and no line may end in it, is broken between clusters.
    pub breaks_words: bool,
    /// Whether columns are counted cluster by cluster, and not character by character.
    pub by_cluster: bool,
}

/// Wraps lines, with data of its own.
#[derive(Drop)]
pub struct Wrapper {
    /// What stands before the first line of each paragraph.
    first_indent: Vec<u8>,
    /// What stands before the other lines.
    indent: Vec<u8>,
    /// The columns that a line has at most.
    columns: usize,
    /// Those that it has behind its indent.
    room: Room,
    /// The clusters by which they are counted; by character where there are none.
    counted: Option<GraphemeClusterSegmenter>,
    /// What finds where a line may end.
    lines: MachineLines,
    /// What finds it in a line that is wider, where such lines are broken: at each cluster.
    clusters: Option<MachineLines>,
    /// By which patterns words are hyphenated, if they are.
    patterns: Option<HyphenationPatterns>,
}

impl Wrapper {
    /// Writes the wrapped lines of a text, each without its trailing white space and with a line feed, and flushes. What is ill-formed is
    /// written as it is. The places where a line may break cover the text. The errors are the writer's, and being out of memory.
    pub fn print<O: Write>(&self, alloc: Global, text: &[u8], out: &mut O) -> io::Result<()>
        ensures cover { IsCover 0 (length text.now) (line_boundaries_of (wrapping_of self.now).lines (utf8 text.now)) }
        ensures written { OnOk result (Appends (O.contents out.old) (O.contents out.new) (wrapped_output (wrapping_of self.now) text.now)) }
    {
        self.lines.cover(text);
        let counted = self.counted_clusters();
        let wrapper = self.lines.wrapper(counted);
        self.print_all(alloc, wrapper.wrap_utf8_within(text, self.room), out)
    }

    // The clusters by which columns are counted, if they are.
    fn counted_clusters(&self) -> Option<GraphemeClusterSegmenterBorrowed<'_>>
        ensures { option_map cluster_rules result ≡ option_map owned_cluster_rules self.now.counted }
    {
        match &self.counted {
            Some(clusters) => Some(clusters.as_borrowed()),
            None => None,
        }
    }

    // Writes each line that comes as it is shown, and flushes.
    fn print_all<O: Write>(
        &self,
        alloc: Global,
        lines: WrapUtf8Iterator<'_, '_>,
        out: &mut O,
    ) -> io::Result<()>
        ensures { OnOk result (Appends (O.contents out.old) (O.contents out.new) (shown_lines (wrapping_of self.now) (utf8_lines_to_come lines.entry))) }
    {
        let mut gathered = Vec::with_capacity(alloc, LINES_CAPACITY)?;
        for line in lines {
            self.push_shown(line.bytes(), line.columns(), line.is_first(), &mut gathered)?;
            if gathered.len() >= LINES_LEN {
                write_lines(&mut gathered, out)?;
            }
        }
        out.write_all(gathered.as_slice())?;
        out.flush()
    }

    // Adds a line that takes so many columns as it is shown.
    fn push_shown(
        &self,
        line: &[u8],
        columns: u128,
        is_first: bool,
        gathered: &mut Vec<u8>,
    ) -> Result<(), AllocError>
        ensures { OnOk result ((shown : TextLine) → shown.units ≡ line.now → shown.columns ≡ columns → shown.is_first ≡ is_first
            → gathered.new.items ≡ gathered.old.items ++ shown_line (wrapping_of self.now) shown) }
    {
        match &self.clusters {
            Some(clusters) if columns > self.room.columns(is_first) as u128 => {
                let wrapper = clusters.wrapper(self.counted_clusters());
                let room = Room {
                    first: self.room.columns(is_first),
                    ..self.room
                };
                let parts = wrapper.wrap_utf8_within(without_trailing_space(line), room);
                self.push_parts(parts, is_first, gathered)
            }
            _ => push_line(
                self.indent(is_first),
                self.indent.as_slice(),
                line,
                gathered,
            ),
        }
    }

    // What stands before a line.
    fn indent(&self, is_first: bool) -> &[u8]
        ensures { result.now ≡ indent_in (wrapping_of self.now).indents is_first }
    {
        if is_first {
            self.first_indent.as_slice()
        } else {
            self.indent.as_slice()
        }
    }

    // Adds the parts of a line.
    fn push_parts(
        &self,
        parts: WrapUtf8Iterator<'_, '_>,
        is_first: bool,
        gathered: &mut Vec<u8>,
    ) -> Result<(), AllocError>
        ensures { OnOk result (gathered.new.items ≡ gathered.old.items ++ printed_lines (wrapping_of self.now).indents is_first (utf8_lines_to_come parts.entry)) }
    {
        for part in parts {
            let indent = self.indent(part.is_first() & is_first);
            push_line(indent, self.indent.as_slice(), part.bytes(), gathered)?;
        }
        Ok(())
    }

    /// Whether a text may be wrapped part by part, each behind a line feed: the lines of the parts are those of the whole text. It is so by
    /// the rules of lines, and not where a line may break before any cluster, since there none must end. Takes no memory.
    pub fn has_parts(&self) -> bool
        ensures parts { IsTrue result → PartsBehind (λ bytes. line_boundaries_of (wrapping_of self.now).lines (utf8 bytes)) line_feed }
        ensures ends { IsTrue result → EndsLines (wrapping_of self.now).lines }
    {
        self.lines.has_parts()
    }
}

/// A wrapper to a width, with these options of lines, these dictionaries, and patterns of hyphenation, if some are given. Fails only when out of
/// memory.
pub fn wrapper_of(
    alloc: Global,
    width: Width<'_>,
    options: LineBreakOptions<'_>,
    dictionaries: Dictionaries,
    patterns: Option<HyphenationPatterns>,
) -> Result<Wrapper, DataError>
    ensures asked { IfOk result (λ wrapper. IsAskedWrapper width.entry options.entry (script_words dictionaries) wrapper) }
    ensures patterns { IfOk result (λ wrapper. wrapper.patterns ≡ patterns) }
{
    let counted = if width.by_cluster {
        Some(grapheme_segmenter(alloc)?)
    } else {
        None
    };
    let clusters = if width.breaks_words {
        Some(cluster_lines(alloc)?)
    } else {
        None
    };
    Ok(Wrapper {
        first_indent: width.first_indent.as_bytes().to_vec(alloc)?,
        indent: width.indent.as_bytes().to_vec(alloc)?,
        columns: width.columns,
        room: Room::beside(width.columns, width.first_indent, width.indent),
        counted,
        lines: MachineLines::try_new(alloc, options, dictionaries)?,
        clusters,
        patterns,
    })
}

// Lines that may end at each boundary of a cluster.
fn cluster_lines(alloc: Global) -> Result<MachineLines, DataError>
    ensures { IfOk result (λ lines. owned_line_rules lines.lines ≡ cluster_lines) }
{
    let options = LineBreakOptions {
        strictness: Some(LineBreakStrictness::Anywhere),
        word_option: None,
        content_locale: None,
    };
    MachineLines::try_new(alloc, options, Dictionaries::none())
}
