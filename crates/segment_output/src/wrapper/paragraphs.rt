//! Lines that are chosen paragraph by paragraph: balanced ones, and those with hyphens.
ghost use Rattle.std.specs.Prelude.{◌≡◌, ◌++◌, ◌≤◌, length, IfOk, OnOk};
ghost use Rattle.std.specs.List.{All};
ghost use Rattle.seg_wrap.specs.declared.wrap.wrapping.Span.{Span};
ghost use Rattle.segment_output.specs.Paragraphs.{AddsParagraph, AppendsSome, IsParagraphOutput, IsTextWithin, IsWrittenFrom, chosen_by, hyphen, shown_spans};
ghost use Rattle.icu_segmenter.specs.Wrapping.{TextLine};
ghost use Rattle.segment_output.specs.Wrapped.{shown_line};
ghost use Rattle.segment_output.specs.Wrapper.{wrapping_of};

use crate::wrapper::Wrapper;
use icu_segmenter::indices::Utf8CharIndices;
use icu_segmenter::wrap::{Fit, ParagraphStyle, Paragraphs, Span};
use segment_text::gathered::{LINES_CAPACITY, LINES_LEN, write_lines};
use std::alloc::{AllocError, Global};
use std::io;
use std::io::Write;

impl Wrapper {
    /// Writes the lines of a text, chosen paragraph by paragraph, each without its trailing white space and with a line feed, and flushes. Where
    /// the wrapper has patterns, words are hyphenated by them: a line may end at a point of a word, behind which a hyphen is written. Columns
    /// above 4,294,967,295 are as many. What is ill-formed is written as it is. The errors are the writer's, and being out of memory.
    pub fn print_paragraphs<O: Write>(
        &self,
        alloc: Global,
        fit: Fit,
        text: &[u8],
        out: &mut O,
    ) -> io::Result<()>
        ensures { OnOk result (AppendsSome (O.contents out.old) (O.contents out.new) (IsParagraphOutput (chosen_by self.now fit) text.now)) }
    {
        let wrapper = self.lines.wrapper(self.counted_clusters());
        let style = ParagraphStyle {
            room: self.room,
            fit,
        };
        let mut paragraphs = wrapper.paragraphs_utf8(text, style);
        self.write_paragraphs(alloc, text, &mut paragraphs, out)
    }

    // Writes the lines of each paragraph that comes, and flushes.
    fn write_paragraphs<O: Write>(
        &self,
        alloc: Global,
        text: &[u8],
        paragraphs: &mut Paragraphs<'_, Utf8CharIndices<'_>>,
        out: &mut O,
    ) -> io::Result<()>
        requires { IsTextWithin text.now paragraphs.old.text }
        ensures { OnOk result (AppendsSome (O.contents out.old) (O.contents out.new) (IsWrittenFrom (wrapping_of self.now) self.now.patterns text.now paragraphs.old)) }
    {
        let mut gathered = Vec::with_capacity(alloc, LINES_CAPACITY)?;
        'paragraphs: loop {
            if !self.push_paragraph(alloc, text, paragraphs, &mut gathered)? {
                break 'paragraphs;
            }
            if gathered.len() >= LINES_LEN {
                write_lines(&mut gathered, out)?;
            }
        }
        out.write_all(gathered.as_slice())?;
        out.flush()
    }

    // Adds the lines of the next paragraph as they are shown. Returns whether there was one.
    fn push_paragraph(
        &self,
        alloc: Global,
        text: &[u8],
        paragraphs: &mut Paragraphs<'_, Utf8CharIndices<'_>>,
        gathered: &mut Vec<u8>,
    ) -> Result<bool, AllocError>
        requires { IsTextWithin text.now paragraphs.old.text }
        ensures { IfOk result (AddsParagraph (wrapping_of self.now) self.now.patterns text.now paragraphs.old paragraphs.new gathered.old.items gathered.new.items) }
    {
        let spans = paragraphs.next_paragraph(alloc, self.patterns.as_ref())?;
        self.push_spans(alloc, text, spans.as_slice(), gathered)?;
        Ok(!spans.is_empty())
    }

    // Adds these lines of a text as they are shown.
    fn push_spans(
        &self,
        alloc: Global,
        text: &[u8],
        spans: &[Span],
        gathered: &mut Vec<u8>,
    ) -> Result<(), AllocError>
        requires { All (λ (span : Span). (span.start ≤ span.end) × (span.end ≤ length text.now)) spans.now }
        ensures { OnOk result (gathered.new.items ≡ gathered.old.items ++ shown_spans (wrapping_of self.now) text.now spans.now) }
    {
        'spans: for span in spans {
            let line = &text[span.start..span.end];
            if span.is_hyphenated {
                self.push_hyphenated(alloc, line, span, gathered)?;
            } else {
                self.push_shown(line, span.columns, span.is_first, gathered)?;
            }
        }
        Ok(())
    }

    // Adds a line as it is shown, with a hyphen at its end.
    fn push_hyphenated(
        &self,
        alloc: Global,
        line: &[u8],
        span: &Span,
        gathered: &mut Vec<u8>,
    ) -> Result<(), AllocError>
        ensures { OnOk result ((shown : TextLine) → shown.units ≡ line.now ++ hyphen → shown.columns ≡ span.now.columns → shown.is_first ≡ span.now.is_first
            → gathered.new.items ≡ gathered.old.items ++ shown_line (wrapping_of self.now) shown) }
    {
        let mut hyphenated = line.to_vec(alloc)?;
        hyphenated.push(b'-')?;
        self.push_shown(hyphenated.as_slice(), span.columns, span.is_first, gathered)
    }
}
