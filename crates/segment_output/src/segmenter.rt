//! Segmenters by Unicode's data.
ghost use Rattle.std.specs.Prelude.{◌≡◌, ◌≤◌, ◌++◌, ℕ, List, length, IfOk, IfSome, IsTrue, false};
ghost use Rattle.std.specs.Option.{option_map};
ghost use Rattle.std.specs.Io.KnownBytes.{Appends};
ghost use Rattle.segment_output.specs.Output.{lines_at, look_of, segments, shown_boundaries};
ghost use Rattle.icu_segmenter.specs.Abbreviations.{abbreviations_of};
ghost use Rattle.icu_segmenter.specs.Boundaries.{IsCover};
ghost use Rattle.icu_segmenter.specs.Clusters.{owned_cluster_rules, owned_sentence_rules};
ghost use Rattle.icu_segmenter.specs.Lines.{line_rules, owned_line_rules};
ghost use Rattle.icu_segmenter.specs.Decoding.{utf8};
ghost use Rattle.icu_segmenter.specs.NearBoundaries.{SplitsAt, line_feed};
ghost use Rattle.icu_segmenter.specs.Rules.{PartsBehind};
ghost use Rattle.icu_segmenter.specs.ScriptWords.{script_words};
ghost use Rattle.icu_segmenter.specs.Suppressing.{suppressing_finder};
ghost use Rattle.icu_segmenter.specs.TextSegments.{marked};
ghost use Rattle.icu_segmenter.specs.Words.{owned_word_rules};
ghost use Rattle.segment_output.specs.Splits.{IsSplit};
ghost use Rattle.segment_output.specs.TextSegmenter.{anywhere_by, boundaries_by, cluster_rules_by, line_rules_by, line_rules_of, segments_in, sentence_rules_by, suppressed_finder, word_rules_by, IsAskedOf};
ghost use Rattle.segment_output.specs.declared.marks.Mark.TheVariants.{Rule, Unmarked};

use crate::marks::{Bare, HasMark, Limit, Marked, Ruled};
use crate::output::{Part, print_segments};
use crate::vocabulary::Vocabulary;
use icu_segmenter::cursor::{BoundaryFinder, last_split};
use icu_segmenter::options::{LineBreakOptions, LineBreakStrictness};
use icu_segmenter::provider::{
    DataError, Dictionaries, LineTailoringsBorrowed, SegmenterStateMachine,
};
use icu_segmenter::segments::{BreakIterator, Held};
use icu_segmenter::suppress::{Abbreviations, SuppressingSegmenter};
use icu_segmenter::{
    GraphemeClusterSegmenter, LineSegmenter, LineSegmenterBorrowed, SentenceSegmenter,
    WordSegmenter,
};
use icu_segmenter_data::classic;
use segment_text::blocks::whole_len;
use std::alloc::Global;
use std::io;
use std::io::Write;

/// What is found.
#[derive(Clone, Copy, PartialEq, Eq)]
pub enum Kind {
    /// Grapheme clusters.
    Clusters,
    /// Words, alone or with what stands between them.
    Words {
        /// Whether alone.
        alone: bool,
    },
    /// Sentences.
    Sentences,
    /// Lines.
    Lines,
}

/// What finds the boundaries, by Unicode's data.
#[derive(Clone, Copy, PartialEq, Eq)]
pub enum Engine {
    /// A state machine.
    Neo,
    /// A pair table.
    Classic,
    /// A pair table, and of lines that of the rules of the engine 17.
    Seventeen,
}

/// A segmenter with data of its own.
#[derive(Drop)]
pub enum TextSegmenter {
    /// Of grapheme clusters.
    Clusters(GraphemeClusterSegmenter),
    /// Of words, and whether they are shown alone, without what stands between them.
    Words(WordSegmenter, bool),
    /// Of sentences.
    Sentences(SentenceSegmenter),
    /// Of sentences, which go on after these abbreviations.
    Suppressing(SentenceSegmenter, Abbreviations),
    /// Of lines.
    Lines(LineSegmenter),
    /// Of what a machine of the caller's own finds, and whether that is shown alone which ends at a boundary without status 1.
    Ruled(SegmenterStateMachine, bool),
}

impl TextSegmenter {
    /// Writes the segments of a part of a text up to a limit, each on a line of its own, flushes, and says how many there are. All its segments
    /// cover the part: the first begins at its start, and the last ends at its end. The errors are the writer's, and being out of memory.
    pub fn print_part<L: Limit, O: Write>(
        &self,
        alloc: Global,
        part: Part<'_>,
        limit: L,
        out: &mut O,
    ) -> io::Result<usize>
        ensures cover { IsCover 0 (length part.entry.bytes.now) (boundaries_by self.now part.entry.bytes.now) }
        ensures written { IfOk result (λ count. (count ≡ length (segments_in self.now (L.holds limit) part.entry.bytes.now))
            × Appends (O.contents out.old) (O.contents out.new) (lines_at (look_of part.entry) part.entry.before part.entry.bytes.now (segments_in self.now (L.holds limit) part.entry.bytes.now))) }
    {
        match self {
            TextSegmenter::Clusters(clusters) => {
                let breaks = clusters.as_borrowed().segment_utf8(part.bytes);
                print_unmarked(alloc, Found { breaks, limit }, part, out)
            }
            TextSegmenter::Words(words, alone) => {
                let breaks = words.as_borrowed().segment_utf8(part.bytes);
                print_breaks(alloc, Found { breaks, limit }, *alone, part, out)
            }
            TextSegmenter::Sentences(sentences) => {
                let breaks = sentences.as_borrowed().segment_utf8(part.bytes);
                print_unmarked(alloc, Found { breaks, limit }, part, out)
            }
            TextSegmenter::Suppressing(sentences, abbreviations) => {
                let breaks = suppressing(sentences, abbreviations).segment_utf8(part.bytes);
                print_unmarked(alloc, Found { breaks, limit }, part, out)
            }
            TextSegmenter::Lines(lines) => {
                let breaks = lines.as_borrowed().segment_utf8(part.bytes);
                print_breaks(alloc, Found { breaks, limit }, false, part, out)
            }
            TextSegmenter::Ruled(machine, alone) => {
                let breaks = anywhere(machine).segment_utf8(part.bytes);
                print_ruled(alloc, Found { breaks, limit }, *alone, part, out)
            }
        }
    }
}

// The boundaries that are found in a part, and up to where its segments are written.
#[derive(Drop)]
struct Found<B: BreakIterator, L: Limit> {
    breaks: B,
    limit: L,
}

// Writes the segments between the boundaries that come up to the limit, of which nothing is said.
#[inline(always)]
fn print_unmarked<B: BreakIterator<Mark = ()>, L: Limit, O: Write>(
    alloc: Global,
    found: Found<B, L>,
    part: Part<'_>,
    out: &mut O,
) -> io::Result<usize>
    ensures { IfOk result (λ count.
        let shown = segments false (marked (λ status. Unmarked) (shown_boundaries (L.holds found.limit) (B.left found.breaks))) in
        (count ≡ length shown) × Appends (O.contents out.old) (O.contents out.new) (lines_at (look_of part.entry) part.entry.before part.entry.bytes.now shown)) }
{
    let Found { breaks, limit } = found;
    let mut places = Bare {
        places: breaks.into_places(),
        limit,
    };
    print_segments(alloc, &mut places, false, part, out)
}

// Writes the segments between the boundaries that come up to the limit, or words alone, with what is said of each.
#[inline(always)]
fn print_marked<M: HasMark, B: BreakIterator<Mark = M>, L: Limit, O: Write>(
    alloc: Global,
    found: Found<B, L>,
    alone: bool,
    part: Part<'_>,
    out: &mut O,
) -> io::Result<usize>
    ensures { IfOk result (λ count.
        let shown = segments alone (marked (λ status. M.said (B.mark status)) (shown_boundaries (L.holds found.limit) (B.left found.breaks))) in
        (count ≡ length shown) × Appends (O.contents out.old) (O.contents out.new) (lines_at (look_of part.entry) part.entry.before part.entry.bytes.now shown)) }
{
    let Found { breaks, limit } = found;
    let mut places = Marked {
        breaks: Held::new(breaks),
        limit,
    };
    print_segments(alloc, &mut places, alone, part, out)
}

// Writes the segments between the boundaries that come up to the limit, or words alone. What is said of each is worked out only where that is asked for.
#[inline(always)]
fn print_breaks<M: HasMark, B: BreakIterator<Mark = M>, L: Limit, O: Write>(
    alloc: Global,
    found: Found<B, L>,
    alone: bool,
    part: Part<'_>,
    out: &mut O,
) -> io::Result<usize>
    ensures { IfOk result (λ count.
        let shown = segments alone (marked (λ status. M.said (B.mark status)) (shown_boundaries (L.holds found.limit) (B.left found.breaks))) in
        (count ≡ length shown) × Appends (O.contents out.old) (O.contents out.new) (lines_at (look_of part.entry) part.entry.before part.entry.bytes.now shown)) }
{
    if part.style.asks_marks(alone) {
        return print_marked(alloc, found, alone, part, out);
    }
    let Found { breaks, limit } = found;
    let mut places = Bare {
        places: breaks.into_places(),
        limit,
    };
    print_segments(alloc, &mut places, false, part, out)
}

// Writes the segments between the boundaries that come up to the limit by rules of the caller's own, or those alone that end at one
// without status 1.
#[inline(always)]
fn print_ruled<B: BreakIterator<Mark = bool>, L: Limit, O: Write>(
    alloc: Global,
    found: Found<B, L>,
    alone: bool,
    part: Part<'_>,
    out: &mut O,
) -> io::Result<usize>
    ensures { IfOk result (λ count.
        let shown = segments alone (marked (λ status. Rule (B.mark status)) (shown_boundaries (L.holds found.limit) (B.left found.breaks))) in
        (count ≡ length shown) × Appends (O.contents out.old) (O.contents out.new) (lines_at (look_of part.entry) part.entry.before part.entry.bytes.now shown)) }
{
    let Found { breaks, limit } = found;
    let mut places = Ruled {
        breaks: Held::new(breaks),
        limit,
    };
    print_segments(alloc, &mut places, alone, part, out)
}

impl TextSegmenter {
    /// Whether a text may be cut part by part, each behind a line feed: each has the boundaries that it has in the whole text. It is so
    /// by Unicode's machines. Takes no memory.
    pub fn has_parts(&self) -> bool
        ensures { IsTrue result → PartsBehind (boundaries_by self.now) line_feed }
    {
        match self {
            TextSegmenter::Clusters(clusters) => clusters.as_borrowed().parts_behind_line_feeds(),
            TextSegmenter::Words(words, _) => words.as_borrowed().parts_behind_line_feeds(),
            TextSegmenter::Sentences(sentences) => sentences
                .as_borrowed()
                .parts_behind_line_feeds(),
            TextSegmenter::Suppressing(sentences, abbreviations) => {
                suppressing(sentences, abbreviations).parts_behind_line_feeds()
            }
            TextSegmenter::Lines(lines) => lines.as_borrowed().parts_behind_line_feeds(),
            TextSegmenter::Ruled(machine, _) => anywhere(machine).parts_behind_line_feeds(),
        }
    }

    /// The last place in the beginning of a text where it may be split, whatever comes behind these bytes, as far as certain places tell:
    /// what stands from `least` on is looked at. Takes no memory.
    pub fn last_split(&self, bytes: &[u8], least: usize) -> Option<usize>
        ensures within { IfSome result (λ place. place ≤ length bytes.now) }
        ensures splits { IfSome result (SplitsAt (boundaries_by self.now) bytes.now) }
    {
        match self {
            TextSegmenter::Clusters(clusters) => last_split(&clusters.as_borrowed(), bytes, least),
            TextSegmenter::Words(words, _) => last_split(&words.as_borrowed(), bytes, least),
            TextSegmenter::Sentences(sentences) => last_split(
                &sentences.as_borrowed(),
                bytes,
                least,
            ),
            TextSegmenter::Suppressing(_, _) => None,
            TextSegmenter::Lines(lines) => last_split(&lines.as_borrowed(), bytes, least),
            TextSegmenter::Ruled(machine, _) => last_split(&anywhere(machine), bytes, least),
        }
    }

    /// A place in the beginning of a text where it may be split, whatever comes behind these bytes: the last certain one or, where none is known
    /// and texts may be cut behind line feeds, that behind the last line feed. What stands from `least` on is looked at. Takes no memory.
    pub fn split_place(&self, bytes: &[u8], least: usize) -> Option<usize>
        ensures within { IfSome result (λ place. place ≤ length bytes.now) }
        ensures splits { IfSome result (λ place. (more : List ℕ) → IsSplit (boundaries_by self.now) (bytes.now ++ more) place) }
    {
        if let Some(place) = self.last_split(bytes, least) {
            self.cover(bytes);
            return Some(place);
        }
        if self.has_parts() {
            self.line_place(bytes, least)
        } else {
            None
        }
    }

    // The place behind the last line feed that stands from `least` on.
    fn line_place(&self, bytes: &[u8], least: usize) -> Option<usize>
        requires { PartsBehind (boundaries_by self.now) line_feed }
        ensures within { IfSome result (λ place. place ≤ length bytes.now) }
        ensures splits { IfSome result (λ place. (more : List ℕ) → IsSplit (boundaries_by self.now) (bytes.now ++ more) place) }
    {
        let (front, rest) = bytes.split_at(least.min(bytes.len()));
        let Some(len) = whole_len(false, rest) else {
            return None;
        };
        let place = front.len() + len;
        self.cover(&bytes[..place]);
        Some(place)
    }

    // The first boundary of some bytes is at their start, and the last at their end. Takes no memory.
    fn cover(&self, bytes: &[u8])
        ensures { IsCover 0 (length bytes.now) (boundaries_by self.now bytes.now) }
    {
        match self {
            TextSegmenter::Clusters(clusters) => {
                drop(clusters.as_borrowed().segment_utf8(bytes));
            }
            TextSegmenter::Words(words, _) => {
                drop(words.as_borrowed().segment_utf8(bytes));
            }
            TextSegmenter::Sentences(sentences) => {
                drop(sentences.as_borrowed().segment_utf8(bytes));
            }
            TextSegmenter::Suppressing(sentences, abbreviations) => {
                drop(suppressing(sentences, abbreviations).segment_utf8(bytes));
            }
            TextSegmenter::Lines(lines) => {
                drop(lines.as_borrowed().segment_utf8(bytes));
            }
            TextSegmenter::Ruled(machine, _) => {
                drop(anywhere(machine).segment_utf8(bytes));
            }
        }
    }
}

// What finds sentences, which go on after these abbreviations.
fn suppressing<'data>(
    sentences: &'data SentenceSegmenter,
    abbreviations: &'data Abbreviations,
) -> SuppressingSegmenter<'data>
    ensures { suppressing_finder result ≡ suppressed_finder (owned_sentence_rules sentences.now) (abbreviations_of abbreviations.now) }
{
    SuppressingSegmenter {
        sentences: sentences.as_borrowed(),
        abbreviations,
    }
}

// What finds the boundaries of a machine of the caller's own, with their statuses: where a line may end anywhere, those of clusters are its
// breaks, and the machine may stand for that of clusters.
fn anywhere(machine: &SegmenterStateMachine) -> LineSegmenterBorrowed<'_>
    ensures { line_rules result ≡ anywhere_by machine.now }
{
    let options = LineBreakOptions {
        strictness: Some(LineBreakStrictness::Anywhere),
        word_option: None,
        content_locale: None,
    };
    let lines = LineSegmenterBorrowed::new_neo_for_non_complex_scripts(
        machine,
        LineTailoringsBorrowed::default(),
        machine,
        options,
    );
    let Ok(lines) = lines else { unreachable!() };
    lines
}

/// The segmenter of a kind by an engine, with these options of lines and these words where its kind has some. Fails only when out of memory.
pub fn segmenter_of(
    alloc: Global,
    kind: Kind,
    engine: Engine,
    options: LineBreakOptions<'_>,
    words: Vocabulary,
) -> Result<TextSegmenter, DataError>
    ensures { IfOk result (λ segmenter. IsAskedOf kind engine options.entry (script_words words.dictionaries) (option_map abbreviations_of words.abbreviations) segmenter) }
{
    let Vocabulary {
        dictionaries,
        abbreviations,
        patterns: _,
    } = words;
    match kind {
        Kind::Clusters => Ok(TextSegmenter::Clusters(cluster_segmenter(alloc, engine)?)),
        Kind::Words { alone } => {
            let words = word_segmenter(alloc, engine, dictionaries)?;
            Ok(TextSegmenter::Words(words, alone))
        }
        Kind::Sentences => {
            let sentences = sentence_segmenter(alloc, engine)?;
            match abbreviations {
                Some(abbreviations) => Ok(TextSegmenter::Suppressing(sentences, abbreviations)),
                None => Ok(TextSegmenter::Sentences(sentences)),
            }
        }
        Kind::Lines => {
            let lines = line_segmenter(alloc, engine, options, dictionaries)?;
            Ok(TextSegmenter::Lines(lines))
        }
    }
}

fn cluster_segmenter(alloc: Global, engine: Engine) -> Result<GraphemeClusterSegmenter, DataError>
    ensures { IfOk result (λ clusters. owned_cluster_rules clusters ≡ cluster_rules_by engine) }
{
    match engine {
        Engine::Neo => icu_segmenter_data::grapheme_segmenter(alloc),
        Engine::Classic | Engine::Seventeen => classic::grapheme_segmenter(alloc),
    }
}

fn sentence_segmenter(alloc: Global, engine: Engine) -> Result<SentenceSegmenter, DataError>
    ensures { IfOk result (λ sentences. owned_sentence_rules sentences ≡ sentence_rules_by engine) }
{
    match engine {
        Engine::Neo => icu_segmenter_data::sentence_segmenter(alloc),
        Engine::Classic | Engine::Seventeen => classic::sentence_segmenter(alloc),
    }
}

fn word_segmenter(
    alloc: Global,
    engine: Engine,
    dictionaries: Dictionaries,
) -> Result<WordSegmenter, DataError>
    ensures { IfOk result (λ words. owned_word_rules words ≡ word_rules_by engine (script_words dictionaries)) }
{
    let mut words = match engine {
        Engine::Neo => icu_segmenter_data::word_segmenter(alloc)?,
        Engine::Classic | Engine::Seventeen => classic::word_segmenter(alloc)?,
    };
    words.load_dictionary(dictionaries);
    Ok(words)
}

/// A segmenter of lines by an engine, with these options and dictionaries. Fails only when out of memory.
pub fn line_segmenter(
    alloc: Global,
    engine: Engine,
    options: LineBreakOptions<'_>,
    dictionaries: Dictionaries,
) -> Result<LineSegmenter, DataError>
    ensures { IfOk result (λ lines. owned_line_rules lines ≡ line_rules_by engine options.entry (script_words dictionaries)) }
{
    let mut lines = lines_without_words(alloc, engine, options)?;
    lines.load_dictionary(dictionaries);
    Ok(lines)
}

// The segmenter of lines of an engine, without words.
fn lines_without_words(
    alloc: Global,
    engine: Engine,
    options: LineBreakOptions<'_>,
) -> Result<LineSegmenter, DataError>
    ensures { IfOk result (λ lines. (owned_line_rules lines ≡ line_rules_of engine options.entry)) }
{
    match engine {
        Engine::Neo => icu_segmenter_data::line_segmenter(alloc, options),
        Engine::Classic => classic::line_segmenter(alloc, options),
        Engine::Seventeen => classic::line_17_segmenter(alloc, options),
    }
}
