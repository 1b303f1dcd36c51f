//! Segmenters of lines whose breaks a machine finds.
ghost use Rattle.std.specs.Prelude.{◌≡◌, length, IfOk, IsTrue};
ghost use Rattle.std.specs.Option.{option_map};
ghost use Rattle.icu_segmenter.specs.Clusters.{cluster_rules};
ghost use Rattle.icu_segmenter.specs.Lines.{owned_line_rules};
ghost use Rattle.icu_segmenter.specs.LineBreaks.{IsByPairTable};
ghost use Rattle.icu_segmenter.specs.LineRules.{style_of};
ghost use Rattle.segment_output.specs.Wrapped.{EndsLines};

use crate::segmenter::{Engine, line_segmenter};
use icu_segmenter::cursor::BoundaryFinder;
use icu_segmenter::options::{LineBreakOptions, LineBreakStrictness};
use icu_segmenter::provider::{DataError, Dictionaries};
use icu_segmenter::wrap::LineWrapper;
use icu_segmenter::{GraphemeClusterSegmenterBorrowed, LineSegmenter};
use icu_segmenter_uax14::laws::mandatory_breaks;
use std::alloc::Global;

/// A segmenter of lines whose breaks a machine finds.
#[derive(Drop)]
pub struct MachineLines {
    lines: LineSegmenter,
    // Whether lines break by the rules of UAX #14, and not before any cluster.
    by_rules: bool,
    ghost by_machine: { IsByPairTable (owned_line_rules lines).finder → ⊥ },
    ghost ends: { IsTrue by_rules → EndsLines (owned_line_rules lines) },
}

impl MachineLines {
    ghost use Rattle.icu_segmenter.specs.Boundaries.{IsCover};
    ghost use Rattle.icu_segmenter.specs.Decoding.{utf8};
    ghost use Rattle.icu_segmenter.specs.LineBreaks.{line_boundaries_of};
    ghost use Rattle.icu_segmenter.specs.NearBoundaries.{line_feed};
    ghost use Rattle.icu_segmenter.specs.Rules.{PartsBehind};
    ghost use Rattle.icu_segmenter.specs.ScriptWords.{script_words};
    ghost use Rattle.icu_segmenter.specs.WrappedLines.{wrapper_measure, wrapper_rules};
    ghost use Rattle.segment_output.specs.TextSegmenter.{line_rules_by};
    ghost use Rattle.segment_output.specs.Wrapped.{measure_by};

    /// The segmenter of lines by Unicode's machine, with these options and dictionaries. Fails only when out of memory.
    pub fn try_new(
        alloc: Global,
        options: LineBreakOptions<'_>,
        dictionaries: Dictionaries,
    ) -> Result<Self, DataError>
        ensures { IfOk result (λ lines. owned_line_rules lines.lines ≡ line_rules_by Engine.Neo options.entry (script_words dictionaries)) }
    {
        mandatory_breaks();
        let by_rules = follows_rules(options);
        let lines = line_segmenter(alloc, Engine::Neo, options, dictionaries)?;
        Ok(MachineLines { lines, by_rules })
    }

    /// Whether a text may be cut part by part, each behind a line feed: each has the boundaries that it has in the whole text, and at the
    /// end of each a line must end. Takes no memory.
    pub fn has_parts(&self) -> bool
        ensures parts { IsTrue result → PartsBehind (λ bytes. line_boundaries_of (owned_line_rules self.now.lines) (utf8 bytes)) line_feed }
        ensures ends { IsTrue result → EndsLines (owned_line_rules self.now.lines) }
    {
        self.by_rules && self.lines.as_borrowed().parts_behind_line_feeds()
    }

    /// The first boundary of a text is at its start, and the last at its end. Takes no memory.
    pub fn cover(&self, text: &[u8])
        ensures { IsCover 0 (length text.now) (line_boundaries_of (owned_line_rules self.now.lines) (utf8 text.now)) }
    {
        let _ = self.lines.as_borrowed().segment_utf8(text);
    }

    /// The wrapper of lines by the same breaks, which counts columns by these clusters, or by character where there are none. Takes no
    /// memory.
    pub fn wrapper<'data>(
        &'data self,
        clusters: Option<GraphemeClusterSegmenterBorrowed<'data>>,
    ) -> LineWrapper<'data>
        ensures lines { wrapper_rules result ≡ owned_line_rules self.now.lines }
        ensures measure { wrapper_measure result ≡ measure_by (option_map cluster_rules clusters.entry) }
    {
        let Ok(wrapper) = LineWrapper::new(self.lines.as_borrowed()) else {
            unreachable!()
        };
        match clusters {
            Some(clusters) => wrapper.by_cluster(clusters),
            None => wrapper,
        }
    }
}

// Whether these options have lines broken by the rules of UAX #14, and not before any cluster.
fn follows_rules(options: LineBreakOptions<'_>) -> bool
    ensures { IsTrue result → (style_of options.entry).strictness ≡ LineBreakStrictness.Anywhere → ⊥ }
{
    !matches!(options.strictness, Some(LineBreakStrictness::Anywhere))
}
