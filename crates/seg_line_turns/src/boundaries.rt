//! The boundaries of lines of a text by the engine 17: those that turns find, and the cuts strictly inside runs of complex code points.
ghost use Rattle.std.specs.Prelude.{◌≡◌};
ghost use Rattle.seg_text.specs.Items.{start_of};
ghost use Rattle.seg_text.specs.Boundaries.{IsCover};
ghost use Rattle.seg_clusters.specs.Payloads.{payloads_of, run_cuts_by};
ghost use Rattle.seg_line_turns.specs.TurnBoundaries.{turn_boundaries_of};
ghost use Rattle.seg_line_pairs.specs.LineBoundaries.{rules_by};

use crate::engine_17::Engine17;
use crate::turn_events::TurnEvents;
use seg_clusters::complex::ComplexPayloadsBorrowed;
use seg_line_pairs::boundaries::TableLines;
use seg_line_pairs::line_pairs::LinePairs;
use seg_text::cursor::Cursor;

/// The boundaries of lines in what is left of a text by the engine 17. Takes no memory.
pub fn turn_lines<'data, I: Cursor>(
    pairs: LinePairs<'data, Engine17>,
    payloads: ComplexPayloadsBorrowed<'data>,
    text: I,
) -> TableLines<'data, TurnEvents<'data, I>>
    ensures boundaries { result.left ≡ turn_boundaries_of (run_cuts_by (payloads_of payloads.entry)) (rules_by pairs.entry) (I.text text) }
    ensures cover { IsCover (start_of (I.text text)) (I.text text).end result.left }
    ensures status { result.status ≡ 0 }
{
    payloads.facts();
    TableLines::new(TurnEvents::new(pairs, text), payloads)
}
