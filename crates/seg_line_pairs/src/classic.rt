//! The classic engine, and the pairs of classes between which its table alone decides.
ghost use Rattle.std.specs.Prelude.{◌≡◌};
ghost use Rattle.seg_line_pairs.specs.declared.engines.LineEngine.TheVariants.{Classic};
ghost use Rattle.seg_line_pairs.specs.ClassicPairs.{is_plain, plain_pair};

use crate::classes::is_joiner;
use crate::engines::{LineEngine, PairEngine, PlainPair};
use seg_pairs::provider::{BreakState, RuleBreakData};
use seg_pairs::walk::entry_after;

/// The classic engine.
#[derive(Clone, Copy)]
pub struct ClassicEngine;

impl PairEngine for ClassicEngine {
    const ENGINE: LineEngine = LineEngine::Classic;

    ghost ENGINE = { Classic };

    ghost plain = { plain_pair };

    #[inline(always)]
    fn plain_pair(table: &RuleBreakData, left: u8, right: u8) -> PlainPair {
        if !is_plain(table.complex_property(), left, right) {
            return PlainPair::Other;
        }
        match entry_after(table, left, right) {
            BreakState::Keep => PlainPair::Go,
            BreakState::Break | BreakState::NoMatch => {
                if is_joiner(LineEngine::Classic, left) {
                    PlainPair::Other
                } else {
                    PlainPair::Break
                }
            }
            _ => PlainPair::Other,
        }
    }
}

/// Whether the table alone decides between two classes, of which the left is that of an item with no marks: the right one is none of marks,
/// and no run begins. It asks for two marks only: `is_mark` takes an instruction a character more.
#[tactic(auto, unfolding(crate::specs::LineUnits::is_mark))]
#[inline(always)]
fn is_plain(complex: u8, left: u8, right: u8) -> bool
    ensures { result ≡ is_plain complex left right }
{
    !(right == RuleBreakData::LINE_PROPERTY_CM || right == RuleBreakData::LINE_PROPERTY_ZWJ)
        && !(left == complex && right == complex)
}
