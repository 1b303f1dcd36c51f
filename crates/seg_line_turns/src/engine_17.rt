//! The engine 17, and the pairs of classes between which its table alone decides: most turns are by these.
ghost use Rattle.std.specs.Prelude.{◌≡◌};
ghost use Rattle.seg_line_pairs.specs.declared.engines.LineEngine.TheVariants.{Seventeen};
ghost use Rattle.seg_line_turns.specs.TurnEvents.{is_asked, is_before_sign, is_plain_turn, is_sign, is_unanswered, plain_turn};

use crate::classes::{is_before_hyphen, is_before_quote, is_glue, is_hyphen, is_opening};
use seg_line_pairs::classes::{is_complex_context, is_joiner};
use seg_line_pairs::engines::{LineEngine, PairEngine, PlainPair};
use seg_pairs::provider::{BreakState, RuleBreakData};
use seg_pairs::walk::entry_after;

/// The engine 17.
#[derive(Clone, Copy)]
pub struct Engine17;

impl PairEngine for Engine17 {
    const ENGINE: LineEngine = LineEngine::Seventeen;

    ghost ENGINE = { Seventeen };

    ghost plain = { plain_turn };

    #[inline(always)]
    fn plain_pair(table: &RuleBreakData, left: u8, right: u8) -> PlainPair {
        if !is_plain(left, right) {
            return PlainPair::Other;
        }
        match entry_after(table, left, right) {
            BreakState::Keep => PlainPair::Go,
            BreakState::Break => {
                if is_joiner(LineEngine::Seventeen, left) {
                    PlainPair::Other
                } else {
                    PlainPair::Break
                }
            }
            _ => PlainPair::Other,
        }
    }
}

/// Whether the table alone decides between two classes, of which the left is that of an item with no marks. Most classes on the right are
/// none that any rule asks of.
#[inline(always)]
fn is_plain(left: u8, right: u8) -> bool
    ensures { result ≡ is_plain_turn left right }
{
    !is_asked(right) || is_unanswered(left, right)
}

/// Whether a rule asks of the class on the right. It is one list, so that it takes one test of a bit.
#[tactic(auto, unfolding(crate::specs::TurnEvents::is_asked))]
#[inline(always)]
fn is_asked(class: u8) -> bool
    ensures { result ≡ is_asked class }
{
    class == RuleBreakData::LINE_V3_PROPERTY_CM
        || class == RuleBreakData::LINE_V3_PROPERTY_CM_EASTASIAN
        || class == RuleBreakData::LINE_V3_PROPERTY_HH
        || class == RuleBreakData::LINE_V3_PROPERTY_HY
        || class == RuleBreakData::LINE_V3_PROPERTY_IS
        || class == RuleBreakData::LINE_V3_PROPERTY_QU_PF
        || class == RuleBreakData::LINE_V3_PROPERTY_SA
        || class == RuleBreakData::LINE_V3_PROPERTY_SA_MC_MN
        || class == RuleBreakData::LINE_V3_PROPERTY_SP
        || class == RuleBreakData::LINE_V3_PROPERTY_ZWJ
}

/// Whether no rule that asks of the class on the right finds on the left what it asks of.
fn is_unanswered(left: u8, right: u8) -> bool
    ensures { result ≡ is_unanswered left right }
{
    !is_glue(right)
        && !(right == RuleBreakData::LINE_V3_PROPERTY_SP && is_opening(left))
        && !(is_complex_context(right) && is_complex_context(left))
        && !(is_sign(right) && is_before_sign(left))
}

/// Whether the class is one of signs: closing quotes, hyphens and infix separators.
fn is_sign(class: u8) -> bool
    ensures { result ≡ is_sign class }
{
    class == RuleBreakData::LINE_V3_PROPERTY_IS
        || class == RuleBreakData::LINE_V3_PROPERTY_QU_PF
        || is_hyphen(class)
}

/// Whether a rule of signs asks of the class before them.
fn is_before_sign(class: u8) -> bool
    ensures { result ≡ is_before_sign class }
{
    class == RuleBreakData::LINE_V3_PROPERTY_SP || is_before_quote(class) || is_before_hyphen(class)
}
