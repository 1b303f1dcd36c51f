//! The sets of classes that the rules of the engine 17 speak of.
ghost use Rattle.std.specs.Prelude.{◌≡◌};
ghost use Rattle.seg_line_turns.specs.TurnClasses.{is_after_quote, is_before_hyphen, is_before_quote, is_glue, is_hyphen, is_letter, is_opening, is_start};

use seg_pairs::provider::RuleBreakData;

/// Whether the class is one of marks, or of marks that are complex.
#[tactic(auto, unfolding(crate::specs::TurnClasses::is_glue))]
pub(crate) fn is_glue(class: u8) -> bool
    ensures { result ≡ is_glue class }
{
    class == RuleBreakData::LINE_V3_PROPERTY_CM
        || class == RuleBreakData::LINE_V3_PROPERTY_CM_EASTASIAN
        || class == RuleBreakData::LINE_V3_PROPERTY_SA_MC_MN
        || class == RuleBreakData::LINE_V3_PROPERTY_ZWJ
}

/// Whether the class is one of letters, after which a hyphen may begin a word.
#[tactic(auto, unfolding(crate::specs::TurnClasses::is_letter))]
pub(crate) fn is_letter(class: u8) -> bool
    ensures { result ≡ is_letter class }
{
    class == RuleBreakData::LINE_V3_PROPERTY_AL
        || class == RuleBreakData::LINE_V3_PROPERTY_AL_EASTASIAN
        || class == RuleBreakData::LINE_V3_PROPERTY_AL_DOTTED_CIRCLE
        || class == RuleBreakData::LINE_V3_PROPERTY_HL
        || class == RuleBreakData::LINE_V3_PROPERTY_AI
        || class == RuleBreakData::LINE_V3_PROPERTY_AI_EASTASIAN
        || class == RuleBreakData::LINE_V3_PROPERTY_XX
        || class == RuleBreakData::LINE_V3_PROPERTY_XX_EXTPICT
}

/// Whether the class is one of hyphens.
#[tactic(auto, unfolding(crate::specs::TurnClasses::is_hyphen))]
pub(crate) fn is_hyphen(class: u8) -> bool
    ensures { result ≡ is_hyphen class }
{
    class == RuleBreakData::LINE_V3_PROPERTY_HH || class == RuleBreakData::LINE_V3_PROPERTY_HY
}

/// Whether the class is one of openings.
#[tactic(auto, unfolding(crate::specs::TurnClasses::is_opening))]
pub(crate) fn is_opening(class: u8) -> bool
    ensures { result ≡ is_opening class }
{
    class == RuleBreakData::LINE_V3_PROPERTY_OP
        || class == RuleBreakData::LINE_V3_PROPERTY_OP_EASTASIAN
}

/// Whether the table may say what the class is read as at the start of a text.
#[tactic(auto, unfolding(crate::specs::TurnClasses::is_start))]
pub(crate) fn is_start(class: u8) -> bool
    ensures { result ≡ is_start class }
{
    class == RuleBreakData::LINE_V3_PROPERTY_HY
        || class == RuleBreakData::LINE_V3_PROPERTY_HH
        || class == RuleBreakData::LINE_V3_PROPERTY_QU_PI
        || class == RuleBreakData::LINE_V3_PROPERTY_QU_PF
        || class == RuleBreakData::LINE_V3_PROPERTY_QU
}

/// Whether a boundary stands between the class and a closing quote.
#[tactic(auto, unfolding(crate::specs::TurnClasses::is_before_quote))]
pub(crate) fn is_before_quote(class: u8) -> bool
    ensures { result ≡ is_before_quote class }
{
    class == RuleBreakData::LINE_V3_PROPERTY_BK
        || class == RuleBreakData::LINE_V3_PROPERTY_CR
        || class == RuleBreakData::LINE_V3_PROPERTY_LF
        || class == RuleBreakData::LINE_V3_PROPERTY_NL
        || class == RuleBreakData::LINE_V3_PROPERTY_ZW
}

/// Whether a closing quote after a space stays with the class.
#[tactic(auto, unfolding(crate::specs::TurnClasses::is_after_quote))]
pub(crate) fn is_after_quote(class: u8) -> bool
    ensures { result ≡ is_after_quote class }
{
    class == RuleBreakData::LINE_V3_PROPERTY_SP
        || class == RuleBreakData::LINE_V3_PROPERTY_GL
        || class == RuleBreakData::LINE_V3_PROPERTY_GL_EASTASIAN
        || class == RuleBreakData::LINE_V3_PROPERTY_WJ
        || class == RuleBreakData::LINE_V3_PROPERTY_CL
        || class == RuleBreakData::LINE_V3_PROPERTY_CL_EASTASIAN
        || class == RuleBreakData::LINE_V3_PROPERTY_QU
        || class == RuleBreakData::LINE_V3_PROPERTY_QU_PI
        || class == RuleBreakData::LINE_V3_PROPERTY_QU_PF
        || class == RuleBreakData::LINE_V3_PROPERTY_CP
        || class == RuleBreakData::LINE_V3_PROPERTY_EX
        || class == RuleBreakData::LINE_V3_PROPERTY_EX_EASTASIAN
        || class == RuleBreakData::LINE_V3_PROPERTY_IS
        || class == RuleBreakData::LINE_V3_PROPERTY_SY
        || class == RuleBreakData::LINE_V3_PROPERTY_BK
        || class == RuleBreakData::LINE_V3_PROPERTY_CR
        || class == RuleBreakData::LINE_V3_PROPERTY_LF
        || class == RuleBreakData::LINE_V3_PROPERTY_NL
        || class == RuleBreakData::LINE_V3_PROPERTY_ZW
}

/// Whether a hyphen after the class begins a word.
#[tactic(auto, unfolding(crate::specs::TurnClasses::is_before_hyphen))]
pub(crate) fn is_before_hyphen(class: u8) -> bool
    ensures { result ≡ is_before_hyphen class }
{
    class == RuleBreakData::LINE_V3_PROPERTY_BK
        || class == RuleBreakData::LINE_V3_PROPERTY_CB
        || class == RuleBreakData::LINE_V3_PROPERTY_CR
        || class == RuleBreakData::LINE_V3_PROPERTY_LF
        || class == RuleBreakData::LINE_V3_PROPERTY_NL
        || class == RuleBreakData::LINE_V3_PROPERTY_SP
        || class == RuleBreakData::LINE_V3_PROPERTY_ZW
}
