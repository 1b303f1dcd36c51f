//! Laws of boundaries by pair tables, and the numbers of the classes of lines.

ghost use Rattle.std.specs.Prelude.{◌≡◌, ℕ, List, [], ◌∷◌, Contains};
ghost use Rattle.seg_pairs.specs.declared.provider.pairs.BreakState.TheVariants.{Index, Intermediate};
ghost use Rattle.seg_pairs.specs.Rows.{breaks_of, retreat_table, composite_table};
ghost use Rattle.seg_pairs.specs.Verdict.{verdict, complex_verdict};
ghost use Rattle.seg_text.specs.Boundaries.{boundary};

use crate::provider::RuleBreakData;

/// Law: no run begins where no element is complex: the verdicts are
/// those of the table alone.
pub fn no_run_without_complex(table: &RuleBreakData)
    ensures { (class : ℕ) (classes : List ℕ) → (Contains (class ∷ classes) table.now.complex_property → ⊥)
        → complex_verdict table.now (class ∷ classes) ≡ verdict table.now (class ∷ classes) }
{
    let _ = table;
}

/// Law: the boundaries that small tables find, in classes, each with its class.
pub fn small_tables_find()
    ensures back_to_saved { breaks_of (retreat_table (Index 4)) (1 ∷ 2 ∷ 2 ∷ 2 ∷ []) ≡ boundary 1 1 ∷ boundary 4 2 ∷ [] }
    ensures to_end { breaks_of (retreat_table (Index 4)) (1 ∷ 2 ∷ 2 ∷ []) ≡ boundary 3 4 ∷ [] }
    ensures back_to_intermediate { breaks_of (retreat_table (Intermediate 4)) (1 ∷ 2 ∷ 2 ∷ 2 ∷ []) ≡ boundary 2 1 ∷ boundary 4 2 ∷ [] }
    ensures back_to_first { breaks_of composite_table (1 ∷ 2 ∷ 2 ∷ []) ≡ boundary 1 1 ∷ boundary 2 2 ∷ boundary 3 2 ∷ [] }
    ensures state_reached { breaks_of composite_table (1 ∷ 2 ∷ 1 ∷ []) ≡ boundary 2 3 ∷ boundary 3 1 ∷ [] }
{}

/// Law: the numbers that the classes of lines have in pair tables, by their names. 46 has no name.
pub fn line_class_numbers()
    ensures { (RuleBreakData.LINE_PROPERTY_AI ≡ 1) × (RuleBreakData.LINE_PROPERTY_AK ≡ 2)
        × (RuleBreakData.LINE_PROPERTY_AL ≡ 3) × (RuleBreakData.LINE_PROPERTY_AL_DOTTED_CIRCLE ≡ 4)
        × (RuleBreakData.LINE_PROPERTY_AP ≡ 5) × (RuleBreakData.LINE_PROPERTY_AS ≡ 6)
        × (RuleBreakData.LINE_PROPERTY_B2 ≡ 7) × (RuleBreakData.LINE_PROPERTY_BA ≡ 8)
        × (RuleBreakData.LINE_PROPERTY_BB ≡ 9) × (RuleBreakData.LINE_PROPERTY_BK ≡ 10)
        × (RuleBreakData.LINE_PROPERTY_CB ≡ 11) × (RuleBreakData.LINE_PROPERTY_CJ ≡ 12)
        × (RuleBreakData.LINE_PROPERTY_CL ≡ 13) × (RuleBreakData.LINE_PROPERTY_CM ≡ 14)
        × (RuleBreakData.LINE_PROPERTY_CP ≡ 15) × (RuleBreakData.LINE_PROPERTY_CR ≡ 16)
        × (RuleBreakData.LINE_PROPERTY_EB ≡ 17) × (RuleBreakData.LINE_PROPERTY_EM ≡ 18)
        × (RuleBreakData.LINE_PROPERTY_EX ≡ 19) × (RuleBreakData.LINE_PROPERTY_GL ≡ 20)
        × (RuleBreakData.LINE_PROPERTY_H2 ≡ 21) × (RuleBreakData.LINE_PROPERTY_H3 ≡ 22)
        × (RuleBreakData.LINE_PROPERTY_HL ≡ 23) × (RuleBreakData.LINE_PROPERTY_HY ≡ 24)
        × (RuleBreakData.LINE_PROPERTY_ID ≡ 25) × (RuleBreakData.LINE_PROPERTY_ID_CN ≡ 26)
        × (RuleBreakData.LINE_PROPERTY_IN ≡ 27) × (RuleBreakData.LINE_PROPERTY_IS ≡ 28)
        × (RuleBreakData.LINE_PROPERTY_JL ≡ 29) × (RuleBreakData.LINE_PROPERTY_JT ≡ 30)
        × (RuleBreakData.LINE_PROPERTY_JV ≡ 31) × (RuleBreakData.LINE_PROPERTY_LF ≡ 32)
        × (RuleBreakData.LINE_PROPERTY_NL ≡ 33) × (RuleBreakData.LINE_PROPERTY_NS ≡ 34)
        × (RuleBreakData.LINE_PROPERTY_NU ≡ 35) × (RuleBreakData.LINE_PROPERTY_OP_EA ≡ 36)
        × (RuleBreakData.LINE_PROPERTY_OP_OP30 ≡ 37) × (RuleBreakData.LINE_PROPERTY_PO ≡ 38)
        × (RuleBreakData.LINE_PROPERTY_PO_EAW ≡ 39) × (RuleBreakData.LINE_PROPERTY_PR ≡ 40)
        × (RuleBreakData.LINE_PROPERTY_PR_EAW ≡ 41) × (RuleBreakData.LINE_PROPERTY_QU ≡ 42)
        × (RuleBreakData.LINE_PROPERTY_QU_PF ≡ 43) × (RuleBreakData.LINE_PROPERTY_QU_PI ≡ 44)
        × (RuleBreakData.LINE_PROPERTY_RI ≡ 45) × (RuleBreakData.LINE_PROPERTY_SP ≡ 47)
        × (RuleBreakData.LINE_PROPERTY_SY ≡ 48) × (RuleBreakData.LINE_PROPERTY_VF ≡ 49)
        × (RuleBreakData.LINE_PROPERTY_VI ≡ 50) × (RuleBreakData.LINE_PROPERTY_WJ ≡ 51)
        × (RuleBreakData.LINE_PROPERTY_XX ≡ 52) × (RuleBreakData.LINE_PROPERTY_ZW ≡ 53)
        × (RuleBreakData.LINE_PROPERTY_ZWJ ≡ 54) }
{}

/// Law: the numbers that they have in tables of the engine 17.
pub fn line_17_class_numbers()
    ensures { (RuleBreakData.LINE_V3_PROPERTY_AI ≡ 1) × (RuleBreakData.LINE_V3_PROPERTY_AI_EASTASIAN ≡ 2)
        × (RuleBreakData.LINE_V3_PROPERTY_AK ≡ 3) × (RuleBreakData.LINE_V3_PROPERTY_AL ≡ 4)
        × (RuleBreakData.LINE_V3_PROPERTY_AL_DOTTED_CIRCLE ≡ 5) × (RuleBreakData.LINE_V3_PROPERTY_AL_EASTASIAN ≡ 6)
        × (RuleBreakData.LINE_V3_PROPERTY_AP ≡ 7) × (RuleBreakData.LINE_V3_PROPERTY_AS ≡ 8)
        × (RuleBreakData.LINE_V3_PROPERTY_B2 ≡ 9) × (RuleBreakData.LINE_V3_PROPERTY_BA ≡ 10)
        × (RuleBreakData.LINE_V3_PROPERTY_BA_EASTASIAN ≡ 11) × (RuleBreakData.LINE_V3_PROPERTY_BB ≡ 12)
        × (RuleBreakData.LINE_V3_PROPERTY_BK ≡ 13) × (RuleBreakData.LINE_V3_PROPERTY_CB ≡ 14)
        × (RuleBreakData.LINE_V3_PROPERTY_CJ ≡ 15) × (RuleBreakData.LINE_V3_PROPERTY_CL ≡ 16)
        × (RuleBreakData.LINE_V3_PROPERTY_CL_EASTASIAN ≡ 17) × (RuleBreakData.LINE_V3_PROPERTY_CM ≡ 18)
        × (RuleBreakData.LINE_V3_PROPERTY_CM_EASTASIAN ≡ 19) × (RuleBreakData.LINE_V3_PROPERTY_CP ≡ 20)
        × (RuleBreakData.LINE_V3_PROPERTY_CR ≡ 21) × (RuleBreakData.LINE_V3_PROPERTY_EB ≡ 22)
        × (RuleBreakData.LINE_V3_PROPERTY_EB_EASTASIAN ≡ 23) × (RuleBreakData.LINE_V3_PROPERTY_EM ≡ 24)
        × (RuleBreakData.LINE_V3_PROPERTY_EX ≡ 25) × (RuleBreakData.LINE_V3_PROPERTY_EX_EASTASIAN ≡ 26)
        × (RuleBreakData.LINE_V3_PROPERTY_GL ≡ 27) × (RuleBreakData.LINE_V3_PROPERTY_GL_EASTASIAN ≡ 28)
        × (RuleBreakData.LINE_V3_PROPERTY_H2 ≡ 29) × (RuleBreakData.LINE_V3_PROPERTY_H3 ≡ 30)
        × (RuleBreakData.LINE_V3_PROPERTY_HH ≡ 31) × (RuleBreakData.LINE_V3_PROPERTY_HL ≡ 32)
        × (RuleBreakData.LINE_V3_PROPERTY_HY ≡ 33) × (RuleBreakData.LINE_V3_PROPERTY_ID ≡ 34)
        × (RuleBreakData.LINE_V3_PROPERTY_ID_CN ≡ 35) × (RuleBreakData.LINE_V3_PROPERTY_ID_EASTASIAN ≡ 36)
        × (RuleBreakData.LINE_V3_PROPERTY_IN ≡ 37) × (RuleBreakData.LINE_V3_PROPERTY_IN_EASTASIAN ≡ 38)
        × (RuleBreakData.LINE_V3_PROPERTY_IS ≡ 39) × (RuleBreakData.LINE_V3_PROPERTY_JL ≡ 40)
        × (RuleBreakData.LINE_V3_PROPERTY_JT ≡ 41) × (RuleBreakData.LINE_V3_PROPERTY_JV ≡ 42)
        × (RuleBreakData.LINE_V3_PROPERTY_LF ≡ 43) × (RuleBreakData.LINE_V3_PROPERTY_NL ≡ 44)
        × (RuleBreakData.LINE_V3_PROPERTY_NS ≡ 45) × (RuleBreakData.LINE_V3_PROPERTY_NS_EASTASIAN ≡ 46)
        × (RuleBreakData.LINE_V3_PROPERTY_NU ≡ 47) × (RuleBreakData.LINE_V3_PROPERTY_OP ≡ 48)
        × (RuleBreakData.LINE_V3_PROPERTY_OP_EASTASIAN ≡ 49) × (RuleBreakData.LINE_V3_PROPERTY_PO ≡ 50)
        × (RuleBreakData.LINE_V3_PROPERTY_PO_EASTASIAN ≡ 51) × (RuleBreakData.LINE_V3_PROPERTY_PR ≡ 52)
        × (RuleBreakData.LINE_V3_PROPERTY_PR_EASTASIAN ≡ 53) × (RuleBreakData.LINE_V3_PROPERTY_QU ≡ 54)
        × (RuleBreakData.LINE_V3_PROPERTY_QU_PF ≡ 55) × (RuleBreakData.LINE_V3_PROPERTY_QU_PI ≡ 56)
        × (RuleBreakData.LINE_V3_PROPERTY_RI ≡ 57) × (RuleBreakData.LINE_V3_PROPERTY_SA ≡ 58)
        × (RuleBreakData.LINE_V3_PROPERTY_SA_MC_MN ≡ 59) × (RuleBreakData.LINE_V3_PROPERTY_SP ≡ 60)
        × (RuleBreakData.LINE_V3_PROPERTY_SY ≡ 61) × (RuleBreakData.LINE_V3_PROPERTY_VF ≡ 62)
        × (RuleBreakData.LINE_V3_PROPERTY_VI ≡ 63) × (RuleBreakData.LINE_V3_PROPERTY_WJ ≡ 64)
        × (RuleBreakData.LINE_V3_PROPERTY_XX ≡ 65) × (RuleBreakData.LINE_V3_PROPERTY_XX_EXTPICT ≡ 66)
        × (RuleBreakData.LINE_V3_PROPERTY_ZW ≡ 67) × (RuleBreakData.LINE_V3_PROPERTY_ZWJ ≡ 68) }
{}
