//! The numbers of the classes of lines of the engine 17, by their names.
use crate::provider::RuleBreakData;

impl RuleBreakData {
    /// The number of the class AI in tables of lines of the engine 17.
    pub const LINE_V3_PROPERTY_AI: u8 = 1;

    /// The number of the class AI_EASTASIAN in tables of lines of the engine 17.
    pub const LINE_V3_PROPERTY_AI_EASTASIAN: u8 = 2;

    /// The number of the class AK in tables of lines of the engine 17.
    pub const LINE_V3_PROPERTY_AK: u8 = 3;

    /// The number of the class AL in tables of lines of the engine 17.
    pub const LINE_V3_PROPERTY_AL: u8 = 4;

    /// The number of the class AL_DOTTED_CIRCLE in tables of lines of the engine 17.
    pub const LINE_V3_PROPERTY_AL_DOTTED_CIRCLE: u8 = 5;

    /// The number of the class AL_EASTASIAN in tables of lines of the engine 17.
    pub const LINE_V3_PROPERTY_AL_EASTASIAN: u8 = 6;

    /// The number of the class AP in tables of lines of the engine 17.
    pub const LINE_V3_PROPERTY_AP: u8 = 7;

    /// The number of the class AS in tables of lines of the engine 17.
    pub const LINE_V3_PROPERTY_AS: u8 = 8;

    /// The number of the class B2 in tables of lines of the engine 17.
    pub const LINE_V3_PROPERTY_B2: u8 = 9;

    /// The number of the class BA in tables of lines of the engine 17.
    pub const LINE_V3_PROPERTY_BA: u8 = 10;

    /// The number of the class BA_EASTASIAN in tables of lines of the engine 17.
    pub const LINE_V3_PROPERTY_BA_EASTASIAN: u8 = 11;

    /// The number of the class BB in tables of lines of the engine 17.
    pub const LINE_V3_PROPERTY_BB: u8 = 12;

    /// The number of the class BK in tables of lines of the engine 17.
    pub const LINE_V3_PROPERTY_BK: u8 = 13;

    /// The number of the class CB in tables of lines of the engine 17.
    pub const LINE_V3_PROPERTY_CB: u8 = 14;

    /// The number of the class CJ in tables of lines of the engine 17.
    pub const LINE_V3_PROPERTY_CJ: u8 = 15;

    /// The number of the class CL in tables of lines of the engine 17.
    pub const LINE_V3_PROPERTY_CL: u8 = 16;

    /// The number of the class CL_EASTASIAN in tables of lines of the engine 17.
    pub const LINE_V3_PROPERTY_CL_EASTASIAN: u8 = 17;

    /// The number of the class CM in tables of lines of the engine 17.
    pub const LINE_V3_PROPERTY_CM: u8 = 18;

    /// The number of the class CM_EASTASIAN in tables of lines of the engine 17.
    pub const LINE_V3_PROPERTY_CM_EASTASIAN: u8 = 19;

    /// The number of the class CP in tables of lines of the engine 17.
    pub const LINE_V3_PROPERTY_CP: u8 = 20;

    /// The number of the class CR in tables of lines of the engine 17.
    pub const LINE_V3_PROPERTY_CR: u8 = 21;

    /// The number of the class EB in tables of lines of the engine 17.
    pub const LINE_V3_PROPERTY_EB: u8 = 22;

    /// The number of the class EB_EASTASIAN in tables of lines of the engine 17.
    pub const LINE_V3_PROPERTY_EB_EASTASIAN: u8 = 23;

    /// The number of the class EM in tables of lines of the engine 17.
    pub const LINE_V3_PROPERTY_EM: u8 = 24;

    /// The number of the class EX in tables of lines of the engine 17.
    pub const LINE_V3_PROPERTY_EX: u8 = 25;

    /// The number of the class EX_EASTASIAN in tables of lines of the engine 17.
    pub const LINE_V3_PROPERTY_EX_EASTASIAN: u8 = 26;

    /// The number of the class GL in tables of lines of the engine 17.
    pub const LINE_V3_PROPERTY_GL: u8 = 27;

    /// The number of the class GL_EASTASIAN in tables of lines of the engine 17.
    pub const LINE_V3_PROPERTY_GL_EASTASIAN: u8 = 28;

    /// The number of the class H2 in tables of lines of the engine 17.
    pub const LINE_V3_PROPERTY_H2: u8 = 29;

    /// The number of the class H3 in tables of lines of the engine 17.
    pub const LINE_V3_PROPERTY_H3: u8 = 30;

    /// The number of the class HH in tables of lines of the engine 17.
    pub const LINE_V3_PROPERTY_HH: u8 = 31;

    /// The number of the class HL in tables of lines of the engine 17.
    pub const LINE_V3_PROPERTY_HL: u8 = 32;

    /// The number of the class HY in tables of lines of the engine 17.
    pub const LINE_V3_PROPERTY_HY: u8 = 33;

    /// The number of the class ID in tables of lines of the engine 17.
    pub const LINE_V3_PROPERTY_ID: u8 = 34;

    /// The number of the class ID_CN in tables of lines of the engine 17.
    pub const LINE_V3_PROPERTY_ID_CN: u8 = 35;

    /// The number of the class ID_EASTASIAN in tables of lines of the engine 17.
    pub const LINE_V3_PROPERTY_ID_EASTASIAN: u8 = 36;

    /// The number of the class IN in tables of lines of the engine 17.
    pub const LINE_V3_PROPERTY_IN: u8 = 37;

    /// The number of the class IN_EASTASIAN in tables of lines of the engine 17.
    pub const LINE_V3_PROPERTY_IN_EASTASIAN: u8 = 38;

    /// The number of the class IS in tables of lines of the engine 17.
    pub const LINE_V3_PROPERTY_IS: u8 = 39;

    /// The number of the class JL in tables of lines of the engine 17.
    pub const LINE_V3_PROPERTY_JL: u8 = 40;

    /// The number of the class JT in tables of lines of the engine 17.
    pub const LINE_V3_PROPERTY_JT: u8 = 41;

    /// The number of the class JV in tables of lines of the engine 17.
    pub const LINE_V3_PROPERTY_JV: u8 = 42;

    /// The number of the class LF in tables of lines of the engine 17.
    pub const LINE_V3_PROPERTY_LF: u8 = 43;

    /// The number of the class NL in tables of lines of the engine 17.
    pub const LINE_V3_PROPERTY_NL: u8 = 44;

    /// The number of the class NS in tables of lines of the engine 17.
    pub const LINE_V3_PROPERTY_NS: u8 = 45;

    /// The number of the class NS_EASTASIAN in tables of lines of the engine 17.
    pub const LINE_V3_PROPERTY_NS_EASTASIAN: u8 = 46;

    /// The number of the class NU in tables of lines of the engine 17.
    pub const LINE_V3_PROPERTY_NU: u8 = 47;

    /// The number of the class OP in tables of lines of the engine 17.
    pub const LINE_V3_PROPERTY_OP: u8 = 48;

    /// The number of the class OP_EASTASIAN in tables of lines of the engine 17.
    pub const LINE_V3_PROPERTY_OP_EASTASIAN: u8 = 49;

    /// The number of the class PO in tables of lines of the engine 17.
    pub const LINE_V3_PROPERTY_PO: u8 = 50;

    /// The number of the class PO_EASTASIAN in tables of lines of the engine 17.
    pub const LINE_V3_PROPERTY_PO_EASTASIAN: u8 = 51;

    /// The number of the class PR in tables of lines of the engine 17.
    pub const LINE_V3_PROPERTY_PR: u8 = 52;

    /// The number of the class PR_EASTASIAN in tables of lines of the engine 17.
    pub const LINE_V3_PROPERTY_PR_EASTASIAN: u8 = 53;

    /// The number of the class QU in tables of lines of the engine 17.
    pub const LINE_V3_PROPERTY_QU: u8 = 54;

    /// The number of the class QU_PF in tables of lines of the engine 17.
    pub const LINE_V3_PROPERTY_QU_PF: u8 = 55;

    /// The number of the class QU_PI in tables of lines of the engine 17.
    pub const LINE_V3_PROPERTY_QU_PI: u8 = 56;

    /// The number of the class RI in tables of lines of the engine 17.
    pub const LINE_V3_PROPERTY_RI: u8 = 57;

    /// The number of the class SA in tables of lines of the engine 17.
    pub const LINE_V3_PROPERTY_SA: u8 = 58;

    /// The number of the class SA_MC_MN in tables of lines of the engine 17.
    pub const LINE_V3_PROPERTY_SA_MC_MN: u8 = 59;

    /// The number of the class SP in tables of lines of the engine 17.
    pub const LINE_V3_PROPERTY_SP: u8 = 60;

    /// The number of the class SY in tables of lines of the engine 17.
    pub const LINE_V3_PROPERTY_SY: u8 = 61;

    /// The number of the class VF in tables of lines of the engine 17.
    pub const LINE_V3_PROPERTY_VF: u8 = 62;

    /// The number of the class VI in tables of lines of the engine 17.
    pub const LINE_V3_PROPERTY_VI: u8 = 63;

    /// The number of the class WJ in tables of lines of the engine 17.
    pub const LINE_V3_PROPERTY_WJ: u8 = 64;

    /// The number of the class XX in tables of lines of the engine 17.
    pub const LINE_V3_PROPERTY_XX: u8 = 65;

    /// The number of the class XX_EXTPICT in tables of lines of the engine 17.
    pub const LINE_V3_PROPERTY_XX_EXTPICT: u8 = 66;

    /// The number of the class ZW in tables of lines of the engine 17.
    pub const LINE_V3_PROPERTY_ZW: u8 = 67;

    /// The number of the class ZWJ in tables of lines of the engine 17.
    pub const LINE_V3_PROPERTY_ZWJ: u8 = 68;
}
