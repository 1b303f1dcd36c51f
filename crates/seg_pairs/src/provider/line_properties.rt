//! The numbers of the classes of lines, by their names.
use crate::provider::RuleBreakData;

// 46 has no name.
impl RuleBreakData {
    /// The number of the class AI in tables of lines.
    pub const LINE_PROPERTY_AI: u8 = 1;

    /// The number of the class AK in tables of lines.
    pub const LINE_PROPERTY_AK: u8 = 2;

    /// The number of the class AL in tables of lines.
    pub const LINE_PROPERTY_AL: u8 = 3;

    /// The number of the class AL_DOTTED_CIRCLE in tables of lines.
    pub const LINE_PROPERTY_AL_DOTTED_CIRCLE: u8 = 4;

    /// The number of the class AP in tables of lines.
    pub const LINE_PROPERTY_AP: u8 = 5;

    /// The number of the class AS in tables of lines.
    pub const LINE_PROPERTY_AS: u8 = 6;

    /// The number of the class B2 in tables of lines.
    pub const LINE_PROPERTY_B2: u8 = 7;

    /// The number of the class BA in tables of lines.
    pub const LINE_PROPERTY_BA: u8 = 8;

    /// The number of the class BB in tables of lines.
    pub const LINE_PROPERTY_BB: u8 = 9;

    /// The number of the class BK in tables of lines.
    pub const LINE_PROPERTY_BK: u8 = 10;

    /// The number of the class CB in tables of lines.
    pub const LINE_PROPERTY_CB: u8 = 11;

    /// The number of the class CJ in tables of lines.
    pub const LINE_PROPERTY_CJ: u8 = 12;

    /// The number of the class CL in tables of lines.
    pub const LINE_PROPERTY_CL: u8 = 13;

    /// The number of the class CM in tables of lines.
    pub const LINE_PROPERTY_CM: u8 = 14;

    /// The number of the class CP in tables of lines.
    pub const LINE_PROPERTY_CP: u8 = 15;

    /// The number of the class CR in tables of lines.
    pub const LINE_PROPERTY_CR: u8 = 16;

    /// The number of the class EB in tables of lines.
    pub const LINE_PROPERTY_EB: u8 = 17;

    /// The number of the class EM in tables of lines.
    pub const LINE_PROPERTY_EM: u8 = 18;

    /// The number of the class EX in tables of lines.
    pub const LINE_PROPERTY_EX: u8 = 19;

    /// The number of the class GL in tables of lines.
    pub const LINE_PROPERTY_GL: u8 = 20;

    /// The number of the class H2 in tables of lines.
    pub const LINE_PROPERTY_H2: u8 = 21;

    /// The number of the class H3 in tables of lines.
    pub const LINE_PROPERTY_H3: u8 = 22;

    /// The number of the class HL in tables of lines.
    pub const LINE_PROPERTY_HL: u8 = 23;

    /// The number of the class HY in tables of lines.
    pub const LINE_PROPERTY_HY: u8 = 24;

    /// The number of the class ID in tables of lines.
    pub const LINE_PROPERTY_ID: u8 = 25;

    /// The number of the class ID_CN in tables of lines.
    pub const LINE_PROPERTY_ID_CN: u8 = 26;

    /// The number of the class IN in tables of lines.
    pub const LINE_PROPERTY_IN: u8 = 27;

    /// The number of the class IS in tables of lines.
    pub const LINE_PROPERTY_IS: u8 = 28;

    /// The number of the class JL in tables of lines.
    pub const LINE_PROPERTY_JL: u8 = 29;

    /// The number of the class JT in tables of lines.
    pub const LINE_PROPERTY_JT: u8 = 30;

    /// The number of the class JV in tables of lines.
    pub const LINE_PROPERTY_JV: u8 = 31;

    /// The number of the class LF in tables of lines.
    pub const LINE_PROPERTY_LF: u8 = 32;

    /// The number of the class NL in tables of lines.
    pub const LINE_PROPERTY_NL: u8 = 33;

    /// The number of the class NS in tables of lines.
    pub const LINE_PROPERTY_NS: u8 = 34;

    /// The number of the class NU in tables of lines.
    pub const LINE_PROPERTY_NU: u8 = 35;

    /// The number of the class OP_EA in tables of lines.
    pub const LINE_PROPERTY_OP_EA: u8 = 36;

    /// The number of the class OP_OP30 in tables of lines.
    pub const LINE_PROPERTY_OP_OP30: u8 = 37;

    /// The number of the class PO in tables of lines.
    pub const LINE_PROPERTY_PO: u8 = 38;

    /// The number of the class PO_EAW in tables of lines.
    pub const LINE_PROPERTY_PO_EAW: u8 = 39;

    /// The number of the class PR in tables of lines.
    pub const LINE_PROPERTY_PR: u8 = 40;

    /// The number of the class PR_EAW in tables of lines.
    pub const LINE_PROPERTY_PR_EAW: u8 = 41;

    /// The number of the class QU in tables of lines.
    pub const LINE_PROPERTY_QU: u8 = 42;

    /// The number of the class QU_PF in tables of lines.
    pub const LINE_PROPERTY_QU_PF: u8 = 43;

    /// The number of the class QU_PI in tables of lines.
    pub const LINE_PROPERTY_QU_PI: u8 = 44;

    /// The number of the class RI in tables of lines.
    pub const LINE_PROPERTY_RI: u8 = 45;

    /// The number of the class SP in tables of lines.
    pub const LINE_PROPERTY_SP: u8 = 47;

    /// The number of the class SY in tables of lines.
    pub const LINE_PROPERTY_SY: u8 = 48;

    /// The number of the class VF in tables of lines.
    pub const LINE_PROPERTY_VF: u8 = 49;

    /// The number of the class VI in tables of lines.
    pub const LINE_PROPERTY_VI: u8 = 50;

    /// The number of the class WJ in tables of lines.
    pub const LINE_PROPERTY_WJ: u8 = 51;

    /// The number of the class XX in tables of lines.
    pub const LINE_PROPERTY_XX: u8 = 52;

    /// The number of the class ZW in tables of lines.
    pub const LINE_PROPERTY_ZW: u8 = 53;

    /// The number of the class ZWJ in tables of lines.
    pub const LINE_PROPERTY_ZWJ: u8 = 54;
}
