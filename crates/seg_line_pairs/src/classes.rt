//! The numbers of classes in the pair tables of both engines, and the sets of classes that both speak of.
ghost use Rattle.std.specs.Prelude.{◌≡◌};
ghost use Rattle.seg_line_pairs.specs.LineClasses.{number_by};
ghost use Rattle.seg_line_pairs.specs.LineLists.{is_kept};
ghost use Rattle.seg_line_pairs.specs.LineRules.{alphabetic, is_complex_by, is_complex_context, is_named_class, is_never_complex, is_one_of};
ghost use Rattle.seg_line_pairs.specs.LineUnits.{bears_none, is_glued, is_joiner, is_mark};

use crate::engines::LineEngine;
use seg_pairs::provider::RuleBreakData;

/// The number of a class, by the classic engine and by the engine 17: the one of `RuleBreakData::LINE_PROPERTY_..`, or of the class that it is a part
/// of, and the other of `RuleBreakData::LINE_V3_PROPERTY_..`.
#[derive(Clone, Copy)]
pub(crate) struct ClassNumber(u8, u8);

impl ClassNumber {
    /// That by this engine.
    #[inline(always)]
    pub(crate) fn by(self, engine: LineEngine) -> u8
        ensures { result ≡ number_by engine self.0 self.1 }
    {
        match engine {
            LineEngine::Classic => self.0,
            LineEngine::Seventeen => self.1,
        }
    }
}

pub(crate) const AI: ClassNumber = ClassNumber(1, 1);

pub(crate) const AI_EASTASIAN: ClassNumber = ClassNumber(1, 2);

pub(crate) const AL: ClassNumber = ClassNumber(3, 4);

pub(crate) const AL_DOTTED_CIRCLE: ClassNumber = ClassNumber(4, 5);

pub(crate) const AL_EASTASIAN: ClassNumber = ClassNumber(3, 6);

pub(crate) const BA: ClassNumber = ClassNumber(8, 10);

pub(crate) const BK: ClassNumber = ClassNumber(10, 13);

pub(crate) const CJ: ClassNumber = ClassNumber(12, 15);

pub(crate) const CM: ClassNumber = ClassNumber(14, 18);

pub(crate) const CM_EASTASIAN: ClassNumber = ClassNumber(14, 19);

pub(crate) const CR: ClassNumber = ClassNumber(16, 21);

pub(crate) const EX: ClassNumber = ClassNumber(19, 25);

pub(crate) const EX_EASTASIAN: ClassNumber = ClassNumber(19, 26);

pub(crate) const H2: ClassNumber = ClassNumber(21, 29);

pub(crate) const H3: ClassNumber = ClassNumber(22, 30);

pub(crate) const HY: ClassNumber = ClassNumber(24, 33);

pub(crate) const ID: ClassNumber = ClassNumber(25, 34);

pub(crate) const ID_EASTASIAN: ClassNumber = ClassNumber(25, 36);

pub(crate) const IN: ClassNumber = ClassNumber(27, 37);

pub(crate) const IN_EASTASIAN: ClassNumber = ClassNumber(27, 38);

pub(crate) const JL: ClassNumber = ClassNumber(29, 40);

pub(crate) const JT: ClassNumber = ClassNumber(30, 41);

pub(crate) const JV: ClassNumber = ClassNumber(31, 42);

pub(crate) const LF: ClassNumber = ClassNumber(32, 43);

pub(crate) const NL: ClassNumber = ClassNumber(33, 44);

pub(crate) const NS: ClassNumber = ClassNumber(34, 45);

pub(crate) const NS_EASTASIAN: ClassNumber = ClassNumber(34, 46);

pub(crate) const NU: ClassNumber = ClassNumber(35, 47);

pub(crate) const PO: ClassNumber = ClassNumber(38, 50);

pub(crate) const PO_EASTASIAN: ClassNumber = ClassNumber(39, 51);

pub(crate) const PR: ClassNumber = ClassNumber(40, 52);

pub(crate) const PR_EASTASIAN: ClassNumber = ClassNumber(41, 53);

pub(crate) const SP: ClassNumber = ClassNumber(47, 60);

pub(crate) const ZW: ClassNumber = ClassNumber(53, 67);

pub(crate) const ZWJ: ClassNumber = ClassNumber(54, 68);

/// Whether the class is one of marks.
#[tactic(auto, unfolding(crate::specs::LineUnits::is_mark))]
pub fn is_mark(engine: LineEngine, class: u8) -> bool
    ensures { result ≡ is_mark engine class }
{
    class == CM.by(engine) || class == CM_EASTASIAN.by(engine) || class == ZWJ.by(engine)
}

/// Whether a mark after a base of this class stands alone.
#[tactic(auto, unfolding(crate::specs::LineUnits::bears_none))]
pub fn bears_none(engine: LineEngine, class: u8) -> bool
    ensures { result ≡ bears_none engine class }
{
    class == BK.by(engine)
        || class == CR.by(engine)
        || class == LF.by(engine)
        || class == NL.by(engine)
        || class == SP.by(engine)
        || class == ZW.by(engine)
}

/// Whether an item of this class is glued to a unit whose base has that class.
pub(crate) fn is_glued(engine: LineEngine, base: u8, class: u8) -> bool
    ensures { result ≡ is_glued engine base class }
{
    is_mark(engine, class) && !bears_none(engine, base)
}

/// Whether the class is that of ZWJ.
pub fn is_joiner(engine: LineEngine, class: u8) -> bool
    ensures { result ≡ is_joiner engine class }
{
    class == ZWJ.by(engine)
}

/// Whether the class is one of letters that have no other.
pub(crate) fn is_alphabetic(engine: LineEngine, class: u8) -> bool
    ensures { result ≡ is_one_of engine (alphabetic engine) class }
{
    class == AL.by(engine)
        || (engine == LineEngine::Seventeen
            && (class == AL_DOTTED_CIRCLE.by(engine) || class == AL_EASTASIAN.by(engine)))
}

/// Whether the class is one that `KeepAll` keeps together.
#[tactic(auto, unfolding(crate::specs::LineLists::is_kept))]
pub(crate) fn is_kept(engine: LineEngine, class: u8) -> bool
    ensures { result ≡ is_kept engine class }
{
    class == AI.by(engine)
        || class == AI_EASTASIAN.by(engine)
        || class == ID.by(engine)
        || class == ID_EASTASIAN.by(engine)
        || class == NU.by(engine)
        || class == HY.by(engine)
        || class == H2.by(engine)
        || class == H3.by(engine)
        || class == JL.by(engine)
        || class == JV.by(engine)
        || class == JT.by(engine)
        || class == CJ.by(engine)
        || is_alphabetic(engine, class)
}

/// Whether the class is complex: the one that the table names, of the engine 17 SA and SA_MC_MN.
#[inline(always)]
pub(crate) fn is_complex(engine: LineEngine, table: &RuleBreakData, class: u8) -> bool
    ensures { result ≡ is_complex_by engine table.now class }
{
    match engine {
        LineEngine::Classic => class == table.complex_property(),
        LineEngine::Seventeen => is_complex_context(class),
    }
}

/// Whether the class is one of Southeast Asia by the engine 17.
#[tactic(auto, unfolding(crate::specs::LineRules::is_complex_context))]
#[inline(always)]
pub fn is_complex_context(class: u8) -> bool
    ensures { result ≡ is_complex_context class }
{
    class == RuleBreakData::LINE_V3_PROPERTY_SA || class == RuleBreakData::LINE_V3_PROPERTY_SA_MC_MN
}

/// Whether a table can't name the class as its complex one: one that has a name, of the engine 17 any but SA.
pub(crate) fn is_never_complex(engine: LineEngine, class: u8) -> bool
    ensures { result ≡ is_never_complex engine class }
{
    match engine {
        LineEngine::Classic => is_named(class),
        LineEngine::Seventeen => class != RuleBreakData::LINE_V3_PROPERTY_SA,
    }
}

/// Whether a class of the classic engine is one that has a name.
fn is_named(class: u8) -> bool
    ensures { result ≡ is_named_class class }
{
    (1 <= class && class <= 45) || (47 <= class && class <= 54)
}
