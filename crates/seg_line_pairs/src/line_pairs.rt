//! Pair tables of lines, with what options say. They aren't part of the library's surface.
ghost use Rattle.std.specs.Prelude.{◌≡◌, ℕ, ◌<◌, ◌↔◌, true, false, None, IfOk, IfErr, IsTrue};
ghost use Rattle.seg_data.specs.declared.provider.DataError.TheVariants.{ComplexBelow0100};
ghost use Rattle.seg_data.specs.Faults.{IsFaultless, IsLowestFault};
ghost use Rattle.seg_pairs.specs.PairData.{HasPairDataFault};
ghost use Rattle.seg_line_pairs.specs.LineClasses.{class_number};
ghost use Rattle.seg_line_pairs.specs.LineClasses.LineClass.{ID};
ghost use Rattle.seg_line_pairs.specs.LineRules.{HasOwnLineFault, is_never_complex, class_read, is_read_as_id, is_loose_or_normal};

use crate::classes::{self, is_alphabetic, is_complex, is_never_complex};
use crate::engines::{LineEngine, PairEngine};
use crate::options::LineStyle;
use seg_data::provider::DataError;
use seg_pairs::pair_data::PairDataBorrowed;
use seg_pairs::provider::RuleBreakData;
use std::alloc::AllocError;
use std::marker::PhantomData;

/// A pair table of lines of its own, with what options say, for an engine.
pub struct OwnedLinePairs<E: PairEngine> {
    table: RuleBreakData,
    style: LineStyle,
    engine: PhantomData<E>,
    ghost has_id: { class_number E.ENGINE ID < table.property_count },
    ghost complex_apart: { is_never_complex E.ENGINE table.complex_property ≡ false },
}

// Written out, so that it is proved here and not in each function that drops one.
impl<E: PairEngine> Drop for OwnedLinePairs<E> {
    fn drop(self) {
        let OwnedLinePairs {
            table: _,
            style: _,
            engine: _,
        } = self;
    }
}

impl<E: PairEngine> OwnedLinePairs<E> {
    ghost use Rattle.seg_line_pairs.specs.LineRules.{HasLineTableFault};
    ghost use Rattle.seg_line_pairs.specs.LineBoundaries.{owned_rules_by, rules_by};

    /// A pair table of lines, with what options say, checked as the borrowed form is.
    pub fn try_new(
        table: RuleBreakData,
        clusters: &RuleBreakData,
        style: LineStyle,
    ) -> Result<Self, DataError>
        ensures accepted { IfOk result (λ pairs. (owned_rules_by pairs ≡ record { table = table; style = style })
            × IsFaultless (HasLineTableFault E.ENGINE table clusters.now)) }
        ensures rejected { IfErr result (IsLowestFault (HasLineTableFault E.ENGINE table clusters.now)) }
    {
        let _pairs = LinePairs::<E>::try_new(&table, clusters, style)?;
        Ok(OwnedLinePairs {
            table,
            style,
            engine: PhantomData,
        })
    }

    /// The table with its options, borrowed.
    pub fn as_borrowed(&self) -> LinePairs<'_, E>
        ensures { rules_by result ≡ owned_rules_by self.now }
    {
        LinePairs {
            table: &self.table,
            style: self.style,
            engine: PhantomData,
        }
    }
}

/// A pair table of lines that is borrowed, with what options say, for an engine.
pub struct LinePairs<'data, E: PairEngine> {
    table: &'data RuleBreakData,
    style: LineStyle,
    engine: PhantomData<E>,
    ghost has_id: { class_number E.ENGINE ID < table.now.property_count },
    ghost complex_apart: { is_never_complex E.ENGINE table.now.complex_property ≡ false },
}

impl<'data, E: PairEngine> Copy for LinePairs<'data, E> {}

impl<'data, E: PairEngine> Clone for LinePairs<'data, E> {
    ghost use Rattle.std.specs.Prelude.{⊤};

    ghost is_clone = { λ s r. r ≡ s };

    ghost is_infallible = { λ _. ⊤ };

    fn clone(&self) -> Result<Self, AllocError> {
        Ok(*self)
    }
}

impl<'data, E: PairEngine> LinePairs<'data, E> {
    ghost use Rattle.seg_line_pairs.specs.LineRules.{HasLineTableFault, line_class, is_loose_or_normal};
    ghost use Rattle.seg_line_pairs.specs.LineBoundaries.{rules_by};

    /// A pair table of lines, with what options say, and checked with the pair table of clusters. `ClassOutOfRange`: the table has no class
    /// ID. `StartRowKeeps` and `ComplexItems`: by the clusters. `ComplexBelow0100`: a code point below U+0100 is complex.
    /// `ComplexClassNamed`: the complex class is one that has a name, for the engine 17 where it isn't SA. Of several faults it is the
    /// lowest.
    pub fn try_new(
        table: &'data RuleBreakData,
        clusters: &RuleBreakData,
        style: LineStyle,
    ) -> Result<Self, DataError>
        ensures accepted { IfOk result (λ pairs. (rules_by pairs ≡ record { table = table.now; style = style })
            × IsFaultless (HasLineTableFault E.ENGINE table.now clusters.now)) }
        ensures rejected { IfErr result (IsLowestFault (HasLineTableFault E.ENGINE table.now clusters.now)) }
    {
        if table.property_count() <= classes::ID.by(E::ENGINE) {
            return Err(DataError::ClassOutOfRange);
        }
        check_clusters(clusters)?;
        if has_complex_below_0100(E::ENGINE, table) {
            return Err(DataError::ComplexBelow0100);
        }
        if is_never_complex(E::ENGINE, table.complex_property()) {
            return Err(DataError::ComplexClassNamed);
        }
        Ok(LinePairs {
            table,
            style,
            engine: PhantomData,
        })
    }

    /// The pair table, which has a class ID.
    pub fn table(self) -> &'data RuleBreakData
        ensures value { result.now ≡ (rules_by self.entry).table }
        ensures has_id { class_number E.ENGINE ID < (rules_by self.entry).table.property_count }
    {
        self.table
    }

    /// What the options say.
    pub fn style(self) -> LineStyle
        ensures { result ≡ (rules_by self.entry).style }
    {
        self.style
    }

    /// The class of a code point, as the options read it.
    pub fn class(self, code_point: u32) -> u8
        ensures value { result ≡ line_class (rules_by self.entry) code_point }
        ensures below { result < (rules_by self.entry).table.property_count }
    {
        let class = PairDataBorrowed::new(self.table).class(code_point);
        class_read(E::ENGINE, self.style, self.table.complex_property(), class)
    }

    /// The class of a code point where the strictness reads no class, so that the word option alone is asked.
    #[inline(always)]
    pub(crate) fn strict_class(self, code_point: u32) -> u8
        requires { is_loose_or_normal (rules_by self).style.strictness ≡ false }
        ensures value { result ≡ line_class (rules_by self.entry) code_point }
        ensures below { result < (rules_by self.entry).table.property_count }
    {
        let class = PairDataBorrowed::new(self.table).class(code_point);
        strict_read(E::ENGINE, self.style, self.table.complex_property(), class)
    }
}

/// What is wrong with the pair table of clusters, if anything is: `StartRowKeeps` where no boundary stands between the text's start and some
/// class of code points, and `ComplexItems` where some code points are complex.
fn check_clusters(clusters: &RuleBreakData) -> Result<(), DataError>
    ensures accepted { IfOk result (λ _. IsFaultless (HasPairDataFault clusters.now None)) }
    ensures rejected { IfErr result (IsLowestFault (HasPairDataFault clusters.now None)) }
{
    let _pairs = PairDataBorrowed::try_plain(clusters, None)?;
    Ok(())
}

/// Whether a code point below U+0100 is complex.
fn has_complex_below_0100(engine: LineEngine, table: &RuleBreakData) -> bool
    ensures { IsTrue result ↔ HasOwnLineFault engine table.now ComplexBelow0100 }
{
    let pairs = PairDataBorrowed::new(table);
    for code_point in 0..0x100u32 {
        if is_complex(engine, table, pairs.class(code_point)) {
            return true;
        }
    }
    false
}

/// A class as the options read it.
fn class_read(engine: LineEngine, style: LineStyle, complex: u8, class: u8) -> u8
    ensures { result ≡ class_read engine style complex class }
{
    if is_read_as_id(engine, style, complex, class) {
        classes::ID.by(engine)
    } else {
        class
    }
}

/// A class as the options read it, where the strictness reads none.
#[inline(always)]
fn strict_read(engine: LineEngine, style: LineStyle, complex: u8, class: u8) -> u8
    requires { is_loose_or_normal style.strictness ≡ false }
    ensures { result ≡ class_read engine style complex class }
{
    if style.breaks_all() {
        class_read(engine, style, complex, class)
    } else {
        class
    }
}

/// Whether the options read a class as ID.
fn is_read_as_id(engine: LineEngine, style: LineStyle, complex: u8, class: u8) -> bool
    ensures { result ≡ is_read_as_id engine style complex class }
{
    if class == classes::CJ.by(engine) {
        return style.breaks_all() || style.is_loose_or_normal();
    }
    style.breaks_all()
        && (class == complex || class == classes::NU.by(engine) || is_alphabetic(engine, class))
}
