//! Pair tables with their overrides, as engines read them. It isn't part of the library's surface.
ghost use Rattle.std.specs.Prelude.{ℕ, ◌<◌};
ghost use Rattle.seg_pairs.specs.PairTable.{table_in, Overrides};

use crate::provider::pair_checks::{keeps_start_before, overrides, overrides_by, overrides_from};
use crate::provider::{RuleBreakData, RuleBreakDataOverride};
use seg_data::named_values::names;
use seg_data::provider::DataError;

/// A pair table and the override that it is used with, if there is one. The classes that the
/// override names are among the table's.
pub struct PairData {
    table: RuleBreakData,
    overriding: Option<RuleBreakDataOverride>,
    ghost fits: { (class : ℕ) → Overrides overriding class → class < table.property_count },
}

// Written out, so that it is proved here and not in each function that drops one.
impl Drop for PairData {
    fn drop(self) {
        let PairData {
            table: _,
            overriding: _,
        } = self;
    }
}

impl PairData {
    ghost use Rattle.std.specs.Prelude.{◌≡◌, IfOk, IfErr};
    ghost use Rattle.seg_data.specs.declared.provider.DataError.TheVariants.{ClassOutOfRange};
    ghost use Rattle.seg_data.specs.Faults.{IsFaultless, IsLowestFault};
    ghost use Rattle.seg_pairs.specs.PairData.{pair_table_of, override_of, owned_pair_table, owned_override, HasPairDataFault};

    /// A pair table with its override, if there is one, for texts in which no item may be complex:
    /// rejected with `ClassOutOfRange`, `StartRowKeeps` and `ComplexItems` as by the borrowed form.
    pub fn try_plain(
        table: RuleBreakData,
        overriding: Option<RuleBreakDataOverride>,
    ) -> Result<Self, DataError>
        ensures accepted { IfOk result (λ p. (owned_pair_table p ≡ table) × (owned_override p ≡ overriding)
            × IsFaultless (HasPairDataFault table overriding)) }
        ensures rejected { IfErr result (IsLowestFault (HasPairDataFault table overriding)) }
    {
        let _pairs = PairDataBorrowed::try_plain(&table, overriding.as_ref())?;
        Ok(PairData { table, overriding })
    }

    /// A pair table with its override, if there is one. `ClassOutOfRange` where the override names
    /// a class other than 0 that isn't below the number of classes.
    pub fn try_new(
        table: RuleBreakData,
        overriding: Option<RuleBreakDataOverride>,
    ) -> Result<Self, DataError>
        ensures accepted { IfOk result (λ p. (owned_pair_table p ≡ table) × (owned_override p ≡ overriding)
            × (HasPairDataFault table overriding ClassOutOfRange → ⊥)) }
        ensures rejected { IfErr result (λ fault. (fault ≡ ClassOutOfRange) × HasPairDataFault table overriding ClassOutOfRange) }
    {
        let _pairs = PairDataBorrowed::try_new(&table, overriding.as_ref())?;
        Ok(PairData { table, overriding })
    }

    /// The table and its override, borrowed.
    pub fn as_borrowed(&self) -> PairDataBorrowed<'_>
        ensures table { pair_table_of result ≡ owned_pair_table self.now }
        ensures overriding { override_of result ≡ owned_override self.now }
    {
        PairDataBorrowed {
            table: &self.table,
            overriding: self.overriding.as_ref(),
        }
    }
}

/// A pair table and its override that are borrowed. It is what engines read, entry by entry.
#[derive(Clone, Copy)]
pub struct PairDataBorrowed<'data> {
    table: &'data RuleBreakData,
    overriding: Option<&'data RuleBreakDataOverride>,
    ghost fits: { (class : ℕ) → Overrides (table_in overriding) class → class < table.now.property_count },
}

impl<'data> PairDataBorrowed<'data> {
    ghost use Rattle.std.specs.Prelude.{◌≡◌, ◌<◌, ◌↔◌, IsTrue, IfOk, IfErr, IsOkAnd, None};
    ghost use Rattle.seg_data.specs.declared.provider.DataError.TheVariants.{StartRowKeeps, ComplexItems, ClassOutOfRange};
    ghost use Rattle.seg_data.specs.Faults.{IsFaultless, IsLowestFault};
    ghost use Rattle.seg_pairs.specs.PairTable.{table_in, Names};
    ghost use Rattle.seg_pairs.specs.PairData.{pair_table_of, override_of, class_by, HasPairDataFault, HasComplexClassBelow0100};

    /// A pair table without an override.
    pub fn new(table: &'data RuleBreakData) -> Self
        ensures table { pair_table_of result ≡ table.now }
        ensures overriding { override_of result ≡ None }
    {
        PairDataBorrowed {
            table,
            overriding: None,
        }
    }

    /// A pair table with its override, if there is one. `ClassOutOfRange` where the override names
    /// a class other than 0 that isn't below the number of classes.
    pub fn try_new(
        table: &'data RuleBreakData,
        overriding: Option<&'data RuleBreakDataOverride>,
    ) -> Result<Self, DataError>
        ensures accepted { IfOk result (λ p. (pair_table_of p ≡ table.now) × (override_of p ≡ table_in overriding.entry)
            × (HasPairDataFault table.now (table_in overriding.entry) ClassOutOfRange → ⊥)) }
        ensures rejected { IfErr result (λ fault. (fault ≡ ClassOutOfRange) × HasPairDataFault table.now (table_in overriding.entry) ClassOutOfRange) }
    {
        table.facts();
        if overrides_from(overriding, table.property_count()) {
            return Err(DataError::ClassOutOfRange);
        }
        Ok(PairDataBorrowed { table, overriding })
    }

    /// A checked table for texts in which no item may be complex: rejected too with `StartRowKeeps`, where
    /// no boundary stands between the text's start and some class of code points, and
    /// `ComplexItems`, where some code points are complex; of several faults the lowest.
    pub fn try_plain(
        table: &'data RuleBreakData,
        overriding: Option<&'data RuleBreakDataOverride>,
    ) -> Result<Self, DataError>
        ensures accepted { IfOk result (λ p. (pair_table_of p ≡ table.now) × (override_of p ≡ table_in overriding.entry)
            × IsFaultless (HasPairDataFault table.now (table_in overriding.entry))) }
        ensures rejected { IfErr result (IsLowestFault (HasPairDataFault table.now (table_in overriding.entry))) }
    {
        let pairs = PairDataBorrowed::try_new(table, overriding)?;
        if pairs.keeps_start() {
            return Err(DataError::StartRowKeeps);
        }
        if pairs.has_complex() {
            return Err(DataError::ComplexItems);
        }
        Ok(pairs)
    }

    /// The pair table.
    pub fn table(self) -> &'data RuleBreakData
        ensures { result.now ≡ pair_table_of self.entry }
    {
        self.table
    }

    /// The class of a code point: that of the override where there is one and it isn't 0, or else
    /// that of the table.
    #[inline(always)]
    pub fn class(self, code_point: u32) -> u8
        ensures value { result ≡ class_by self.entry code_point }
        ensures below { result < (pair_table_of self.entry).property_count }
    {
        self.table.facts();
        let Some(classes) = self.overriding else {
            return self.table.property_table().get32(code_point);
        };
        let class = classes.property_table_override().get32(code_point);
        if overrides_by(class) {
            return class;
        }
        self.table.property_table().get32(code_point)
    }

    /// The class of an ASCII character. An override is asked out of line, so that loops stay short.
    #[inline(always)]
    pub(crate) fn ascii_class(self, character: u8) -> u8
        requires { character < 0x80 }
        ensures value { result ≡ class_by self.entry character }
        ensures below { result < (pair_table_of self.entry).property_count }
    {
        self.table.facts();
        match self.overriding {
            Some(_) => self.overridden_class(character as u32),
            None => self.table.property_table().get_ascii(character),
        }
    }

    /// The class of a code point that is mostly above ASCII.
    #[inline(always)]
    pub(crate) fn wide_class(self, code_point: u32) -> u8
        ensures value { result ≡ class_by self.entry code_point }
        ensures below { result < (pair_table_of self.entry).property_count }
    {
        self.table.facts();
        match self.overriding {
            Some(_) => self.overridden_class(code_point),
            None => self.table.property_table().get_wide(code_point),
        }
    }

    // The class of a code point, where there is an override.
    #[inline(never)]
    fn overridden_class(self, code_point: u32) -> u8
        ensures value { result ≡ class_by self.entry code_point }
        ensures below { result < (pair_table_of self.entry).property_count }
    {
        self.class(code_point)
    }

    /// Whether code points may have the class: the table or its override names it.
    pub fn names(self, class: u8) -> bool
        ensures { IsTrue result ↔ Names (pair_table_of self.entry) (override_of self.entry) class }
    {
        names(self.table.property_table(), class) || overrides(self.overriding, class)
    }

    /// Whether no boundary stands between the text's start and some class of code points.
    pub fn keeps_start(self) -> bool
        ensures { IsTrue result ↔ HasPairDataFault (pair_table_of self.entry) (override_of self.entry) StartRowKeeps }
    {
        self.table.facts();
        for class in 0..self.table.property_count() {
            if keeps_start_before(self.table, class) && self.names(class) {
                return true;
            }
        }
        false
    }

    /// Whether some code points are complex.
    pub fn has_complex(self) -> bool
        ensures { IsTrue result ↔ HasPairDataFault (pair_table_of self.entry) (override_of self.entry) ComplexItems }
    {
        self.names(self.table.complex_property())
    }

    /// Whether a code point below U+0100 is complex.
    pub fn has_complex_below_0100(self) -> bool
        ensures { IsTrue result ↔ HasComplexClassBelow0100 (pair_table_of self.entry) (override_of self.entry) }
    {
        for code_point in 0..0x100u32 {
            if self.class(code_point) == self.table.complex_property() {
                return true;
            }
        }
        false
    }
}
