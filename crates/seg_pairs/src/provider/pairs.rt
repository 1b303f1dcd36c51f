//! Pair tables over the classes of code points.
ghost use Rattle.std.specs.Prelude.{◌≡◌, ℕ, ◌<◌, ◌↔◌, IsTrue, IfOk, IfErr, IsOkAnd};
ghost use Rattle.seg_data.specs.Faults.{IsFaultless, IsLowestFault};
ghost use Rattle.seg_data.specs.Lemmas.Same.{same_table, same_table-laws};
ghost use Rattle.seg_pairs.specs.PairTable.{HasBreakByte, break_byte_of, break_state_of, named_state, is_intermediate, IsPairTable, entry_of, pair_table};
ghost use Rattle.seg_pairs.specs.PairData.{HasPairFault};
ghost use Rattle.seg_pairs.specs.Lemmas.SamePairs.{same_pair_table, same_pair_table-laws};

use crate::provider::pair_checks::check_pairs;
use seg_data::provider::{ClassTable, DataError};
use std::marker::Model;

/// What a pair table says of a class, or of a state of a walk, and the class after it.
///
/// A walk is in a state, which is a class or a composite of some classes, and an entry that names a
/// state leads on. Where it fails, the boundary is at the place that was saved last.
#[derive(Clone, Copy, Debug, PartialEq)]
pub enum BreakState {
    /// A boundary stands between the two.
    Break,
    /// No boundary stands between the two.
    Keep,
    /// The walk fails; between two classes, a boundary.
    NoMatch,
    /// The walk goes on in this state, and the place between the two is saved.
    Intermediate(u8),
    /// The walk goes on in this state. The place between the two is saved where the walk leaves a
    /// class.
    Index(u8),
}

impl BreakState {
    /// What a byte means: 253 is `Break`, 254 `NoMatch`, 255 `Keep`, a byte from 120 on an
    /// `Intermediate` of the byte less 120, and a byte below 120 an `Index`.
    pub fn from_unaligned(byte: u8) -> Self
        ensures value { result ≡ break_state_of byte }
        ensures fits { HasBreakByte result }
        ensures back { break_byte_of result ≡ byte }
    {
        match byte {
            253 => BreakState::Break,
            254 => BreakState::NoMatch,
            255 => BreakState::Keep,
            120.. => BreakState::Intermediate(byte - 120),
            _ => BreakState::Index(byte),
        }
    }

    /// The byte that means this: the state of an `Index` is below 120, and that of an
    /// `Intermediate` below 133.
    pub fn to_unaligned(self) -> u8
        requires { HasBreakByte self }
        ensures value { result ≡ break_byte_of self }
        ensures back { break_state_of result ≡ self }
    {
        match self {
            BreakState::Break => 253,
            BreakState::NoMatch => 254,
            BreakState::Keep => 255,
            BreakState::Intermediate(state) => 120 + state,
            BreakState::Index(state) => state,
        }
    }

    /// The state that this names, if it names one.
    pub fn named(self) -> Option<u8>
        ensures { result ≡ named_state self }
    {
        match self {
            BreakState::Intermediate(state) => Some(state),
            BreakState::Index(state) => Some(state),
            _ => None,
        }
    }

    /// Whether this is an `Intermediate`.
    pub fn is_intermediate(self) -> bool
        ensures { result ≡ is_intermediate self }
    {
        match self {
            BreakState::Intermediate(_) => true,
            _ => false,
        }
    }
}

/// A pair table: a class for each code point, and for each class or state and the class after it
/// what stands between the two.
///
/// The entry of `left` and `right` is at `left * property_count + right`. Classes and states are
/// below `property_count`; those up to `last_codepoint_property` are classes of code points, and
/// those above it composites.
#[derive(Debug)]
pub struct RuleBreakData {
    property_table: ClassTable,
    break_state_table: Vec<BreakState>,
    rule_status_table: Vec<u8>,
    property_count: u8,
    last_codepoint_property: u8,
    sot_property: u8,
    eot_property: u8,
    complex_property: u8,
}

// Written out, so that it is proved here and not in each function that drops one.
impl Drop for RuleBreakData {
    fn drop(self) {
        let RuleBreakData {
            property_table: _,
            break_state_table: _,
            rule_status_table: _,
            property_count: _,
            last_codepoint_property: _,
            sot_property: _,
            eot_property: _,
            complex_property: _,
        } = self;
    }
}

impl Model for RuleBreakData {
    ghost use Rattle.seg_pairs.specs.PairTable.{PairTable, pair_table, IsPairTable};

    ghost Value = { PairTable };

    ghost view = { λ t. pair_table t.property_table t.break_state_table.items t.rule_status_table.items t.property_count t.last_codepoint_property t.sot_property t.eot_property t.complex_property };

    ghost invariant = { λ t. IsPairTable (pair_table t.property_table t.break_state_table.items t.rule_status_table.items t.property_count t.last_codepoint_property t.sot_property t.eot_property t.complex_property) };
}

impl RuleBreakData {
    /// The pair table of these parts, or what is wrong with them: `TableSize`, `ClassOutOfRange`
    /// or `StateOutOfRange`, of several faults that with the lowest number.
    ///
    /// `complex_property` may be any number; where no code point is complex it is one that no code
    /// point has.
    pub fn try_from_parts(
        property_table: ClassTable,
        break_state_table: Vec<BreakState>,
        rule_status_table: Vec<u8>,
        property_count: u8,
        last_codepoint_property: u8,
        sot_property: u8,
        eot_property: u8,
        complex_property: u8,
    ) -> Result<Self, DataError>
        ensures accepted { let parts = pair_table property_table break_state_table.items rule_status_table.items property_count last_codepoint_property sot_property eot_property complex_property in
            IfOk result (λ t. (t ≡ parts) × IsFaultless (HasPairFault parts)) }
        ensures rejected { IfErr result (IsLowestFault (HasPairFault (pair_table property_table break_state_table.items rule_status_table.items property_count last_codepoint_property sot_property eot_property complex_property))) }
    {
        check_pairs(
            &property_table,
            break_state_table.as_slice(),
            property_count,
            sot_property,
            eot_property,
        )?;
        Ok(RuleBreakData {
            property_table,
            break_state_table,
            rule_status_table,
            property_count,
            last_codepoint_property,
            sot_property,
            eot_property,
            complex_property,
        })
    }

    /// The table of the code points' classes.
    pub fn property_table(&self) -> &ClassTable
        ensures { result.now ≡ self.now.property_table }
    {
        &self.property_table
    }

    /// The entries: that of `left` and `right` is at `left * property_count() + right`.
    pub fn break_state_table(&self) -> &[BreakState]
        ensures { result.now ≡ self.now.break_state_table }
    {
        self.break_state_table.as_slice()
    }

    /// The rule statuses of classes: that of class c is at c - 1, and class 0 has none.
    pub fn rule_status_table(&self) -> &[u8]
        ensures { result.now ≡ self.now.rule_status_table }
    {
        self.rule_status_table.as_slice()
    }

    /// How many classes and states there are.
    pub fn property_count(&self) -> u8
        ensures { result ≡ self.now.property_count }
    {
        self.property_count
    }

    /// The last class of code points. States above it are composites.
    pub fn last_codepoint_property(&self) -> u8
        ensures { result ≡ self.now.last_codepoint_property }
    {
        self.last_codepoint_property
    }

    /// The class of the start of the text.
    pub fn sot_property(&self) -> u8
        ensures { result ≡ self.now.sot_property }
    {
        self.sot_property
    }

    /// The class of the end of the text.
    pub fn eot_property(&self) -> u8
        ensures { result ≡ self.now.eot_property }
    {
        self.eot_property
    }

    /// The class of complex code points, whose words only a dictionary or a model can tell apart.
    pub fn complex_property(&self) -> u8
        ensures { result ≡ self.now.complex_property }
    {
        self.complex_property
    }
}

// What engines read of a pair table, entry by entry.
impl RuleBreakData {
    /// What stands between a class or state and the class after it.
    pub fn entry(&self, left: u8, right: u8) -> BreakState
        requires left { left < self.now.property_count }
        requires right { right < self.now.property_count }
        ensures value { result ≡ entry_of self.now left right }
        ensures state { (state : ℕ) → named_state result ≡ Some state → state < self.now.property_count }
    {
        self.break_state_table[left as usize * self.property_count as usize + right as usize]
    }

    /// Law: what holds of each pair table.
    pub fn facts(&self)
        ensures { IsPairTable self.now }
    {
        let _property_table = &self.property_table;
    }
}

impl PartialEq for RuleBreakData {
    ghost eq = { same_pair_table };

    ghost laws = { same_pair_table-laws };

    // Whether the parts are the same.
    fn eq(&self, other: &RuleBreakData) -> bool
        ensures value { result ≡ same_pair_table self.now other.now }
        ensures same { IsTrue result ↔ (self.now ≡ other.now) }
    {
        self.property_table == other.property_table
            && self.break_state_table == other.break_state_table
            && self.rule_status_table == other.rule_status_table
            && self.property_count == other.property_count
            && self.last_codepoint_property == other.last_codepoint_property
            && self.sot_property == other.sot_property
            && self.eot_property == other.eot_property
            && self.complex_property == other.complex_property
    }
}

/// Classes that replace those of a pair table: a code point that has a class other than 0 here has
/// that one.
#[derive(Debug)]
pub struct RuleBreakDataOverride {
    property_table_override: ClassTable,
}

// Written out, so that it is proved here and not in each function that drops one.
impl Drop for RuleBreakDataOverride {
    fn drop(self) {
        let RuleBreakDataOverride {
            property_table_override: _,
        } = self;
    }
}

impl Model for RuleBreakDataOverride {
    ghost use Rattle.seg_data.specs.Table.{Table};

    ghost Value = { Table };

    ghost view = { λ o. o.property_table_override };
}

impl RuleBreakDataOverride {
    /// The override by this table. It rejects nothing: a segmenter checks it with its own table.
    pub fn try_from_parts(property_table_override: ClassTable) -> Result<Self, DataError>
        ensures { IsOkAnd result (λ o. o ≡ property_table_override) }
    {
        Ok(RuleBreakDataOverride {
            property_table_override,
        })
    }

    /// The table of the classes.
    pub fn property_table_override(&self) -> &ClassTable
        ensures { result.now ≡ self.now }
    {
        &self.property_table_override
    }
}

impl PartialEq for RuleBreakDataOverride {
    ghost eq = { same_table };

    ghost laws = { same_table-laws };

    // Whether the tables are the same.
    fn eq(&self, other: &RuleBreakDataOverride) -> bool
        ensures value { result ≡ same_table self.now other.now }
        ensures same { IsTrue result ↔ (self.now ≡ other.now) }
    {
        self.property_table_override == other.property_table_override
    }
}
