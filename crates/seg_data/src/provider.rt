//! Tables of classes, languages, and what may be wrong with data.
ghost use Rattle.std.specs.Prelude.{◌≡◌};
ghost use Rattle.seg_data.specs.Faults.{number_of};
ghost use Rattle.seg_data.specs.declared.provider.DataError.TheVariants.{Memory};

mod dictionary;
mod language;
mod table;

pub use dictionary::{DictionaryBreakData, DictionaryCursor};
pub use language::LanguageIdentifier;
use std::alloc::AllocError;
pub use table::{ClassTable, page_byte_count, value_by_halving};
use thiserror::Error;

/// The script of a run of text whose words only a dictionary or a model can tell apart.
#[derive(Clone, Copy, Debug, PartialEq, Eq, Hash)]
pub enum ComplexScript {
    /// None of the scripts below.
    None = 0,
    /// Myanmar.
    Myanmar = 1,
    /// Chinese or Japanese: Han, Hiragana and Katakana.
    ChineseOrJapanese = 2,
    /// Khmer.
    Khmer = 3,
    /// Lao.
    Lao = 4,
    /// Thai.
    Thai = 5,
}

/// What is wrong with data, or that there is no memory for them. Each has a number, and of several the lowest is answered.
#[derive(Clone, Copy, Debug, PartialEq, Eq, Error)]
pub enum DataError {
    /// 1: out of memory. No data have this fault, so only what takes memory answers it.
    #[error("1 Memory: out of memory")]
    Memory,
    /// 2: a range's first code point is above its last, or isn't above the last of the range
    /// before it.
    #[error("2 RangeOrder: a range's first code point is above its last, or not above the last of the range before it")]
    RangeOrder,
    /// 3: a range ends above U+10FFFF.
    #[error("3 RangePast10FFFF: a range ends above U+10FFFF, the last code point")]
    RangePast10FFFF,
    /// 4: there are no classes, or not one entry of the pair table for each two of them.
    #[error("4 TableSize: there are no classes, or there is not one entry for each two of them")]
    TableSize,
    /// 5: a class that the table or the override names isn't below the number of classes.
    #[error("5 ClassOutOfRange: a class is not below the number of classes")]
    ClassOutOfRange,
    /// 6: the class of the text's start or end, or a state that an entry names, isn't below the
    /// number of classes.
    #[error("6 StateOutOfRange: a state, or the class of the start or the end of the text, is not below the number of classes")]
    StateOutOfRange,
    /// 7: between the start of the text and a class that code points have there is no boundary.
    #[error("7 StartRowKeeps: the table has no boundary between the start of the text and a class that it names")]
    StartRowKeeps,
    /// 8: code points have the class of complex items, which these segmenters don't take.
    #[error("8 ComplexItems: the class of complex items is one that the table or its override names")]
    ComplexItems,
    /// 9: a code point below U+0100, which also Latin-1 has, has a script.
    #[error("9 ComplexBelow0100: a code point below U+0100 has a script")]
    ComplexBelow0100,
    /// 10: in a pair table of lines the class of complex items is one that has a name.
    #[error("10 ComplexClassNamed: the class of complex items is one of lines that has a name")]
    ComplexClassNamed,
    /// 11: there is no state, or there are more than 255.
    #[error("11 StateCount: a machine has 1 to 255 states")]
    StateCount,
    /// 12: the number of transitions isn't the number of states times 1 to 256 symbols.
    #[error("12 TransitionSize: there is not one transition for each state and each of 1 to 256 symbols")]
    TransitionSize,
    /// 13: a transition is neither 255 nor a state.
    #[error("13 TransitionOutOfRange: a transition is neither 255, for none, nor a state")]
    TransitionOutOfRange,
    /// 14: a value that the table of symbols names is neither a symbol from 1 on nor a pseudo
    /// symbol that the map has, or the map gives symbol 0 or one that has no transitions.
    #[error("14 SymbolOutOfRange: the table of symbols or the map gives symbol 0, or one that the transitions or the map do not have")]
    SymbolOutOfRange,
    /// 15: there are more than 8 lookaheads.
    #[error("15 TooManyLookaheads: a machine has at most 8 lookaheads")]
    TooManyLookaheads,
    /// 16: a state, or its condition, names a lookahead that isn't below the number of lookaheads.
    #[error("16 LookaheadOutOfRange: a state names a lookahead that is not below the number of lookaheads")]
    LookaheadOutOfRange,
    /// 17: transitions on symbol 0 go round in a cycle.
    #[error("17 EndCycle: transitions on symbol 0, the end of the text, go round in a cycle")]
    EndCycle,
    /// 18: some text that isn't empty has no pick: its scan comes to no state that accepts and to
    /// no condition that holds.
    #[error("18 Stalls: the scan of some text accepts nothing, and no condition holds in it")]
    Stalls,
    /// 19: the tailoring that the options of lines name wasn't passed in.
    #[error("19 MissingTailoring: the tailoring that the options name is not there")]
    MissingTailoring,
}

impl From<AllocError> for DataError {
    ghost from_gives = { λ _ fault. fault ≡ Memory };

    fn from(_error: AllocError) -> DataError {
        DataError::Memory
    }
}

impl DataError {
    /// The fault's number, by which its text begins.
    pub fn number(self) -> u8
        ensures { result ≡ number_of self }
    {
        match self {
            DataError::Memory => 1,
            DataError::RangeOrder => 2,
            DataError::RangePast10FFFF => 3,
            DataError::TableSize => 4,
            DataError::ClassOutOfRange => 5,
            DataError::StateOutOfRange => 6,
            DataError::StartRowKeeps => 7,
            DataError::ComplexItems => 8,
            DataError::ComplexBelow0100 => 9,
            DataError::ComplexClassNamed => 10,
            DataError::StateCount => 11,
            DataError::TransitionSize => 12,
            DataError::TransitionOutOfRange => 13,
            DataError::SymbolOutOfRange => 14,
            DataError::TooManyLookaheads => 15,
            DataError::LookaheadOutOfRange => 16,
            DataError::EndCycle => 17,
            DataError::Stalls => 18,
            DataError::MissingTailoring => 19,
        }
    }
}
