//! From rules to a machine that is checked.
ghost use Rattle.std.specs.Prelude.{IfOk};
ghost use Rattle.seg_rules.specs.Given.{rules_of};
ghost use Rattle.seg_rules.specs.Passed.{FindsPlaces};
ghost use Rattle.seg_compile.specs.Symbols.{HasSymbolsOf};

pub use crate::certified::Certified;
use crate::dues::VERDICTS;
use crate::fault::{Fault, Why};
use crate::given::Given;
use crate::records::{Records, Way};
use crate::relation::{Relation, Truth};
use crate::search::Search;
use crate::smallest::{Parts, smallest};
use crate::tables::Tables;
pub use crate::witness::Witness;
use crate::witness::witness_of;
use seg_data::provider::{ClassTable, ComplexScript, DataError};
use seg_machine::provider::{SegmenterStateMachine, Symbol};
use seg_rules::rules::Rules;
use std::alloc::Global;
use thiserror::Error;

/// Why rules have no machine.
#[derive(Debug, Drop, Error)]
pub enum CompileError {
    /// More than 255 symbols.
    #[error("more than 255 symbols")]
    TooManySymbols,
    /// More than 255 rows above, or below, that of marks.
    #[error("more than 255 rows above or below that of marks")]
    TooManyRows,
    /// A row, of this number, with a pattern of more than 7 items, or a verdict above 2.
    #[error("row {0} has a pattern of more than 7 items, or a verdict above 2")]
    UnknownRow(usize),
    /// More than 4,096 may stand before places, more than 252 be owed to them, or a scan has more to know than 1,024 states may.
    #[error("the rules lead to more cases than the compiler looks at")]
    TooLarge,
    /// More than 255 states.
    #[error("more than 255 states")]
    TooManyStates,
    /// Within a scan more than one earlier place depends on what follows. The check knows one.
    #[error("more than one earlier place depends on what follows")]
    TwoUndecided(Witness),
    /// Within a scan more than one earlier place needs a lookahead. The check knows one.
    #[error("more than one earlier place needs a lookahead")]
    TwoLookaheads(Witness),
    /// No machine that begins anew at each boundary follows the rules.
    #[error("no machine that begins anew at each boundary follows the rules")]
    NeedsPast(Witness),
    /// The machine of the characters is rejected.
    #[error("{0}")]
    Data(DataError),
    /// The machine that was found doesn't pass the check.
    #[error("the machine that was found does not pass the check")]
    Unchecked,
    /// Out of memory.
    #[error("out of memory")]
    Memory,
}

impl From<Fault> for CompileError {
    fn from(fault: Fault) -> CompileError {
        match fault {
            Fault::Memory => CompileError::Memory,
            Fault::TooManyStates => CompileError::TooManyStates,
            _ => CompileError::TooLarge,
        }
    }
}

/// The symbols of code points, as a machine has them.
#[derive(Debug, Drop)]
pub struct Characters {
    /// The symbol, or pseudo symbol, of each code point.
    pub symbols: ClassTable,
    /// The first value of `symbols` that is a pseudo symbol.
    pub pseudo_symbol_shift: u8,
    /// The symbol and the script of each pseudo symbol, from the shift on.
    pub pseudo_symbol_map: Vec<(Symbol, ComplexScript)>,
}

/// The machine of rules over the symbols from 1 up to `symbols`: its boundaries of every list of code points are, with their
/// statuses, the places where the rules break, each code point read as the symbol that `characters` give it. Its states are as few
/// as the compiler can make them.
///
/// It fails if the rules are too large (`TooManySymbols` to `TooManyStates`); if no machine that the check can follow finds their places,
/// with a text that shows it (`TwoUndecided` to `NeedsPast`); if the characters are rejected (`Data`); and when out of memory.
pub fn compile(
    alloc: Global,
    rules: &Rules<'_>,
    symbols: usize,
    characters: Characters,
) -> Result<SegmenterStateMachine, CompileError>
    ensures places { IfOk result (λ machine. FindsPlaces (rules_of rules.now) machine) }
    ensures symbols { IfOk result (λ machine. HasSymbolsOf characters machine) }
{
    let found = compile_certified(alloc, rules, symbols, characters)?;
    Ok(found.into_machine())
}

/// Compiles rules as `compile` does, and gives the certificate by which the machine passed the check. It fails as `compile` does.
pub fn compile_certified(
    alloc: Global,
    rules: &Rules<'_>,
    symbols: usize,
    characters: Characters,
) -> Result<Certified, CompileError>
    ensures places { IfOk result (λ found. FindsPlaces (rules_of rules.now) found.machine) }
    ensures symbols { IfOk result (λ found. HasSymbolsOf characters found.machine) }
{
    let given = Given {
        alloc,
        rules,
        symbols: symbols_of(rules, symbols)?,
    };
    let tables = Tables::new(given)?;
    let parts = searched(given, &tables)?;
    let truths = related(given, &tables, &parts)?;
    let machine = SegmenterStateMachine::try_from_parts(
        characters.symbols,
        parts.states,
        parts.transitions,
        parts.lookaheads,
        characters.pseudo_symbol_shift,
        characters.pseudo_symbol_map,
    )
    .map_err(CompileError::Data)?;
    let found = Certified::new(given, machine, tables, truths.as_slice())?;
    if found.passes(given)? {
        Ok(found)
    } else {
        Err(CompileError::Unchecked)
    }
}

const MAX_ROWS: usize = 255;

const MAX_ITEMS: usize = 7;

// How many symbols there are, of rules that the check knows.
fn symbols_of(rules: &Rules<'_>, symbols: usize) -> Result<u8, CompileError> {
    if rules.above.len() > MAX_ROWS || rules.below.len() > MAX_ROWS {
        return Err(CompileError::TooManyRows);
    }
    for (number, row) in rules.above.iter().chain(rules.below).enumerate() {
        if row.left.len().max(row.right.len()) > MAX_ITEMS || row.verdict >= VERDICTS {
            return Err(CompileError::UnknownRow(number));
        }
    }
    match u8::try_from(symbols) {
        Ok(symbols) => Ok(symbols),
        Err(_) => Err(CompileError::TooManySymbols),
    }
}

// Finds the states.
fn searched(given: Given<'_>, tables: &Tables) -> Result<Parts, CompileError> {
    let mut search = Search::new(given, tables)?;
    match search.run() {
        Ok(()) => Ok(smallest(given, &search)?),
        Err(fault) => Err(refusal(given, tables, &search.records, fault)),
    }
}

// Finds all that may be true within the scans of a machine, in order.
fn related(given: Given<'_>, tables: &Tables, parts: &Parts) -> Result<Vec<Truth>, CompileError> {
    let mut relation = Relation::new(given.alloc, parts, tables, given.rules.at_end)?;
    match relation.run() {
        Ok(()) => Ok(relation.sorted()),
        Err(fault) => Err(refusal(given, tables, &relation.records, fault)),
    }
}

// Why there is no machine, with what shows it where scans can't be followed.
fn refusal(given: Given<'_>, tables: &Tables, scans: &Records, fault: Fault) -> CompileError {
    let Fault::Stuck(from, symbol, why) = fault else {
        return CompileError::from(fault);
    };
    let Ok(witness) = witness_of(given, tables, scans, Way { from, symbol }, why) else {
        return CompileError::Memory;
    };
    match why {
        Why::Undecided(_) => CompileError::TwoUndecided(witness),
        Why::Lookaheads => CompileError::TwoLookaheads(witness),
        Why::Past => CompileError::NeedsPast(witness),
    }
}
