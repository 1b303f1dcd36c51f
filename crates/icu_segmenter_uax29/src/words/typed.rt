//! Words with types, and with the scripts by which dictionaries cut.
ghost use Rattle.std.specs.Prelude.{◌≡◌, ◌⊎◌, IfOk, IfErr};
ghost use Rattle.seg_data.specs.declared.provider.DataError.TheVariants.{Memory};
ghost use Rattle.seg_data.specs.Faults.{HasRangeFault};
ghost use Rattle.seg_data.specs.Table.{table};
ghost use Rattle.seg_machine.specs.Machine.{machine};
ghost use Rattle.seg_machine.specs.MachineFaults.{HasMachineFault};
ghost use Rattle.icu_segmenter_uax29.specs.TypedWords.{typed_word_machine};

mod data;

use crate::states::Entry;
use crate::words::symbols::OTHER;
use data::{MAP, RANGES, SHIFT, STATES, TRANSITIONS};
use seg_data::provider::{ClassTable, ComplexScript, DataError};
use seg_machine::provider::{Acceptance, SegmenterStateMachine, State, Symbol};
use std::alloc::Global;

pub(crate) const CONTINUE: Entry = (Acceptance::Continue, None);

pub(crate) const ACCEPT_0: Entry = (Acceptance::Accept(0), None);

pub(crate) const ACCEPT_1: Entry = (Acceptance::Accept(1), None);

pub(crate) const ACCEPT_2: Entry = (Acceptance::Accept(2), None);

/// The machine of the words of UAX #29, as they are in Unicode 18.0, with their types. A boundary has status 1 where the last code point
/// before it is a digit, 2 where it is a letter, and 0 otherwise. Marks and what joins words, as the low line, don't count. Thai, Lao,
/// Khmer and Myanmar of complex context, Han, Hiragana and Katakana have their scripts, so that dictionaries can cut them. Fails only when
/// out of memory.
#[tactic(auto, unfolding(crate::specs::TypedWords::typed_word_machine))]
pub fn typed_word_machine(alloc: Global) -> Result<SegmenterStateMachine, DataError>
    ensures made { IfOk result (λ m. m ≡ typed_word_machine) }
    ensures rejected { IfErr result (λ fault. fault ≡ Memory) }
{
    machine_with_scripts(alloc, &RANGES, &STATES, &TRANSITIONS, SHIFT, &MAP)
}

// The machine of these parts. The errors are out of memory, and what is wrong with the parts.
fn machine_with_scripts(
    alloc: Global,
    ranges: &[(u32, u32, Symbol)],
    states: &[Entry],
    transitions: &[State],
    shift: Symbol,
    map: &[(Symbol, ComplexScript)],
) -> Result<SegmenterStateMachine, DataError>
    ensures made { IfOk result (λ m. m ≡ machine (table ranges.now 1) states.now transitions.now 0 shift map.now) }
    ensures rejected { IfErr result (λ fault. (fault ≡ Memory) ⊎ HasRangeFault ranges.now fault
        ⊎ HasMachineFault (machine (table ranges.now 1) states.now transitions.now 0 shift map.now) fault) }
{
    let symbols = ClassTable::try_from_ranges(Vec::from_slice(alloc, ranges)?, OTHER)?;
    let symbols = symbols.indexed(alloc)?;
    let states = Vec::from_slice(alloc, states)?;
    let transitions = Vec::from_slice(alloc, transitions)?;
    let map = Vec::from_slice(alloc, map)?;
    SegmenterStateMachine::try_from_parts(symbols, states, transitions, 0, shift, map)
}
