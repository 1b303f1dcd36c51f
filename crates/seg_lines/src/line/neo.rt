//! The machines of lines, with the tailorings that options name.
ghost use Rattle.std.specs.Prelude.{◌≡◌, Some, None, IfOk, IfErr};
ghost use Rattle.std.specs.Option.{option_map};
ghost use Rattle.seg_data.specs.Faults.{IsFaultless, IsLowestFault};
ghost use Rattle.seg_machine.specs.Machine.{with_tailoring};
ghost use Rattle.seg_machine.specs.Tailored.{machine_of, owned_machine};
ghost use Rattle.seg_lines.specs.Lines.{line_machine_for, HasFaultWith};
ghost use Rattle.seg_lines.specs.Options.{borrowed_tailorings, tailoring_for};

use crate::line::options::Tailoring;
use crate::line::tailorings::tailoring_for;
use crate::provider::{LineTailorings, LineTailoringsBorrowed};
use seg_data::provider::DataError;
use seg_machine::provider::{SegmenterStateMachine, SegmenterStateMachineOverride};
use seg_machine::tailored_machine::{
    TailoredMachine, TailoredMachineBorrowed, has_complex_below_0100,
};

// The machine of lines with the tailoring of this name, if there is a name, all borrowed.
pub(super) fn borrowed_line_machine<'data>(
    machine: &'data SegmenterStateMachine,
    tailorings: LineTailoringsBorrowed<'data>,
    name: Option<Tailoring>,
) -> Result<TailoredMachineBorrowed<'data>, DataError>
    ensures accepted { IfOk result (λ m. (machine_of m ≡ line_machine_for machine.now (tailoring_for (borrowed_tailorings tailorings.entry) name))
        × IsFaultless (HasFaultWith machine.now (tailoring_for (borrowed_tailorings tailorings.entry) name))) }
    ensures rejected { IfErr result (IsLowestFault (HasFaultWith machine.now (tailoring_for (borrowed_tailorings tailorings.entry) name))) }
{
    borrowed_with(machine, tailoring_for(tailorings, name)?)
}

// The machine of lines with this tailoring, if there is one, borrowed.
fn borrowed_with<'data>(
    machine: &'data SegmenterStateMachine,
    tailoring: Option<&'data SegmenterStateMachineOverride>,
) -> Result<TailoredMachineBorrowed<'data>, DataError>
    ensures accepted { IfOk result (λ m. (machine_of m ≡ with_tailoring machine.now (option_map (λ map. map.now) tailoring.entry))
        × IsFaultless (HasFaultWith machine.now (Some (option_map (λ map. map.now) tailoring.entry)))) }
    ensures rejected { IfErr result (IsLowestFault (HasFaultWith machine.now (Some (option_map (λ map. map.now) tailoring.entry)))) }
{
    if has_complex_below_0100(machine, tailoring) {
        return Err(DataError::ComplexBelow0100);
    }
    TailoredMachineBorrowed::try_new(machine, tailoring)
}

// The machine of lines with the tailoring of this name, if there is a name.
pub(super) fn owned_line_machine(
    machine: SegmenterStateMachine,
    tailorings: LineTailorings,
    name: Option<Tailoring>,
) -> Result<TailoredMachine, DataError>
    ensures accepted { IfOk result (λ m. (owned_machine m ≡ line_machine_for machine (tailoring_for tailorings name))
        × IsFaultless (HasFaultWith machine (tailoring_for tailorings name))) }
    ensures rejected { IfErr result (IsLowestFault (HasFaultWith machine (tailoring_for tailorings name))) }
{
    owned_with(machine, tailoring_for(tailorings, name)?)
}

// The machine of lines with this tailoring, if there is one.
fn owned_with(
    machine: SegmenterStateMachine,
    tailoring: Option<SegmenterStateMachineOverride>,
) -> Result<TailoredMachine, DataError>
    ensures accepted { IfOk result (λ m. (owned_machine m ≡ with_tailoring machine tailoring) × IsFaultless (HasFaultWith machine (Some tailoring))) }
    ensures rejected { IfErr result (IsLowestFault (HasFaultWith machine (Some tailoring))) }
{
    if has_complex_below_0100(&machine, tailoring.as_ref()) {
        return Err(DataError::ComplexBelow0100);
    }
    TailoredMachine::try_new(machine, tailoring)
}
