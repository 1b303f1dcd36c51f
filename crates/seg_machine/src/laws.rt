//! Laws of picks, for the proofs of engines and callers.
ghost use Rattle.std.specs.Prelude.{◌≡◌, ◌↔◌, ℕ, ◌+◌, Some, List, [], ◌∷◌, ◌++◌, length, replicate, All};
ghost use Rattle.seg_machine.specs.Machine.{IsTextSymbol, run, scan};
ghost use Rattle.seg_machine.specs.Pick.{pick, IsPick};
ghost use Rattle.seg_machine.specs.Rows.{letter_boundaries, condition_at_end, condition_on_own_name, accepted_two_past_end, accepted_from_start, start_accepts, named_past_end};
ghost use Rattle.seg_machine.specs.Scan.{entries};
ghost use Rattle.seg_machine.specs.Tailored.{machine_of};
ghost use Rattle.seg_text.specs.Boundaries.{boundary};

use crate::tailored_machine::TailoredMachineBorrowed;

/// Law: the pick of a text in its own words, with the machine's tailoring: the first condition that holds decides, and
/// otherwise the last acceptance. More symbols of the end change no scan.
pub fn picks_are_first_or_last(machine: TailoredMachineBorrowed<'_>)
    ensures pick { (symbols : List ℕ) (n status : ℕ) → (pick (machine_of machine.entry) symbols ≡ Some (boundary n status))
        ↔ IsPick (entries (machine_of machine.entry) (scan (machine_of machine.entry) symbols)) (length symbols) n status }
    ensures end { (symbols : List ℕ) (k : ℕ) → All (IsTextSymbol (machine_of machine.entry)) symbols
        → run (machine_of machine.entry) 0 (symbols ++ replicate (k + length (machine_of machine.entry).states) 0) ≡ scan (machine_of machine.entry) symbols }
{
    machine.facts();
}

/// Law: the boundaries that small machines find.
pub fn small_machines_find()
    ensures condition_at_end { letter_boundaries condition_at_end 3 ≡ boundary 0 0 ∷ boundary 3 1 ∷ [] }
    ensures own_name_one { letter_boundaries condition_on_own_name 1 ≡ boundary 0 0 ∷ boundary 1 0 ∷ [] }
    ensures own_name_two { letter_boundaries condition_on_own_name 2 ≡ boundary 0 0 ∷ boundary 1 1 ∷ boundary 2 0 ∷ [] }
    ensures own_name_three { letter_boundaries condition_on_own_name 3 ≡ boundary 0 0 ∷ boundary 1 1 ∷ boundary 2 1 ∷ boundary 3 0 ∷ [] }
    ensures two_past_end { letter_boundaries accepted_two_past_end 2 ≡ boundary 0 0 ∷ boundary 2 0 ∷ [] }
    ensures from_start { letter_boundaries accepted_from_start 3 ≡ boundary 0 0 ∷ boundary 3 0 ∷ [] }
    ensures start { letter_boundaries start_accepts 3 ≡ boundary 0 0 ∷ boundary 3 0 ∷ [] }
    ensures named_past_end { letter_boundaries named_past_end 2 ≡ boundary 0 0 ∷ boundary 2 1 ∷ [] }
{}
