//! Laws of look-ups, for the proofs of callers: at most one of each configuration.

ghost use Rattle.std.specs.Prelude.{◌≡◌, ℕ, List};
ghost use Rattle.seg_machine.specs.Rows.{condition_at_end, condition_on_own_name, accepted_two_past_end, accepted_from_start, start_accepts, named_past_end};
ghost use Rattle.seg_memo.specs.Configurations.{AreLookedUp, AreStarts, Subject, LooksUp};

/// Law: the segments up to a place begin at these places and no others, so their scans look up one number of different
/// configurations.
pub fn look_ups_are_one()
    ensures starts { (s : Subject) (place : ℕ) (one other : List ℕ) → AreStarts s one place → AreStarts s other place → one ≡ other }
    ensures count { (s : Subject) (place one other : ℕ) → AreLookedUp s place one → AreLookedUp s place other → one ≡ other }
{}

/// Law: how many different configurations small machines look up in so many letters.
pub fn small_machines_look_up()
    ensures condition_at_end { LooksUp condition_at_end 3 4 }
    ensures own_name_one { LooksUp condition_on_own_name 1 3 }
    ensures own_name_two { LooksUp condition_on_own_name 2 5 }
    ensures own_name_three { LooksUp condition_on_own_name 3 7 }
    ensures two_past_end { LooksUp accepted_two_past_end 2 5 }
    ensures from_start { LooksUp accepted_from_start 1 4 × LooksUp accepted_from_start 3 6 }
    ensures start { LooksUp start_accepts 3 4 }
    ensures named_past_end { LooksUp named_past_end 2 4 }
{}
