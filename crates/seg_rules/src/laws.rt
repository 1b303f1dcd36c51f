//! Laws of rules that are data.
ghost use Rattle.std.specs.Prelude.{◌≡◌, ◌↔◌, ℕ, suc, ◌<◌, true, List, [], ◌∷◌, ◌++◌, length, reverse, Contains};
ghost use Rattle.seg_machine.specs.Machine.{Machine, symbols_of};
ghost use Rattle.seg_machine.specs.MachineFaults.{IsChecked};
ghost use Rattle.seg_machine.specs.Pick.{machine_boundaries};
ghost use Rattle.seg_rules.specs.RowRules.{Row, RowRules};
ghost use Rattle.seg_rules.specs.declared.certificate.Configuration.{Configuration};
ghost use Rattle.seg_rules.specs.Check.{Plan, Tables};
ghost use Rattle.seg_rules.specs.Examples.{letter, space, mark, flag, line_end, small_places};
ghost use Rattle.seg_rules.specs.Patterns.{EndsIn, BeginsWith};
ghost use Rattle.seg_rules.specs.Places.{Passes};
ghost use Rattle.seg_rules.specs.Plain.{row_fits, plain_verdict, plain_places};
ghost use Rattle.seg_text.specs.Boundaries.{boundary, start};

/// Law: where rules, tables, a relation and a checked machine pass the three tests, the machine's boundaries of each list of
/// code points are, with their statuses, the places where the rules break.
pub fn boundaries_are_places()
    ensures { (rules : RowRules) (n : ℕ) (t : Tables) (plan : Plan) (relation : List (List Configuration)) (m : Machine)
        → Passes rules n t relation plan m → IsChecked m
        → (cs : List ℕ) → machine_boundaries m cs ≡ start ∷ plain_places rules 0 [] (symbols_of m cs) }
{}

/// Law: so a boundary with a status stands after some code points, and before others, just where the verdict of the rules
/// there is that status.
pub fn boundary_is_verdict()
    ensures { (rules : RowRules) (n : ℕ) (t : Tables) (plan : Plan) (relation : List (List Configuration)) (m : Machine)
        → Passes rules n t relation plan m → IsChecked m
        → (cs ds : List ℕ) (status : ℕ) → 0 < length cs
        → Contains (machine_boundaries m (cs ++ ds)) (boundary (length cs) status)
        ↔ (plain_verdict rules (reverse (symbols_of m cs)) (symbols_of m ds) ≡ suc status) }
{}

/// Law: a row fits at a place just where some of the nearest symbols before it are in its left pattern, and some of the first
/// after it in its right one.
pub fn row_fits_by_patterns()
    ensures { (row : Row) (before after : List ℕ) → (row_fits row before after ≡ true) ↔ (EndsIn row.left before × BeginsWith row.right after) }
{}

/// Law: where small rules break.
pub fn small_rules_break()
    ensures letters { small_places (letter ∷ letter ∷ space ∷ letter ∷ []) ≡ boundary 2 0 ∷ boundary 3 0 ∷ boundary 4 0 ∷ [] }
    ensures marks { small_places (letter ∷ mark ∷ letter ∷ mark ∷ []) ≡ boundary 4 0 ∷ [] }
    ensures alone { small_places (space ∷ mark ∷ mark ∷ letter ∷ []) ≡ boundary 1 0 ∷ boundary 4 0 ∷ [] }
    ensures flags { small_places (flag ∷ flag ∷ mark ∷ flag ∷ flag ∷ flag ∷ []) ≡ boundary 3 0 ∷ boundary 5 0 ∷ boundary 6 0 ∷ [] }
    ensures statuses { small_places (letter ∷ line_end ∷ mark ∷ []) ≡ boundary 1 0 ∷ boundary 2 1 ∷ boundary 3 0 ∷ [] }
{}
