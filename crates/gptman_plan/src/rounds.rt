//! A bound on how often calls ask for bytes that the ends do not have.

ghost use Rattle.std.specs.Prelude.{◌≤◌, ℕ, List, ◌∷◌, length};
ghost use Rattle.gptman.specs.declared.table.GPT.{GPT};
ghost use Rattle.gptman_plan.specs.Asking.{fit_ranges, plan_ranges, value_ranges};
ghost use Rattle.gptman_plan.specs.Rounds.{first_sector, reading_ranges, AreRounds, Round};

/// A law: if each round of calls asks for one of these places, and the ends of every later round have it, there are at
/// most as many rounds as places. A read has at most four places, a plan of a new table five, and a plan of a table
/// that is read nine. The call does nothing.
pub fn rounds_end()
    ensures rounds { (size : ℕ) (places : List (ℕ × ℕ)) (rounds : List Round)
        → AreRounds size places rounds → length rounds ≤ length places }
    ensures reading { (b : List ℕ) (ss : ℕ) → length (reading_ranges b ss) ≤ 4 }
    ensures new_table { (g : GPT) (len : ℕ) → length (first_sector ∷ value_ranges g len) ≤ 5 }
    ensures plan { (b : List ℕ) (ss : ℕ) → length (first_sector ∷ plan_ranges b ss) ≤ 9 }
    ensures fit { (b : List ℕ) (ss : ℕ) → length (first_sector ∷ fit_ranges b ss) ≤ 9 }
{}
