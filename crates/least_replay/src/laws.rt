//! What callers may conclude from a certificate.
ghost use Rattle.std.specs.Prelude.{ℕ, ℤ, List, [], ◌∷◌, map, get_or, nat_eq, Option, Some, None, ◌≡◌, ◌≤◌};
ghost use Rattle.std.specs.List.{range_with_len};
ghost use Rattle.std.specs.Set.{distinct_count};
ghost use Rattle.least_replay.specs.Assignments.{AreRuns, IsAssignment, chains_from, chain_of, assignment_cost};
ghost use Rattle.least_replay.specs.Cover.{Table, IsCover, IsGood, IsLeast, price};

/// Where a certificate is good, no cover is cheaper.
pub fn good_is_least()
    ensures { (t : Table) (u v : List ℤ) (p : ℕ) → IsGood t u v p → IsLeast t p }
{}

/// An assignment that keeps each run on one channel is a cover of the same price.
pub fn assignments_are_covers()
    ensures cover { (t : Table) (first last channel : ℕ → ℕ) → AreRuns t first last →
        IsAssignment t first last channel → IsCover t (chains_from channel 0 t.runs) }
    ensures cost { (t : Table) (channel : ℕ → ℕ) →
        price t (chains_from channel 0 t.runs) ≡ assignment_cost t channel }
{}

/// A cover is an assignment of the same price. Runs of one chain have one channel: the place of the
/// chain's start among all starts, from 0.
pub fn covers_are_assignments()
    ensures assignment { (t : Table) (first last : ℕ → ℕ) (before : List (Option ℕ)) →
        AreRuns t first last → IsCover t before → IsAssignment t first last (chain_of before) }
    ensures cost { (t : Table) (first last : ℕ → ℕ) (before : List (Option ℕ)) →
        AreRuns t first last → IsCover t before → assignment_cost t (chain_of before) ≡ price t before }
{}

/// Four runs on channels 5 and 9, and six runs of three chains.
pub fn assignment_examples()
    ensures chains { chains_from (λ b. get_or (5 ∷ 9 ∷ 9 ∷ 5 ∷ []) b 0) 0 4
        ≡ None ∷ None ∷ Some 1 ∷ Some 0 ∷ [] }
    ensures distinct { distinct_count nat_eq (map (λ b. get_or (5 ∷ 9 ∷ 9 ∷ 5 ∷ []) b 0) (range_with_len 0 4))
        ≡ 2 }
    ensures places { map (chain_of (None ∷ None ∷ Some 1 ∷ Some 0 ∷ None ∷ Some 2 ∷ []))
        (range_with_len 0 6) ≡ 0 ∷ 1 ∷ 1 ∷ 0 ∷ 2 ∷ 1 ∷ [] }
{}

/// Where a certificate is good, no assignment that keeps each run on one channel costs less.
pub fn no_assignment_costs_less()
    ensures { (t : Table) (u v : List ℤ) (p : ℕ) → IsGood t u v p →
        (first last channel : ℕ → ℕ) → AreRuns t first last → IsAssignment t first last channel →
        p ≤ assignment_cost t channel }
{}
