//! Laws of tables by ticks.

ghost use Rattle.std.specs.Prelude.{◌≡◌, ◌≢◌, ℕ, ◌<◌, ◌≤◌, ◌-◌, List, [], ◌∷◌, ◌++◌};
ghost use Rattle.std.specs.Prelude.{length, slice_index, Some, None};
ghost use Rattle.std.specs.List.{AllByRecursion};
ghost use Rattle.key_pitch.specs.declared.table.KeyTable.{KeyTable};
ghost use Rattle.key_pitch.specs.InForce.{IsTimeline, ticks_of, in_force, IsLast};
ghost use Rattle.key_pitch.specs.ByTick.{by_entries, scales_in_force, AreTablesOf, AreOnePerScale};
ghost use Rattle.scl_text.specs.declared.entry.Entry.{Entry};
ghost use Rattle.kbm_text.specs.Map.{KeyMap};
ghost use Rattle.retune_model.specs.Table.{IsTable, IsOnePerScale, AreFewTerms};

/// The table in force at a tick is the last one of its list whose tick isn't after it; where the ticks rise,
/// none that has begun is later. Tables whose first
/// tick is 0 have one in force at every tick; where they are the tables of some scales, they are a table of
/// the scale in force at each tick, and where a scale that comes again has the table that it had, a key has the
/// same bounds wherever the same scale is in force. A list of one tick, 0, may get further ones, each above the last.
pub fn in_force_laws()
    ensures last { (tick : ℕ) (entries : List (ℕ × KeyTable)) (t : KeyTable)
        → in_force tick entries ≡ Some t → IsLast tick entries t }
    ensures only { (tick : ℕ) (entries : List (ℕ × KeyTable)) (t : KeyTable)
        → IsLast tick entries t → in_force tick entries ≡ Some t }
    ensures latest { (tick : ℕ) (entries : List (ℕ × KeyTable)) (t : KeyTable)
        → IsTimeline (ticks_of entries) → (l : IsLast tick entries t)
        → AllByRecursion (λ e. e.0 ≤ tick → e.0 ≤ l.from) entries }
    ensures always { (tick : ℕ) (entries : List (ℕ × KeyTable))
        → IsTimeline (ticks_of entries) → in_force tick entries ≢ None }
    ensures one { IsTimeline (0 ∷ []) }
    ensures further { (ticks : List ℕ) (from : ℕ) → IsTimeline ticks
        → slice_index ticks (length ticks - 1) < from → IsTimeline (ticks ++ from ∷ []) }
    ensures table { (scales : List (ℕ × List Entry)) (m : KeyMap) (entries : List (ℕ × KeyTable))
        → AreTablesOf scales m entries → IsTimeline (ticks_of entries)
        → IsTable (scales_in_force scales m) (by_entries entries) }
    ensures few { (scales : List (ℕ × List Entry)) (m : KeyMap) (entries : List (ℕ × KeyTable))
        → AreTablesOf scales m entries → IsTimeline (ticks_of entries)
        → AreFewTerms (scales_in_force scales m) }
    ensures one_per_scale { (scales : List (ℕ × List Entry)) (m : KeyMap) (entries : List (ℕ × KeyTable))
        → AreTablesOf scales m entries → IsTimeline (ticks_of entries) → AreOnePerScale scales entries
        → IsOnePerScale (scales_in_force scales m) (by_entries entries) }
{}

/// Three values, from ticks 0, 480 and 960 on; and lists that have nothing yet.
pub fn in_force_examples()
    ensures start { in_force {X = ℕ} 0 ((0, 1) ∷ (480, 2) ∷ (960, 3) ∷ []) ≡ Some 1 }
    ensures before { in_force {X = ℕ} 479 ((0, 1) ∷ (480, 2) ∷ (960, 3) ∷ []) ≡ Some 1 }
    ensures at { in_force {X = ℕ} 480 ((0, 1) ∷ (480, 2) ∷ (960, 3) ∷ []) ≡ Some 2 }
    ensures behind { in_force {X = ℕ} 959 ((0, 1) ∷ (480, 2) ∷ (960, 3) ∷ []) ≡ Some 2 }
    ensures last { in_force {X = ℕ} 5000 ((0, 1) ∷ (480, 2) ∷ (960, 3) ∷ []) ≡ Some 3 }
    ensures early { in_force {X = ℕ} 479 ((480, 2) ∷ []) ≡ None }
    ensures empty { in_force {X = ℕ} 0 [] ≡ None }
{}
