//! Laws of what is printed. The functions do nothing: their contracts are what is stated.

ghost use Rattle.std.specs.Prelude.{◌≡◌, ◌++◌, ◌∷◌, [], pos, negsuc, codes, true, false};
ghost use Rattle.channel_plan.specs.declared.fault.TooMany.{TooMany};
ghost use Rattle.plan_report.specs.Texts.{channels_line, need_line, pair_lines, zone_line, port_lines, too_many_line, too_many_parts_line};
ghost use Rattle.plan_report.specs.Reported.{PlansAreReported};
ghost use Rattle.plan_report.specs.Examples.{instant_at, pairs_of, one_pair, zone_of, needs_of};

/// What is printed of a source's plan is what the definitions say of the source: the needs, the instants and the
/// pairs of its ports or zones, and how many channels there are.
pub fn plan_report_laws()
    ensures reported { PlansAreReported }
{}

/// Lines as they are printed: of a chord in just intonation; of the same pair on two parts in turn, where notes
/// rest; of a source without notes; of two ports; of port 1 alone; and of two zones.
pub fn report_examples()
    ensures channels { channels_line 14 ≡ codes "channels 14\n" }
    ensures chord { need_line 3 (instant_at 0 3)
        ++ pair_lines (pairs_of 0 (negsuc 92 ∷ pos 0 ∷ pos 13 ∷ []))
        ≡ codes "need 3 tick 0 position 3\npair 1 -93\npair 1 0\npair 1 13\n" }
    ensures in_turn { need_line 2 (instant_at 480 3)
        ++ pair_lines (pairs_of 0 (pos 0 ∷ []) ++ pairs_of 1 (pos 0 ∷ []))
        ≡ codes "need 2 tick 480 position 3\npair 1 0\npair 2 0\n" }
    ensures silent { port_lines (λ z. need_line 0 (instant_at 0 0) ++ pair_lines []) []
        ≡ codes "need 0 tick 0 position 0\n" }
    ensures ports { port_lines one_pair (0 ∷ 1 ∷ [])
        ≡ codes "port 0\nneed 1 tick 0 position 2\npair 1 0\n"
        ++ codes "port 1\nneed 1 tick 0 position 4\npair 1 0\n" }
    ensures one_port { port_lines one_pair (0 ∷ [])
        ≡ codes "need 1 tick 0 position 2\npair 1 0\n" }
    ensures other_port { port_lines one_pair (1 ∷ [])
        ≡ codes "port 1\nneed 1 tick 0 position 4\npair 1 0\n" }
    ensures zones { zone_line (zone_of false 0 9 9) ++ zone_line (zone_of true 1 5 14)
        ≡ codes "zone lower part 1 need 9 tick 0 position 9\n"
        ++ codes "zone upper part 2 need 5 tick 0 position 14\n" }
{}

/// The lines of the faults.
pub fn fault_examples()
    ensures channels { (t : TooMany) → too_many_line (needs_of t 0 3 2)
        ≡ codes "mtune: needs 3 channels of 2 at tick 0 position 3\n" }
    ensures none { (t : TooMany) → too_many_line (needs_of t 0 3 0)
        ≡ codes "mtune: needs 3 channels of 0 at tick 0 position 3\n" }
    ensures other_port { (t : TooMany) → too_many_line (needs_of t 1 3 2)
        ≡ codes "mtune: needs 3 channels of 2 on port 1 at tick 0 position 3\n" }
    ensures parts { too_many_parts_line 0 3 ≡ codes "mtune: 3 parts on mpe\n" }
    ensures other_parts { too_many_parts_line 1 3 ≡ codes "mtune: 3 parts on mpe on port 1\n" }
{}
