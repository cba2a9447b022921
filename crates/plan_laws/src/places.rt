//! Laws of places. The function does nothing: its contract is what is stated.

ghost use Rattle.plan_laws.specs.PlacingLaws.{NoneAtFirst, LeavingFrees, ClearingFrees, NoneBegins, OneBeginsOn, BestIsTaken, NoneIsTaken, OneIsFree};
ghost use Rattle.plan_laws.specs.FromLaws.{BendIsLeftAlone, BendIsCleared, BendLeaves, RestsBeforeItLeaves, HeldHolds, MemberIsLeftAlone, MemberIsCleared, MemberLeaves, MemberCosts};
ghost use Rattle.plan_laws.specs.Rows.{RowAtFirst, RowIsOfParts, RowLeaves, RowIsCleared, RowStays, RowGoesOn, RowTakes, RowHasRoom, RowHasPair, RowKeepsPair, RowBegins};

use crate::counting::{counting_laws, taken_laws};
use retune_model::{
    elsewhere, fewest_channels, held_laws, last_ends, pair_laws, position_laws, rests_are_runs,
    rests_as_written, sound_sources, without_rests,
};

/// What the places of a row hold is kept by each event: those whose pairs it ends are freed, a reset frees all, and a
/// run that begins goes on the best of the free ones, of which there is one.
pub fn placing_laws()
    ensures first { NoneAtFirst }
    ensures leave { LeavingFrees }
    ensures clear { ClearingFrees }
    ensures none { NoneBegins }
    ensures one { OneBeginsOn }
    ensures best { BestIsTaken }
    ensures idle { NoneIsTaken }
    ensures room { OneIsFree }
{
    pair_laws();
}

/// The states in which pairs leave their channels. On bend a channel stays as its last run left it: as that run's pair
/// needed it after the event that ended it, or, where it rested, before that event; a pair that sounds doesn't leave where
/// notes rest. On MPE a member keeps its last pair's bend. A reset brings all to the defaults.
pub fn leaving_laws()
    ensures alone { BendIsLeftAlone }
    ensures cleared { BendIsCleared }
    ensures leaves { BendLeaves }
    ensures rests { RestsBeforeItLeaves }
    ensures held { HeldHolds }
    ensures member_alone { MemberIsLeftAlone }
    ensures member_cleared { MemberIsCleared }
    ensures member_leaves { MemberLeaves }
    ensures member_costs { MemberCosts }
{
    pair_laws();
    rests_as_written();
    rests_are_runs();
    last_ends();
    elsewhere();
    without_rests();
}

/// What a used row holds of a source without a fault, event by event: which pair is on each place, and that each run got the
/// free place with the shortest setup.
pub fn row_laws()
    ensures first { RowAtFirst }
    ensures parts { RowIsOfParts }
    ensures leaves { RowLeaves }
    ensures cleared { RowIsCleared }
    ensures stays { RowStays }
    ensures goes_on { RowGoesOn }
    ensures takes { RowTakes }
    ensures room { RowHasRoom }
    ensures has { RowHasPair }
    ensures keeps { RowKeepsPair }
    ensures begins { RowBegins }
{
    pair_laws();
    sound_sources();
    rests_are_runs();
    elsewhere();
    held_laws();
    fewest_channels();
    position_laws();
    taken_laws();
    counting_laws();
    leaving_laws();
}
