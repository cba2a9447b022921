//! Laws of the choice of channels. The functions do nothing: their contracts are what is stated.

ghost use Rattle.channel_model.specs.Laws.{BestIsFree, ShortestIsFree, ShortestMemberIsFree, HeldUntil, NotHeldLater, FreeFromThenOn, TakenRightBefore};
ghost use Rattle.channel_model.specs.ChoiceTest.{TestedIsBest};

use retune_model::{held_laws, pair_laws, rests_are_runs};

/// A rule that takes the best of the places that are free takes a free one. So what holds of any such rule holds of the one that takes
/// the shortest setup: its assignment is valid, and has as many channels as are needed.
pub fn best_is_free()
    ensures best { BestIsFree }
    ensures shortest { ShortestIsFree }
    ensures member { ShortestMemberIsFree }
{}

/// Whether a row takes the best places can be computed: where the test holds, it does.
pub fn tested_choice()
    ensures best { TestedIsBest }
{
    pair_laws();
}

/// The last event at which a run held its channel, by its last position: it was held there, and at no later event up to the position at
/// which a run of its pair begins again.
pub fn last_held()
    ensures held { HeldUntil }
    ensures not_later { NotHeldLater }
{
    held_laws();
    rests_are_runs();
}

/// Since when a place is free: from then on no run is on it, and right before one was.
pub fn free_laws()
    ensures then_on { FreeFromThenOn }
    ensures before { TakenRightBefore }
{}
