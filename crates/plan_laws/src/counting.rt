//! Laws of counting pairs, event by event. The functions do nothing: their contracts are what is stated.

ghost use Rattle.plan_laws.specs.Counting.{NextIsTaken, PairsAreTaken, HeldAreTaken, MusicIsTaken, ResetIsTaken, TickIsTaken, PairsGoOn, BegunIsOfEvent, EventIsAimed, HoldingIsThere, PairsAreOwn, FaultIsFirst};

use retune_model::{
    front_faults, front_laws, held_laws, next_laws, order_laws, pairs_in_order, part_alone,
    position_laws, rests_are_runs, sound_sources,
};

/// What is so at a position by the events up to it, is so by all events.
pub fn taken_laws()
    ensures next { NextIsTaken }
    ensures pairs { PairsAreTaken }
    ensures held { HeldAreTaken }
    ensures music { MusicIsTaken }
    ensures reset { ResetIsTaken }
    ensures tick { TickIsTaken }
    ensures fault { FaultIsFirst }
{
    front_laws();
    front_faults();
}

/// After an event there are the pairs that were there before it and hold after it, and the one that it begins.
pub fn counting_laws()
    ensures pairs { PairsGoOn }
    ensures begun { BegunIsOfEvent }
    ensures aimed { EventIsAimed }
    ensures holding { HoldingIsThere }
    ensures own { PairsAreOwn }
{
    taken_laws();
    front_laws();
    next_laws();
    held_laws();
    order_laws();
    pairs_in_order();
    part_alone();
    position_laws();
    rests_are_runs();
    sound_sources();
}
