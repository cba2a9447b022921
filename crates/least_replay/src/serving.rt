//! Laws of plans and prices. The functions do nothing: their contracts are what is stated.

ghost use Rattle.least_replay.specs.Priced.{MeasuredAreRuns, PriceIsCost, NoPriceIsLess};
ghost use Rattle.least_replay.specs.Serving.{PlansServe};

use crate::laws::no_assignment_costs_less;
use channel_model::best_is_free;
use retune_model::{elsewhere, fewest_channels, pair_laws, rests_are_runs, sound_sources};

/// A plan for the bend route serves each port, so that the costs of the runs can be measured.
pub fn plans_serve()
    ensures { PlansServe }
{
    best_is_free();
}

/// The price of places that the runs of a port are given, with the setups as the choice of channels
/// reckons them, is what the table of costs says of them. So with a good certificate no places have a
/// smaller price.
pub fn measured_prices()
    ensures runs { MeasuredAreRuns }
    ensures price { PriceIsCost }
    ensures least { NoPriceIsLess }
{
    pair_laws();
    elsewhere();
    rests_are_runs();
    sound_sources();
    fewest_channels();
    no_assignment_costs_less();
}
