//! A law of pairs. The function does nothing: its contract is what is stated.

ghost use Rattle.channel_plan.specs.Staying.{StaysUnlessEnded};

use midi_model::music_laws;
use retune_model::{next_laws, order_laws, position_laws, without_rests};

/// Where notes don't rest, a pair stays at an event that ends no note of its channel. So it need
/// not be looked at then.
pub(crate) fn staying()
    ensures { StaysUnlessEnded }
{
    music_laws();
    order_laws();
    position_laws();
    next_laws();
    without_rests();
}
