//! Laws of what the bend and MPE routes write. The function does nothing: its contract is what is stated.

ghost use Rattle.channel_model.specs.Laws.{BentPorts, ZonedPorts};

use retune_model::ports_apart;

/// Each port of the output is what the port's rule makes of the port's events.
pub fn outputs_apart()
    ensures bend { BentPorts }
    ensures mpe { ZonedPorts }
{
    ports_apart();
}
