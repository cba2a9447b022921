//! What bringing a channel to a state reaches.

ghost use Rattle.state_laws.specs.Reached.{Reaches, KeepsTheSelection, ClosesTheSelection, IgnoresTheSelections};

use midi_model::parameter_laws;

/// From one well-formed state to another, the channel is at the wanted state after the messages, the selection aside. Where a
/// parameter was set nothing is selected then, else what was. What is selected makes no difference to the messages.
pub fn bring_reaches()
    ensures wanted { Reaches }
    ensures kept { KeepsTheSelection }
    ensures closed { ClosesTheSelection }
    ensures ignored { IgnoresTheSelections }
{
    parameter_laws();
}
