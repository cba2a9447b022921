//! What the messages are where a single message makes the difference.

ghost use Rattle.state_laws.specs.Single.{WritesNothing, WritesTheController, WritesNoNumber, WritesTheHighByte, WritesTheLowByte, WritesTheProgram, WritesThePressure, WritesTheBend, WritesTheKeyPressure};

use midi_model::parameter_laws;

/// From a well-formed state to the one after a single message: that message, where it changes anything. The number of a parameter
/// stands before data entry, and nothing is selected behind it.
pub fn single_messages()
    ensures nothing { WritesNothing }
    ensures controller { WritesTheController }
    ensures no_number { WritesNoNumber }
    ensures high_byte { WritesTheHighByte }
    ensures low_byte { WritesTheLowByte }
    ensures program { WritesTheProgram }
    ensures pressure { WritesThePressure }
    ensures bend { WritesTheBend }
    ensures key_pressure { WritesTheKeyPressure }
{
    parameter_laws();
}
