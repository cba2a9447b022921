//! Several channels that are brought, one after another.

ghost use Rattle.state_laws.specs.Several.{BringsSeveral};

use midi_model::{music_laws, parameter_laws};

/// Each of several channels arrives at its wanted state, the selection aside, all others stay, and each note hears the messages
/// of its own channel alone.
pub fn several_arrive()
    ensures { BringsSeveral }
{
    parameter_laws();
    music_laws();
}
