//! Which messages bring a channel to a state.

ghost use Rattle.state_laws.specs.Sent.{SendsOnlySettings, SendsValidOnes, HasRoom};

use midi_model::parameter_laws;

/// From one well-formed state to another: each message is valid, is to this channel, begins and releases no note, resets
/// nothing, and chooses neither a zone nor a tuning program. After any of them no more parameters count than at one of the
/// ends.
pub fn messages_only_set()
    ensures settings { SendsOnlySettings }
    ensures valid { SendsValidOnes }
    ensures room { HasRoom }
{
    parameter_laws();
}
