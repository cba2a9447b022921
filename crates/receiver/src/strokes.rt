ghost use Rattle.std.specs.Prelude.{◌≡◌, ◌<◌, ℕ};
ghost use Rattle.mt_base.specs.Midi.{channel_of, view_what};
ghost use Rattle.mt_base.specs.Valid.{IsValidMsg, IsValidWhat};
ghost use Rattle.midi_model.specs.Sysex.{doing};
ghost use Rattle.receiver.specs.Notes.{has};
ghost use Rattle.receiver.specs.Turns.{strikes, strikes_by};

use mt_base::{Msg, What};

/// The key that a message strikes, as a bit, where it is a note on of the channel and its velocity
/// isn't 0.
pub(crate) fn key_struck(message: &Msg, channel: u8) -> u128
    requires { IsValidMsg message.now }
    ensures { (k : ℕ) → k < 128 → has result k ≡ strikes_by message.now channel k }
{
    match *message {
        Msg::NoteOn {
            channel: on,
            key,
            velocity,
        } => {
            if velocity > 0 && on.number() == channel {
                1 << key
            } else {
                0
            }
        }
        Msg::NoteOff { .. }
        | Msg::KeyPressure { .. }
        | Msg::Control { .. }
        | Msg::Program { .. }
        | Msg::Pressure { .. }
        | Msg::Bend { .. } => 0,
    }
}

/// The key that an event strikes on the channel, as a bit; no bit where it strikes none.
pub(crate) fn struck_by(what: &What<'_>, channel: u8) -> u128
    requires { IsValidWhat (view_what what.now) }
    ensures { (k : ℕ) → k < 128 → has result k ≡ strikes (doing (view_what what.now)) channel k }
{
    match *what {
        What::Message(ref message) => key_struck(message, channel),
        What::Sysex { .. } | What::Meta { .. } => 0,
    }
}

/// The number of the channel that a message is about, from 0.
pub(crate) fn channel_number(message: &Msg) -> u8
    ensures value { result ≡ channel_of message.now }
    ensures bound { result < 16 }
{
    message.channel().number()
}
