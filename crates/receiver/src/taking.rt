ghost use Rattle.std.specs.Prelude.{◌≡◌, ◌≤◌, ◌↔◌, IsTrue};
ghost use Rattle.mt_base.specs.Valid.{IsValidMsg};
ghost use Rattle.midi_model.specs.Channel.{counted, apply, role, controlled, ResetControllers};
ghost use Rattle.receiver.specs.State.{own_of, program_after, program_by};

use crate::role::{DataByte, Purpose, purpose_of};
use crate::state::{ChannelState, Voice};
use mt_base::Msg;

// What the messages to a channel do to its state.
impl ChannelState {
    /// Reset all controllers.
    fn reset_controllers(&mut self)
        ensures own { own_of self.new ≡ controlled (own_of self.old) 121 0 ResetControllers }
        ensures keys { self.new.keys ≡ self.old.keys }
        ensures tuning { self.new.tuning ≡ self.old.tuning }
    {
        self.controls.set(1, 0);
        self.controls.set(11, 127);
        self.controls.set(64, 0);
        self.controls.set(65, 0);
        self.controls.set(66, 0);
        self.controls.set(67, 0);
        self.registered = true;
        self.rpn = (127, 127);
        self.nrpn = (127, 127);
        self.bend = 8192;
        self.pressure = 0;
    }

    /// A controller.
    fn control(&mut self, number: u8, value: u8)
        requires number { number ≤ 127 }
        requires value { value ≤ 127 }
        requires room { counted (controlled (own_of self.old) number value (role number)) ≤ 16 }
        ensures own { own_of self.new ≡ controlled (own_of self.old) number value (role number) }
        ensures keys { self.new.keys ≡ self.old.keys }
        ensures tuning { self.new.tuning
            ≡ program_by (own_of self.old) value (role number) self.old.tuning }
    {
        match purpose_of(number) {
            Purpose::Keep => self.controls.set(number as usize, value),
            Purpose::DataEntryMsb => self.enter(DataByte::Msb, value),
            Purpose::DataEntryLsb => self.enter(DataByte::Lsb, value),
            Purpose::NrpnLsb => {
                self.registered = false;
                self.nrpn = (self.nrpn.0, value);
            }
            Purpose::NrpnMsb => {
                self.registered = false;
                self.nrpn = (value, self.nrpn.1);
            }
            Purpose::RpnLsb => {
                self.registered = true;
                self.rpn = (self.rpn.0, value);
            }
            Purpose::RpnMsb => {
                self.registered = true;
                self.rpn = (value, self.rpn.1);
            }
            Purpose::Reset => self.reset_controllers(),
            Purpose::SoundOff | Purpose::NotesOff | Purpose::Nothing => {}
        }
    }

    /// Takes a message to this channel. The pressures of its keys stay as they are: they depend on
    /// what sounds.
    pub fn apply(&mut self, message: Msg)
        requires valid { IsValidMsg message }
        requires room { counted (apply (own_of self.old) message) ≤ 16 }
        ensures own { own_of self.new ≡ apply (own_of self.old) message }
        ensures keys { self.new.keys ≡ self.old.keys }
        ensures tuning { self.new.tuning ≡ program_after (own_of self.old) message self.old.tuning }
    {
        match message {
            Msg::Control { number, value, .. } => self.control(number, value),
            Msg::Program { program, .. } => {
                self.voice = Voice {
                    bank_high: self.controls.get(0),
                    bank_low: self.controls.get(32),
                    program,
                };
            }
            Msg::Pressure { value, .. } => self.pressure = value,
            Msg::Bend { value, .. } => self.bend = value,
            Msg::NoteOn { .. } | Msg::NoteOff { .. } | Msg::KeyPressure { .. } => {}
        }
    }

    /// Whether a message to this channel leaves at most 16 parameters that count.
    pub fn room(&self, message: Msg) -> bool
        requires valid { IsValidMsg message }
        ensures { IsTrue result ↔ (counted (apply (own_of self.now) message) ≤ 16) }
    {
        if let Msg::Control { number, value, .. } = message {
            return match purpose_of(number) {
                Purpose::DataEntryMsb => self.has_room_entered(DataByte::Msb, value),
                Purpose::DataEntryLsb => self.has_room_entered(DataByte::Lsb, value),
                _ => self.is_within_limit(),
            };
        }
        self.is_within_limit()
    }
}
