ghost use Rattle.std.specs.Prelude.{◌≡◌, ◌≤◌, ◌↔◌, IsTrue, IfSome};
ghost use Rattle.midi_model.specs.Channel.{counted, target};
ghost use Rattle.midi_model.specs.WellFormed.{IsEntered};
ghost use Rattle.receiver.specs.Params.{entry_of};
ghost use Rattle.receiver.specs.Roles.{target_of, HasValue, entry_role, entered, given_by};
ghost use Rattle.receiver.specs.State.{own_of, program_by};

use crate::param::Param;
use crate::role::{DataByte, Selected, selected_by};
use crate::state::ChannelState;

// Data entry: what it writes to, and what it writes.
impl ChannelState {
    /// What data entry writes to now.
    pub(crate) fn target(&self) -> Selected
        ensures target { target_of result ≡ target (own_of self.now).selection }
        ensures value { HasValue result }
    {
        if self.registered {
            selected_by(true, self.rpn)
        } else {
            selected_by(false, self.nrpn)
        }
    }

    /// What data entry of a byte gives: the parameter that is selected, with this byte in its
    /// value. It gives nothing where no parameter is selected that has a value.
    fn entered(&self, byte: DataByte, value: u8) -> Option<Param>
        requires { value ≤ 127 }
        ensures params { given_by result (own_of self.now).params
            ≡ (entered byte value (own_of self.now)).params }
        ensures fits { IfSome result (λ p. IsEntered (entry_of p)) }
    {
        match self.target() {
            Selected::Of {
                registered,
                high,
                low,
            } => {
                let before = self.value(registered, high, low);
                let value = match byte {
                    DataByte::Msb => (value, before.1),
                    DataByte::Lsb => (before.0, value),
                };
                Some(Param {
                    registered,
                    high,
                    low,
                    value,
                })
            }
            Selected::Null | Selected::Tuning | Selected::Zone => None,
        }
    }

    /// Data entry of a byte.
    pub(crate) fn enter(&mut self, byte: DataByte, value: u8)
        requires value { value ≤ 127 }
        requires room { counted (entered byte value (own_of self.old)) ≤ 16 }
        ensures own { own_of self.new ≡ entered byte value (own_of self.old) }
        ensures keys { self.new.keys ≡ self.old.keys }
        ensures tuning { self.new.tuning
            ≡ program_by (own_of self.old) value (entry_role byte) self.old.tuning }
    {
        if byte == DataByte::Msb && self.target() == Selected::Tuning {
            self.tuning = Some(value);
        } else if let Some(param) = self.entered(byte, value) {
            self.set_value(param);
        }
    }

    /// Whether data entry of a byte leaves at most 16 parameters that count.
    pub(crate) fn has_room_entered(&self, byte: DataByte, value: u8) -> bool
        requires value { value ≤ 127 }
        ensures { IsTrue result ↔ (counted (entered byte value (own_of self.now)) ≤ 16) }
    {
        match self.entered(byte, value) {
            Some(param) => self.has_room(param),
            None => self.is_within_limit(),
        }
    }
}
