ghost use Rattle.std.specs.Prelude.{◌≡◌, ◌≤◌};
ghost use Rattle.midi_model.specs.Channel.{role, target_in};
ghost use Rattle.receiver.specs.declared.role.Purpose.TheVariants.{Keep};
ghost use Rattle.receiver.specs.Roles.{role_of, target_of, HasValue};

/// What a controller number is for.
#[derive(Clone, Copy, Debug, PartialEq, Eq)]
pub enum Purpose {
    /// Its value is kept.
    Keep,
    DataEntryMsb,
    DataEntryLsb,
    NrpnLsb,
    NrpnMsb,
    RpnLsb,
    RpnMsb,
    SoundOff,
    Reset,
    NotesOff,
    Nothing,
}

/// The most and the least significant byte of a value of fourteen bits.
#[derive(Clone, Copy, Debug, PartialEq, Eq)]
pub enum DataByte {
    Msb,
    Lsb,
}

/// What data entry writes to.
#[derive(Clone, Copy, Debug, PartialEq, Eq)]
pub enum Selected {
    Null,
    /// The tuning program.
    Tuning,
    /// The size of a zone.
    Zone,
    /// A parameter that has a value.
    Of { registered: bool, high: u8, low: u8 },
}

pub(crate) fn purpose_of(number: u8) -> Purpose
    ensures role { role_of result ≡ role number }
    ensures kept { result ≡ Keep → number ≤ 119 }
{
    if number == 6 {
        Purpose::DataEntryMsb
    } else if number == 38 {
        Purpose::DataEntryLsb
    } else if number == 96 || number == 97 {
        Purpose::Nothing
    } else if number == 98 {
        Purpose::NrpnLsb
    } else if number == 99 {
        Purpose::NrpnMsb
    } else if number == 100 {
        Purpose::RpnLsb
    } else if number == 101 {
        Purpose::RpnMsb
    } else if number <= 119 {
        Purpose::Keep
    } else if number == 120 {
        Purpose::SoundOff
    } else if number == 121 {
        Purpose::Reset
    } else if number == 123 || number == 124 || number == 127 {
        Purpose::NotesOff
    } else {
        Purpose::Nothing
    }
}

/// What data entry writes to where this pair was selected.
pub(crate) fn selected_by(registered: bool, pair: (u8, u8)) -> Selected
    requires high { pair.0 ≤ 127 }
    requires low { pair.1 ≤ 127 }
    ensures target { target_of result ≡ target_in registered pair }
    ensures value { HasValue result }
{
    let (high, low) = pair;
    if high == 127 && low == 127 {
        Selected::Null
    } else if registered && high == 0 && low == 3 {
        Selected::Tuning
    } else if registered && high == 0 && low == 6 {
        Selected::Zone
    } else {
        Selected::Of {
            registered,
            high,
            low,
        }
    }
}
