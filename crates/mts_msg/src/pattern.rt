ghost use Rattle.std.specs.Prelude.{◌≡◌, map, nat_eq};
ghost use Rattle.midi_model.specs.Sysex.{begins, spells, is_wanted, is_reset, is_tuning};
ghost use Rattle.mts_msg.specs.Patterns.{wanted_of};

/// What is wanted of one byte: that byte, any, or any with that high half.
#[derive(Clone, Copy, Debug)]
pub(crate) enum Place {
    Exactly(u8),
    Any,
    HighHalf(u8),
}

use Place::{Any, Exactly, HighHalf};

const GENERAL_MIDI_ON: [Place; 5] = [
    Exactly(0x7e),
    Any,
    Exactly(0x09),
    Exactly(0x01),
    Exactly(0xf7),
];

const GENERAL_MIDI_OFF: [Place; 5] = [
    Exactly(0x7e),
    Any,
    Exactly(0x09),
    Exactly(0x02),
    Exactly(0xf7),
];

const GENERAL_MIDI_2_ON: [Place; 5] = [
    Exactly(0x7e),
    Any,
    Exactly(0x09),
    Exactly(0x03),
    Exactly(0xf7),
];

const GS_RESET: [Place; 10] = [
    Exactly(0x41),
    Exactly(0x10),
    Exactly(0x42),
    Exactly(0x12),
    Exactly(0x40),
    Exactly(0x00),
    Exactly(0x7f),
    Exactly(0x00),
    Exactly(0x41),
    Exactly(0xf7),
];

const XG_RESET: [Place; 8] = [
    Exactly(0x43),
    HighHalf(0x1),
    Exactly(0x4c),
    Exactly(0x00),
    Exactly(0x00),
    Exactly(0x7e),
    Exactly(0x00),
    Exactly(0xf7),
];

pub(crate) const DUMP: [Place; 4] = [Exactly(0x7e), Any, Exactly(0x08), Exactly(0x01)];

pub(crate) const CHANGE: [Place; 4] = [Exactly(0x7f), Any, Exactly(0x08), Exactly(0x02)];

const STORED_TUNING: [Place; 3] = [Exactly(0x7e), Any, Exactly(0x08)];

const LIVE_TUNING: [Place; 3] = [Exactly(0x7f), Any, Exactly(0x08)];

fn fits(place: Place, byte: u8) -> bool
    ensures { result ≡ is_wanted (wanted_of place) byte }
{
    match place {
        Exactly(wanted) => byte == wanted,
        Any => true,
        HighHalf(wanted) => byte >> 4 == wanted,
    }
}

/// Whether the bytes begin as the pattern says.
#[tactic(auto, using(crate::proofs::Patterns::lacks))]
pub(crate) fn begins(pattern: &[Place], bytes: &[u8]) -> bool
    ensures { result ≡ begins (map wanted_of pattern.now) bytes.now }
{
    match pattern {
        [] => true,
        [place, pattern @ ..] => match bytes {
            [] => false,
            [byte, bytes @ ..] => fits(*place, *byte) && begins(pattern, bytes),
        },
    }
}

fn spells(pattern: &[Place], bytes: &[u8]) -> bool
    ensures { result ≡ spells (map wanted_of pattern.now) bytes.now }
{
    bytes.len() == pattern.len() && begins(pattern, bytes)
}

/// Whether a message resets the synthesizer: General MIDI on or off, General MIDI 2 on, of any
/// device, or the resets of GS and XG.
pub fn is_reset(bytes: &[u8]) -> bool
    ensures { result ≡ is_reset bytes.now }
{
    spells(&GENERAL_MIDI_ON, bytes)
        || spells(&GENERAL_MIDI_OFF, bytes)
        || spells(&GENERAL_MIDI_2_ON, bytes)
        || spells(&GS_RESET, bytes)
        || spells(&XG_RESET, bytes)
}

/// Whether a message begins as one of the MIDI Tuning Standard: 7E or 7F, any device, 08.
pub fn is_tuning(bytes: &[u8]) -> bool
    ensures { result ≡ is_tuning bytes.now }
{
    begins(&STORED_TUNING, bytes) || begins(&LIVE_TUNING, bytes)
}
