ghost use Rattle.std.specs.Prelude.{◌≡◌, ◌≤◌, IfSome, IfNone, IsTrue, false, length};
ghost use Rattle.std.specs.Option.{option_map};
ghost use Rattle.midi_model.specs.Sysex.{value_at, all_low, key_values, changes, is_dump, is_change, tuning_of};
ghost use Rattle.midi_model.specs.TuningBytes.{numbered};
ghost use Rattle.mts_msg.specs.Readings.{retune_of, is_table, IsInRange, ReadsDumps};

use crate::pattern::{CHANGE, DUMP, begins};
use crate::writing::checksum;
use arrayvec::ArrayVec;

/// A tuning message that was read. Values are in steps of 1/16384 semitone above key 0; where there
/// is none, the key stays as it was.
#[derive(Drop)]
pub enum Tuning {
    /// Each key of a program.
    Dump {
        program: u8,
        values: [Option<u32>; 128],
    },
    /// Some keys of a program, one after another.
    Changes {
        program: u8,
        list: ArrayVec<(u8, Option<u32>), 127>,
    },
}

/// Three bytes as a value. 7F 7F 7F is none.
fn value_of(semitone: u8, high: u8, low: u8) -> Option<u32>
    ensures { result ≡ value_at semitone high low }
{
    if semitone == 0x7f && high == 0x7f && low == 0x7f {
        None
    } else {
        Some(16384 * u32::from(semitone) + 128 * u32::from(high) + u32::from(low))
    }
}

#[tactic(auto, using(crate::proofs::Keys::low_from))]
fn are_data(bytes: &[u8]) -> bool
    ensures { result ≡ all_low bytes.now }
{
    for byte in bytes {
        if *byte >= 0x80 {
            return false;
        }
    }
    true
}

/// The values of all keys, three bytes each.
fn read_values(bytes: &[u8]) -> [Option<u32>; 128]
    requires { length bytes.now ≡ 384 }
    ensures { numbered 0 result ≡ key_values 0 bytes.now }
{
    let mut values = [None; 128];
    for key in 0..128 {
        values[key] = value_of(bytes[3 * key], bytes[3 * key + 1], bytes[3 * key + 2]);
    }
    values
}

/// Keys and their new values, four bytes each.
fn read_changes(bytes: &[u8]) -> ArrayVec<(u8, Option<u32>), 127>
    requires { length bytes.now ≤ 508 }
    ensures { result.items ≡ changes bytes.now }
{
    let mut list = ArrayVec::new();
    let mut rest = bytes;
    while let [key, semitone, high, low, behind @ ..] = rest {
        list.push((*key, value_of(*semitone, *high, *low)));
        rest = behind;
    }
    list
}

fn is_dump(bytes: &[u8]) -> bool
    ensures value { result ≡ is_dump bytes.now }
    ensures whole { IsTrue result → length bytes.now ≡ 407 }
{
    if bytes.len() != 407 {
        return false;
    }
    let last = bytes.len() - 1;
    begins(&DUMP, bytes)
        && are_data(&bytes[..last])
        && bytes[last - 1] == checksum(&bytes[..last - 1])
        && bytes[last] == 0xf7
}

fn is_change(bytes: &[u8]) -> bool
    ensures value { result ≡ is_change bytes.now }
    ensures whole { IsTrue result → (7 ≤ length bytes.now) × (length bytes.now ≤ 515) }
{
    bytes.len() >= 7
        && bytes.len() == 7 + 4 * usize::from(bytes[5])
        && begins(&CHANGE, bytes)
        && are_data(&bytes[..bytes.len() - 1])
        && bytes[bytes.len() - 1] == 0xf7
}

/// The tuning message that the bytes say: a bulk dump or a change of some keys, of any device, in
/// full length, all bytes but the last at most 127, and for a dump with the right checksum. `None`
/// where they are neither.
pub fn read_tuning(bytes: &[u8]) -> Option<Tuning>
    ensures read { option_map retune_of result ≡ tuning_of bytes.now }
    ensures table { IfSome result (λ t. is_table t ≡ is_dump bytes.now) }
    ensures range { IfSome result (λ t. IsInRange (retune_of t)) }
    ensures dump { ReadsDumps bytes.now result }
    ensures none { IfNone result ((is_dump bytes.now ≡ false) × (is_change bytes.now ≡ false)) }
{
    let count = bytes.len();
    if is_dump(bytes) {
        Some(Tuning::Dump {
            program: bytes[4],
            values: read_values(&bytes[21..count - 2]),
        })
    } else if is_change(bytes) {
        Some(Tuning::Changes {
            program: bytes[4],
            list: read_changes(&bytes[6..count - 1]),
        })
    } else {
        None
    }
}
