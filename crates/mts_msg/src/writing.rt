ghost use Rattle.std.specs.Prelude.{◌≡◌, ◌≤◌, ◌+◌, ◌++◌, [], length};
ghost use Rattle.std.specs.List.{flat_map, AllByRecursion};
ghost use Rattle.mt_base.specs.declared.event.Msg.TheVariants.{Control};
ghost use Rattle.midi_model.specs.Sysex.{xor_all};
ghost use Rattle.midi_model.specs.TuningBytes.{value_bytes, IsTuningValue, dump_name, dump_body, dump_bytes, change_bytes, select_of};

use arrayvec::ArrayVec;
use mt_base::{Channel, Msg};

/// The exclusive or of all bytes.
#[tactic(auto, using(crate::proofs::Sums::xor_next))]
pub(crate) fn checksum(bytes: &[u8]) -> u8
    ensures { result ≡ xor_all bytes.now }
{
    let mut sum = 0;
    for byte in bytes {
        sum ^= *byte;
    }
    sum
}

fn push_value(out: &mut ArrayVec<u8, 407>, value: Option<u32>)
    requires room { length out.old.items + 3 ≤ 407 }
    requires fits { IsTuningValue value }
    ensures { out.new.items ≡ out.old.items ++ value_bytes value }
{
    match value {
        None => {
            out.push(0x7f);
            out.push(0x7f);
            out.push(0x7f);
        }
        Some(steps) => {
            out.push((steps / 16384) as u8);
            out.push(((steps / 128) % 128) as u8);
            out.push((steps % 128) as u8);
        }
    }
}

#[tactic(auto, using(crate::proofs::Lengths::values_length))]
fn push_values(out: &mut ArrayVec<u8, 407>, values: &[Option<u32>; 128])
    requires room { length out.old.items ≡ 21 }
    requires fit { AllByRecursion IsTuningValue values.now }
    ensures { out.new.items ≡ out.old.items ++ flat_map value_bytes values.now }
{
    for value in values {
        push_value(out, *value);
    }
}

fn dump_head(program: u8) -> ArrayVec<u8, 407>
    ensures { result.items ≡ dump_body program [] }
{
    let mut out = ArrayVec::new();
    out.push(0x7e);
    out.push(0x7f);
    out.push(0x08);
    out.push(0x01);
    out.push(program);
    for byte in b"mtune           " {
        out.push(*byte);
    }
    out
}

/// A bulk dump of a program, to all devices: a value for each key, in steps of 1/16384 semitone
/// above key 0, at most 2,097,150; `None` leaves the key as it was. The program is at most 127.
#[tactic(auto, using(crate::proofs::Lengths::values_length))]
pub fn dump(program: u8, values: &[Option<u32>; 128]) -> ArrayVec<u8, 407>
    requires program { program ≤ 127 }
    requires values { AllByRecursion IsTuningValue values.now }
    ensures bytes { result.items ≡ dump_bytes program values.now }
    ensures length { length result.items ≡ 407 }
{
    let mut out = dump_head(program);
    push_values(&mut out, values);
    let sum = checksum(out.as_slice());
    out.push(sum);
    out.push(0xf7);
    out
}

/// A change of one key of a program, in real time, to all devices: its new value in steps of
/// 1/16384 semitone above key 0, at most 2,097,150. Program and key are at most 127.
pub fn note_change(program: u8, key: u8, value: u32) -> ArrayVec<u8, 11>
    requires program { program ≤ 127 }
    requires key { key ≤ 127 }
    requires value { value ≤ 2097150 }
    ensures bytes { result.items ≡ change_bytes program key value }
    ensures length { length result.items ≡ 11 }
{
    let mut out = ArrayVec::new();
    out.push(0x7f);
    out.push(0x7f);
    out.push(0x08);
    out.push(0x02);
    out.push(program);
    out.push(0x01);
    out.push(key);
    out.push((value / 16384) as u8);
    out.push(((value / 128) % 128) as u8);
    out.push((value % 128) as u8);
    out.push(0xf7);
    out
}

/// The messages that select a tuning program, at most 127, on a channel, and no parameter
/// afterwards.
pub fn select(channel: Channel, program: u8) -> ArrayVec<Msg, 5>
    requires { program ≤ 127 }
    ensures { result.items ≡ select_of channel program }
{
    let mut out = ArrayVec::new();
    out.push(control(channel, 101, 0));
    out.push(control(channel, 100, 3));
    out.push(control(channel, 6, program));
    out.push(control(channel, 101, 127));
    out.push(control(channel, 100, 127));
    out
}

fn control(channel: Channel, number: u8, value: u8) -> Msg
    ensures { result ≡ Control channel number value }
{
    Msg::Control {
        channel,
        number,
        value,
    }
}
