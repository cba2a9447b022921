ghost use Rattle.std.specs.Prelude.{◌≡◌, ◌≤◌, ◌+◌, ◌++◌, length, IfSome};
ghost use Rattle.std.specs.Option.{option_map};
ghost use Rattle.std.specs.List.{flat_map, AllByRecursion};
ghost use Rattle.retune_model.specs.Octave.{octave_of, octave_body, are_data, two_byte_values};
ghost use Rattle.octave_route.specs.Messages.{IsOctaveValue, two_bytes, octave_bytes, as_read};

use arrayvec::ArrayVec;

fn push_value(out: &mut ArrayVec<u8, 32>, value: u16)
    requires room { length out.old.items + 2 ≤ 32 }
    requires fits { IsOctaveValue value }
    ensures { out.new.items ≡ out.old.items ++ two_bytes value }
{
    out.push((value / 128) as u8);
    out.push((value % 128) as u8);
}

#[tactic(auto, using(crate::proofs::Values::values_length))]
fn push_values(out: &mut ArrayVec<u8, 32>, values: &[u16; 12])
    requires room { length out.old.items ≡ 7 }
    requires fit { AllByRecursion IsOctaveValue values.now }
    ensures { out.new.items ≡ out.old.items ++ flat_map two_bytes values.now }
{
    for value in values {
        push_value(out, *value);
    }
}

/// The message that tunes the twelve classes of keys, from C on, on some channels of all devices. Bit 0
/// of `channels` is channel 1, bit 15 is channel 16. A value is at most 16,383: 8192 leaves the class at
/// its equal-tempered pitch, and a step is 1/8192 semitone.
#[tactic(auto, using(crate::proofs::Values::values_length))]
pub fn message(channels: u16, values: &[u16; 12]) -> ArrayVec<u8, 32>
    requires values { AllByRecursion IsOctaveValue values.now }
    ensures bytes { result.items ≡ octave_bytes channels values.now }
    ensures length { length result.items ≡ 32 }
{
    let mut out = ArrayVec::new();
    out.push(0x7e);
    out.push(0x7f);
    out.push(0x08);
    out.push(0x09);
    out.push((channels / 16384) as u8);
    out.push(((channels / 128) % 128) as u8);
    out.push((channels % 128) as u8);
    push_values(&mut out, values);
    out.push(0xf7);
    out
}

#[tactic(auto, using(crate::proofs::Values::data_from))]
fn are_data(bytes: &[u8]) -> bool
    ensures { result ≡ are_data bytes.now }
{
    for byte in bytes {
        if *byte > 127 {
            return false;
        }
    }
    true
}

fn read_values(bytes: &[u8]) -> [u16; 12]
    requires size { length bytes.now ≡ 24 }
    ensures { result ≡ two_byte_values bytes.now }
{
    let mut values = [0; 12];
    for class in 0..12 {
        values[class] = 128 * u16::from(bytes[2 * class]) + u16::from(bytes[2 * class + 1]);
    }
    values
}

// What follows 7E, a device and 08 09.
fn read_body(device: u8, ff: u8, gg: u8, hh: u8, rest: &[u8]) -> Option<(u16, [u16; 12])>
    ensures read { result ≡ option_map as_read (octave_body device ff gg hh rest.now) }
    ensures range { IfSome result (λ r. AllByRecursion IsOctaveValue r.1) }
{
    if rest.len() != 25 {
        return None;
    }
    if rest[24] != 0xf7 {
        return None;
    }
    if ff > 3 {
        return None;
    }
    if !are_data(&[device, ff, gg, hh]) {
        return None;
    }
    let values = &rest[..24];
    if !are_data(values) {
        return None;
    }
    let channels = 16384 * u16::from(ff) + 128 * u16::from(gg) + u16::from(hh);
    Some((channels, read_values(values)))
}

/// The channels and the twelve values of a message of octave tuning, of any device. `None` where the
/// bytes are no such message: they don't begin with 7E, any device, 08 09, or they are not 32, or they
/// don't end with F7, or they name more than 16 channels, or one before the last is above 127.
pub fn read_octave(bytes: &[u8]) -> Option<(u16, [u16; 12])>
    ensures read { result ≡ option_map as_read (octave_of bytes.now) }
    ensures range { IfSome result (λ r. AllByRecursion IsOctaveValue r.1) }
{
    match bytes {
        [0x7e, device, 0x08, 0x09, ff, gg, hh, rest @ ..] => {
            read_body(*device, *ff, *gg, *hh, rest)
        }
        _ => None,
    }
}
