mod output;

ghost use Rattle.std.specs.Bool.{OnTrue};
ghost use Rattle.key_pitch.specs.Aims.{table_of};
ghost use Rattle.octave_route.specs.Classes.{AreMapped};

use crate::{OctaveFault, classes, message, read_octave};
use kbm_text::read_kbm;
use key_pitch::KeyTable;
use scl_text::read_scl;
use std::alloc::Global;
use std::test::Fail;

const JUST: &[u8] = b"just\n12\n16/15\n9/8\n6/5\n5/4\n4/3\n45/32\n3/2\n8/5\n5/3\n9/5\n15/8\n2/1\n";

const MIDDLE_C: &[u8] = b"0\n0\n127\n60\n60\n261.6255653\n0\n";

const A440: &[u8] = b"0\n0\n127\n69\n69\n440.0\n0\n";

/// The table of a scale text and a mapping text; none where there is none.
fn table(alloc: Global, scale: &[u8], mapping: &[u8]) -> Option<KeyTable> {
    if scale.len() > 262_144 || mapping.len() > 262_144 {
        return None;
    }
    let scale = read_scl(alloc, scale).ok()?;
    let mapping = read_kbm(alloc, mapping).ok()?;
    KeyTable::new(&scale, &mapping).ok()
}

fn set_of(keys: &[u8]) -> u128 {
    let mut used = 0;
    for key in keys {
        used |= 1u128.wrapping_shl(*key as u32);
    }
    used
}

fn are_mapped(table: &KeyTable, used: u128) -> bool
    ensures { OnTrue result (AreMapped (table_of table.now) used) }
{
    for key in 0..128u8 {
        if (used >> key) & 1 == 1 && table.pitch(key).is_none() {
            return false;
        }
    }
    true
}

/// What is told of the classes where these keys are used.
fn told(
    alloc: Global,
    scale: &[u8],
    mapping: &[u8],
    keys: &[u8],
) -> Option<Result<[u16; 12], OctaveFault>> {
    let table = table(alloc, scale, mapping)?;
    let used = set_of(keys);
    if !are_mapped(&table, used) {
        return None;
    }
    Some(classes(&table, used))
}

/// All classes level but one.
fn but(class: usize, value: u16) -> [u16; 12] {
    let mut values = [8192; 12];
    if class < 12 {
        values[class] = value;
    }
    values
}

/// A scale of one note, the keys that are used, and the class with its value where all others are level. Key 69 is
/// level. The values are worked out in exact fractions of a cent.
const FITTING: [(&[u8], &[u8], usize, u16); 8] = [
    (b"one\n1\n100.0\n", &[], 0, 8192),
    (b"one\n1\n100.0\n", &[0, 64, 127], 0, 8192),
    (b"one\n1\n100.1\n", &[69], 0, 8192),
    // one step up, one step down
    (b"one\n1\n100.0015\n", &[69, 81], 0, 8192),
    (b"one\n1\n99.9985\n", &[69, 81], 0, 8192),
    // the least key gives the value
    (b"one\n1\n100.001\n", &[57, 69], 9, 8191),
    // the least value and the greatest one
    (b"one\n1\n200.006\n", &[68], 8, 0),
    (b"one\n1\n199.993\n", &[70], 10, 16383),
];

/// The same with the first key that doesn't fit its class.
const UNFIT: [(&[u8], &[u8], u8); 6] = [
    (b"one\n1\n100.1\n", &[69, 81], 81),
    // two steps up, two steps down
    (b"one\n1\n100.0016\n", &[69, 81], 81),
    (b"one\n1\n99.9984\n", &[69, 81], 81),
    // the least key gives the value
    (b"one\n1\n100.001\n", &[57, 69, 81], 81),
    (b"one\n1\n100.001\n", &[57, 81], 81),
    (b"one\n1\n102.0\n", &[69, 81, 127], 81),
];

/// The same with the first key that is out of octave tuning: a value of -1, one of 16,384, and more.
const OUT: [(&[u8], &[u8], u8); 6] = [
    (b"one\n1\n200.007\n", &[68], 68),
    (b"one\n1\n199.994\n", &[70], 70),
    (b"one\n1\n200.007\n", &[70, 69, 68], 68),
    (b"one\n1\n102.0\n", &[69, 127], 127),
    (b"one\n1\n102.0\n", &[0, 12], 0),
    (b"one\n1\n102.0\n", &[9], 9),
];

#[test]
fn values_of_classes(rt: HostRuntime) -> Result<(), Fail> {
    // 6386.313714 cents
    assert!(rt; told(rt.alloc(), JUST, MIDDLE_C, &[64]) == Some(Ok(but(4, 0x37 * 128 + 0x1f))));
    for (scale, keys, class, value) in FITTING {
        assert!(rt; told(rt.alloc(), scale, A440, keys) == Some(Ok(but(class, value))));
    }
    for (scale, keys, key) in UNFIT {
        let unfit = Some(Err(OctaveFault::Unfit { key }));
        assert!(rt; told(rt.alloc(), scale, A440, keys) == unfit);
    }
    for (scale, keys, key) in OUT {
        let out = Some(Err(OctaveFault::Out { key }));
        assert!(rt; told(rt.alloc(), scale, A440, keys) == out);
    }
    Ok(())
}

#[test]
fn messages_of_octave_tuning(rt: HostRuntime) {
    let level: [u8; 32] = [
        0x7e, 0x7f, 0x08, 0x09, 0x00, 0x00, 0x01, 0x40, 0x00, 0x40, 0x00, 0x40, 0x00, 0x40, 0x00,
        0x40, 0x00, 0x40, 0x00, 0x40, 0x00, 0x40, 0x00, 0x40, 0x00, 0x40, 0x00, 0x40, 0x00, 0x40,
        0x00, 0xf7,
    ];
    assert!(rt; message(1, &[8192; 12]).as_slice() == level.as_slice());
    assert!(rt; read_octave(&level) == Some((1, [8192; 12])));

    // channels 7 and 8, and 14 to 16, of another device; a value that has both bytes
    let mut other = level;
    other[1] = 0x05;
    other[4] = 0x03;
    other[5] = 0x41;
    other[6] = 0x40;
    other[9] = 0x7f;
    other[10] = 0x01;
    assert!(rt; read_octave(&other) == Some((0b1110_0000_1100_0000, but(1, 16257))));

    assert!(rt; read_octave(&level[..31]).is_none());
    // a device, the two numbers of the message, each byte of channels, a value and the last byte
    let wrong: [(usize, u8); 9] = [
        (0, 0x7f),
        (1, 0x80),
        (2, 0x09),
        (3, 0x08),
        (4, 0x04),
        (5, 0x80),
        (6, 0x80),
        (30, 0x80),
        (31, 0x77),
    ];
    for (place, byte) in wrong {
        let mut bytes = level;
        if place < 32 {
            bytes[place] = byte;
        }
        assert!(rt; read_octave(&bytes).is_none());
    }
}
