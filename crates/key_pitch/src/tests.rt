use super::*;
use kbm_text::{Mapping, read_kbm};
use mt_base::{Bracket, Grain};
use scl_text::read_scl;
use std::alloc::Global;
use std::test::Fail;

mod quarter_comma;

use quarter_comma::{AT_415, AT_440, LOW_PITCH, QUARTER_COMMA};

/// A key, its value for a tuning message, and the key and the steps of a bend at a sensitivity of 1, 2, 12 and
/// 96 semitones; none where it is out of the device. All rows are made by `python3 tools/key_targets.py SCALE
/// MAPPING --keys KEY ..`, where the files hold the texts that stand with the rows.
pub type Row = (u8, Option<u32>, Option<(u8, i32, i32, i32, i32)>);

const JUST: &[u8] = b"just\n12\n16/15\n9/8\n6/5\n5/4\n4/3\n45/32\n3/2\n8/5\n5/3\n9/5\n15/8\n2/1\n";

const MIDDLE_C: &[u8] = b"0\n0\n127\n60\n60\n261.6255653\n0\n";

const A440: &[u8] = b"0\n0\n127\n69\n69\n440.0\n0\n";

/// The table of a scale text and a mapping text; none where a text isn't read.
fn table(alloc: Global, scale: &[u8], mapping: &[u8]) -> Option<Result<KeyTable, TuneFault>> {
    if scale.len() > 262_144 || mapping.len() > 262_144 {
        return None;
    }
    let scale = read_scl(alloc, scale).ok()?;
    let mapping = read_kbm(alloc, mapping).ok()?;
    Some(KeyTable::new(&scale, &mapping))
}

/// What is told of a key, by a tuning message and by a bend of 12 semitones.
fn told(alloc: Global, scale: &[u8], mapping: &[u8], key: u8) -> Option<(Aim, Aim)> {
    if key > 127 {
        return None;
    }
    let table = table(alloc, scale, mapping)?.ok()?;
    Some((table.mts_aim(key), table.bend_aim(key, 12)))
}

/// Whether the bounds of all keys' pitches stand around a pitch in grains, rounded down and up, and are no
/// further apart than so many. All rows are made in the same way, with `--grains`.
fn are_around(
    alloc: Global,
    scale: &[u8],
    mapping: &[u8],
    rows: &[(u8, i128, i128, i128)],
) -> bool {
    let Some(Ok(table)) = table(alloc, scale, mapping) else {
        return false;
    };
    for &(key, low, high, width) in rows {
        if key > 127 {
            return false;
        }
        let Some(Bracket { lo, hi }) = table.pitch(key) else {
            return false;
        };
        if low < lo.0 || hi.0 < high || width < hi.0 - lo.0 {
            return false;
        }
    }
    true
}

/// Whether a key is told what its row says.
fn is_told(table: &KeyTable, row: &Row) -> bool {
    let (key, value, bend) = *row;
    if key > 127 {
        return false;
    }
    let value = match value {
        Some(value) => Aim::Mts { value },
        None => Aim::OutOfDevice,
    };
    let (one, two, twelve, most) = match bend {
        Some((key, one, two, twelve, most)) => (
            Aim::Bend { key, steps: one },
            Aim::Bend { key, steps: two },
            Aim::Bend { key, steps: twelve },
            Aim::Bend { key, steps: most },
        ),
        None => (
            Aim::OutOfDevice,
            Aim::OutOfDevice,
            Aim::OutOfDevice,
            Aim::OutOfDevice,
        ),
    };
    table.mts_aim(key) == value
        && table.bend_aim(key, 1) == one
        && table.bend_aim(key, 2) == two
        && table.bend_aim(key, 12) == twelve
        && table.bend_aim(key, 96) == most
}

/// Whether all keys are told what their rows say.
fn are_told(alloc: Global, scale: &[u8], mapping: &[u8], rows: &[Row]) -> bool {
    let Some(Ok(table)) = table(alloc, scale, mapping) else {
        return false;
    };
    for row in rows {
        if !is_told(&table, row) {
            return false;
        }
    }
    true
}

/// Why there is no table.
fn refused(alloc: Global, scale: &[u8], mapping: &[u8]) -> Option<TuneFault> {
    table(alloc, scale, mapping)?.err()
}

#[test]
fn tells_of_keys(rt: HostRuntime) -> Result<(), Fail> {
    let out = Some((Aim::OutOfDevice, Aim::OutOfDevice));
    // a just third above middle C
    let third = (
        Aim::Mts {
            value: 0x3f * 16384 + 0x6e * 128 + 0x3e,
        },
        Aim::Bend {
            key: 64,
            steps: -93,
        },
    );
    assert!(rt; told(rt.alloc(), JUST, MIDDLE_C, 64) == Some(third));
    // 6,950 cents are as near to key 69 as to key 70
    let tie = (
        Aim::Mts {
            value: 0x45 * 16384 + 0x40 * 128,
        },
        Aim::Bend {
            key: 70,
            steps: -341,
        },
    );
    assert!(rt; told(rt.alloc(), b"two\n2\n50.0\n1200.0\n", A440, 70) == Some(tie));
    // an octave a key: 8,100 cents and 900 are in the device, -300 and 12,900 are not
    let octaves = b"octaves\n1\n2/1\n";
    let low = (
        Aim::Mts { value: 9 * 16384 },
        Aim::Bend { key: 9, steps: 0 },
    );
    assert!(rt; told(rt.alloc(), octaves, A440, 64) == Some(low));
    assert!(rt; told(rt.alloc(), octaves, A440, 63) == out);
    assert!(rt; told(rt.alloc(), octaves, A440, 74) == out);
    Ok(())
}

#[test]
fn bounds_stand_around_the_pitch(rt: HostRuntime) -> Result<(), Fail> {
    // key 64 is at 6386.313714 cents, to six decimals
    let just = [
        (0, -127, -126, 108_000),
        (60, 191_999_999_999_873, 191_999_999_999_874, 18_000),
        (64, 204_362_038_843_547, 204_362_038_843_548, 36_000),
        (127, 406_462_560_027_565, 406_462_560_027_566, 126_000),
    ];
    assert!(rt; are_around(rt.alloc(), JUST, MIDDLE_C, &just));
    // 6,950 cents, which no ratio goes into
    let tie = [(70, 222_400_000_000_000, 222_400_000_000_000, 0)];
    assert!(rt; are_around(rt.alloc(), b"two\n2\n50.0\n1200.0\n", A440, &tie));
    Ok(())
}

#[test]
fn tells_all_keys_of_a_quarter_comma_scale(rt: HostRuntime) -> Result<(), Fail> {
    assert!(rt; are_told(rt.alloc(), QUARTER_COMMA, A440, &AT_440));
    assert!(rt; are_told(rt.alloc(), QUARTER_COMMA, LOW_PITCH, &AT_415));
    Ok(())
}

#[test]
fn tells_up_to_the_ends_of_the_device(rt: HostRuntime) -> Result<(), Fail> {
    // half a step and half a key beyond the last ones, less a billionth of a cent and no less
    let ends =
        b"ends\n9\n5899.990844726\n5899.990844727\n-6900.003051757\n-6900.003051758\n5849.999999999\n5850.0\n-6950.0\n-6950.000000001\n1200.0\n";
    let rows = [
        (70, Some(2_097_150), None),
        (71, None, None),
        (72, Some(0), Some((0, 0, 0, 0, 0))),
        (73, None, Some((0, 0, 0, 0, 0))),
        (74, Some(2_088_960), Some((127, 4096, 2048, 341, 43))),
        (75, Some(2_088_960), None),
        (76, None, Some((0, -4096, -2048, -341, -43))),
        (77, None, None),
    ];
    assert!(rt; are_told(rt.alloc(), ends, A440, &rows));
    // a whole tone a key
    let tones = [
        (35, None, Some((0, -2698, -1349, -225, -28))),
        (36, Some(28_012), Some((2, -2378, -1189, -198, -25))),
        (97, Some(2_065_937), Some((126, 777, 388, 65, 8))),
        (98, None, None),
    ];
    assert!(rt; are_told(rt.alloc(), b"tone\n1\n9/8\n", A440, &tones));
    Ok(())
}

#[test]
fn tells_of_scales_of_all_kinds(rt: HostRuntime) -> Result<(), Fail> {
    // periods below 0
    let falling = [
        (52, None, None),
        (53, Some(2_050_562), Some((125, 1281, 641, 107, 13))),
        (67, Some(1_245_504), Some((76, 160, 80, 13, 2))),
        (68, Some(1_212_096), Some((74, -160, -80, -13, -2))),
        (70, Some(1_097_087), Some((67, -320, -160, -27, -3))),
        (71, Some(1_015_488), Some((62, -160, -80, -13, -2))),
        (88, Some(62_013), Some((4, -1762, -881, -147, -18))),
        (89, None, None),
    ];
    assert!(rt; are_told(rt.alloc(), b"falling\n2\n8/9\n-701.955\n", A440, &falling));
    // steps that stay or fall
    let steps = [
        (65, Some(1_032_192), Some((63, 0, 0, 0, 0))),
        (66, Some(1_032_192), Some((63, 0, 0, 0, 0))),
        (67, Some(1_023_959), Some((62, 4076, 2038, 340, 42))),
        (70, Some(1_130_496), Some((69, 0, 0, 0, 0))),
        (71, Some(1_122_263), Some((68, 4076, 2038, 340, 42))),
        (72, Some(1_130_496), Some((69, 0, 0, 0, 0))),
        (73, Some(1_228_800), Some((75, 0, 0, 0, 0))),
    ];
    assert!(rt;
        are_told(
            rt.alloc(),
            b"steps\n4\n0.0\n-50.25\n1/1\n600.0\n",
            A440,
            &steps
        )
    );
    Ok(())
}

#[test]
fn tells_of_mappings_of_all_kinds(rt: HostRuntime) -> Result<(), Fail> {
    // a reference above 440 hertz: the last key is out of the device
    let high_pitch = b"0\n0\n127\n60\n69\n466.163761518\n0\n";
    let high = [
        (0, Some(18_066), Some((1, 841, 420, 70, 9))),
        (69, Some(1_146_880), Some((70, 0, 0, 0, 0))),
        (126, Some(2_079_086), Some((127, -841, -420, -70, -9))),
        (127, None, None),
    ];
    assert!(rt; are_told(rt.alloc(), QUARTER_COMMA, high_pitch, &high));
    // Keys 10 to 100 alone, a step twice and a key left out; the map is repeated five steps higher, and not twelve.
    let repeating = b"4\n10\n100\n60\n62\n300.0\n5\n0\n2\n2\nx\n";
    let repeated = [
        (7, Some(114_688), Some((7, 0, 0, 0, 0))),
        (9, Some(147_456), Some((9, 0, 0, 0, 0))),
        (10, None, None),
        (12, Some(448), Some((0, 224, 112, 19, 2))),
        (57, Some(939_381), Some((57, 2747, 1373, 229, 29))),
        (58, Some(939_381), Some((57, 2747, 1373, 229, 29))),
        (60, Some(990_215), Some((60, 3588, 1794, 299, 37))),
        (61, Some(1_021_862), Some((62, 3027, 1514, 252, 32))),
        (62, Some(1_021_862), Some((62, 3027, 1514, 252, 32))),
        (64, Some(1_072_696), Some((65, 3868, 1934, 322, 40))),
        (100, Some(1_815_021), Some((111, -1801, -901, -150, -19))),
        (101, Some(1_654_784), Some((101, 0, 0, 0, 0))),
        (103, Some(1_687_552), Some((103, 0, 0, 0, 0))),
    ];
    assert!(rt; are_told(rt.alloc(), QUARTER_COMMA, repeating, &repeated));
    let left_out = Some((Aim::Unmapped, Aim::Unmapped));
    assert!(rt; told(rt.alloc(), QUARTER_COMMA, repeating, 63) == left_out);
    Ok(())
}

/// What tables tell of a key for a note that begins at a tick.
fn told_at<T: Aims>(tables: &T, key: u8, tick: u32) -> Option<(Option<Bracket>, Aim, Aim)> {
    if key > 127 {
        return None;
    }
    let pitch = tables.pitch(key, tick);
    Some((
        pitch,
        tables.mts_aim(key, tick),
        tables.bend_aim(key, 12, tick),
    ))
}

/// What three tables tell of key 70 for a note that begins at a tick, the second from 480 on and the third from 960.
fn told_by_tick(alloc: Global, tick: u32) -> Option<(Option<Bracket>, Aim, Aim)> {
    let first = table(alloc, b"semitones\n1\n100.0\n", A440)?.ok()?;
    let second = table(alloc, b"wider\n1\n110.0\n", A440)?.ok()?;
    let third = table(alloc, b"octaves\n1\n2/1\n", A440)?.ok()?;
    let entries = [(0, first), (480, second), (960, third)];
    told_at(&TablesByTick::new(&entries), 70, tick)
}

/// The same of one table, which serves every tick: by itself, and behind a reference.
fn told_by_one(alloc: Global, tick: u32) -> Option<[Option<(Option<Bracket>, Aim, Aim)>; 2]> {
    let table = table(alloc, b"wider\n1\n110.0\n", A440)?.ok()?;
    Some([told_at(&table, 70, tick), told_at(&&table, 70, tick)])
}

/// A pitch of so many thousandths of a cent, and what is told of it.
fn exactly(
    millicents: u32,
    value: u32,
    key: u8,
    steps: i32,
) -> Option<(Option<Bracket>, Aim, Aim)> {
    let end = Grain(millicents as i128 * 32_000_000);
    let pitch = Bracket { lo: end, hi: end };
    Some((Some(pitch), Aim::Mts { value }, Aim::Bend { key, steps }))
}

#[test]
fn tells_by_the_last_table_that_has_begun(rt: HostRuntime) -> Result<(), Fail> {
    let plain = exactly(7_000_000, 1_146_880, 70, 0);
    let wider = exactly(7_010_000, 1_148_518, 70, 68);
    let octave = exactly(8_100_000, 1_327_104, 81, 0);
    for (tick, wanted) in [
        (0, plain),
        (479, plain),
        (480, wider),
        (481, wider),
        (959, wider),
        (960, octave),
        (268_435_455, octave),
    ] {
        assert!(rt; told_by_tick(rt.alloc(), tick) == wanted);
    }
    assert!(rt; told_by_one(rt.alloc(), 960) == Some([wider, wider]));
    Ok(())
}

#[test]
fn refuses_what_has_no_table(rt: HostRuntime) -> Result<(), Fail> {
    let gapped = b"12\n0\n127\n60\n61\n440.0\n12\n0\nx\n2\n3\n4\n5\n6\n7\n8\n9\n10\n11\n";
    let unmapped = TuneFault::ReferenceUnmapped { key: 61 };
    assert!(rt; refused(rt.alloc(), JUST, gapped) == Some(unmapped));
    // a hundred commas a key: key 0 is 6,000 of them below the middle key
    let far = b"1\n0\n127\n60\n60\n261.6255653\n100\n0\n";
    let many = TuneFault::TooManyPeriods { key: 0 };
    assert!(rt; refused(rt.alloc(), b"comma\n1\n81/80\n", far) == Some(many));
    Ok(())
}
