use crate::{ErrorRange, push_error, push_keys, push_thousandths, push_whole};
use kbm_text::Mapping;
use key_pitch::KeyTable;
use mt_base::{Bracket, Grain};
use scl_text::read_scl;
use std::alloc::Global;
use std::test::Fail;

#[test]
fn thousandths_are_printed(rt: HostRuntime) -> Result<(), Fail> {
    let rows: [(i32, &[u8]); 7] = [
        (0, b"0.000"),
        (5, b"0.005"),
        (-5, b"-0.005"),
        (1000, b"1.000"),
        (-12_050, b"-12.050"),
        (i32::MAX, b"2147483.647"),
        (i32::MIN, b"-2147483.648"),
    ];
    for (number, wanted) in rows {
        let mut text = Vec::new(rt.alloc());
        push_thousandths(&mut text, number)?;
        assert!(rt; text.as_slice() == wanted);
    }
    Ok(())
}

#[test]
fn ends_are_rounded_outward(rt: HostRuntime) -> Result<(), Fail> {
    // key 69, whose pitch is known up to three grains
    let bracket = Bracket {
        lo: Grain(220_799_999_999_999),
        hi: Grain(220_800_000_000_002),
    };
    let error = ErrorRange::new(220_800_000_000_000, bracket);
    let mut text = Vec::new(rt.alloc());
    push_error(&mut text, error)?;
    assert!(rt; text.as_slice() == b"error -0.001 to 0.001\n".as_slice());
    let other = ErrorRange {
        least: 0,
        greatest: 2,
    };
    let wanted = ErrorRange {
        least: -1,
        greatest: 2,
    };
    assert!(rt; error.joined(other) == wanted);
    Ok(())
}

const EQUAL: &[u8] =
    b"equal\n12\n100.0\n200.0\n300.0\n400.0\n500.0\n600.0\n700.0\n800.0\n900.0\n1000.0\n1100.0\n1200.0\n";

const JUST: &[u8] = b"just\n12\n16/15\n9/8\n6/5\n5/4\n4/3\n45/32\n3/2\n8/5\n5/3\n9/5\n15/8\n2/1\n";

const LOW: &[u8] =
    b"low\n12\n100.0\n200.0\n270.0\n400.0\n500.0\n600.0\n700.0\n800.0\n900.0\n1000.0\n1100.0\n1200.0\n";

const TWO: &[u8] = b"two\n2\n50.0\n1200.0\n";

const OCTAVES: &[u8] = b"octaves\n1\n2/1\n";

/// What is said of a set of keys, with the error of the whole. None where the scale isn't read, or the
/// sensitivity isn't one of a bend.
fn said(
    alloc: Global,
    scale: &[u8],
    mapping: &Mapping,
    range: Option<u8>,
    keys: u128,
) -> Option<Vec<u8>> {
    if scale.len() > 262_144 {
        return None;
    }
    if let Some(range) = range {
        if range < 1 || range > 96 {
            return None;
        }
    }
    let scale = read_scl(alloc, scale).ok()?;
    let table = KeyTable::new(&scale, mapping).ok()?;
    let mut text = Vec::new(alloc);
    let whole = push_keys(&table, range, keys, &mut text).ok()?;
    push_whole(&mut text, whole).ok()?;
    Some(text)
}

/// Whether this is said.
fn is_said(
    alloc: Global,
    scale: &[u8],
    mapping: &Mapping,
    range: Option<u8>,
    keys: u128,
    wanted: &[u8],
) -> bool {
    match said(alloc, scale, mapping, range, keys) {
        Some(text) => text.as_slice() == wanted,
        None => false,
    }
}

#[test]
fn values_are_told(rt: HostRuntime) -> Result<(), Fail> {
    let a440 = Mapping::a440(rt.alloc());
    let standard = Mapping::standard(rt.alloc());
    // a just third is at 6386.313714 cents, a just fifth at 6701.955; 6,950 cents are as near to key 69 as to
    // key 70; where an octave is a key, the device has no pitch near key 63
    let exact: &[u8] = b"key 69 to 45 00 00 error 0.000 to 0.000\nerror 0.000 to 0.000\n";
    let third: &[u8] = b"key 64 to 3F 6E 3E error 0.002 to 0.003\nerror 0.002 to 0.003\n";
    let both: &[u8] =
        b"key 64 to 3F 6E 3E error 0.002 to 0.003\nkey 67 to 43 02 40 error -0.002 to -0.001\nerror -0.002 to 0.003\n";
    let tie: &[u8] = b"key 70 to 45 40 00 error 0.000 to 0.000\nerror 0.000 to 0.000\n";
    let none: &[u8] = b"error none\n";
    let rows: [(&[u8], &Mapping, u128, &[u8]); 6] = [
        (EQUAL, &a440, 1 << 69, exact),
        (JUST, &standard, 1 << 64, third),
        (JUST, &standard, 1 << 67 | 1 << 64, both),
        (TWO, &a440, 1 << 70, tie),
        (OCTAVES, &a440, 1 << 63, none),
        (EQUAL, &a440, 0, none),
    ];
    for (scale, mapping, keys, wanted) in rows {
        assert!(rt; is_said(rt.alloc(), scale, mapping, None, keys, wanted));
    }
    Ok(())
}

#[test]
fn bends_are_told(rt: HostRuntime) -> Result<(), Fail> {
    let a440 = Mapping::a440(rt.alloc());
    let standard = Mapping::standard(rt.alloc());
    // a step is 300/2048 cents at 12 semitones, so 93 steps are 13.623047 cents, and 1200/2048 cents at 48, so
    // 23 are 13.476563; a tie goes to the higher key; key 0 may be bent to below its own pitch
    let exact: &[u8] = b"key 69 to 69 bend 0 error 0.000 to 0.000\nerror 0.000 to 0.000\n";
    let third: &[u8] = b"key 64 to 64 bend -93 error 0.063 to 0.064\nerror 0.063 to 0.064\n";
    let wide: &[u8] = b"key 64 to 64 bend -23 error 0.209 to 0.210\nerror 0.209 to 0.210\n";
    let both: &[u8] =
        b"key 64 to 64 bend -93 error 0.063 to 0.064\nkey 67 to 67 bend 13 error -0.051 to -0.050\nerror -0.051 to 0.064\n";
    let tie: &[u8] = b"key 70 to 70 bend -341 error 0.048 to 0.049\nerror 0.048 to 0.049\n";
    let low: &[u8] = b"key 0 to 0 bend -205 error -0.030 to -0.029\nerror -0.030 to -0.029\n";
    let none: &[u8] = b"error none\n";
    let rows: [(&[u8], &Mapping, u8, u128, &[u8]); 7] = [
        (EQUAL, &a440, 12, 1 << 69, exact),
        (JUST, &standard, 12, 1 << 64, third),
        (JUST, &standard, 48, 1 << 64, wide),
        (JUST, &standard, 12, 1 << 67 | 1 << 64, both),
        (TWO, &a440, 12, 1 << 70, tie),
        (LOW, &a440, 12, 1, low),
        (OCTAVES, &a440, 12, 1 << 63, none),
    ];
    for (scale, mapping, range, keys, wanted) in rows {
        assert!(rt; is_said(rt.alloc(), scale, mapping, Some(range), keys, wanted));
    }
    Ok(())
}
