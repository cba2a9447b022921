ghost use Rattle.std.specs.Prelude.{◌≡◌, ◌≢◌, ◌≤◌, ◌<◌, ◌≤ℤ◌, ◌^◌, ℤ, pos, neg_ℤ, true, None};
ghost use Rattle.std.specs.Prelude.{OnOk, IfOk, IfErr, IfSome};
ghost use Rattle.std.specs.Int.{int_div_euclid};
ghost use Rattle.std.specs.List.{AllByRecursion};
ghost use Rattle.key_pitch.specs.Aims.{table_of};
ghost use Rattle.octave_route.specs.Messages.{IsOctaveValue};
ghost use Rattle.octave_route.specs.Classes.{is_used, AreMapped, is_of_class, least_used, own_value, class_value};
ghost use Rattle.octave_route.specs.Classes.{is_value, FitsClass, FitBelow, IsUnfit, key_of, Refuses, AreClassValues};

use key_pitch::KeyTable;

/// Why keys can't be tuned by their classes: the own value of a key is outside 0 to 16,383, or it differs
/// by more than 1 from the value of its class.
#[derive(Clone, Copy, Debug, PartialEq, Eq)]
pub enum OctaveFault {
    Out { key: u8 },
    Unfit { key: u8 },
}

// Leaves a class at its equal-tempered pitch.
const LEVEL: i128 = 8192;

fn is_used(used: u128, key: u8) -> bool
    requires key { key ≤ 127 }
    ensures { result ≡ is_used used key }
{
    (used >> key) & 1 == 1
}

fn is_value(value: i128) -> bool
    ensures { result ≡ is_value value }
{
    0 <= value && value <= 16_383
}

// Grains in steps of 1/8192 semitone, rounded down.
fn steps(grains: i128) -> i128
    requires low { neg_ℤ (pos (2 ^ 91)) ≤ℤ grains }
    requires high { grains ≤ℤ pos (2 ^ 91) }
    ensures value { (z : ℤ) → grains ≡ z → result ≡ int_div_euclid z (pos 390625000) }
    ensures low { neg_ℤ (pos (2 ^ 90)) ≤ℤ result }
    ensures high { result ≤ℤ pos (2 ^ 90) }
{
    grains.div_euclid(390_625_000)
}

// The step nearest to the key's pitch.
fn own_value(table: &KeyTable, key: u8) -> i128
    requires key { key ≤ 127 }
    requires mapped { table_of table.now key ≢ None }
    ensures value { result ≡ own_value (table_of table.now) key }
    ensures low { neg_ℤ (pos (2 ^ 91)) ≤ℤ result }
    ensures high { result ≤ℤ pos (2 ^ 91) }
{
    let lo = table.pitch(key).unwrap().lo.0;
    LEVEL + steps(lo - key as i128 * 3_200_000_000_000 + 195_312_500)
}

fn is_of_class(used: u128, class: u8, key: u8) -> bool
    requires key { key ≤ 127 }
    ensures { result ≡ is_of_class used class key }
{
    key % 12 == class && is_used(used, key)
}

fn least_used(used: u128, class: u8) -> Option<u8>
    ensures value { result ≡ least_used used class }
    ensures key { IfSome result (λ key. key ≤ 127) }
    ensures used { IfSome result (λ key. is_used used key ≡ true) }
{
    for key in 0..128u8 {
        if is_of_class(used, class, key) {
            return Some(key);
        }
    }
    None
}

fn class_value(table: &KeyTable, used: u128, class: u8) -> i128
    requires mapped { AreMapped (table_of table.now) used }
    ensures value { result ≡ class_value (table_of table.now) used class }
    ensures said { FitBelow (table_of table.now) used 128 → is_value result ≡ true }
    ensures low { neg_ℤ (pos (2 ^ 91)) ≤ℤ result }
    ensures high { result ≤ℤ pos (2 ^ 91) }
{
    match least_used(used, class) {
        Some(key) => own_value(table, key),
        None => LEVEL,
    }
}

// Whether a key fits, if it is used, and why not.
fn check(table: &KeyTable, used: u128, key: u8) -> Result<(), OctaveFault>
    requires key { key ≤ 127 }
    requires mapped { AreMapped (table_of table.now) used }
    ensures fits { OnOk result (is_used used key ≡ true → FitsClass (table_of table.now) used key) }
    ensures used { IfErr result (λ fault. is_used used key ≡ true) }
    ensures key { IfErr result (λ fault. key_of fault ≡ key) }
    ensures cause { IfErr result (IsUnfit (table_of table.now) used) }
{
    if !is_used(used, key) {
        return Ok(());
    }
    let own = own_value(table, key);
    if !is_value(own) {
        return Err(OctaveFault::Out { key });
    }
    if (own - class_value(table, used, key % 12)).abs() > 1 {
        return Err(OctaveFault::Unfit { key });
    }
    Ok(())
}

/// The values of the twelve classes of keys, from C on, in steps of 1/8192 semitone, 8192 being the
/// equal-tempered pitch: for each class the own value of its least used key, which is the step nearest to
/// that key's pitch, and 8192 where none is used. Bit k of `used` says whether key k is used; each used
/// key has to be mapped. Refused for the first used key whose own value is outside 0 to 16,383, or
/// differs by more than 1 from its class's value.
pub fn classes(table: &KeyTable, used: u128) -> Result<[u16; 12], OctaveFault>
    requires mapped { AreMapped (table_of table.now) used }
    ensures values { IfOk result (AreClassValues (table_of table.now) used) }
    ensures fit { IfOk result (λ values. FitBelow (table_of table.now) used 128) }
    ensures range { IfOk result (AllByRecursion IsOctaveValue) }
    ensures cause { IfErr result (Refuses (table_of table.now) used) }
{
    for key in 0..128u8 {
        check(table, used, key)?;
    }
    let mut values = [0; 12];
    for class in 0..12u8 {
        values[class as usize] = class_value(table, used, class) as u16;
    }
    Ok(values)
}
