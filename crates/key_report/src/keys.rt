ghost use Rattle.std.specs.Prelude.{◌≡◌, ◌≤◌, ◌++◌, IfOk, OnOk, ◌≤ℤ◌, ◌-ℤ◌, pos, [], Some, IfSome, fold};
ghost use Rattle.std.specs.List.{cons_option};
ghost use Rattle.key_pitch.specs.Aims.{table_of};
ghost use Rattle.key_pitch.specs.Views.{bounds_of};
ghost use Rattle.key_report.specs.Keys.{error_of, error_if, is_used, key_errors, used_error, whole_error, with_error};
ghost use Rattle.key_report.specs.Targets.{IsDevice, target_of, target_if, FitsThreeBytes};
ghost use Rattle.key_report.specs.Texts.{key_lines};

use crate::range::ErrorRange;
use crate::target::{Target, told_grains};
use crate::text::push_key;
use key_pitch::{Aim, Aims, KeyTable};
use mt_base::{Bracket, Memory};

/// A key in use, what a device is told of it, and by how much that is too high.
#[derive(Clone, Copy, Debug, PartialEq, Eq)]
pub struct KeyError {
    pub key: u8,
    pub target: Target,
    pub error: ErrorRange,
}

/// By how much the target that a device is told of a key is too high.
fn error_of(range: Option<u8>, key: u8, bracket: Bracket, target: Target) -> KeyError
    requires device { IsDevice range }
    requires target { target_of range (bounds_of bracket) ≡ Some target }
    requires order { bracket.lo.0 ≤ℤ bracket.hi.0 }
    requires narrow { (bracket.hi.0 -ℤ bracket.lo.0) ≤ℤ pos 32000000 }
    ensures { result ≡ error_of range key (bounds_of bracket) target }
{
    KeyError {
        key,
        target,
        error: ErrorRange::new(told_grains(range, target), bracket),
    }
}

/// What a device is told of a key for a note that begins at a tick: by tuning messages, or by bends at a
/// sensitivity of so many semitones. None where the key has no pitch or the device has none near it.
fn target<T: Aims>(table: &T, range: Option<u8>, key: u8, onset: u32) -> Option<Target>
    requires device { IsDevice range }
    requires key { key ≤ 127 }
    ensures { result ≡ target_if range (T.table table.now key onset) }
{
    let aim = match range {
        None => table.mts_aim(key, onset),
        Some(range) => table.bend_aim(key, range, onset),
    };
    match aim {
        Aim::Mts { value } => Some(Target::Value(value)),
        Aim::Bend { key, steps } => Some(Target::Bend { key, steps }),
        Aim::Unmapped | Aim::OutOfDevice => None,
    }
}

/// What a device is told of a key for a note that begins at a tick, and by how much that is too high: by
/// tuning messages, or by bends at a sensitivity of so many semitones. None where the key has no pitch or
/// the device has none near it.
pub fn key_error<T: Aims>(table: &T, range: Option<u8>, key: u8, onset: u32) -> Option<KeyError>
    requires device { IsDevice range }
    requires key { key ≤ 127 }
    ensures error { result ≡ error_if range key (T.table table.now key onset) }
    ensures fits { IfSome result (λ e. FitsThreeBytes e.target) }
{
    let bracket = table.pitch(key, onset)?;
    let target = target(table, range, key, onset)?;
    Some(error_of(range, key, bracket, target))
}

/// The same of a key that is in a set.
fn used_error(table: &KeyTable, range: Option<u8>, keys: u128, key: u8) -> Option<KeyError>
    requires device { IsDevice range }
    requires key { key ≤ 127 }
    ensures error { result ≡ used_error range (table_of table.now) (is_used keys) key }
    ensures fits { IfSome result (λ e. FitsThreeBytes e.target) }
{
    if keys >> key & 1 == 1 {
        key_error(table, range, key, 0)
    } else {
        None
    }
}

/// The error of the whole, with that of one more key.
pub fn with_error(whole: Option<ErrorRange>, error: &KeyError) -> ErrorRange
    ensures { Some result ≡ with_error whole error.now }
{
    match whole {
        Some(whole) => whole.joined(error.error),
        None => error.error,
    }
}

/// Appends the line of a key, if there is any.
fn push_if(
    out: &mut Vec<u8>,
    whole: Option<ErrorRange>,
    error: Option<KeyError>,
) -> Result<Option<ErrorRange>, Memory>
    requires { IfSome error (λ e. FitsThreeBytes e.target) }
    ensures text { OnOk result (out.new.items ≡ out.old.items ++ key_lines (cons_option error [])) }
    ensures whole { IfOk result (λ joined. joined ≡ fold with_error whole (cons_option error [])) }
{
    let Some(error) = error else {
        return Ok(whole);
    };
    push_key(out, &error)?;
    Ok(Some(with_error(whole, &error)))
}

/// Appends a line for each key of a set that has a target: the key, what a device is told of it, and by
/// how much that is too high. The device takes tuning messages, or bends at a sensitivity of 1 to 96
/// semitones. Answers the error of the whole, if there is any key.
pub fn push_keys(
    table: &KeyTable,
    range: Option<u8>,
    keys: u128,
    out: &mut Vec<u8>,
) -> Result<Option<ErrorRange>, Memory>
    requires { IsDevice range }
    ensures text { OnOk result (out.new.items
        ≡ out.old.items ++ key_lines (key_errors range (table_of table.now) (is_used keys))) }
    ensures whole { IfOk result
        (λ whole. whole ≡ whole_error (key_errors range (table_of table.now) (is_used keys))) }
{
    let mut whole = None;
    for key in 0..128u8 {
        let error = used_error(table, range, keys, key);
        whole = push_if(out, whole, error)?;
    }
    Ok(whole)
}
