ghost use Rattle.std.specs.Prelude.{◌≡◌, ◌≤◌, ◌<◌, ◌^◌, ◌++◌, ◌∷◌, [], OnOk, codes, decimal};
ghost use Rattle.std.specs.Fmt.{signed_decimal};
ghost use Rattle.key_report.specs.Targets.{FitsThreeBytes};
ghost use Rattle.key_report.specs.Texts.{digit, unsigned_text, thousandths, range_text, error_text, error_line, hex_digit, spaced_hex, value_text, target_text, key_line};

use crate::keys::KeyError;
use crate::range::ErrorRange;
use crate::target::Target;
use itoa::Buffer;
use mt_base::Memory;

/// Appends the last of the decimal digits of a number.
fn push_digit(text: &mut Vec<u8>, number: u32) -> Result<(), Memory>
    ensures { OnOk result (text.new.items ≡ text.old.items ++ digit number ∷ []) }
{
    text.push(b'0' + (number % 10) as u8)?;
    Ok(())
}

/// Appends thousandths, as a number with three decimals.
fn push_unsigned(text: &mut Vec<u8>, number: u32) -> Result<(), Memory>
    ensures { OnOk result (text.new.items ≡ text.old.items ++ unsigned_text number) }
{
    text.extend_from_slice(Buffer::new().format(number / 1000).as_bytes())?;
    text.push(b'.')?;
    push_digit(text, number / 100)?;
    push_digit(text, number / 10)?;
    push_digit(text, number)
}

/// Appends thousandths, as a number with three decimals, and `-` before it where it is negative.
pub fn push_thousandths(text: &mut Vec<u8>, number: i32) -> Result<(), Memory>
    ensures { OnOk result (text.new.items ≡ text.old.items ++ thousandths number) }
{
    if number < 0 {
        text.push(b'-')?;
    }
    push_unsigned(text, number.unsigned_abs())
}

/// Appends `L to U`.
fn push_range(text: &mut Vec<u8>, error: ErrorRange) -> Result<(), Memory>
    ensures { OnOk result (text.new.items ≡ text.old.items ++ range_text error) }
{
    push_thousandths(text, error.least)?;
    text.extend_from_slice(b" to ")?;
    push_thousandths(text, error.greatest)
}

/// Appends `error L to U` and a line feed.
pub fn push_error(text: &mut Vec<u8>, error: ErrorRange) -> Result<(), Memory>
    ensures { OnOk result (text.new.items ≡ text.old.items ++ error_text error) }
{
    text.extend_from_slice(b"error ")?;
    push_range(text, error)?;
    text.push(b'\n')?;
    Ok(())
}

/// Appends the last line of a report: the error of the whole, or that there is none.
pub fn push_whole(text: &mut Vec<u8>, error: Option<ErrorRange>) -> Result<(), Memory>
    ensures { OnOk result (text.new.items ≡ text.old.items ++ error_line error) }
{
    match error {
        Some(error) => push_error(text, error),
        None => {
            text.extend_from_slice(b"error none\n")?;
            Ok(())
        }
    }
}

/// A digit of a hexadecimal number.
fn hex_digit(digit: u8) -> u8
    requires { digit ≤ 15 }
    ensures { result ≡ hex_digit digit }
{
    if digit < 10 {
        b'0' + digit
    } else {
        b'A' - 10 + digit
    }
}

/// Appends a blank and a byte.
fn push_hex(text: &mut Vec<u8>, byte: u8) -> Result<(), Memory>
    ensures { OnOk result (text.new.items ≡ text.old.items ++ spaced_hex byte) }
{
    text.push(b' ')?;
    text.push(hex_digit(byte / 16))?;
    text.push(hex_digit(byte % 16))?;
    Ok(())
}

/// Appends the three bytes that tell a device a value.
fn push_value(text: &mut Vec<u8>, value: u32) -> Result<(), Memory>
    requires { value < 2 ^ 21 }
    ensures { OnOk result (text.new.items ≡ text.old.items ++ value_text value) }
{
    push_hex(text, (value / 16384) as u8)?;
    push_hex(text, (value / 128 % 128) as u8)?;
    push_hex(text, (value % 128) as u8)
}

/// Appends a blank and a key, and the steps of a bend from there.
fn push_bend(text: &mut Vec<u8>, key: u8, steps: i32) -> Result<(), Memory>
    ensures { OnOk result (text.new.items
        ≡ text.old.items ++ codes " " ++ decimal key ++ codes " bend " ++ signed_decimal steps) }
{
    text.push(b' ')?;
    text.extend_from_slice(Buffer::new().format(key).as_bytes())?;
    text.extend_from_slice(b" bend ")?;
    text.extend_from_slice(Buffer::new().format(steps).as_bytes())?;
    Ok(())
}

/// Appends a target: a blank and its three bytes, or its key and the steps of its bend.
fn push_target(text: &mut Vec<u8>, target: Target) -> Result<(), Memory>
    requires { FitsThreeBytes target }
    ensures { OnOk result (text.new.items ≡ text.old.items ++ target_text target) }
{
    match target {
        Target::Value(value) => push_value(text, value),
        Target::Bend { key, steps } => push_bend(text, key, steps),
    }
}

/// Appends the line of a key, whose target a device can be told.
pub fn push_key(text: &mut Vec<u8>, told: &KeyError) -> Result<(), Memory>
    requires { FitsThreeBytes told.now.target }
    ensures { OnOk result (text.new.items ≡ text.old.items ++ key_line told.now) }
{
    text.extend_from_slice(b"key ")?;
    text.extend_from_slice(Buffer::new().format(told.key).as_bytes())?;
    text.extend_from_slice(b" to")?;
    push_target(text, told.target)?;
    text.push(b' ')?;
    push_error(text, told.error)
}
