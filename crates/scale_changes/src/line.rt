ghost use Rattle.std.specs.Prelude.{◌≡◌, ◌≤◌, IfOk, IfErr, IfSome, IfNone, Ok, Err, Some, None};
ghost use Rattle.std.specs.Option.{option_map};
ghost use Rattle.scala_lines.specs.Characters.{prefix, behind};
ghost use Rattle.scale_changes.specs.Names.{is_name_byte};
ghost use Rattle.scale_changes.specs.Reading.{name_in, name_behind, tick_of, change_of};

use crate::fault::ListKind;
use scala_lines::laws::prefixes;
use scala_lines::{after_blanks, split_digits, value_within};

fn is_name_byte(byte: u8) -> bool
    ensures { result ≡ is_name_byte byte }
{
    33 <= byte && byte <= 126
}

/// The bytes behind a name.
fn after_name(bytes: &[u8]) -> &[u8]
    ensures { result.now ≡ behind is_name_byte bytes.entry.now }
{
    let mut rest = bytes;
    'bytes: while let [byte, after @ ..] = rest {
        if !is_name_byte(*byte) {
            return rest;
        }
        rest = after;
    }
    rest
}

/// The bytes of the name in front.
fn name_bytes(bytes: &[u8]) -> &[u8]
    ensures { result.now ≡ prefix is_name_byte bytes.entry.now }
{
    prefixes();
    let rest = after_name(bytes);
    &bytes[..bytes.len() - rest.len()]
}

/// The name in front of a text, which blanks alone have to follow.
fn name_alone(text: &[u8]) -> Option<&str>
    ensures { option_map (λ name. name.now) result ≡ name_behind text.entry.now }
{
    prefixes();
    let name = name_bytes(text);
    if name.is_empty() || !after_blanks(after_name(text)).is_empty() {
        return None;
    }
    match str::from_utf8(name) {
        Ok(name) => Some(name),
        Err(_) => None,
    }
}

/// The name behind the digits of a line, from which a blank parts it.
fn name(bytes: &[u8]) -> Option<&str>
    ensures { option_map (λ name. name.now) result ≡ name_in bytes.entry.now }
{
    match bytes {
        [b' ', rest @ ..] | [b'\t', rest @ ..] => name_alone(after_blanks(rest)),
        _ => None,
    }
}

/// The tick that digits say, above the last one.
fn tick(digits: &[u8], last: u32) -> Result<u32, ListKind>
    ensures { result ≡ tick_of last digits.now }
{
    if digits.is_empty() {
        return Err(ListKind::BadTick);
    }
    match value_within(digits, 268_435_455) {
        Some(tick) if tick > 0 => {
            if tick <= last as u64 {
                return Err(ListKind::TickOrder);
            }
            Ok(tick as u32)
        }
        _ => Err(ListKind::BadTick),
    }
}

/// The tick and the name of a line behind one with the tick `last`, or the first kind that holds.
#[tactic(auto, unfolding(crate::specs::Reading::change_of))]
pub fn change(line: &[u8], last: u32) -> Result<(u32, &str), ListKind>
    ensures found { IfOk result (λ c. change_of last line.entry.now ≡ Ok (c.0, c.1.now)) }
    ensures fault { IfErr result (λ kind. change_of last line.entry.now ≡ Err kind) }
{
    let (digits, behind) = split_digits(after_blanks(line));
    match tick(digits, last) {
        Err(kind) => Err(kind),
        Ok(tick) => match name(behind) {
            Some(name) => Ok((tick, name)),
            None => Err(ListKind::BadName),
        },
    }
}
