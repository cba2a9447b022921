ghost use Rattle.std.specs.Prelude.{◌≡◌, ◌<◌, ◌^◌};
ghost use Rattle.std.specs.Option.{option_map};
ghost use Rattle.scala_lines.specs.Characters.{Are, is_digit, digits_of, after_digits};
ghost use Rattle.scl_text.specs.Pitch.{cents_form, ratio_form, alone_form, unsigned_form, form_of};
ghost use Rattle.scl_text.specs.Pitch.{ratio_entry, cents_entry, entry_of, pitch_of};
ghost use Rattle.scala_lines.specs.Numbers.{value};
ghost use Rattle.scl_text.specs.Forms.{view_form};

use crate::entry::Entry;
use crate::fault::SclKind;
use scala_lines::laws::prefixes;
use scala_lines::{after_blanks, billionths, split_digits, value_within};

/// What is written on a pitch line, digits as they stand there.
#[derive(Clone, Copy, Debug)]
pub enum Written<'a> {
    Cents {
        negative: bool,
        whole: &'a [u8],
        decimals: &'a [u8],
    },
    Ratio {
        negative: bool,
        num: &'a [u8],
        den: &'a [u8],
    },
    Alone {
        negative: bool,
        num: &'a [u8],
    },
}

/// The form at the start of a text without blanks and sign.
fn unsigned_form(negative: bool, text: &[u8]) -> Option<Written<'_>>
    ensures { option_map view_form result ≡ unsigned_form negative text.entry.now }
{
    let (digits, behind) = split_digits(text);
    match behind {
        [b'.', rest @ ..] => {
            let (decimals, _) = split_digits(rest);
            if digits.is_empty() && decimals.is_empty() {
                return None;
            }
            Some(Written::Cents {
                negative,
                whole: digits,
                decimals,
            })
        }
        [b'/', rest @ ..] => {
            let (den, _) = split_digits(rest);
            if digits.is_empty() || den.is_empty() {
                return None;
            }
            Some(Written::Ratio {
                negative,
                num: digits,
                den,
            })
        }
        _ => {
            if digits.is_empty() {
                return None;
            }
            Some(Written::Alone {
                negative,
                num: digits,
            })
        }
    }
}

/// The form at the start of a line behind its blanks.
#[tactic(auto, unfolding(crate::specs::Pitch::form_of))]
fn form(line: &[u8]) -> Option<Written<'_>>
    ensures { option_map view_form result ≡ form_of line.entry.now }
{
    let text = after_blanks(line);
    match text {
        [] => None,
        [b'-', rest @ ..] => unsigned_form(true, rest),
        _ => unsigned_form(false, text),
    }
}

/// The entry of a ratio without a sign.
fn ratio(num: &[u8], den: &[u8]) -> Result<Entry, SclKind>
    ensures { result ≡ ratio_entry (value num.now) (value den.now) }
{
    let greatest = i64::MAX as u64;
    let (Some(num), Some(den)) = (value_within(num, greatest), value_within(den, greatest)) else {
        return Err(SclKind::BigNumber);
    };
    if num == 0 || den == 0 {
        return Err(SclKind::ZeroRatio);
    }
    Ok(Entry::Ratio { num, den })
}

/// The entry of cents.
fn cents(negative: bool, whole: &[u8], decimals: &[u8]) -> Result<Entry, SclKind>
    requires { Are is_digit decimals.now }
    ensures { result ≡ cents_entry negative whole.now decimals.now }
{
    match value_within(whole, 1_000_000) {
        Some(whole) => {
            let nanocents = (whole * 1_000_000_000 + billionths(decimals)) as i64;
            Ok(Entry::Cents {
                nanocents: if negative { -nanocents } else { nanocents },
            })
        }
        None => Err(SclKind::BigNumber),
    }
}

/// The entry of a pitch line, or the kind of its fault.
#[tactic(auto, unfolding(crate::specs::Pitch::entry_of))]
pub fn pitch(line: &[u8]) -> Result<Entry, SclKind>
    ensures { result ≡ pitch_of line.now }
{
    prefixes();
    match form(line) {
        None => Err(SclKind::BadPitch),
        Some(
            Written::Cents {
                negative,
                whole,
                decimals,
            },
        ) => cents(negative, whole, decimals),
        Some(Written::Ratio { negative, num, den }) => {
            if negative {
                return Err(SclKind::NegativeRatio);
            }
            ratio(num, den)
        }
        Some(Written::Alone { negative, num }) => {
            if negative {
                return Err(SclKind::NegativeRatio);
            }
            ratio(num, b"1")
        }
    }
}
