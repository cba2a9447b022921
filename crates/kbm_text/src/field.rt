ghost use Rattle.std.specs.Prelude.{◌≡◌, ◌<◌, ◌≤◌, ◌^◌, IfOk};
ghost use Rattle.kbm_text.specs.Field.{number_in, frequency_of, decimals_of, entry_of};
ghost use Rattle.scala_lines.specs.Characters.{Are, is_digit};

use crate::fault::KbmKind;
use scala_lines::{after_blanks, billionths, split_digits, value_within};

/// The number behind the blanks of a line, or the kind of its fault.
#[tactic(auto, unfolding(crate::specs::Field::number_in))]
pub fn number(line: &[u8], out: KbmKind, low: u32, high: u32) -> Result<u32, KbmKind>
    ensures exact { result ≡ number_in out low high line.now }
    ensures low { IfOk result (λ n. low ≤ n) }
    ensures high { IfOk result (λ n. n ≤ high) }
{
    let (digits, _) = split_digits(after_blanks(line));
    if digits.is_empty() {
        return Err(KbmKind::BadNumber);
    }
    match value_within(digits, high as u64) {
        Some(number) if number >= low as u64 => Ok(number as u32),
        _ => Err(out),
    }
}

/// The decimals behind a period, or none.
fn decimals(text: &[u8]) -> &[u8]
    ensures is { result.now ≡ decimals_of text.entry.now }
    ensures digits { Are is_digit result.now }
{
    match text {
        [b'.', rest @ ..] => {
            let (decimals, _) = split_digits(rest);
            decimals
        }
        _ => &text[text.len()..],
    }
}

/// The frequency behind the blanks of a line, in billionths of a hertz, or the kind of its fault.
#[tactic(auto, unfolding(crate::specs::Field::frequency_of))]
pub fn frequency(line: &[u8]) -> Result<u64, KbmKind>
    ensures exact { result ≡ frequency_of line.now }
    ensures low { IfOk result (λ n. 1 ≤ n) }
    ensures high { IfOk result (λ n. n ≤ 1000000000000000) }
{
    let (whole, behind) = split_digits(after_blanks(line));
    let decimals = decimals(behind);
    if whole.is_empty() && decimals.is_empty() {
        return Err(KbmKind::BadFrequency);
    }
    let Some(whole) = value_within(whole, 1_000_000) else {
        return Err(KbmKind::BadFrequency);
    };
    let nanohertz = whole * 1_000_000_000 + billionths(decimals);
    if nanohertz == 0 || nanohertz > 1_000_000_000_000_000 {
        return Err(KbmKind::BadFrequency);
    }
    Ok(nanohertz)
}

/// The entry behind the blanks of a line, or the kind of its fault.
#[tactic(auto, unfolding(crate::specs::Field::entry_of))]
pub fn entry(line: &[u8]) -> Result<Option<u16>, KbmKind>
    ensures { result ≡ entry_of line.now }
{
    let text = after_blanks(line);
    match text {
        [b'x', ..] | [b'X', ..] => Ok(None),
        [b'0'..=b'9', ..] => {
            let (digits, _) = split_digits(text);
            match value_within(digits, 16_383) {
                Some(degree) => Ok(Some(degree as u16)),
                None => Err(KbmKind::DegreeRange),
            }
        }
        _ => Err(KbmKind::BadEntry),
    }
}
