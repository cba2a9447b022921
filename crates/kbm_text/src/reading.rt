ghost use Rattle.std.specs.Prelude.{◌≡◌, ◌≤◌, ◌<◌, ◌∷◌, [], length, List, ℕ};
ghost use Rattle.std.specs.Prelude.{IfOk, IfErr, IfSome, IfNone};
ghost use Rattle.scala_lines.specs.Lines.{lines_of, entry_lines};
ghost use Rattle.scala_lines.specs.Remaining.{view, remaining, missing};
ghost use Rattle.kbm_text.specs.Field.{number_in, frequency_of};
ghost use Rattle.kbm_text.specs.Reading.{Keys, field_at, keys_at, entries_at, map_at, map_of};
ghost use Rattle.scala_lines.specs.Reading.{Gives, GivesBefore, Answers, AnswersFault, IsFaultOf};
ghost use Rattle.kbm_text.specs.Answers.{seen};
ghost use Rattle.kbm_text.specs.Spelling.{MapText, MapFault};
ghost use Rattle.kbm_text.specs.declared.fault.KbmKind.{KbmKind};
ghost use Rattle.kbm_text.specs.Map.{KeyMap};
ghost use Rattle.kbm_text.specs.KeyFields.{view_keys};
ghost use Rattle.kbm_text.specs.declared.fault.KbmFault.TheVariants as faults;
ghost use Rattle.kbm_text.specs.declared.fault.KbmKind.TheVariants.{MissingField, SizeRange, KeyRange, DegreeRange};

use crate::fault::{KbmFault, KbmKind};
use crate::field::{entry, frequency, number};
use crate::mapping::Mapping;
use scala_lines::laws::{numbers, prefixes};
use scala_lines::{Line, Lines, TEXT_LIMIT};
use std::alloc::Global;

/// The next line that isn't a comment, for a field.
fn next_line<'a>(lines: &mut Lines<'a>) -> Result<Line<'a>, KbmFault>
    ensures line { IfOk result (λ line. remaining lines.old ≡ view line ∷ remaining lines.new) }
    ensures none { IfErr result (λ e. remaining lines.old ≡ []) }
    ensures fault { IfErr result (λ e. e ≡ faults.At (missing lines.old) MissingField) }
    ensures missing { missing lines.new ≡ missing lines.old }
{
    lines.next().map_err(|line| KbmFault::At {
        line,
        kind: KbmKind::MissingField,
    })
}

/// A field that is a number in a range.
#[tactic(auto, unfolding(crate::specs::Reading::field_at))]
fn number_field(lines: &mut Lines<'_>, out: KbmKind, low: u32, high: u32) -> Result<u32, KbmFault>
    ensures gives { GivesBefore seen (λ n. n) result (remaining lines.new)
        (field_at (missing lines.old) (number_in out low high) (remaining lines.old)) }
    ensures low { IfOk result (λ n. low ≤ n) }
    ensures high { IfOk result (λ n. n ≤ high) }
    ensures missing { missing lines.new ≡ missing lines.old }
{
    let line = next_line(lines)?;
    number(line.bytes, out, low, high).map_err(|kind| KbmFault::At {
        line: line.number,
        kind,
    })
}

/// A key, at least the given one.
fn key_field(lines: &mut Lines<'_>, low: u8) -> Result<u8, KbmFault>
    ensures gives { GivesBefore seen (λ n. n) result (remaining lines.new)
        (field_at (missing lines.old) (number_in KeyRange low 127) (remaining lines.old)) }
    ensures low { IfOk result (λ n. low ≤ n) }
    ensures high { IfOk result (λ n. n ≤ 127) }
    ensures missing { missing lines.new ≡ missing lines.old }
{
    let key = number_field(lines, KbmKind::KeyRange, low as u32, 127)?;
    Ok(key as u8)
}

/// The reference frequency, in billionths of a hertz.
#[tactic(auto, unfolding(crate::specs::Reading::field_at))]
fn frequency_field(lines: &mut Lines<'_>) -> Result<u64, KbmFault>
    ensures gives { GivesBefore seen (λ n. n) result (remaining lines.new)
        (field_at (missing lines.old) frequency_of (remaining lines.old)) }
    ensures low { IfOk result (λ n. 1 ≤ n) }
    ensures high { IfOk result (λ n. n ≤ 1000000000000000) }
    ensures missing { missing lines.new ≡ missing lines.old }
{
    let line = next_line(lines)?;
    frequency(line.bytes).map_err(|kind| KbmFault::At {
        line: line.number,
        kind,
    })
}

/// The four keys of a mapping.
#[derive(Clone, Copy, Debug)]
struct KeyFields {
    first: u8,
    last: u8,
    middle: u8,
    reference: u8,
}

#[tactic(auto, unfolding(crate::specs::Reading::keys_at))]
fn keys(lines: &mut Lines<'_>) -> Result<KeyFields, KbmFault>
    ensures gives { GivesBefore seen view_keys result (remaining lines.new)
        (keys_at (missing lines.old) (remaining lines.old)) }
    ensures in_order { IfOk result (λ k. k.first ≤ k.last) }
    ensures last { IfOk result (λ k. k.last ≤ 127) }
    ensures middle { IfOk result (λ k. k.middle ≤ 127) }
    ensures reference { IfOk result (λ k. k.reference ≤ 127) }
    ensures missing { missing lines.new ≡ missing lines.old }
{
    let first = key_field(lines, 0)?;
    let last = key_field(lines, first)?;
    let middle = key_field(lines, 0)?;
    let reference = key_field(lines, 0)?;
    Ok(KeyFields {
        first,
        last,
        middle,
        reference,
    })
}

/// So many entries; those that are left out are unmapped.
fn entries(alloc: Global, lines: &mut Lines<'_>, size: u32) -> Result<Vec<Option<u16>>, KbmFault>
    ensures { Gives seen (λ v. v.items) result
        (entries_at size (entry_lines (remaining lines.old))) }
{
    let mut entries = Vec::new(alloc);
    'entries: for _ in 0..size {
        let found = match lines.next_entry() {
            None => None,
            Some(line) => match entry(line.bytes) {
                Err(kind) => {
                    return Err(KbmFault::At {
                        line: line.number,
                        kind,
                    });
                }
                Ok(found) => found,
            },
        };
        entries.push(found)?;
    }
    Ok(entries)
}

/// The mapping of a text.
#[tactic(auto, unfolding(crate::specs::Reading::map_at))]
fn mapping(alloc: Global, text: &[u8]) -> Result<Mapping, KbmFault>
    requires { length text.now ≤ TEXT_LIMIT }
    ensures { Gives seen (λ m. m) result (map_of (lines_of text.now)) }
{
    prefixes();
    numbers();
    let mut lines = Lines::new(text);
    let size = number_field(&mut lines, KbmKind::SizeRange, 0, 4096)?;
    let keys = keys(&mut lines)?;
    let nanohertz = frequency_field(&mut lines)?;
    let octave = number_field(&mut lines, KbmKind::DegreeRange, 0, 16_383)? as u16;
    let entries = entries(alloc, &mut lines, size)?;
    Ok(Mapping {
        first: keys.first,
        last: keys.last,
        middle: keys.middle,
        reference: keys.reference,
        nanohertz,
        octave,
        entries,
    })
}

/// Reads a mapping text of at most 262,144 bytes: seven fields on a line each, and then as many
/// entries as the first says. A fault is the text's first one, with its line, counted from 1; where
/// a line is missing, it is the number of lines plus 1.
pub fn read_kbm(alloc: Global, text: &[u8]) -> Result<Mapping, KbmFault>
    requires { length text.now ≤ TEXT_LIMIT }
    // What is read is a mapping text of this mapping.
    ensures found { IfOk result (MapText (lines_of text.now)) }
    // A mapping text is read, unless memory runs out.
    ensures only { (m : KeyMap) → MapText (lines_of text.now) m → Answers seen result m }
    // What is answered is the first fault.
    ensures fault { IfErr result (λ e. IsFaultOf (MapFault (lines_of text.now)) (seen e)) }
    // A text with a fault is refused with it, unless memory runs out.
    ensures only_fault { (line : ℕ) (kind : KbmKind)
        → MapFault (lines_of text.now) line kind → AnswersFault seen result line kind }
    // Reading from left to right gives the same.
    ensures exact { Gives seen (λ m. m) result (map_of (lines_of text.now)) }
{
    prefixes();
    numbers();
    mapping(alloc, text)
}
