ghost use Rattle.std.specs.Prelude.{◌≡◌, ◌≤◌, ◌<◌, ◌∷◌, [], length, List, ℕ, IfOk, IfErr};
ghost use Rattle.scala_lines.specs.Lines.{lines_of};
ghost use Rattle.scala_lines.specs.Remaining.{view, remaining, missing};
ghost use Rattle.scl_text.specs.Reading.{count_of, entries_at, scale_at, scale_of};
ghost use Rattle.scala_lines.specs.Reading.{Gives, Answers, AnswersFault, IsFaultOf};
ghost use Rattle.scl_text.specs.Answers.{seen};
ghost use Rattle.scl_text.specs.Spelling.{ScaleText, ScaleFault};
ghost use Rattle.scl_text.specs.declared.entry.Entry.{Entry};
ghost use Rattle.scl_text.specs.declared.fault.SclKind.{SclKind};
ghost use Rattle.scl_text.specs.declared.fault.SclFault.TheVariants as faults;

use crate::entry::Entry;
use crate::fault::{SclFault, SclKind};
use crate::pitch::pitch;
use crate::scale::Scale;
use scala_lines::laws::{decimals, numbers, prefixes};
use scala_lines::{Line, Lines, TEXT_LIMIT, after_blanks, split_digits, value_within};
use std::alloc::Global;

/// The count of a count line, or the kind of its fault.
#[tactic(auto, unfolding(crate::specs::Reading::count_of))]
fn count(line: &[u8]) -> Result<u32, SclKind>
    ensures { result ≡ count_of line.now }
{
    let (digits, _) = split_digits(after_blanks(line));
    if digits.is_empty() {
        return Err(SclKind::BadCount);
    }
    match value_within(digits, 4096) {
        Some(count) if count > 0 => Ok(count as u32),
        _ => Err(SclKind::CountRange),
    }
}

/// The next line that isn't a comment, where a missing one has a kind.
fn next_line<'a>(lines: &mut Lines<'a>, kind: SclKind) -> Result<Line<'a>, SclFault>
    ensures line { IfOk result (λ line. remaining lines.old ≡ view line ∷ remaining lines.new) }
    ensures none { IfErr result (λ e. remaining lines.old ≡ []) }
    ensures fault { IfErr result (λ e. e ≡ faults.At (missing lines.old) kind) }
    ensures missing { missing lines.new ≡ missing lines.old }
{
    lines.next().map_err(|line| SclFault::At { line, kind })
}

/// The entries of so many pitch lines.
fn entries(alloc: Global, lines: &mut Lines<'_>, count: u32) -> Result<Vec<Entry>, SclFault>
    ensures { Gives seen (λ v. v.items) result
        (entries_at (missing lines.old) count (remaining lines.old)) }
{
    let mut entries = Vec::new(alloc);
    'pitches: for _ in 0..count {
        match lines.next() {
            Err(line) => {
                return Err(SclFault::At {
                    line,
                    kind: SclKind::MissingPitch,
                });
            }
            Ok(line) => match pitch(line.bytes) {
                Err(kind) => {
                    return Err(SclFault::At {
                        line: line.number,
                        kind,
                    });
                }
                Ok(entry) => entries.push(entry)?,
            },
        }
    }
    Ok(entries)
}

/// The entries of a text.
#[tactic(auto, unfolding(crate::specs::Reading::scale_at))]
fn entries_of(alloc: Global, text: &[u8]) -> Result<Vec<Entry>, SclFault>
    requires { length text.now ≤ TEXT_LIMIT }
    ensures { Gives seen (λ v. v.items) result (scale_of (lines_of text.now)) }
{
    let mut lines = Lines::new(text);
    let _description = next_line(&mut lines, SclKind::NoDescription)?;
    let line = next_line(&mut lines, SclKind::NoCount)?;
    match count(line.bytes) {
        Err(kind) => Err(SclFault::At {
            line: line.number,
            kind,
        }),
        Ok(count) => entries(alloc, &mut lines, count),
    }
}

/// The scale of a text.
fn scale(alloc: Global, text: &[u8]) -> Result<Scale, SclFault>
    requires { length text.now ≤ TEXT_LIMIT }
    ensures { Gives seen (λ scale. scale) result (scale_of (lines_of text.now)) }
{
    prefixes();
    numbers();
    decimals();
    let entries = entries_of(alloc, text)?;
    Ok(Scale { entries })
}

/// Reads a scale text of at most 262,144 bytes: a description, a count line, and as many pitch lines
/// as the count. A fault is the text's first one, with its line, counted from 1; where a line is
/// missing, it is the number of lines plus 1.
pub fn read_scl(alloc: Global, text: &[u8]) -> Result<Scale, SclFault>
    requires { length text.now ≤ TEXT_LIMIT }
    // What is read is a scale text with these entries.
    ensures found { IfOk result (ScaleText (lines_of text.now)) }
    // A scale text is read, unless memory runs out.
    ensures only { (scale : List Entry)
        → ScaleText (lines_of text.now) scale → Answers seen result scale }
    // What is answered is the first fault.
    ensures fault { IfErr result (λ e. IsFaultOf (ScaleFault (lines_of text.now)) (seen e)) }
    // A text with a fault is refused with it, unless memory runs out.
    ensures only_fault { (line : ℕ) (kind : SclKind)
        → ScaleFault (lines_of text.now) line kind → AnswersFault seen result line kind }
    // Reading from left to right gives the same.
    ensures exact { Gives seen (λ scale. scale) result (scale_of (lines_of text.now)) }
{
    prefixes();
    numbers();
    scale(alloc, text)
}
