ghost use Rattle.std.specs.Prelude.{◌≡◌, ◌≤◌, ◌<◌, length, map, List, ℕ, IfOk, IfErr};
ghost use Rattle.scala_lines.specs.Lines.{lines_of, entry_lines};
ghost use Rattle.scala_lines.specs.Remaining.{remaining};
ghost use Rattle.scala_lines.specs.Reading.{Gives, Answers, AnswersFault, IsFaultOf};
ghost use Rattle.scale_changes.specs.declared.fault.ListKind.{ListKind};
ghost use Rattle.scale_changes.specs.Answers.{seen, told};
ghost use Rattle.scale_changes.specs.Names.{Change};
ghost use Rattle.scale_changes.specs.Reading.{list_at, list_of};
ghost use Rattle.scale_changes.specs.Spelling.{ListText, ListTextFault};

use crate::fault::{ListFault, ListKind};
use crate::line::change;
use scala_lines::laws::{numbers, prefixes};
use scala_lines::{Lines, TEXT_LIMIT};
use std::alloc::Global;

/// The changes of the lines to come.
fn changes<'a>(alloc: Global, lines: &mut Lines<'a>) -> Result<Vec<(u32, &'a str)>, ListFault>
    ensures { Gives seen (λ v. v) (told result)
        (list_at 16 0 (entry_lines (remaining lines.old))) }
{
    let mut changes = Vec::new(alloc);
    let mut last = 0;
    'lines: while let Some(line) = lines.next_entry() {
        if changes.len() == 16 {
            return Err(ListFault::At {
                line: line.number,
                kind: ListKind::TooMany,
            });
        }
        match change(line.bytes, last) {
            Err(kind) => {
                return Err(ListFault::At {
                    line: line.number,
                    kind,
                });
            }
            Ok(change) => {
                changes.push(change)?;
                last = change.0;
            }
        }
    }
    Ok(changes)
}

/// The changes of a text.
fn list<'a>(alloc: Global, text: &'a [u8]) -> Result<Vec<(u32, &'a str)>, ListFault>
    requires { length text.now ≤ TEXT_LIMIT }
    ensures { Gives seen (λ v. v) (told result) (list_of (lines_of text.entry.now)) }
{
    let mut lines = Lines::new(text);
    changes(alloc, &mut lines)
}

/// Reads a list of scale changes of at most 262,144 bytes: on each line that is neither a comment nor
/// blanks alone a tick from 1 to 268,435,455, above the one before, and a name of the bytes 33 to 126;
/// at most 16 of them. A fault is that of the first line that can't be taken, counted from 1, with the
/// first kind that holds there.
pub fn read_list<'a>(alloc: Global, text: &'a [u8]) -> Result<Vec<(u32, &'a str)>, ListFault>
    requires { length text.now ≤ TEXT_LIMIT }
    // What is read is a list with these ticks and names.
    ensures found { IfOk (told result) (ListText (lines_of text.entry.now)) }
    // A list is read, unless memory runs out.
    ensures only { (changes : List Change)
        → ListText (lines_of text.entry.now) changes → Answers seen (told result) changes }
    // What is answered is the first line that can't be taken.
    ensures fault { IfErr (told result)
        (λ e. IsFaultOf (ListTextFault (lines_of text.entry.now)) (seen e)) }
    // A list with such a line is refused for it, unless memory runs out.
    ensures only_fault { (line : ℕ) (kind : ListKind)
        → ListTextFault (lines_of text.entry.now) line kind
        → AnswersFault seen (told result) line kind }
    // Reading from left to right gives the same.
    ensures exact { Gives seen (λ v. v) (told result) (list_of (lines_of text.entry.now)) }
{
    prefixes();
    numbers();
    list(alloc, text)
}
