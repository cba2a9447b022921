ghost use Rattle.std.specs.Prelude.{◌≡◌, ◌+◌, ◌<◌, ◌≤◌, ◌^◌, length};

use crate::characters::after_blanks;
use crate::pieces::{is_comment, split_line};

/// The most bytes that a text may have (this project's own limit).
pub const TEXT_LIMIT: u32 = 262_144;

/// A line of a text, with its number, counted from 1.
#[derive(Clone, Copy, Debug)]
pub struct Line<'a> {
    pub number: u32,
    pub bytes: &'a [u8],
}

/// The lines of a text from a place on.
#[derive(Clone, Copy, Debug)]
pub struct Lines<'a> {
    rest: &'a [u8],
    number: u32,
    ghost in_range: { number + length rest.now < 2 ^ 32 },
}

impl<'a> Lines<'a> {
    ghost use Rattle.std.specs.Prelude.{[], ◌∷◌, IfOk, IfErr, IfSome, IfNone};
    ghost use Rattle.scala_lines.specs.Lines.{lines_of, content, entry_lines};
    ghost use Rattle.scala_lines.specs.Remaining.{view, remaining, missing};

    /// All lines of a text.
    pub fn new(text: &'a [u8]) -> Lines<'a>
        requires { length text.now < 2 ^ 31 }
        ensures remaining { remaining result ≡ content (lines_of text.entry.now) }
        ensures missing { missing result ≡ length (lines_of text.entry.now) + 1 }
    {
        Lines {
            rest: text,
            number: 1,
        }
    }

    /// The next line that isn't a comment. Where there is none, the number of a line behind the last.
    pub fn next(&mut self) -> Result<Line<'a>, u32>
        ensures line { IfOk result (λ line. remaining self.old ≡ view line ∷ remaining self.new) }
        ensures none { IfErr result (λ number. remaining self.old ≡ []) }
        ensures ended { IfErr result (λ number. remaining self.new ≡ []) }
        ensures number { IfErr result (λ number. number ≡ missing self.old) }
        ensures missing { missing self.new ≡ missing self.old }
    {
        'comments: while !self.rest.is_empty() {
            let number = self.number;
            let (bytes, rest) = split_line(self.rest);
            *self = Lines {
                rest,
                number: number + 1,
            };
            if !is_comment(bytes) {
                return Ok(Line { number, bytes });
            }
        }
        Err(self.number)
    }

    /// The next line that is neither a comment nor blanks alone.
    pub fn next_entry(&mut self) -> Option<Line<'a>>
        ensures some { IfSome result
            (λ line. entry_lines (remaining self.old)
            ≡ view line ∷ entry_lines (remaining self.new)) }
        ensures none { IfNone result (entry_lines (remaining self.old) ≡ []) }
        ensures ended { IfNone result (entry_lines (remaining self.new) ≡ []) }
    {
        'blank: while let Ok(line) = self.next() {
            if !after_blanks(line.bytes).is_empty() {
                return Some(line);
            }
        }
        None
    }
}
