ghost use Rattle.std.specs.Prelude.{◌≡◌, ◌<◌, ◌∷◌, length};
ghost use Rattle.scala_lines.specs.Lines.{lines_of, without_cr, is_comment, from_end};

/// Whether a line's first byte is an exclamation mark.
pub fn is_comment(line: &[u8]) -> bool
    ensures { result ≡ is_comment line.now }
{
    matches!(line, [b'!', ..])
}

/// A line without a CR at its end.
#[tactic(auto, using(crate::proofs::Cuts::cr_last, crate::proofs::Cuts::other_last, crate::proofs::Cuts::nothing))]
fn without_cr(line: &[u8]) -> &[u8]
    ensures { result.now ≡ without_cr line.entry.now }
{
    if line.is_empty() {
        return line;
    }
    let last = line.len() - 1;
    if line[last] == b'\r' {
        return &line[..last];
    }
    line
}

/// The bytes from the first LF on.
fn from_end(text: &[u8]) -> &[u8]
    ensures { result.now ≡ from_end text.entry.now }
{
    let mut rest = text;
    'bytes: while let [byte, after @ ..] = rest {
        if *byte == b'\n' {
            return rest;
        }
        rest = after;
    }
    rest
}

#[tactic(auto, using(crate::proofs::Cuts::line_end, crate::proofs::Cuts::line_more, crate::proofs::Prefixes::behind_short))]
/// The first line, and the bytes behind its LF.
pub fn split_line(text: &[u8]) -> (&[u8], &[u8])
    requires { 0 < length text.now }
    ensures line { lines_of text.entry.now ≡ result.0.now ∷ lines_of result.1.now }
    ensures shorter { length result.1.now < length text.entry.now }
{
    let end = from_end(text);
    let line = without_cr(&text[..text.len() - end.len()]);
    match end {
        [_, rest @ ..] => (line, rest),
        [] => (line, end),
    }
}
