ghost use Rattle.std.specs.Prelude.{◌≡◌, ◌≤◌, ◌++◌, ◌+◌, length, codes, decimal, OnOk, OnErr};
ghost use Rattle.plan_report.specs.Texts.{need_line, port_line};

use arrayvec::ArrayString;
use channel_plan::Instant;
use itoa::Buffer;
use mt_base::Memory;

/// Room for each line of a plan, and of the fault of a source that gets none.
pub type Line = ArrayString<128>;

/// Appends a text and a number. There is to be room for the text and ten digits.
pub fn push_number(line: &mut Line, text: &str, number: u32)
    requires { length line.old.bytes + length text.now ≤ 118 }
    ensures text { line.new.bytes ≡ line.old.bytes ++ text.now ++ decimal number }
    ensures short { length line.new.bytes ≤ length line.old.bytes + length text.now + 10 }
{
    line.push_str(text);
    line.push_str(Buffer::new().format(number));
}

/// Appends what is needed, and the instant.
pub(crate) fn push_instant(line: &mut Line, need: u32, instant: Instant)
    requires { length line.old.bytes ≤ 64 }
    ensures { line.new.bytes ≡ line.old.bytes ++ need_line need instant }
{
    push_number(line, "need ", need);
    push_number(line, " tick ", instant.tick);
    push_number(line, " position ", instant.position);
    line.push_str("\n");
}

/// The line that names a port.
pub(crate) fn port_line(port: u8) -> Line
    ensures { result.bytes ≡ port_line port }
{
    let mut line = Line::new();
    push_number(&mut line, "port ", u32::from(port));
    line.push_str("\n");
    line
}

/// Appends a line to a text. On `Memory` nothing is appended.
pub(crate) fn push_line(out: &mut Vec<u8>, line: &Line) -> Result<(), Memory>
    ensures text { OnOk result (out.new.items ≡ out.old.items ++ line.now.bytes) }
    ensures same { OnErr result (out.new.items ≡ out.old.items) }
{
    out.extend_from_slice(line.as_str().as_bytes())?;
    Ok(())
}
