ghost use Rattle.std.specs.Prelude.{◌≡◌, ◌≤◌, ◌+◌, ◌++◌, length};
ghost use Rattle.plan_report.specs.Texts.{on_port, too_many_line, too_many_parts_line};

use crate::line::{Line, push_number};
use channel_plan::TooMany;

/// Names a port other than port 0.
fn push_port(line: &mut Line, port: u8)
    requires { length line.old.bytes ≤ 100 }
    ensures text { line.new.bytes ≡ line.old.bytes ++ on_port port }
    ensures short { length line.new.bytes ≤ length line.old.bytes + 19 }
{
    if port != 0 {
        push_number(line, " on port ", u32::from(port));
    }
}

/// The line that more channels are needed than there may be, with its line feed. It takes no memory.
pub fn too_many_line(fault: &TooMany) -> Line
    ensures { result.bytes ≡ too_many_line fault.now }
{
    let mut line = Line::new();
    push_number(&mut line, "mtune: needs ", fault.need);
    push_number(&mut line, " channels of ", fault.allowed);
    push_port(&mut line, fault.port);
    push_number(&mut line, " at tick ", fault.instant.tick);
    push_number(&mut line, " position ", fault.instant.position);
    line.push_str("\n");
    line
}

/// The line that so many parts of a port have a note on, with its line feed, which are more than MPE has zones.
/// It takes no memory.
pub fn too_many_parts_line(port: u8, parts: u8) -> Line
    ensures { result.bytes ≡ too_many_parts_line port parts }
{
    let mut line = Line::new();
    push_number(&mut line, "mtune: ", u32::from(parts));
    line.push_str(" parts on mpe");
    push_port(&mut line, port);
    line.push_str("\n");
    line
}
