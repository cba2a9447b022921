ghost use Rattle.std.specs.Prelude.{◌≡◌, ◌++◌, map, OnOk, OnErr};
ghost use Rattle.lifetimes.specs.Views.{pair_of};
ghost use Rattle.plan_report.specs.Texts.{pair_line, pair_lines};
ghost use Rattle.plan_report.specs.Told.{IsFront};

use crate::line::{Line, push_line, push_number};
use itoa::Buffer;
use mt_base::{Memory, Pair};

/// The line of a pair.
fn pair_line(pair: &Pair) -> Line
    ensures { result.bytes ≡ pair_line (pair_of pair.now) }
{
    let mut line = Line::new();
    push_number(
        &mut line,
        "pair ",
        u32::from(pair.part.channel.number()) + 1,
    );
    line.push_str(" ");
    line.push_str(Buffer::new().format(pair.steps));
    line.push_str("\n");
    line
}

/// Appends the lines of pairs. On `Memory` a front of them.
pub(crate) fn push_pairs(out: &mut Vec<u8>, pairs: &[Pair]) -> Result<(), Memory>
    ensures text { OnOk result
        (out.new.items ≡ out.old.items ++ pair_lines (map pair_of pairs.now)) }
    ensures front { OnErr result
        (IsFront out.old.items (pair_lines (map pair_of pairs.now)) out.new.items) }
{
    for pair in pairs {
        push_line(out, &pair_line(pair))?;
    }
    Ok(())
}
