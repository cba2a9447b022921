ghost use Rattle.std.specs.Prelude.{◌≡◌, ◌++◌, OnOk, OnErr};
ghost use Rattle.plan_report.specs.Texts.{need_line, port_line, are_named};
ghost use Rattle.plan_report.specs.Told.{need_told, need_lines, IsFront};

use crate::line::{Line, port_line, push_instant, push_line};
use crate::pairs::push_pairs;
use channel_plan::{Instant, Plan};
use mt_base::Memory;

/// Whether each port is named: where some port is another than port 0.
pub(crate) fn are_named(ports: &[u8]) -> bool
    ensures { result ≡ are_named ports.now }
{
    ports.iter().any(|port| *port != 0)
}

/// The line of a need.
fn need_line(need: u32, instant: Instant) -> Line
    ensures { result.bytes ≡ need_line need instant }
{
    let mut line = Line::new();
    push_instant(&mut line, need, instant);
    line
}

/// Appends what a port needs, and the pairs of its instant.
fn push_port(plan: &Plan, port: u8, out: &mut Vec<u8>) -> Result<(), Memory>
    ensures text { OnOk result (out.new.items ≡ out.old.items ++ need_told plan.now port) }
    ensures front { OnErr result (IsFront out.old.items (need_told plan.now port) out.new.items) }
{
    push_line(out, &need_line(plan.need(port), plan.instant(port)))?;
    push_pairs(out, plan.witness(port))
}

/// Appends the line of a port, and then the same.
fn push_named(plan: &Plan, port: u8, out: &mut Vec<u8>) -> Result<(), Memory>
    ensures text { OnOk result
        (out.new.items ≡ out.old.items ++ port_line port ++ need_told plan.now port) }
    ensures front { OnErr result
        (IsFront out.old.items (port_line port ++ need_told plan.now port) out.new.items) }
{
    push_line(out, &port_line(port))?;
    push_port(plan, port, out)
}

/// Appends the lines of a plan of the bend route: what each port needs, the instant, and the pairs that sound or
/// rest then. Each port is named where some retuned note has a port other than 0. On `Memory` a front of the
/// lines is appended.
pub fn push_need(plan: &Plan, out: &mut Vec<u8>) -> Result<(), Memory>
    ensures text { OnOk result (out.new.items ≡ out.old.items ++ need_lines plan.now) }
    ensures front { OnErr result (IsFront out.old.items (need_lines plan.now) out.new.items) }
{
    if !are_named(plan.ports()) {
        return push_port(plan, 0, out);
    }
    for port in plan.ports() {
        push_named(plan, *port, out)?;
    }
    Ok(())
}
