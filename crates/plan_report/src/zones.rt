ghost use Rattle.std.specs.Prelude.{◌≡◌, ◌≤◌, ◌++◌, length, OnOk, OnErr};
ghost use Rattle.plan_report.specs.Texts.{zone_line, port_line};
ghost use Rattle.plan_report.specs.Told.{zone_told, zones_told, zone_lines, IsFront};

use crate::line::{Line, port_line, push_instant, push_line, push_number};
use crate::needs::are_named;
use crate::pairs::push_pairs;
use channel_plan::{Plan, Zone};
use mt_base::Memory;

/// The line of a zone.
fn zone_line(zone: &Zone) -> Line
    ensures { result.bytes ≡ zone_line zone.now }
{
    let mut line = Line::new();
    let text = if zone.upper {
        "zone upper part "
    } else {
        "zone lower part "
    };
    push_number(&mut line, text, u32::from(zone.part.number()) + 1);
    line.push_str(" ");
    push_instant(&mut line, zone.need, zone.instant);
    line
}

/// Appends the lines of the zone at a place of a port, if there is one.
fn push_zone(plan: &Plan, port: u8, place: usize, out: &mut Vec<u8>) -> Result<(), Memory>
    ensures text { OnOk result (out.new.items ≡ out.old.items ++ zone_told plan.now port place) }
    ensures front { OnErr result
        (IsFront out.old.items (zone_told plan.now port place) out.new.items) }
{
    let Some(zone) = plan.zone(port, place) else {
        return Ok(());
    };
    push_line(out, &zone_line(&zone))?;
    push_pairs(out, plan.zone_pairs(port, place))
}

/// Appends the lines of the lower zone of a port, and then those of the upper.
fn push_port(plan: &Plan, port: u8, out: &mut Vec<u8>) -> Result<(), Memory>
    ensures text { OnOk result (out.new.items ≡ out.old.items ++ zones_told plan.now port) }
    ensures front { OnErr result (IsFront out.old.items (zones_told plan.now port) out.new.items) }
{
    push_zone(plan, port, 0, out)?;
    push_zone(plan, port, 1, out)
}

/// Appends the line of a port, and then the same.
fn push_named(plan: &Plan, port: u8, out: &mut Vec<u8>) -> Result<(), Memory>
    ensures text { OnOk result
        (out.new.items ≡ out.old.items ++ port_line port ++ zones_told plan.now port) }
    ensures front { OnErr result
        (IsFront out.old.items (port_line port ++ zones_told plan.now port) out.new.items) }
{
    push_line(out, &port_line(port))?;
    push_port(plan, port, out)
}

/// Appends the lines of a plan of the MPE route: of the lower zone of each port, and then of the upper, its part,
/// what the part needs, the instant, and the pairs of the part that sound or rest then. Each port is named where
/// some retuned note has a port other than 0. On `Memory` a front of the lines is appended.
pub fn push_zones(plan: &Plan, out: &mut Vec<u8>) -> Result<(), Memory>
    ensures text { OnOk result (out.new.items ≡ out.old.items ++ zone_lines plan.now) }
    ensures front { OnErr result (IsFront out.old.items (zone_lines plan.now) out.new.items) }
{
    if !are_named(plan.ports()) {
        return push_port(plan, 0, out);
    }
    for port in plan.ports() {
        push_named(plan, *port, out)?;
    }
    Ok(())
}
