ghost use Rattle.std.specs.Prelude.{◌≡◌, ◌≤◌, ◌<◌, ◌*◌, ◌^◌, ◌++◌, OnOk, OnErr};
ghost use Rattle.plan_report.specs.Texts.{channels_line};
ghost use Rattle.plan_report.specs.Told.{members_if, channels_of_port, channels_told};

use crate::line::{Line, push_line};
use channel_plan::{Plan, Zone};
use itoa::Buffer;
use mt_base::Memory;

/// How many members a zone has, if there is one.
fn members(zone: Option<Zone>) -> u64
    ensures count { result ≡ members_if zone }
    ensures few { result < 2 ^ 32 }
{
    match zone {
        Some(zone) => u64::from(zone.need),
        None => 0,
    }
}

/// How many channels the notes of a port are given.
fn port_channels(plan: &Plan, port: u8) -> u64
    ensures count { result ≡ channels_of_port plan.now port }
    ensures few { result ≤ 3 * 2 ^ 32 }
{
    u64::from(plan.need(port)) + members(plan.zone(port, 0)) + members(plan.zone(port, 1))
}

/// How many channels the notes of all ports are given.
fn channels(plan: &Plan) -> u64
    ensures { result ≡ channels_told plan.now }
{
    let mut count = 0;
    for port in 0..256u16 {
        count += port_channels(plan, port as u8);
    }
    count
}

/// Appends the line that says on how many channels the retuned notes are, by a plan of the bend or the MPE route:
/// as many as each port needs, and as each zone has members. On `Memory` nothing is appended.
pub fn push_channels(plan: &Plan, out: &mut Vec<u8>) -> Result<(), Memory>
    ensures text { OnOk result
        (out.new.items ≡ out.old.items ++ channels_line (channels_told plan.now)) }
    ensures same { OnErr result (out.new.items ≡ out.old.items) }
{
    let mut line = Line::new();
    line.push_str("channels ");
    line.push_str(Buffer::new().format(channels(plan)));
    line.push_str("\n");
    push_line(out, &line)
}
