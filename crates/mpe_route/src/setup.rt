ghost use Rattle.std.specs.Prelude.{◌≡◌, ◌≤◌, ◌+◌, ◌*◌, ◌++◌, length};
ghost use Rattle.mt_base.specs.declared.event.Msg.TheVariants.{Control};
ghost use Rattle.midi_model.specs.Bring.{registered};
ghost use Rattle.channel_model.specs.MpeOutput.{zone_setup, zones_setup};
ghost use Rattle.mpe_route.specs.Zones.{zone_from, zones_in, AreSmall};

use crate::zones::{master, member};
use arrayvec::ArrayVec;
use channel_plan::{Plan, Zone};
use mt_base::{Channel, Msg};

fn control(channel: Channel, number: u8, value: u8) -> Msg
    ensures { result ≡ Control channel number value }
{
    Msg::Control {
        channel,
        number,
        value,
    }
}

/// What sets a registered parameter's high byte, and leaves nothing selected.
fn registered(channel: Channel, low: u8, value: u8) -> [Msg; 5]
    ensures { result ≡ registered channel low value }
{
    [
        control(channel, 101, 0),
        control(channel, 100, low),
        control(channel, 6, value),
        control(channel, 101, 127),
        control(channel, 100, 127),
    ]
}

fn push_registered(out: &mut ArrayVec<Msg, 80>, channel: Channel, low: u8, value: u8)
    requires { length out.old.items + 5 ≤ 80 }
    ensures { out.new.items ≡ out.old.items ++ registered channel low value }
{
    match out.try_extend_from_slice(&registered(channel, low, value)) {
        Ok(()) => {}
        Err(_) => unreachable!(),
    }
}

/// Appends what sets a zone: its size on the master, then each member's bend sensitivity, where it isn't the
/// 48 semitones that the zone gives.
fn push_zone(out: &mut ArrayVec<Msg, 80>, range: u8, zone: &Zone)
    requires members { zone.now.need ≤ 15 }
    requires room { length out.old.items + (5 + 5 * zone.now.need) ≤ 80 }
    ensures { out.new.items ≡ out.old.items ++ zone_setup range (zone_from zone.now) }
{
    let members = zone.need as u8;
    push_registered(out, master(zone), 6, members);
    if range != 48 {
        for place in 0..members {
            push_registered(out, member(zone, place), 0, range);
        }
    }
}

/// What sets the zones of a port, the lower one first.
pub(crate) fn setup(range: u8, plan: &Plan, port: u8) -> ArrayVec<Msg, 80>
    requires { AreSmall (zones_in plan.now port) }
    ensures { result.items ≡ zones_setup range (zones_in plan.now port) }
{
    let mut out = ArrayVec::new();
    if let Some(lower) = plan.zone(port, 0) {
        push_zone(&mut out, range, &lower);
        if let Some(upper) = plan.zone(port, 1) {
            push_zone(&mut out, range, &upper);
        }
    }
    out
}
