ghost use Rattle.std.specs.Prelude.{◌≡◌, ◌≤◌, ◌<◌, ℕ, option_map};
ghost use Rattle.channel_model.specs.MpeOutput.{master_of, member_at, zone_of};
ghost use Rattle.mpe_route.specs.Zones.{zone_from, zones_in};

use channel_plan::{Plan, Zone};
use mt_base::{Channel, Part};

/// The master of a zone: the first channel, or the last.
pub(crate) fn master(zone: &Zone) -> Channel
    ensures { result ≡ master_of (zone_from zone.now) }
{
    let number = if zone.upper { 15 } else { 0 };
    Channel::at(number)
}

/// A member of a zone, counted from the master outward, from 0 to 14.
pub(crate) fn member(zone: &Zone, place: u8) -> Channel
    requires { place ≤ 14 }
    ensures { result ≡ member_at (zone_from zone.now) place }
{
    let number = if zone.upper { 14 - place } else { 1 + place };
    Channel::at(number)
}

/// The zone of a part, where it has one.
pub(crate) fn find_zone(plan: &Plan, part: Part) -> Option<Zone>
    ensures { option_map zone_from result ≡ zone_of part.channel (zones_in plan.now part.port) }
{
    let lower = plan.zone(part.port, 0)?;
    if lower.part == part.channel {
        return Some(lower);
    }
    let upper = plan.zone(part.port, 1)?;
    if upper.part == part.channel {
        Some(upper)
    } else {
        None
    }
}
