ghost use Rattle.std.specs.Prelude.{◌≡◌, ◌≤◌, [], ◌∷◌, filter, IfSome, IfNone};
ghost use Rattle.retune_model.specs.Dump.{from_up};
ghost use Rattle.channel_model.specs.Rows.{allowed_row};
ghost use Rattle.channel_model.specs.MpeOutput.{Zone as ZoneOf, member_at, members_from, lower_allowed, upper_allowed};
ghost use Rattle.lifetimes.specs.Views.{options_of};
ghost use Rattle.channel_plan.specs.Masks.{is_allowed};

use arrayvec::ArrayVec;
use lifetimes::Options;
use mt_base::Channel;

/// Channels in the order in which they are taken.
pub(crate) type Row = ArrayVec<Channel, 16>;

/// Whether a channel, 0 to 15, is in a mask.
fn allows(allowed: u16, number: u8) -> bool
    requires { number ≤ 15 }
    ensures { result ≡ is_allowed allowed number }
{
    (allowed >> number) & 1 == 1
}

/// The channels of a mask, ascending.
#[tactic(auto, using(crate::proofs::Putting::channel_put, crate::proofs::Putting::channel_passed))]
pub(crate) fn channels_of(mask: u16) -> Row
    ensures { result.items ≡ filter (is_allowed mask) (from_up 0 16) }
{
    let mut row = ArrayVec::new();
    for number in 0..16u8 {
        if allows(mask, number) {
            row.push(Channel::at(number));
        }
    }
    row
}

/// The channels of a mask, ascending, without channel 10 where drums are kept.
#[tactic(auto, using(crate::proofs::Putting::channel_put, crate::proofs::Putting::channel_passed))]
pub(crate) fn allowed_row(allowed: u16, options: &Options) -> Row
    ensures { result.items ≡ allowed_row (options_of options.now) (is_allowed allowed) }
{
    let mut row = ArrayVec::new();
    for number in 0..16u8 {
        if allows(allowed, number) && !(options.keep_drums && number == 9) {
            row.push(Channel::at(number));
        }
    }
    row
}

/// The member at a place of a zone, from the master outward. The lower zone's master is the first channel, and
/// the upper zone's the last.
fn member(upper: bool, place: u8) -> Channel
    requires { place ≤ 14 }
    ensures { (zone : ZoneOf) → zone.upper ≡ upper → result ≡ member_at zone place }
{
    let number = if upper { 14 - place } else { 1 + place };
    Channel::at(number)
}

/// The members of a zone of at most 15, from the master outward.
#[tactic(auto, using(crate::proofs::Putting::member_put))]
pub(crate) fn zone_row(upper: bool, members: u8) -> Row
    requires { members ≤ 15 }
    ensures { (zone : ZoneOf) → zone.upper ≡ upper → result.items ≡ members_from zone 0 members }
{
    let mut row = ArrayVec::new();
    for place in 0..members {
        row.push(member(upper, place));
    }
    row
}

/// How many members the lower zone of a port may have, by the need of the upper zone, where there is one. With
/// kept drums channel 10 is left out of both zones.
pub(crate) fn lower_allowed(drums: bool, upper: Option<u32>) -> u32
    ensures alone { IfNone upper ((l : ZoneOf) → result ≡ lower_allowed drums (l ∷ [])) }
    ensures both { IfSome upper (λ n. (l u : ZoneOf) → u.members ≡ n
        → result ≡ lower_allowed drums (l ∷ u ∷ [])) }
    ensures few { result ≤ 15 }
{
    match upper {
        _ if drums => 8,
        Some(need) => 14u32.saturating_sub(need),
        None => 15,
    }
}

/// How many members the upper zone of a port may have.
pub(crate) fn upper_allowed(drums: bool) -> u32
    ensures allowed { result ≡ upper_allowed drums }
    ensures few { result ≤ 14 }
{
    if drums { 5 } else { 14 }
}
