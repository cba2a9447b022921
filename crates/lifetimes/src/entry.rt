ghost use Rattle.std.specs.Prelude.{◌≡◌, ◌≤◌};
ghost use Rattle.retune_model.specs.Faults.{is_selected};
ghost use Rattle.receiver.specs.State.{own_of};
ghost use Rattle.lifetimes.specs.Due.{plainly};
ghost use Rattle.lifetimes.specs.Entry.{sets_zone, sensitivity_then, entry_kind};
ghost use Rattle.lifetimes.specs.Told.{told_kind};

use crate::fault::SourceKind;
use mt_base::Channel;
use receiver::ChannelState;

/// Whether the registered parameter 0, `low` is selected.
fn is_selected(state: &ChannelState, low: u8) -> bool
    ensures { result ≡ is_selected low (own_of state.now).selection }
{
    state.registered && state.rpn.0 == 0 && state.rpn.1 == low
}

/// Whether data entry sets a zone of which the channel is the master.
fn sets_zone(state: &ChannelState, channel: Channel, is_high: bool, value: u8) -> bool
    ensures { result ≡ sets_zone (own_of state.now) channel is_high value }
{
    let is_master = channel.number() == 0 || channel.number() == 15;
    is_selected(state, 6) && is_high && value > 0 && is_master
}

/// The bend sensitivity of a channel after data entry, in semitones and hundredths. `is_high` is for
/// the MSB. A zone's master gets one of two semitones.
pub(crate) fn sensitivity_after(
    state: &ChannelState,
    channel: Channel,
    is_high: bool,
    value: u8,
) -> (u8, u8)
    requires value { value ≤ 127 }
    ensures value { result ≡ sensitivity_then (own_of state.now) channel is_high value }
    ensures high { result.0 ≤ 127 }
    ensures low { result.1 ≤ 127 }
{
    let (high, low) = state.value(true, 0, 0);
    if is_selected(state, 0) {
        if is_high { (value, low) } else { (high, value) }
    } else if sets_zone(state, channel, is_high, value) {
        (2, 0)
    } else {
        (high, low)
    }
}

/// What is wrong with data entry by the parameter that it writes to.
pub(crate) fn parameter_fault(state: &ChannelState) -> Option<SourceKind>
    ensures { told_kind result ≡ plainly (entry_kind (own_of state.now).selection) }
{
    if is_selected(state, 3) || is_selected(state, 4) {
        Some(SourceKind::TuningInSource)
    } else if is_selected(state, 6) {
        Some(SourceKind::MpeSource)
    } else {
        None
    }
}
