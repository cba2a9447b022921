ghost use Rattle.std.specs.Prelude.{◌≡◌, ◌≤◌, ◌<◌, ◌+◌, [], length, min, IfSome, IfNone};
ghost use Rattle.midi_model.specs.Bring.{bring_voice, bring_controls, where_differs, bring, voice_eq};
ghost use Rattle.mt_base.specs.declared.event.Msg.TheVariants.{Pressure, Bend};
ghost use Rattle.receiver.specs.State.{own_of, state_of};
ghost use Rattle.replay.specs.Brings.{after_voice, Brings, IsHeard, HasLength, IsLonger};
ghost use Rattle.replay.specs.Sinks.{Puts};

use crate::params::put_params;
use crate::sink::{Count, Sink, put_controllers, put_controllers_that_differ};
use crate::tables::{Kind, put_differences};
use arrayvec::ArrayVec;
use mt_base::{Channel, Msg};
use receiver::ChannelState;
use state_laws::{a_receiver_follows, bring_reaches, messages_are_few, messages_only_set};

const BANK_MSB: u8 = 0;

const BANK_LSB: u8 = 32;

/// Most messages that bring a channel to a state.
const MOST: u16 = 391;

/// Whether two states have the same voice.
fn has_voice_of(now: &ChannelState, wanted: &ChannelState) -> bool
    ensures { result ≡ voice_eq (own_of now.now).voice (own_of wanted.now).voice }
{
    now.voice.bank_high == wanted.voice.bank_high
        && now.voice.bank_low == wanted.voice.bank_low
        && now.voice.program == wanted.voice.program
}

/// Where the voices differ: the bank bytes that aren't selected now, and the program.
fn put_voice<S: Sink>(channel: Channel, now: &ChannelState, wanted: &ChannelState, out: &mut S)
    ensures { Puts S.holds out.old out.new
        (bring_voice channel (own_of now.now) (own_of wanted.now).voice) }
{
    if has_voice_of(now, wanted) {
        return;
    }
    let voice = wanted.voice;
    put_controllers_that_differ!(out, channel,
        BANK_MSB => now.controls.get(0), voice.bank_high;
        BANK_LSB => now.controls.get(32), voice.bank_low);
    out.put(Msg::Program {
        channel,
        program: voice.program,
    });
}

/// Each controller that differs from what the voice left.
fn put_controllers_left<S: Sink>(
    channel: Channel,
    now: &ChannelState,
    wanted: &ChannelState,
    out: &mut S,
)
    ensures { Puts S.holds out.old out.new
        (bring_controls channel 0
        (after_voice channel (state_of now.now) (state_of wanted.now)).controls
        (own_of wanted.now).controls) }
{
    now.well_formed();
    wanted.well_formed();
    if has_voice_of(now, wanted) {
        put_differences(
            Kind::Controllers,
            channel,
            &now.controls,
            &wanted.controls,
            out,
        );
    } else {
        let mut left = now.controls.copy();
        left.set(0, wanted.voice.bank_high);
        left.set(32, wanted.voice.bank_low);
        put_differences(Kind::Controllers, channel, &left, &wanted.controls, out);
    }
}

/// The channel pressure where it differs.
fn put_pressure<S: Sink>(channel: Channel, now: u8, wanted: u8, out: &mut S)
    ensures { Puts S.holds out.old out.new (where_differs now wanted (Pressure channel wanted)) }
{
    if now != wanted {
        out.put(Msg::Pressure {
            channel,
            value: wanted,
        });
    }
}

/// The bend where it differs.
fn put_bend<S: Sink>(channel: Channel, now: u16, wanted: u16, out: &mut S)
    ensures { Puts S.holds out.old out.new (where_differs now wanted (Bend channel wanted)) }
{
    if now != wanted {
        out.put(Msg::Bend {
            channel,
            value: wanted,
        });
    }
}

/// Puts all messages that bring the channel from one state to the other.
fn put_all<S: Sink>(channel: Channel, now: &ChannelState, wanted: &ChannelState, out: &mut S)
    ensures { Puts S.holds out.old out.new (bring channel (state_of now.now) (state_of wanted.now)) }
{
    now.well_formed();
    wanted.well_formed();
    put_voice(channel, now, wanted, out);
    put_controllers_left(channel, now, wanted, out);
    put_params(channel, now, wanted, out);
    put_pressure(channel, now.pressure, wanted.pressure, out);
    put_bend(channel, now.bend, wanted.bend, out);
    put_differences(Kind::KeyPressures, channel, &now.keys, &wanted.keys, out);
}

/// Writes the messages that bring a channel from one state to another, into an empty list: the voice, the
/// controllers, the parameters, the pressure, the bend and the key pressures, as far as they differ. A channel
/// that takes them is at the wanted state then, in everything but what is selected for data entry. The tuning
/// programs aren't looked at, and none is selected.
pub fn bring(
    now: &ChannelState,
    wanted: &ChannelState,
    channel: Channel,
    out: &mut ArrayVec<Msg, 400>,
)
    requires { out.old.items ≡ [] }
    ensures messages { out.new.items ≡ bring channel (state_of now.now) (state_of wanted.now) }
    ensures brings { Brings channel (state_of now.now) (state_of wanted.now) out.new.items }
    ensures heard { IsHeard channel (state_of now.now) (state_of wanted.now) out.new.items }
{
    now.well_formed();
    wanted.well_formed();
    messages_are_few();
    messages_only_set();
    bring_reaches();
    a_receiver_follows();
    put_all(channel, now, wanted, out);
}

/// How many messages that are, up to one more than the bound, which is below 65,535.
fn count_up_to(now: &ChannelState, wanted: &ChannelState, bound: u16) -> u16
    requires { bound < 65535 }
    ensures { result ≡ min (length (bring 0 (state_of now.now) (state_of wanted.now))) (bound + 1) }
{
    let mut count = Count {
        count: 0,
        most: bound,
    };
    put_all(Channel::default(), now, wanted, &mut count);
    count.count
}

/// How many messages `bring` writes, on any channel. It writes none.
pub fn bring_length(now: &ChannelState, wanted: &ChannelState) -> u16
    ensures length { HasLength (state_of now.now) (state_of wanted.now) result }
    ensures most { result ≤ 391 }
{
    now.well_formed();
    wanted.well_formed();
    messages_are_few();
    count_up_to(now, wanted, MOST)
}

/// The same where it is at most the bound; None exactly where it is more. It stops as soon as the bound is
/// passed.
pub fn bring_length_within(now: &ChannelState, wanted: &ChannelState, bound: u16) -> Option<u16>
    ensures some { IfSome result (HasLength (state_of now.now) (state_of wanted.now)) }
    ensures within { IfSome result (λ n. n ≤ bound) }
    ensures none { IfNone result (IsLonger (state_of now.now) (state_of wanted.now) bound) }
{
    if bound >= MOST {
        return Some(bring_length(now, wanted));
    }
    messages_are_few();
    let length = count_up_to(now, wanted, bound);
    if length > bound { None } else { Some(length) }
}
