ghost use Rattle.std.specs.Prelude.{◌≡◌, ◌≤◌, ℕ, List, [], length, IsTrue};
ghost use Rattle.midi_model.specs.Bring.{choose_parameter, bring_parameter, bring_each, closed};
ghost use Rattle.receiver.specs.Params.{parameter_of, entry_of, entries_of};
ghost use Rattle.receiver.specs.State.{own_of, state_of};
ghost use Rattle.state_laws.specs.Reached.{changed};
ghost use Rattle.replay.specs.Sinks.{Puts};

use crate::sink::{Sink, put_controllers, put_controllers_that_differ};
use arrayvec::ArrayVec;
use mt_base::{Channel, Msg};
use receiver::{ChannelState, Param};

const DATA_ENTRY_MSB: u8 = 6;

const DATA_ENTRY_LSB: u8 = 38;

const NRPN_LSB: u8 = 98;

const NRPN_MSB: u8 = 99;

const RPN_LSB: u8 = 100;

const RPN_MSB: u8 = 101;

/// The byte that, as both bytes of a number, names no parameter.
const NULL: u8 = 127;

/// True only where no parameter differs: none but the four that have their own places is away from its
/// default, and these four are equal. So it is nearly always, and is seen without a list.
fn has_params_of(now: &ChannelState, wanted: &ChannelState) -> bool
    ensures { IsTrue result → changed (state_of now.now) (state_of wanted.now) ≡ [] }
{
    now.well_formed();
    wanted.well_formed();
    if now.others.len() + wanted.others.len() > 0 {
        return false;
    }
    now.fixed == wanted.fixed
}

/// The parameters that differ, with their wanted values: first those that are wanted at their defaults,
/// then the others, each group in the order of numbers.
fn changes(now: &ChannelState, wanted: &ChannelState) -> ArrayVec<Param, 40>
    ensures { entries_of result.items ≡ changed (state_of now.now) (state_of wanted.now) }
{
    let mut changes = ArrayVec::new();
    let away = now.params();
    for param in away.as_slice() {
        let start = param.default_value();
        let value = wanted.value(param.registered, param.high, param.low);
        if value.0 == start.0 && value.1 == start.1 {
            changes.push(Param {
                registered: param.registered,
                high: param.high,
                low: param.low,
                value: start,
            });
        }
    }
    let asked = wanted.params();
    for param in asked.as_slice() {
        let value = now.value(param.registered, param.high, param.low);
        if value.0 != param.value.0 || value.1 != param.value.1 {
            changes.push(*param);
        }
    }
    changes
}

/// Selects a parameter by its number.
fn select<S: Sink>(channel: Channel, param: &Param, out: &mut S)
    ensures { Puts S.holds out.old out.new (choose_parameter channel (parameter_of param.now)) }
{
    if param.registered {
        put_controllers!(out, channel, RPN_MSB => param.high, RPN_LSB => param.low);
    } else {
        put_controllers!(out, channel, NRPN_MSB => param.high, NRPN_LSB => param.low);
    }
}

/// Sets a parameter from one value to another: its number, and the bytes that differ.
fn put_parameter<S: Sink>(channel: Channel, now: (u8, u8), param: &Param, out: &mut S)
    ensures { Puts S.holds out.old out.new (bring_parameter channel now (entry_of param.now)) }
{
    select(channel, param, out);
    put_controllers_that_differ!(out, channel,
        DATA_ENTRY_MSB => now.0, param.value.0;
        DATA_ENTRY_LSB => now.1, param.value.1);
}

/// Sets parameters, one after another.
fn put_each<S: Sink>(channel: Channel, now: &ChannelState, changes: &[Param], out: &mut S)
    ensures { Puts S.holds out.old out.new
        (bring_each channel (own_of now.now).params (entries_of changes.now)) }
{
    for param in changes {
        if out.is_done() {
            return;
        }
        let value = now.value(param.registered, param.high, param.low);
        put_parameter(channel, value, param, out);
    }
}

/// Sets the parameters that differ. Where there were any, nothing is selected then.
pub(crate) fn put_params<S: Sink>(
    channel: Channel,
    now: &ChannelState,
    wanted: &ChannelState,
    out: &mut S,
)
    ensures { Puts S.holds out.old out.new
        (closed channel
        (bring_each channel (own_of now.now).params
        (changed (state_of now.now) (state_of wanted.now)))) }
{
    if has_params_of(now, wanted) {
        return;
    }
    let changes = changes(now, wanted);
    put_each(channel, now, changes.as_slice(), out);
    if !changes.is_empty() {
        put_controllers!(out, channel, RPN_MSB => NULL, RPN_LSB => NULL);
    }
}
