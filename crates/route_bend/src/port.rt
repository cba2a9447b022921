ghost use Rattle.std.specs.Prelude.{◌≡◌, ◌≤◌, ◌++◌, ℕ, suc, Bool, List, [], true, false, take, OnOk};
ghost use Rattle.mt_base.specs.Midi.{MidiEvent, Says, channel_of};
ghost use Rattle.mt_base.specs.Valid.{IsValidMsg};
ghost use Rattle.midi_model.specs.Channel.{role};
ghost use Rattle.retune_model.specs.Options.{bends_notes};
ghost use Rattle.retune_model.specs.Faults.{is_part};
ghost use Rattle.retune_model.specs.Ports.{of_port};
ghost use Rattle.channel_model.specs.BendOutput.{note_released, pressed_note};
ghost use Rattle.bend_laws.specs.Positions.{both_at};
ghost use Rattle.lifetimes.specs.Stands.{Stands, asked, table_in};
ghost use Rattle.channel_plan.specs.declared.plan.Plan.{Plan as PlanOf};
ghost use Rattle.route_bend.specs.Standing.{IsAt, PortStands, IsPrepared, runs_by, used_by, caused, is_note};
ghost use Rattle.route_bend.specs.Channels.{Leaves};
ghost use Rattle.route_bend.specs.Preparing.{used_for, off_of, still_held};

use crate::channels::Channels;
use crate::laws::turning;
use crate::sending::Sending;
use key_pitch::{Aim, Aims};
use lifetimes::Parts;
use mt_base::{Channel, Memory, Msg, Part};

/// What a controller is for.
#[derive(Clone, Copy, Debug, PartialEq, Eq)]
pub(crate) enum Use {
    /// It acts on the notes of its channel.
    Notes,
    /// It is ignored.
    Nothing,
    /// It is part of the state of its channel.
    State,
}

/// What a controller is for, by its number.
fn use_of(number: u8) -> Use
    ensures { result ≡ used_for (role number) }
{
    if number == 96 || number == 97 {
        Use::Nothing
    } else if number <= 119 {
        Use::State
    } else if number == 120 {
        Use::Notes
    } else if number == 121 {
        Use::State
    } else if number == 123 || number == 124 || number == 127 {
        Use::Notes
    } else {
        Use::Nothing
    }
}

/// The velocity of a note off, and whether it is a note on.
#[derive(Clone, Copy, Debug)]
pub(crate) struct Off {
    pub velocity: u8,
    pub is_on: bool,
}

/// A note off for a key.
fn note_off(off: Off, channel: Channel, key: u8) -> Msg
    ensures { result ≡ off_of off channel key }
{
    if off.is_on {
        Msg::NoteOn {
            channel,
            key,
            velocity: 0,
        }
    } else {
        Msg::NoteOff {
            channel,
            key,
            velocity: off.velocity,
        }
    }
}

/// Sends a note off to the channel of the note that is pressed.
fn release<T: Aims>(
    channels: &Channels,
    out: &mut Sending,
    parts: &Parts<T>,
    part: Channel,
    key: u8,
    off: Off,
) -> Result<(), Memory>
    requires key { key ≤ 127 }
    requires bends { bends_notes (asked parts.now).route ≡ true }
    requires part { is_part (asked parts.now) part ≡ true }
    ensures { (allowed : ℕ → Bool) (es : List MidiEvent) (plan : PlanOf) (k : ℕ) (e : MidiEvent)
        → IsAt (asked parts.now) allowed (T.table (table_in parts.now)) es plan k e
        channels.now.port
        → Stands (T.table (table_in parts.now)) parts.now (take k es)
        → PortStands (asked parts.now) allowed (T.table (table_in parts.now)) es plan
        channels.now.port k channels.now
        → OnOk result (out.new.messages.items ≡ out.old.messages.items ++ note_released
        channels.now.port (asked parts.now) (T.table (table_in parts.now))
        ((runs_by (asked parts.now) allowed (T.table (table_in parts.now)) es plan
        channels.now.port).channel k) (off_of off) part
        (pressed_note part key (both_at (asked parts.now) (T.table (table_in parts.now))
        (runs_by (asked parts.now) allowed (T.table (table_in parts.now)) es plan
        channels.now.port) (of_port channels.now.port es) k).source.notes)) }
{
    turning();
    let note = Part {
        port: channels.port,
        channel: part,
    };
    let Some((begun, is_down)) = parts.sounding(note, key) else {
        return Ok(());
    };
    if !is_down {
        return Ok(());
    }
    let Aim::Bend { key: target, .. } = begun.target else {
        return Ok(());
    };
    match channels.find(part, begun.pair.steps) {
        Some(channel) => out.put(note_off(off, channel, target)),
        None => Ok(()),
    }
}

/// Before a message of a part of a port.
pub(crate) fn prepare_port<T: Aims>(
    channels: &mut Channels,
    out: &mut Sending,
    parts: &Parts<T>,
    message: &Msg,
) -> Result<(), Memory>
    requires valid { IsValidMsg message.now }
    requires bends { bends_notes (asked parts.now).route ≡ true }
    requires part { is_part (asked parts.now) (channel_of message.now) ≡ true }
    requires empty { out.old.messages.items ≡ [] }
    ensures { (allowed : ℕ → Bool) (es : List MidiEvent) (plan : PlanOf) (k : ℕ)
        (e : MidiEvent)
        → IsAt (asked parts.now) allowed (T.table (table_in parts.now)) es plan k e
        channels.old.port → e.what ≡ Says message.now
        → Stands (T.table (table_in parts.now)) parts.now (take k es)
        → PortStands (asked parts.now) allowed (T.table (table_in parts.now)) es plan
        channels.old.port k channels.old
        → OnOk result (IsPrepared (asked parts.now) (T.table (table_in parts.now))
        (used_by (asked parts.now) allowed (T.table (table_in parts.now)) es channels.old.port)
        (runs_by (asked parts.now) allowed (T.table (table_in parts.now)) es plan
        channels.old.port) (of_port channels.old.port es) k e message.now channels.new
        out.new.messages.items) }
{
    turning();
    match *message {
        Msg::NoteOn {
            channel,
            key,
            velocity,
        } => {
            if velocity > 0 {
                channels.leave(parts, channel);
                return Ok(());
            }
            let off = Off {
                velocity,
                is_on: true,
            };
            release(channels, out, parts, channel, key, off)
        }
        Msg::NoteOff {
            channel,
            key,
            velocity,
        } => {
            let off = Off {
                velocity,
                is_on: false,
            };
            release(channels, out, parts, channel, key, off)
        }
        _ => {
            let part = message.channel();
            channels.leave(parts, part);
            channels.renew(parts, part);
            Ok(())
        }
    }
}

/// After a message of a part: where runs rest, the channels of the part are let go of on which a rest ran
/// out at the event.
fn end_rests<T: Aims>(channels: &mut Channels, parts: &Parts<T>, part: Channel)
    requires bends { bends_notes (asked parts.now).route ≡ true }
    ensures { (es : List MidiEvent) → Stands (T.table (table_in parts.now)) parts.now es
        → Leaves (still_held (asked parts.now) (T.table (table_in parts.now)) es) part
        channels.old channels.new }
{
    if parts.options().tail > 0 {
        channels.leave(parts, part);
    }
}

/// After a message of a part of a port that is no note.
pub(crate) fn follow<T: Aims>(
    channels: &mut Channels,
    out: &mut Sending,
    parts: &Parts<T>,
    message: &Msg,
) -> Result<(), Memory>
    requires bends { bends_notes (asked parts.now).route ≡ true }
    requires part { is_part (asked parts.now) (channel_of message.now) ≡ true }
    requires plain { is_note message.now ≡ false }
    ensures { (allowed : ℕ → Bool) (es : List MidiEvent) (plan : PlanOf) (k : ℕ)
        (e : MidiEvent)
        → IsAt (asked parts.now) allowed (T.table (table_in parts.now)) es plan k e
        channels.old.port → e.what ≡ Says message.now
        → Stands (T.table (table_in parts.now)) parts.now (take (suc k) es)
        → IsPrepared (asked parts.now) (T.table (table_in parts.now))
        (used_by (asked parts.now) allowed (T.table (table_in parts.now)) es channels.old.port)
        (runs_by (asked parts.now) allowed (T.table (table_in parts.now)) es plan
        channels.old.port) (of_port channels.old.port es) k e message.now channels.old
        out.old.messages.items
        → OnOk result (PortStands (asked parts.now) allowed (T.table (table_in parts.now)) es plan
        channels.old.port (suc k) channels.new
        × (out.new.messages.items ≡ caused (asked parts.now) (T.table (table_in parts.now))
        (runs_by (asked parts.now) allowed (T.table (table_in parts.now)) es plan
        channels.old.port) (of_port channels.old.port es) k e message.now)) }
{
    turning();
    let part = message.channel();
    end_rests(channels, parts, part);
    if let Msg::Control { number, value, .. } = *message {
        match use_of(number) {
            Use::Notes => return channels.send(part, number, value, out),
            Use::Nothing => return Ok(()),
            Use::State => {}
        }
    }
    channels.bring(parts, part, out)
}
