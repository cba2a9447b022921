ghost use Rattle.std.specs.Prelude.{◌≡◌, ◌<◌, ◌≤◌, ◌+◌, ◌++◌, length, false};
ghost use Rattle.midi_model.specs.TuningBytes.{select_of, dump_bytes, IsTuningValue};
ghost use Rattle.retune_model.specs.Dump.{tuning_if, tuning_at, values_from};
ghost use Rattle.lifetimes.specs.Views.{route_of};
ghost use Rattle.lifetimes.specs.Stands.{asked, table_in};
ghost use Rattle.routes.specs.Routed.{dump_of, is_live};
ghost use Rattle.receiver.specs.Notes.{has};
ghost use Rattle.routes.specs.Device.{channels_in, selection_if, selections};

use arrayvec::ArrayVec;
use key_pitch::{Aim, Aims};
use lifetimes::{Parts, Route};
use mt_base::{Channel, Msg};
use mts_msg::{dump, select};

/// What a device is told.
#[derive(Drop)]
pub(crate) struct Device {
    /// Whether it is told key by key.
    pub live: bool,
    /// The bytes of a dump of all keys' targets after F0; on live none.
    pub dump: ArrayVec<u8, 407>,
    /// The tuning program.
    pub program: u8,
}

/// The target of a key, by a table that holds throughout.
fn target<T: Aims>(table: &T, key: u8) -> Option<u32>
    requires { key ≤ 127 }
    ensures value { result ≡ tuning_if (T.table table.now key 0) }
    ensures fits { IsTuningValue result }
{
    match table.mts_aim(key, 0) {
        Aim::Mts { value } => Some(value),
        Aim::Unmapped | Aim::OutOfDevice | Aim::Bend { .. } => None,
    }
}

/// The dump of all keys' targets.
fn dump_targets<T: Aims>(table: &T, program: u8) -> ArrayVec<u8, 407>
    requires { program ≤ 127 }
    ensures { result.items
        ≡ dump_bytes program (values_from (tuning_at (T.table table.now)) 0 128) }
{
    let mut targets = [None; 128];
    for key in 0..128u8 {
        targets[key as usize] = target(table, key);
    }
    dump(program, &targets)
}

/// Whether a route tells a device key by key.
fn is_live(route: Route) -> bool
    ensures { result ≡ is_live (route_of route) }
{
    match route {
        Route::Live => true,
        Route::Dump | Route::Bend | Route::Mpe => false,
    }
}

/// What a device is told for some parts.
pub(crate) fn device_for<T: Aims>(parts: &Parts<T>) -> Device
    requires { (asked parts.now).program ≤ 127 }
    ensures live { result.live ≡ is_live (asked parts.now).route }
    ensures dump { result.live ≡ false
        → result.dump.items ≡ dump_of (asked parts.now) (T.table (table_in parts.now)) }
    ensures program { result.program ≡ (asked parts.now).program }
{
    let options = parts.options();
    let live = is_live(options.route);
    let dump = if live {
        ArrayVec::new()
    } else {
        dump_targets(parts.table(), options.program)
    };
    Device {
        live,
        dump,
        program: options.program,
    }
}

/// Appends the selection of a program on a channel.
fn push_selection(out: &mut ArrayVec<Msg, 80>, channel: Channel, program: u8)
    requires program { program ≤ 127 }
    requires room { length out.old.items + 5 ≤ 80 }
    ensures { out.new.items ≡ out.old.items ++ select_of channel program }
{
    let messages = select(channel, program);
    match out.try_extend_from_slice(messages.as_slice()) {
        Ok(()) => {}
        Err(_) => unreachable!(),
    }
}

/// Appends the selection of a program on a channel, 0 to 15, where a mask has the channel.
fn push_selection_if(out: &mut ArrayVec<Msg, 80>, channels: u16, number: u8, program: u8)
    requires number { number < 16 }
    requires program { program ≤ 127 }
    requires room { length out.old.items + 5 ≤ 80 }
    ensures { out.new.items
        ≡ out.old.items ++ selection_if (has channels number) number program }
{
    if channels & (1 << number) != 0 {
        push_selection(out, Channel::at(number), program);
    }
}

/// The selections of a program on the channels of a mask.
pub(crate) fn selections(channels: u16, program: u8) -> ArrayVec<Msg, 80>
    requires { program ≤ 127 }
    ensures { result.items ≡ selections program (channels_in channels) }
{
    let mut out = ArrayVec::new();
    for number in 0..16u8 {
        push_selection_if(&mut out, channels, number, program);
    }
    out
}
