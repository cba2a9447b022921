ghost use Rattle.std.specs.Prelude.{◌≡◌, ◌<◌, ◌≤◌, length};
ghost use Rattle.replay.specs.Sinks.{Puts};
ghost use Rattle.replay.specs.Tables.{message_of, differences};

use crate::sink::Sink;
use mt_base::{Channel, Msg};
use tab::Tab;

/// What a table of a channel's state holds.
#[derive(Clone, Copy)]
pub(crate) enum Kind {
    Controllers,
    KeyPressures,
}

/// The message that sets a place of the table.
fn message(kind: Kind, channel: Channel, place: usize, value: u8) -> Msg
    requires { place < 256 }
    ensures { result ≡ message_of kind channel place value }
{
    match kind {
        Kind::Controllers => Msg::Control {
            channel,
            number: place as u8,
            value,
        },
        Kind::KeyPressures => Msg::KeyPressure {
            channel,
            key: place as u8,
            value,
        },
    }
}

/// A message for each place at which two tables differ, in order. It looks only at places that aren't at
/// their defaults in one of the two.
pub(crate) fn put_differences<S: Sink, const N: usize>(
    kind: Kind,
    channel: Channel,
    now: &Tab<N>,
    wanted: &Tab<N>,
    out: &mut S,
)
    requires small { N ≤ 128 }
    requires defaults { now.now.defaults ≡ wanted.now.defaults }
    requires size { length now.now.items ≡ N }
    requires same_size { length wanted.now.items ≡ N }
    ensures { Puts S.holds out.old out.new (differences kind channel now.now.items wanted.now.items) }
{
    let mut from = 0;
    while let Some(place) = now.next_difference(wanted, from) {
        if out.is_done() {
            return;
        }
        out.put(message(kind, channel, place, wanted.get(place)));
        from = place + 1;
    }
}
