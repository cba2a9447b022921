ghost use Rattle.std.specs.Prelude.{◌≡◌, ◌≤◌, ◌<◌, Some, if◌then◌else◌};
ghost use Rattle.midi_model.specs.Zones.{left_beside};

use mt_base::Channel;

/// The two zones of MIDI Polyphonic Expression: how many members each has, 0 where it is off. The
/// lower one's master is the first channel, with members upward; the upper one's is the last, with
/// members downward.
#[derive(Clone, Copy, Debug)]
pub(crate) struct ZoneSizes {
    pub lower: u8,
    pub upper: u8,
}

impl ZoneSizes {
    ghost use Rattle.midi_model.specs.Zones.{master, governor, zones_with};
    ghost use Rattle.receiver.specs.Zones.{zones_in};

    /// The master of the zone of which the channel is a member.
    pub fn master(&self, channel: Channel) -> Option<Channel>
        ensures { result ≡ master (zones_in self.now) channel }
    {
        let number = channel.number();
        if number >= 1 && number <= self.lower {
            Channel::new(0)
        } else if number < 15 && number as u16 + self.upper as u16 >= 15 {
            Channel::new(15)
        } else {
            None
        }
    }

    /// The channel whose voice, controllers, pedals and tuning the channel's notes have.
    pub fn governor(&self, channel: Channel) -> u8
        ensures value { result ≡ governor (zones_in self.now) channel }
        ensures bound { result < 16 }
    {
        match self.master(channel) {
            Some(master) => master.number(),
            None => channel.number(),
        }
    }

    /// One zone gets so many members; the other goes off where the two would share a channel.
    pub fn set(&mut self, is_lower: bool, members: u8)
        requires { members ≤ 15 }
        ensures { zones_in self.new
            ≡ zones_with (Some (if◌then◌else◌ is_lower 0 15, members)) (zones_in self.old) }
    {
        if is_lower {
            self.lower = members;
            self.upper = beside(members, self.upper);
        } else {
            self.lower = beside(members, self.lower);
            self.upper = members;
        }
    }
}

fn beside(members: u8, other: u8) -> u8
    requires { members ≤ 15 }
    ensures { result ≡ left_beside members other }
{
    if members == 0 || members as u16 + (other as u16) < 15 {
        other
    } else {
        0
    }
}
