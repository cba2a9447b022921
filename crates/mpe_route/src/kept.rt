ghost use Rattle.std.specs.Prelude.{◌≡◌, ◌<◌, ℕ, false};
ghost use Rattle.mt_base.specs.Midi.{view_what};
ghost use Rattle.midi_model.specs.Sysex.{doing};
ghost use Rattle.retune_model.specs.PortOutput.{kept_for};
ghost use Rattle.retune_model.specs.Routes.{dump_next};
ghost use Rattle.routes.specs.Device.{resets_all};
ghost use Rattle.mpe_route.specs.Kept.{begun_in, bend_in, with_bend, without_bends, reset_if};

use mt_base::{Channel, What};
use routes::{is_message, resets};

/// What is kept in mind of each port.
#[derive(Drop)]
pub(crate) struct Kept {
    /// Whether a channel message came.
    begun: [bool; 256],
    /// The bends that were sent to the members of its zones, at the port's place times 16 and the channel.
    bends: [u16; 4096],
}

impl Kept {
    /// Before any event.
    pub fn new() -> Kept
        ensures begun { begun_in result ≡ (λ z. false) }
        ensures bends { (z d : ℕ) → z < 256 → d < 16 → bend_in result z d ≡ 8192 }
    {
        Kept {
            begun: [false; 256],
            bends: [8192; 4096],
        }
    }

    /// Whether a channel message of a port came.
    pub fn begun(&self, port: u8) -> bool
        ensures { result ≡ begun_in self.now port }
    {
        self.begun[port as usize]
    }

    /// The bend that a member has.
    pub fn bend(&self, port: u8, channel: Channel) -> u16
        ensures { result ≡ bend_in self.now port channel }
    {
        self.bends[port as usize * 16 + channel.number() as usize]
    }

    /// A member gets a bend.
    pub fn set_bend(&mut self, port: u8, channel: Channel, bend: u16)
        ensures bends { (z d : ℕ) → z < 256 → d < 16
            → bend_in self.new z d ≡ with_bend port channel bend (bend_in self.old) z d }
        ensures begun { begun_in self.new ≡ begun_in self.old }
    {
        self.bends[port as usize * 16 + channel.number() as usize] = bend;
    }

    /// No member of a port is bent any more.
    fn unbend(&mut self, port: u8)
        ensures bends { (z d : ℕ) → z < 256 → d < 16
            → bend_in self.new z d ≡ without_bends port (bend_in self.old) z d }
        ensures begun { begun_in self.new ≡ begun_in self.old }
    {
        for number in 0..16u8 {
            self.set_bend(port, Channel::at(number), 8192);
        }
    }

    /// With an event of a port more.
    pub fn take(&mut self, port: u8, what: &What<'_>)
        ensures begun { begun_in self.new ≡ kept_for port
            (dump_next (begun_in self.old port) (doing (view_what what.now))) (begun_in self.old) }
        ensures bends { (z d : ℕ) → z < 256 → d < 16
            → bend_in self.new z d
            ≡ reset_if port (resets_all (view_what what.now)) (bend_in self.old) z d }
    {
        if is_message(what) {
            self.begun[port as usize] = true;
        } else if resets(what) {
            self.unbend(port);
        }
    }
}
