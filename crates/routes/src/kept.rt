ghost use Rattle.std.specs.Prelude.{◌≡◌, ◌<◌, ◌≤◌, Option, IfSome};
ghost use Rattle.mt_base.specs.Midi.{view_what};
ghost use Rattle.midi_model.specs.Sysex.{doing};
ghost use Rattle.retune_model.specs.SourceFaults.{is_message};
ghost use Rattle.retune_model.specs.PortOutput.{kept_for};
ghost use Rattle.retune_model.specs.Routes.{Live, live_next, nothing_told};
ghost use Rattle.routes.specs.Device.{resets_all};
ghost use Rattle.routes.specs.Kept.{told_in, key_begun};

use mt_base::What;
use mts_msg::is_reset;

/// What is kept in mind of each port.
#[derive(Drop)]
pub(crate) struct Kept {
    /// Whether a channel message came.
    begun: [bool; 256],
    /// The keys of which a change was sent since the last reset: bit k stands for key k.
    keys: [u128; 256],
}

/// Whether an event is a channel message.
pub fn is_message(what: &What<'_>) -> bool
    ensures { result ≡ is_message (view_what what.now) }
{
    match *what {
        What::Message(_) => true,
        What::Sysex { .. } | What::Meta { .. } => false,
    }
}

/// Whether an event is a reset.
pub fn resets(what: &What<'_>) -> bool
    ensures { result ≡ resets_all (view_what what.now) }
{
    match what {
        What::Sysex { lead, bytes } => *lead == 0xf0 && is_reset(bytes),
        What::Message(_) | What::Meta { .. } => false,
    }
}

impl Kept {
    /// Before any event.
    pub fn new() -> Kept
        ensures { told_in result ≡ (λ z. nothing_told) }
    {
        Kept {
            begun: [false; 256],
            keys: [0; 256],
        }
    }

    /// Whether a channel message of a port came.
    pub fn begun(&self, port: u8) -> bool
        ensures { result ≡ (told_in self.now port).begun }
    {
        self.begun[port as usize]
    }

    /// Whether a change of a key was sent to a port since its last reset.
    pub fn is_told(&self, port: u8, key: u8) -> bool
        requires { key ≤ 127 }
        ensures { result ≡ (told_in self.now port).keys key }
    {
        self.keys[port as usize] & (1 << key) != 0
    }

    /// With an event of a port more; on live with the key of the retuned note that it begins.
    pub fn take(&mut self, port: u8, what: &What<'_>, key: Option<u8>)
        requires { IfSome key (λ k. k < 128) }
        ensures { (l : Live) → key ≡ key_begun l.is_retuned (view_what what.now)
            → told_in self.new ≡ kept_for port
            (live_next l (told_in self.old port) (doing (view_what what.now)))
            (told_in self.old) }
    {
        let place = port as usize;
        if is_message(what) {
            self.begun[place] = true;
            if let Some(key) = key {
                self.keys[place] |= 1 << key;
            }
        } else if resets(what) {
            self.keys[place] = 0;
        }
    }
}
