ghost use Rattle.std.specs.Prelude.{◌≡◌, ◌<◌, ◌++◌, [], ◌∷◌, List};
ghost use Rattle.mt_base.specs.Midi.{MidiEvent, view, view_what};
ghost use Rattle.retune_model.specs.Ports.{named_port, port_of, ports_from, all_zero};
ghost use Rattle.retune_model.specs.SourceFaults.{is_message, changes_port};
ghost use Rattle.lifetimes.specs.Tracks.{TracksStand};

use mt_base::{Event, What};

/// The ports of the tracks so far (`FF 21 01 pp` names one).
#[derive(Drop)]
pub struct Tracks {
    ports: [u8; 1024],
    /// Which tracks have had a channel message or named a port.
    started: [bool; 1024],
}

/// The port that an event names.
fn named_port(what: &What<'_>) -> Option<u8>
    ensures { result ≡ named_port (view_what what.now) }
{
    match *what {
        What::Meta {
            kind: 0x21,
            bytes: [port],
        } => Some(*port),
        What::Meta { .. } | What::Message(_) | What::Sysex { .. } => None,
    }
}

/// Whether an event is a channel message.
pub(crate) fn is_message(what: &What<'_>) -> bool
    ensures { result ≡ is_message (view_what what.now) }
{
    match *what {
        What::Message(_) => true,
        What::Sysex { .. } | What::Meta { .. } => false,
    }
}

impl Tracks {
    /// Before any event all tracks are on port 0.
    pub fn new() -> Tracks
        ensures { TracksStand result [] }
    {
        Tracks {
            ports: [0; 1024],
            started: [false; 1024],
        }
    }

    /// The port of a track so far.
    pub fn port(&self, track: u16) -> u8
        requires { track < 1024 }
        ensures { (es : List MidiEvent) → TracksStand self.now es
            → result ≡ ports_from all_zero es track }
    {
        self.ports[track as usize]
    }

    /// The port of the next event.
    pub fn port_of(&self, event: &Event<'_>) -> u8
        requires { event.now.track < 1024 }
        ensures { (es : List MidiEvent) → TracksStand self.now es
            → result ≡ port_of (ports_from all_zero es) (view event.now) }
    {
        match named_port(&event.what) {
            Some(port) => port,
            None => self.ports[event.track as usize],
        }
    }

    /// Whether the next event names another port than its track's, behind a channel message or a
    /// name of a port.
    pub fn changes(&self, event: &Event<'_>) -> bool
        requires { event.now.track < 1024 }
        ensures { (es : List MidiEvent) → TracksStand self.now es
            → result ≡ changes_port es (view event.now) }
    {
        let track = event.track as usize;
        match named_port(&event.what) {
            Some(port) => port != self.ports[track] && self.started[track],
            None => false,
        }
    }

    /// Takes the next event.
    pub fn take(&mut self, event: &Event<'_>)
        requires { event.now.track < 1024 }
        ensures { (es : List MidiEvent) → TracksStand self.old es
            → TracksStand self.new (es ++ view event.now ∷ []) }
    {
        let track = event.track as usize;
        match named_port(&event.what) {
            Some(port) => {
                self.ports[track] = port;
                self.started[track] = true;
            }
            None => {
                if is_message(&event.what) {
                    self.started[track] = true;
                }
            }
        }
    }
}
