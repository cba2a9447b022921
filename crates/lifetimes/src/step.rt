ghost use Rattle.std.specs.Prelude.{replicate, ◌≡◌, ◌≤◌, ◌<◌, ◌++◌, [], ◌∷◌, ℕ, suc, length, not, true, List, Some, None, OnOk, OnErr, IfOk, IfErr, IfSome, IfNone};
ghost use Rattle.mt_base.specs.Midi.{MidiEvent, MidiWhat, Says, channel_of, view, view_what};
ghost use Rattle.mt_base.specs.Valid.{IsValidEvent, IsValidMsg};
ghost use Rattle.retune_model.specs.Ports.{port_at};
ghost use Rattle.retune_model.specs.Faults.{Targets, is_part};
ghost use Rattle.lifetimes.specs.Views.{options_of};
ghost use Rattle.lifetimes.specs.Told.{told_kind, due_kind, strike_of, begun_of};
ghost use Rattle.lifetimes.specs.Steps.{IsUnheard};
ghost use Rattle.retune_model.specs.SourceFaults.{breaks_ports, fault_at, is_message};

use crate::change::{Begun, Change};
use crate::fault::{SourceFault, SourceKind, StepFault};
use crate::notes::sounding_of;
use crate::options::Options;
use crate::parts::Parts;
use crate::port::{Port, Strike};
use crate::source::Source;
use crate::tracks::is_message;
use key_pitch::Aims;
use midi_model::{music_laws, receiver_laws};
use mt_base::{Event, Memory, Msg, Pair, Part, What};
use mts_msg::is_tuning;
use receiver::Ends;
use retune_model::{drums_stand_apart, last_ends, position_laws, rests_as_written, sound_sources};
use std::alloc::Global;

/// What is wrong with a message to a retuned part of a fifth port, on which nothing has played.
// A port stands on its stack: a caller into which it were inlined would pay for that at each event.
#[inline(never)]
fn fifth_fault(
    alloc: Global,
    options: &Options,
    tick: u32,
    message: &Msg,
    strike: &Option<Strike>,
) -> SourceKind
    requires range_some { 1 ≤ options.now.range }
    requires range_high { options.now.range ≤ 96 }
    requires valid { IsValidMsg message.now }
    requires key { IfSome strike.now (λ s. s.key < 128) }
    ensures { (table : Targets) (es : List MidiEvent) (e : MidiEvent) (z : ℕ)
        → IsUnheard (options_of options.now) table es e z
        → e.what ≡ Says message.now → e.tick ≡ tick
        → is_part (options_of options.now) (channel_of message.now) ≡ true
        → strike.now ≡ strike_of (options_of options.now) table tick (Says message.now)
        → told_kind (Some result) ≡ due_kind (options_of options.now) table true
        (port_at (es ++ e ∷ []) z) (length es) e }
{
    position_laws();
    sound_sources();
    match Port::new(alloc).early_fault(options, tick, message, strike) {
        Some(kind) => kind,
        None => SourceKind::Port,
    }
}

// One event.
impl Source {
    ghost use Rattle.lifetimes.specs.Told.{TellsEnds};
    ghost use Rattle.std.specs.List.{AllByRecursion};
    ghost use Rattle.receiver.specs.Stands.{HasRoom};
    ghost use Rattle.lifetimes.specs.Port.{is_reset_of, HasPlace};
    ghost use Rattle.lifetimes.specs.Stands.{SourceStands, place_of, port_in};
    ghost use Rattle.lifetimes.specs.Steps.{ComesNext, CanTake, HasPlaceIn, is_heard, Opens, Counts, AreFewer, Hears};

    /// What is wrong with a channel message of a port.
    fn message_fault(
        &self,
        port: u8,
        event: &Event<'_>,
        message: &Msg,
        strike: &Option<Strike>,
    ) -> Option<SourceKind>
        requires valid { IsValidEvent (view event.now) }
        requires message { (view event.now).what ≡ Says message.now }
        requires key { IfSome strike.now (λ s. s.key < 128) }
        ensures fault { (table : Targets) (es : List MidiEvent)
            → ComesNext table self.now es (view event.now) port strike.now
            → told_kind result ≡ due_kind (options_of self.now.options) table
            (breaks_ports es (view event.now)) (port_at (es ++ view event.now ∷ []) port)
            (length es) (view event.now) }
        ensures can { IfNone result (CanTake self.now port (view event.now).what) }
    {
        position_laws();
        sound_sources();
        let place = self.place(port);
        if !self.options.retunes(message.channel()) {
            return if place < 4 {
                None
            } else {
                Some(SourceKind::Port)
            };
        }
        if place < 4 {
            self.ports[place].fault(&self.options, event.tick, &event.what, message, strike)
        } else {
            Some(fifth_fault(self.alloc, &self.options, event.tick, message, strike))
        }
    }

    /// The least kind that holds at an event of a port.
    fn fault(&self, port: u8, event: &Event<'_>, strike: &Option<Strike>) -> Option<SourceKind>
        requires valid { IsValidEvent (view event.now) }
        requires track { event.now.track < 1024 }
        requires key { IfSome strike.now (λ s. s.key < 128) }
        ensures fault { (table : Targets) (es : List MidiEvent)
            → ComesNext table self.now es (view event.now) port strike.now
            → told_kind result ≡ due_kind (options_of self.now.options) table
            (breaks_ports es (view event.now)) (port_at (es ++ view event.now ∷ []) port)
            (length es) (view event.now) }
        ensures can { IfNone result (CanTake self.now port (view event.now).what) }
    {
        match event.what {
            What::Message(ref message) => self.message_fault(port, event, message, strike),
            What::Sysex { lead: 0xf0, bytes } if is_tuning(bytes) => {
                Some(SourceKind::TuningInSource)
            }
            What::Meta { .. } if self.tracks.changes(event) => Some(SourceKind::Port),
            What::Sysex { .. } | What::Meta { .. } => None,
        }
    }

    /// Makes room for the rest of a note that will begin.
    fn admit(&mut self, port: u8, strike: &Option<Strike>) -> Result<(), Memory>
        ensures stands { (table : Targets) (es : List MidiEvent) → SourceStands table self.old es
            → SourceStands table self.new es }
        ensures can { (what : MidiWhat) → CanTake self.old port what → CanTake self.new port what }
        ensures place { OnOk result (HasPlaceIn self.new port strike.now) }
        ensures position { self.new.position ≡ self.old.position }
        ensures tick { self.new.tick ≡ self.old.tick }
        ensures options { self.new.options ≡ self.old.options }
        ensures memory { OnErr result (0 < self.old.options.tail) }
    {
        let place = self.place(port);
        if let Some(strike) = strike {
            if self.options.tail > 0 && place < 4 {
                self.ports[place].admit(strike)?;
            }
        }
        Ok(())
    }

    /// The place of the port of an event, which a first channel message opens.
    fn open(&mut self, port: u8, what: &What<'_>) -> usize
        requires { is_message (view_what what.now) ≡ true → place_of self.old port < 4 }
        ensures place { result ≡ place_of self.old port }
        ensures bound { result ≤ self.old.used }
        ensures opens { Opens port (view_what what.now) self.old self.new }
    {
        let place = self.place(port);
        if place == self.used && place < 4 && is_message(what) {
            self.ports[place].number = port;
            self.used += 1;
        }
        place
    }

    /// Whether an event is a message to channel 10 where drums are kept.
    fn is_kept_drum(&self, what: &What<'_>) -> bool
        ensures { result ≡ not (is_heard self.now.options (view_what what.now)) }
    {
        match *what {
            What::Message(ref message) => !self.options.retunes(message.channel()),
            What::Sysex { .. } | What::Meta { .. } => false,
        }
    }

    /// Counts an event, and the note that it begins.
    fn count(&mut self, event: &Event<'_>, strike: &Option<Strike>)
        requires track { event.now.track < 1024 }
        requires next { self.old.position < 4294967295 }
        ensures counts { Counts (view event.now) strike.now self.old self.new }
        ensures fewer { AreFewer self.new }
    {
        self.tracks.take(event);
        self.position += 1;
        self.tick = event.tick;
        if strike.is_some() {
            self.begun += 1;
        }
    }

    /// The port at a place takes an event, where there is one that hears it, and sets the bits of the
    /// notes that ended by it; no bit is set before.
    fn hear(&mut self, place: usize, event: &Event<'_>, strike: &Option<Strike>, ends: &mut Ends)
        requires valid { IsValidEvent (view event.now) }
        requires key { IfSome strike.now (λ s. s.key < 128) }
        requires alone { is_reset_of (view event.now).what ≡ true → strike.now ≡ None }
        requires fewer { AreFewer self.old }
        requires next { 0 < self.old.position }
        requires room { is_heard self.old.options (view event.now).what ≡ true
            → AllByRecursion (λ p. HasRoom p.player (view event.now).what) (port_in self.old place) }
        requires place { AllByRecursion (λ p. HasPlace self.old.options.tail p strike.now)
            (port_in self.old place) }
        requires clear { ends.old.keys ≡ replicate 16 0 }
        ensures hears { Hears place (view event.now) strike.now ends.new self.old self.new }
    {
        if place < self.used && !self.is_kept_drum(&event.what) {
            let tail = self.options.tail;
            let note = self.begun;
            self.ports[place].step(event.tick, &event.what, tail, strike, note, ends);
        }
    }

    /// Takes an event without a fault, and sets the bits of the notes that ended by it; no bit is set
    /// before.
    fn take(&mut self, port: u8, event: &Event<'_>, strike: &Option<Strike>, ends: &mut Ends)
        requires valid { IsValidEvent (view event.now) }
        requires track { event.now.track < 1024 }
        requires key { IfSome strike.now (λ s. s.key < 128) }
        requires alone { is_reset_of (view event.now).what ≡ true → strike.now ≡ None }
        requires next { self.old.position < 4294967295 }
        requires can { CanTake self.old port (view event.now).what }
        requires place { HasPlaceIn self.old port strike.now }
        requires clear { ends.old.keys ≡ replicate 16 0 }
        ensures stands { (table : Targets) (es : List MidiEvent)
            → ComesNext table self.old es (view event.now) port strike.now
            → fault_at (options_of self.old.options) table (es ++ view event.now ∷ []) (length es)
            ≡ None → SourceStands table self.new (es ++ view event.now ∷ []) }
        ensures ended { (table : Targets) (es : List MidiEvent)
            → ComesNext table self.old es (view event.now) port strike.now
            → fault_at (options_of self.old.options) table (es ++ view event.now ∷ []) (length es)
            ≡ None → TellsEnds (options_of self.old.options) es (view event.now) ends.new }
        ensures position { self.new.position ≡ suc self.old.position }
        ensures tick { self.new.tick ≡ event.now.tick }
        ensures options { self.new.options ≡ self.old.options }
    {
        music_laws();
        receiver_laws();
        drums_stand_apart();
        position_laws();
        rests_as_written();
        last_ends();
        sound_sources();
        let place = self.open(port, &event.what);
        self.count(event, strike);
        self.hear(place, event, strike, ends);
    }
}

/// What is told of a note that begins on a port, by its place among all retuned notes.
fn begun_by(port: u8, note: u32, strike: &Option<Strike>) -> Option<Begun>
    ensures { result ≡ begun_of port note strike.now }
{
    match *strike {
        Some(strike) => Some(Begun {
            note,
            pair: Pair {
                part: Part {
                    port,
                    channel: strike.channel,
                },
                steps: sounding_of(strike.key, strike.target).steps,
            },
            key: strike.key,
            target: strike.target,
        }),
        None => None,
    }
}

impl<T: Aims> Parts<T> {
    ghost use Rattle.lifetimes.specs.Stands.{Stands, asked, table_in, position_of, tick_of};
    ghost use Rattle.lifetimes.specs.Told.{TellsChange, told_fault, IsCaused};

    /// Takes an event of any track, and tells which retuned note began and which ended by it. The
    /// event's position is one more than at the last step, 1 at first, and its tick at least that of
    /// the last step; its track is below 1,024. A source fault comes exactly where the condition of
    /// a kind holds at the event, the least kind first. Where the tail is above 0 memory may be
    /// wanting. An Err leaves the parts unchanged.
    pub fn step(&mut self, position: u32, event: &Event<'_>) -> Result<Change, StepFault>
        requires valid { IsValidEvent (view event.now) }
        requires track { event.now.track < 1024 }
        requires next { position ≡ suc (position_of self.old) }
        requires order { tick_of self.old ≤ event.now.tick }
        ensures fault { (es : List MidiEvent) → Stands (T.table (table_in self.old)) self.old es
            → told_fault result ≡ fault_at (asked self.old) (T.table (table_in self.old))
            (es ++ view event.now ∷ []) (length es) }
        ensures change { (es : List MidiEvent) → Stands (T.table (table_in self.old)) self.old es
            → IfOk result (λ c. TellsChange (asked self.old) (T.table (table_in self.old)) es
            (view event.now) c) }
        ensures stands { (es : List MidiEvent) → Stands (T.table (table_in self.old)) self.old es
            → OnOk result (Stands (T.table (table_in self.new)) self.new
            (es ++ view event.now ∷ [])) }
        ensures unchanged { (es : List MidiEvent) → Stands (T.table (table_in self.old)) self.old es
            → OnErr result (Stands (T.table (table_in self.new)) self.new es) }
        ensures memory { IfErr result (λ f. IsCaused (asked self.old).tail f) }
        ensures position { OnOk result (position_of self.new ≡ position) }
        ensures tick { OnOk result (tick_of self.new ≡ event.now.tick) }
        ensures same_position { OnErr result (position_of self.new ≡ position_of self.old) }
        ensures same_tick { OnErr result (tick_of self.new ≡ tick_of self.old) }
        ensures table { table_in self.new ≡ table_in self.old }
        ensures options { asked self.new ≡ asked self.old }
    {
        let port = self.source.tracks.port_of(event);
        let strike = self.strike(event);
        if let Some(kind) = self.source.fault(port, event, &strike) {
            return Err(StepFault::Source(SourceFault {
                position,
                tick: event.tick,
                track: event.track,
                kind,
            }));
        }
        self.source.admit(port, &strike)?;
        let mut ended = Ends { keys: [0; 16] };
        self.source.take(port, event, &strike, &mut ended);
        let begun = begun_by(port, self.source.begun, &strike);
        Ok(Change { begun, ended, port })
    }
}
