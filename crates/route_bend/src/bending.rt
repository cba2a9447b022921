ghost use Rattle.std.specs.Prelude.{◌≡◌, ◌≢◌, ◌<◌, ℕ, suc, Bool, List, [], true, Some, None, take, length, OnOk, IfSome, IfNone, IfOk};
ghost use Rattle.mt_base.specs.declared.event.Msg.TheVariants.{NoteOn};
ghost use Rattle.mt_base.specs.Midi.{MidiEvent, view, Says, channel_of};
ghost use Rattle.mt_base.specs.Valid.{IsValidEvent};
ghost use Rattle.retune_model.specs.Options.{bends_notes};
ghost use Rattle.retune_model.specs.Faults.{is_part};
ghost use Rattle.plan_laws.specs.Counting.{ComesAt};
ghost use Rattle.lifetimes.specs.Stands.{Stands, asked, table_in};
ghost use Rattle.lifetimes.specs.Told.{TellsChange, port_on, begun_by, count_begun};
ghost use Rattle.channel_plan.specs.declared.plan.Plan.{Plan as PlanOf};
ghost use Rattle.route_bend.specs.declared.channels.Channels.{Channels as ChannelsOf};
ghost use Rattle.route_bend.specs.Channels.{IsFresh};
ghost use Rattle.route_bend.specs.Standing.{IsBending, AllStand, found_in};
ghost use Rattle.route_bend.specs.Preparing.{IsFoundAt, IsReady, IsTaken};

use crate::channels::Channels;
use crate::laws::turning;
use crate::port::{follow, prepare_port};
use crate::sending::Sending;
use channel_plan::Plan;
use key_pitch::{Aim, Aims};
use lifetimes::{Begun, Change, Parts};
use mt_base::{Channel, Event, Memory, Msg, Pair, Part, What};
use routes::resets;
use std::alloc::Global;

/// What is kept of the output: the channels of each port on which a run has begun, and the messages that
/// an event causes.
#[derive(Drop)]
pub(crate) struct Bending {
    pub ports: Vec<Channels>,
    pub out: Sending,
}

/// The place of a port.
fn place_of(ports: &[Channels], port: u8) -> Option<usize>
    ensures some { IfSome result (IsFoundAt ports.now port) }
    ensures none { IfNone result (found_in ports.now port ≡ None) }
{
    let mut place = 0;
    while place < ports.len() {
        if ports[place].port == port {
            return Some(place);
        }
        place += 1;
    }
    None
}

impl Bending {
    /// Before any event.
    pub fn new(alloc: Global) -> Bending
        ensures { result.ports.items ≡ [] }
    {
        Bending {
            ports: Vec::new(alloc),
            out: Sending::new(alloc),
        }
    }

    /// Before an event is taken: a note off is sent to the channel of its note; before any other message
    /// of a part the channels that its runs don't hold any more are let go of.
    pub fn prepare<T: Aims>(&mut self, parts: &Parts<T>, event: &Event<'_>) -> Result<(), Memory>
        requires valid { IsValidEvent (view event.now) }
        requires track { event.now.track < 1024 }
        requires bends { bends_notes (asked parts.now).route ≡ true }
        ensures { (allowed : ℕ → Bool) (es : List MidiEvent) (plan : PlanOf) (k : ℕ)
            → IsBending (asked parts.now) allowed (T.table (table_in parts.now)) es plan
            → ComesAt es k (view event.now) → k < length es
            → Stands (T.table (table_in parts.now)) parts.now (take k es)
            → AllStand (asked parts.now) allowed (T.table (table_in parts.now)) es plan k
            self.old.ports.items
            → OnOk result (IsReady (asked parts.now) allowed (T.table (table_in parts.now)) es plan k
            (view event.now) self.new) }
    {
        turning();
        self.out.clear();
        let What::Message(ref message) = event.what else {
            return Ok(());
        };
        if !parts.options().retunes(message.channel()) {
            return Ok(());
        }
        let port = parts.port(event.track);
        match place_of(self.ports.as_slice(), port) {
            Some(place) => prepare_port(&mut self.ports[place], &mut self.out, parts, message),
            None => Ok(()),
        }
    }

    /// After an event was taken that says a message of a part.
    fn say<T: Aims>(
        &mut self,
        parts: &Parts<T>,
        plan: &Plan,
        message: &Msg,
        change: &Change,
    ) -> Result<(), Memory>
        requires bends { bends_notes (asked parts.now).route ≡ true }
        requires part { is_part (asked parts.now) (channel_of message.now) ≡ true }
        ensures { (allowed : ℕ → Bool) (es : List MidiEvent) (k : ℕ) (e : MidiEvent)
            → IsBending (asked parts.now) allowed (T.table (table_in parts.now)) es plan.now
            → ComesAt es k e → k < length es → IsValidEvent e → e.what ≡ Says message.now
            → Stands (T.table (table_in parts.now)) parts.now (take (suc k) es)
            → TellsChange (asked parts.now) (T.table (table_in parts.now)) (take k es) e change.now
            → IsReady (asked parts.now) allowed (T.table (table_in parts.now)) es plan.now k e
            self.old
            → OnOk result (IsTaken (asked parts.now) allowed (T.table (table_in parts.now)) es
            plan.now k e self.new) }
    {
        turning();
        match *message {
            // One with velocity 0 begins none.
            Msg::NoteOn { velocity, .. } => match &change.begun {
                Some(begun) => self.begin(parts, plan, begun, message.channel(), velocity),
                None => Ok(()),
            },
            Msg::NoteOff { .. } => Ok(()),
            _ => match place_of(self.ports.as_slice(), change.port) {
                Some(place) => follow(&mut self.ports[place], &mut self.out, parts, message),
                None => Ok(()),
            },
        }
    }

    /// The channels of a port, which may be new.
    fn open(&mut self, port: u8) -> Result<usize, Memory>
        ensures out { self.new.out ≡ self.old.out }
        ensures found { IfOk result (IsFoundAt self.new.ports.items port) }
        ensures others { OnOk result ((z : ℕ) → z ≢ port
            → found_in self.new.ports.items z ≡ found_in self.old.ports.items z) }
        ensures same { OnOk result ((s : ChannelsOf) → found_in self.old.ports.items port ≡ Some s
            → found_in self.new.ports.items port ≡ Some s) }
        ensures fresh { OnOk result ((s : ChannelsOf) → found_in self.old.ports.items port ≡ None
            → found_in self.new.ports.items port ≡ Some s → (s.port ≡ port) × IsFresh s) }
    {
        if let Some(place) = place_of(self.ports.as_slice(), port) {
            return Ok(place);
        }
        let place = self.ports.len();
        match self.ports.push(Channels::new(port)) {
            Ok(()) => Ok(place),
            Err(_) => Err(Memory),
        }
    }

    /// A note of a part begins.
    fn begin<T: Aims>(
        &mut self,
        parts: &Parts<T>,
        plan: &Plan,
        begun: &Begun,
        part: Channel,
        velocity: u8,
    ) -> Result<(), Memory>
        requires bends { bends_notes (asked parts.now).route ≡ true }
        requires part { is_part (asked parts.now) part ≡ true }
        ensures { (allowed : ℕ → Bool) (es : List MidiEvent) (k : ℕ) (e : MidiEvent)
            → IsBending (asked parts.now) allowed (T.table (table_in parts.now)) es plan.now
            → ComesAt es k e → k < length es → IsValidEvent e
            → e.what ≡ Says (NoteOn part begun.now.key velocity)
            → 0 < velocity
            → Stands (T.table (table_in parts.now)) parts.now (take (suc k) es)
            → Some begun.now ≡ begun_by (asked parts.now) (T.table (table_in parts.now))
            (port_on (take k es) e) (suc (count_begun (asked parts.now) (take k es))) e.tick e.what
            → IsReady (asked parts.now) allowed (T.table (table_in parts.now)) es plan.now k e
            self.old
            → OnOk result (IsTaken (asked parts.now) allowed (T.table (table_in parts.now)) es
            plan.now k e self.new) }
    {
        turning();
        let Some(channel) = plan.channel(begun.note) else {
            return Ok(());
        };
        let Aim::Bend { key, .. } = begun.target else {
            return Ok(());
        };
        let port = begun.pair.part.port;
        let pair = Pair {
            part: Part {
                port,
                channel: part,
            },
            steps: begun.pair.steps,
        };
        let place = self.open(port)?;
        self.ports[place].begin(parts, &pair, channel, key, velocity, &mut self.out)
    }

    /// After an event was taken: what it causes but for note offs.
    pub fn take<T: Aims>(
        &mut self,
        parts: &Parts<T>,
        plan: &Plan,
        event: &Event<'_>,
        change: &Change,
    ) -> Result<(), Memory>
        requires valid { IsValidEvent (view event.now) }
        requires bends { bends_notes (asked parts.now).route ≡ true }
        ensures { (allowed : ℕ → Bool) (es : List MidiEvent) (k : ℕ)
            → IsBending (asked parts.now) allowed (T.table (table_in parts.now)) es plan.now
            → ComesAt es k (view event.now) → k < length es
            → Stands (T.table (table_in parts.now)) parts.now (take (suc k) es)
            → TellsChange (asked parts.now) (T.table (table_in parts.now)) (take k es)
            (view event.now) change.now
            → IsReady (asked parts.now) allowed (T.table (table_in parts.now)) es plan.now k
            (view event.now) self.old
            → OnOk result (IsTaken (asked parts.now) allowed (T.table (table_in parts.now)) es
            plan.now k (view event.now) self.new) }
    {
        turning();
        match event.what {
            What::Message(ref message) if parts.options().retunes(message.channel()) => {
                self.say(parts, plan, message, change)
            }
            _ => {
                if resets(&event.what) {
                    if let Some(place) = place_of(self.ports.as_slice(), change.port) {
                        self.ports[place].reset();
                    }
                }
                Ok(())
            }
        }
    }
}
