ghost use Rattle.std.specs.Prelude.{true, ◌≡◌, ◌<◌, ◌≤◌, ◌↔◌, IsTrue, ℕ, suc, List, None, Some, length, get_or, set, map, take, OnOk};
ghost use Rattle.std.specs.List.{AllByRecursion};
ghost use Rattle.mt_base.specs.Midi.{MidiEvent};
ghost use Rattle.retune_model.specs.Options.{Options, ByBend};
ghost use Rattle.retune_model.specs.Faults.{is_part};
ghost use Rattle.retune_model.specs.SourceFaults.{IsSound};
ghost use Rattle.receiver.specs.State.{state_of};
ghost use Rattle.lifetimes.specs.Views.{pair_of};
ghost use Rattle.lifetimes.specs.Stands.{Stands, asked, table_in};
ghost use Rattle.lifetimes.specs.Told.{is_held, is_sounding};
ghost use Rattle.channel_plan.specs.Serving.{BeginsNote};
ghost use Rattle.least_replay.specs.Found.{Slot, is_slot_of, goes_on, Goes, GoesKept, GoesEnded, IsPut, resets_on};
ghost use Rattle.least_replay.specs.FoundView.{seen, all_seen, slot_of, slots_of, IsGoing, AreGoing, needs_now, leaves_now};
ghost use Rattle.least_replay.specs.Ending.{left_as, over_at, left_or, keep_run, keep_runs, end_run, end_runs, stay_if, stay_all};

use key_pitch::Aims;
use lifetimes::Parts;
use mt_base::{Channel, Memory, Pair};
use plan_laws::{counting_laws, leaving_laws, run_counts, taken_laws};
use receiver::ChannelState;
use retune_model::{
    elsewhere, fewest_channels, held_laws, pair_laws, position_laws, rests_are_runs, sound_sources,
    without_rests,
};

/// A run of a port.
#[derive(Drop)]
pub(crate) struct Run {
    /// The position at which it begins.
    pub first: u32,
    /// The last position that it has; the greatest number while it goes on.
    pub last: u32,
    /// How many resets there are up to its first position, and up to its last.
    pub resets_first: u32,
    pub resets_last: u32,
    /// The state that it needs as it begins.
    pub needs: ChannelState,
    /// The state in which it leaves its channel.
    pub left: ChannelState,
    /// The channel that the plan gives it.
    pub channel: Channel,
}

/// A run that goes on, by its number, with its pair.
#[derive(Clone, Copy, Debug)]
pub(crate) struct Going {
    pub pair: Pair,
    pub run: usize,
}

/// The runs of a port that have begun so far.
#[derive(Drop)]
pub(crate) struct Found {
    /// In the order in which they began.
    pub runs: Vec<Run>,
    /// Those that go on, each at some place.
    pub going: Vec<Option<Going>>,
    /// How many resets of the port there were.
    pub resets: u32,
}

/// A run would leave its channel so.
fn leave(run: &mut Run, left: ChannelState)
    ensures { seen run.new ≡ left_as (state_of left) (seen run.old) }
{
    run.left = left;
}

/// A run is over.
fn end(run: &mut Run, last: u32, resets: u32)
    ensures { seen run.new ≡ over_at last resets (seen run.old) }
{
    run.last = last;
    run.resets_last = resets;
}

/// A run of a pair, which the parts tell to be gone, is over at a position. Where notes rest the state
/// in which it leaves its channel was kept before.
fn end_with<T: Aims>(run: &mut Run, pair: &Pair, parts: &Parts<T>, last: u32, resets: u32)
    requires bends { (asked parts.now).route ≡ ByBend }
    requires part { is_part (asked parts.now) (pair.now.part.channel) ≡ true }
    ensures { (es : List MidiEvent) → Stands (T.table (table_in parts.now)) parts.now es
        → seen run.new ≡ over_at last resets (left_or (leaves_now (asked parts.now)
        (T.table (table_in parts.now)) es (pair_of pair.now)) (seen run.old)) }
{
    if parts.options().tail == 0 {
        leave(run, parts.wanted(pair));
    }
    end(run, last, resets);
}

/// Before an event: the state in which a run that only rests would leave its channel.
fn keep_one<T: Aims>(runs: &mut [Run], going: &Option<Going>, parts: &Parts<T>)
    requires bends { (asked parts.now).route ≡ ByBend }
    requires going { IsGoing (asked parts.now) (length runs.old) going.now }
    ensures { (es : List MidiEvent) → Stands (T.table (table_in parts.now)) parts.now es
        → all_seen runs.new
        ≡ keep_run (is_sounding (asked parts.now) (T.table (table_in parts.now)) es)
        (needs_now (asked parts.now) (T.table (table_in parts.now)) es) (slot_of going.now)
        (all_seen runs.old) }
{
    if let Some(going) = going {
        if !parts.sounds(&going.pair) {
            leave(&mut runs[going.run], parts.wanted(&going.pair));
        }
    }
}

/// The same for all runs that go on.
fn keep_all<T: Aims>(runs: &mut [Run], going: &[Option<Going>], parts: &Parts<T>)
    requires bends { (asked parts.now).route ≡ ByBend }
    requires going { AllByRecursion (IsGoing (asked parts.now) (length runs.old)) going.now }
    ensures { (es : List MidiEvent) → Stands (T.table (table_in parts.now)) parts.now es
        → all_seen runs.new
        ≡ keep_runs (is_sounding (asked parts.now) (T.table (table_in parts.now)) es)
        (needs_now (asked parts.now) (T.table (table_in parts.now)) es) (slots_of going.now)
        (all_seen runs.old) }
{
    for one in going {
        keep_one(runs, one, parts);
    }
}

/// After an event: a run whose pair is gone is over at the position before it.
fn end_one<T: Aims>(
    runs: &mut [Run],
    going: &Option<Going>,
    parts: &Parts<T>,
    last: u32,
    resets: u32,
)
    requires bends { (asked parts.now).route ≡ ByBend }
    requires going { IsGoing (asked parts.now) (length runs.old) going.now }
    ensures { (es : List MidiEvent) → Stands (T.table (table_in parts.now)) parts.now es
        → all_seen runs.new
        ≡ end_run (is_held (asked parts.now) (T.table (table_in parts.now)) es)
        (leaves_now (asked parts.now) (T.table (table_in parts.now)) es) last resets
        (slot_of going.now) (all_seen runs.old) }
{
    if let Some(going) = going {
        if !parts.holds(&going.pair) {
            end_with(&mut runs[going.run], &going.pair, parts, last, resets);
        }
    }
}

/// The same for all runs that went on.
fn end_all<T: Aims>(
    runs: &mut [Run],
    going: &[Option<Going>],
    parts: &Parts<T>,
    last: u32,
    resets: u32,
)
    requires bends { (asked parts.now).route ≡ ByBend }
    requires going { AllByRecursion (IsGoing (asked parts.now) (length runs.old)) going.now }
    ensures { (es : List MidiEvent) → Stands (T.table (table_in parts.now)) parts.now es
        → all_seen runs.new
        ≡ end_runs (is_held (asked parts.now) (T.table (table_in parts.now)) es)
        (leaves_now (asked parts.now) (T.table (table_in parts.now)) es) last resets
        (slots_of going.now) (all_seen runs.old) }
{
    for one in going {
        end_one(runs, one, parts, last, resets);
    }
}

/// A place, where its run still goes on.
fn stay<T: Aims>(going: Option<Going>, parts: &Parts<T>) -> Option<Going>
    requires bends { (asked parts.now).route ≡ ByBend }
    ensures stays { (es : List MidiEvent) → Stands (T.table (table_in parts.now)) parts.now es
        → slot_of result
        ≡ stay_if (is_held (asked parts.now) (T.table (table_in parts.now)) es) (slot_of going) }
    ensures going { (n : ℕ) → IsGoing (asked parts.now) n going → IsGoing (asked parts.now) n result }
{
    match going {
        Some(run) if parts.holds(&run.pair) => Some(run),
        Some(_) | None => None,
    }
}

/// Clears the places of the runs that are over.
fn clear<T: Aims>(going: &mut [Option<Going>], parts: &Parts<T>)
    requires bends { (asked parts.now).route ≡ ByBend }
    ensures stay { (es : List MidiEvent) → Stands (T.table (table_in parts.now)) parts.now es
        → slots_of going.new
        ≡ stay_all (is_held (asked parts.now) (T.table (table_in parts.now)) es)
        (slots_of going.old) }
    ensures going { (n : ℕ) → AllByRecursion (IsGoing (asked parts.now) n) going.old
        → AllByRecursion (IsGoing (asked parts.now) n) going.new }
{
    for one in going.iter_mut() {
        *one = stay(*one, parts);
    }
}

/// Whether a run is one of a pair.
fn is_of(going: &Option<Going>, pair: &Pair) -> bool
    ensures { result ≡ is_slot_of (pair_of pair.now) (slot_of going.now) }
{
    match going {
        Some(going) => going.pair == *pair,
        None => false,
    }
}

/// Whether a run of a pair goes on.
fn goes_on(going: &[Option<Going>], pair: &Pair) -> bool
    ensures { result ≡ goes_on (slots_of going.now) (pair_of pair.now) }
{
    match going {
        [first, rest @ ..] => is_of(first, pair) || goes_on(rest, pair),
        [] => false,
    }
}

/// The first place where no run is.
fn free_place(going: &[Option<Going>]) -> usize
    ensures within { result ≤ length going.now }
    ensures free { get_or going.now result None ≡ None }
{
    let mut place = 0;
    while place < going.len() && going[place].is_some() {
        place += 1;
    }
    place
}

/// Puts a run that begins at the first free place.
fn put(going: &mut Vec<Option<Going>>, run: Going) -> Result<(), Memory>
    ensures put { OnOk result (IsPut (slots_of going.old.items) (slots_of going.new.items)
        (record { pair = pair_of run.pair; run = run.run })) }
    ensures going { (o : Options) (n : ℕ) → AllByRecursion (IsGoing o n) going.old.items
        → IsGoing o n (Some run) → OnOk result (AllByRecursion (IsGoing o n) going.new.items) }
{
    let place = free_place(going.as_slice());
    if place < going.len() {
        going[place] = Some(run);
    } else {
        going.push(Some(run))?;
    }
    Ok(())
}

impl Found {
    /// Before an event, where notes rest: the states in which the runs that only rest would leave
    /// their channels are kept, since the rests may run out at the event. The parts are those before
    /// it.
    pub fn keep<T: Aims>(&mut self, parts: &Parts<T>)
        requires bends { (asked parts.now).route ≡ ByBend }
        requires going { AreGoing (asked parts.now) self.old }
        ensures kept { (es : List MidiEvent) (channels : ℕ → ℕ) (z k : ℕ)
            → IsSound (asked parts.now) (T.table (table_in parts.now)) es → k ≤ length es
            → Stands (T.table (table_in parts.now)) parts.now (take k es)
            → Goes (asked parts.now) (T.table (table_in parts.now)) es channels z k
            (all_seen self.old.runs.items) (slots_of self.old.going.items)
            → GoesKept (asked parts.now) (T.table (table_in parts.now)) es channels z k
            (all_seen self.new.runs.items) (slots_of self.new.going.items) }
        ensures going { AreGoing (asked parts.now) self.new }
        ensures resets { self.new.resets ≡ self.old.resets }
    {
        pair_laws();
        rests_are_runs();
        fewest_channels();
        sound_sources();
        counting_laws();
        position_laws();
        if parts.options().tail > 0 {
            keep_all(self.runs.as_mut_slice(), self.going.as_slice(), parts);
        }
    }

    /// After an event: the runs whose pairs are gone are over at the position before it.
    pub fn end<T: Aims>(&mut self, parts: &Parts<T>, last: u32)
        requires bends { (asked parts.now).route ≡ ByBend }
        requires going { AreGoing (asked parts.now) self.old }
        ensures ended { (es : List MidiEvent) (channels : ℕ → ℕ) (z k : ℕ)
            → IsSound (asked parts.now) (T.table (table_in parts.now)) es → k < length es
            → last ≡ k → self.old.resets ≡ resets_on es z k
            → Stands (T.table (table_in parts.now)) parts.now (take (suc k) es)
            → GoesKept (asked parts.now) (T.table (table_in parts.now)) es channels z k
            (all_seen self.old.runs.items) (slots_of self.old.going.items)
            → GoesEnded (asked parts.now) (T.table (table_in parts.now)) es channels z k
            (all_seen self.new.runs.items) (slots_of self.new.going.items) }
        ensures going { AreGoing (asked parts.now) self.new }
        ensures resets { self.new.resets ≡ self.old.resets }
    {
        pair_laws();
        rests_are_runs();
        fewest_channels();
        sound_sources();
        counting_laws();
        position_laws();
        leaving_laws();
        without_rests();
        end_all(
            self.runs.as_mut_slice(),
            self.going.as_slice(),
            parts,
            last,
            self.resets,
        );
        clear(self.going.as_mut_slice(), parts);
    }

    /// A note of a pair begins at a position, on a channel: with it a run begins, where none of its
    /// pair goes on. The parts are those with the event.
    pub fn begin<T: Aims>(
        &mut self,
        parts: &Parts<T>,
        pair: &Pair,
        channel: Channel,
        position: u32,
    ) -> Result<(), Memory>
        requires bends { (asked parts.now).route ≡ ByBend }
        requires part { is_part (asked parts.now) (pair.now.part.channel) ≡ true }
        requires going { AreGoing (asked parts.now) self.old }
        ensures goes { (es : List MidiEvent) (channels : ℕ → ℕ) (z k : ℕ) (e : MidiEvent)
            → IsSound (asked parts.now) (T.table (table_in parts.now)) es
            → position ≡ suc k → z ≡ pair.now.part.port
            → channel ≡ channels (suc k)
            → self.old.resets ≡ resets_on es z (suc k)
            → Stands (T.table (table_in parts.now)) parts.now (take (suc k) es)
            → BeginsNote (asked parts.now) (T.table (table_in parts.now)) es k e (pair_of pair.now)
            → GoesEnded (asked parts.now) (T.table (table_in parts.now)) es channels z k
            (all_seen self.old.runs.items) (slots_of self.old.going.items)
            → OnOk result (Goes (asked parts.now) (T.table (table_in parts.now)) es channels z (suc k)
            (all_seen self.new.runs.items) (slots_of self.new.going.items)) }
        ensures going { OnOk result (AreGoing (asked parts.now) self.new) }
        ensures resets { self.new.resets ≡ self.old.resets }
    {
        pair_laws();
        rests_are_runs();
        fewest_channels();
        sound_sources();
        held_laws();
        counting_laws();
        run_counts();
        position_laws();
        if goes_on(self.going.as_slice(), pair) {
            return Ok(());
        }
        let going = Going {
            pair: *pair,
            run: self.runs.len(),
        };
        self.runs.push(Run {
            first: position,
            last: u32::MAX,
            resets_first: self.resets,
            resets_last: 0,
            needs: parts.wanted(pair),
            left: ChannelState::new(),
            channel,
        })?;
        put(&mut self.going, going)
    }
}
