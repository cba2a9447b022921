ghost use Rattle.std.specs.Prelude.{◌≡◌, [], option_copied};
ghost use Rattle.channel_plan.specs.Told.{port_in, or_of, recast_note, recast_notes};

use crate::fault::Instant;
use crate::rows::Row;
use mt_base::{Channel, Pair};

/// A zone of a port (MPE 1.0): its part, and how many members it has.
#[derive(Clone, Copy, Debug, PartialEq, Eq)]
pub struct Zone {
    pub port: u8,
    pub part: Channel,
    /// Whether its master is the last channel, and not the first.
    pub upper: bool,
    /// How many members it has: the greatest number of its part's pairs at once.
    pub need: u32,
    /// The first position at which it has so many.
    pub instant: Instant,
}

/// A zone, with the pairs of its part at the instant.
#[derive(Debug, Drop)]
pub(crate) struct ZonePlan {
    pub zone: Zone,
    pub pairs: Vec<Pair>,
}

/// What is planned for a port.
#[derive(Debug, Drop)]
pub(crate) struct PortPlan {
    pub number: u8,
    /// Of the bend route: what the port needs, the instant, and the pairs then.
    pub need: u32,
    pub instant: Instant,
    pub pairs: Vec<Pair>,
    /// Of the MPE route: the lower zone, and the upper where there is one.
    pub zones: Vec<ZonePlan>,
    /// How many runs begin.
    pub runs: u32,
    /// On bend the used row: the channels that the runs are given.
    pub used: Row,
}

/// The channel that a note is given, on its port.
#[derive(Clone, Copy, Debug)]
pub(crate) struct Given {
    pub port: u8,
    pub channel: Channel,
}

/// The channels that the retuned notes of a source are given, on each port.
#[derive(Debug, Drop)]
pub struct Plan {
    /// The ports with a retuned note, ascending, and what is planned for each.
    pub(crate) numbers: Vec<u8>,
    pub(crate) ports: Vec<PortPlan>,
    /// Of each retuned note, in the order of their note ons: its port and channel, and the number of its run.
    pub(crate) given: Vec<Given>,
    pub(crate) runs: Vec<u32>,
}

/// What is planned for a port of this number.
pub(crate) fn find_port(ports: &[PortPlan], number: u8) -> Option<&PortPlan>
    ensures { option_copied result ≡ port_in ports.now number }
{
    match ports {
        [first, rest @ ..] => {
            if first.number == number {
                Some(first)
            } else {
                find_port(rest, number)
            }
        }
        [] => None,
    }
}

/// The channel that the run of a note is given anew.
fn recast_one(given: Given, run: u32, port: u8, used: &[Channel], rows: &[u16]) -> Given
    ensures { result ≡ recast_note port used.now rows.now run given }
{
    if given.port != port {
        return given;
    }
    match rows.get(run as usize) {
        Some(place) => match used.get(*place as usize) {
            Some(channel) => Given {
                port,
                channel: *channel,
            },
            None => given,
        },
        None => given,
    }
}

/// The same for all notes.
#[tactic(auto, using(crate::proofs::Recasting::one_more, crate::proofs::Recasting::all_given))]
fn recast_each(port: u8, used: &[Channel], rows: &[u16], runs: &[u32], given: &mut [Given])
    ensures { given.new ≡ recast_notes port used.now rows.now runs.now given.old }
{
    let mut note = 0;
    while note < given.len() && note < runs.len() {
        given[note] = recast_one(given[note], runs[note], port, used, rows);
        note += 1;
    }
}

/// The used row of a port.
fn used_row(ports: &[PortPlan], port: u8) -> &[Channel]
    ensures { result.now ≡ or_of [] (λ p. p.used.items) (port_in ports.now port) }
{
    match find_port(ports, port) {
        Some(plan) => plan.used.as_slice(),
        None => &[],
    }
}

impl Plan {
    ghost use Rattle.channel_plan.specs.Told.{ports_in, need_in, instant_in, witness_in, zone_in, zone_pairs_in, channel_in, run_in, run_count_in, IsRecast};

    /// The ports with a retuned note, ascending.
    pub fn ports(&self) -> &[u8]
        ensures { result.now ≡ ports_in self.now }
    {
        self.numbers.as_slice()
    }

    /// On bend: the greatest number of pairs that sound or rest at once on a port, which is how many channels
    /// its notes are given. On the other routes 0.
    pub fn need(&self, port: u8) -> u32
        ensures { result ≡ need_in self.now port }
    {
        match find_port(self.ports.as_slice(), port) {
            Some(plan) => plan.need,
            None => 0,
        }
    }

    /// On bend: the first position at which so many pairs sound or rest on a port. Else the start.
    pub fn instant(&self, port: u8) -> Instant
        ensures { result ≡ instant_in self.now port }
    {
        match find_port(self.ports.as_slice(), port) {
            Some(plan) => plan.instant,
            None => Instant {
                position: 0,
                tick: 0,
            },
        }
    }

    /// On bend: the pairs of a port at the instant, by part and then by steps. Else none.
    pub fn witness(&self, port: u8) -> &[Pair]
        ensures { result.now ≡ witness_in self.now port }
    {
        match find_port(self.ports.as_slice(), port) {
            Some(plan) => plan.pairs.as_slice(),
            None => &[],
        }
    }

    /// On MPE: the lower zone of a port at place 0, the upper at place 1. None exactly where the port has no such
    /// zone.
    pub fn zone(&self, port: u8, place: usize) -> Option<Zone>
        ensures { result ≡ zone_in self.now port place }
    {
        match find_port(self.ports.as_slice(), port)?
            .zones
            .as_slice()
            .get(place)
        {
            Some(plan) => Some(plan.zone),
            None => None,
        }
    }

    /// The pairs of a zone's part at the zone's instant, by steps; none where there is no such zone.
    pub fn zone_pairs(&self, port: u8, place: usize) -> &[Pair]
        ensures { result.now ≡ zone_pairs_in self.now port place }
    {
        match find_port(self.ports.as_slice(), port) {
            Some(plan) => match plan.zones.as_slice().get(place) {
                Some(plan) => plan.pairs.as_slice(),
                None => &[],
            },
            None => &[],
        }
    }

    /// The channel that a retuned note is given, by its place among those of all ports in the order of their
    /// note ons, from 1. None exactly where the number is 0 or above the number of retuned notes.
    pub fn channel(&self, note: u32) -> Option<Channel>
        ensures { result ≡ channel_in self.now note }
    {
        match self.given.as_slice().get(note.checked_sub(1)? as usize) {
            Some(given) => Some(given.channel),
            None => None,
        }
    }

    /// The number of the run that a retuned note belongs to, on its port. None exactly where the note has no
    /// channel.
    pub fn run_of(&self, note: u32) -> Option<u32>
        ensures { result ≡ run_in self.now note }
    {
        self.runs
            .as_slice()
            .get(note.checked_sub(1)? as usize)
            .copied()
    }

    /// How many runs begin on a port. They count from 0, in the order in which they begin.
    pub fn run_count(&self, port: u8) -> u32
        ensures { result ≡ run_count_in self.now port }
    {
        match find_port(self.ports.as_slice(), port) {
            Some(plan) => plan.runs,
            None => 0,
        }
    }

    /// Gives run i of a port on the bend route the channel at place rows[i] of the used row. There is to be a place
    /// for each run, below the port's need, and runs with a common position have different places: then all that
    /// was planned still holds, but that each channel was chosen for its short setup. A run without such a place
    /// keeps its channel, and so do the notes of other ports.
    pub fn recast(&mut self, port: u8, rows: &[u16])
        ensures { IsRecast port rows.now self.old self.new }
    {
        let used = used_row(self.ports.as_slice(), port);
        recast_each(
            port,
            used,
            rows,
            self.runs.as_slice(),
            self.given.as_mut_slice(),
        );
    }
}
