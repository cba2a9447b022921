ghost use Rattle.std.specs.Prelude.{suc, List, IfSome, IfNone};
ghost use Rattle.receiver.specs.State.{state_of};
ghost use Rattle.channel_plan.specs.declared.choice.Place.{Place as PlaceOf};
ghost use Rattle.channel_plan.specs.Choosing.{BestTo, IsChosen, AreTaken, IsPlaceAt};

use mt_base::Pair;
use receiver::ChannelState;
use replay::{bring_length, bring_length_within};

/// A channel of the used row.
#[derive(Drop)]
pub(crate) struct Place {
    /// The pair whose run is on it.
    pub pair: Option<Pair>,
    /// The state in which the last run left it.
    pub left: ChannelState,
    /// The first position from which on no run is on it, where none is.
    pub since: u32,
    /// The number of the run that was on it last.
    pub run: u32,
}

/// A free place, by its number, with the messages that its setup takes.
#[derive(Clone, Copy, Debug)]
pub(crate) struct Free {
    pub number: usize,
    pub setup: u16,
    pub since: u32,
}

/// The better of the best place so far and the next one: the one with the shorter setup, of equals the one that
/// has been free for longer, of equals the first.
fn better(best: Option<Free>, place: &Place, number: usize, wanted: &ChannelState) -> Option<Free>
    ensures { (places : List PlaceOf) → IsPlaceAt places place.now number
        → BestTo places (state_of wanted.now) number best
        → BestTo places (state_of wanted.now) (suc number) result }
{
    if place.pair.is_some() {
        return best;
    }
    let setup = match best {
        Some(best) => match bring_length_within(&place.left, wanted, best.setup) {
            Some(setup) if setup < best.setup || place.since < best.since => setup,
            Some(_) | None => return Some(best),
        },
        None => bring_length(&place.left, wanted),
    };
    Some(Free {
        number,
        setup,
        since: place.since,
    })
}

/// The place that a run gets whose pair wants this state, by its number. None exactly where no place is free.
pub(crate) fn choose(places: &[Place], wanted: &ChannelState) -> Option<usize>
    ensures some { IfSome result (IsChosen places.now (state_of wanted.now)) }
    ensures none { IfNone result (AreTaken places.now) }
{
    let mut best = None;
    let mut number = 0;
    while number < places.len() {
        best = better(best, &places[number], number, wanted);
        number += 1;
    }
    match best {
        Some(best) => Some(best.number),
        None => None,
    }
}
