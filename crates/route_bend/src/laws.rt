//! Laws of what the bend route is given and writes. The functions do nothing: their contracts are what is stated.

ghost use Rattle.midi_model.specs.ReceiverLaws.{OneNoteSoundsOnAKey};
ghost use Rattle.state_laws.specs.Reached.{IgnoresTheSelections};
ghost use Rattle.plan_laws.specs.Counting.{NextIsTaken};
ghost use Rattle.route_bend.specs.Laws.{PlansBend, PortsPlayAlong, SourcesPlay, OutputsPlay, NotesAreOnPlan, ChannelsAreLeft, OutputPlaysTheSame, FilePlaysTheSame, OutputIsPlayable, OutputAddsFewBytes, OutputIsOnTheRow};
ghost use Rattle.route_bend.specs.Turning.{EventsTurn, OthersWait, PositionsAreSeen, NotesAreGiven, NothingIsThere};

use bend_laws::bend_plays_the_same;
use channel_model::best_is_free;
use midi_model::{music_laws, receiver_laws};
use plan_laws::{counting_laws, leaving_laws, taken_laws};
use retune_model::{
    elsewhere, held_laws, next_laws, pairs_in_order, position_laws, rests_are_runs, sound_sources,
    without_rests, zone_entries_set_zones,
};
use state_laws::{a_receiver_follows, bring_reaches, messages_only_set, states_stay_well_formed};

/// Around each event of a source without a fault that has a plan, the output of the event's port follows the source; on
/// the other ports nothing but rests ends. What the parts tell after the first events is so at the position behind them. The
/// plan gives a note the channel of its pair's run.
pub(crate) fn turning()
    ensures turn { EventsTurn }
    ensures wait { OthersWait }
    ensures seen { PositionsAreSeen }
    ensures given { NotesAreGiven }
    ensures start { NothingIsThere }
    ensures ignored { IgnoresTheSelections }
    ensures one { OneNoteSoundsOnAKey }
    ensures taken { NextIsTaken }
{
    best_is_free();
    counting_laws();
    elsewhere();
    held_laws();
    leaving_laws();
    pairs_in_order();
    position_laws();
    rests_are_runs();
    sound_sources();
    without_rests();
    zone_entries_set_zones();
    music_laws();
    receiver_laws();
    next_laws();
    taken_laws();
    states_stay_well_formed();
    bring_reaches();
    messages_only_set();
    a_receiver_follows();
}

/// For a source without a fault and its plan, any tail and any ports, of what the bend route writes: at every
/// position of the file each port plays the notes that the source plays, one by one, on the channels of the
/// plan; the channel of each pair that is there is at what the pair needs; each other channel of the used row is
/// silent, and one that no run holds is in the state from which the next is brought. So the whole plays the
/// same: on every port and at every tick the same notes, each within half a step of a bend and a thousandth of
/// a cent of its source pitch, right from its beginning; all other events and kept drums are passed on. It can
/// be written as a file with the source's tracks, each event with at most 1,600 bytes beside its own, and speaks to
/// no part but on the channels of the used row.
pub fn bent_plays_the_same()
    ensures plan { PlansBend }
    ensures ports { PortsPlayAlong }
    ensures source { SourcesPlay }
    ensures out { OutputsPlay }
    ensures channels { NotesAreOnPlan }
    ensures left { ChannelsAreLeft }
    ensures same { OutputPlaysTheSame }
    ensures file { FilePlaysTheSame }
    ensures playable { OutputIsPlayable }
    ensures few_bytes { OutputAddsFewBytes }
    ensures on_row { OutputIsOnTheRow }
{
    bend_plays_the_same();
}
