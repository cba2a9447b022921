//! How the output of the bend route follows its source.

ghost use Rattle.bend_laws.specs.Laws.{EventsKeepFollowing};

use midi_model::{music_laws, receiver_laws};
use retune_model::zone_entries_set_zones;
use state_laws::{a_receiver_follows, bring_reaches, messages_only_set, states_stay_well_formed};

/// Each kind of event, with the block that it causes, keeps the relation between the source's music and the output's.
pub fn bend_follows()
    ensures kept { EventsKeepFollowing }
{
    music_laws();
    zone_entries_set_zones();
    receiver_laws();
    states_stay_well_formed();
    bring_reaches();
    messages_only_set();
    a_receiver_follows();
}
