//! How the output of the MPE route follows its source.

ghost use Rattle.mpe_laws.specs.Laws.{EventsKeepFollowing, OneZoneIsSetUp, OneZoneIsAZone, TwoZonesAreSetUp, TwoZonesAreZones};

use midi_model::music_laws;
use retune_model::zone_entries_set_zones;

/// Each kind of event, with the block that it causes, keeps the relation between the source's music and the output's.
pub fn mpe_follows()
    ensures kept { EventsKeepFollowing }
{
    music_laws();
    zone_entries_set_zones();
}

/// What is asked of the zones holds of one zone and of two: the setup sets them up, and their masters and members are
/// as asked.
pub fn zones_are_set_up()
    ensures one_set_up { OneZoneIsSetUp }
    ensures one { OneZoneIsAZone }
    ensures two_set_up { TwoZonesAreSetUp }
    ensures two { TwoZonesAreZones }
{
    music_laws();
    zone_entries_set_zones();
}
