//! Laws of how many channels are used. The functions do nothing: their contracts are what is stated.

ghost use Rattle.fewest_laws.specs.Laws.{BentUsesFewest, ZonedUsesFewest};
ghost use Rattle.fewest_laws.specs.Using.{RunsUseFewest};

use bend_laws::bend_plays_the_same;
use channel_model::{best_is_free, outputs_apart};
use midi_model::music_laws;
use mpe_laws::{mpe_plays_the_same, plans_serve};
use retune_model::{fewest_channels, need_laws, rests_are_runs, sound_sources};

/// Where each run takes a free place of a row of as many channels as are needed, the notes use the fewest.
pub fn runs_use_fewest()
    ensures { RunsUseFewest }
{
    fewest_channels();
    rests_are_runs();
    sound_sources();
}

/// What bend writes for a source with a plan for each of its ports uses the fewest channels on each port.
pub fn bent_uses_fewest()
    ensures { BentUsesFewest }
{
    fewest_channels();
    need_laws();
    rests_are_runs();
    sound_sources();
    best_is_free();
    music_laws();
    bend_plays_the_same();
}

/// What MPE writes for a source with a plan for each zone of its ports uses the fewest members of each.
pub fn zoned_uses_fewest()
    ensures { ZonedUsesFewest }
{
    fewest_channels();
    need_laws();
    rests_are_runs();
    sound_sources();
    best_is_free();
    outputs_apart();
    music_laws();
    mpe_plays_the_same();
    plans_serve();
}
