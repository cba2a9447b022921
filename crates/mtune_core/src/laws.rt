//! Laws of the output. The functions do nothing: their contracts are what is stated.

ghost use Rattle.mtune_core.specs.OutputLaws.{PlannedIsPlayable, PlannedIsShort, OutputIsSpelt, OutputPlaysTheSame, BentUsesFewest, ZonedUsesFewest};

use bend_laws::bend_plays_the_same;
use event_stream::distribution;
use fewest_laws::{bent_uses_fewest, zoned_uses_fewest};
use midi_model::{file_laws, merged_order, size_laws, writing_laws};
use mpe_laws::{mpe_plays_the_same, plans_serve};
use retune_model::playable_in_order;
use routes::{routed_is_playable, routed_is_short, routed_plays_the_same};

/// What is written by a plan can be written as a file like its source: it is valid, in order, and each track
/// ends once.
pub fn planned_is_playable()
    ensures { PlannedIsPlayable }
{
    playable_in_order();
    bend_plays_the_same();
    mpe_plays_the_same();
    plans_serve();
}

/// Each track that is written by a plan for a source of at most 4,194,304 bytes fits in its chunk.
pub fn planned_is_short()
    ensures { PlannedIsShort }
{
    playable_in_order();
    bend_plays_the_same();
    mpe_plays_the_same();
    plans_serve();
    file_laws();
    merged_order();
    size_laws();
}

/// The bytes of the output of a source of at most 4,194,304 bytes spell the output.
pub fn output_is_spelt()
    ensures { OutputIsSpelt }
{
    routed_is_playable();
    routed_is_short();
    planned_is_playable();
    planned_is_short();
    writing_laws();
}

/// The output of a source that isn't refused plays the same.
pub fn output_plays_the_same()
    ensures { OutputPlaysTheSame }
{
    distribution();
    playable_in_order();
    routed_is_playable();
    planned_is_playable();
    routed_plays_the_same();
    bend_plays_the_same();
    mpe_plays_the_same();
    plans_serve();
}

/// On bend and MPE the output uses the fewest channels.
pub fn fewest_are_used()
    ensures bend { BentUsesFewest }
    ensures mpe { ZonedUsesFewest }
{
    distribution();
    playable_in_order();
    planned_is_playable();
    bent_uses_fewest();
    zoned_uses_fewest();
}
