ghost use Rattle.event_stream.specs.PutLaws.{DealtIsMerged, MergedIsDealt, PlayableIsPut, EventIsDealt};

use midi_model::{merged_order, writing_laws};

/// Merging and distribution undo each other: what was dealt out to tracks and merged is the list
/// again, and what was merged and dealt out is the tracks again.
pub fn distribution()
    ensures merged_again { DealtIsMerged }
    ensures dealt_again { MergedIsDealt }
{
    merged_order();
}

/// Each event of a playable list may be put into the tracks that stand for those before it.
pub fn playable_is_put()
    ensures { PlayableIsPut }
{}

/// Tracks that stand for a list, with an event more in its track, stand for the list with that event
/// at its end.
pub fn put_is_dealt()
    ensures { EventIsDealt }
{
    writing_laws();
}
