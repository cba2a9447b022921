//! Laws of what the dump and live routes write. The functions do nothing: their contracts are what
//! is stated.

ghost use Rattle.routes.specs.Laws.{BytesAreDumps, BytesAreChanges, RoutedPlayTheSame, RoutedFilePlaysTheSame, RoutedIsPlayable, AddsFewBytes, TracksAreShort, PlayableMayBePut, PutIsDealt};

use event_stream::{playable_is_put, put_is_dealt};
use midi_model::{file_laws, merged_order, size_laws};
use mts_msg::written_is_read;
use retune_model::{dump_is_playable, dump_plays_the_same, live_is_playable, live_plays_the_same};

/// The bytes of the dump and of the changes are tuning messages that read as the table's targets.
pub fn routed_bytes()
    ensures dump { BytesAreDumps }
    ensures changes { BytesAreChanges }
{
    written_is_read();
}

/// For a source without a fault what the dump and live routes write plays the same, on every port:
/// the same notes, each within half a step of 1/16384 semitone and a thousandth of a cent of its
/// source pitch, right from its beginning; all other events and kept drums are passed on.
pub fn routed_plays_the_same()
    ensures events { RoutedPlayTheSame }
    ensures file { RoutedFilePlaysTheSame }
{
    routed_bytes();
    dump_plays_the_same();
    live_plays_the_same();
}

/// It can be written as a file like its source: it is valid, in order, and each track ends once.
pub fn routed_is_playable()
    ensures { RoutedIsPlayable }
{
    dump_is_playable();
    live_is_playable();
}

/// Each source event causes at most 1,600 bytes beside its own, so each track that is written for a
/// source of at most 4,194,304 bytes fits in its chunk.
pub fn routed_is_short()
    ensures events { AddsFewBytes }
    ensures tracks { TracksAreShort }
{
    file_laws();
    merged_order();
    size_laws();
}

/// The events of a playable list may be put into new tracks one after the other, and the tracks then
/// stand for what is dealt out to them.
pub fn puts_are_dealt()
    ensures may { PlayableMayBePut }
    ensures dealt { PutIsDealt }
{
    playable_is_put();
    put_is_dealt();
}
