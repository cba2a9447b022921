//! Laws of the merged order. The functions do nothing: their contracts are what is stated.

ghost use Rattle.midi_model.specs.OrderLaws.{MergedIsInOrder, MergedHasAll, MergedCounts, TracksAreKept};
ghost use Rattle.midi_model.specs.OrderLaws.{FirstIsTaken, MergedIsPlayable, TwoTracksAreMerged};

/// The merged order, in words: it is in the order of tick and track, it has each event of each
/// track, and the events of a track keep their order.
pub fn merged_order()
    ensures in_order { MergedIsInOrder }
    ensures all { MergedHasAll }
    ensures count { MergedCounts }
    ensures each_track { TracksAreKept }
    ensures first { FirstIsTaken }
    ensures playable { MergedIsPlayable }
{}

/// Two tracks with equal ticks: at one tick the first track's events come before the second's.
pub fn merged_example()
    ensures equal_ticks { TwoTracksAreMerged }
{}
