//! Laws of what bytes spell. The function does nothing: its contract is what is stated.

ghost use Rattle.midi_model.specs.FileLaws.{OneFile, ReadIsSpelt, SpeltIsRead, ReadFaultIsFirst, FirstFaultIsRead};
ghost use Rattle.midi_model.specs.FileLaws.{FaultHasPlace, NoLongerPrefix, OneFault, FileOrFault, NeverBoth};
ghost use Rattle.midi_model.specs.FileLaws.{FileOrOneFault, MissingHasPlace, CutIsFaulty, TracksCanPlay, FileIsPlayable};

/// What bytes spell and what is read from left to right are the same. Bytes spell a file, or they have a first fault, which is
/// what is wrong after the longest prefix that breaks no rule, and spell none. A file that is cut off before its last track
/// chunk ends spells none, and its fault is by its length. What bytes spell can be played.
pub fn file_laws()
    ensures one_file { OneFile }
    ensures found { ReadIsSpelt }
    ensures only { SpeltIsRead }
    ensures first { ReadFaultIsFirst }
    ensures read_first { FirstFaultIsRead }
    ensures offset { FaultHasPlace }
    ensures longest { NoLongerPrefix }
    ensures one_fault { OneFault }
    ensures either { FileOrFault }
    ensures never_both { NeverBoth }
    ensures exactly_one { FileOrOneFault }
    ensures missing { MissingHasPlace }
    ensures cut { CutIsFaulty }
    ensures tracks { TracksCanPlay }
    ensures playable { FileIsPlayable }
{}
