ghost use Rattle.std.specs.Prelude.{◌≡◌, ◌≤◌, ◌%◌, ℕ, pos, negsuc, Bool, false, nat_eq};
ghost use Rattle.std.specs.Prelude.{take, replicate, [], ◌∷◌, ◌++◌, Option, Some, None};
ghost use Rattle.retune_model.specs.Table.{Bounds};
ghost use Rattle.retune_model.specs.Octave.{has_bit};
ghost use Rattle.octave_route.specs.Messages.{WrittenIsRead, as_number, octave_bytes};
ghost use Rattle.octave_route.specs.Classes.{nearest_value, class_value};
ghost use Rattle.octave_route.specs.Classes.{is_used, least_used, IsLeastUsed, Refuses, FitBelow};
ghost use Rattle.octave_route.specs.declared.fitting.OctaveFault.{OctaveFault};
ghost use Rattle.octave_route.specs.Examples.{rising, two_keys, at, reset, level_message, drums_kept, before_notes};
ghost use Rattle.octave_route.specs.Output.{octaved};
ghost use Rattle.mt_base.specs.declared.event.Msg.TheVariants.{NoteOn};
ghost use Rattle.mt_base.specs.Midi.{Says};
ghost use Rattle.octave_route.specs.Laws.{OctavePlaysTheSame, OctavedFilePlaysTheSame, OctavedIsPlayable, OctavedAddsFewBytes, OctavedTracksAreShort};

use midi_model::{file_laws, merged_order, music_laws, size_laws};
use mt_base::laws::{exact, sums, wider};

/// The law that what is written is read as what was written, for every set of channels and all values;
/// and that the number of a set of channels has a bit for each channel that is in the set, and no other.
pub fn written_is_read()
    ensures again { WrittenIsRead }
    ensures bits { (named : ℕ → Bool) (c : ℕ) → c ≤ 15 → has_bit c (as_number 16 named) ≡ named c }
    ensures range { (named : ℕ → Bool) → as_number 16 named ≤ 65535 }
{}

/// Laws of classes: the least used key of a class is one that is used, below which no key of the class is
/// used, and there is none where no key of the class is used. Where a key is refused, not all used keys
/// fit.
pub fn class_laws()
    ensures least { (used class key : ℕ) → least_used used class ≡ Some key
        → IsLeastUsed used class key }
    ensures none { (used class : ℕ) → least_used used class ≡ None
        → (key : ℕ) → key ≤ 127 → key % 12 ≡ class → is_used used key ≡ false }
    ensures refused { (table : ℕ → Option Bounds) (used : ℕ) (fault : OctaveFault)
        → Refuses table used fault → ¬ FitBelow table used 128 }
{}

/// Values of key 60 by the lower end of its pitch in grains: level; half a step is rounded up; the least
/// and the greatest value, and one grain beyond each. A class has the value of its least used key, and is
/// level where no key is used. Channels 1, 8, 15 and 16 as a number, and in the bytes of a message. Drums
/// on one port cause none; on another port one stands before the first note and behind the later reset.
pub fn octave_examples()
    ensures level { nearest_value 60 (pos 192000000000000) ≡ pos 8192 }
    ensures half { nearest_value 60 (pos 192000195312500) ≡ pos 8193 }
    ensures below_half { nearest_value 60 (pos 192000195312499) ≡ pos 8192 }
    ensures least { nearest_value 60 (pos 188799804687500) ≡ pos 0 }
    ensures too_low { nearest_value 60 (pos 188799804687499) ≡ negsuc 0 }
    ensures greatest { nearest_value 60 (pos 195199804687499) ≡ pos 16383 }
    ensures too_high { nearest_value 60 (pos 195199804687500) ≡ pos 16384 }
    ensures least_key { class_value rising two_keys 9 ≡ pos 8249 }
    ensures no_key { class_value rising two_keys 8 ≡ pos 8192 }
    ensures channel_16 { as_number 16 (λ c. nat_eq c 15) ≡ 32768 }
    ensures channels { take 7 (octave_bytes 49281 (replicate 12 8192))
        ≡ 0x7e ∷ 0x7f ∷ 0x08 ∷ 0x09 ∷ 0x03 ∷ 0x01 ∷ 0x01 ∷ [] }
    ensures output { octaved drums_kept (replicate 12 8192)
        (before_notes ++ at 5 1 (Says (NoteOn 1 69 64)) ∷ at 9 1 reset ∷ [])
        ≡ before_notes ++ at 5 1 (level_message 2) ∷ at 5 1 (Says (NoteOn 1 69 64))
        ∷ at 9 1 reset ∷ at 9 1 (level_message 2) ∷ [] }
{}

/// For a source without a fault, and the values of the classes of its keys, which all fit: what the octave
/// route writes plays the same on a receiver of octave tuning, on every port: the same notes, each within
/// one and a half steps of 1/8192 semitone and a thousandth of a cent of its source pitch, right from its
/// beginning; all other events and kept drums are passed on.
pub fn octaved_plays_the_same()
    ensures events { OctavePlaysTheSame }
    ensures file { OctavedFilePlaysTheSame }
{
    written_is_read();
    music_laws();
    sums();
    exact();
    wider();
}

/// It can be written as a file like its source: it is valid, in order, and each track ends once.
pub fn octaved_is_playable()
    ensures { OctavedIsPlayable }
{}

/// Each source event causes at most 1,600 bytes beside its own, so each track that is written for a source
/// of at most 4,194,304 bytes fits in its chunk.
pub fn octaved_is_short()
    ensures events { OctavedAddsFewBytes }
    ensures tracks { OctavedTracksAreShort }
{
    file_laws();
    merged_order();
    size_laws();
}
