//! What the definitions say of small scales and sources. The functions do nothing: their contracts are the examples.

ghost use Rattle.std.specs.Prelude.{◌≡◌, ◌++◌, ◌+◌, ◌*◌, ◌-◌, ◌≤◌, ℕ, ℤ, true, false, List, [], ◌∷◌, pos, negsuc, neg_ℤ, Some, None, length, replicate};
ghost use Rattle.mt_base.specs.declared.event.Msg.TheVariants.{NoteOn, NoteOff, KeyPressure, Control, Program, Pressure, Bend};
ghost use Rattle.midi_model.specs.Music.{quiet, play, channel_at};
ghost use Rattle.midi_model.specs.TuningBytes.{select_of};
ghost use Rattle.midi_model.specs.Examples.{at, all_at, sysex, general_midi_on, two_channels, dump};
ghost use Rattle.kbm_text.specs.Map.{a440};
ghost use Rattle.retune_model.specs.Scale.{scale_pitch, term_count};
ghost use Rattle.retune_model.specs.Table.{nearest_tuning, nearest_key, nearest_steps};
ghost use Rattle.retune_model.specs.Options.{ByDump, ByLive, ByBend, ByMpe};
ghost use Rattle.retune_model.specs.Source.{bend_in_steps};
ghost use Rattle.retune_model.specs.Faults.{UnmappedKey, KeyOutOfDevice, Unison, BendTooFar, ModeMessage, DataStep, TuningInSource, MpeSource, Port, TooManyParameters, PolyInMpe, Restrike, is_part};
ghost use Rattle.retune_model.specs.Ports.{tick_to};
ghost use Rattle.retune_model.specs.Pairs.{is_same_pair};
ghost use Rattle.retune_model.specs.Runs.{since};
ghost use Rattle.retune_model.specs.PortNeed.{IsValidOn, size_on};
ghost use Rattle.retune_model.specs.SourceFaults.{first_fault, IsSound};
ghost use Rattle.retune_model.specs.Octave.{octave_of};
ghost use Rattle.retune_model.specs.Dump.{dumped, told_live};
ghost use Rattle.retune_model.specs.PlaysTheSame.{PlayTheSame, plain_device};
ghost use Rattle.retune_model.specs.Dumpable.{IsDumpable};
ghost use Rattle.retune_model.specs.Examples.{two_steps, comma, comma_mapping, gapped_mapping, equal_table, just_table, gapped_table, joined_table, raised_table, changing_table, with_route, at_range, resting, bend_options, mpe_options, end_at, one_note, chord, octave_apart, two_parts, reset_between, one_after_other, bent_at_rest, struck_again_at, struck_bent, set_parameters, port_event, two_ports, five_ports, ends_in, dumped_begins_in, counts, pairs, pair, held, needed, fault_of, change, even, octave_message, level_bytes, raised_bytes, read_values, read_for, octave_pitch};

use crate::channels::fewest_channels;
use crate::faults::fault_laws;
use crate::routes::dump_plays_the_same;
use mt_base::laws::exact;

/// Scale pitches and term counts, by example: a step of 50 cents from key 69, a map with a key left out, and a key 6,000 commas away.
pub fn scale_examples()
    ensures half_a_semitone { scale_pitch two_steps a440 70
        ≡ Some (record { a = 440000000000; b = 440000000000; c = pos (6950 * 32000000000) }) }
    ensures left_out { scale_pitch two_steps (gapped_mapping 69) 61 ≡ None }
    ensures reference_left_out { scale_pitch two_steps (gapped_mapping 61) 60 ≡ None }
    ensures terms { term_count comma comma_mapping 0 ≡ 6001 }
    ensures terms_near { term_count comma comma_mapping 60 ≡ 1 }
    ensures no_terms { term_count two_steps a440 70 ≡ 1 }
{}

/// Targets, by example: of a pitch in the middle between two keys, and of a just third.
pub fn target_examples()
    ensures middle_tuning { nearest_tuning (pos (6950 * 32000000000))
        ≡ pos (16384 * 0x45 + 128 * 0x40 + 0x00) }
    ensures middle_key { nearest_key (pos (6950 * 32000000000)) ≡ pos 70 }
    ensures middle_steps { nearest_steps 12 (pos (6950 * 32000000000)) ≡ neg_ℤ (pos 341) }
    ensures third_tuning { nearest_tuning (pos (32 * 6386313714000))
        ≡ pos (16384 * 0x3f + 128 * 0x6e + 0x3e) }
    ensures third_key { nearest_key (pos (32 * 6386313714000)) ≡ pos 64 }
    ensures third_steps { nearest_steps 12 (pos (32 * 6386313714000)) ≡ neg_ℤ (pos 93) }
{}

/// A source's bend in whole steps of the output's, by example.
pub fn bend_examples()
    ensures full { bend_in_steps 12 (channel_at (play quiet (at 0 (Bend 0 16383) ∷ [])) 0)
        ≡ pos 1365 }
    ensures quarter { bend_in_steps 12 (channel_at (play quiet (at 0 (Bend 0 10240) ∷ [])) 0)
        ≡ pos 341 }
    ensures centred { bend_in_steps 12 (channel_at quiet 0) ≡ pos 0 }
    ensures narrow { bend_in_steps 1 (channel_at (play quiet (at 0 (Bend 0 12288) ∷ [])) 0)
        ≡ pos 8192 }
{}

/// Faults of a source, by example: the place of the first event that has one, and its kind.
pub fn fault_examples()
    ensures unmapped { fault_of (with_route ByDump 12) gapped_table (at 0 (NoteOn 0 61 64) ∷ [])
        ≡ Some (1, UnmappedKey) }
    ensures velocity_zero { fault_of (with_route ByDump 12) gapped_table (at 0 (NoteOn 0 61 0) ∷ [])
        ≡ None }
    ensures kept_drums { fault_of (with_route ByDump 12) gapped_table (at 0 (NoteOn 9 61 64) ∷ [])
        ≡ None }
    ensures unison { fault_of bend_options joined_table (all_at 0 (NoteOn 0 69 64 ∷ NoteOn 0 70 64 ∷ []))
        ≡ Some (2, Unison) }
    ensures no_unison { fault_of (with_route ByDump 12) joined_table (all_at 0 (NoteOn 0 69 64
        ∷ NoteOn 0 70 64 ∷ []))
        ≡ None }
    ensures too_far { fault_of (with_route ByBend 1) equal_table (all_at 0 (Bend 0 12288 ∷ NoteOn 0 69 64
        ∷ []))
        ≡ Some (2, BendTooFar) }
    ensures program_selected { fault_of (with_route ByLive 12) equal_table (all_at 0 (Control 0 101 0
        ∷ Control 0 100 3 ∷ Control 0 6 1 ∷ []))
        ≡ Some (3, TuningInSource) }
    ensures zone_set { fault_of (with_route ByLive 12) equal_table (all_at 0 (Control 0 101 0
        ∷ Control 0 100 6 ∷ Control 0 6 1 ∷ []))
        ≡ Some (3, MpeSource) }
    ensures data_step { fault_of (with_route ByLive 12) equal_table (at 0 (Control 0 96 0) ∷ [])
        ≡ Some (1, DataStep) }
    ensures mode { fault_of (with_route ByLive 12) equal_table (at 0 (Control 0 126 0) ∷ [])
        ≡ Some (1, ModeMessage) }
    ensures tuning_message { fault_of (with_route ByLive 12) equal_table (sysex 0 dump ∷ [])
        ≡ Some (1, TuningInSource) }
    ensures port { fault_of (with_route ByLive 12) equal_table (port_event 0 1 ∷ []) ≡ None }
    ensures port_behind { fault_of (with_route ByLive 12) equal_table (at 0 (NoteOn 0 69 64) ∷ port_event 0 1
        ∷ [])
        ≡ Some (2, Port) }
    ensures key_pressure { fault_of mpe_options equal_table (all_at 0 (NoteOn 0 69 64 ∷ KeyPressure 0 69 9 ∷ []))
        ≡ Some (2, PolyInMpe) }
    ensures out_of_device { fault_of bend_options raised_table (at 0 (NoteOn 0 127 64) ∷ [])
        ≡ Some (1, KeyOutOfDevice) }
    ensures in_device { fault_of bend_options raised_table (at 0 (NoteOn 0 126 64) ∷ []) ≡ None }
    ensures parameters { fault_of (with_route ByDump 12) equal_table (set_parameters 17)
        ≡ Some (35, TooManyParameters) }
    ensures few_parameters { fault_of (with_route ByDump 12) equal_table (set_parameters 16) ≡ None }
    ensures restrike { fault_of (with_route ByBend 1) changing_table (struck_bent 8192)
        ≡ Some (3, Restrike) }
    ensures restrike_too_far { fault_of (with_route ByBend 1) changing_table (struck_bent 4392)
        ≡ Some (3, BendTooFar) }
    ensures far_alone { fault_of (with_route ByBend 1) equal_table (struck_bent 4392) ≡ None }
{}

/// How many pairs there are at each position, and which ones where there are most, by example.
pub fn pair_examples()
    ensures octave { counts bend_options just_table octave_apart 0 ≡ 0 ∷ 1 ∷ 1 ∷ [] }
    ensures two_parts { counts bend_options equal_table two_parts 0 ≡ 0 ∷ 1 ∷ 2 ∷ [] }
    ensures two_parts_pairs { pairs bend_options equal_table two_parts 0 2
        ≡ pair 0 0 (pos 0) ∷ pair 0 1 (pos 0) ∷ [] }
    ensures pedal { counts bend_options equal_table two_channels 0
        ≡ 0 ∷ 0 ∷ 1 ∷ 1 ∷ 2 ∷ 1 ∷ 0 ∷ 1 ∷ 0 ∷ [] }
    ensures pedal_tick { tick_to two_channels 4 ≡ 480 }
    ensures chord { counts bend_options just_table chord 0 ≡ 0 ∷ 1 ∷ 2 ∷ 3 ∷ 2 ∷ 1 ∷ 0 ∷ [] }
    ensures chord_pairs { pairs bend_options just_table chord 0 3
        ≡ pair 0 0 (neg_ℤ (pos 93)) ∷ pair 0 0 (pos 0) ∷ pair 0 0 (pos 13) ∷ [] }
{}

/// One part takes over from another: without a tail one channel is enough; with a tail of 1 the first note still rests as the second
/// begins at the same tick, and no longer where it begins a tick later. A rest that runs out at the tick of the next note of its pair
/// leaves no gap: its run goes on.
pub fn rest_examples()
    ensures need_no_tail { needed (resting 0) (one_after_other 480) 0 ≡ (1, 1) }
    ensures need_tail { needed (resting 1) (one_after_other 480) 0 ≡ (2, 3) }
    ensures need_later { needed (resting 1) (one_after_other 481) 0 ≡ (1, 1) }
    ensures no_tail { counts (resting 0) equal_table (one_after_other 480) 0
        ≡ 0 ∷ 1 ∷ 0 ∷ 1 ∷ 0 ∷ [] }
    ensures tail { counts (resting 1) equal_table (one_after_other 480) 0 ≡ 0 ∷ 1 ∷ 1 ∷ 2 ∷ 1 ∷ [] }
    ensures tail_pairs { pairs (resting 1) equal_table (one_after_other 480) 0 3
        ≡ pair 0 0 (pos 0) ∷ pair 0 1 (pos 0) ∷ [] }
    ensures tail_tick { tick_to (one_after_other 480) 3 ≡ 480 }
    ensures later { counts (resting 1) equal_table (one_after_other 481) 0
        ≡ 0 ∷ 1 ∷ 1 ∷ 1 ∷ 1 ∷ [] }
    ensures held_there { held (resting 1) equal_table (one_after_other 480) 0 3
        ≡ pair 0 0 (pos 0) ∷ [] }
    ensures not_held { held (resting 1) equal_table (one_after_other 481) 0 3 ≡ [] }
    ensures run_goes_on { since is_same_pair (pairs (resting 20) equal_table (struck_again_at 500) 0)
        (pair 0 0 (pos 0)) 4 ≡ 1 }
    ensures run_begins { since is_same_pair (pairs (resting 10) equal_table (struck_again_at 500) 0)
        (pair 0 0 (pos 0)) 4 ≡ 4 }
{}

/// A bend that goes too far for a pair that rests is a fault, and none once the rest has run out.
pub fn beyond_examples()
    ensures rests { first_fault (at_range 1 100) equal_table bent_at_rest
        ≡ Some (record { position = 3; tick = 490; track = 0; kind = BendTooFar; bend = Some (pos 0, pos 8192) }) }
    ensures over { first_fault (at_range 1 10) equal_table bent_at_rest ≡ None }
{}

/// Two ports, each with a note; a track that changes its port; a fifth port; what is dumped for two ports.
pub fn port_examples()
    ensures first { counts bend_options equal_table two_ports 0 ≡ 0 ∷ 0 ∷ 1 ∷ 1 ∷ 1 ∷ 0 ∷ 0 ∷ [] }
    ensures second { counts bend_options equal_table two_ports 1 ≡ 0 ∷ 0 ∷ 0 ∷ 0 ∷ 1 ∷ 1 ∷ 0 ∷ [] }
    ensures need_first { needed bend_options two_ports 0 ≡ (1, 2) }
    ensures need_second { needed bend_options two_ports 1 ≡ (1, 4) }
    ensures first_pairs { pairs bend_options equal_table two_ports 0 2 ≡ pair 0 0 (pos 0) ∷ [] }
    ensures second_pairs { pairs bend_options equal_table two_ports 1 4 ≡ pair 1 0 (pos 0) ∷ [] }
    ensures dumped { dumped (with_route ByDump 12) (1 ∷ []) two_ports
        ≡ dumped_begins_in 0 ++ (dumped_begins_in 1 ++ (ends_in 0 ++ ends_in 1)) }
    ensures fine { first_fault bend_options equal_table two_ports ≡ None }
    ensures changed { first_fault bend_options equal_table (port_event 0 0 ∷ port_event 0 1 ∷ [])
        ≡ Some (record { position = 2; tick = 0; track = 0; kind = Port; bend = None }) }
    ensures same { first_fault bend_options equal_table (port_event 0 1 ∷ port_event 0 1 ∷ [])
        ≡ None }
    ensures fifth { first_fault bend_options equal_table five_ports
        ≡ Some (record { position = 10; tick = 0; track = 4; kind = Port; bend = None }) }
{}

/// The outputs of the dump and live routes, by example.
pub fn output_examples()
    ensures dump { dumped (with_route ByDump 12) dump one_note
        ≡ sysex 0 dump ∷ (all_at 0 (select_of 0 0) ++ one_note) }
    ensures dump_of_nothing { dumped (with_route ByDump 12) dump (end_at 0 ∷ []) ≡ end_at 0 ∷ [] }
    ensures live { told_live (with_route ByLive 12) change one_note
        ≡ all_at 0 (select_of 0 0) ++ (sysex 0 (change 69) ∷ one_note) }
{}

/// A message of octave tuning for the first channel, and by how much a receiver moves a key by it; a tuning of no channel; a device of
/// two bytes.
pub fn octave_examples()
    ensures values { read_values (octave_of (octave_message 1 level_bytes)) ≡ replicate 12 8192 }
    ensures first { read_for (octave_of (octave_message 1 level_bytes)) 0 ≡ true }
    ensures second { read_for (octave_of (octave_message 1 level_bytes)) 1 ≡ false }
    ensures short { octave_of (0x7e ∷ 0x7f ∷ 8 ∷ 9 ∷ 0 ∷ 0 ∷ 1 ∷ 0xf7 ∷ []) ≡ None }
    ensures moved { octave_pitch (sysex 0 (octave_message 1 raised_bytes) ∷ one_note)
        ≡ pos (69 * 3200000000000 + 390625000) }
    ensures other_channel { octave_pitch (sysex 0 (octave_message 2 raised_bytes) ∷ one_note)
        ≡ pos (69 * 3200000000000) }
    ensures reset { octave_pitch (sysex 0 (octave_message 1 raised_bytes) ∷ sysex 0 general_midi_on
        ∷ one_note)
        ≡ pos (69 * 3200000000000) }
{}

/// The premises of the law of need can be met, and what it says of the first example: with a tail of 1 no valid assignment makes do
/// with one channel.
pub fn need_examples()
    ensures rests { IsSound (resting 1) equal_table (one_after_other 480) }
    ensures ports { IsSound bend_options equal_table two_ports }
    ensures two_needed { (channel : ℕ → ℕ) →
        IsValidOn (resting 1) (is_part (resting 1)) equal_table (one_after_other 480) 0 channel →
        2 ≤ size_on (is_part (resting 1)) (one_after_other 480) 0 channel }
{
    fault_laws();
    fewest_channels();
}

/// The premises of the dump route's law can be met: a source with a reset between two notes, in equal temperament.
pub fn dumpable_example()
    ensures dumpable { IsDumpable even (with_route ByDump 12) equal_table dump reset_between }
    ensures same { PlayTheSame even (with_route ByDump 12) equal_table (plain_device (with_route ByDump 12))
        reset_between (dumped (with_route ByDump 12) dump reset_between) }
{
    exact();
    fault_laws();
    dump_plays_the_same();
}
