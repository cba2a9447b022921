//! What the receiver does, by worked examples and by laws. The functions do nothing: their contracts are what is stated.

ghost use Rattle.std.specs.Prelude.{◌≡◌, ◌++◌, ◌+◌, ◌*◌, ℕ, true, [], ◌∷◌, pos, replicate, Some, None};
ghost use Rattle.mt_base.specs.declared.event.Msg.TheVariants.{NoteOn, NoteOff, KeyPressure, Control, Program, Pressure, Bend};
ghost use Rattle.midi_model.specs.Sysex.{is_dump};
ghost use Rattle.midi_model.specs.Channel.{default_channel, default_state};
ghost use Rattle.midi_model.specs.Zones.{no_zones};
ghost use Rattle.midi_model.specs.Music.{quiet, play, channel_at};
ghost use Rattle.midi_model.specs.Tuning.{selected_of};
ghost use Rattle.midi_model.specs.Receiver.{after};
ghost use Rattle.midi_model.specs.ReceiverLaws.{OneNoteSoundsOnAKey, ZonesStayApart, NotesEndInTime, MusicIsAlone, TuningIsKept, MusicIsAloneAlways};
ghost use Rattle.midi_model.specs.Bring.{bring, apply_all, registered};
ghost use Rattle.midi_model.specs.Examples.{at, all_at, sysex, sysex_with, ends, releases, programs, pressures, pitches, controller_at, state_of, state_after, bend_ranges_of, zones_of, zones, parameter_at_65, two_channels, struck_again, struck_while_down, sostenuto_down, sostenuto_up, released_by_zero, reset_between, wheel_set, wheel_reset, all_set, all_left, zone, on_member, stirred, ResetsAll, ChangesNothing, dump, change, tuned, tuned_with, voiced, ranged_only, fine_tuned};

/// Pedals and notes that are struck again, by example: the tick at which each note ended, in the order of note ons.
pub fn pedal_examples()
    ensures two_channels { ends two_channels ≡ Some 960 ∷ Some 720 ∷ Some 1440 ∷ [] }
    ensures struck_again { ends struck_again ≡ Some 600 ∷ Some 1200 ∷ [] }
    ensures struck_while_down { ends struck_while_down ≡ Some 600 ∷ Some 1200 ∷ [] }
    ensures never_released { releases struck_while_down ≡ None ∷ Some (960, 64) ∷ [] }
    ensures struck_later { ends sostenuto_down ≡ None ∷ Some 960 ∷ [] }
    ensures sostenuto { ends sostenuto_up ≡ Some 1440 ∷ Some 960 ∷ [] }
    ensures velocity_zero { releases released_by_zero ≡ Some (480, 64) ∷ [] }
    ensures ended_there { ends released_by_zero ≡ Some 480 ∷ [] }
{}

/// The five resets, with other device numbers and what only looks like one, by example.
pub fn reset_examples()
    ensures between { ends reset_between ≡ Some 480 ∷ Some 1440 ∷ [] }
    ensures general_midi_on { ResetsAll (0x7e ∷ 0x05 ∷ 0x09 ∷ 0x01 ∷ 0xf7 ∷ []) }
    ensures general_midi_on_all { ResetsAll (0x7e ∷ 0x7f ∷ 0x09 ∷ 0x01 ∷ 0xf7 ∷ []) }
    ensures general_midi_off { ResetsAll (0x7e ∷ 0x05 ∷ 0x09 ∷ 0x02 ∷ 0xf7 ∷ []) }
    ensures general_midi_off_all { ResetsAll (0x7e ∷ 0x7f ∷ 0x09 ∷ 0x02 ∷ 0xf7 ∷ []) }
    ensures general_midi_2_on { ResetsAll (0x7e ∷ 0x05 ∷ 0x09 ∷ 0x03 ∷ 0xf7 ∷ []) }
    ensures general_midi_2_on_all { ResetsAll (0x7e ∷ 0x7f ∷ 0x09 ∷ 0x03 ∷ 0xf7 ∷ []) }
    ensures roland { ResetsAll (0x41 ∷ 0x10 ∷ 0x42 ∷ 0x12 ∷ 0x40
        ∷ 0x00 ∷ 0x7f ∷ 0x00 ∷ 0x41 ∷ 0xf7 ∷ []) }
    ensures yamaha { ResetsAll (0x43 ∷ 0x10 ∷ 0x4c ∷ 0x00 ∷ 0x00 ∷ 0x7e ∷ 0x00 ∷ 0xf7 ∷ []) }
    ensures yamaha_other { ResetsAll (0x43 ∷ 0x1f ∷ 0x4c ∷ 0x00 ∷ 0x00 ∷ 0x7e ∷ 0x00 ∷ 0xf7 ∷ []) }
    ensures next_number { ChangesNothing (0x7e ∷ 0x05 ∷ 0x09 ∷ 0x04 ∷ 0xf7 ∷ []) }
    ensures without_end { ChangesNothing (0x7e ∷ 0x05 ∷ 0x09 ∷ 0x01 ∷ []) }
    ensures a_byte_more { ChangesNothing (0x7e ∷ 0x05 ∷ 0x09 ∷ 0x01 ∷ 0x00 ∷ 0xf7 ∷ []) }
    ensures another_device { ChangesNothing (0x41 ∷ 0x11 ∷ 0x42 ∷ 0x12 ∷ 0x40
        ∷ 0x00 ∷ 0x7f ∷ 0x00 ∷ 0x41 ∷ 0xf7 ∷ []) }
    ensures another_half { ChangesNothing (0x43 ∷ 0x20 ∷ 0x4c ∷ 0x00 ∷ 0x00 ∷ 0x7e ∷ 0x00 ∷ 0xf7 ∷ []) }
    ensures another_lead { play quiet (stirred ++ sysex_with 0xf7 9 (0x7e ∷ 0x05 ∷ 0x09
        ∷ 0x01 ∷ 0xf7 ∷ []) ∷ []) ≡ play quiet stirred }
{}

/// Controllers and what reset all controllers, 121, clears, by example.
pub fn controller_examples()
    ensures volume { controller_at 7 [] ≡ 100 }
    ensures wheel_set { controller_at 1 wheel_set ≡ 100 }
    ensures wheel_reset { controller_at 1 wheel_reset ≡ 0 }
    ensures still_sounds { ends wheel_reset ≡ None ∷ [] }
    ensures ends_later { ends (wheel_reset ++ at 960 (NoteOff 0 69 64) ∷ []) ≡ Some 960 ∷ [] }
    ensures clears { state_of 0 (all_set ++ at 0 (Control 0 121 0) ∷ []) ≡ state_of 0 all_left }
    ensures releases_captured { ends (sostenuto_down ++ at 1200 (Control 0 121 0) ∷ [])
        ≡ Some 1200 ∷ Some 960 ∷ [] }
    ensures key_pressed { pressures stirred ≡ 5 ∷ [] }
    ensures key_not_sounding { pressures (all_at 0 (KeyPressure 0 60 5 ∷ NoteOn 0 60 64 ∷ [])) ≡ 0 ∷ [] }
{}

/// Zones, by example: the numbers of members of the lower and of the upper one, and what a note on a member takes from its master.
pub fn zone_examples()
    ensures set { zones_of (zone 0 3) ≡ zones 3 0 }
    ensures beside { zones_of (zone 0 3 ++ zone 15 11) ≡ zones 3 11 }
    ensures over { zones_of (zone 0 3 ++ zone 15 12) ≡ zones 0 12 }
    ensures at_most_fifteen { zones_of (zone 15 1 ++ zone 0 99) ≡ zones 15 0 }
    ensures off { zones_of (zone 0 3 ++ (zone 15 4 ++ zone 0 0)) ≡ zones 0 4 }
    ensures elsewhere { zones_of (zone 4 3) ≡ no_zones }
    ensures ranges { bend_ranges_of (zone 15 4) ≡ replicate 11 2 ++ replicate 4 48 ++ 2 ∷ [] }
    ensures ranges_kept { bend_ranges_of (zone 15 4 ++ zone 15 0) ≡ bend_ranges_of (zone 15 4) }
    ensures held_by_master { ends (on_member ++ at 5 (NoteOff 1 60 64) ∷ at 7 (Control 1 64 0)
        ∷ at 9 (Control 0 64 0) ∷ []) ≡ Some 9 ∷ [] }
    ensures ended_by_master { ends (on_member ++ at 5 (Control 0 120 0) ∷ []) ≡ Some 5 ∷ [] }
    ensures let_go_when_off { ends (on_member ++ (at 5 (NoteOff 1 60 64) ∷ all_at 7 (registered 0 6 0)))
        ≡ Some 7 ∷ [] }
    ensures program { programs on_member ≡ 9 ∷ [] }
    ensures pitch { pitches on_member
        ≡ pos (60 * 3200000000000 + 1 * 3906250 * 4800 + 1000 * 3906250 * 200) ∷ [] }
{}

/// Tuning programs, by example: a dump of equal temperament is read and played, and changes of one key.
pub fn tuning_examples()
    ensures untuned { pitches (at 0 (NoteOn 0 69 64) ∷ []) ≡ pos 220800000000000 ∷ [] }
    ensures dump { is_dump dump ≡ true }
    ensures dumped { pitches tuned ≡ pos 220800000000000 ∷ [] }
    ensures highest { pitches (tuned_with 0x7f 0x7f 0x7e) ≡ pos (195312500 * 2097150) ∷ [] }
    ensures no_change { pitches (tuned_with 0x7f 0x7f 0x7f) ≡ pos 220800000000000 ∷ [] }
    ensures a_step_up { pitches (tuned_with 0x45 0x00 0x01) ≡ pos (220800000000000 + 195312500) ∷ [] }
    ensures not_selected { pitches (sysex 0 (change 0x7f 0x7f 0x7e) ∷ at 0 (NoteOn 0 69 64) ∷ [])
        ≡ pos 220800000000000 ∷ [] }
    ensures another_lead { pitches (tuned ++ sysex_with 0xf7 0 (change 0x7f 0x7f 0x7e) ∷ [])
        ≡ pos 220800000000000 ∷ [] }
    ensures coarse { pitches (parameter_at_65 2) ≡ pos (220800000000000 + 3200000000000) ∷ [] }
    ensures fine { pitches (parameter_at_65 1) ≡ pos (220800000000000 + 128 * 390625000) ∷ [] }
{}

/// Bringing a channel from one state to another, by example.
pub fn bring_examples()
    ensures voice_and_range { bring 0 default_state voiced
        ≡ Program 0 5 ∷ Control 0 7 80 ∷ registered 0 0 12 }
    ensures back { bring 0 voiced ranged_only ≡ Program 0 0 ∷ Control 0 7 100 ∷ [] }
    ensures fine_tuned { bring 0 default_state fine_tuned
        ≡ Control 0 101 0 ∷ Control 0 100 0 ∷ Control 0 6 12 ∷ registered 0 1 65 }
    ensures reached { apply_all default_state (bring 0 default_state fine_tuned) ≡ fine_tuned }
    ensures nothing_to_do { bring 0 fine_tuned fine_tuned ≡ [] }
    ensures bank { bring 2 default_state (state_after 2 (Control 2 0 3 ∷ Program 2 5 ∷ Control 2 0 4 ∷ []))
        ≡ Control 2 0 3 ∷ Program 2 5 ∷ Control 2 0 4 ∷ [] }
    ensures defaults_first { bring 0 (state_after 0 (Control 0 101 1 ∷ Control 0 100 1
        ∷ Control 0 38 1 ∷ [])) fine_tuned
        ≡ (Control 0 101 1 ∷ Control 0 100 1 ∷ Control 0 38 0 ∷ []) ++ bring 0 default_state fine_tuned }
    ensures touch { bring 1 default_state
        (state_after 1 (Pressure 1 7 ∷ Bend 1 0 ∷ NoteOn 1 60 1 ∷ KeyPressure 1 60 9 ∷ []))
        ≡ Pressure 1 7 ∷ Bend 1 0 ∷ KeyPressure 1 60 9 ∷ [] }
{}

/// Before any event nothing sounds, every channel has its defaults, and nothing is tuned.
pub fn silent_at_first()
    ensures notes { (after []).music.notes ≡ [] }
    ensures zones { (after []).music.zones ≡ no_zones }
    ensures channels { (c : ℕ) → channel_at (after []).music c ≡ default_channel }
    ensures selected { (c : ℕ) → selected_of (after []).tuning c ≡ None }
    ensures values { (program key : ℕ) → (after []).tuning.values program key ≡ None }
{}

/// What holds after any list of events: at most one note sounds on a key of a channel, and the zones share no channel.
/// Where the events come in the order of their ticks, no note ends before it began.
pub fn receiver_laws()
    ensures one_note { OneNoteSoundsOnAKey }
    ensures zones_apart { ZonesStayApart }
    ensures ends_in_time { NotesEndInTime }
{}

/// The music never depends on the tuning. So two receivers that differ in their tunings and selected tuning programs alone still
/// do after any event that is no tuning message and no selection of a program, and where it is no reset, each tuning is then as
/// it was.
pub fn music_hears_no_tuning()
    ensures alone { MusicIsAlone }
    ensures kept { TuningIsKept }
    ensures always { MusicIsAloneAlways }
{}
